//! Parsers into which tokens are pushed: their functions, and the variables of a parse that are kept
//! from one token to the next.

use crate::begin::{CALLS, KEPT};
use crate::skeleton::Skeleton;
use yfiles::output::Output;

/// The names of their functions and types that a prefix changes.
pub const PUSHED: [&str; 6] = [
    "push_parse",
    "pull_parse",
    "pstate_new",
    "pstate_clear",
    "pstate_delete",
    "pstate",
];

/// The variables that are kept, each under its condition.
const VARIABLES: [(&str, &str); 16] = [
    ("push", "state"),
    ("push", "errflag"),
    ("push", "depth"),
    ("push", "ssa"),
    ("push", "ss"),
    ("push", "ssp"),
    ("push", "sslast"),
    ("push", "vsa"),
    ("push", "vs"),
    ("push", "vsp"),
    ("locations", "lsa"),
    ("locations", "ls"),
    ("locations", "lsp"),
    ("locations", "errdepth"),
    ("speaks", "leafa"),
    ("speaks", "leaf"),
];

/// What is declared of a parse before its functions.
const MORE: &str = "\n#ifndef YYPUSH_MORE_DEFINED\n# define YYPUSH_MORE_DEFINED\n\
    enum { YYPUSH_MORE = 4 };\n#endif\n\ntypedef struct ";

impl Skeleton<'_> {
    /// Writes what `yypush_parse` gets beside a parse: a token where no variables are shared, and
    /// the parameters of `yyparse`.
    pub fn put_pushed(&self, out: &mut Output) {
        if self.style.is_pure() {
            self.put_macros(out, ", int yypushed_char, @STYPE const *yypushed_val");
            if self.style.locations {
                self.put_macros(out, ", @LTYPE *yypushed_loc");
            }
        }
        self.put_more(out);
    }

    /// Declares the functions of a parser.
    pub fn put_functions(&self, out: &mut Output) {
        let (style, names) = (self.style, self.style.names.as_slice());
        if style.is_pushed() {
            out.put(MORE);
            out.put_pieces(&[names, b"pstate ", names, b"pstate;\n"]);
        }
        if style.is_pulled() {
            out.put_pieces(&[b"\nint ", names, b"parse ("]);
            self.put_parse(out);
            out.put(");\n");
        }
        if !style.is_pushed() {
            return;
        }
        out.put_pieces(&[b"int ", names, b"push_parse (", names, b"pstate *yyps"]);
        self.put_pushed(out);
        out.put(");\n");
        if style.is_pulled() {
            out.put_pieces(&[b"int ", names, b"pull_parse (", names, b"pstate *yyps"]);
            self.put_more(out);
            out.put(");\n");
        }
        out.put_pieces(&[names, b"pstate *", names, b"pstate_new (void);\n"]);
        out.put_pieces(&[
            b"void ",
            names,
            b"pstate_delete (",
            names,
            b"pstate *yyps);\n",
        ]);
    }

    /// Writes what is kept of a parse.
    pub fn put_kept(&self, out: &mut Output) {
        if self.style.is_pushed() {
            self.style.put_fixed(out, KEPT);
        }
    }

    /// Writes how a parse is made and thrown away, and then that its variables are those that are
    /// kept.
    pub fn put_push_calls(&self, out: &mut Output) {
        let (style, names) = (self.style, self.style.names.as_slice());
        if !style.is_pushed() {
            return;
        }
        style.put_fixed(out, CALLS);
        for (word, name) in &VARIABLES {
            let name = name.as_bytes();
            if style.holds(word) {
                out.put_pieces(&[b"#define yy", name, b" yyps->yy", name, b"\n"]);
            }
        }
        if style.is_pure() {
            out.put_pieces(&[b"#define ", names, b"nerrs yyps->", names, b"nerrs\n"]);
        }
    }

    /// Writes that these names mean nothing any more.
    pub fn put_push_end(&self, out: &mut Output) {
        let (style, names) = (self.style, self.style.names.as_slice());
        if !style.is_pushed() {
            return;
        }
        for (word, name) in &VARIABLES {
            if style.holds(word) {
                out.put_pieces(&[b"#undef yy", name.as_bytes(), b"\n"]);
            }
        }
        if style.is_pure() {
            out.put_pieces(&[b"#undef ", names, b"nerrs\n"]);
        }
    }
}
