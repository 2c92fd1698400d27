//! The text of a parser in C and that of its header, in the order that byacc or bison has.

use crate::begin::BEGIN;
use crate::errors::{CUSTOM, DESTROY_FRONT, EXPECTED, MESSAGE, SWITCH_END, WAYS};
use crate::machine::{END, MACHINE};
use crate::push::PUSHED;
use crate::skeleton::Skeleton;
use crate::spoken::SPOKEN;
use crate::tables::READING;
use crate::traces::{SHOW_END, SHOW_FRONT};
use crate::words::{FRONT, INCLUDES, WORDS};
use std::alloc::Global;
use yexplain::reads::Made;
use yfiles::output::Output;
use yparts::options::{Errors, Purity};
use yparts::parts::{Deed, Target};

/// The names that a prefix changes.
const NAMES: [&str; 5] = ["parse", "lex", "error", "debug", "nerrs"];

/// Those that bison changes only where calls share their variables.
const VARIABLES: [&str; 3] = ["lval", "char", "lloc"];

/// The names of types and macros that `api.prefix` changes.
const TYPES: [&str; 4] = ["STYPE", "LTYPE", "LTYPE_IS_TRIVIAL", "DEBUG"];

/// Writes other names, with this prefix, for those that begin so.
fn put_names(out: &mut Output, front: &[u8], prefix: &[u8], names: &[&str]) {
    for name in names {
        let name = name.as_bytes();
        out.put_pieces(&[b"#define ", front, name, b" ", prefix, name, b"\n"]);
    }
}

impl Skeleton<'_> {
    /// Writes what the first lines say: which parser it is, and its names.
    fn put_begin(&self, out: &mut Output) {
        let style = self.style;
        out.put("/* A parser that ycc made. */\n");
        style.put_fixed(out, FRONT);
        out.put(match style.options.purity {
            Purity::No => "#define YYPURE 0\n",
            Purity::Yes => "#define YYPURE 1\n",
            Purity::Full => "#define YYPURE 2\n",
        });
        self.put_all(out, Target::Top);
        if style.macros.as_slice() != b"YY".as_slice() {
            put_names(out, b"YY", &style.macros, &TYPES);
        }
        if style.names.as_slice() != b"yy".as_slice() {
            put_names(out, b"yy", &style.names, &NAMES);
            if style.is_pushed() {
                put_names(out, b"yy", &style.names, &PUSHED);
            }
            if !style.is_pure() || !style.is_bison() {
                put_names(out, b"yy", &style.names, &VARIABLES);
            }
        }
        out.put_pieces(&[b"#define YYPREFIX \"", style.names.as_slice(), b"\"\n"]);
    }

    /// Writes whether steps can be traced, and for a header that the parser has a variable for it.
    fn put_debug(&self, out: &mut Output) {
        self.put_macros(out, "\n#ifndef @DEBUG\n# define @DEBUG ");
        out.put(if self.style.wishes.debug {
            "1\n#endif\n"
        } else {
            "0\n#endif\n"
        });
        if self.style.is_bison() {
            self.put_macros(out, "#if @DEBUG\nextern int ");
            out.put_pieces(&[self.style.names.as_slice(), b"debug;\n#endif\n"]);
        }
    }

    /// Writes what a header has.
    fn put_declarations(&self, out: &mut Output) {
        let style = self.style;
        let names = style.names.as_slice();
        if style.is_bison() {
            self.put_debug(out);
        }
        self.put_all(out, Target::Requires);
        self.put_tokens(out);
        self.put_values(out);
        self.put_places(out);
        if !style.is_pure() {
            self.put_macros(out, "\nextern @STYPE ");
            out.put_pieces(&[names, b"lval;\n"]);
            if style.locations {
                self.put_macros(out, "extern @LTYPE ");
                out.put_pieces(&[names, b"lloc;\n"]);
            }
        }
        if style.is_bison() {
            self.put_functions(out);
        }
        self.put_all(out, Target::Provides);
    }

    /// Writes the code blocks that stand before the first union, or those after it, where other
    /// code joins them.
    pub fn put_blocks(&self, out: &mut Output, before: bool) {
        let mut is_before = true;
        for block in &self.parts.blocks {
            is_before = is_before && block.target != Target::Union;
            let is_here = match block.target {
                Target::Prologue => is_before == before,
                Target::Code => !before,
                _ => false,
            };
            if is_here {
                self.put_piece(out, block.piece);
            }
        }
    }

    /// Writes all that stands before the tables, in bison's order. The declarations may be those
    /// of a header; kinds of symbols are there where texts of errors are made of them.
    fn put_bison_front(&self, out: &mut Output) {
        self.put_blocks(out, true);
        if let Some(header) = self.style.options.include {
            out.put_pieces(&[b"#include ", header, b"\n"]);
        } else {
            self.put_declarations(out);
        }
        if self.style.errors() != Errors::Simple {
            out.put("\ntypedef enum\n{\n");
            self.put_members(out, "  ");
            out.put("\n} yysymbol_kind_t;\n");
        }
        self.put_blocks(out, false);
        self.style.put_fixed(out, INCLUDES);
        self.put_calls(out);
    }

    /// Writes all that stands before the tables, in byacc's order: first the code blocks and the
    /// type of values, in their order.
    fn put_byacc_front(&self, out: &mut Output) {
        self.put_all(out, Target::Requires);
        let mut has_values = false;
        for block in &self.parts.blocks {
            if block.target == Target::Prologue {
                self.put_piece(out, block.piece);
            } else if block.target == Target::Union && !has_values {
                has_values = true;
                self.put_values(out);
            }
        }
        if !has_values {
            self.put_values(out);
        }
        self.put_places(out);
        self.put_debug(out);
        self.style.put_fixed(out, INCLUDES);
        self.put_calls(out);
        self.put_tokens(out);
        out.put("#define YYERRCODE ");
        out.signed(i64::from(self.error_number()));
        out.put("\n");
        self.put_all(out, Target::Provides);
        self.put_all(out, Target::Code);
    }

    /// Writes how texts of errors are made.
    fn put_texts(&self, out: &mut Output) {
        let style = self.style;
        if !style.has_rows() && (style.asks() || style.looks_ahead()) {
            style.put_fixed(out, WAYS);
        }
        if style.asks() {
            style.put_fixed(out, EXPECTED);
        }
        if let Some(speech) = self.speech {
            speech.put(out);
            style.put_fixed(out, SPOKEN);
        }
        if matches!(style.errors(), Errors::Verbose | Errors::Detailed) {
            style.put_fixed(out, MESSAGE);
        }
        if style.errors() == Errors::Custom {
            style.put_fixed(out, CUSTOM);
        }
        self.put_kept(out);
    }

    /// Writes the machine with the actions.
    fn put_machine(&self, out: &mut Output) {
        let style = self.style;
        out.put(READING);
        self.put_texts(out);
        if style.destroys {
            style.put_fixed(out, DESTROY_FRONT);
            self.put_cares(out, Deed::Destroy);
            out.put(SWITCH_END);
        }
        if style.holds("shows") {
            style.put_fixed(out, SHOW_FRONT);
            self.put_cares(out, Deed::Print);
            style.put_fixed(out, SHOW_END);
        }
        if !style.is_bison() {
            out.put("\n#if ! defined yylex && ! defined YYSTATE\nint YYLEX_DECL();\n#endif\n");
        }
        self.put_push_calls(out);
        style.put_fixed(out, BEGIN);
        // what the place before the first token is called
        let first_place = match (style.is_pushed(), style.is_pure()) {
            (false, _) => "yylloc",
            (true, false) => "yypushed_loc",
            (true, true) => "(*yypushed_loc)",
        };
        for block in &self.parts.blocks {
            if block.target == Target::Initial {
                let scene = self.value_scene(None, ("yylval", first_place));
                self.put_code(out, block.piece, &scene);
            }
        }
        style.put_fixed(out, MACHINE);
        self.put_actions(out);
        style.put_fixed(out, END);
        self.put_push_end(out);
    }

    /// The text of the parser, with these rules that bison would reduce by default, where its lists
    /// are wanted.
    pub fn parser(&self, alloc: Global, defaults: &[usize]) -> Made<Vec<u8>> {
        let mut out = Output::new(alloc);
        self.put_begin(&mut out);
        if self.style.is_bison() {
            self.put_bison_front(&mut out);
            self.put_tables(alloc, &mut out, defaults)?;
            self.put_shown(alloc, &mut out)?;
            self.style.put_fixed(&mut out, WORDS);
            let (prefix, macros) = (self.style.token_prefix(), self.style.macros.as_slice());
            out.put("#define YYNOSYMBOL ");
            out.number(self.numbering.undefined);
            out.put_pieces(&[b"\n#define YYERRCODE ", prefix, macros, b"UNDEF\n"]);
            self.put_machine(&mut out);
            self.put_tail(&mut out);
        } else {
            self.put_byacc_front(&mut out);
            self.put_tables(alloc, &mut out, defaults)?;
            self.style.put_fixed(&mut out, WORDS);
            self.put_tail(&mut out);
            self.put_machine(&mut out);
        }
        out.into_bytes()
    }

    /// The text of the header.
    pub fn header(&self, alloc: Global) -> Made<Vec<u8>> {
        let mut out = Output::new(alloc);
        out.put("/* What a parser that ycc made declares. */\n");
        for front in ["#ifndef YY_", "#define YY_"] {
            out.put_pieces(&[front.as_bytes(), self.style.names.as_slice(), b"_"]);
            for byte in self.own_path.as_bytes() {
                let is_kept = byte.is_ascii_alphanumeric();
                out.put_bytes(&[if is_kept {
                    byte.to_ascii_uppercase()
                } else {
                    b'_'
                }]);
            }
            out.put("_INCLUDED\n");
        }
        self.put_declarations(&mut out);
        out.put("\n#endif\n");
        out.into_bytes()
    }
}
