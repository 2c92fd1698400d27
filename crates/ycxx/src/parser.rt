//! The text of a parser in C++, with the actions.

use crate::cxx::Cxx;
use crate::errors::{EXPECTED, MESSAGE, NAME, PLAIN_NAME, UNQUOTED, VERBOSE_NAME};
use crate::front::{MACROS, TOKENS};
use crate::machine::{BEGIN, DESTROY, FREE, MACHINE, MEMBERS, PRINT, PRINT_END, READ, REDUCED};
use std::alloc::Global;
use yexplain::reads::{Made, body_of, left_of};
use yfiles::output::Output;
use yparts::options::{Errors, Values};
use yparts::parts::{Deed, Target};
use yskeleton::{EXPECTED as LISTS, READING, Spelled, WAYS};

/// What the constructor begins with where tokens are tried.
const LOOKED: &str = "@lac       , yylooked_ (false)\n";

/// The end of cases by the kinds of symbols.
const CASES_END: &str = "    default:\n      break;\n    }\n";

impl Cxx<'_> {
    /// Writes the array of what symbols are called.
    fn put_names(&self, out: &mut Output) {
        let (skeleton, style) = (&self.skeleton, self.skeleton.style);
        match style.errors() {
            Errors::Detailed | Errors::Custom => {
                skeleton.put_symbols(out, "yysymbols", Spelled::Plain);
            }
            Errors::Verbose => {
                skeleton.put_symbols(out, "yytname", Spelled::Quoted);
                out.put(UNQUOTED);
            }
            Errors::Simple if style.options.has_names => {
                skeleton.put_symbols(out, "yytname", Spelled::Quoted);
            }
            Errors::Simple => {
                skeleton.put_macros(out, "#if @DEBUG\n");
                skeleton.put_symbols(out, "yytname", Spelled::Quoted);
                out.put("#endif\n");
            }
        }
    }

    /// Writes the tables, and what reads them beside the class.
    fn put_tables(&self, alloc: Global, out: &mut Output, defaults: &[usize]) -> Made<()> {
        let (skeleton, style) = (&self.skeleton, self.skeleton.style);
        skeleton.put_tables(alloc, out, defaults)?;
        skeleton.put_shown(alloc, out)?;
        self.put_names(out);
        out.put(READING);
        if !style.has_rows() && (style.asks() || style.looks_ahead()) {
            style.put_fixed(out, WAYS);
        }
        if style.asks() {
            style.put_fixed(out, LISTS);
        }
        self.put_text(out, TOKENS);
        Ok(())
    }

    /// Writes the constructor.
    fn put_constructor(&self, out: &mut Output) {
        out.put_pieces(&[b"\n  ", self.class(), b"::", self.class(), b" ("]);
        self.put_taken(out);
        out.put(")\n    : yystates_ (),\n      yystack_ ()\n");
        self.put_text(out, LOOKED);
        self.skeleton.put_macros(out, "#if @DEBUG\n");
        out.put("      , yydebug_ (0),\n      yycdebug_ (&std::cerr)\n#endif\n");
        self.put_kept(out);
        out.put("\n  {}\n");
    }

    /// Writes what is done with values that are thrown away or shown.
    fn put_all_cares(&self, out: &mut Output) {
        let style = self.skeleton.style;
        if style.destroys {
            self.put_text(out, FREE);
            self.skeleton.put_cares(out, Deed::Destroy);
            out.put(CASES_END);
            out.put("  }\n");
        }
        if !style.destroys || style.options.values == Values::Variant {
            self.put_text(out, DESTROY);
        }
        self.put_text(out, PRINT);
        if style.prints {
            self.skeleton.put_cares(out, Deed::Print);
            out.put(CASES_END);
        }
        self.put_text(out, PRINT_END);
    }

    /// Writes how texts of errors are made, and what symbols are called.
    fn put_errors(&self, out: &mut Output) {
        let style = self.skeleton.style;
        if style.asks() {
            self.put_text(out, EXPECTED);
        }
        match style.errors() {
            Errors::Detailed | Errors::Custom => {
                self.put_text(out, NAME);
                self.skeleton.put_symbol_name(out);
            }
            Errors::Verbose => self.put_text(out, VERBOSE_NAME),
            Errors::Simple if style.options.has_names => self.put_text(out, PLAIN_NAME),
            Errors::Simple => {
                self.skeleton.put_macros(out, "\n#if @DEBUG");
                self.put_text(out, PLAIN_NAME);
                out.put("#endif\n");
            }
        }
        if matches!(style.errors(), Errors::Verbose | Errors::Detailed) {
            self.put_text(out, MESSAGE);
        }
    }

    /// Writes the actions of rules without one: where values are of several types, the left side
    /// takes that of the first symbol, if it is of the same.
    fn put_usual(&self, out: &mut Output) {
        let (grammar, parts) = (self.skeleton.grammar, self.skeleton.parts);
        if self.skeleton.style.options.values != Values::Variant {
            return;
        }
        for rule in 1..grammar.rules() {
            let body = body_of(grammar, rule);
            let (Some(left), Some(first)) = (left_of(grammar, rule), body.first()) else {
                continue;
            };
            let is_plain = grammar.action_text(rule).is_none();
            match (parts.tag_of(left), parts.tag_of(*first)) {
                (Some(tag), Some(other)) if is_plain && tag == other => {
                    out.put("    case ");
                    out.number(rule);
                    out.put_pieces(&[b":\n      yylhs.value.as < ", tag, b" > () = YY_MOVE ("]);
                    out.put("(yyvsp - yym + 1)->value.as < ");
                    out.put_pieces(&[tag, b" > ());\n      break;\n"]);
                }
                _ => {}
            }
        }
    }

    /// Writes the machine with the actions.
    fn put_machine(&self, out: &mut Output) {
        let skeleton = &self.skeleton;
        self.put_text(out, BEGIN);
        for block in &skeleton.parts.blocks {
            if block.target == Target::Initial {
                let scene = skeleton.value_scene(None, ("yyla.value", "yyla.location"));
                skeleton.put_code(out, block.piece, &scene);
            }
        }
        self.put_text(out, READ);
        self.put_call(out);
        self.put_text(out, MACHINE);
        skeleton.put_actions(out);
        self.put_usual(out);
        self.put_text(out, REDUCED);
    }

    /// Writes the members of the class.
    fn put_body(&self, out: &mut Output) {
        self.open(out);
        self.put_constructor(out);
        self.put_text(out, MEMBERS);
        self.put_all_cares(out);
        self.put_errors(out);
        self.put_machine(out);
        self.close(out);
    }

    /// Writes all that stands before the tables.
    fn put_front(&self, out: &mut Output) {
        let (skeleton, style) = (&self.skeleton, self.skeleton.style);
        out.put("/* A parser in C++ that ycc made. */\n#define YYBISON 30802\n");
        out.put("#define YYBISON_VERSION \"3.8.2\"\n");
        skeleton.put_all(out, Target::Top);
        if style.names.as_slice() != b"yy".as_slice() {
            out.put_pieces(&[b"#define yylex ", &style.names, b"lex\n"]);
        }
        skeleton.put_blocks(out, true);
        match self.header {
            Some(header) => out.put_pieces(&[b"\n#include ", header.as_bytes(), b"\n"]),
            None => self.put_declarations(out),
        }
        skeleton.put_blocks(out, false);
        self.put_text(out, MACROS);
    }

    /// The text of the parser, with these rules that bison would reduce by default, where its lists
    /// are wanted.
    pub fn parser(&self, alloc: Global, defaults: &[usize]) -> Made<Vec<u8>> {
        let mut out = Output::new(alloc);
        self.put_front(&mut out);
        self.put_tables(alloc, &mut out, defaults)?;
        self.put_body(&mut out);
        self.skeleton.put_tail(&mut out);
        out.into_bytes()
    }
}
