//! The kinds of symbols in C++, and how tokens are made of their numbers, values and places.

use crate::cxx::Cxx;
use yfiles::output::Output;
use ylalr::token_count;
use ysymbols::Sym;

impl<'a> Cxx<'a> {
    /// Writes the members of the enum of kinds, before them how many kinds of tokens there are.
    pub fn put_kinds(&self, out: &mut Output) {
        out.put("        YYNTOKENS = ");
        out.number(self.skeleton.code.tokens.saturating_add(1));
        out.put(",\n");
        self.skeleton.put_members(out, "        ");
    }

    /// Writes how a token is made that has a value with this tag, or none.
    fn put_made(&self, out: &mut Output, tag: Option<&[u8]>, number: usize) {
        let locations = self.skeleton.style.locations;
        out.put("\n      symbol_type (int yynumber");
        if let Some(tag) = tag {
            out.put_pieces(&[b", ", tag, b" yyvalue"]);
        }
        out.put(if locations {
            ", location_type yyplace"
        } else {
            ""
        });
        out.put(")\n        : super_type (token_kind_type (yynumber)");
        out.put(if tag.is_some() {
            ", std::move (yyvalue)"
        } else {
            ""
        });
        out.put(if locations {
            ", std::move (yyplace)"
        } else {
            ""
        });
        out.put(")\n      {\n");
        if self.skeleton.style.options.class.asserts {
            out.put("        YY_ASSERT (yytype_of_ (this->kind ()) == ");
            out.number(number);
            out.put(");\n");
        }
        out.put("      }\n");
    }

    /// The number of the type of a symbol, counted from 1; 0 where it has no value.
    fn type_number(&self, symbol: Sym) -> usize {
        let Some(tag) = self.skeleton.parts.tag_of(symbol) else {
            return 0;
        };
        let mut number: usize = 0;
        for before in 0..self.skeleton.grammar.symbols() {
            if self.new_tag(before).is_some() {
                number = number.saturating_add(1);
            }
            if self.skeleton.parts.tag_of(before) == Some(tag) {
                break;
            }
        }
        number
    }

    /// Writes how tokens are made: those without a value, and those of each type that a token has.
    pub fn put_constructors(&self, out: &mut Output) {
        self.put_made(out, None, 0);
        for token in 0..token_count(self.skeleton.grammar) {
            if let Some(tag) = self.new_tag(token) {
                self.put_made(out, Some(tag), self.type_number(token));
            }
        }
    }

    /// Writes which type the value of a kind of symbols has, by its number.
    pub fn put_type_numbers(&self, out: &mut Output) {
        out.put(
            "\n    /* The type of the value of a symbol, by a number; 0 where it has none. */\n",
        );
        out.put(
            "    static int yytype_of_ (int yykind)\n    {\n      switch (yykind)\n        {\n",
        );
        for symbol in 0..self.skeleton.grammar.symbols() {
            let number = self.type_number(symbol);
            if number > 0 {
                out.put("        case ");
                self.put_kind(out, symbol);
                out.put(": return ");
                out.number(number);
                out.put(";\n");
            }
        }
        out.put("        default: return 0;\n        }\n    }\n");
    }

    /// Writes the function that makes a token of this name with a value of this type.
    fn put_maker(&self, out: &mut Output, name: &[u8], tag: Option<&[u8]>) {
        let style = self.skeleton.style;
        let locations = style.locations;
        out.put_pieces(&[b"\n    static symbol_type make_", name, b" ("]);
        if let Some(tag) = tag {
            out.put_pieces(&[tag, b" yyvalue"]);
        }
        out.put(match (locations, tag.is_some()) {
            (true, true) => ", location_type yyplace",
            (true, false) => "location_type yyplace",
            (false, _) => "",
        });
        out.put_pieces(&[
            b")\n    {\n      return symbol_type (token::",
            style.token_prefix(),
            name,
        ]);
        out.put(if tag.is_some() {
            ", std::move (yyvalue)"
        } else {
            ""
        });
        out.put(if locations {
            ", std::move (yyplace)"
        } else {
            ""
        });
        out.put(");\n    }\n");
    }

    /// Writes the functions that make tokens, for each that has a name.
    pub fn put_makers(&self, out: &mut Output) {
        let (grammar, parts) = (self.skeleton.grammar, self.skeleton.parts);
        if parts.ends.is_empty() {
            self.put_maker(out, b"YYEOF", parts.tag_of(0));
        }
        for end in &parts.ends {
            self.put_maker(out, *end, parts.tag_of(0));
        }
        self.put_maker(out, b"YYerror", None);
        if grammar.find(b"YYUNDEF").is_none() {
            self.put_maker(out, b"YYUNDEF", None);
        }
        for token in 2..token_count(grammar) {
            if let Some(named) = self.skeleton.named(token) {
                self.put_maker(out, named.name, parts.tag_of(token));
            }
        }
    }
}
