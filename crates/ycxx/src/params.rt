//! The parameters of a parser in C++: its constructor takes them and it keeps them; the lexer gets
//! some.

use crate::cxx::Cxx;
use yfiles::output::Output;
use yparts::parts::Taker;
use yskeleton::put_flat;

impl Cxx<'_> {
    /// Writes what the constructor takes.
    pub fn put_taken(&self, out: &mut Output) {
        let mut between = "";
        for param in &self.skeleton.parts.params {
            if param.taker != Taker::Lex {
                out.put(between);
                put_flat(out, param.declaration);
                out.put("_yyarg");
                between = ", ";
            }
        }
    }

    /// Writes how it keeps that.
    pub fn put_kept(&self, out: &mut Output) {
        for param in &self.skeleton.parts.params {
            if param.taker != Taker::Lex {
                out.put_pieces(&[b",\n      ", param.name, b" (", param.name, b"_yyarg)"]);
            }
        }
    }

    /// Writes the members.
    pub fn put_members(&self, out: &mut Output) {
        for param in &self.skeleton.parts.params {
            if param.taker != Taker::Lex {
                out.put("\n    ");
                put_flat(out, param.declaration);
                out.put(";\n");
            }
        }
    }

    /// Writes how the lexer is called for the next token.
    pub fn put_call(&self, out: &mut Output) {
        let style = self.skeleton.style;
        let makes = style.options.class.constructors;
        let mut between = "";
        out.put(if makes {
            "            symbol_type yynext (yylex ("
        } else {
            "            yyla.kind_ = yytranslate_ (yylex ("
        });
        if !makes {
            out.put(if style.locations {
                "&yyla.value, &yyla.location"
            } else {
                "&yyla.value"
            });
            between = ", ";
        }
        for param in &self.skeleton.parts.params {
            if param.taker != Taker::Parse {
                out.put_pieces(&[between.as_bytes(), param.name]);
                between = ", ";
            }
        }
        out.put(if makes {
            "));\n            yyla.move (yynext);\n"
        } else {
            "));\n"
        });
    }
}
