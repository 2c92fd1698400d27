//! How the functions of a parser are declared and called, with their parameters.

use crate::skeleton::Skeleton;
use yfiles::output::Output;
use yparts::options::Purity;
use yparts::params::{is_comment, piece_length};
use yparts::parts::{Param, Taker};

/// What a list of parameters shows.
#[derive(Clone, Copy, PartialEq, Eq)]
enum Shown {
    /// Declarations.
    Declared,
    /// Names.
    Named,
}

/// A list that is written, between parentheses.
#[derive(Clone, Copy)]
struct List {
    shown: Shown,
    is_empty: bool,
}

/// Writes a declaration in one line and without its comments.
pub fn put_flat(out: &mut Output, declaration: &[u8]) {
    let mut rest = declaration;
    // each piece has a byte at least
    for _ in declaration {
        if rest.is_empty() {
            break;
        }
        let (piece, after) = rest.split_at(piece_length(rest).min(rest.len()));
        if is_comment(piece) || piece == b"\n".as_slice() {
            out.put(" ");
        } else {
            out.put_bytes(piece);
        }
        rest = after;
    }
}

impl List {
    /// Writes an item, which is declared by one text and named by another, in one line and without
    /// its comments.
    fn put(&mut self, out: &mut Output, declared: &[u8], named: &[u8]) {
        let item = match self.shown {
            Shown::Declared => declared,
            Shown::Named => named,
        };
        if !self.is_empty {
            out.put(", ");
        }
        self.is_empty = false;
        put_flat(out, item);
    }

    /// Writes the parameters of a function, which are all but those of the other one alone.
    fn put_params(&mut self, out: &mut Output, params: &[Param<'_>], other: Taker) {
        for param in params {
            if param.taker != other {
                self.put(out, param.declaration, param.name);
            }
        }
    }
}

impl Skeleton<'_> {
    /// Writes the parameters of `yyparse` as they come after others.
    pub fn put_more(&self, out: &mut Output) {
        let mut list = List {
            shown: Shown::Declared,
            is_empty: false,
        };
        list.put_params(out, &self.parts.params, Taker::Lex);
    }

    /// Writes the parameters of `yyparse`, declared.
    pub fn put_parse(&self, out: &mut Output) {
        let mut list = List {
            shown: Shown::Declared,
            is_empty: true,
        };
        list.put_params(out, &self.parts.params, Taker::Lex);
        if list.is_empty {
            out.put("void");
        }
    }

    /// Writes what `yylex` gets; with `by_macro` it gets what a macro names in place of parameters.
    fn put_lex(&self, out: &mut Output, shown: Shown, by_macro: bool) {
        let mut list = List {
            shown,
            is_empty: true,
        };
        if self.style.is_pure() {
            list.put(out, b"YYSTYPE *yylval", b"&yylval");
            if self.style.locations {
                list.put(out, b"YYLTYPE *yylloc", b"&yylloc");
            }
        }
        if by_macro {
            list.put(out, b"YYLEX_PARAM_TYPE YYLEX_PARAM", b"YYLEX_PARAM");
        } else {
            list.put_params(out, &self.parts.params, Taker::Parse);
        }
        if list.is_empty && shown == Shown::Declared {
            out.put("void");
        }
    }

    /// Writes what `yyerror` gets: the place of an error, where it has one, parameters, a message.
    fn put_error(&self, out: &mut Output, shown: Shown) {
        let style = self.style;
        let mut has_params = false;
        for param in &self.parts.params {
            has_params = has_params || param.taker != Taker::Lex;
        }
        let is_pure = style.options.purity == Purity::Full || (style.is_pure() && has_params);
        let mut list = List {
            shown,
            is_empty: true,
        };
        if style.locations && (is_pure || !style.is_bison()) {
            list.put(out, b"YYLTYPE *loc", b"&yylloc");
        }
        list.put_params(out, &self.parts.params, Taker::Lex);
        list.put(out, b"const char *s", b"msg");
    }

    /// Writes the macros of byacc.
    fn put_byacc(&self, out: &mut Output) {
        out.put(PARSE_PARAM);
        out.put("# define YYPARSE_DECL() yyparse(");
        self.put_parse(out);
        out.put(")\n#endif\n\n#ifdef YYLEX_PARAM\n");
        out.put("# ifndef YYLEX_PARAM_TYPE\n#  define YYLEX_PARAM_TYPE void *\n# endif\n");
        for by_macro in [true, false] {
            out.put("# define YYLEX_DECL() yylex(");
            self.put_lex(out, Shown::Declared, by_macro);
            out.put(")\n# define YYLEX yylex(");
            self.put_lex(out, Shown::Named, by_macro);
            out.put(if by_macro {
                ")\n#else\n"
            } else {
                ")\n#endif\n"
            });
        }
        out.put("\n#ifndef YYERROR_DECL\n#define YYERROR_DECL() yyerror(");
        self.put_error(out, Shown::Declared);
        out.put(")\n#endif\n#ifndef YYERROR_CALL\n#define YYERROR_CALL(msg) yyerror(");
        self.put_error(out, Shown::Named);
        out.put(")\n#endif\n\nextern int YYPARSE_DECL();\n");
    }

    /// Writes how the functions are declared and called, and the parameters of `yyparse` as they
    /// come after others.
    pub fn put_calls(&self, out: &mut Output) {
        if self.style.is_bison() {
            if self.style.is_pushed() {
                out.put("\n#define YYPARSE_DECL() yypush_parse (yypstate *yyps");
                self.put_pushed(out);
                out.put(")\n#define YYPULL_DECL() yyparse (");
            } else {
                out.put("\n#define YYPARSE_DECL() yyparse (");
            }
            if self.style.is_pulled() {
                self.put_parse(out);
            }
            out.put(")\n#define YYLEX yylex (");
            self.put_lex(out, Shown::Named, false);
            out.put(")\n#define YYERROR_CALL(msg) yyerror (");
            self.put_error(out, Shown::Named);
            out.put(")\n");
        } else {
            self.put_byacc(out);
        }
        out.put("#define YYMORE_DECL ");
        self.put_more(out);
        out.put("\n#define YYMORE ");
        let mut list = List {
            shown: Shown::Named,
            is_empty: false,
        };
        list.put_params(out, &self.parts.params, Taker::Lex);
        out.put("\n");
    }
}

/// How `yyparse` is declared where a macro names its parameter.
const PARSE_PARAM: &str = r##"
#ifdef YYPARSE_PARAM
# ifdef YYPARSE_PARAM_TYPE
#  define YYPARSE_DECL() yyparse(YYPARSE_PARAM_TYPE YYPARSE_PARAM)
# else
#  define YYPARSE_DECL() yyparse(void *YYPARSE_PARAM)
# endif
#else
"##;
