//! What a parser and its header declare: the numbers of tokens, the type of values, and that of
//! places.

use crate::numbering::number_of;
use crate::skeleton::Skeleton;
use yexplain::reads::name_of;
use yfiles::output::Output;
use ylalr::{ERROR, token_count};
use yparts::options::Values;
use yparts::parts::Target;
use ysymbols::{Grammar, Sym};

/// A token that has a name in C.
#[derive(Clone, Copy)]
pub struct CToken<'a> {
    /// The name.
    pub name: &'a [u8],
    /// Its number.
    pub number: u32,
}

/// Whether a name is one of C.
pub fn is_c_name(name: &[u8]) -> bool {
    for byte in name {
        if !byte.is_ascii_alphanumeric() && *byte != b'_' {
            return false;
        }
    }
    name.first().map_or(false, |first| !first.is_ascii_digit())
}

/// The token, where it has a name in C.
pub fn in_c(grammar: &Grammar, token: Sym) -> Option<CToken<'_>> {
    let name = name_of(grammar, token);
    let number = number_of(grammar, token)?;
    is_c_name(name).then_some(CToken { name, number })
}

/// What stands around the names of tokens and their numbers.
#[derive(Clone, Copy)]
pub struct Frame {
    /// Before the name that comes next.
    before: &'static str,
    /// Before those after it.
    later: &'static str,
    /// Between a name and its number.
    between: &'static str,
    /// After the number.
    after: &'static str,
}

/// Members of an enum.
pub const MEMBERS: Frame = Frame {
    before: "\n  ",
    later: ",\n  ",
    between: " = ",
    after: "",
};

/// Macros.
const MACROS: Frame = Frame {
    before: "#define ",
    later: "#define ",
    between: " ",
    after: "\n",
};

impl<'a> Skeleton<'a> {
    /// The token, where the file gives it a name in C.
    pub fn named(&self, token: Sym) -> Option<CToken<'a>> {
        if self.parts.looks_of(token).is_made {
            return None;
        }
        let CToken { name, number } = in_c(self.grammar, token)?;
        let placed = self.numbering.number(token)?;
        let number = u32::try_from(placed).unwrap_or(number);
        Some(CToken { name, number })
    }

    /// The number of `error`.
    pub fn error_number(&self) -> u32 {
        let number = self.numbering.number(ERROR).unwrap_or(256);
        u32::try_from(number).unwrap_or(256)
    }

    /// Writes a token, whose name has two parts, and its number.
    fn put_token(
        &self,
        out: &mut Output,
        frame: &mut Frame,
        (front, name): (&[u8], &[u8]),
        number: i64,
    ) {
        out.put(frame.before);
        frame.before = frame.later;
        out.put_bytes(self.style.token_prefix());
        out.put_bytes(front);
        out.put_bytes(name);
        out.put(frame.between);
        out.signed(number);
        out.put(frame.after);
    }

    /// Writes the tokens that have names in C: with those that bison has beside them, but for what
    /// the file names by itself.
    pub fn put_all_tokens(&self, out: &mut Output, mut frame: Frame) {
        if self.style.is_bison() {
            let names_undefined = self.grammar.find(b"YYUNDEF").is_some();
            let undefined = i64::try_from(self.numbering.undefined).unwrap_or(0);
            for (name, number, is_named) in [
                ("EMPTY", -2, false),
                ("EOF", 0, !self.parts.ends.is_empty()),
                ("error", i64::from(self.error_number()), false),
                ("UNDEF", undefined, names_undefined),
            ] {
                if !is_named {
                    let parts = (self.style.macros.as_slice(), name.as_bytes());
                    self.put_token(out, &mut frame, parts, number);
                }
            }
        }
        for end in &self.parts.ends {
            self.put_token(out, &mut frame, (b"", *end), 0);
        }
        for token in 2..token_count(self.grammar) {
            if let Some(CToken { name, number }) = self.named(token) {
                self.put_token(out, &mut frame, (b"", name), i64::from(number));
            }
        }
    }

    /// Writes the numbers of the tokens that have names in C, as an enum.
    fn put_enum(&self, out: &mut Output) {
        let types = self.style.types;
        self.put_macros(out, "\n#ifndef @TOKENTYPE\n# define @TOKENTYPE\nenum ");
        out.put_pieces(&[types, b"tokentype {"]);
        self.put_all_tokens(out, MEMBERS);
        out.put("\n};\n");
        if self.style.is_bison() {
            out.put_pieces(&[
                b"typedef enum ",
                types,
                b"tokentype ",
                types,
                b"token_kind_t;\n",
            ]);
        }
        out.put("#endif\n");
    }

    /// Writes the numbers of the tokens, as an enum and, but for bison, as macros.
    pub fn put_tokens(&self, out: &mut Output) {
        let is_bison = self.style.is_bison();
        let mut has_enum = is_bison || !self.parts.ends.is_empty();
        for token in 2..token_count(self.grammar) {
            has_enum = has_enum || self.named(token).is_some();
        }
        if has_enum {
            self.put_enum(out);
        }
        if !is_bison || self.style.wishes.is_yacc {
            self.put_all_tokens(out, MACROS);
        }
    }

    /// Writes a text of which each `@` stands for what types and macros begin with in capitals.
    pub fn put_macros(&self, out: &mut Output, text: &str) {
        let mut is_first = true;
        for part in text.split('@') {
            if !is_first {
                out.put_bytes(&self.style.macros);
            }
            is_first = false;
            out.put(part);
        }
    }
}

/// What stands before the type of values, and after it.
const VALUES_FRONT: &str = "\n#if ! defined @STYPE && ! defined @STYPE_IS_DECLARED\n";

const VALUES_END: &str = " @STYPE;\n# define @STYPE_IS_TRIVIAL 1\n\
    # define @STYPE_IS_DECLARED 1\n#endif\n";

/// The type of places.
const PLACES: &str = "\n#if ! defined @LTYPE && ! defined @LTYPE_IS_DECLARED\n\
    typedef struct @LTYPE @LTYPE;\nstruct @LTYPE\n{\n  int first_line;\n  int first_column;\n\
    \x20 int last_line;\n  int last_column;\n};\n\
    # define @LTYPE_IS_DECLARED 1\n# define @LTYPE_IS_TRIVIAL 1\n#endif\n";

/// The same as byacc has it.
const BYACC_PLACES: &str = "\n#if ! defined YYLTYPE && ! defined YYLTYPE_IS_DECLARED\n\
    typedef struct YYLTYPE\n{\n  int first_line;\n  int first_column;\n  int last_line;\n\
    \x20 int last_column;\n  unsigned source;\n} YYLTYPE;\n\
    # define YYLTYPE_IS_DECLARED 1\n#endif\n";

impl Skeleton<'_> {
    /// Writes a union of values, and in C the front of another name for it.
    pub fn put_union(&self, out: &mut Output) {
        let is_cxx = self.style.options.is_cxx();
        let (front, name): (&[u8], &[u8]) = match self.style.options.union_name {
            _ if is_cxx => (b"", b"value_type"),
            Some(name) => (b"", name),
            None => (self.style.macros.as_slice(), b"STYPE"),
        };
        out.put_pieces(&[b"union ", front, name, b"\n{\n"]);
        let has_fields = self.style.options.values == Values::Symbols;
        for symbol in 0..self.grammar.symbols() {
            let name = name_of(self.grammar, symbol);
            let is_field = has_fields && is_c_name(name);
            if let (Some(tag), true) = (self.parts.tag_of(symbol), is_field) {
                let prefix = self.style.member_prefix(self.grammar, symbol);
                out.put_pieces(&[b"  ", tag, b" ", prefix, name, b";\n"]);
            }
        }
        for block in &self.parts.blocks {
            if block.target == Target::Union && !has_fields {
                let mut piece = block.piece;
                let end = piece.text.len().saturating_sub(1);
                piece.text = piece.text.get(1..end).unwrap_or(&[]);
                self.put_piece(out, piece);
            }
        }
        out.put("};\n");
        if !is_cxx {
            out.put_pieces(&[b"typedef union ", front, name]);
        }
    }

    /// Writes the type of values. Where a file has tags and no union, the type is the user's.
    pub fn put_values(&self, out: &mut Output) {
        let mut has_union = self.style.options.values == Values::Symbols;
        for block in &self.parts.blocks {
            has_union = has_union || block.target == Target::Union;
        }
        let named: Option<&[u8]> = match self.style.options.values {
            Values::Named(name) => Some(name),
            _ if has_union => None,
            _ if self.style.has_tags => return,
            _ => Some(b"int"),
        };
        self.put_macros(out, VALUES_FRONT);
        if let Some(name) = named {
            out.put_pieces(&[b"typedef ", name]);
        } else {
            self.put_union(out);
        }
        self.put_macros(out, VALUES_END);
    }

    /// Writes the type of places, where there are some.
    pub fn put_places(&self, out: &mut Output) {
        if !self.style.locations {
            return;
        }
        if let Some(name) = self.style.options.location_type {
            out.put_pieces(&[b"\ntypedef ", name]);
            self.put_macros(out, " @LTYPE;\n");
        } else if self.style.is_bison() {
            self.put_macros(out, PLACES);
        } else {
            out.put(BYACC_PLACES);
        }
    }
}
