//! A SPEC for a grammar, with guesses and places to fill in.

use crate::spec::needs_line;
use std::io::{self, Write};
use yexplain::reads::{is_set, name_of};
use yexplain::text::Name;
use ysymbols::{Grammar, Sym};

/// How many keywords stand in a line.
const SOME_WORDS: usize = 8;

/// Expressions for tokens by their names.
const GUESSES: [(&str, &str); 11] = [
    ("INT INTEGER", "[0-9]+"),
    ("NUM NUMBER", "[0-9]+(\\.[0-9]+)?"),
    ("FLOAT", "[0-9]+\\.[0-9]+"),
    ("ID IDENT IDENTIFIER", "[A-Za-z_][A-Za-z_0-9]*"),
    ("NAME WORD VAR", "[A-Za-z_][A-Za-z_0-9]*"),
    ("STRING STR TEXT", "\"([^\"\\\\\\n]|\\\\.)*\""),
    ("NEWLINE NL", "\\n+"),
    ("LE", "<="),
    ("GE", ">="),
    ("NE", "!="),
    ("ARROW", "->"),
];

/// The signs that mean something in an expression.
const SIGNS: &[u8] = b"\\.+*?()|[]{}^$#&-~";

/// The expression that is guessed for a token, whose name may be in capitals or small letters.
fn guess(name: &[u8]) -> Option<&'static str> {
    for (words, expression) in &GUESSES {
        for word in words.split(' ') {
            if word.as_bytes().eq_ignore_ascii_case(name) {
                return Some(*expression);
            }
        }
    }
    None
}

/// Which tokens stand in lines of one kind.
#[derive(Clone, Copy, PartialEq, Eq)]
enum Kind {
    /// The file's string for the token has signs alone, so that it is how the token looks.
    Signs,
    /// The name says how the token looks.
    Guessed,
    /// The file's string for the token is a word or several: how it looks, or what people call it.
    Called,
    /// The name could be that of a keyword.
    Keyword,
    /// Nothing says how the token looks.
    Open,
}

/// What a SPEC is sketched from.
#[derive(Clone, Copy)]
pub struct Sketch<'a> {
    /// The grammar.
    pub grammar: &'a Grammar,
    /// Which symbols stand in a rule.
    pub used: &'a [bool],
    /// The strings of the file for tokens, with their quotes, by the numbers of these.
    pub texts: &'a [Option<Vec<u8>>],
}

impl Sketch<'_> {
    /// The file's string for a token, without its quotes; `None` where it isn't a plain one.
    fn string(&self, token: Sym) -> Option<&[u8]> {
        let text = self.texts.get(token)?.as_ref()?;
        let inside = text.strip_prefix(b"\"")?.strip_suffix(b"\"")?;
        for byte in inside {
            if *byte == b'\\' || !matches!(*byte, b' '..=b'~') {
                return None;
            }
        }
        if inside.is_empty() {
            None
        } else {
            Some(inside)
        }
    }

    /// The kind of lines in which a token stands; `None` where it needs none.
    fn kind(&self, token: Sym) -> Option<Kind> {
        if !is_set(self.used, token) || !needs_line(self.grammar, token) {
            return None;
        }
        let (name, string) = (name_of(self.grammar, token), self.string(token));
        let (mut is_signs, mut is_capital) = (string.is_some(), true);
        for byte in string.unwrap_or(&[]) {
            is_signs = is_signs && byte.is_ascii_punctuation();
        }
        for byte in name {
            is_capital = is_capital && matches!(*byte, b'A'..=b'Z' | b'0'..=b'9' | b'_');
        }
        Some(match string {
            Some(_) if is_signs => Kind::Signs,
            _ if guess(name).is_some() => Kind::Guessed,
            Some(string) if !string.eq_ignore_ascii_case(name) => Kind::Called,
            _ if is_capital => Kind::Keyword,
            _ => Kind::Open,
        })
    }

    /// Writes what may be keywords, as lines that count once their first byte is taken away.
    fn put_keywords<W: Write>(&self, out: &mut W) -> io::Result<()> {
        let mut count: usize = 0;
        for token in 0..self.grammar.symbols() {
            if self.kind(token) == Some(Kind::Keyword) {
                if count == 0 {
                    writeln!(
                        out,
                        "# Where these are keywords, take # away; -i for --upper: in any case."
                    )?;
                }
                if count % SOME_WORDS == 0 {
                    let end = if count == 0 { "" } else { "\n" };
                    write!(out, "{end}# %keywords --upper")?;
                }
                out.write_all(b" ")?;
                for b in name_of(self.grammar, token) {
                    out.write_all(&[b.to_ascii_lowercase()])?;
                }
                count = count.saturating_add(1);
            }
        }
        if count > 0 { writeln!(out) } else { Ok(()) }
    }

    /// Writes a line for each token of a kind: with the expression that its string or its name
    /// gives, or else as a place to fill in.
    fn put_kind<W: Write>(&self, out: &mut W, kind: Kind) -> io::Result<()> {
        let mut is_first = kind == Kind::Called;
        for token in 0..self.grammar.symbols() {
            if self.kind(token) != Some(kind) {
                continue;
            }
            let name = Name(self.grammar, token);
            if is_first {
                writeln!(
                    out,
                    "# Where tokens look as the file calls them, take # away."
                )?;
                is_first = false;
            }
            match (
                kind,
                self.string(token),
                guess(name_of(self.grammar, token)),
            ) {
                (Kind::Signs, Some(string), _) => put_string(out, ("", name), string)?,
                (Kind::Called, Some(string), _) => put_string(out, ("# ", name), string)?,
                (Kind::Guessed, _, Some(expression)) => writeln!(out, "{name}  {expression}")?,
                _ => writeln!(out, "# fill in: {name}  EXPRESSION")?,
            }
        }
        Ok(())
    }

    /// Writes a SPEC: the literals of the grammar, names in capitals that may be keywords, lines for
    /// strings of signs and for names that say how their token looks, strings that may be words of a
    /// text, and a place to fill in for each other token.
    pub fn put<W: Write>(&self, out: &mut W) -> io::Result<()> {
        let mut is_first = true;
        for value in 0..=255u8 {
            if let Some(token) = self.grammar.find_literal(value) {
                let name = Name(self.grammar, token);
                if is_first {
                    write!(out, "# These stand for themselves:")?;
                }
                write!(out, " {name}")?;
                is_first = false;
            }
        }
        if !is_first {
            writeln!(out)?;
        }
        let blanks = match self.grammar.find_literal(b'\n') {
            Some(_) => "[ \\t\\r]+",
            None => "[ \\t\\r\\n]+",
        };
        writeln!(out, "%skip {blanks}")?;
        self.put_keywords(out)?;
        self.put_kind(out, Kind::Signs)?;
        // of equal matches the first line counts
        self.put_kind(out, Kind::Called)?;
        self.put_kind(out, Kind::Guessed)?;
        self.put_kind(out, Kind::Open)
    }
}

/// Writes a line for a token, after its front, by the string that it looks as.
fn put_string<W: Write>(
    out: &mut W,
    (front, name): (&str, Name<'_>),
    string: &[u8],
) -> io::Result<()> {
    write!(out, "{front}{name}  ")?;
    for byte in string {
        if SIGNS.contains(byte) {
            out.write_all(b"\\")?;
        }
        out.write_all(&[*byte])?;
    }
    writeln!(out)
}
