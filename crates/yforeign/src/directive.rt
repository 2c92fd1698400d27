//! The directives of bison and byacc.

use crate::lexeme::Kind;
use crate::runs::percent_length;

/// A directive, by what is done with it; where nothing else is said, its word is its name.
#[derive(Clone, Copy, Drop, PartialEq, Eq)]
pub enum Directive {
    Token,
    /// `%term`, another word for `%token`.
    Term,
    Left,
    Right,
    Nonassoc,
    /// `%binary`, another word for `%nonassoc`.
    Binary,
    /// `%precedence`: a level without a direction.
    Precedence,
    Type,
    Nterm,
    Start,
    Union,
    Prec,
    Empty,
    /// `%expect`: how many shift/reduce conflicts there should be.
    Expect,
    /// `%expect-rr`: how many reduce/reduce conflicts there should be.
    ExpectReduce,
    Define,
    Skeleton,
    /// Taken out.
    Aside(Shape),
    /// Refused: it is of GLR parsers.
    Glr,
    /// Refused: rules without a precedence.
    NoDefault,
    /// Any other word.
    Unknown,
}

/// What may stand after a directive that is taken out.
#[derive(Clone, Copy, Drop, PartialEq, Eq)]
pub enum Shape {
    /// Nothing.
    Alone,
    /// Strings, and `=` before them.
    Text,
    /// Texts in braces.
    Braces,
    /// Names and texts in braces.
    NamedBraces,
    /// Texts in braces, symbols, tags and commas.
    BracesAndSymbols,
}

/// The directives, each with its words, which have dashes.
const WORDS: [(Directive, &str); 25] = [
    (Directive::Token, "token 0"),
    (Directive::Term, "term"),
    (Directive::Left, "left <"),
    (Directive::Right, "right >"),
    (Directive::Nonassoc, "nonassoc"),
    (Directive::Binary, "binary 2"),
    (Directive::Precedence, "precedence"),
    (Directive::Type, "type"),
    (Directive::Nterm, "nterm"),
    (Directive::Start, "start"),
    (Directive::Union, "union"),
    (Directive::Prec, "prec"),
    (Directive::Empty, "empty"),
    (Directive::Expect, "expect"),
    (Directive::ExpectReduce, "expect-rr"),
    (Directive::Define, "define"),
    (Directive::Skeleton, "skeleton"),
    (Directive::NoDefault, "no-default-prec"),
    (Directive::Glr, "glr-parser dprec merge"),
    (Directive::Glr, "nondeterministic-parser semantic-parser"),
    (Directive::Aside(Shape::NamedBraces), "code"),
    (Directive::Aside(Shape::Braces), BEFORE_BRACES),
    (
        Directive::Aside(Shape::BracesAndSymbols),
        "destructor printer",
    ),
    (Directive::Aside(Shape::Text), BEFORE_TEXTS),
    (Directive::Aside(Shape::Alone), ALONE),
];

const BEFORE_BRACES: &str = "initial-action parse-param lex-param param";

const BEFORE_TEXTS: &str = "require name-prefix file-prefix output language defines header ident";

const ALONE: &str = "pure-parser locations error-verbose verbose debug token-table no-lines yacc \
    fixed-output-files default-prec raw";

/// Whether a word is this one: capitals count as small letters, as they do to byacc, and a line
/// below as a dash.
pub fn is_word(word: &[u8], name: &str) -> bool {
    let name = name.as_bytes();
    word.len() == name.len()
        && word.iter().zip(name).all(|(b, wanted)| {
            b.to_ascii_lowercase() == *wanted || (*b == b'_' && *wanted == b'-')
        })
}

/// The directive of a word with its percent sign.
pub fn directive_of(text: &[u8]) -> Directive {
    let word = text.get(1..).unwrap_or(&[]);
    WORDS
        .iter()
        .find(|(_, names)| names.split(' ').any(|name| is_word(word, name)))
        .map_or(Directive::Unknown, |(directive, _)| *directive)
}

/// Whether a directive or a string that an import takes stands at the front.
pub fn is_imported(bytes: &[u8]) -> bool {
    match bytes {
        [b'"', ..] => true,
        [b'%', ..] => {
            let word = bytes.get(..percent_length(bytes)).unwrap_or(bytes);
            directive_of(word) != Directive::Unknown
        }
        _ => false,
    }
}

impl Directive {
    /// Whether tokens are listed after it.
    pub fn lists_tokens(self) -> bool {
        self.names_tokens() || self.is_level()
    }

    /// Whether it lists tokens with the strings that stand for them.
    pub fn names_tokens(self) -> bool {
        matches!(self, Directive::Token | Directive::Term)
    }

    /// Whether it gives tokens a precedence.
    pub fn is_level(self) -> bool {
        matches!(
            self,
            Directive::Left
                | Directive::Right
                | Directive::Nonassoc
                | Directive::Binary
                | Directive::Precedence
        )
    }

    /// Whether a lexeme of this kind may stand after it, where it is taken out.
    pub fn takes(self, kind: Kind) -> bool {
        match self {
            Directive::Expect | Directive::ExpectReduce => kind == Kind::Number,
            Directive::Define => {
                matches!(kind, Kind::Name | Kind::Text | Kind::Braced | Kind::Number)
            }
            Directive::Skeleton => Shape::Text.takes(kind),
            Directive::Aside(shape) => shape.takes(kind),
            _ => false,
        }
    }
}

impl Shape {
    fn takes(self, kind: Kind) -> bool {
        match self {
            Shape::Alone => false,
            Shape::Text => matches!(kind, Kind::Text | Kind::Equals),
            Shape::Braces => kind == Kind::Braced,
            Shape::NamedBraces => matches!(kind, Kind::Name | Kind::Braced),
            Shape::BracesAndSymbols => {
                is_symbol(kind) || matches!(kind, Kind::Tag | Kind::Comma | Kind::Braced)
            }
        }
    }
}

/// Whether a lexeme of this kind is a symbol where one can stand.
pub fn is_symbol(kind: Kind) -> bool {
    matches!(
        kind,
        Kind::Name | Kind::Literal | Kind::ByteLiteral | Kind::Text | Kind::Translated
    )
}
