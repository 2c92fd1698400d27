//! The directives that say something to a parser.

use crate::parts::{Deed, Taker, Target};
use yforeign::directive::is_word;

/// What a directive tells.
#[derive(Clone, Copy, PartialEq, Eq)]
pub enum Word {
    Code,
    Initial,
    Params(Taker),
    Care(Deed),
    Define,
    Pure,
    Locations,
    ErrorVerbose,
    Trace,
    Names,
    NoLines,
    Report,
    Yacc,
    Header,
    Output,
    FilePrefix,
    NamePrefix,
    Language,
    Skeleton,
    Require,
    /// Nothing to a parser.
    Nothing,
}

/// The directives that tell something.
const WORDS: [(&str, Word); 25] = [
    ("code", Word::Code),
    ("initial-action", Word::Initial),
    ("parse-param", Word::Params(Taker::Parse)),
    ("lex-param", Word::Params(Taker::Lex)),
    ("param", Word::Params(Taker::Both)),
    ("destructor", Word::Care(Deed::Destroy)),
    ("printer", Word::Care(Deed::Print)),
    ("define", Word::Define),
    ("pure-parser", Word::Pure),
    ("locations", Word::Locations),
    ("error-verbose", Word::ErrorVerbose),
    ("debug", Word::Trace),
    ("token-table", Word::Names),
    ("no-lines", Word::NoLines),
    ("verbose", Word::Report),
    ("yacc", Word::Yacc),
    ("fixed-output-files", Word::Yacc),
    ("header", Word::Header),
    ("defines", Word::Header),
    ("output", Word::Output),
    ("file-prefix", Word::FilePrefix),
    ("name-prefix", Word::NamePrefix),
    ("language", Word::Language),
    ("skeleton", Word::Skeleton),
    ("require", Word::Require),
];

/// The directives of byacc 2.0, with a space between two.
const BYACC: &str = "binary code debug destructor error-verbose expect expect-rr ident \
    initial-action left lex-param locations nonassoc parse-param prec pure-parser right start \
    term token token-table type union yacc";

/// The places of `%code`.
const QUALIFIERS: [(&str, Target); 3] = [
    ("top", Target::Top),
    ("requires", Target::Requires),
    ("provides", Target::Provides),
];

/// What the directive of this text, with its percent sign, tells.
pub fn word_of(text: &[u8]) -> Word {
    let directive = text.get(1..).unwrap_or(&[]);
    for (name, word) in &WORDS {
        if is_word(directive, name) {
            return *word;
        }
    }
    Word::Nothing
}

/// Whether byacc hasn't the directive of this text.
pub fn is_only_bison(text: &[u8]) -> bool {
    let directive = text.get(1..).unwrap_or(&[]);
    for name in BYACC.split(' ') {
        if is_word(directive, name) {
            return false;
        }
    }
    true
}

/// Where code with this word goes.
pub fn target_of(word: &[u8]) -> Option<Target> {
    for (name, target) in &QUALIFIERS {
        if is_word(word, name) {
            return Some(*target);
        }
    }
    None
}
