//! The table of the codes: what is wrong, and how to mend it.

use std::alloc::Global;
use yexplain::reads::Made;
use yfiles::diagnostic::Diagnostic;
use ygrammar::GrammarFault;
use ytokens::tokens::TokenFault;

/// What a code says.
#[derive(Clone, Copy)]
pub struct Words {
    /// The code, as `G7`.
    pub code: &'static str,
    /// What is wrong.
    pub what: &'static str,
    /// How to mend it.
    pub mend: &'static str,
}

impl Words {
    /// Says what is wrong, and how to mend it.
    pub fn say(self, alloc: Global, one: &mut Diagnostic) -> Made<()> {
        one.code = Some(self.code);
        one.say(self.what)?;
        one.note(alloc, self.mend)
    }
}

/// The codes of grammar files (G), of too large automata (B) and of tokens files (K): for each a
/// line with it and with what is wrong, and a line that says how to mend it.
const TABLE: &str = "\
G1 the file has more than 1,048,576 bytes
Take actions and tables out of it, or cut it into two grammars.
G2 what begins here has no end
Close the comment, the code block, the braces or the quote, or one inside of it.
G3 no literal begins here
Write one character between quotes: '+', '\\n', '\\'', '\\101' or '\\x41'.
G4 no word or sign of a grammar file begins here
Put a sign in single quotes, as '+', a comment in /* */, or mend the word after %.
G5 this can't come here
Look before it for what is missing, as %%, a colon or a bar; quote a sign, as '<'.
G6 a token can't be a left side, nor stand after %type
Take it off the lines of tokens, or take another name; error is always a token.
G7 this name is neither a token nor the left side of a rule
List it by %token, or write a rule for it, or look for a slip in its spelling.
G8 this token is given a precedence a second time
Leave it in one line of %left, %right or %nonassoc.
G9 this number can't be given
Give a token one number, 1 to 32,767, that no other has; 'a' has 97, error has 256.
G10 %start names no nonterminal, or stands twice
Name the left side of a rule, in one %start.
G11 no list of tokens can be made of this nonterminal
Give it a rule that doesn't lead back to itself, if only an empty one.
G12 %prec names a nonterminal
Name a token after %prec, one that %left, %right or %nonassoc lists.
G13 the grammar is above a limit
There can be 4,096 symbols, 8,192 rules, and 255 symbols in a body.
G14 no memory
Give the program more memory.
B1 the grammar has more than 16,384 states
Make long bodies shorter, and let rules share what they have in common.
K1 no symbol of the grammar has this name
Write a token as the grammar file names it; a literal stands between quotes.
K2 this is no token that an input can have
Leave out nonterminals, error and $end: the end comes by itself.
K3 there are more than 1,000,000 tokens
Cut the file into several.
K4 no memory
Give the program more memory.
K5 no literal begins here
Write one character between quotes, as in a grammar file.";

/// What G5 says at the end of a file.
pub const AT_END: Words = Words {
    code: "G5",
    what: "the file ends too early",
    mend: "It needs %% and a rule at least.",
};

/// What a code says, where it is one.
pub fn words_of(wanted: &str) -> Option<Words> {
    let mut lines = TABLE.split('\n');
    for _ in 0..TABLE.len() {
        let (code, what) = lines.next()?.split_once(' ')?;
        let mend = lines.next()?;
        if code == wanted {
            return Some(Words { code, what, mend });
        }
    }
    None
}

/// The code of a fault of a grammar file.
pub fn grammar_code(fault: GrammarFault) -> &'static str {
    match fault {
        GrammarFault::TooLong => "G1",
        GrammarFault::Unfinished { .. } => "G2",
        GrammarFault::BadLiteral { .. } => "G3",
        GrammarFault::Foreign { .. } => "G4",
        GrammarFault::Syntax { .. } => "G5",
        GrammarFault::TokenLeft { .. } => "G6",
        GrammarFault::Undefined { .. } => "G7",
        GrammarFault::TwicePrecedence { .. } => "G8",
        GrammarFault::BadNumber { .. } => "G9",
        GrammarFault::BadStart { .. } => "G10",
        GrammarFault::Unproductive { .. } => "G11",
        GrammarFault::BadPrec { .. } => "G12",
        GrammarFault::Limit { .. } => "G13",
        GrammarFault::Memory => "G14",
    }
}

/// The code of a fault of a tokens file, and the place of its word, counted from 1.
pub fn token_code(fault: TokenFault) -> (&'static str, Option<usize>) {
    match fault {
        TokenFault::Unknown(place) => ("K1", Some(place)),
        TokenFault::NotInput(place) => ("K2", Some(place)),
        TokenFault::TooMany => ("K3", None),
        TokenFault::Memory => ("K4", None),
        TokenFault::BadLiteral(place) => ("K5", Some(place)),
    }
}
