//! What is found in a grammar file that deserves a word, as values.

use crate::kinds::Kind;
use std::alloc::Global;
use yexplain::reads::{Made, grammar_of, name_of};
use yforeign::groups::Group;
use yforeign::lexeme::Lexeme;
use yimport::import::Imported;
use yparts::parts::Parts;
use yparts::refusal::Refused;
use yskeleton::{Misuse, Misused};
use ysymbols::{Grammar, Sym};
use ytables::Tables;

/// The word that should stand in place of another one, with a part of the file after it.
#[derive(Clone, Copy)]
pub struct Better<'a> {
    /// The word.
    pub word: &'static str,
    /// What stands before the part.
    pub before: &'static str,
    /// The part.
    pub part: &'a [u8],
    /// What stands after it.
    pub after: &'static str,
}

/// Which part of a token's precedence settles nothing.
#[derive(Clone, Copy, PartialEq, Eq)]
pub enum Idle {
    /// All of it, and it has a direction.
    Both,
    /// All of it; it has none.
    Level,
    /// Its direction.
    Direction,
}

/// What is found.
#[derive(Clone, Copy)]
pub enum What<'a> {
    /// A directive that POSIX hasn't.
    NoDirective(&'a [u8]),
    /// A string.
    NoString,
    /// A hexadecimal number.
    NoHexadecimal,
    /// A name with a dash.
    NoDash(&'a [u8]),
    /// A token in `%type`.
    TypedToken,
    /// An action within a body that has a tag.
    TypedAction,
    /// What has another word now.
    Old(&'a [u8], Better<'a>),
    /// A variable whose value stands between quotes, and should be a word.
    WantsWord(&'a [u8]),
    /// A variable whose value stands between quotes, and should stand in braces.
    WantsBraces(&'a [u8]),
    /// A variable that has its value already.
    Redefined(&'a [u8]),
    /// A comma in a list.
    Comma,
    /// A token that is declared already.
    Redeclared(&'a [u8]),
    /// A symbol that has a tag already.
    Retagged(&'a [u8]),
    /// A string that stands for a token already.
    SecondString(&'a [u8]),
    /// A token that has a string already.
    SecondAlias(&'a [u8]),
    /// A string that stands for no token.
    Loose(&'a [u8]),
    /// A name that is neither a token nor has rules.
    NoRules(&'a [u8]),
    /// A tag that no symbol has.
    NoSymbol(&'a [u8]),
    /// Code for the values of no symbol: its directive, and whose values.
    IdleCode(&'a [u8], &'a [u8]),
    /// `%expect-rr`.
    ExpectReduce,
    /// `%expect-rr` in a rule.
    RuleExpectsReduce,
    /// Shift/reduce conflicts of a rule, found and expected.
    OtherInRule(usize, usize, usize),
    /// An empty rule without `%empty`.
    Empty,
    /// An empty rule of a symbol with a tag, without an action.
    NoValue,
    /// Tags of the left side and of the first symbol, which differ, without an action.
    Clash(&'a [u8], &'a [u8]),
    /// A value that is used nowhere.
    Unused(usize),
    /// A value that is never set.
    Unset,
    /// So many nonterminals are useless.
    Nonterminals(usize),
    /// So many rules are useless.
    Rules(usize),
    /// A useless nonterminal.
    Nonterminal(&'a [u8]),
    /// That of an action within a body, by its number and its text.
    Action(usize, &'a [u8]),
    /// A useless rule of a nonterminal that isn't.
    Rule,
    /// A rule that is never reduced.
    Lost,
    /// A precedence of a token that settles nothing.
    Idle(Idle, &'a [u8]),
    /// So many shift/reduce conflicts.
    Shifts(usize),
    /// So many reduce/reduce conflicts.
    Reduces(usize),
    /// A value or place that code misuses.
    Misused(Misused<'a>),
    /// What no parser has.
    Refused(Refused<'a>),
    /// Shift/reduce conflicts, found and expected.
    OtherShifts(usize, usize),
    /// Reduce/reduce conflicts, found and expected.
    OtherReduces(usize, usize),
}

/// Something that was found.
#[derive(Clone, Copy)]
pub struct Finding<'a> {
    /// The kind of warning that it is; none where it is an error.
    pub kind: Option<Kind>,
    /// Where it stands in the file, unless it is said of all of it.
    pub at: Option<usize>,
    /// What was found.
    pub what: What<'a>,
    /// Where it was declared before.
    pub before: Option<usize>,
}

/// A warning at a place.
pub fn warning<'a>(kind: Kind, at: usize, what: What<'a>) -> Finding<'a> {
    Finding {
        kind: Some(kind),
        at: Some(at),
        what,
        before: None,
    }
}

/// A warning about the whole file.
pub fn about_all<'a>(kind: Kind, what: What<'a>) -> Finding<'a> {
    Finding {
        kind: Some(kind),
        at: None,
        what,
        before: None,
    }
}

/// A misuse, which is an error or only worth a warning.
pub fn misuse<'a>(misused: Misused<'a>) -> Finding<'a> {
    let it = warning(Kind::Other, misused.at, What::Misused(misused));
    if matches!(misused.misuse, Misuse::Misleading | Misuse::Stray) {
        it
    } else {
        Finding { kind: None, ..it }
    }
}

/// The error that a file asks for what no parser has.
pub fn refusal<'a>(refused: Refused<'a>) -> Finding<'a> {
    Finding {
        kind: None,
        at: Some(refused.at),
        what: What::Refused(refused),
        before: refused.before,
    }
}

/// A file in which is sought.
#[derive(Clone, Copy)]
pub struct Seen<'a> {
    /// The allocator.
    pub alloc: Global,
    /// Its bytes.
    pub source: &'a [u8],
    /// Its import.
    pub imported: &'a Imported,
    /// Its lexemes, in groups.
    pub groups: &'a [Group<'a>],
    /// Its tables.
    pub tables: &'a Tables,
    /// What it says of its parser.
    pub parts: &'a Parts<'a>,
}

impl<'a> Seen<'a> {
    /// Its grammar.
    pub fn grammar(&self) -> &'a Grammar {
        grammar_of(self.tables)
    }

    /// The text of a lexeme.
    pub fn text(&self, lexeme: &Lexeme) -> &'a [u8] {
        lexeme.text(self.source)
    }

    /// The symbol that a lexeme names.
    pub fn symbol(&self, lexeme: &Lexeme) -> Made<Option<Sym>> {
        let (spelling, grammar) = (&self.imported.spelling, self.grammar());
        spelling.symbol(self.alloc, self.source, grammar, lexeme)
    }

    /// What a symbol is called in the file: a literal, or a string that has no other name, as it
    /// stands there.
    pub fn name(&self, symbol: Sym) -> &'a [u8] {
        let looks = self.parts.looks_of(symbol);
        match looks.label {
            Some(label) if looks.is_made || label.starts_with(b"'") => label,
            _ => name_of(self.grammar(), symbol),
        }
    }
}
