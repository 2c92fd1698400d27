//! What is changed, and why.

use yforeign::lexeme::Span;

/// Whether a change can change what the file says.
#[derive(Clone, Copy, Drop)]
pub enum Effect {
    /// It can't.
    None,
    /// It can't, though rules are left out.
    Rules,
    /// Conflicts can change.
    Conflicts,
    /// The language can change.
    Language,
}

impl Effect {
    /// What is said of it; whether conflicts stay with those changes that can't change any was
    /// looked up in the tables.
    pub fn text(self, conflicts_stay: bool) -> &'static str {
        match self {
            Effect::None if conflicts_stay => "language and conflicts stay",
            Effect::None | Effect::Rules => "the language stays",
            Effect::Conflicts => "conflicts can change",
            Effect::Language => "the language can change",
        }
    }
}

/// Why something is changed: what each says is its `text`.
#[derive(Clone, Copy, Drop)]
pub enum Reason {
    ForItsParser,
    Expected,
    TablesAsked,
    OldWord,
    Precedence,
    NoType,
    TypedToken,
    TypedUnknown,
    Alias,
    AliasUsed,
    MadeName,
    MadeSign,
    EndListed,
    EndInBody,
    MacroNumber,
    LargeNumber,
    ErrorNumber,
    HexNumber,
    EmptyWord,
    Reference,
    Remark,
    Separator,
    OddTag,
    SecondTag,
    Between,
    ByteLiteral,
    InnerType,
    Equals,
    UnionName,
    LineMark,
    PrecInside,
    Dash,
    ErrorName,
    Barren,
}

/// How something is changed.
#[derive(Clone, Copy, Drop)]
pub enum How {
    /// It is taken out.
    Out,
    /// It becomes the text that stands here among those written.
    Becomes(usize, usize),
    /// It goes in front of the first mark.
    ToMark,
    /// It goes to the end of its body.
    ToEnd,
}

/// A change: what is changed, how, and why.
#[derive(Clone, Copy, Drop)]
pub struct Note {
    /// Where what is changed stands in the file.
    pub span: Span,
    /// How it is changed.
    pub how: How,
    /// Why it is changed.
    pub reason: Reason,
}

impl Reason {
    /// What is said of it.
    pub fn text(self) -> &'static str {
        match self {
            Reason::ForItsParser => "it's for the parser that is written",
            Reason::Expected => "yacc counts conflicts itself",
            Reason::TablesAsked => "yacc makes LALR(1) tables alone",
            Reason::OldWord => "it's yacc's word for this",
            Reason::Precedence => {
                "yacc has no %precedence, and no state that can be reached compares equal levels of it"
            }
            Reason::NoType => "no nonterminal with a tag stands in it",
            Reason::TypedToken => "it's a token",
            Reason::TypedUnknown => "it's no left side of a rule",
            Reason::Alias => "tokens of yacc have one name",
            Reason::AliasUsed => "the token's name stands for its string",
            Reason::MadeName => "no token has this string, so it's a token of its own",
            Reason::MadeSign => "no token has this string; byacc would read a literal",
            Reason::EndListed => "its number is 0: it's the end, $end to yacc",
            Reason::EndInBody => "it's the end, which yacc puts there itself",
            Reason::MacroNumber => "yacc knows no macros",
            Reason::LargeNumber => "numbers of yacc end at 32,767",
            Reason::ErrorNumber => "256 is the number of error",
            Reason::HexNumber => "numbers of yacc are decimal",
            Reason::EmptyWord => "an empty body of yacc has nothing in it",
            Reason::Reference => "yacc has no names for what stands in a body",
            Reason::Remark => "a comment of yacc stands between these",
            Reason::Separator => "declarations of yacc have none",
            Reason::OddTag => "a tag of yacc is a name",
            Reason::SecondTag => "a list of yacc has one tag",
            Reason::Between => "declarations of yacc stand before the rules",
            Reason::ByteLiteral => "yacc reads this byte as an escape",
            Reason::InnerType => "actions of yacc have no type",
            Reason::Equals => "actions of yacc have no sign before them",
            Reason::UnionName => "the union of yacc has no name",
            Reason::LineMark => "yacc reads no marks of lines",
            Reason::PrecInside => "%prec of yacc stands at the end of a body",
            Reason::Dash => "names of yacc have no dashes",
            Reason::ErrorName => "it's yacc's name for this",
            Reason::Barren => "no list of tokens can be made of it",
        }
    }

    /// What it can change.
    pub fn effect(self) -> Effect {
        match self {
            Reason::TablesAsked => Effect::Conflicts,
            Reason::MadeSign => Effect::Language,
            Reason::Barren => Effect::Rules,
            _ => Effect::None,
        }
    }
}
