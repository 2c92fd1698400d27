//! What a lexeme of a grammar file is there for.

/// What a lexeme of a grammar file is there for. The rules of the file are counted from 0, in its
/// order: each begins with its left side or with a bar.
#[derive(Clone, Copy, Debug, Drop, PartialEq, Eq)]
pub enum Role {
    /// A code block, from `%{` to `%}`.
    Block,
    /// The word that begins a declaration.
    Word,
    /// The text of a `%union`, with its braces.
    Union,
    /// The sign before or after the name of a tag.
    Bracket,
    /// The name of the tag of a declaration.
    Tag,
    /// What a `%start` names.
    Start,
    /// A token that a `%token` line lists.
    Declared,
    /// A token that a `%left`, a `%right` or a `%nonassoc` line lists.
    Levelled,
    /// The number of the listed token before it.
    Digits,
    /// A name that a `%type` line lists.
    Typed,
    /// The first or the second `%%`.
    Mark,
    /// The left side with which this rule begins, and its colon.
    Left(usize),
    /// The bar with which this rule begins.
    Bar(usize),
    /// A symbol in the body of this rule.
    Symbol(usize),
    /// An action of this rule.
    Action(usize),
    /// The `%prec` of this rule.
    Prec(usize),
    /// What the `%prec` of this rule names.
    PrecName(usize),
    /// The semicolon after a rule.
    Semicolon,
}
