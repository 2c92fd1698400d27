//! What is left out of a file, since no sentence can be made of it.

use yforeign::lexeme::Span;

/// What is left out of a file.
#[derive(Clone, Copy, Drop)]
pub enum Barren {
    /// A nonterminal.
    Nonterminal,
    /// A rule of such a nonterminal.
    Inside,
    /// A rule of another one, whose name stands here.
    Rule(Span),
    /// An action within a body, by its number among those of the file.
    Action(usize),
}

/// What is left out, and where it stands.
#[derive(Clone, Copy, Drop)]
pub struct LeftOut {
    /// What it is.
    pub what: Barren,
    /// Its name, its body or its text.
    pub span: Span,
}
