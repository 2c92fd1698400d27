//! A grammar file's syntax is a regular language: a table of states decides it, with no stack.

ghost use Rattle.std.specs.Prelude.{◌≡◌};
ghost use Rattle.ysyntax.specs.Recogniser.{after_definition, on_name, on_identifier, on_less};
ghost use Rattle.ysyntax.specs.Recogniser.{on_greater, on_braced, on_c_identifier};
ghost use Rattle.ysyntax.specs.Recogniser.{after_list_word};
ghost use Rattle.ysyntax.specs.Recogniser.{after_number, after_listed, after_typed, after_rule};
ghost use Rattle.ysyntax.specs.Recogniser.{after_body, after_prec, next_state, is_final, is_end};

use ylexemes::kind::Kind;

/// How far a grammar file's syntax has been read: after which lexeme.
#[derive(Clone, Copy, Debug, Drop, PartialEq, Eq)]
pub enum State {
    /// Between two declarations.
    Declarations,
    /// After `%start`.
    StartWord,
    /// After `%union`.
    UnionWord,
    /// After `%token`, `%left`, `%right` or `%nonassoc`.
    ListWord,
    /// After the `<` of a tag in a line that lists tokens.
    ListTagOpen,
    /// After the name of that tag.
    ListTagName,
    /// After the `>` of that tag.
    ListTagged,
    /// After a token that is listed.
    Listed,
    /// After the number of a token that is listed.
    Numbered,
    /// After `%type`.
    TypeWord,
    /// After the `<` of its tag.
    TypeTagOpen,
    /// After the name of its tag.
    TypeTagName,
    /// After the `>` of its tag.
    TypeTagged,
    /// After a name that `%type` lists.
    Typed,
    /// After the first `%%`.
    RulesMark,
    /// Within the body of a rule, also at its beginning.
    Body,
    /// After `%prec`.
    PrecWord,
    /// After the name or literal of `%prec`.
    PrecNamed,
    /// After the action that follows a `%prec`, or after a semicolon.
    Semicolons,
    /// After the second `%%`.
    End,
}

impl State {
    /// The state after a lexeme of this kind, or `None` where it may not stand here.
    pub fn next(self, kind: Kind) -> Option<State>
        ensures { result ≡ next_state self kind }
    {
        match self {
            State::Declarations => after_definition(kind),
            State::StartWord => on_identifier(kind, State::Declarations),
            State::UnionWord => on_braced(kind, State::Declarations),
            State::ListWord => after_list_word(kind),
            State::ListTagOpen => on_name(kind, State::ListTagName),
            State::ListTagName => on_greater(kind, State::ListTagged),
            State::ListTagged => on_identifier(kind, State::Listed),
            State::Listed => after_listed(kind),
            State::Numbered => after_number(kind),
            State::TypeWord => on_less(kind, State::TypeTagOpen),
            State::TypeTagOpen => on_name(kind, State::TypeTagName),
            State::TypeTagName => on_greater(kind, State::TypeTagged),
            State::TypeTagged => on_name(kind, State::Typed),
            State::Typed => after_typed(kind),
            State::RulesMark => on_c_identifier(kind, State::Body),
            State::Body => after_body(kind),
            State::PrecWord => on_identifier(kind, State::PrecNamed),
            State::PrecNamed => after_prec(kind),
            State::Semicolons => after_rule(kind),
            State::End => None,
        }
    }

    /// Whether the lexemes read so far are those of a grammar file.
    pub fn is_final(self) -> bool
        ensures { result ≡ is_final self }
    {
        matches!(
            self,
            State::Body | State::PrecNamed | State::Semicolons | State::End
        )
    }

    /// Whether the second `%%` has been read.
    pub fn is_end(self) -> bool
        ensures { result ≡ is_end self }
    {
        matches!(self, State::End)
    }
}

fn after_definition(kind: Kind) -> Option<State>
    ensures { result ≡ after_definition kind }
{
    match kind {
        Kind::Start => Some(State::StartWord),
        Kind::Union => Some(State::UnionWord),
        Kind::Code => Some(State::Declarations),
        Kind::Token | Kind::Left | Kind::Right | Kind::Nonassoc => Some(State::ListWord),
        Kind::Types => Some(State::TypeWord),
        Kind::Mark => Some(State::RulesMark),
        _ => None,
    }
}

fn on_name(kind: Kind, then: State) -> Option<State>
    ensures { result ≡ on_name then kind }
{
    match kind {
        Kind::Name => Some(then),
        _ => None,
    }
}

fn on_identifier(kind: Kind, then: State) -> Option<State>
    ensures { result ≡ on_identifier then kind }
{
    match kind {
        Kind::Name | Kind::Literal => Some(then),
        _ => None,
    }
}

fn on_less(kind: Kind, then: State) -> Option<State>
    ensures { result ≡ on_less then kind }
{
    match kind {
        Kind::Less => Some(then),
        _ => None,
    }
}

fn on_greater(kind: Kind, then: State) -> Option<State>
    ensures { result ≡ on_greater then kind }
{
    match kind {
        Kind::Greater => Some(then),
        _ => None,
    }
}

fn on_braced(kind: Kind, then: State) -> Option<State>
    ensures { result ≡ on_braced then kind }
{
    match kind {
        Kind::Braced => Some(then),
        _ => None,
    }
}

fn on_c_identifier(kind: Kind, then: State) -> Option<State>
    ensures { result ≡ on_c_identifier then kind }
{
    match kind {
        Kind::CIdentifier => Some(then),
        _ => None,
    }
}

fn after_list_word(kind: Kind) -> Option<State>
    ensures { result ≡ after_list_word kind }
{
    match kind {
        Kind::Less => Some(State::ListTagOpen),
        _ => on_identifier(kind, State::Listed),
    }
}

fn after_number(kind: Kind) -> Option<State>
    ensures { result ≡ after_number kind }
{
    match kind {
        Kind::Name | Kind::Literal => Some(State::Listed),
        _ => after_definition(kind),
    }
}

fn after_listed(kind: Kind) -> Option<State>
    ensures { result ≡ after_listed kind }
{
    match kind {
        Kind::Number => Some(State::Numbered),
        _ => after_number(kind),
    }
}

fn after_typed(kind: Kind) -> Option<State>
    ensures { result ≡ after_typed kind }
{
    match kind {
        Kind::Name => Some(State::Typed),
        _ => after_definition(kind),
    }
}

fn after_rule(kind: Kind) -> Option<State>
    ensures { result ≡ after_rule kind }
{
    match kind {
        Kind::Semicolon => Some(State::Semicolons),
        Kind::CIdentifier | Kind::Bar => Some(State::Body),
        Kind::Mark => Some(State::End),
        _ => None,
    }
}

fn after_body(kind: Kind) -> Option<State>
    ensures { result ≡ after_body kind }
{
    match kind {
        Kind::Name | Kind::Literal | Kind::Braced => Some(State::Body),
        Kind::Prec => Some(State::PrecWord),
        _ => after_rule(kind),
    }
}

fn after_prec(kind: Kind) -> Option<State>
    ensures { result ≡ after_prec kind }
{
    match kind {
        Kind::Braced => Some(State::Semicolons),
        _ => after_rule(kind),
    }
}
