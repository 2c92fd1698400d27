//! Kinds of lexemes: the terminals of the grammar-file syntax.

ghost use Rattle.std.specs.Prelude.{◌≡◌};
ghost use Rattle.ylexemes.specs.Lexemes.{sign_kind};

/// What a lexeme is to the syntax of a grammar file: one of its terminals.
#[derive(Clone, Copy, PartialEq, Eq)]
pub enum Kind {
    /// A name, or a name that no colon follows.
    Name,
    /// A name with its colon, which POSIX calls C_IDENTIFIER.
    CIdentifier,
    /// A literal, as `'+'`.
    Literal,
    /// A number.
    Number,
    /// `%%`.
    Mark,
    /// `%token`.
    Token,
    /// `%left`.
    Left,
    /// `%right`.
    Right,
    /// `%nonassoc`.
    Nonassoc,
    /// `%type`.
    Types,
    /// `%start`.
    Start,
    /// `%union`.
    Union,
    /// `%prec`.
    Prec,
    /// `%{` to `%}`.
    Code,
    /// A kept text in braces.
    Braced,
    /// `<`.
    Less,
    /// `>`.
    Greater,
    /// `|`.
    Bar,
    /// `;`.
    Semicolon,
}

/// The lexemes with one spelling.
#[derive(Clone, Copy, PartialEq, Eq)]
pub enum Sign {
    /// `%%`.
    Mark,
    /// `%token`.
    Token,
    /// `%left`.
    Left,
    /// `%right`.
    Right,
    /// `%nonassoc`.
    Nonassoc,
    /// `%type`.
    Types,
    /// `%start`.
    Start,
    /// `%union`.
    Union,
    /// `%prec`.
    Prec,
    /// `<`.
    Less,
    /// `>`.
    Greater,
    /// `|`.
    Bar,
    /// `;`.
    Semicolon,
}

impl Sign {
    /// What the lexeme is to the syntax.
    pub fn kind(self) -> Kind
        ensures { result ≡ sign_kind self }
    {
        match self {
            Sign::Mark => Kind::Mark,
            Sign::Token => Kind::Token,
            Sign::Left => Kind::Left,
            Sign::Right => Kind::Right,
            Sign::Nonassoc => Kind::Nonassoc,
            Sign::Types => Kind::Types,
            Sign::Start => Kind::Start,
            Sign::Union => Kind::Union,
            Sign::Prec => Kind::Prec,
            Sign::Less => Kind::Less,
            Sign::Greater => Kind::Greater,
            Sign::Bar => Kind::Bar,
            Sign::Semicolon => Kind::Semicolon,
        }
    }
}
