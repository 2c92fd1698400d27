//! The syntax tree of a grammar file: its declarations and its rules, in their order.

use ysymbols::let_go;
/// A name or a literal.
#[derive(Clone, Copy, Drop)]
pub enum Identifier<'a> {
    /// A name, byte for byte.
    Named(&'a [u8]),
    /// A literal, by the value of its character, 1 to 255.
    Quoted(u8),
}

/// An identifier, and how many bytes stand before it.
#[derive(Clone, Copy, Drop)]
pub struct Occurrence<'a> {
    /// The name or literal.
    pub who: Identifier<'a>,
    /// How many bytes of the file stand before it.
    pub at: usize,
}

/// A name, and how many bytes stand before it.
#[derive(Clone, Copy, Drop)]
pub struct NameAt<'a> {
    /// The name, byte for byte.
    pub name: &'a [u8],
    /// How many bytes of the file stand before it.
    pub at: usize,
}

/// A number's digits, and how many bytes stand before them.
#[derive(Clone, Copy, Drop)]
pub struct Digits<'a> {
    /// The digits, one or more.
    pub digits: &'a [u8],
    /// How many bytes of the file stand before them.
    pub at: usize,
}

/// A text in braces, and how many bytes stand before it.
#[derive(Clone, Copy, Drop)]
pub struct BracedText<'a> {
    /// The text, byte for byte, with its braces.
    pub text: &'a [u8],
    /// How many bytes of the file stand before it.
    pub at: usize,
}

/// The words that begin a line of tokens.
#[derive(Clone, Copy, Drop, PartialEq, Eq)]
pub enum Word {
    /// `%token`.
    Token,
    /// `%left`.
    Left,
    /// `%right`.
    Right,
    /// `%nonassoc`.
    Nonassoc,
}

/// A token in a listing, and the number after it, where one stands there.
#[derive(Clone, Copy, Drop)]
pub struct Entry<'a> {
    /// The token.
    pub who: Occurrence<'a>,
    /// The digits of its number.
    pub digits: Option<Digits<'a>>,
}

/// A line that lists tokens, and its tag, where it has one.
#[derive(Drop)]
pub struct Listing<'a> {
    /// The word that begins the line.
    pub word: Word,
    /// The name of the tag.
    pub tag: Option<NameAt<'a>>,
    /// The tokens, one or more.
    pub entries: Vec<Entry<'a>>,
}

/// A `%type` line: a tag, and the names that it is given to.
#[derive(Drop)]
pub struct Types<'a> {
    /// The name of the tag.
    pub tag: NameAt<'a>,
    /// The names, one or more.
    pub names: Vec<NameAt<'a>>,
}

/// A declaration.
#[derive(Drop)]
pub enum Definition<'a> {
    /// The start symbol, and how many bytes stand before its `%start`.
    Start(Occurrence<'a>, usize),
    /// `%union`, with its text.
    Union(BracedText<'a>),
    /// A code block, `%{` to `%}`.
    Block,
    /// A line that lists tokens.
    Listing(Listing<'a>),
    /// A `%type` line.
    Types(Types<'a>),
}

/// A part of a rule's body.
#[derive(Clone, Copy, Drop)]
pub enum BodyPart<'a> {
    /// A name or a literal.
    Symbol(Occurrence<'a>),
    /// An action, final or inner.
    Action(BracedText<'a>),
}

/// A rule of the file.
#[derive(Drop)]
pub struct RuleText<'a> {
    /// The name before the colon, unless the rule begins with a bar.
    pub left: Option<NameAt<'a>>,
    /// The parts between the colon or bar and what ends the rule; none for an empty rule.
    pub body: Vec<BodyPart<'a>>,
    /// The name or literal after `%prec`.
    pub prec: Option<Occurrence<'a>>,
    /// The action after the `%prec`.
    pub last: Option<BracedText<'a>>,
    /// How many semicolons stand after it.
    pub semicolons: usize,
}

/// A whole file.
pub struct Tree<'a> {
    /// The declarations.
    pub definitions: Vec<Definition<'a>>,
    /// The rules, one or more; the first has a left side.
    pub rule_texts: Vec<RuleText<'a>>,
    /// Whether a second `%%` ends the rules.
    pub second_mark: bool,
}

impl Drop for Tree<'_> {
    fn drop(self) {
        let_go!(self: Tree { definitions, rule_texts, second_mark });
    }
}
