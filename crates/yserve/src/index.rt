//! Where the symbols of a file stand, by its lexemes: also of a file with a fault.

use std::alloc::{AllocError, Global};
use std::collections::HashMap;
use yforeign::directive::{Directive, directive_of, is_symbol};
use yforeign::groups::{Group, Head, groups_of};
use yforeign::lexeme::{Kind, Lexeme, Span, Uncut};
use yforeign::lexer::lexemes_of;

/// What a symbol is named for.
#[derive(Clone, Copy, Drop, PartialEq, Eq)]
pub enum Use {
    /// It is declared as a token.
    Token,
    /// It is given a precedence.
    Level,
    /// It is given a tag, or declared as a nonterminal.
    Type,
    /// The start.
    Start,
    /// The left side of a rule.
    Left,
    /// A symbol of the body of a rule.
    Body,
    /// A `%prec`.
    Prec,
    /// Anything else, as a `%destructor`.
    Other,
}

impl Use {
    /// What symbols after a directive are named for.
    fn of(directive: Directive) -> Use {
        match directive {
            _ if directive.names_tokens() => Use::Token,
            _ if directive.is_level() => Use::Level,
            Directive::Type | Directive::Nterm => Use::Type,
            Directive::Start => Use::Start,
            _ => Use::Other,
        }
    }
}

/// A place at which a symbol is named.
#[derive(Clone, Copy, Drop)]
pub struct Mention {
    /// The number of its name.
    pub name: usize,
    /// Where that stands.
    pub span: Span,
    /// What it is named for.
    pub named: Use,
    /// The number of the rule, from 0 on, where it stands in one.
    pub rule: usize,
}

/// A rule: its left side, its part of the file, and its mentions.
#[derive(Clone, Copy, Drop)]
pub struct Rule {
    /// The number of the name of its left side.
    pub left: usize,
    /// How many bytes stand before it.
    pub from: usize,
    /// How many bytes stand before what follows it.
    pub to: usize,
    /// The number of its first mention.
    pub first: usize,
}

/// Where the symbols of a file stand.
pub struct Index {
    /// The names, each with a number: literals with their quotes, strings as their tokens.
    pub names: Vec<Vec<u8>>,
    /// The number of each; of a string that stands for a token, that of the token.
    numbers: HashMap<Vec<u8>, usize>,
    /// All mentions, in the order of the file.
    pub mentions: Vec<Mention>,
    /// All rules.
    pub rules: Vec<Rule>,
    /// All lexemes.
    pub lexemes: Vec<Lexeme>,
    /// The parts of the file that a declaration, a code block or a rule takes.
    pub parts: Vec<(usize, usize)>,
    /// The tags that symbols are declared with.
    pub tags: HashMap<usize, Span>,
}

impl Drop for Index {
    // A call in each owner, which keeps their proofs short.
    fn drop(self) {
        let Index {
            names: _,
            numbers: _,
            mentions: _,
            rules: _,
            lexemes: _,
            parts: _,
            tags: _,
        } = self;
    }
}

/// What makes an index.
#[derive(Drop)]
struct Maker<'a> {
    alloc: Global,
    source: &'a [u8],
    made: Index,
}

impl Maker<'_> {
    /// The number of a name: that of the token for which a string stands.
    fn number(&mut self, text: &[u8]) -> Result<usize, AllocError> {
        let name = Vec::from_slice(self.alloc, text)?;
        if let Some(number) = self.made.numbers.get(&name).copied() {
            return Ok(number);
        }
        let number = self.made.names.len();
        self.made.names.push(Vec::from_slice(self.alloc, text)?)?;
        self.made.numbers.insert(name, number)?;
        Ok(number)
    }

    /// Takes in a symbol.
    fn mention(&mut self, lexeme: &Lexeme, named: Use) -> Result<usize, AllocError> {
        let name = self.number(lexeme.text(self.source))?;
        let rule = self.made.rules.len().saturating_sub(1);
        let span = lexeme.span;
        self.made.mentions.push(Mention {
            name,
            span,
            named,
            rule,
        })?;
        Ok(name)
    }

    /// Takes in a declaration. A string after a token that is declared stands for it.
    fn declare(&mut self, group: &Group<'_>, directive: Directive) -> Result<(), AllocError> {
        let (named, mut last, mut tag) = (Use::of(directive), None, None);
        let takes_symbols = directive.takes(Kind::Name) && directive.takes(Kind::Literal);
        if directive == Directive::Define || named == Use::Other && !takes_symbols {
            return Ok(());
        }
        for lexeme in group.lexemes.get(1..).unwrap_or(&[]) {
            let is_text = matches!(lexeme.kind, Kind::Text | Kind::Translated);
            match (last, is_symbol(lexeme.kind)) {
                (Some(token), true) if is_text && named == Use::Token => {
                    let text = Vec::from_slice(self.alloc, lexeme.text(self.source))?;
                    self.made.numbers.insert(text, token)?;
                }
                (_, true) => {
                    let name = self.mention(lexeme, named)?;
                    if let (Some(tag), true) = (tag, named != Use::Other) {
                        self.made.tags.insert(name, tag)?;
                    }
                    last = Some(name);
                }
                _ if lexeme.kind == Kind::Tag => tag = Some(lexeme.span),
                _ => {}
            }
        }
        Ok(())
    }

    /// Takes in what stands after the beginning of a rule.
    fn body(&mut self, lexemes: &[Lexeme]) -> Result<(), AllocError> {
        let mut is_prec = false;
        for lexeme in lexemes {
            if is_symbol(lexeme.kind) {
                let named = if is_prec { Use::Prec } else { Use::Body };
                self.mention(lexeme, named)?;
                is_prec = false;
            } else if lexeme.kind == Kind::Word {
                is_prec = directive_of(lexeme.text(self.source)) == Directive::Prec;
            }
        }
        Ok(())
    }

    /// Takes in a rule: with its left side, or another one of the same.
    fn rule(&mut self, group: &Group<'_>) -> Result<(), AllocError> {
        let (Some(head), Some(last)) = (group.lexemes.first(), group.lexemes.last()) else {
            return Ok(());
        };
        let left = if group.head == Head::Left {
            self.number(head.text(self.source))?
        } else {
            match self.made.rules.last() {
                Some(rule) => rule.left,
                None => 0,
            }
        };
        self.made.rules.push(Rule {
            left,
            from: head.span.from,
            to: last.span.to,
            first: self.made.mentions.len(),
        })?;
        if group.head == Head::Left {
            self.mention(head, Use::Left)?;
        }
        self.body(group.lexemes.get(1..).unwrap_or(&[]))
    }

    /// Takes in a group.
    fn group(&mut self, group: &Group<'_>) -> Result<(), AllocError> {
        if let (Some(head), Some(last)) = (group.lexemes.first(), group.lexemes.last()) {
            self.made.parts.push((head.span.from, last.span.to))?;
        }
        match group.head {
            Head::Word(directive) => self.declare(group, directive),
            Head::Left | Head::Bar => self.rule(group),
            Head::Code | Head::Mark | Head::Stray => Ok(()),
        }
    }
}

/// The lexemes of a file up to the first place at which none begins; an action without an end goes
/// on to that of the file.
fn lexemes_in(alloc: Global, source: &[u8]) -> Result<Vec<Lexeme>, AllocError> {
    let flaw = match lexemes_of(alloc, source) {
        Ok(found) => return Ok(Vec::from_slice(alloc, &found.all)?),
        Err(Uncut::Flaw(_, span)) => span,
        Err(Uncut::Memory) => return Err(AllocError),
    };
    let mut all = match lexemes_of(alloc, source.get(..flaw.from).unwrap_or(&[])) {
        Ok(found) => Vec::from_slice(alloc, &found.all)?,
        Err(Uncut::Flaw(..)) => Vec::new(alloc),
        Err(Uncut::Memory) => return Err(AllocError),
    };
    if source.get(flaw.from) == Some(&b'{') {
        let span = Span {
            to: source.len(),
            ..flaw
        };
        let kind = Kind::Braced;
        all.push(Lexeme { kind, span })?;
    }
    Ok(all)
}

/// Where the symbols of a file stand, up to the first place at which no lexeme begins.
pub fn index_of(alloc: Global, source: &[u8]) -> Result<Index, AllocError> {
    let lexemes = lexemes_in(alloc, source)?;
    let groups = groups_of(alloc, source, &lexemes)?;
    let kept = Vec::from_slice(alloc, &lexemes)?;
    let mut maker = Maker {
        alloc,
        source,
        made: Index {
            names: Vec::new(alloc),
            numbers: HashMap::new(alloc),
            mentions: Vec::new(alloc),
            rules: Vec::new(alloc),
            lexemes: kept,
            parts: Vec::new(alloc),
            tags: HashMap::new(alloc),
        },
    };
    for group in &groups {
        maker.group(group)?;
    }
    let Maker { made, .. } = maker;
    Ok(made)
}

impl Index {
    /// The name of a number.
    pub fn name(&self, number: usize) -> &[u8] {
        match self.names.get(number) {
            Some(name) => name.as_slice(),
            None => &[],
        }
    }

    /// Whether a symbol has this name.
    pub fn has(&self, name: &[u8]) -> bool {
        for other in &self.names {
            if other.as_slice() == name {
                return true;
            }
        }
        false
    }

    /// The mention that a place stands in, or at whose end it stands.
    pub fn at(&self, offset: usize) -> Option<Mention> {
        for mention in &self.mentions {
            if mention.span.from <= offset && offset <= mention.span.to {
                return Some(*mention);
            }
        }
        None
    }

    /// Whether a symbol stands on the left side of a rule.
    pub fn is_left(&self, name: usize) -> bool {
        for rule in &self.rules {
            if rule.left == name {
                return true;
            }
        }
        false
    }

    /// The mention at which a symbol is defined: its first rule, or its declaration.
    pub fn definition(&self, name: usize) -> Option<Mention> {
        let (mut found, mut first): (Option<Mention>, Option<Use>) = (None, None);
        for mention in &self.mentions {
            let is_better = match (mention.named, first) {
                (Use::Left, first) => first != Some(Use::Left),
                (Use::Token, None | Some(Use::Level | Use::Type)) => true,
                (Use::Level | Use::Type, None) => true,
                _ => false,
            };
            if mention.name == name && is_better {
                (found, first) = (Some(*mention), Some(mention.named));
            }
        }
        found
    }

    /// The rule that a place stands in.
    pub fn rule_at(&self, offset: usize) -> Option<usize> {
        for (number, rule) in self.rules.iter().enumerate() {
            if rule.from <= offset && offset <= rule.to {
                return Some(number);
            }
        }
        None
    }
}
