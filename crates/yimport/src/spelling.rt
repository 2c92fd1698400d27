//! How the symbols of a file are spelled in what it becomes.

use crate::note::Reason;
use std::alloc::{AllocError, Global};
use std::collections::HashMap;
use yforeign::lexeme::{Kind, Lexeme};
use yforeign::survey::{Survey, inside, is_text, with_quotes};
use ylexemes::literal::literal_at;
use ysymbols::names::Printed;
use ysymbols::{Grammar, Sym, let_go};

/// The end of every input.
const END: Sym = 0;

/// The name made for a string that stands for no token.
#[derive(Clone, Copy)]
pub struct Made {
    /// The number in the name.
    pub number: usize,
    /// Where the string stands first.
    pub text: Lexeme,
}

/// What names each symbol of a file in what it becomes.
pub struct Spelling {
    /// What names and strings of the file are.
    survey: Survey,
    /// The name made for each string that stands for no token.
    made: HashMap<Vec<u8>, Made>,
}

impl Drop for Spelling {
    // A call in each owner, which keeps their proofs short.
    fn drop(self) {
        let_go!(self: Spelling { survey, made });
    }
}

/// The name of a symbol that is no string, where `yacc` spells it otherwise, and the reason.
pub fn other_name(
    alloc: Global,
    source: &[u8],
    lexeme: &Lexeme,
) -> Result<Option<(Vec<u8>, Reason)>, AllocError> {
    let text = lexeme.text(source);
    match lexeme.kind {
        Kind::ByteLiteral => {
            let value = text.get(1).copied().unwrap_or(0);
            let name = Vec::from_slice(alloc, Printed::new(value).as_slice())?;
            Ok(Some((name, Reason::ByteLiteral)))
        }
        Kind::Name if text == b"YYerror".as_slice() => {
            Ok(Some((Vec::from_slice(alloc, b"error")?, Reason::ErrorName)))
        }
        Kind::Name if text.contains(&b'-') => {
            let mut plain = Vec::from_slice(alloc, text)?;
            for b in plain.iter_mut() {
                *b = if *b == b'-' { b'_' } else { *b };
            }
            Ok(Some((plain, Reason::Dash)))
        }
        _ => Ok(None),
    }
}

/// The name made for a string, from its number.
pub fn made_name(alloc: Global, number: usize) -> Result<Vec<u8>, AllocError> {
    let mut name = Vec::from_slice(alloc, b"string_")?;
    let mut digits = itoa::Buffer::new();
    name.extend_from_slice(digits.format(number).as_bytes())?;
    Ok(name)
}

/// A string without the ends of lines that have a backslash before them: byacc reads on after
/// them, so one string is spelled with them and without.
pub fn unbroken(alloc: Global, text: &[u8]) -> Result<Vec<u8>, AllocError> {
    let mut whole = Vec::new(alloc);
    let mut escaped = false;
    for b in text {
        if escaped && *b == b'\n' {
            let _ = whole.pop();
        } else {
            whole.push(*b)?;
        }
        escaped = !escaped && *b == b'\\';
    }
    Ok(whole)
}

/// The symbol that a lexeme which is no string names.
fn plain_symbol(
    alloc: Global,
    source: &[u8],
    grammar: &Grammar,
    lexeme: &Lexeme,
) -> Result<Option<Sym>, AllocError> {
    let text = lexeme.text(source);
    if lexeme.kind == Kind::Literal {
        return Ok(literal_at(text).and_then(|(value, _)| grammar.find_literal(value)));
    }
    Ok(match other_name(alloc, source, lexeme)? {
        Some((name, _)) => grammar.find(&name),
        None => grammar.find(text),
    })
}

/// Puts a string at its symbol, where that is one.
fn put(strings: &mut [Option<Lexeme>], symbol: Option<Sym>, text: Lexeme) {
    if let Some(symbol) = symbol {
        if let Some(string) = strings.get_mut(symbol) {
            *string = Some(text);
        }
    }
}

impl Spelling {
    /// What a file said of its symbols, with the names that were made.
    pub fn new(survey: Survey, made: HashMap<Vec<u8>, Made>) -> Spelling {
        Spelling { survey, made }
    }

    /// Whether a lexeme is a string that stands for no token, so that a name was made for it.
    pub fn is_made(&self, source: &[u8], lexeme: &Lexeme) -> bool {
        is_text(lexeme.kind) && self.survey.alias(source, lexeme).is_none()
    }

    /// The symbol that a lexeme names, in the grammar of what the file became.
    pub fn symbol(
        &self,
        alloc: Global,
        source: &[u8],
        grammar: &Grammar,
        lexeme: &Lexeme,
    ) -> Result<Option<Sym>, AllocError> {
        if self.survey.is_end(source, lexeme) {
            return Ok(Some(END));
        }
        if !is_text(lexeme.kind) {
            return plain_symbol(alloc, source, grammar, lexeme);
        }
        if let Some(token) = self.survey.alias(source, lexeme) {
            return plain_symbol(alloc, source, grammar, &token);
        }
        let key = unbroken(alloc, inside(source, lexeme))?;
        match self.made.get(&key) {
            Some(made) => Ok(grammar.find(&made_name(alloc, made.number)?)),
            None => Ok(None),
        }
    }

    /// The strings that stand for tokens, each at the symbol that it is.
    fn aliases(
        &self,
        alloc: Global,
        source: &[u8],
        grammar: &Grammar,
    ) -> Result<Vec<Option<Lexeme>>, AllocError> {
        let mut strings = vec![in alloc; None; grammar.symbols()]?;
        for alias in self.survey.aliases.values() {
            let symbol = self.symbol(alloc, source, grammar, &alias.token)?;
            put(&mut strings, symbol, alias.text);
        }
        Ok(strings)
    }

    /// The string of the file for each symbol of the grammar of what it became: the last one that
    /// stands for it, or the one that its name was made for.
    pub fn strings(
        &self,
        alloc: Global,
        source: &[u8],
        grammar: &Grammar,
    ) -> Result<Vec<Option<Lexeme>>, AllocError> {
        let mut strings = self.aliases(alloc, source, grammar)?;
        for made in self.made.values() {
            let name = made_name(alloc, made.number)?;
            put(&mut strings, grammar.find(&name), made.text);
        }
        Ok(strings)
    }

    /// These strings with their quotes, each in one line.
    pub fn texts(
        &self,
        alloc: Global,
        source: &[u8],
        grammar: &Grammar,
    ) -> Result<Vec<Option<Vec<u8>>>, AllocError> {
        let mut texts = Vec::new(alloc);
        for string in &self.strings(alloc, source, grammar)? {
            texts.push(match string {
                Some(string) => Some(unbroken(alloc, with_quotes(source, string))?),
                None => None,
            })?;
        }
        Ok(texts)
    }
}
