//! Grammars by what their tables don't show: precedences, symbols that can't be reached, and kept
//! texts.

use std::alloc::{AllocError, Global};
use std::test::Fail;
use ygrammar::{Associativity, Grammar, Precedence, Sym, read_grammar};

/// The marks of a grammar as text, a piece at a time.
#[derive(Drop)]
struct Marks {
    alloc: Global,
    text: Vec<u8>,
}

impl Marks {
    /// A slash, the first letter of the kind, and the level.
    fn precedence(&mut self, precedence: Option<Precedence>) -> Result<(), AllocError> {
        let Some(Precedence { level, kind }) = precedence else {
            return Ok(());
        };
        let letter = match kind {
            Associativity::Left => 'l',
            Associativity::Right => 'r',
            Associativity::Nonassoc => 'n',
        };
        let mark = format!(in self.alloc; "/{letter}{level}")?;
        self.text.extend_from_slice(mark.as_bytes())
    }

    /// The name, the precedence, and a minus sign where the symbol can't be reached.
    fn symbol(&mut self, grammar: &Grammar, s: Sym) -> Result<(), AllocError> {
        if s >= grammar.symbols() {
            return Ok(());
        }
        self.text.extend_from_slice(grammar.name(s))?;
        self.precedence(grammar.precedence(s))?;
        if !grammar.reachable(s) {
            self.text.push(b'-')?;
        }
        self.text.push(b' ')?;
        Ok(())
    }

    /// The number, the precedence and the kept text.
    fn rule(&mut self, grammar: &Grammar, r: usize) -> Result<(), AllocError> {
        if r >= grammar.rules() {
            return Ok(());
        }
        let number = format!(in self.alloc; "{r}")?;
        self.text.extend_from_slice(number.as_bytes())?;
        self.precedence(grammar.rule(r).precedence())?;
        if let Some(text) = grammar.action_text(r) {
            self.text.push(b' ')?;
            self.text.extend_from_slice(text)?;
        }
        self.text.push(b'\n')?;
        Ok(())
    }

    fn grammar(&mut self, grammar: &Grammar) -> Result<(), AllocError> {
        for s in 0..grammar.symbols() {
            self.symbol(grammar, s)?;
        }
        self.text.push(b'\n')?;
        for r in 0..grammar.rules() {
            self.rule(grammar, r)?;
        }
        Ok(())
    }
}

/// The symbols of a file's grammar on a line, and its rules on a line each, with their marks.
pub fn marks_of(alloc: Global, file: &[u8]) -> Result<Vec<u8>, Fail> {
    let text = Vec::new(alloc);
    let mut marks = Marks { alloc, text };
    marks.grammar(&read_grammar(alloc, file)?)?;
    Ok(marks.text)
}
