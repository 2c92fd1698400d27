//! What the lexemes of a file are, for an editor that colours them.

use crate::document::Document;
use serde_json::Value;
use std::alloc::{AllocError, Global};
use yforeign::lexeme::{Kind, Lexeme};

impl Document {
    /// The number of what a lexeme is, by the list of `capabilities`; none where it isn't coloured.
    fn colour(&self, lexeme: &Lexeme, mention: Option<usize>) -> Option<usize> {
        match lexeme.kind {
            Kind::Name => {
                let name = mention?;
                Some(usize::from(self.index.is_left(name)))
            }
            Kind::Word | Kind::Mark | Kind::Predicate => Some(2),
            Kind::Literal | Kind::ByteLiteral | Kind::Text | Kind::Translated => Some(3),
            Kind::Number => Some(4),
            Kind::Tag => Some(5),
            _ => None,
        }
    }

    /// All of them: for each five numbers, which are the lines and the columns after the one
    /// before, the length, what it is, and nothing more.
    pub fn colours(&self, alloc: Global) -> Result<Value, AllocError> {
        let mut numbers = Vec::new(alloc);
        let (mut line, mut column, mut next) = (0usize, 0usize, 0usize);
        for lexeme in &self.index.lexemes {
            let mut name = None;
            if let Some(mention) = self.index.mentions.get(next) {
                if mention.span.from == lexeme.span.from {
                    name = Some(mention.name);
                    next = next.saturating_add(1);
                }
            }
            let Some(colour) = self.colour(lexeme, name) else {
                continue;
            };
            let (start, end) = (
                self.position(lexeme.span.from),
                self.position(lexeme.span.to),
            );
            if start.line != end.line {
                continue;
            }
            let down = start.line.saturating_sub(line);
            let from = if down == 0 { column } else { 0 };
            let across = start.character.saturating_sub(from);
            let length = end.character.saturating_sub(start.character);
            for number in [down, across, length, colour, 0] {
                numbers.push(Value::from(number))?;
            }
            line = start.line;
            column = start.character;
        }
        Ok(Value::Array(numbers))
    }
}
