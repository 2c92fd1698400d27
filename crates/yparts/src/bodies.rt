//! Bodies of a foreign file: the names of their values, the actions and the tags of these.

use crate::gather::Gather;
use crate::parts::{By, Named};
use yexplain::reads::Made;
use yforeign::directive::is_symbol;
use yforeign::lexeme::{Kind, Lexeme};

/// What stands between the first byte of a text and its last, without blanks around it.
pub fn inner(text: &[u8]) -> &[u8] {
    let inner = text.get(1..text.len().saturating_sub(1));
    inner.unwrap_or(&[]).trim_ascii()
}

/// The values of a body while its lexemes come.
#[derive(Clone, Copy)]
pub struct Body {
    /// How many symbols and actions came.
    place: usize,
    /// Whether the lexeme before is a directive, whose symbol has no value.
    is_prec: bool,
}

impl Body {
    /// That of a body of which nothing came.
    pub fn new() -> Body {
        Body {
            place: 0,
            is_prec: false,
        }
    }

    /// Takes in a lexeme with this text: a symbol or an action is the next value, a name in brackets
    /// is that of the last one.
    pub fn take<'a>(&mut self, names: &mut Vec<Named<'a>>, kind: Kind, text: &'a [u8]) -> Made<()> {
        let is_value = kind == Kind::Braced || is_symbol(kind) && !self.is_prec;
        self.is_prec = kind == Kind::Word;
        if kind == Kind::Reference {
            if let Some(named) = names.last_mut() {
                named.name = inner(text);
            }
        }
        if is_value {
            self.place = self.place.saturating_add(1);
            let name = match kind {
                Kind::Braced => text.get(..0).unwrap_or(text),
                _ => text,
            };
            names.push(Named {
                name,
                symbol: name,
                place: self.place,
            })?;
        }
        Ok(())
    }
}

impl<'a> Gather<'a, '_> {
    /// Takes in a body, whose left side is the last one, after a sign on a line.
    pub fn take_body(&mut self, lexemes: &[Lexeme], sign: usize) -> Made<()> {
        let (source, names) = (self.source, self.parts.names.len());
        self.parts.bodies.push(names)?;
        let mut line = sign;
        for lexeme in lexemes.iter().rev() {
            if !matches!(lexeme.kind, Kind::Reference | Kind::Colon | Kind::Semicolon) {
                line = lexeme.span.line;
            }
        }
        self.parts.lines.push(line)?;
        // the tag of the action that comes
        let mut tag: Option<&[u8]> = None;
        let mut body = Body::new();
        self.parts.names.push(self.left)?;
        for lexeme in lexemes {
            let name = lexeme.text(source);
            self.see_lexeme(lexeme, true);
            body.take(&mut self.parts.names, lexeme.kind, name)?;
            match lexeme.kind {
                Kind::Tag => tag = Some(inner(name)),
                Kind::Braced => {
                    let piece = self.piece(lexeme);
                    self.actions.push(piece)?;
                    self.action_tags.push(tag)?;
                    tag = None;
                }
                kind if is_symbol(kind) => {
                    self.see_symbol(lexeme, None, By::Name)?;
                }
                _ => {}
            }
        }
        Ok(())
    }

    /// Takes in a rule from its left side.
    pub fn take_rule(&mut self, lexemes: &[Lexeme]) -> Made<()> {
        let Some((left, rest)) = lexemes.split_first() else {
            return Ok(());
        };
        let symbol = left.text(self.source);
        let name = match rest.first() {
            Some(name) if name.kind == Kind::Reference => inner(name.text(self.source)),
            _ => symbol,
        };
        self.left = Named {
            name,
            symbol,
            place: 0,
        };
        let mut sign = left.span.line;
        for lexeme in rest {
            if lexeme.kind == Kind::Colon {
                sign = lexeme.span.line;
            }
        }
        self.take_body(rest, sign)
    }
}
