//! Literals that no rule and no list of tokens has: as tokens that a lexer may return, they are
//! listed.

use crate::note::{How, Reason};
use crate::refusal::Trouble;
use crate::spelling::other_name;
use crate::symbols::Work;
use std::alloc::AllocError;
use yforeign::directive::{Directive, Shape};
use yforeign::groups::{Group, Head};
use yforeign::lexeme::{Kind, Lexeme};
use ylexemes::literal::literal_at;

/// How many characters a literal can be of.
const BYTES: usize = 256;

/// The character that a literal is of.
fn byte_of(source: &[u8], lexeme: &Lexeme) -> Option<usize> {
    let text = lexeme.text(source);
    let byte = match lexeme.kind {
        Kind::Literal => literal_at(text)?.0,
        Kind::ByteLiteral => text.get(1).copied()?,
        _ => return None,
    };
    Some(usize::from(byte))
}

impl Work<'_> {
    /// Notes the literals of a group, and lists those that are new as tokens where `lists`.
    fn see_literals(&mut self, group: &Group<'_>, known: &mut Vec<bool>, lists: bool) {
        for lexeme in group.lexemes {
            let byte = byte_of(self.source, lexeme);
            let Some(seen) = byte.and_then(|byte| known.get_mut(byte)) else {
                continue;
            };
            if lists && !*seen {
                match other_name(self.alloc, self.source, lexeme) {
                    Ok(Some((name, _))) => self.edits.list_made(&name),
                    Ok(None) => self.edits.list_made(lexeme.text(self.source)),
                    Err(_) => self.edits.trouble.is_out = true,
                }
                self.edits
                    .note(lexeme.span, How::ToMark, Reason::TypedToken);
            }
            *seen = true;
        }
    }

    /// Lists the literals that only directives beside the grammar name.
    pub fn list_loners(&mut self, groups: &[Group<'_>]) -> Result<(), AllocError> {
        let mut known = vec![in self.alloc; false; BYTES]?;
        for group in groups {
            // there `yacc` takes literals as tokens
            let is_listing = match group.head {
                Head::Left | Head::Bar => true,
                Head::Word(directive) => directive.lists_tokens(),
                _ => false,
            };
            if is_listing {
                self.see_literals(group, &mut known, false);
            }
        }
        for group in groups {
            // there bison does, and `yacc` doesn't read them
            let is_aside = match group.head {
                Head::Word(Directive::Type | Directive::Nterm) => true,
                Head::Word(directive) => directive == Directive::Aside(Shape::BracesAndSymbols),
                _ => false,
            };
            if is_aside {
                self.see_literals(group, &mut known, true);
            }
        }
        Ok(())
    }
}
