//! What can come at a place of a grammar file.

use crate::nearest::Search;
use std::alloc::Global;
use std::fmt;
use yexplain::reads::Made;
use ylexemes::bytes::is_name_byte;
use ylexemes::kind::Kind;
use ysyntax::recogniser::State;

/// The kinds of lexemes that the syntax knows, as a person reads them, in the order in which they
/// are listed.
static KINDS: [(Kind, &str); 19] = [
    (Kind::Mark, "%%"),
    (Kind::CIdentifier, "a name with a colon"),
    (Kind::Name, "a name"),
    (Kind::Literal, "a literal"),
    (Kind::Number, "a number"),
    (Kind::Braced, "a text in braces"),
    (Kind::Prec, "%prec"),
    (Kind::Bar, "|"),
    (Kind::Semicolon, ";"),
    (Kind::Less, "<"),
    (Kind::Greater, ">"),
    (Kind::Token, "%token"),
    (Kind::Left, "%left"),
    (Kind::Right, "%right"),
    (Kind::Nonassoc, "%nonassoc"),
    (Kind::Types, "%type"),
    (Kind::Start, "%start"),
    (Kind::Union, "%union"),
    (Kind::Code, "%{"),
];

/// What can come in a state of the syntax, with commas between.
#[derive(Clone, Copy)]
pub struct Coming(pub State);

impl fmt::Display for Coming {
    fn fmt<W: fmt::Write>(&self, f: &mut fmt::Formatter<W>) -> fmt::Result {
        let mut is_first = true;
        for (kind, words) in &KINDS {
            if self.0.next(*kind).is_some() {
                if !is_first {
                    f.write_str(", ")?;
                }
                f.write_str(words)?;
                is_first = false;
            }
        }
        Ok(())
    }
}

/// The directive that is near to the word at the front of a text, where that begins as one.
pub fn near_directive(alloc: Global, text: &[u8]) -> Made<Option<&[u8]>> {
    let Some(after) = text.strip_prefix(b"%") else {
        return Ok(None);
    };
    let letters = after.iter().take_while(|byte| is_name_byte(**byte)).count();
    let word = text.get(..letters.saturating_add(1)).unwrap_or(text);
    let mut search = Search::new(word);
    for (_, words) in &KINDS {
        if words.starts_with('%') && words.len() > 2 {
            search.offer(alloc, words.as_bytes())?;
        }
    }
    Ok(search.found)
}
