//! `ydebug tokens`: the tokens of a text as a tokens file.

use crate::given::Given;
use std::io::{self, Read, Write};
use std::rt::Files;
use yexplain::lines::newlines;
use yexplain::reads::grammar_of;
use yexplain::text::Name;
use yfiles::reading::Limited;
use yinput::language::{Language, LanguageFiles};
use yinput::text::Text;
use ysymbols::{Grammar, Sym};

/// Writes the tokens of a text, each on the line that it has there.
fn put_tokens<W: Write>(
    out: &mut W,
    grammar: &Grammar,
    tokens: &[Sym],
    text: &Text,
) -> io::Result<()> {
    let mut before = 0;
    for (index, symbol) in tokens.iter().enumerate() {
        let Some(place) = text.places.get(index) else {
            break;
        };
        let between = text.bytes.get(before..*place).unwrap_or(&[]);
        if index > 0 || between.contains(&b'\n') {
            // a token stands on its line of the text
            let lines = newlines(between);
            if lines == 0 {
                out.write_all(b" ")?;
            }
            for _ in 0..lines {
                out.write_all(b"\n")?;
            }
        }
        let name = Name(grammar, *symbol);
        write!(out, "{name}")?;
        before = *place;
    }
    writeln!(out)
}

impl<F: Files + AllocGlobal, R: Read, E: Write> Given<'_, F, R, E> {
    /// Writes a tokens file of a text that a SPEC cuts, and gives the exit status: 1 where the
    /// grammar, the SPEC or the text is refused, 3 where one can't be read or memory runs out.
    pub fn run_tokens<W: Write>(
        &mut self,
        files: LanguageFiles<'_>,
        input: Limited<'_>,
        out: &mut W,
    ) -> io::Result<u8> {
        let language = match Language::open(self.rt, files, &mut self.errors)? {
            Ok(language) => language,
            Err(status) => return Ok(status),
        };
        let opened = &language.opened;
        match language.read(self.rt, input)? {
            Ok(input) => {
                if let Some(text) = &input.text {
                    put_tokens(out, grammar_of(&opened.tables), &input.tokens.symbols, text)?;
                }
                Ok(0)
            }
            Err(fault) => fault.put(self.rt, &mut self.errors, files.grammar, opened),
        }
    }
}
