//! `ydebug lex-spec`: a SPEC for a grammar.

use crate::given::Given;
use std::io::{self, Read, Write};
use std::rt::Files;
use yexplain::reads::grammar_of;
use yinput::grammars::{GrammarFile, open_with_text, used_in};
use ylex::sketch::Sketch;

impl<F: Files + AllocGlobal, R: Read, E: Write> Given<'_, F, R, E> {
    /// Writes a SPEC for a grammar file, and gives the exit status.
    pub fn run_sketch<W: Write>(&mut self, file: GrammarFile<'_>, out: &mut W) -> io::Result<u8> {
        let text = match open_with_text(self.rt, file, &mut self.errors)? {
            Ok(text) => text,
            Err(status) => return Ok(status),
        };
        let (path, grammar) = (file.path, grammar_of(&text.opened.tables));
        let used = used_in(self.rt.alloc(), grammar)?;
        writeln!(
            out,
            "# How the tokens of {path} look: a name, blanks, a regular expression."
        )?;
        let sketch = Sketch {
            grammar,
            used: &used,
            texts: &text.spelled.texts,
        };
        sketch.put(out)?;
        Ok(0)
    }
}
