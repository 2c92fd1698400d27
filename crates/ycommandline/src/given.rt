//! What a run is given.

use std::io::{self, Read};
use std::rt::Files;
use ydebugger::Setting;
use ydiagnostics::checking::bytes_of;
use yfiles::reading::Limited;
use yinput::fault::Fault;
use yinput::language::{Input, Language};

/// What a run is given beside its words and what it writes to.
#[derive(Drop)]
pub struct Given<'a, F, R, E> {
    /// What opens files.
    pub rt: &'a F,
    /// Standard input.
    pub input: R,
    /// Where faults are written.
    pub errors: E,
    /// Where a session takes place.
    pub setting: Setting,
}

impl<F: Files + AllocGlobal, R: Read, E> Given<'_, F, R, E> {
    /// The tokens of an input, of a file or where its path is a dash of standard input, or why it
    /// has none.
    pub fn read_input(
        &mut self,
        language: &Language,
        file: Limited<'_>,
    ) -> io::Result<Result<Input, Fault>> {
        let bytes = bytes_of(self.rt, &mut self.input, file);
        language.input_of(self.rt.alloc(), file, bytes)
    }
}
