//! What is expected of an input that is to be rejected.

use std::io;
use std::rt::Files;
use yfiles::diagnostic::Diagnostics;
use yfiles::reading::Limited;

/// What is expected of an input: the bytes of a file whose first line is the place at which it is
/// rejected, and whose others are the message, where there are some.
#[derive(Drop)]
pub struct Expected {
    bytes: Vec<u8>,
}

impl Expected {
    /// What a file says. Where it can't be read, that is said, and the exit status is the answer.
    pub fn read<F: Files + AllocGlobal>(
        rt: &F,
        file: Limited<'_>,
        told: &mut Diagnostics,
    ) -> io::Result<Result<Expected, u8>> {
        match file.bytes_or_status(rt, true, told)? {
            Ok(bytes) => Ok(Ok(Expected { bytes })),
            Err(status) => Ok(Err(status)),
        }
    }

    /// How many bytes the first line has.
    fn first_line(&self) -> usize {
        let newline = self.bytes.iter().position(|b| *b == b'\n');
        newline.unwrap_or(self.bytes.len())
    }

    /// The place.
    pub fn place(&self) -> &[u8] {
        let line = self.bytes.get(..self.first_line());
        line.unwrap_or(&[]).trim_ascii()
    }

    /// The message; nothing where any may come.
    pub fn message(&self) -> &[u8] {
        let rest = self.bytes.get(self.first_line()..);
        rest.unwrap_or(&[]).trim_ascii()
    }
}
