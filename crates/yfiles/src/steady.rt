//! A writer whose failure doesn't end the work.

use std::io::{self, ErrorKind, Write};

/// A writer that remembers its first failure, which `finish` tells. Where it is steady, it takes
/// what comes after that and writes nothing of it, so that the work goes on.
#[derive(Drop)]
pub struct Steady<W> {
    out: W,
    is_steady: bool,
    failed: Option<ErrorKind>,
}

impl<W> Steady<W> {
    /// A writer that is steady, or hands on each failure.
    pub fn new(out: W, is_steady: bool) -> Steady<W> {
        Steady {
            out,
            is_steady,
            failed: None,
        }
    }

    /// Says whether all was written.
    pub fn finish(&self) -> io::Result<()> {
        match self.failed {
            Some(kind) => Err(io::Error::from(kind)),
            None => Ok(()),
        }
    }

    /// Remembers a failure of the writer; where it isn't steady, or could be asked again, it is
    /// handed on.
    fn outlast(&mut self, error: io::Error) -> io::Result<()> {
        if !self.is_steady || error.kind() == ErrorKind::Interrupted {
            return Err(error);
        }
        self.failed = Some(error.kind());
        Ok(())
    }
}

impl<W: Write> Write for Steady<W> {
    fn write(&mut self, buf: &[u8]) -> io::Result<usize> {
        if self.failed.is_some() {
            return Ok(buf.len());
        }
        match self.out.write(buf) {
            Ok(0) if !buf.is_empty() => {
                self.outlast(io::Error::from(ErrorKind::WriteZero))?;
                Ok(buf.len())
            }
            Ok(count) => Ok(count),
            Err(error) => {
                self.outlast(error)?;
                Ok(buf.len())
            }
        }
    }

    fn flush(&mut self) -> io::Result<()> {
        if self.failed.is_some() {
            return Ok(());
        }
        match self.out.flush() {
            Ok(()) => Ok(()),
            Err(error) => self.outlast(error),
        }
    }
}
