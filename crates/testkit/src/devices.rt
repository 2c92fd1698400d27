//! A writer that takes little at a time, and fails where a test says; a device that counts.

use std::io::{self, ErrorKind, Read, Write};

/// How many bytes a writer holds.
const ROOM: usize = 8192;

/// What a writer does at the call that a test picks.
#[derive(Clone, Copy)]
pub enum Refusal {
    /// It fails at no call.
    Never,
    /// It refuses this call, a write or a flush, counted from 1.
    Refuses(usize),
    /// It takes no byte at this call, counted from 1.
    TakesNone(usize),
}

/// A writer over an array of 8,192 bytes: it takes so many bytes a call at most, and fails where
/// the test says.
#[derive(Drop)]
pub struct Sink {
    bytes: [u8; ROOM],
    len: usize,
    most: usize,
    refusal: Refusal,
    calls: usize,
}

impl Sink {
    /// An empty writer that takes at most so many bytes a call, with this refusal.
    pub fn new(most: usize, refusal: Refusal) -> Sink {
        Sink {
            bytes: [0; ROOM],
            len: 0,
            most,
            refusal,
            calls: 0,
        }
    }

    /// What was written so far.
    pub fn text(&self) -> &[u8] {
        self.bytes.get(..self.len).unwrap_or(&[])
    }
}

impl Write for Sink {
    fn write(&mut self, buf: &[u8]) -> io::Result<usize> {
        self.calls = self.calls.saturating_add(1);
        match self.refusal {
            Refusal::Refuses(call) if call == self.calls => return Err(io::Error::from(
                ErrorKind::Other,
            )),
            Refusal::TakesNone(call) if call == self.calls => return Ok(0),
            _ => {}
        }
        let start = self.len.min(ROOM);
        let n = buf.len().min(self.most).min(ROOM - start);
        self.bytes[start..start + n].copy_from_slice(&buf[..n]);
        self.len = start + n;
        Ok(n)
    }

    fn flush(&mut self) -> io::Result<()> {
        self.calls = self.calls.saturating_add(1);
        match self.refusal {
            Refusal::Refuses(call) if call == self.calls => Err(io::Error::from(ErrorKind::Other)),
            _ => Ok(()),
        }
    }
}

/// How often a device was asked to do what.
#[derive(Clone, Copy, Debug, Default, PartialEq, Eq)]
pub struct Calls {
    /// Reads.
    pub reads: usize,
    /// Writes.
    pub writes: usize,
    /// Flushes.
    pub flushes: usize,
}

/// A device that is always at its end, takes all bytes, and counts what is asked of it.
#[derive(Default, Drop)]
pub struct Counted {
    calls: Calls,
}

impl Counted {
    /// What was asked so far.
    pub fn calls(&self) -> Calls {
        self.calls
    }
}

impl Read for Counted {
    fn read(&mut self, _buf: &mut [u8]) -> io::Result<usize> {
        self.calls.reads = self.calls.reads.saturating_add(1);
        Ok(0)
    }
}

impl Write for Counted {
    fn write(&mut self, buf: &[u8]) -> io::Result<usize> {
        self.calls.writes = self.calls.writes.saturating_add(1);
        Ok(buf.len())
    }

    fn flush(&mut self) -> io::Result<()> {
        self.calls.flushes = self.calls.flushes.saturating_add(1);
        Ok(())
    }
}
