//! A writer through a buffer that offers its device nothing twice, and whose memory is there before
//! the device is.

ghost use Rattle.std.specs.Prelude.{◌≡◌, ◌↔◌, [], true, drop, IfOk, IsTrue, if◌then◌else◌};
ghost use Rattle.std.specs.Io.KnownBytes.{Keeps};
ghost use Rattle.ylink.specs.Buffered.{Drains, behind, held_by, kept_in, written};
ghost use Rattle.ylink.specs.Link.{device_of, has_failed};

use crate::link::Link;
use crate::put::put;
use std::alloc::{AllocError, Global};
use std::io::{self, ErrorKind, Write};

/// How many bytes a buffer gathers before its device is asked to take them.
const CHUNK: usize = 65_536;

/// The memory of a buffer.
#[derive(Drop)]
pub struct Buffer {
    bytes: Vec<u8>,
}

impl Buffer {
    /// An empty buffer. It fails only when memory runs out.
    pub fn new(alloc: Global) -> Result<Buffer, AllocError>
        ensures { IfOk result (λ it. kept_in it ≡ []) }
    {
        let bytes = Vec::with_capacity(alloc, CHUNK)?;
        Ok(Buffer { bytes })
    }
}

/// A writer through a buffer. Once a call of it failed, the bytes that its device has not taken
/// aren't offered to the device again when the writer is dropped.
pub struct Buffered<W: Write + Drop> {
    link: Link<W>,
    bytes: Vec<u8>,
    sent: usize,
}

impl<W: Write + Drop> Buffered<W> {
    /// This buffer, emptied, in front of a device.
    pub fn over(buffer: Buffer, device: W) -> Self
        ensures device { behind result ≡ device }
        ensures empty { held_by result ≡ [] }
    {
        let Buffer { mut bytes } = buffer;
        bytes.clear();
        Buffered {
            link: Link::new(device),
            bytes,
            sent: 0,
        }
    }

    /// Offers the device what the buffer holds: whether it took all, so that the buffer is empty.
    fn pass_on(&mut self) -> bool
        ensures bytes { Keeps (written W.contents self.old) (written W.contents self.new) }
        ensures empty { IsTrue result → self.new.bytes.items ≡ [] }
        ensures start { IsTrue result → self.new.sent ≡ 0 }
    {
        while self.sent < self.bytes.len() {
            match self.link.write(&self.bytes[self.sent..]) {
                Some(taken) => self.sent += taken,
                None => return false,
            }
        }
        self.bytes.clear();
        self.sent = 0;
        true
    }

    /// The link to the device, to which what the buffer holds is passed on, unless a call of it has
    /// failed.
    fn into_link(self) -> Link<W>
        ensures { Drains W.contents self (device_of result) (has_failed result) }
    {
        let Buffered {
            mut link,
            bytes,
            sent,
        } = self;
        if !link.failed() && sent < bytes.len() {
            let _ = put(&mut link, &bytes[sent..]);
        }
        link
    }
}

impl<W: Write + Drop> Write for Buffered<W> {
    ghost contents = { λ it. written W.contents it };

    fn write(&mut self, buf: &[u8]) -> io::Result<usize> {
        let is_full = self.sent > 0 || self.bytes.len() >= CHUNK;
        if is_full && !self.pass_on() {
            return Err(io::Error::from(ErrorKind::Other));
        }
        let taken = buf.len().min(CHUNK.saturating_sub(self.bytes.len()));
        self.bytes.extend_from_slice(&buf[..taken])?;
        Ok(taken)
    }

    fn flush(&mut self) -> io::Result<()> {
        if self.pass_on() && self.link.flush() {
            Ok(())
        } else {
            Err(io::Error::from(ErrorKind::Other))
        }
    }
}

impl<W: Write + Drop> Drop for Buffered<W> {
    fn drop(self) {
        drop(self.into_link());
    }
}

impl<W: Write + Drop> Link<Buffered<W>> {
    /// The link to the device below: what the buffer holds is passed on, unless a call has failed
    /// since the flag was cleared. The flag says whether one of these calls failed, or one before.
    /// The device isn't flushed.
    pub fn finish(self) -> Link<W>
        ensures bytes { Drains W.contents (device_of self) (device_of result) (has_failed result) }
        ensures failed { has_failed self ≡ true → has_failed result ≡ true }
    {
        let fails = self.failed();
        let mut link = self.into_inner().into_link();
        link.fail_where(fails);
        link
    }
}
