//! A link: a reader or a writer, and whether a call of it failed.

ghost use Rattle.std.specs.Prelude.{◌≡◌, ◌||◌, true, false, is_ok, is_some, if◌then◌else◌};
ghost use Rattle.std.specs.Io.{ReadsAtMost};
ghost use Rattle.std.specs.Io.KnownBytes.{Keeps, ReadConsumes};
ghost use Rattle.ylink.specs.Link.{device_of, has_failed, LinkReads, LinkWrites};

use std::io::{self, Read, Write};

/// A reader or a writer, and whether a call of it failed since the flag was cleared.
///
/// Every byte that a program reads or writes through it goes through `read`, `write` and `flush`,
/// one call of the device each. Nothing else sets the flag.
#[derive(Drop)]
pub struct Link<D> {
    device: D,
    failed: bool,
}

impl<D> Link<D> {
    /// A link to this device, of which no call has failed.
    pub fn new(device: D) -> Self
        ensures device { device_of result ≡ device }
        ensures failed { has_failed result ≡ false }
    {
        Link {
            device,
            failed: false,
        }
    }

    /// Takes the device out; whether it failed is lost.
    pub fn into_inner(self) -> D
        ensures { result ≡ device_of self }
    {
        let Link { device, failed: _ } = self;
        device
    }

    /// Whether a call failed since the flag was cleared.
    pub fn failed(&self) -> bool
        ensures { result ≡ has_failed self.now }
    {
        let Link { device: _, failed } = self;
        *failed
    }

    /// Sets the flag where a call has failed elsewhere.
    pub(crate) fn fail_where(&mut self, fails: bool)
        ensures device { device_of self.new ≡ device_of self.old }
        ensures failed { has_failed self.new ≡ (fails || has_failed self.old) }
    {
        self.failed = fails || self.failed;
    }

    /// Clears the flag: no call has failed from here on.
    pub fn clear(&mut self)
        ensures device { device_of self.new ≡ device_of self.old }
        ensures failed { has_failed self.new ≡ false }
    {
        self.failed = false;
    }
}

impl<R: Read> Link<R> {
    /// One read of the device: how many bytes it gave. That is 0 only at its end, or where `buf`
    /// is empty. `None` where the device refuses.
    pub fn read(&mut self, buf: &mut [u8]) -> Option<usize>
        ensures bytes { LinkReads (R.remaining (device_of self.old)) (R.remaining
            (device_of self.new)) result buf.new }
        ensures failed { has_failed self.new ≡
            (if is_some result then has_failed self.old else true) }
    {
        match self.device.read(buf) {
            Ok(n) => Some(n),
            Err(_) => {
                self.failed = true;
                None
            }
        }
    }
}

/// A link to a reader is a reader itself, one that passes on why a call was refused.
impl<R: Read> Read for Link<R> {
    ghost remaining = { λ link. R.remaining (device_of link) };

    /// One read of the device, which sets the flag where it refuses.
    fn read(&mut self, buf: &mut [u8]) -> io::Result<usize>
        ensures bound { ReadsAtMost result buf.new }
        ensures bytes { ReadConsumes (R.remaining (device_of self.old))
            (R.remaining (device_of self.new)) result buf.new }
        ensures failed { has_failed self.new ≡
            (if is_ok result then has_failed self.old else true) }
    {
        match self.device.read(buf) {
            Ok(n) => Ok(n),
            Err(error) => {
                self.failed = true;
                Err(error)
            }
        }
    }
}

impl<W: Write> Link<W> {
    /// One write of the device: how many bytes it took. `None` where the device refuses, or where
    /// it takes none of some bytes.
    pub fn write(&mut self, bytes: &[u8]) -> Option<usize>
        ensures bytes { LinkWrites (W.contents (device_of self.old)) (W.contents
            (device_of self.new)) result bytes.now }
        ensures failed { has_failed self.new ≡
            (if is_some result then has_failed self.old else true) }
    {
        match self.device.write(bytes) {
            Ok(n) if n > 0 || bytes.is_empty() => Some(n),
            _ => {
                self.failed = true;
                None
            }
        }
    }

    /// One flush of the device: `false` where it refuses.
    pub fn flush(&mut self) -> bool
        ensures bytes { Keeps (W.contents (device_of self.old)) (W.contents (device_of self.new)) }
        ensures failed { has_failed self.new ≡ (if result then has_failed self.old else true) }
    {
        match self.device.flush() {
            Ok(()) => true,
            Err(_) => {
                self.failed = true;
                false
            }
        }
    }
}
