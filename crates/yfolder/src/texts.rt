//! Two texts in memory as a folder: a session over them reads no file, and none of them can refuse.

ghost use Rattle.std.specs.Prelude.{◌≡◌, ◌≢◌, ⊤, true, false, List, ℕ, IfErr, IfOk, IfSome, IfNone};
ghost use Rattle.std.specs.IoError.{error_kind};
ghost use Rattle.ylink.specs.Link.{has_failed};
ghost use Rattle.yfolder.specs.Folder.{front};
ghost use Rattle.yfolder.specs.Texts.{Has, HasNone};

use crate::folder::Folder;
use std::alloc::Global;
use std::io::{self, ErrorKind};
use ylink::Link;

/// A text with a path.
#[derive(Clone, Copy)]
pub struct Text<'a> {
    path: &'a str,
    bytes: &'a [u8],
}

impl<'a> Text<'a> {
    /// These bytes, by this path.
    pub fn new(path: &'a str, bytes: &'a [u8]) -> Self
        ensures path { result.path ≡ path.entry }
        ensures bytes { result.bytes ≡ bytes.entry }
    {
        Text { path, bytes }
    }
}

/// Two texts, of which the first comes first where both have one path.
#[derive(Clone, Copy)]
pub struct Texts<'a> {
    one: Text<'a>,
    other: Text<'a>,
}

impl<'a> Texts<'a> {
    /// These two.
    pub fn new(one: Text<'a>, other: Text<'a>) -> Self
        ensures one { result.one ≡ one.entry }
        ensures other { result.other ≡ other.entry }
    {
        Texts { one, other }
    }
}

/// The first bytes, at most so many, or all where there is no limit.
fn copy_of(alloc: Global, bytes: &[u8], most: Option<usize>) -> io::Result<Vec<u8>>
    ensures copy { IfOk result (λ copy. copy.items ≡ front most bytes.now) }
    ensures refused { IfErr result (λ error. error_kind error ≡ ErrorKind.OutOfMemory) }
{
    let front = match most {
        Some(most) => &bytes[..most.min(bytes.len())],
        None => bytes,
    };
    let mut copy = Vec::new(alloc);
    match copy.extend_from_slice(front) {
        Ok(()) => Ok(copy),
        Err(_) => Err(io::Error::from(ErrorKind::OutOfMemory)),
    }
}

impl<'a> Texts<'a> {
    /// The bytes of the text with this path.
    fn at(&self, path: &str) -> Option<&'a [u8]>
        ensures found { IfSome result (λ bytes. Has self.now.one self.now.other path.now bytes.now) }
        ensures missing { IfNone result (HasNone self.now.one self.now.other path.now) }
    {
        if path == self.one.path {
            Some(self.one.bytes)
        } else if path == self.other.path {
            Some(self.other.bytes)
        } else {
            None
        }
    }
}

/// A folder that has these two texts alone: each is read by its path, and nothing can be written.
impl<'a> Folder for Texts<'a> {
    type File = io::Sink;

    ghost reads = { λ before path all after. Has before.one before.other path all
        × (after ≡ before) };

    ghost unreadable = { λ it path. HasNone it.one it.other path };

    ghost opens = { λ before path file after. ⊥ };

    ghost unwritable = { λ _ _. ⊤ };

    ghost closes = { λ before link done after. after ≡ before };

    fn read(&mut self, alloc: Global, path: &str, most: Option<usize>) -> io::Result<Vec<u8>> {
        match self.at(path) {
            Some(bytes) => copy_of(alloc, bytes, most),
            None => Err(io::Error::from(ErrorKind::NotFound)),
        }
    }

    fn open(&mut self, _path: &str) -> io::Result<io::Sink> {
        Err(io::Error::from(ErrorKind::ReadOnlyFilesystem))
    }

    fn close(&mut self, mut link: Link<io::Sink>) -> bool
        ensures stays { self.new ≡ self.old }
        ensures failed { has_failed link ≡ true → result ≡ false }
    {
        !link.failed() && link.flush()
    }
}
