//! The files of the file system.

ghost use Rattle.std.specs.Prelude.{◌≡◌, ◌≤◌, ℕ, true, false, List, IfOk, IfSome, ⊤, length, take};
ghost use Rattle.ylink.specs.Link.{has_failed};
ghost use Rattle.yfolder.specs.Disk.{disk_over};
ghost use Rattle.yfolder.specs.Folder.{front};

use crate::folder::Folder;
use std::alloc::Global;
use std::fs;
use std::io::{self, Read};
use std::rt::Files;
use ylink::Link;

/// All bytes of a reader.
fn all_bytes<R: Read + Drop>(alloc: Global, mut reader: R) -> io::Result<Vec<u8>>
    ensures { IfOk result (λ bytes. IfSome (R.remaining reader) (λ known. bytes.items ≡ known)) }
{
    let mut bytes = Vec::new(alloc);
    reader.read_to_end(&mut bytes)?;
    Ok(bytes)
}

/// The first bytes of a reader, at most so many.
fn bytes_up_to<R: Read + Drop>(alloc: Global, reader: R, most: usize) -> io::Result<Vec<u8>>
    ensures { IfOk result (λ bytes. (length bytes.items ≤ most)
        × IfSome (R.remaining reader) (λ known. bytes.items ≡ take most known)) }
{
    let mut bytes = Vec::new(alloc);
    reader.take(most as u64).read_to_end(&mut bytes)?;
    bytes.truncate(most);
    Ok(bytes)
}

/// The first bytes of a reader: all, or at most so many where there is a limit.
fn first_bytes<R: Read + Drop>(alloc: Global, reader: R, most: Option<usize>) -> io::Result<Vec<u8>>
    ensures { IfOk result (λ bytes. (all : List ℕ)
        × IfSome (R.remaining reader) (λ known. all ≡ known) × (bytes.items ≡ front most all)) }
{
    match most {
        None => all_bytes(alloc, reader),
        Some(most) => bytes_up_to(alloc, reader, most),
    }
}

/// The files of the file system, by paths as the system reads them.
///
/// No contract knows which file the system opens at a path, nor what it has.
#[derive(Clone, Copy)]
pub struct Disk<'a, F> {
    files: &'a F,
}

impl<'a, F> Disk<'a, F> {
    /// The files that this runtime reaches.
    pub fn new(files: &'a F) -> Self
        ensures { result ≡ disk_over files.entry }
    {
        Disk { files }
    }
}

impl<'a, F: Files> Folder for Disk<'a, F> {
    type File = F::File;

    ghost reads = { λ before path all after. (reader : F.File)
        × IfSome (F.File.remaining reader) (λ known. all ≡ known) × (after ≡ before) };

    ghost unreadable = { λ _ _. ⊤ };

    ghost opens = { λ before path file after. after ≡ before };

    ghost unwritable = { λ _ _. ⊤ };

    ghost closes = { λ before link done after. after ≡ before };

    fn read(&mut self, alloc: Global, path: &str, most: Option<usize>) -> io::Result<Vec<u8>> {
        first_bytes(alloc, Link::new(fs::open(self.files, path)?), most)
    }

    fn open(&mut self, path: &str) -> io::Result<F::File> {
        fs::create(self.files, path)
    }

    fn close(&mut self, mut link: Link<F::File>) -> bool
        ensures stays { self.new ≡ self.old }
        ensures failed { has_failed link ≡ true → result ≡ false }
    {
        !link.failed() && link.flush()
    }
}
