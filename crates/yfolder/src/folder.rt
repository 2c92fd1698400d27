//! Files by their paths, as a contract can speak of them.

ghost use Rattle.std.specs.Prelude.{◌≡◌, ◌≢◌, ℕ, Bool, true, false, List, IfOk, IfErr, OnErr};
ghost use Rattle.std.specs.IoError.{error_kind};
ghost use Rattle.ylink.specs.Link.{has_failed};
ghost use Rattle.ylink.specs.declared.link.Link.{Link};
ghost use Rattle.yfolder.specs.Folder.{front};

use std::alloc::Global;
use std::io::{self, ErrorKind, Write};
use ylink::Link;

/// A folder, whose files are read and written by their paths.
///
/// A call that is done leads from one folder to the next: so a contract that names the folder
/// before and after its calls says which files were read and written, in which order, and that no
/// other was.
pub trait Folder {
    /// A file that is being written.
    type File: Write + Drop;

    /// From the first folder, the file at this path was opened and read to its end or to a limit,
    /// and these are all of its bytes; that led to the second folder.
    ghost reads: { Self → List ℕ → List ℕ → Self → Type 0 };

    /// The file at this path may refuse to be opened or read.
    ghost unreadable: { Self → List ℕ → Type 0 };

    /// From the first folder, this file was opened at this path to be written from its beginning;
    /// that led to the second folder.
    ghost opens: { Self → List ℕ → Self.File → Self → Type 0 };

    /// A file at this path may refuse to be opened to be written.
    ghost unwritable: { Self → List ℕ → Type 0 };

    /// From the first folder, the link's file was flushed and closed with what it has taken, and
    /// this is the answer: whether no call of it failed. That led to the second folder.
    ghost closes: { Self → Link Self.File → Bool → Self → Type 0 };

    /// The first bytes of the file at this path: all, or at most so many where there is a limit.
    ///
    /// An error is one of the file, or memory ran out; the folder is then as it was.
    fn read(&mut self, alloc: Global, path: &str, most: Option<usize>) -> io::Result<Vec<u8>>
        ensures bytes { IfOk result (λ bytes. (all : List ℕ)
            × reads self.old path.now all self.new × (bytes.items ≡ front most all)) }
        ensures refused { IfErr result (λ error.
            error_kind error ≢ ErrorKind.OutOfMemory → unreadable self.old path.now) }
        ensures stays { OnErr result (self.new ≡ self.old) };

    /// Opens the file at this path to be written from its beginning.
    ///
    /// An error is one of the file, or memory ran out; the folder is then as it was.
    fn open(&mut self, path: &str) -> io::Result<Self::File>
        ensures file { IfOk result (λ file. opens self.old path.now file self.new) }
        ensures refused { IfErr result (λ error.
            error_kind error ≢ ErrorKind.OutOfMemory → unwritable self.old path.now) }
        ensures stays { OnErr result (self.new ≡ self.old) };

    /// Flushes a file and closes it: whether no call of it failed. Where one has failed before, the
    /// file isn't flushed, only closed.
    fn close(&mut self, link: Link<Self::File>) -> bool
        ensures closed { closes self.old link result self.new }
        ensures failed { has_failed link ≡ true → result ≡ false };
}
