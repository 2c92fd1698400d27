//! Files in memory, in place of a file system.

use std::alloc::{Allocator, Global};
use std::fs::{Metadata, OpenFile, OpenOptions};
use std::io::{self, Cursor, Empty, ErrorKind, Read, Seek, SeekFrom, Write};
use std::rt::Files;

/// A file: its name, and what is in it.
#[derive(Clone, Copy)]
pub struct File<'a> {
    /// Its name.
    pub name: &'a [u8],
    /// What is in it.
    pub bytes: &'a [u8],
}

/// What has these files, which are read and never written.
#[derive(Clone, Copy)]
pub struct Shelf<'s, 'a> {
    /// What gives memory.
    pub alloc: Global,
    /// The files.
    pub files: &'s [File<'a>],
}

/// A file that is open.
#[derive(Drop)]
pub struct Open<'a> {
    bytes: &'a [u8],
    cursor: Cursor<&'a [u8]>,
}

/// An error of a kind.
fn refused<T>(kind: ErrorKind) -> io::Result<T> {
    Err(io::Error::from(kind))
}

/// What comes of whatever would write.
fn unwritten<T>() -> io::Result<T> {
    refused(ErrorKind::ReadOnlyFilesystem)
}

impl<'s, 'a> Shelf<'s, 'a> {
    /// The file of a name.
    fn file(self, path: &str) -> Option<File<'a>> {
        for file in self.files {
            if file.name == path.as_bytes() {
                return Some(*file);
            }
        }
        None
    }

    /// Whether the names of files stand below a path, as in a folder.
    fn is_folder(self, path: &str) -> bool {
        let path = path.trim_end_matches('/').as_bytes();
        self.files.iter().any(|file| {
            let rest = file.name.strip_prefix(path).unwrap_or(&[]);
            rest.first() == Some(&b'/')
        })
    }

    /// What is known of a path.
    fn known(self, path: &str) -> io::Result<Metadata> {
        match self.file(path) {
            Some(file) => Ok(Metadata::of_file(file.bytes.len() as u64)),
            None if self.is_folder(path) => Ok(Metadata::of_dir()),
            None => refused(ErrorKind::NotFound),
        }
    }
}

impl<'a> Read for Open<'a> {
    fn read(&mut self, buf: &mut [u8]) -> io::Result<usize> {
        self.cursor.read(buf)
    }
}

impl<'a> Write for Open<'a> {
    fn write(&mut self, _buf: &[u8]) -> io::Result<usize> {
        Err(io::Error::from(ErrorKind::ReadOnlyFilesystem))
    }

    fn flush(&mut self) -> io::Result<()> {
        Ok(())
    }
}

impl<'a> Seek for Open<'a> {
    fn seek(&mut self, to: SeekFrom) -> io::Result<u64> {
        self.cursor.seek(to)
    }
}

impl<'a> OpenFile for Open<'a> {
    fn metadata(&self) -> io::Result<Metadata> {
        Ok(Metadata::of_file(self.bytes.len() as u64))
    }

    fn set_len(&self, _size: u64) -> io::Result<()> {
        unwritten()
    }

    fn sync_all(&self) -> io::Result<()> {
        Ok(())
    }

    fn sync_data(&self) -> io::Result<()> {
        Ok(())
    }
}

impl<'s, 'a> Alloc for Shelf<'s, 'a> {
    type A = Global;

    fn alloc(&self) -> Global {
        self.alloc
    }
}

impl<'s, 'a> Files for Shelf<'s, 'a> {
    type File = Open<'a>;

    type Dir = Empty;

    fn open_file(&self, how: &OpenOptions, path: &str) -> io::Result<Open<'a>> {
        how.check()?;
        let is_made = how.asks_create() || how.asks_create_new();
        if is_made || how.asks_write() || how.asks_append() {
            return unwritten();
        }
        match self.file(path) {
            Some(file) => Ok(Open {
                bytes: file.bytes,
                cursor: Cursor::new(file.bytes),
            }),
            None if self.is_folder(path) => refused(ErrorKind::IsADirectory),
            None => refused(ErrorKind::NotFound),
        }
    }

    fn open_dir(&self, path: &str) -> io::Result<Empty> {
        let known = self.known(path)?;
        refused(if known.is_dir() {
            ErrorKind::PermissionDenied
        } else {
            ErrorKind::NotADirectory
        })
    }

    fn metadata(&self, path: &str) -> io::Result<Metadata> {
        self.known(path)
    }

    fn symlink_metadata(&self, path: &str) -> io::Result<Metadata> {
        self.known(path)
    }

    fn create_dir(&self, _path: &str) -> io::Result<()> {
        unwritten()
    }

    fn copy(&self, _from: &str, _to: &str) -> io::Result<u64> {
        unwritten()
    }

    fn remove_file(&self, _path: &str) -> io::Result<()> {
        unwritten()
    }

    fn rename(&self, _from: &str, _to: &str) -> io::Result<()> {
        unwritten()
    }

    fn remove_dir_all<A: Allocator>(&self, _alloc: A, _path: &str) -> io::Result<()> {
        unwritten()
    }

    fn remove_dir(&self, _path: &str) -> io::Result<()> {
        unwritten()
    }
}
