//! A list of accepted conflicts, read.

use crate::conflict::{Conflict, Conflicts};
use std::alloc::{AllocError, Global};
use std::mem;
use yexplain::lines::Spot;
use ysymbols::let_go;
use ysymbols::names::{SymbolTable, intern, number_in};

/// The line with which a list begins.
pub const FIRST: &[u8] = b"conflicts 1";

/// What stands before the token of a conflict.
pub const FRONT: &[u8] = b"conflict on ";

/// What is wrong with a line of a list.
#[derive(Clone, Copy, Drop)]
pub enum Why {
    /// The list doesn't begin here.
    NoFirst,
    /// It is no line of a list.
    Unknown,
    /// An item stands here, and no conflict before it.
    Loose,
    /// What stands here is no item.
    NoItem,
    /// A conflict begins here, and has one item or none.
    Short,
    /// A conflict stands here that stood on this line.
    Twice(usize),
}

/// Why a list isn't read: a line of it, counted from 1, and what is wrong there.
#[derive(Clone, Copy, Drop)]
pub enum Trouble {
    /// The line is wrong.
    Wrong(usize, Why),
    /// Memory ran out.
    Memory,
}

impl From<AllocError> for Trouble {
    fn from(_refused: AllocError) -> Trouble {
        Trouble::Memory
    }
}

/// What is read of a list.
#[derive(Clone, Copy, Drop, PartialEq, Eq)]
enum Stage {
    /// Nothing but comments.
    Front,
    /// No conflict, or all of one.
    Between,
    /// The token of a conflict, on this line.
    Token(usize),
    /// The token and the item that is taken.
    Taken(usize),
    /// All of a conflict, to which more rules may come.
    Others,
}

/// A list of accepted conflicts.
pub struct List {
    /// The conflicts.
    pub accepted: Conflicts,
    /// The comments before the first line, each with its newline.
    pub head: Vec<u8>,
    /// The comments after the last conflict.
    pub tail: Vec<u8>,
    /// What the conflicts begin with that have comments, and these.
    fronts: SymbolTable,
    comments: Vec<Vec<u8>>,
}

impl Drop for List {
    // A call in each owner, which keeps their proofs short.
    fn drop(self) {
        let_go!(self: List { accepted, head, tail, fronts, comments });
    }
}

impl List {
    /// A list without a conflict.
    pub fn new(alloc: Global) -> List {
        List {
            accepted: Conflicts::new(alloc),
            head: Vec::new(alloc),
            tail: Vec::new(alloc),
            fronts: SymbolTable::new(alloc),
            comments: Vec::new(alloc),
        }
    }

    /// The comments before the conflicts that begin so.
    pub fn comment(&self, front: &[u8]) -> &[u8] {
        let number = number_in(&self.fronts, front);
        self.comments.get(number).map_or(&[][..], Vec::as_slice)
    }
}

/// A list that is being read.
#[derive(Drop)]
struct Reader {
    alloc: Global,
    list: List,
    /// The comments that belong to what comes.
    comment: Vec<u8>,
    token: Vec<u8>,
    taken: Vec<u8>,
    stage: Stage,
}

impl Reader {
    /// Gives the comments to the conflict whose items are read.
    fn keep_comment(&mut self) -> Result<(), Trouble> {
        let comment = mem::replace(&mut self.comment, Vec::new(self.alloc));
        if comment.is_empty() {
            return Ok(());
        }
        let mut front = Vec::from_slice(self.alloc, &self.token)?;
        front.push(b'\n').map_err(AllocError::from)?;
        front.extend_from_slice(&self.taken)?;
        let number = number_in(&self.list.fronts, &front);
        if let Some(comments) = self.list.comments.get_mut(number) {
            comments.extend_from_slice(&comment)?;
            return Ok(());
        }
        intern(self.alloc, &mut self.list.fronts, &front)?;
        let pushed = self.list.comments.push(comment);
        pushed.map_err(AllocError::from)?;
        Ok(())
    }

    /// Ends a conflict, where one is begun.
    fn end_conflict(&mut self) -> Result<(), Trouble> {
        match self.stage {
            Stage::Token(begun) | Stage::Taken(begun) => Err(Trouble::Wrong(begun, Why::Short)),
            Stage::Others => {
                self.stage = Stage::Between;
                Ok(())
            }
            Stage::Front | Stage::Between => Ok(()),
        }
    }

    /// Takes a line with which a conflict begins.
    fn take_token(&mut self, number: usize, line: &[u8]) -> Result<(), Trouble> {
        self.end_conflict()?;
        match line.strip_prefix(FRONT) {
            Some(token) if !token.is_empty() => {
                self.token = Vec::from_slice(self.alloc, token)?;
                self.stage = Stage::Token(number);
                Ok(())
            }
            _ => Err(Trouble::Wrong(number, Why::Unknown)),
        }
    }

    /// Takes a rule beside what is taken.
    fn take_other(&mut self, number: usize, item: &[u8]) -> Result<(), Trouble> {
        let conflict = Conflict {
            spot: Spot {
                line: number,
                column: None,
            },
            token: Vec::from_slice(self.alloc, &self.token)?,
            taken: Vec::from_slice(self.alloc, &self.taken)?,
            other: Vec::from_slice(self.alloc, item)?,
            category: None,
        };
        if let Some(before) = self.list.accepted.line_of(self.alloc, &conflict)? {
            return Err(Trouble::Wrong(number, Why::Twice(before)));
        }
        self.list.accepted.add(self.alloc, conflict)?;
        self.stage = Stage::Others;
        Ok(())
    }

    /// Takes an item: it has a left side with a colon, and a dot.
    fn take_item(&mut self, number: usize, item: &[u8]) -> Result<(), Trouble> {
        let mut words = item.split(|byte| *byte == b' ');
        let has_left = match words.next() {
            Some(word) => word.len() > 1 && word.ends_with(b":"),
            None => false,
        };
        if !has_left || !words.any(|word| word == b".".as_slice()) {
            return Err(Trouble::Wrong(number, Why::NoItem));
        }
        match self.stage {
            Stage::Front | Stage::Between => Err(Trouble::Wrong(number, Why::Loose)),
            Stage::Token(begun) => {
                self.taken = Vec::from_slice(self.alloc, item)?;
                self.stage = Stage::Taken(begun);
                self.keep_comment()
            }
            Stage::Taken(_) | Stage::Others => self.take_other(number, item),
        }
    }

    /// Takes a line.
    fn take(&mut self, number: usize, line: &[u8]) -> Result<(), Trouble> {
        let line = line.trim_ascii_end();
        let item = line.trim_ascii_start();
        if line.is_empty() {
            self.end_conflict()
        } else if line.starts_with(b"##") {
            Ok(())
        } else if line.starts_with(b"#") {
            self.comment.extend_from_slice(line)?;
            self.comment.push(b'\n').map_err(AllocError::from)?;
            match self.stage {
                Stage::Taken(_) | Stage::Others => self.keep_comment(),
                _ => Ok(()),
            }
        } else if self.stage == Stage::Front {
            if line != FIRST {
                return Err(Trouble::Wrong(number, Why::NoFirst));
            }
            self.list.head = mem::replace(&mut self.comment, Vec::new(self.alloc));
            self.stage = Stage::Between;
            Ok(())
        } else if item.len() < line.len() {
            self.take_item(number, item)
        } else {
            self.take_token(number, line)
        }
    }
}

/// The list that is a file of these bytes, or the first line that is wrong.
pub fn list_of(alloc: Global, source: &[u8]) -> Result<List, Trouble> {
    let mut reader = Reader {
        alloc,
        list: List::new(alloc),
        comment: Vec::new(alloc),
        token: Vec::new(alloc),
        taken: Vec::new(alloc),
        stage: Stage::Front,
    };
    let mut number: usize = 0;
    for line in source.split(|byte| *byte == b'\n') {
        number = number.saturating_add(1);
        reader.take(number, line)?;
    }
    reader.end_conflict()?;
    if reader.stage == Stage::Front {
        return Err(Trouble::Wrong(number, Why::NoFirst));
    }
    let Reader { list, comment, .. } = reader;
    let mut list = list;
    list.tail = comment;
    Ok(list)
}
