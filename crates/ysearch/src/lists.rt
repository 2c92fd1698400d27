//! Lists by number.

use std::alloc::Global;
use yexplain::reads::Made;

/// Lists by number.
#[derive(Drop)]
pub struct Lists<T: Copy> {
    lists: Vec<Vec<T>>,
}

impl<T: Copy> Lists<T> {
    /// So many lists, all empty.
    pub fn new(alloc: Global, count: usize) -> Made<Lists<T>> {
        let mut lists = Vec::with_capacity(alloc, count)?;
        for _ in 0..count {
            lists.push(Vec::new(alloc))?;
        }
        Ok(Lists { lists })
    }

    /// Adds an entry to the list of a number, where the number has one.
    pub fn push(&mut self, number: usize, entry: T) -> Made<()> {
        if let Some(list) = self.lists.get_mut(number) {
            list.push(entry)?;
        }
        Ok(())
    }

    /// The list of a number; empty where the number has no list.
    pub fn of(&self, number: usize) -> &[T] {
        self.lists.get(number).map_or(&[], |list| list.as_slice())
    }
}
