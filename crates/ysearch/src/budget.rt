//! How many steps the searches of a run may take.

/// How many steps of one kind a run may still take, and how many of them one search may.
#[derive(Clone, Copy, Drop)]
pub struct Share {
    /// How many may still be taken.
    pub left: usize,
    /// A search may take one part in so many of these, so that others can follow,
    parts: usize,
    /// but so many in any case, and no more than so many.
    least: usize,
    most: usize,
}

impl Share {
    /// So many steps, of which a search may take one part in so many, but at least and at most so
    /// many.
    pub fn new(left: usize, parts: usize, (least, most): (usize, usize)) -> Share {
        Share {
            left,
            parts,
            least,
            most,
        }
    }

    /// How many steps a search may take that begins now.
    pub fn part(self) -> usize {
        let part = self.left.checked_div(self.parts).unwrap_or(0);
        part.min(self.most).max(self.least)
    }

    /// Takes steps from those that are left.
    pub fn spend(&mut self, steps: usize) {
        self.left = self.left.saturating_sub(steps);
    }
}
