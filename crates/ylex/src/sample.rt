//! A short text for an expression, made of its tree: at each choice the first way is taken, or
//! another one where that is asked for. Whether the expression matches it is tried elsewhere.

use regex_class::Class;
use regex_hir::Hir;
use std::alloc::Global;
use yexplain::reads::Made;

/// The most parts of a tree that are gone through for one text.
const MOST_PARTS: usize = 1_000;

/// The members of classes that a text has rather than others, the first ones rather than the last.
const LIKED: &[u8] = b"abcdefghijklmnopqrstuvwxyzABCDEFGHIJKLMNOPQRSTUVWXYZ1234567890\
    _-+*/=<>.,:;!?%&|^~@$#()[]{}\"'`\\ \t";

/// Which ways are taken: the first one at each choice, but for those that are named here.
#[derive(Clone, Copy, Drop)]
pub struct Taste {
    /// The choice that takes another way, counted from 0 as they come; without it, every one.
    pub choice: Option<usize>,
    /// Which way it takes, counted from 0.
    pub way: usize,
}

/// A text that an expression may match.
#[derive(Drop)]
pub struct Sample {
    /// The text.
    pub text: Vec<u8>,
    /// How many choices there were.
    pub choices: usize,
}

/// A text on its way to be made.
#[derive(Drop)]
struct Making<'a> {
    taste: Taste,
    choices: usize,
    /// The parts of the tree that are to come, the next one last.
    parts: Vec<&'a Hir>,
    text: Vec<u8>,
}

impl<'a> Making<'a> {
    /// The way that the next choice takes.
    fn way(&mut self) -> usize {
        let number = self.choices;
        self.choices = number.saturating_add(1);
        match self.taste.choice {
            Some(choice) if choice != number => 0,
            _ => self.taste.way,
        }
    }

    /// The member of a class that the next choice takes: of those that are liked, or else its first
    /// one.
    fn member(&mut self, class: &Class) -> u32 {
        let (way, mut count) = (self.way(), 0_usize);
        let mut found = match class.ranges.first() {
            Some(range) => range.0,
            None => 0,
        };
        for byte in LIKED {
            let member = u32::from(*byte);
            if count <= way && class.contains(member) {
                found = member;
                count = count.saturating_add(1);
            }
        }
        found
    }

    /// Takes a part of the tree, or puts its own parts on those that are to come: a repeated one as
    /// often as it has to come, and more often by another way.
    fn take(&mut self, part: &'a Hir) -> Made<()> {
        match part {
            Hir::Empty | Hir::Look(_) => {}
            Hir::Literal(bytes) => self.text.extend_from_slice(bytes)?,
            Hir::Bytes(class) => {
                if let Ok(byte) = u8::try_from(self.member(class)) {
                    self.text.push(byte)?;
                }
            }
            Hir::Chars(class) => {
                if let Some(found) = char::from_u32(self.member(class)) {
                    let mut text = String::new(*self.text.allocator());
                    text.push(found)?;
                    self.text.extend_from_slice(text.as_bytes())?;
                }
            }
            Hir::Repetition { min, max, sub, .. } => {
                let count = (*min as usize).saturating_add(self.way());
                let most = max.map_or(count, |most| most as usize);
                for _ in 0..count.min(most).min(MOST_PARTS) {
                    self.parts.push(sub)?;
                }
            }
            Hir::Capture { sub, .. } => self.parts.push(sub)?,
            Hir::Concat(parts) => {
                for part in parts.iter().rev() {
                    self.parts.push(part)?;
                }
            }
            Hir::Alternation(parts) => {
                let way = self.way().checked_rem(parts.len()).unwrap_or(0);
                if let Some(part) = parts.get(way) {
                    self.parts.push(part)?;
                }
            }
        }
        Ok(())
    }
}

/// The text that a tree has by a taste; `None` where it has too many parts.
pub fn sample_of(alloc: Global, tree: &Hir, taste: Taste) -> Made<Option<Sample>> {
    let mut making = Making {
        taste,
        choices: 0,
        parts: Vec::new(alloc),
        text: Vec::new(alloc),
    };
    making.parts.push(tree)?;
    for _ in 0..MOST_PARTS {
        match making.parts.pop() {
            Some(part) => making.take(part)?,
            None => {
                let Making { text, choices, .. } = making;
                return Ok(Some(Sample { text, choices }));
            }
        }
    }
    Ok(None)
}
