//! What is misused in the code of a file: the values and places that it names.

use crate::references::{Piece, Whose, piece_at};
use crate::scene::{Misuse, Scene};
use crate::skeleton::Skeleton;
use std::alloc::Global;
use yexplain::reads::Made;
use ylexemes::bytes::is_name_byte;
use yparts::parts::{self, Named, Target};

/// A value or place that is misused.
#[derive(Clone, Copy)]
pub struct Misused<'a> {
    /// What is wrong.
    pub misuse: Misuse,
    /// As it stands in the code.
    pub text: &'a [u8],
    /// The name in it, with what follows after a dot or a dash unless it stands in brackets.
    pub name: &'a [u8],
    /// How many bytes of the file stand before it.
    pub at: usize,
    /// The names of its body.
    pub names: &'a [Named<'a>],
    /// The place of its action in the body, where that isn't the end.
    pub inner: Option<usize>,
}

/// A symbol of a body that a misused name could mean.
#[derive(Clone, Copy)]
pub struct Meant<'a> {
    /// What it is called.
    pub name: &'a [u8],
    /// The name of the symbol that brackets hide, where the misused name is this one.
    pub hidden: Option<&'a [u8]>,
    /// What follows in the misused name.
    pub tail: &'a [u8],
    /// Its place in the body; that of the left side is 0.
    pub place: usize,
    /// Whether the misused name means it.
    pub is_right: bool,
    /// Whether the action stands before it, or is none for the left side.
    pub is_unseen: bool,
}

/// Whether a name has to stand in brackets.
pub fn has_signs(name: &[u8]) -> bool {
    for byte in name {
        if matches!(*byte, b'.' | b'-') {
            return true;
        }
    }
    false
}

impl<'a> Misused<'a> {
    /// Whether its name stands in brackets.
    pub fn is_bracketed(self) -> bool {
        self.text.last() == Some(&b']')
    }

    /// The symbol at a place that has this name, where that is what the misused one begins with.
    fn meant_by(self, named: Named<'a>, name: &'a [u8]) -> Option<Meant<'a>> {
        if name.is_empty() || !self.name.starts_with(name) {
            return None;
        }
        let tail = self.name.get(name.len()..).unwrap_or(&[]);
        let is_part = matches!(tail.first(), Some(b'.' | b'-')) && !self.is_bracketed();
        if !tail.is_empty() && !is_part {
            return None;
        }
        let is_unseen = match self.inner {
            Some(inner) => named.place == 0 || inner < named.place,
            None => false,
        };
        let is_hidden = name != named.name;
        let is_whole = self.is_bracketed() || !has_signs(name);
        Some(Meant {
            name: named.name,
            hidden: if is_hidden { Some(name) } else { None },
            tail,
            place: named.place,
            is_right: is_whole && !is_hidden && !is_unseen,
            is_unseen,
        })
    }

    /// The symbols of its body that its name could mean, in their order.
    pub fn meant(self, alloc: Global) -> Made<Vec<Meant<'a>>> {
        let mut found = Vec::new(alloc);
        for named in self.names {
            if named.symbol != named.name {
                if let Some(meant) = self.meant_by(*named, named.symbol) {
                    found.push(meant)?;
                }
            }
            if let Some(meant) = self.meant_by(*named, named.name) {
                found.push(meant)?;
            }
        }
        Ok(found)
    }
}

/// What stands at the front of code, of so many bytes, with the fields after a name, and the name.
fn spelled<'a>(piece: Piece<'a>, code: &'a [u8], length: usize) -> (&'a [u8], &'a [u8]) {
    let text = code.get(..length).unwrap_or(code);
    let named = match piece {
        Piece::Value(value) => value.whose,
        Piece::Place(whose) => whose,
        Piece::Text => Whose::Left,
    };
    let Whose::Named(name) = named else {
        return (text, b"");
    };
    if text.last() == Some(&b']') {
        return (text, name);
    }
    let fields = code.get(length..).unwrap_or(&[]);
    let end = fields.iter().position(|b| !is_name_byte(*b) && *b != b'-');
    let whole = length.saturating_add(end.unwrap_or(fields.len()));
    let text = code.get(..whole).unwrap_or(code);
    let from = length.saturating_sub(name.len());
    (text, text.get(from..).unwrap_or(name))
}

impl<'a> Scene<'a> {
    /// What is wrong with what stands at the front of code.
    fn misuse_of(&self, piece: Piece<'a>, text: &[u8]) -> Option<Misuse> {
        match piece {
            piece if !self.has(piece) => Some(Misuse::Stray),
            Piece::Text => match text {
                b"$" | b"@" => Some(Misuse::Stray),
                _ => None,
            },
            Piece::Value(value) => self.locate(value).err(),
            Piece::Place(whose) => self.place(whose).err(),
        }
    }
}

impl<'a> Skeleton<'a> {
    /// Finds what is misused in code that sees this.
    fn find_misuses(
        &self,
        alloc: Global,
        scene: &Scene<'a>,
        code: parts::Piece<'a>,
        found: &mut Vec<Misused<'a>>,
    ) -> Made<()> {
        let dialect = self.style.dialect();
        // the place in its body of an action that doesn't end it
        let inner = match scene.is_inner {
            true => Some(scene.before.len().saturating_add(1)),
            false => None,
        };
        let mut rest = code.text;
        for _ in code.text {
            let Some((piece, front, after)) = piece_at(rest, dialect) else {
                break;
            };
            let misuse = scene.misuse_of(piece, front);
            let (mut text, name) = spelled(piece, rest, front.len());
            if misuse == Some(Misuse::Stray) {
                text = text.get(..1).unwrap_or(text);
            }
            let before = code.text.len().saturating_sub(rest.len());
            let mut one = Misused {
                misuse: Misuse::Misleading,
                text,
                name,
                at: code.at.saturating_add(before),
                names: scene.names,
                inner,
            };
            if let Some(misuse) = misuse {
                one.misuse = misuse;
                found.push(one)?;
            } else if !name.is_empty() && one.meant(alloc)?.len() > 1 {
                found.push(one)?;
            }
            rest = after;
        }
        Ok(())
    }

    /// What is misused in actions, in the code before the first token and in that for values.
    pub fn misuses(&self, alloc: Global) -> Made<Vec<Misused<'a>>> {
        let mut found = Vec::new(alloc);
        for action in &self.parts.actions {
            let scene = self.action_scene(*action);
            self.find_misuses(alloc, &scene, action.piece, &mut found)?;
        }
        let scene = self.value_scene(None, ("", ""));
        for care in &self.parts.cares {
            self.find_misuses(alloc, &scene, care.piece, &mut found)?;
        }
        for block in &self.parts.blocks {
            if block.target == Target::Initial {
                self.find_misuses(alloc, &scene, block.piece, &mut found)?;
            }
        }
        Ok(found)
    }
}
