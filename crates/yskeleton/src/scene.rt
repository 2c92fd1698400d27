//! What an action sees: the values and places of its body, and the names of these.

use crate::references::{Reference, Whose};
use crate::skeleton::Skeleton;
use crate::style::Style;
use yexplain::lines::is_inner;
use yexplain::reads::{body_of, left_of, name_of};
use yparts::options::Values;
use yparts::parts::{Action, Named, Parts};
use ysymbols::{Grammar, Sym};

/// What is wrong with a value or place that code names.
#[derive(Clone, Copy, Drop, PartialEq, Eq)]
pub enum Misuse {
    /// No symbol before the action has this number.
    OutOfRange,
    /// The value of the left side needs a tag, and has none.
    UntypedLeft,
    /// The value of another symbol needs a tag, and has none.
    Untyped,
    /// No symbol before the action has this name.
    Unknown,
    /// Several symbols have it.
    Ambiguous,
    /// Nothing is, but other symbols have names that are like it.
    Misleading,
    /// A sign stands alone.
    Stray,
}

/// A member of a value.
#[derive(Clone, Copy)]
pub enum Member<'a> {
    /// The value itself.
    Whole,
    /// A tag.
    Tag(&'a [u8]),
    /// A member that has the name of a symbol, with what names of tokens begin with.
    Symbol(&'a [u8], &'a [u8]),
}

/// What an action sees.
#[derive(Clone, Copy)]
pub struct Scene<'a> {
    grammar: &'a Grammar,
    parts: &'a Parts<'a>,
    /// How the parser looks.
    pub style: &'a Style<'a>,
    /// The symbols before it in its body.
    pub before: &'a [Sym],
    /// The symbol that `$$` is of.
    left: Option<Sym>,
    /// The names of values.
    pub names: &'a [Named<'a>],
    /// Whether it stands within its body, where the left side has no name.
    pub is_inner: bool,
    /// Whether `$$` needs a tag where other values have some.
    pub is_strict: bool,
    /// What `$$` is in C.
    pub value: &'static str,
    /// What `@$` is in C.
    pub location: &'static str,
}

/// The symbols that an action sees before it. An inner one stands in the body of the next rule
/// that is not one of an inner action.
fn before_of(grammar: &Grammar, rule: usize) -> &[Sym] {
    if !is_inner(grammar, rule) {
        return body_of(grammar, rule);
    }
    let left = left_of(grammar, rule);
    for outer in rule..grammar.rules() {
        if !is_inner(grammar, outer) {
            let body = body_of(grammar, outer);
            for (seen, symbol) in body.iter().enumerate() {
                if Some(*symbol) == left {
                    return body.get(..seen).unwrap_or(&[]);
                }
            }
            return body;
        }
    }
    &[]
}

impl<'a> Skeleton<'a> {
    /// What the action of a rule sees.
    pub fn action_scene(&self, action: Action<'a>) -> Scene<'a> {
        let (value, location) = match self.style.options.is_cxx() {
            true => ("yylhs.value", "yylhs.location"),
            false => ("yyval", "yyloc"),
        };
        Scene {
            grammar: self.grammar,
            parts: self.parts,
            style: self.style,
            before: before_of(self.grammar, action.rule),
            left: left_of(self.grammar, action.rule),
            names: self.parts.names_in(action.body),
            is_inner: is_inner(self.grammar, action.rule),
            is_strict: true,
            value,
            location,
        }
    }

    /// What code sees that stands in no rule: a value, of this symbol or of none, and a place, as
    /// these are called in C.
    pub fn value_scene(
        &self,
        left: Option<Sym>,
        (value, location): (&'static str, &'static str),
    ) -> Scene<'a> {
        Scene {
            grammar: self.grammar,
            parts: self.parts,
            style: self.style,
            before: &[],
            left,
            names: &[],
            is_inner: true,
            is_strict: false,
            value,
            location,
        }
    }
}

/// Who is meant, by a number where it is not the left side, with the names of a body: of so many
/// values that code sees before it. The left side has no name within the body.
pub fn meant_in(
    names: &[Named<'_>],
    (seen, is_inner): (usize, bool),
    whose: Whose<'_>,
) -> Result<Option<i64>, Misuse> {
    let name = match whose {
        Whose::Left => return Ok(None),
        Whose::Symbol(number) => return Ok(Some(number)),
        Whose::Named(name) => name,
    };
    let mut found = None;
    for named in names {
        let is_seen = match named.place {
            0 => !is_inner,
            place => place <= seen,
        };
        if named.name == name && is_seen {
            if found.is_some() {
                return Err(Misuse::Ambiguous);
            }
            found = Some(named.place);
        }
    }
    match found {
        None => Err(Misuse::Unknown),
        Some(0) => Ok(None),
        Some(place) => Ok(Some(i64::try_from(place).unwrap_or(i64::MAX))),
    }
}

impl<'a> Scene<'a> {
    /// Who is meant, by a number where it is not the left side.
    fn meant(&self, whose: Whose<'_>) -> Result<Option<i64>, Misuse> {
        meant_in(self.names, (self.before.len(), self.is_inner), whose)
    }

    /// The symbol of a number in the body, counted from 1.
    fn symbol(&self, number: i64) -> Option<Sym> {
        let index = usize::try_from(number.checked_sub(1)?).ok()?;
        self.before.get(index).copied()
    }

    /// Where a symbol of a number stands on the stack, counted from its top; it may be below the
    /// body, but not above it.
    fn depth(&self, number: i64) -> Result<i64, Misuse> {
        let seen = self.before.len();
        if number > seen as i64 {
            Err(Misuse::OutOfRange)
        } else {
            Ok(number.saturating_sub(seen as i64))
        }
    }

    /// Where what is meant stands on the stack, counted from its top; `None` for the left side.
    pub fn place(&self, whose: Whose<'_>) -> Result<Option<i64>, Misuse> {
        match self.meant(whose)? {
            None => Ok(None),
            Some(number) => Ok(Some(self.depth(number)?)),
        }
    }

    /// The symbol that is meant; `None` where there is none in the body.
    pub fn symbol_of(&self, whose: Whose<'_>) -> Option<Sym> {
        match self.meant(whose) {
            Ok(None) => self.left,
            Ok(Some(number)) => self.symbol(number),
            Err(_) => None,
        }
    }

    /// The member that a symbol's value is, where the file tells it.
    fn member_of(&self, symbol: Option<Sym>) -> Option<Member<'a>> {
        let symbol = symbol?;
        let tag = self.parts.tag_of(symbol)?;
        if self.style.options.values != Values::Symbols {
            return Some(Member::Tag(tag));
        }
        let prefix = self.style.member_prefix(self.grammar, symbol);
        Some(Member::Symbol(prefix, name_of(self.grammar, symbol)))
    }

    /// Where a value stands, and the member that it is.
    pub fn locate(&self, value: Reference<'a>) -> Result<(Option<i64>, Member<'a>), Misuse> {
        let meant = self.meant(value.whose)?;
        let (place, symbol) = match meant {
            None => (None, self.left),
            Some(number) => (Some(self.depth(number)?), self.symbol(number)),
        };
        let member = match value.tag {
            Some(tag) => Some(Member::Tag(tag)),
            None => self.member_of(symbol),
        };
        match (member, meant) {
            (Some(member), _) => Ok((place, member)),
            (None, None) if self.is_strict && self.style.has_tags => Err(Misuse::UntypedLeft),
            (None, Some(_)) if self.style.has_tags => Err(Misuse::Untyped),
            (None, _) => Ok((place, Member::Whole)),
        }
    }
}
