//! What is wrong with a SPEC or a text.

use std::alloc::AllocError;

/// What is wrong with a SPEC: what each says is its `text`.
#[derive(Clone, Copy, Drop)]
pub enum Wrong {
    /// A line that begins with `%%`, as each grammar has one, and no SPEC.
    Grammar,
    NoText,
    Directive,
    Missing,
    Unknown,
    NoInput,
    /// A keyword after `--upper` with a capital.
    Capital,
    Expression(&'static str),
    Empty,
}

/// Why something of a SPEC isn't used: what is wrong at a place of it, or that there is no memory.
#[derive(Clone, Copy, Drop)]
pub enum SpecFault {
    /// How many bytes stand before the place, and what is wrong there.
    At(usize, Wrong),
    /// Memory ran out.
    Memory,
}

/// All that is wrong with a SPEC: how many bytes stand before each place, and what is wrong there.
pub type SpecFaults = Vec<(usize, Wrong)>;

/// Keeps a fault with those of a SPEC, where it isn't that there is no memory.
pub(crate) fn keep<T: Drop>(
    faults: &mut SpecFaults,
    made: Result<T, SpecFault>,
) -> Result<Option<T>, AllocError> {
    match made {
        Ok(made) => Ok(Some(made)),
        Err(SpecFault::Memory) => Err(AllocError),
        Err(SpecFault::At(at, wrong)) => {
            faults.push((at, wrong))?;
            Ok(None)
        }
    }
}

impl From<AllocError> for SpecFault {
    fn from(_refused: AllocError) -> SpecFault {
        SpecFault::Memory
    }
}

/// Why a text isn't cut into tokens.
#[derive(Clone, Copy, Drop)]
pub enum TextFault {
    /// Nothing matches after so many bytes.
    Unmatched(usize),
    /// A further token begins after so many bytes.
    TooMany(usize),
    /// Memory ran out.
    Memory,
}

impl From<AllocError> for TextFault {
    fn from(_refused: AllocError) -> TextFault {
        TextFault::Memory
    }
}

impl Wrong {
    /// What is said of it.
    pub fn text(self) -> &'static str {
        match self {
            Wrong::Grammar => "this is a grammar, no SPEC",
            Wrong::NoText => "this line is no text in UTF-8",
            Wrong::Directive => "no directive of a SPEC; there are %skip, %keywords and %none",
            Wrong::Missing => "nothing stands after the name",
            Wrong::Unknown => "no token of the grammar has this name",
            Wrong::NoInput => "an input has tokens alone, and neither error nor $end",
            Wrong::Capital => "after --upper the words stand in small letters",
            Wrong::Expression(reason) => reason,
            Wrong::Empty => "the expression matches the empty text",
        }
    }
}
