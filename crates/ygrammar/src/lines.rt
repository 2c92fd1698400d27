//! The fault of a mistake, on the line of its place.

ghost use Rattle.std.specs.Prelude.{◌≡◌};
ghost use Rattle.ygrammar.specs.Faults.{IsRefusal};
ghost use Rattle.ygrammar.specs.GrammarOf.{line_of, mistake_at};

use ydeclarations::mistake::{Mistake, Refused};
use ysyntax::fault::{GrammarFault, PlacedFault};

/// The fault that is this mistake, on a line.
fn at_line(what: Mistake, line: usize) -> GrammarFault
    ensures { result ≡ mistake_at what line }
{
    match what {
        Mistake::TokenLeft => GrammarFault::TokenLeft { line },
        Mistake::Undefined => GrammarFault::Undefined { line },
        Mistake::TwicePrecedence => GrammarFault::TwicePrecedence { line },
        Mistake::BadNumber => GrammarFault::BadNumber { line },
        Mistake::BadStart => GrammarFault::BadStart { line },
        Mistake::Unproductive => GrammarFault::Unproductive { line },
        Mistake::BadPrec => GrammarFault::BadPrec { line },
        Mistake::Limit => GrammarFault::Limit { line },
    }
}

/// The fault of a refusal, in a file of these bytes.
pub fn in_file(refused: Refused, source: &[u8]) -> PlacedFault
    ensures { IsRefusal source.now refused result }
{
    match refused {
        Refused::Mistake { what, at } => PlacedFault {
            fault: at_line(what, line_at(source, at)),
            at,
            state: None,
        },
        Refused::Memory => PlacedFault {
            fault: GrammarFault::Memory,
            at: 0,
            state: None,
        },
    }
}

/// The line of the place with `at` bytes before it: one more than the newlines among them.
fn line_at(source: &[u8], at: usize) -> usize
    ensures { result ≡ line_of source.now at }
{
    let before = if at < source.len() {
        &source[..at]
    } else {
        source
    };
    before.iter().filter(|b| **b == b'\n').count() + 1
}
