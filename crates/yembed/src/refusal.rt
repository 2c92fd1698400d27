//! Why a call has no answer, and its status.

ghost use Rattle.std.specs.Prelude.{◌≡◌, ◌≢◌};
ghost use Rattle.yembed.specs.Refusals.{source_status, status_of, token_status};

use ygenerate::source::SourceFault;
use ygrammar::GrammarFault;
use ylalr::BuildFault;
use ytokens::TokenFault;

/// Why a call has no answer.
#[derive(Debug, Drop)]
pub(crate) enum Refusal {
    /// There are no tables of the grammar.
    Source(SourceFault),
    /// The tokens are refused.
    Tokens(TokenFault),
    /// There are tables, and memory ran out after that.
    NoRoom,
}

/// The status where there are no tables.
fn source_status(fault: &SourceFault) -> u32
    ensures value { result ≡ source_status fault.now }
    ensures refused { result ≢ 0 }
{
    match fault {
        SourceFault::Grammar(GrammarFault::Memory) => 3,
        SourceFault::Grammar(_) => 1,
        SourceFault::Build(BuildFault::TooManySets) => 4,
        SourceFault::Build(BuildFault::Memory) => 3,
        SourceFault::Unread | SourceFault::NoRoom | SourceFault::Tables => 3,
    }
}

/// The status where the tokens are refused.
pub(crate) fn token_status(fault: TokenFault) -> u32
    ensures value { result ≡ token_status fault }
    ensures refused { result ≢ 0 }
{
    match fault {
        TokenFault::Memory => 3,
        TokenFault::Unknown(_) | TokenFault::NotInput(_) => 2,
        TokenFault::TooMany | TokenFault::BadLiteral(_) => 2,
    }
}

impl Refusal {
    /// The status: 1 where the grammar is refused, 2 where the tokens are, 3 where memory runs out,
    /// 4 where there are too many item sets.
    pub(crate) fn status(&self) -> u32
        ensures value { result ≡ status_of self.now }
        ensures refused { result ≢ 0 }
    {
        match self {
            Refusal::Source(fault) => source_status(fault),
            Refusal::Tokens(fault) => token_status(*fault),
            Refusal::NoRoom => 3,
        }
    }
}
