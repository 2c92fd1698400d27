//! From a place that has a token of itself along a trail to its first place.

ghost use Rattle.std.specs.Prelude.{ℕ, ◌≡◌, ◌<◌, length, IfOk};
ghost use Rattle.ylalr.specs.Collection.{Collection};
ghost use Rattle.yprovenance.specs.Reasons.{Has, IsChain};
ghost use Rattle.yprovenance.specs.Trail.{IsTrail, entry_at};

use crate::reason::Reason;
use crate::search::Source;
use crate::trail::Trail;
use std::alloc::{AllocError, Global};

/// The chain from the source to the first place of the trail. It fails only when memory runs out.
pub fn climb(alloc: Global, trail: &Trail, source: Source) -> Result<Vec<Reason>, AllocError>
    requires { source.index < length trail.now }
    ensures { IfOk result (λ c. (m : Collection) (a : ℕ) → IsTrail m trail.now →
        Has m a (entry_at trail.now source.index).place source.cause →
        IsChain m a (entry_at trail.now 0).place c.items) }
{
    let mut chain = Vec::new(alloc);
    let mut index = source.index;
    chain.push(Reason {
        place: trail.at(index).place,
        cause: source.cause,
    })?;
    while index > 0 {
        let entry = trail.at(index);
        index = entry.gives;
        chain.push(Reason {
            place: trail.at(index).place,
            cause: entry.cause,
        })?;
    }
    Ok(chain)
}
