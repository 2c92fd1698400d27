//! Which states of a parser reduce by default.

use ycode::Policy;
use yparts::options::{Defaults, Options};

/// Which states reduce by default: those that the file or a word asks for. Else a parser of a file
/// of bison reduces as bison's does, one of byacc where a state has nothing else left, and one of
/// a file that `yacc` reads where that is so at each token. Messages are for states that have not
/// reduced.
pub fn policy_of(options: &Options<'_>, is_bison: bool, speaks: bool) -> Policy {
    match options.defaults {
        Defaults::Most => Policy::Most,
        Defaults::Sole => Policy::Sole,
        Defaults::Consistent => Policy::Consistent,
        Defaults::Unsaid if speaks => Policy::Consistent,
        Defaults::Unsaid if is_bison => Policy::Most,
        Defaults::Unsaid if options.is_profile => Policy::Consistent,
        Defaults::Unsaid => Policy::Lone,
    }
}
