//! The tokens of a grammar: how many there are, and which are the end and `error`.

ghost use Rattle.std.specs.Prelude.{◌≡◌};

use ysymbols::{Grammar, Sym};

/// The number of `$end`.
pub const END: Sym = 0;

/// The number of `error`.
pub const ERROR: Sym = 1;

/// How many of the symbols are tokens. Tokens are the numbers below this.
pub fn token_count(grammar: &Grammar) -> usize
    ensures { result ≡ grammar.now.bare.tokens }
{
    let mut count = 0;
    while count < grammar.symbols() && grammar.is_token(count) {
        count += 1;
    }
    count
}
