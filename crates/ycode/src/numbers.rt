//! The numbers of an array.

ghost use Rattle.std.specs.Prelude.{◌≡◌, ◌≤◌, ◌⊎◌, All, Contains};

use std::marker::Model;

/// The numbers of an array, in their order.
#[derive(Drop)]
pub struct Numbers {
    list: Vec<usize>,
}

impl Model for Numbers {
    ghost use Rattle.std.specs.Prelude.{ℕ, List};

    ghost Value = { List ℕ };

    ghost view = { λ n. n.list.items };
}

impl Numbers {
    /// These numbers.
    pub fn of(list: Vec<usize>) -> Numbers
        ensures { result ≡ list.items }
    {
        Numbers { list }
    }

    /// The numbers.
    pub fn as_slice(&self) -> &[usize]
        ensures { result.now ≡ self.now }
    {
        self.list.as_slice()
    }

    /// The greatest of the numbers, which chooses the type of the array; 0 where there are none.
    pub fn greatest(&self) -> usize
        ensures bound { All (λ n. n ≤ result) self.now }
        ensures among { (result ≡ 0) ⊎ Contains self.now result }
    {
        greatest_of(&self.list)
    }
}

/// The greatest of these numbers, or 0.
fn greatest_of(numbers: &[usize]) -> usize
    ensures bound { All (λ n. n ≤ result) numbers.now }
    ensures among { (result ≡ 0) ⊎ Contains numbers.now result }
{
    match numbers.iter().copied().max() {
        Some(n) => n,
        None => 0,
    }
}
