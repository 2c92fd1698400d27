//! The states found so far, numbered by their kernels.

ghost use Rattle.std.specs.Prelude.{◌≡◌, ◌<◌, ◌++◌, ◌∷◌, [], length, IfOk, OnOk, OnErr, IfSome};
ghost use Rattle.std.specs.Prelude.{IfNone};
ghost use Rattle.ylalr.specs.States.{IsFresh, HasKernel, IsKernelAt, Lacks, set_at, with_state};

use crate::items::Item;
use std::alloc::{AllocError, Global};
use std::collections::HashMap;
use std::marker::Model;
use ybitsets::list::Sequence;
use ysymbols::let_go;

/// The most states that an automaton may have.
pub const MOST_STATES: usize = 16_384;

/// Kernels, each once, and the number of each: its place, counted from 0.
struct KernelTable {
    kernels: Vec<Vec<Item>>,
    numbers: HashMap<Vec<Item>, usize>,
}

impl Drop for KernelTable {
    fn drop(self) {
        let KernelTable { kernels, numbers } = self;
        drop(kernels);
        drop(numbers);
    }
}

impl Model for KernelTable {
    ghost use Rattle.std.specs.Prelude.{List};
    ghost use Rattle.ylalr.specs.declared.items.Item.{Item};
    ghost use Rattle.ylalr.specs.States.{AreNumbered, kernels_of};

    ghost Value = { List (List Item) };

    ghost view = { λ t. kernels_of t.kernels.items };

    ghost invariant = { λ t. AreNumbered (kernels_of t.kernels.items) t.numbers };
}

impl KernelTable {
    /// No kernels.
    fn new(alloc: Global) -> KernelTable
        ensures { result ≡ [] }
    {
        KernelTable {
            kernels: Vec::new(alloc),
            numbers: HashMap::new(alloc),
        }
    }

    /// The number of this kernel, or `None` where it is not there.
    fn find(&self, kernel: &[Item]) -> Option<usize>
        ensures found { IfSome result (λ n. IsKernelAt self.now kernel.now n) }
        ensures lacks { IfNone result (Lacks self.now kernel.now) }
    {
        self.numbers.get(kernel).copied()
    }

    /// Adds a kernel that is not there. It fails only when memory runs out, and then adds nothing.
    fn push(&mut self, alloc: Global, kernel: &[Item]) -> Result<(), AllocError>
        requires { Lacks self.old kernel.now }
        ensures { OnOk result (self.new ≡ self.old ++ kernel.now ∷ []) }
    {
        let number = self.kernels.len();
        let key = Vec::from_slice(alloc, kernel)?;
        self.kernels.push(Vec::from_slice(alloc, kernel)?)?;
        match self.numbers.insert(key, number) {
            Ok(_) => Ok(()),
            Err(_) => {
                self.kernels.pop();
                Err(AllocError)
            }
        }
    }
}

/// The states so far: the kernel of each, and its items.
pub struct States {
    kernels: KernelTable,
    closures: Vec<Sequence<Item>>,
}

impl Drop for States {
    fn drop(self) {
        let_go!(self: States { kernels, closures });
    }
}

impl Model for States {
    ghost use Rattle.ylalr.specs.States.{StateLists};

    ghost Value = { StateLists };

    ghost view = { λ s. record { kernels = s.kernels; closures = s.closures.items } };
}

impl States {
    /// No states.
    pub fn new(alloc: Global) -> States
        ensures none { length result.closures ≡ 0 }
        ensures no_kernel { length result.kernels ≡ 0 }
    {
        States {
            kernels: KernelTable::new(alloc),
            closures: Vec::new(alloc),
        }
    }

    /// How many states there are.
    pub fn count(&self) -> usize
        ensures { result ≡ length self.now.closures }
    {
        self.closures.len()
    }

    /// The items of state `q`, by rule and then by dot.
    pub fn items(&self, q: usize) -> &[Item]
        requires { q < length self.now.closures }
        ensures { result.now ≡ set_at self.now.closures q }
    {
        self.closures[q].as_slice()
    }

    /// The number of the state with this kernel, or `None` where no state has it.
    pub fn find(&self, kernel: &[Item]) -> Option<usize>
        ensures found { IfSome result (λ n. HasKernel self.now kernel.now n) }
        ensures fresh { IfNone result (IsFresh self.now kernel.now) }
    {
        self.kernels.find(kernel)
    }

    /// Adds a state, with a kernel that no state has. It fails only when memory runs out.
    pub fn push(
        &mut self,
        alloc: Global,
        kernel: &[Item],
        items: Sequence<Item>,
    ) -> Result<(), AllocError>
        requires { IsFresh self.old kernel.now }
        ensures { OnOk result (self.new ≡ with_state self.old kernel.now items) }
    {
        self.kernels.push(alloc, kernel)?;
        self.closures.push(items)?;
        Ok(())
    }
}
