// Numbers of entries in rising order, of which the last up to a bound is found by halving.
ghost use Rattle.std.specs.Prelude.{◌≡◌, ℕ, ◌-◌, List, [], ◌∷◌, ◌++◌, take, length, OnOk, OnErr};
ghost use Rattle.revision_keeper.specs.Indexes.{RiseFrom, last_up_to};

use std::alloc::{AllocError, Global};
use std::marker::Model;

/// EntryNumbers of entries, each above the one before. Contracts see the list.
#[derive(Debug, Drop)]
pub struct EntryNumbers {
    items: Vec<u64>,
}

impl Model for EntryNumbers {
    ghost use Rattle.std.specs.Prelude.{ℕ, List};

    ghost Value = { List ℕ };

    ghost view = { λ n. n.items.items };
}

impl EntryNumbers {
    /// No number yet. It takes no memory.
    pub fn new(alloc: Global) -> Self
        ensures { result ≡ [] }
    {
        EntryNumbers {
            items: Vec::new(alloc),
        }
    }

    /// The last number that is at most the bound.
    pub fn last_up_to(&self, bound: u64) -> Option<u64>
        requires { RiseFrom 1 self.now }
        ensures { result ≡ last_up_to bound self.now }
    {
        last_up_to(&self.items, bound)
    }

    /// Adds a number at the end. If memory is refused nothing has changed.
    pub fn push(&mut self, number: u64) -> Result<(), AllocError>
        ensures ok { OnOk result (self.new ≡ self.old ++ number ∷ []) }
        ensures err { OnErr result (self.new ≡ self.old) }
    {
        self.items.push(number)?;
        Ok(())
    }

    /// Takes the last number away.
    pub fn pop(&mut self)
        ensures { self.new ≡ take (length self.old - 1) self.old }
    {
        self.items.pop();
    }
}

// The last of the numbers that is at most the bound, by a binary search.
fn last_up_to(numbers: &[u64], bound: u64) -> Option<u64>
    requires { RiseFrom 1 numbers.now }
    ensures { result ≡ last_up_to bound numbers.now }
{
    match numbers.binary_search(&bound) {
        Ok(_) => Some(bound),
        Err(0) => None,
        Err(place) => Some(numbers[place - 1]),
    }
}
