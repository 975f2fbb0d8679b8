// Which calls of a form in memory fail.
ghost use Rattle.std.specs.Prelude.{◌≡◌, IsTrue, Contains, ◌↔◌};
ghost use Rattle.farm_base.specs.Causes.{counted};
ghost use Rattle.farm_base.specs.FailingCalls.{none_made, one_more};

use std::marker::Model;

/// The numbers of the calls that are to fail, counted from 1, and how many calls were made. Every form in memory
/// has one.
#[derive(Debug, Drop)]
pub struct FailingCalls {
    numbers: Vec<u64>,
    made: u64,
}

impl Model for FailingCalls {
    ghost use Rattle.farm_base.specs.FailingCalls.{Calls};

    ghost Value = { Calls };

    ghost view = { λ c. record { numbers = c.numbers.items; made = c.made } };
}

impl FailingCalls {
    /// No call was made yet. It takes no memory.
    pub fn new(numbers: Vec<u64>) -> Self
        ensures { result ≡ none_made numbers.items }
    {
        FailingCalls { numbers, made: 0 }
    }

    /// Counts a call and says whether it is to fail. Linear in the numbers.
    pub fn next_fails(&mut self) -> bool
        ensures fails { IsTrue result ↔ Contains self.old.numbers (counted self.old.made) }
        ensures counts { self.new ≡ one_more self.old }
    {
        self.made = self.made.saturating_add(1);
        self.numbers.contains(&self.made)
    }
}
