//! Positions: how much of the history a client has seen to be there.
//!
//! The history only grows, and its entries are counted from 1. So what a client has seen is one number, the last entry
//! that it knows of, and of two positions the greater knows all that the other knows. A replica that has applied as
//! many entries has reached it, and can answer the client without taking back what it saw.
//!
//! Where positions are kept, and for how long, is left to `chronology_store`; how a browser carries one, to
//! `sticky_routes`.
//!
//! `reached(2, Position { entry: 3 })` is false: the replica misses the third entry.
#![tactic(auto)]

ghost use Rattle.std.specs.Prelude.{◌≡◌, max, nat_le, decimal, IfOk};
ghost use Rattle.std.specs.String.{string_bytes};

use farm_base::{Memory, bytes};
use std::alloc::Global;
use std::marker::Model;

/// A place in the history. Contracts see it as its number.
#[derive(Clone, Copy, Debug, PartialEq, Eq, PartialOrd, Ord)]
pub struct Position {
    /// The number of an entry, counted from 1; 0 is before all.
    pub entry: u64,
}

impl Model for Position {
    ghost use Rattle.std.specs.Prelude.{ℕ};

    ghost Value = { ℕ };

    ghost view = { λ p. p.entry };

    ghost inverse = { λ n. record { entry = n } };
}

impl Position {
    /// Its decimal digits, without leading zeros.
    pub fn text(&self, alloc: Global) -> Result<String, Memory>
        ensures { IfOk result (λ text. string_bytes text ≡ decimal self.now) }
    {
        bytes::decimal(alloc, self.entry)
    }
}

/// Whether a replica that has applied this many entries has the one of the position.
pub fn reached(applied: u64, need: Position) -> bool
    ensures { result ≡ nat_le need applied }
{
    need.entry <= applied
}

/// The later of two positions.
pub fn merge(a: Position, b: Position) -> Position
    ensures { result ≡ max a b }
{
    if a.entry < b.entry { b } else { a }
}
