// A clock and lots that give what they were made with, and then the last one for good.
ghost use Rattle.std.specs.Prelude.{◌≡◌, ◌≤◌, Some, map, min};
ghost use Rattle.wiki_model.specs.Limits.{greatest_moment};
ghost use Rattle.farm_base.specs.MemClock.{cut};

use crate::{Clock, Lots, MOMENT_MAX, Moment, Readings};
use std::marker::Model;

/// A clock over readings. It gives them in order, and then the last one for good, each cut at `MOMENT_MAX`.
#[derive(Debug, Drop)]
pub struct MemClock {
    coming: Vec<Readings>,
    at: usize,
    last: Readings,
}

impl Model for MemClock {
    ghost use Rattle.std.specs.Prelude.{drop, map};
    ghost use Rattle.wiki_model.specs.declared.Readings.{Readings as Moments};
    ghost use Rattle.farm_base.specs.MemClock.{cut};
    ghost use Rattle.farm_base.specs.Series.{Series};

    ghost Value = { Series Moments };

    ghost view = { λ c. record { coming = map cut (drop c.at c.coming.items); last = cut c.last } };
}

impl MemClock {
    /// A clock over these readings. It takes no memory.
    pub fn new(coming: Vec<Readings>, last: Readings) -> Self
        ensures { result ≡ record { coming = map cut coming.items; last = cut last } }
    {
        MemClock {
            coming,
            at: 0,
            last,
        }
    }
}

impl Clock for MemClock {
    ghost exposed = { λ c. Some c };

    fn readings(&mut self) -> Readings {
        if self.at < self.coming.len() {
            let next = cut(&self.coming[self.at]);
            self.at += 1;
            return next;
        }
        cut(&self.last)
    }
}

/// Lots over words. They are given in order, and then the last one for good.
#[derive(Debug, Drop)]
pub struct MemLots {
    coming: Vec<u64>,
    at: usize,
    last: u64,
}

impl Model for MemLots {
    ghost use Rattle.std.specs.Prelude.{ℕ, drop};
    ghost use Rattle.farm_base.specs.Series.{Series};

    ghost Value = { Series ℕ };

    ghost view = { λ l. record { coming = drop l.at l.coming.items; last = l.last } };
}

impl MemLots {
    /// Lots over these words. It takes no memory.
    pub fn new(coming: Vec<u64>, last: u64) -> Self
        ensures { result ≡ record { coming = coming.items; last = last } }
    {
        MemLots {
            coming,
            at: 0,
            last,
        }
    }
}

impl Lots for MemLots {
    ghost exposed = { λ l. Some l };

    fn word(&mut self) -> u64 {
        if self.at < self.coming.len() {
            let next = self.coming[self.at];
            self.at += 1;
            return next;
        }
        self.last
    }
}

// The readings, each cut at the last moment.
fn cut(readings: &Readings) -> Readings
    ensures value { result ≡ cut readings.now }
    ensures home { result.home ≤ greatest_moment }
    ensures west { result.west ≤ greatest_moment }
{
    Readings {
        home: Moment(readings.home.0.min(MOMENT_MAX)),
        west: Moment(readings.west.0.min(MOMENT_MAX)),
    }
}
