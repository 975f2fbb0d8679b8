// The system's clock, as the clock of both regions.
ghost use Rattle.std.specs.Prelude.{◌≤◌, None};
ghost use Rattle.wiki_model.specs.Limits.{greatest_moment};

use farm_base::{Clock, MOMENT_MAX, Moment, Readings};
use std::time::{self, SystemTime, UNIX_EPOCH};

/// The system's clock: milliseconds since 1970, the same for both regions. It exposes nothing of what is to come. If
/// the system does not give a time, it reads what it read last.
#[derive(Drop)]
pub struct SystemClock<'a, R> {
    rt: &'a R,
    last: u64,
}

impl<'a, R: time::Clock> SystemClock<'a, R> {
    /// A clock that has read nothing yet; it would read 0.
    pub fn new(rt: &'a R) -> Self {
        SystemClock { rt, last: 0 }
    }
}

impl<R: time::Clock> Clock for SystemClock<'_, R> {
    ghost exposed = { λ _. None };

    fn readings(&mut self) -> Readings {
        self.last = milliseconds(self.rt, self.last);
        let now = self.last.min(MOMENT_MAX);
        Readings {
            home: Moment(now),
            west: Moment(now),
        }
    }
}

// The system's milliseconds since 1970, or else the last ones.
fn milliseconds<R: time::Clock>(rt: &R, last: u64) -> u64 {
    let Ok(now) = SystemTime::now(rt) else {
        return last;
    };
    match now.duration_since(UNIX_EPOCH) {
        Ok(passed) => u64::try_from(passed.as_millis()).unwrap_or(MOMENT_MAX),
        Err(_) => last,
    }
}
