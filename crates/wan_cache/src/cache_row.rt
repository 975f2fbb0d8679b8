// What is kept for one key, and what a put or a purge makes of that.
ghost use Rattle.std.specs.Prelude.{◌≡◌};
ghost use Rattle.wan_value.specs.AsModel.{value_of};
ghost use Rattle.wan_cache.specs.CacheRow.{Stores, Raises, IsNewRow};

use crate::place_value::placed;
use wan_value::Value;
use wiki_model::{Moment, Put};

/// What is kept for a key.
#[derive(Drop)]
pub(crate) struct CacheRow<P> {
    /// Until this moment no value becomes the main one; 0 before the first purge.
    pub(crate) floor: Moment,
    /// What was stored while the key was free. One that was set before the floor is as good as gone.
    pub(crate) main: Option<Value<P>>,
    /// What was stored while the key was held off.
    pub(crate) interim: Option<Value<P>>,
    /// The number of the last put or purge, as `RecentUses` counts them.
    pub(crate) used: u64,
}

impl<P: Drop> CacheRow<P> {
    /// An empty row, used by this call.
    pub(crate) fn new(used: u64) -> Self
        ensures { IsNewRow result used }
    {
        CacheRow {
            floor: Moment(0),
            main: None,
            interim: None,
            used,
        }
    }

    /// Puts the value where it belongs, by the floor under all keys and the check.
    pub(crate) fn store(&mut self, base: Moment, check: Moment, value: Value<P>) -> Put
        ensures { Stores self.old self.new base check (value_of value) result }
    {
        let put = placed(base.later(self.floor), check, value.set_at, value.lagged);
        match put {
            Put::Main => self.main = Some(value),
            Put::Interim => self.interim = Some(value),
            _ => {}
        }
        put
    }

    /// Raises the floor, and drops the main value.
    pub(crate) fn raise(&mut self, until: Moment)
        ensures { Raises self.old self.new until }
    {
        self.floor = self.floor.later(until);
        self.main = None;
    }
}
