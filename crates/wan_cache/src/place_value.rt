// Where a put places a value.
ghost use Rattle.std.specs.Prelude.{◌≡◌};
ghost use Rattle.wiki_model.specs.Cache.{is_held};
ghost use Rattle.wan_cache.specs.Rules.{placed};

use wiki_model::{Moment, Put};

/// Where a put places a value that was set at this moment, by the key's floor and the check: `Main` if the key
/// is free, else `Interim`; a lagged value is then placed nowhere (`Held`). It never answers `Busy` or `Memory`.
pub fn placed(floor: Moment, check: Moment, set_at: Moment, lagged: bool) -> Put
    ensures { result ≡ placed floor check set_at lagged }
{
    if !is_held(floor, check, set_at) {
        return Put::Main;
    }
    if !lagged {
        return Put::Interim;
    }
    let until = if set_at < floor { floor } else { check };
    Put::Held { until }
}

/// Whether a key with this floor is held off at `now`. A check of 0 holds none.
pub(crate) fn is_held(floor: Moment, check: Moment, now: Moment) -> bool
    ensures { result ≡ is_held floor check now }
{
    now < floor || check.0 != 0 && now <= check
}
