// What a look finds among the values of one key.
ghost use Rattle.std.specs.Prelude.{◌≡◌, Some};
ghost use Rattle.std.specs.Option.{option_copied};
ghost use Rattle.wiki_model.specs.Cache.{cause_of, held_cause, not_below};
ghost use Rattle.wan_value.specs.AsModel.{value_of, ask_of};
ghost use Rattle.wan_cache.specs.Rules.{IsFound, lent, found_by, passes_by, held_by, free_by};
ghost use Rattle.wan_cache.specs.CacheRow.{found_in};

use crate::cache_row::CacheRow;
use crate::place_value::is_held;
use crate::region_store::Look;
use wan_value::{Ask, LIFE_INTERIM, Value, fresh};
use wiki_model::{Cause, Moment, Stale};

/// What a look goes by besides the values.
#[derive(Clone, Copy, Debug, PartialEq, Eq)]
pub struct LookTimes {
    /// Before this moment the key is held off; 0 before its first purge.
    pub floor: Moment,
    /// Up to this moment all keys are held off; 0 before the first touch.
    pub check: Moment,
    /// How long a purge holds its key off, in milliseconds.
    pub hold_off: u64,
    /// The moment of the look.
    pub at: Moment,
}

/// What a look finds among the two values of a key: `Hit` or `Miss` if the key is free, `Interim` or `Miss` if
/// it is held off. It answers `Memory` only if sharing the page is refused.
pub fn look_at<P: Drop>(
    main: Option<&Value<P>>,
    interim: Option<&Value<P>>,
    times: &LookTimes,
    ask: &Ask,
) -> Look<P>
    ensures { IsFound result (found_by times.now (ask_of ask.now) (lent main.entry) (lent interim.entry)) }
{
    if is_held(times.floor, times.check, times.at) {
        find_held(interim, times, ask)
    } else {
        find_free(main, times, ask)
    }
}

/// What is there for a key whose row this is, by the floor under all keys.
pub(crate) fn find<P: Drop>(row: Option<&CacheRow<P>>, times: &LookTimes, ask: &Ask) -> Look<P>
    ensures { IsFound result (found_in times.now (ask_of ask.now) (option_copied row.entry)) }
{
    match row {
        Some(row) => {
            let floor = times.floor.later(row.floor);
            let times = LookTimes {
                floor,
                check: times.check,
                hold_off: times.hold_off,
                at: times.at,
            };
            look_at(row.main.as_ref(), row.interim.as_ref(), &times, ask)
        }
        None if is_held(times.floor, times.check, times.at) => Look::Miss(held_cause(times)),
        None => Look::Miss(Cause::Absent),
    }
}

// The interim value of a key that is held off.
fn find_held<P: Drop>(interim: Option<&Value<P>>, times: &LookTimes, ask: &Ask) -> Look<P>
    ensures { IsFound result (held_by times.now (ask_of ask.now) (lent interim.entry)) }
{
    match interim {
        Some(value) if passes(value, times, ask) => match value.clone() {
            Ok(copy) => Look::Interim(copy),
            Err(_) => Look::Memory,
        },
        _ => Look::Miss(held_cause(times)),
    }
}

// Whether an interim value may be shown.
fn passes<P>(value: &Value<P>, times: &LookTimes, ask: &Ask) -> bool
    ensures { result ≡ passes_by times.now (ask_of ask.now) (value_of value.now) }
{
    let set_at = value.set_at.0;
    times.floor.0.saturating_sub(set_at) <= times.hold_off
        && times.check.0.saturating_sub(set_at) <= times.hold_off
        && times.at.0.saturating_sub(set_at) < LIFE_INTERIM
        && ask.epoch <= value.set_at
        && value.version == ask.version
        && ask.need <= value.upto
}

fn held_cause(times: &LookTimes) -> Cause
    ensures { result ≡ held_cause times.now.floor times.now.check times.now.at }
{
    if times.at < times.floor {
        Cause::Purged { floor: times.floor }
    } else {
        Cause::Checked { check: times.check }
    }
}

// The main value of a key that is free. One from before the floor is as good as gone.
fn find_free<P: Drop>(main: Option<&Value<P>>, times: &LookTimes, ask: &Ask) -> Look<P>
    ensures { IsFound result (free_by times.now (ask_of ask.now) (not_below times.now.floor (lent main.entry))) }
{
    match main {
        Some(value) if times.floor <= value.set_at => find_fresh(value, times, ask),
        _ => Look::Miss(Cause::Absent),
    }
}

// A main value, if it is fresh.
fn find_fresh<P: Drop>(value: &Value<P>, times: &LookTimes, ask: &Ask) -> Look<P>
    ensures { IsFound result (free_by times.now (ask_of ask.now) (Some (value_of value.now))) }
{
    match fresh(value, times.at, times.floor, times.check, ask) {
        Ok(()) => match value.clone() {
            Ok(copy) => Look::Hit(copy),
            Err(_) => Look::Memory,
        },
        Err(why) => Look::Miss(cause_of(why)),
    }
}

fn cause_of(why: Stale) -> Cause
    ensures { result ≡ cause_of why }
{
    match why {
        Stale::Purged { floor } => Cause::Purged { floor },
        Stale::Checked { check } => Cause::Checked { check },
        Stale::Expired { at } => Cause::Expired { at },
        Stale::Epoch => Cause::Epoch,
        Stale::Version => Cause::Version,
        Stale::Position { have } => Cause::Position { have },
    }
}
