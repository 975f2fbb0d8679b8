//! Values of a cache: when a page may be stored, and when a stored one may still be served.
//!
//! A page comes from a replica that lags, and a page that was rendered from a prefix of the history does not get
//! younger by lying in a cache. So a value carries what it is made from: how many entries, the moment of the last
//! of them, and the moment at which it was stored. `decide_set` asks before storing how far behind the replica was
//! when it was read, and how long ago that is: a page that may be too old is kept for a short time only, or not at
//! all. `fresh` asks before serving for everything that can have happened since: a purge of its title, a change of
//! what stands on all pages, the end of its life, a new epoch, another markup, an edit that the reader may not
//! miss. The first that holds is the answer, so that a miss says why.
//!
//! Where values are kept, and what a purge does, is in `wan_cache`.
//!
//! `decide_set(4_000, 3_000, false, 7_000)` is `SetRule::Whole`, and with an age of 3,001 it is
//! `SetRule::NoMedium`: neither lag nor age is above 7,000, and both together are.
#![tactic(auto)]

ghost use Rattle.std.specs.Prelude.{◌≡◌};
ghost use Rattle.std.specs.Result.{result_err};
ghost use Rattle.wiki_model.specs.Cache.{set_rule, staleness};
ghost use Rattle.wan_value.specs.AsModel.{value_of, ask_of};
ghost use Rattle.wan_value.specs.Value.{ended};

pub use farm_base::{LIFE_INTERIM, LIFE_LAGGED, LIFE_WHOLE, Moment};
use std::alloc::AllocError;
use std::sync::Arc;
pub use wiki_model::{SetRule, Stale};

/// A page as a cache keeps it.
#[derive(Drop)]
pub struct Value<P> {
    /// The page, shared with whom it is answered to.
    pub page: Arc<P>,
    /// How many entries of the history the page is made from: a prefix.
    pub upto: u64,
    /// The moment of the last of these entries.
    pub stamp: Moment,
    /// The moment at which it was stored.
    pub set_at: Moment,
    /// How long it may be served from then on, in milliseconds.
    pub life: u64,
    /// Whether its replica lagged too far for the page to be kept whole.
    pub lagged: bool,
    /// The markup by which it was rendered.
    pub version: u8,
}

impl<P: Drop> Clone for Value<P> {
    ghost is_clone = { λ value copy. value_of copy ≡ value_of value };

    /// The page itself is shared.
    fn clone(&self) -> Result<Self, AllocError> {
        Ok(Value {
            page: self.page.clone()?,
            upto: self.upto,
            stamp: self.stamp,
            set_at: self.set_at,
            life: self.life,
            lagged: self.lagged,
            version: self.version,
        })
    }
}

/// What a reader asks of a value.
#[derive(Clone, Copy, Debug, PartialEq, Eq)]
pub struct Ask {
    /// Values from before this moment do not count; 0 lets all count.
    pub epoch: Moment,
    /// The markup that the page is to be rendered by.
    pub version: u8,
    /// How many entries of the history the page must be made from at least.
    pub need: u64,
}

/// How a page is stored whose replica was `lag` milliseconds behind when it was read `age` milliseconds ago, if a
/// replica may be `read_lag` behind for its page to be kept whole. `pending` says that entries were waiting to be
/// applied. It takes no memory.
pub fn decide_set(lag: u64, age: u64, pending: bool, read_lag: u64) -> SetRule
    ensures { result ≡ set_rule lag age pending read_lag }
{
    if pending {
        SetRule::NoPending
    } else if lag <= read_lag && age <= read_lag - lag {
        SetRule::Whole
    } else if read_lag < age {
        SetRule::NoOld
    } else if read_lag < lag {
        SetRule::Lagged
    } else {
        SetRule::NoMedium
    }
}

/// Whether a value may be served at `now` as it was asked for, if its key is held off until `floor` and all keys
/// up to `check`; else the first reason against it. It takes no memory.
pub fn fresh<P>(
    value: &Value<P>,
    now: Moment,
    floor: Moment,
    check: Moment,
    ask: &Ask,
) -> Result<(), Stale>
    ensures { result_err result ≡ staleness (value_of value.now) now floor check (ask_of ask.now) }
{
    if value.set_at < floor {
        return Err(Stale::Purged { floor });
    }
    if check.0 != 0 && value.set_at <= check {
        return Err(Stale::Checked { check });
    }
    if let Some(at) = expiry(value.set_at, value.life, now) {
        return Err(Stale::Expired { at });
    }
    if value.set_at < ask.epoch {
        return Err(Stale::Epoch);
    }
    if value.version != ask.version {
        return Err(Stale::Version);
    }
    if value.upto < ask.need {
        return Err(Stale::Position { have: value.upto });
    }
    Ok(())
}

// The end of a life, if it has come.
fn expiry(set_at: Moment, life: u64, now: Moment) -> Option<Moment>
    ensures { result ≡ ended set_at life now }
{
    match set_at.0.checked_add(life) {
        Some(end) if end <= now.0 => Some(Moment(end)),
        _ => None,
    }
}
