//! What a region's cache promises, and a cache of bounded size that keeps it.
//!
//! A page can be older than it looks. A commit is announced and its title is purged. Then a view reads a replica
//! that has not applied the commit, and stores what it rendered: an old page with a new date, which would stay
//! until it expires. So a purge does more than delete. It holds the title off until `now + hold_off` (its floor),
//! and whatever is put before then goes to a second place, the interim value, which lives for two seconds and does
//! not outlive the doubt. A template stands on many pages and the site notice on all, so when one of them changes,
//! `touch` holds off all titles, by a check moment.
//!
//! `RegionStore` says this as a trait over a map in the model (`Puts`, `Purges`, `Touches`, `look`). `MapCache`
//! keeps a bounded number of keys in ordered maps and forgets no floor before its time. `look_at` and `placed` are
//! the rules of a look and a put over plain values, for another store.
//!
//! How fresh one value is, and whether a page may be stored at all, says `wan_value`. Who is purged and when is
//! the farm's to say; messages between regions are in `purge_relay`.
//!
//! In a cache whose hold-off is 11,000 milliseconds, a purge of `A` at 2,000 holds it off until 13,000. A `put` at
//! 3,000 answers `Put::Interim`, and a `look` at 12,999, when the interim value is too old, answers
//! `Look::Miss(Cause::Purged { floor: 13_000 })`.
#![tactic(auto)]

mod cache_row;
mod claim_row;
mod find_value;
mod map_cache;
mod place_value;
mod recent_uses;
mod region_store;
mod row_table;

pub use find_value::{LookTimes, look_at};
pub use map_cache::{HOLD_OFF_MAX, KEYS_MAX, MapCache};
pub use place_value::placed;
pub use region_store::{Look, RegionStore};
pub use wan_value::{Ask, Value};
pub use wiki_model::{Cause, Class, Moment, Put};
