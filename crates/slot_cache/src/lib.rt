//! A region's cache of fixed slots: the storage is made once, and after that no call can find it full or short of
//! memory.
//!
//! A cache of bounded size has to choose which key goes when a new one comes, and needs memory for each new key. So a
//! put can be refused, and a purge for which there is no memory has to hold off every title. Here nothing is chosen: a
//! title's digest names its slot, and the titles of one slot share what lies there: one floor, one place for a main and
//! one for an interim value, and one name of the title whose values they are. A put of another title takes the slot
//! over. A purge drops the slot's main value and holds off all its titles: another of them may miss once more than it
//! had to, and never shows a page that is too old. Titles of other slots see nothing of either. Since a slot has room
//! for the longest title, `put`, `purge` and `touch` take no memory.
//!
//! A takeover empties the other place too, and nothing is lost by that. If an interim value takes the slot over, the
//! slot is held off, so that the main value that was there is older than the floor or the check, and no longer fresh.
//! If a main value does, the slot is free, so that the interim value that was there is older than this moment, and no
//! later purge or touch lets it pass.
//!
//! `SlotCache` is a `RegionStore`, whose promises and rules are in `wan_cache`; how fresh a value is says `wan_value`.
//! Each row of the cache lies in a block of its own, so that a cache that is taken apart (`into_parts`) hands its slots
//! on by moving one word a slot. Threads that share one cache are `slot_share`'s.
//!
//! Of 256 slots, `A` has the slot 168 and `B` the slot 202. If the hold-off is 11,000 milliseconds and `A` is purged at
//! 2,000, a `look` for `A` at 12,999 answers `Look::Miss(Cause::Purged { floor: 13_000 })`, and one for `B` answers
//! `Look::Miss(Cause::Absent)`.
#![tactic(auto)]

mod key_copy;
mod slot_cache;
mod slot_number;
mod slot_parts;
mod slot_row;

pub use slot_cache::{SLOTS_MAX, SLOTS_MIN, SlotCache};
pub use slot_number::slot_of;
pub use slot_parts::SlotParts;
pub use slot_row::SlotRow;
