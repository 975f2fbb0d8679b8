//! Threads that share one cache, without a lock and without waiting.
//!
//! A region renders many pages at once, and each of its threads wants the same cache. A lock would make all wait for
//! one look, and a purge that waits, or gives up, is a page that stays too long. Here nobody waits. `share` takes a
//! `SlotCache` to pieces and lays it into a table of words and rows that change in single atomic steps, and deals up to
//! eight seats. Each thread calls with a seat of its own; `Shared::close` takes all seats in and puts the cache
//! together again. While it is shared there is no cache that one could call by mistake: `share` takes it by value.
//!
//! Each slot has a floor, which only rises, and a claim, which is 0 or the number of the seat that holds the slot's
//! row. A purge raises the floor in one step, whoever holds the slot: it needs no claim, so it is never refused. A look
//! first loads the floor and the checks, then tries one claim. If it finds another seat's number it answers `Busy` with
//! that number, and has lost one hit. Else it has the row for itself, copies what is there, and writes 0 back. A put
//! does the same, and holds the claim no longer than it takes to store the value.
//!
//! Since the floor is loaded before the row is read, a hit was set at that floor or later. What each seat knows is kept
//! in its view, which only clauses read: the floors and checks that it saw and made, the rows that it met, the values
//! that it was handed. The table's rule ties the views to the words and rows between any two steps, of whatever thread.
//! From it `close` promises that no purge is lost: a floor or check comes back as it was when the share began, or as
//! the highest that any seat made of it since. And each value is one that was there or that a put was handed.
//!
//! What a page must be to be stored at all is the caller's to say, by a `Marker`; whatever comes out of the share is
//! then true in that sense. What a slot keeps is `slot_cache`'s, and the rules of a look and a put are `wan_cache`'s.
//! That a thread gets on, that a look hits as often as it could, or that a purge made beside a look is seen by it, is
//! promised by nobody.
//!
//! Of 256 slots, `A` has the slot 168. If a cache with a hold-off of 11,000 milliseconds is shared by two seats and the
//! first purges `A` at 2,000, a `look` of the second answers `Look::Miss(Cause::Purged { floor: 13_000 })` from then on
//! until 12,999, and so does the cache after `close`.
#![tactic(auto)]

mod close_cache;
mod marker;
mod part;
mod seat_steps;
mod share_cache;
mod shared;
mod table_steps;
mod view;

pub use marker::{AnyValue, Marker};
pub use part::Part;
pub use share_cache::{NotShared, SEATS_MAX, share};
pub use shared::{CacheSeat, Shared};
