// A cache that several seats share, with the moment of the next call. Each call is made with the seat of a place.
ghost use Rattle.std.specs.Prelude.{◌≡◌, ◌<◌, ◌≤◌};
ghost use Rattle.wiki_model.specs.Limits.{greatest_moment};
ghost use Rattle.slot_share.specs.Closing.{AreAllSeats};

use crate::setting::value_at;
use crate::timed::{Seen, Timed, shown};
use farm_base::{Memory, Moment};
use slot_cache::{SLOTS_MIN, SlotCache};
use slot_share::{AnyValue, CacheSeat, Shared, share};
use std::alloc::{AllocError, Global};
use std::marker::Model;
use std::test::Fail;
use wan_cache::{Ask, Put, Value};
use wiki_titles::Title;

/// The cache, all its seats, and a moment that is not before one that a call was given.
#[derive(Drop)]
pub struct Crew {
    shared: Shared<AnyValue, u64>,
    seats: Vec<CacheSeat<AnyValue, u64>>,
    now: Moment,
}

impl Model for Crew {
    ghost use Rattle.std.specs.Prelude.{ℕ, ◌≤◌};
    ghost use Rattle.wiki_model.specs.Limits.{greatest_moment};
    ghost use Rattle.slot_share.specs.Closing.{AreAllSeats};

    ghost Value = { ℕ };

    ghost view = { λ c. c.now };

    ghost invariant = { λ c. AreAllSeats c.shared c.seats.items c.now × (c.now ≤ greatest_moment) };
}

impl Crew {
    /// An empty cache of 256 slots at the moment 0, with a hold-off of 11,000 milliseconds, shared by so many seats.
    pub fn new(alloc: Global, seats: u8) -> Result<Crew, Fail>
        requires some { 0 < seats }
        requires few { seats ≤ 8 }
    {
        let cache = SlotCache::new(alloc, SLOTS_MIN, 11_000)?;
        Crew::again(alloc, Timed::new(cache), seats)
    }

    /// A cache at its moment, shared by so many seats.
    pub fn again(alloc: Global, cache: Timed<SlotCache<u64>>, seats: u8) -> Result<Crew, Fail>
        requires some { 0 < seats }
        requires few { seats ≤ 8 }
    {
        let (cache, now) = cache.into_parts();
        match share::<AnyValue, u64>(alloc, cache, seats) {
            Ok((shared, seats)) => Ok(Crew { shared, seats, now }),
            Err(_) => Err(Memory)?,
        }
    }

    /// Lets so many milliseconds pass.
    pub fn pass(&mut self, time: u64) {
        let later = self.now.0.saturating_add(time);
        self.now = Moment(later.min(4_000_000_000_000_000));
    }

    /// What the seat finds for a page.
    pub fn look(&mut self, seat: usize, title: &Title) -> Seen {
        look_at(&self.shared, &mut self.seats, seat, title, self.now)
    }

    /// Puts a page of so many entries.
    pub fn put(
        &mut self,
        alloc: Global,
        seat: usize,
        title: &Title,
        upto: u64,
        lagged: bool,
    ) -> Result<Put, AllocError> {
        let value = value_at(alloc, upto, self.now, lagged)?;
        Ok(put_at(&self.shared, &mut self.seats, seat, title, value, self.now))
    }

    pub fn purge(&mut self, seat: usize, title: &Title) {
        purge_at(&self.shared, &mut self.seats, seat, title, self.now);
    }

    /// Ends the share.
    pub fn close(self) -> Timed<SlotCache<u64>> {
        let Crew { shared, seats, now } = self;
        Timed::at(shared.close(seats, now), now)
    }
}

// A look with the seat of this place; `Seen::Memory` if there is none.
fn look_at(
    shared: &Shared<AnyValue, u64>,
    seats: &mut Vec<CacheSeat<AnyValue, u64>>,
    seat: usize,
    title: &Title,
    now: Moment,
) -> Seen
    requires seats { AreAllSeats shared.now seats.old.items now }
    ensures seats { AreAllSeats shared.now seats.new.items now }
{
    match seats.get_mut(seat) {
        Some(seat) => look_with(shared, seat, title, now),
        None => Seen::Memory,
    }
}

fn look_with(
    shared: &Shared<AnyValue, u64>,
    seat: &mut CacheSeat<AnyValue, u64>,
    title: &Title,
    now: Moment,
) -> Seen
    requires mine { seat.old.table ≡ shared.now.table }
    requires later { seat.old.greatest ≤ now }
    ensures mine { seat.new.table ≡ shared.now.table }
    ensures later { seat.new.greatest ≤ now }
{
    let ask = Ask {
        epoch: Moment(0),
        version: 1,
        need: 0,
    };
    shown(&shared.look(seat, title, now, &ask))
}

// A put with the seat of this place; `Put::Memory` if there is none.
fn put_at(
    shared: &Shared<AnyValue, u64>,
    seats: &mut Vec<CacheSeat<AnyValue, u64>>,
    seat: usize,
    title: &Title,
    value: Value<u64>,
    now: Moment,
) -> Put
    requires seats { AreAllSeats shared.now seats.old.items now }
    requires set { value.set_at ≡ now }
    ensures seats { AreAllSeats shared.now seats.new.items now }
{
    match seats.get_mut(seat) {
        Some(seat) => put_with(shared, seat, title, value, now),
        None => Put::Memory,
    }
}

fn put_with(
    shared: &Shared<AnyValue, u64>,
    seat: &mut CacheSeat<AnyValue, u64>,
    title: &Title,
    value: Value<u64>,
    now: Moment,
) -> Put
    requires mine { seat.old.table ≡ shared.now.table }
    requires later { seat.old.greatest ≤ now }
    requires set { value.set_at ≡ now }
    ensures mine { seat.new.table ≡ shared.now.table }
    ensures later { seat.new.greatest ≤ now }
{
    let _ = now;
    shared.put(seat, title, value)
}

fn purge_at(
    shared: &Shared<AnyValue, u64>,
    seats: &mut Vec<CacheSeat<AnyValue, u64>>,
    seat: usize,
    title: &Title,
    now: Moment,
)
    requires seats { AreAllSeats shared.now seats.old.items now }
    requires small { now ≤ greatest_moment }
    ensures seats { AreAllSeats shared.now seats.new.items now }
{
    if let Some(seat) = seats.get_mut(seat) {
        shared.purge(seat, title, now);
    }
}
