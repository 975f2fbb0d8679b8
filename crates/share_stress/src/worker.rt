// One thread's steps on a shared cache.
ghost use Rattle.std.specs.Prelude.{◌≡◌, ◌≤◌};
ghost use Rattle.wiki_model.specs.Limits.{greatest_moment};

use farm_base::Moment;
use rand_core::Rng;
use rand_pcg::Pcg32;
use slot_share::{AnyValue, CacheSeat, Shared};
use std::alloc::Global;
use std::sync::Arc;
use std::sync::atomic::AtomicU64;
use std::sync::atomic::Ordering::SeqCst;
use wan_cache::{Ask, Cause, Look, Put, Value};
use wiki_titles::Title;

/// How long a purge holds off, in ticks of the clock.
pub const HOLD_OFF: u64 = 40;

/// How many random steps a worker makes.
pub const STEPS: u32 = 5_000;

/// A worker with its seat, and what it knows of the two slots.
#[derive(Drop)]
pub struct Worker {
    pub seat: CacheSeat<AnyValue, u64>,
    pub draws: Pcg32,
    pub first: Known,
    pub second: Known,
    /// How often it hit.
    pub hits: u64,
    /// How often it met another's claim.
    pub busy: u64,
    /// How often it hit a value that was set before the floor that it knew, or was shown another key's.
    pub wrong: u64,
}

/// What a worker knows of a slot.
#[derive(Clone, Copy)]
pub struct Known {
    /// The greatest floor that it made.
    pub made: u64,
    /// The greatest floor that it made or was told.
    pub floor: u64,
}

/// All steps of a worker: random ones, and at the end a purge of each slot.
pub fn work(
    alloc: Global,
    shared: &Shared<AnyValue, u64>,
    worker: &mut Worker,
    keys: &[Title],
    clock: &AtomicU64,
)
    requires mine { worker.old.seat.table ≡ shared.now.table }
    ensures mine { worker.new.seat.table ≡ shared.now.table }
{
    for _ in 0..STEPS {
        step(alloc, shared, worker, keys, clock);
    }
    for place in 0..keys.len() {
        purge(shared, worker, &keys[place], place, tick(clock));
    }
}

// The clock's moment, which no other step has.
fn tick(clock: &AtomicU64) -> Moment
    ensures { result ≤ greatest_moment }
{
    Moment(clock.fetch_add(1, SeqCst).min(4_000_000_000_000_000))
}

fn step(
    alloc: Global,
    shared: &Shared<AnyValue, u64>,
    worker: &mut Worker,
    keys: &[Title],
    clock: &AtomicU64,
)
    requires mine { worker.old.seat.table ≡ shared.now.table }
    ensures mine { worker.new.seat.table ≡ shared.now.table }
{
    let place = (worker.draws.next_u32() % 4) as usize;
    let kind = worker.draws.next_u32() % 32;
    let now = tick(clock);
    match keys.get(place) {
        None => {}
        Some(key) if kind == 0 => purge(shared, worker, key, place, now),
        Some(key) if kind < 9 => put(alloc, shared, worker, key, place, now),
        Some(key) => look(shared, worker, key, place, now),
    }
}

fn purge(
    shared: &Shared<AnyValue, u64>,
    worker: &mut Worker,
    key: &Title,
    place: usize,
    now: Moment,
)
    requires mine { worker.old.seat.table ≡ shared.now.table }
    requires small { now ≤ greatest_moment }
    ensures mine { worker.new.seat.table ≡ shared.now.table }
{
    shared.purge(&mut worker.seat, key, now);
    worker.makes(place, now.0.saturating_add(HOLD_OFF));
}

// Puts the key's page, which is its place.
fn put(
    alloc: Global,
    shared: &Shared<AnyValue, u64>,
    worker: &mut Worker,
    key: &Title,
    place: usize,
    now: Moment,
)
    requires mine { worker.old.seat.table ≡ shared.now.table }
    ensures mine { worker.new.seat.table ≡ shared.now.table }
{
    let Ok(page) = Arc::new(alloc, place as u64) else {
        return;
    };
    let value = Value {
        page,
        upto: 1,
        stamp: now,
        set_at: now,
        life: 86_400_000,
        lagged: now.0 % 2 == 0,
        version: 1,
    };
    match shared.put(&mut worker.seat, key, value) {
        Put::Held { until } => worker.is_told(place, until.0),
        Put::Busy { .. } => worker.busy = worker.busy.saturating_add(1),
        _ => {}
    }
}

fn look(shared: &Shared<AnyValue, u64>, worker: &mut Worker, key: &Title, place: usize, now: Moment)
    requires mine { worker.old.seat.table ≡ shared.now.table }
    ensures mine { worker.new.seat.table ≡ shared.now.table }
{
    let ask = Ask {
        epoch: Moment(0),
        version: 1,
        need: 0,
    };
    let found = shared.look(&mut worker.seat, key, now, &ask);
    worker.sees(place, &found);
}

impl Worker {
    // Remembers what a look told.
    fn sees(&mut self, place: usize, found: &Look<u64>)
        ensures { self.new.seat ≡ self.old.seat }
    {
        match found {
            Look::Hit(value) => self.hit(place, *value.page, value.set_at),
            Look::Interim(value) => self.shown(place, *value.page),
            Look::Miss(Cause::Purged { floor }) => self.is_told(place, floor.0),
            Look::Miss(Cause::Busy { .. }) => self.busy = self.busy.saturating_add(1),
            _ => {}
        }
    }

    fn makes(&mut self, place: usize, floor: u64)
        ensures { self.new.seat ≡ self.old.seat }
    {
        let known = if place < 2 { self.first } else { self.second };
        let known = Known {
            made: known.made.max(floor),
            floor: known.floor.max(floor),
        };
        self.set_known(place, known);
    }

    fn is_told(&mut self, place: usize, floor: u64)
        ensures { self.new.seat ≡ self.old.seat }
    {
        let known = if place < 2 { self.first } else { self.second };
        let known = Known {
            made: known.made,
            floor: known.floor.max(floor),
        };
        self.set_known(place, known);
    }

    fn set_known(&mut self, place: usize, known: Known)
        ensures { self.new.seat ≡ self.old.seat }
    {
        if place < 2 {
            self.first = known;
        } else {
            self.second = known;
        }
    }

    // Counts an answer from the hold-off, if it is another key's.
    fn shown(&mut self, place: usize, page: u64)
        ensures { self.new.seat ≡ self.old.seat }
    {
        if page != place as u64 {
            self.wrong = self.wrong.saturating_add(1);
        }
    }

    // Counts a hit, and whether it is wrong.
    fn hit(&mut self, place: usize, page: u64, set_at: Moment)
        ensures { self.new.seat ≡ self.old.seat }
    {
        let floor = if place < 2 {
            self.first.floor
        } else {
            self.second.floor
        };
        self.hits = self.hits.saturating_add(1);
        if set_at.0 < floor || page != place as u64 {
            self.wrong = self.wrong.saturating_add(1);
        }
    }
}
