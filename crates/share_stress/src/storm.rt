// Two threads and eight at once.
ghost use Rattle.std.specs.Prelude.{◌≡◌, ◌<◌, ◌≤◌, ◌+◌, All, IfOk, length};

use crate::worker::{HOLD_OFF, Known, Worker, work};
use farm_base::{Memory, Moment};
use rand_pcg::Pcg32;
use slot_cache::{SLOTS_MIN, SlotCache};
use slot_share::{AnyValue, CacheSeat, Shared, share};
use std::alloc::{AllocError, Global};
use std::process::Abort;
use std::sync::atomic::AtomicU64;
use std::test::Fail;
use std::thread;
use std::thread::Threads;
use wan_cache::{Ask, Cause, Look, RegionStore};
use wiki_titles::Title;

// Two keys of the slot 168 of 256, and two of the slot 202.
const KEYS: [&str; 4] = ["A", "Page 972", "B", "Page 134"];

/// What all workers saw.
#[derive(Clone, Copy)]
struct Sums {
    hits: u64,
    wrong: u64,
    first: u64,
    second: u64,
}

fn titles(alloc: Global) -> Result<Vec<Title>, Fail> {
    let mut titles = Vec::new(alloc);
    for text in KEYS {
        titles.push(Title::parse(alloc, text)?)?;
    }
    Ok(titles)
}

// A worker for each seat.
fn workers_of(
    alloc: Global,
    seats: Vec<CacheSeat<AnyValue, u64>>,
    shared: &Shared<AnyValue, u64>,
) -> Result<Vec<Worker>, AllocError>
    requires mine { All (λ seat. seat.table ≡ shared.now.table) seats.items }
    ensures mine { IfOk result (λ workers. All (λ worker. worker.seat.table ≡ shared.now.table) workers.items) }
    ensures count { IfOk result (λ workers. length workers.items ≡ length seats.items) }
{
    let _ = shared;
    let mut seats = seats;
    let mut workers = Vec::new(alloc);
    while let Some(seat) = seats.pop() {
        let nothing = Known { made: 0, floor: 0 };
        let worker = Worker {
            seat,
            draws: Pcg32::new(7, seats.len() as u64),
            first: nothing,
            second: nothing,
            hits: 0,
            busy: 0,
            wrong: 0,
        };
        workers.push(worker).or(Err(AllocError))?;
    }
    Ok(workers)
}

// Each worker makes its steps in a thread.
fn work_all<R: Threads + Sync>(
    rt: &R,
    alloc: Global,
    shared: &Shared<AnyValue, u64>,
    workers: &mut [Worker],
    keys: &[Title],
    clock: &AtomicU64,
)
    requires mine { All (λ worker. worker.seat.table ≡ shared.now.table) workers.old }
    ensures mine { All (λ worker. worker.seat.table ≡ shared.now.table) workers.new }
    ensures count { length workers.new ≡ length workers.old }
{
    thread::for_each_mut(
        rt,
        workers,
        8,
        &|_: usize, worker: &mut Worker|
            requires { worker.now.seat.table ≡ shared.now.table }
            ensures { worker.exit.now.seat.table ≡ shared.entry.now.table }
        { work(alloc, shared, worker, keys, clock) },
    );
}

// What all workers saw, and their seats.
fn seats_of(
    alloc: Global,
    workers: Vec<Worker>,
    shared: &Shared<AnyValue, u64>,
) -> Result<(Vec<CacheSeat<AnyValue, u64>>, Sums), AllocError>
    requires mine { All (λ worker. worker.seat.table ≡ shared.now.table) workers.items }
    ensures mine { IfOk result (λ t. All (λ seat. seat.table ≡ shared.now.table) t.0.items) }
    ensures count { IfOk result (λ t. length t.0.items ≡ length workers.items) }
{
    let _ = shared;
    let mut workers = workers;
    let mut seats = Vec::new(alloc);
    let mut sums = Sums {
        hits: 0,
        wrong: 0,
        first: 0,
        second: 0,
    };
    while let Some(worker) = workers.pop() {
        sums = sums.with(&worker);
        push_seat(&mut seats, worker, shared)?;
    }
    Ok((seats, sums))
}

fn push_seat(
    seats: &mut Vec<CacheSeat<AnyValue, u64>>,
    worker: Worker,
    shared: &Shared<AnyValue, u64>,
) -> Result<(), AllocError>
    requires mine { All (λ seat. seat.table ≡ shared.now.table) seats.old.items }
    requires new { worker.seat.table ≡ shared.now.table }
    ensures mine { IfOk result (λ _. All (λ seat. seat.table ≡ shared.now.table) seats.new.items) }
    ensures count { IfOk result (λ _. length seats.new.items ≡ length seats.old.items + 1) }
{
    let _ = shared;
    seats.push(worker.seat).or(Err(AllocError))
}

impl Sums {
    fn with(&self, worker: &Worker) -> Sums {
        Sums {
            hits: self.hits.saturating_add(worker.hits),
            wrong: self.wrong.saturating_add(worker.wrong),
            first: self.first.max(worker.first.made),
            second: self.second.max(worker.second.made),
        }
    }
}

// The greatest moment that a seat was given.
fn latest(seats: &[CacheSeat<AnyValue, u64>]) -> Moment
    ensures { All (λ seat. seat.greatest ≤ result) seats.now }
{
    let mut latest = Moment(0);
    for seat in seats.iter() {
        latest = latest.later(seat.greatest());
    }
    latest
}

// Ends the share at the greatest moment that a seat was given.
fn end(
    shared: Shared<AnyValue, u64>,
    seats: Vec<CacheSeat<AnyValue, u64>>,
) -> (SlotCache<u64>, Moment)
    requires count { length seats.items ≡ shared.start.seats }
    requires mine { All (λ seat. seat.table ≡ shared.table) seats.items }
    ensures latest { result.0.greatest ≡ result.1 }
{
    let now = latest(&seats);
    (shared.close(seats, now), now)
}

// The floor by which a look at this moment misses; 0 if it does not.
fn floor_of(cache: &SlotCache<u64>, key: &Title, now: Moment) -> u64
    requires later { cache.now.greatest ≤ now }
{
    let ask = Ask {
        epoch: Moment(0),
        version: 1,
        need: 0,
    };
    if now.0 <= 4_000_000_000_000_000 {
        floor_told(&cache.look(key, now, &ask))
    } else {
        0
    }
}

fn floor_told(look: &Look<u64>) -> u64 {
    match look {
        Look::Miss(Cause::Purged { floor }) => floor.0,
        _ => 0,
    }
}

// Shares an empty cache, lets a worker on each seat work, and closes it: what they saw, and each key's floor.
fn storm<R: Threads + Sync>(rt: &R, alloc: Global, seats: u8) -> Result<(Sums, Vec<u64>), Fail>
    requires some { 0 < seats }
    requires few { seats ≤ 8 }
{
    let keys = titles(alloc)?;
    let clock = AtomicU64::new(1);
    let cache = SlotCache::new(alloc, SLOTS_MIN, HOLD_OFF)?;
    let Ok((shared, seats)) = share::<AnyValue, u64>(alloc, cache, seats) else {
        return Err(Memory)?;
    };
    let mut workers = workers_of(alloc, seats, &shared)?;
    work_all(rt, alloc, &shared, &mut workers, &keys, &clock);
    let (seats, sums) = seats_of(alloc, workers, &shared)?;
    let (cache, now) = end(shared, seats);
    let mut floors = Vec::new(alloc);
    for key in keys.iter() {
        floors.push(floor_of(&cache, key, now))?;
    }
    Ok((sums, floors))
}

#[test]
fn no_purge_of_eight_threads_is_lost_and_no_hit_is_too_old(rt: HostRuntime) -> Result<(), Fail> {
    survives(&rt, rt.alloc(), 8)
}

#[test]
fn no_purge_of_two_threads_is_lost_and_no_hit_is_too_old(rt: HostRuntime) -> Result<(), Fail> {
    survives(&rt, rt.alloc(), 2)
}

fn survives<R: Threads + Sync + Abort>(rt: &R, alloc: Global, seats: u8) -> Result<(), Fail>
    requires some { 0 < seats }
    requires few { seats ≤ 8 }
{
    let (sums, floors) = storm(rt, alloc, seats)?;
    assert_eq!(rt; sums.wrong, 0);
    // The last step of all is a purge of the second slot, or of the first one just before it.
    let latest = [sums.first, sums.first, sums.second, sums.second];
    assert_eq!(rt; floors.as_slice(), latest.as_slice());
    assert!(rt; sums.hits > 0);
    Ok(())
}
