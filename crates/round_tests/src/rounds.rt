// Rounds of views and receipts, by one worker and by several.
use crate::setting::{empty_farm, farm_of_three, heads_at, lines_at, once};
use farm_base::Region;
use farm_core::{Farm, Page};
use region_round::OpenGate;
use revision_keeper::Keeper;
use slot_cache::SlotCache;
use std::alloc::Global;
use std::process::Abort;
use std::test::Fail;
use std::thread::Threads;
use wan_cache::RegionStore;

// Sixteen jobs, and what is answered to their views.
const JOBS: [&str; 16] = [
    "A", "B", "C", "A", "1", "A", "D", "3", "B", "C", "5", "C", "A", "B", "D", "A",
];

const ANSWERS: &str = "\
A 1 ok source=3 from=replica:0 put=whole lagged=0 bytes=55
B 2 ok source=3 from=replica:0 put=whole lagged=0 bytes=55
C 3 ok source=3 from=replica:0 put=whole lagged=0 bytes=55
A 4 ok source=3 from=hit lagged=0 bytes=55
A 5 ok source=3 from=replica:0 put=interim lagged=0 bytes=55
6 no-page source=3
B 7 ok source=3 from=replica:0 put=interim lagged=0 bytes=55
C 8 ok source=3 from=hit lagged=0 bytes=55
C 9 ok source=3 from=replica:0 put=interim lagged=0 bytes=55
A 10 ok source=3 from=interim lagged=0 bytes=55
B 11 ok source=3 from=interim lagged=0 bytes=55
12 no-page source=3
A 13 ok source=3 from=interim lagged=0 bytes=55
";

#[test]
fn one_worker_does_sixteen_jobs_in_their_order(rt: HostRuntime) -> Result<(), Fail> {
    let alloc = rt.alloc();
    let mut farm = farm_of_three(alloc, 1)?;
    does_sixteen(&rt, alloc, &mut farm)
}

#[test]
fn two_workers_answer_as_one_does(rt: HostRuntime) -> Result<(), Fail> {
    let alloc = rt.alloc();
    let mut farm = farm_of_three(alloc, 2)?;
    does_sixteen(&rt, alloc, &mut farm)
}

#[test]
fn eight_workers_answer_as_one_does(rt: HostRuntime) -> Result<(), Fail> {
    let alloc = rt.alloc();
    let mut farm = farm_of_three(alloc, 8)?;
    does_sixteen(&rt, alloc, &mut farm)
}

fn does_sixteen<K: Keeper, R: Threads + Sync + Abort>(
    rt: &R,
    alloc: Global,
    farm: &mut Farm<K, SlotCache<Page>>,
) -> Result<(), Fail> {
    let heads = heads_at(rt, alloc, farm, &JOBS, 21_000, &OpenGate)?;
    assert_eq!(rt; heads.as_str(), ANSWERS);
    received_three(rt, farm)
}

// West has received the three purges at the round's moment.
fn received_three<K: Keeper, S: RegionStore<Page>>(
    rt: &impl Abort,
    farm: &Farm<K, S>,
) -> Result<(), Fail> {
    assert!(rt; farm.is_whole());
    assert_eq!(rt; farm.receipt(1, Region::West), Some(once(21_000)));
    assert_eq!(rt; farm.receipt(3, Region::West), Some(once(21_000)));
    assert_eq!(rt; farm.receipt(5, Region::West), Some(once(21_000)));
    Ok(())
}

#[test]
fn a_round_of_no_jobs_answers_nothing(rt: HostRuntime) -> Result<(), Fail> {
    let alloc = rt.alloc();
    let mut farm = empty_farm(alloc, 8)?;
    does_nothing(&rt, alloc, &mut farm)
}

fn does_nothing<K: Keeper, R: Threads + Sync + Abort>(
    rt: &R,
    alloc: Global,
    farm: &mut Farm<K, SlotCache<Page>>,
) -> Result<(), Fail> {
    let lines = lines_at(rt, alloc, farm, &[], 21_000)?;
    assert_eq!(rt; lines.as_str(), "");
    assert!(rt; farm.is_whole());
    Ok(())
}

#[test]
fn a_need_that_no_replica_reached_is_out_of_memory(rt: HostRuntime) -> Result<(), Fail> {
    let alloc = rt.alloc();
    let mut farm = empty_farm(alloc, 2)?;
    lacks_memory(&rt, alloc, &mut farm)
}

fn lacks_memory<K: Keeper, R: Threads + Sync + Abort>(
    rt: &R,
    alloc: Global,
    farm: &mut Farm<K, SlotCache<Page>>,
) -> Result<(), Fail> {
    let heads = heads_at(rt, alloc, farm, &["A"], 21_000, &OpenGate)?;
    assert_eq!(rt; heads.as_str(), "1 memory\n");
    Ok(())
}
