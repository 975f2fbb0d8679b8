// Jobs that can only end well if they are done side by side.
use crate::setting::{farm_of_three, heads_at};
use farm_core::{Farm, Page};
use region_round::Gate;
use revision_keeper::Keeper;
use slot_cache::SlotCache;
use std::alloc::Global;
use std::process::Abort;
use std::sync::atomic::Ordering::SeqCst;
use std::sync::atomic::{AtomicBool, AtomicU64};
use std::test::Fail;
use std::thread::Threads;

// How often a job looks whether the other has come.
const TURNS: u64 = 1_000_000_000;

/// A gate at which the first two jobs wait for each other.
#[derive(Drop)]
struct Meeting {
    first: AtomicBool,
    second: AtomicBool,
    /// How many of them saw the other.
    met: AtomicU64,
}

impl Gate for Meeting {
    fn pass(&self, job: usize) {
        match job {
            0 => meet(&self.first, &self.second, &self.met),
            1 => meet(&self.second, &self.first, &self.met),
            _ => {}
        }
    }
}

fn meet(own: &AtomicBool, other: &AtomicBool, met: &AtomicU64) {
    own.store(true, SeqCst);
    if is_raised(other) {
        met.fetch_add(1, SeqCst);
    }
}

fn is_raised(flag: &AtomicBool) -> bool {
    for _ in 0..TURNS {
        if flag.load(SeqCst) {
            return true;
        }
    }
    false
}

#[test]
fn two_workers_have_two_views_at_once(rt: HostRuntime) -> Result<(), Fail> {
    let alloc = rt.alloc();
    let mut farm = farm_of_three(alloc, 2)?;
    meets(&rt, alloc, &mut farm)
}

fn meets<K: Keeper, R: Threads + Sync + Abort>(
    rt: &R,
    alloc: Global,
    farm: &mut Farm<K, SlotCache<Page>>,
) -> Result<(), Fail> {
    let gate = Meeting {
        first: AtomicBool::new(false),
        second: AtomicBool::new(false),
        met: AtomicU64::new(0),
    };
    let heads = heads_at(rt, alloc, farm, &["A", "B"], 21_000, &gate)?;
    assert_eq!(rt; gate.met.load(SeqCst), 2);
    assert_eq!(rt;
        heads.as_str(),
        "\
A 1 ok source=3 from=replica:0 put=whole lagged=0 bytes=55
B 2 ok source=3 from=replica:0 put=whole lagged=0 bytes=55
"
    );
    Ok(())
}
