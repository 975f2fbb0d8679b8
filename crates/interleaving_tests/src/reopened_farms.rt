// A farm over a history that another one left.
use crate::setting::{arrive, both, closed, farm_over, said, saves, small_farm, view_of_a};
use farm_core::{Farm, Page};
use revision_keeper::{Keeper, MemKeeper};
use std::alloc::Global;
use std::process::Abort;
use std::test::Fail;
use wan_cache::RegionStore;

#[test]
fn a_farm_knows_the_young_commits_of_its_history(rt: HostRuntime) -> Result<(), Fail> {
    let alloc = rt.alloc();
    let mut farm = farm_over(alloc, keeper_of_one(alloc)?, both(6_000))?;
    knows_the_position(&rt, alloc, &mut farm)
}

// A keeper of one commit, of `A` at 5,000.
fn keeper_of_one(alloc: Global) -> Result<MemKeeper, Fail> {
    let mut farm = small_farm(alloc)?;
    saves(alloc, &mut farm, both(5_000))?;
    closed(farm)
}

// when the client of the commit views its page, and what it is told; its position is known for a minute
const TOLD: [(u64, &str); 3] = [
    (6_000, "1 lag entry needed=1 reached=0\n"),
    (64_999, "1 lag entry needed=1 reached=0\n"),
    (65_000, ""),
];

fn knows_the_position<K: Keeper, S: RegionStore<Page>>(
    rt: &impl Abort,
    alloc: Global,
    farm: &mut Farm<K, S>,
) -> Result<(), Fail> {
    for (moment, text) in TOLD {
        assert!(rt; arrive(farm, both(moment), 7, view_of_a(alloc, 1)?)?.is_none());
        let told = said(alloc, farm.wait(both(moment), 7, true))?;
        assert_eq!(rt; told.as_str(), text);
    }
    Ok(())
}
