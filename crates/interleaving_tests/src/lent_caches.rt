// A cache that is lent to a round, and given back.
use crate::setting::{TestFarm, both, once, saves, small_farm};
use farm_base::{Moment, Region};
use farm_core::Lent;
use std::alloc::Global;
use std::process::Abort;
use std::test::Fail;
use wan_cache::MapCache;

#[test]
fn a_cache_is_given_back_with_what_its_round_received(rt: HostRuntime) -> Result<(), Fail> {
    let mut farm = small_farm(rt.alloc())?;
    lends(&rt, rt.alloc(), &mut farm)
}

// An empty cache is given back in place of the one that was lent.
fn lends(rt: &impl Abort, alloc: Global, farm: &mut TestFarm) -> Result<(), Fail> {
    saves(alloc, farm, both(20_000))?;
    if !farm.is_whole() {
        return Err(Fail::new("a cache is lent"));
    }
    let Lent { now, .. } = farm.lend(Region::West, both(21_000));
    assert!(rt; !farm.is_whole());
    assert_eq!(rt; now, Moment(21_000));
    let cache = MapCache::new(alloc, 65_536, 16_000);
    farm.give_back(Region::West, Lent { cache, now }, &[1], true);
    assert!(rt; farm.is_whole());
    assert_eq!(rt; farm.receipt(1, Region::West), Some(once(21_000)));
    Ok(())
}
