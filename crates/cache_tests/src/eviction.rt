// What a full cache forgets.
use crate::setting::title_of;
use crate::timed::{Seen, Timed};
use farm_base::Moment;
use std::alloc::Global;
use std::process::Abort;
use std::test::Fail;
use wan_cache::{Cause, MapCache, Put};
use wiki_titles::Title;

fn one_key(alloc: Global) -> Timed<MapCache<u64>> {
    Timed::new(MapCache::new(alloc, 1, 11_000))
}

#[test]
fn a_live_floor_outlives_its_key(rt: HostRuntime) -> Result<(), Fail> {
    let purged = title_of(rt.alloc(), 1)?;
    let stored = title_of(rt.alloc(), 2)?;
    outlives(&rt, rt.alloc(), &purged, &stored)
}

fn outlives(rt: &impl Abort, alloc: Global, purged: &Title, stored: &Title) -> Result<(), Fail> {
    let mut cache = one_key(alloc);
    assert_eq!(rt; cache.hold_off(), 11_000);
    cache.pass(2_000);
    cache.purge(purged);
    cache.pass(1_000);
    assert_eq!(rt; cache.put(alloc, stored, 1, false)?, Put::Interim);
    cache.pass(9_999);
    assert_eq!(rt; cache.now(), Moment(12_999));
    let floor = Moment(13_000);
    assert_eq!(rt; cache.look(purged, 0), Seen::Miss(Cause::Purged { floor }));
    cache.pass(1);
    assert_eq!(rt; cache.look(purged, 0), Seen::Miss(Cause::Absent));
    Ok(())
}
