// Steps of which a script shows less, and steps that it has no form for.
use crate::setting::{
    apply, arrive, both, carry, look, once, said, saves, small_farm, store, view_of_a,
};
use farm_base::{Moment, Region};
use farm_core::{Farm, Page};
use purge_relay::Body;
use revision_keeper::Keeper;
use std::alloc::Global;
use std::process::Abort;
use std::test::Fail;
use wan_cache::RegionStore;
use wiki_titles::Title;

#[test]
fn a_view_goes_on_step_by_step(rt: HostRuntime) -> Result<(), Fail> {
    let mut farm = small_farm(rt.alloc())?;
    views(&rt, rt.alloc(), &mut farm)
}

const STORED: &str = "\
1 ok source=1 from=replica:0 put=interim lagged=0 bytes=55
<!DOCTYPE html>
<title>A</title>
<h1>A</h1>
<p>one</p>
";

const FOUND: &str = "\
1 ok source=1 from=interim lagged=0 bytes=55
<!DOCTYPE html>
<title>A</title>
<h1>A</h1>
<p>one</p>
";

fn views<K: Keeper, S: RegionStore<Page>>(
    rt: &impl Abort,
    alloc: Global,
    farm: &mut Farm<K, S>,
) -> Result<(), Fail> {
    let at = both(20_000);
    assert_eq!(rt;
        saves(alloc, farm, at)?.as_str(),
        "1 saved entry=1 revision=1 cookie=1@20\n"
    );
    assert!(rt; apply(farm, at, Region::Home, 1)?.is_none());
    assert!(rt; arrive(farm, at, 7, view_of_a(alloc, 2)?)?.is_none());
    assert!(rt; farm.wait(at, 7, false).is_none());
    let missed = said(alloc, look(farm, at, 7)?)?;
    assert_eq!(rt; missed.as_str(), "1 miss purged:31000\n");
    assert!(rt; farm.snap(alloc, at, 7).is_none());
    assert_eq!(rt; said(alloc, store(alloc, farm, at, 7)?)?.as_str(), STORED);
    assert!(rt; arrive(farm, at, 8, view_of_a(alloc, 2)?)?.is_none());
    assert!(rt; farm.wait(at, 8, true).is_none());
    assert_eq!(rt; said(alloc, look(farm, at, 8)?)?.as_str(), FOUND);
    Ok(())
}

#[test]
fn a_view_that_has_waited_tells_its_need(rt: HostRuntime) -> Result<(), Fail> {
    let mut farm = small_farm(rt.alloc())?;
    tells_the_need(&rt, rt.alloc(), &mut farm)
}

fn tells_the_need<K: Keeper, S: RegionStore<Page>>(
    rt: &impl Abort,
    alloc: Global,
    farm: &mut Farm<K, S>,
) -> Result<(), Fail> {
    assert!(rt; arrive(farm, both(0), 7, view_of_a(alloc, 2)?)?.is_none());
    assert!(rt; farm.wait(both(0), 7, true).is_none());
    assert_eq!(rt; farm.need(both(0), 7), Some(0));
    assert_eq!(rt; farm.need(both(0), 7), None);
    assert!(rt; !farm.is_open(7));
    Ok(())
}

#[test]
fn a_message_is_carried_if_the_body_shown_is_its_own(rt: HostRuntime) -> Result<(), Fail> {
    let mut farm = small_farm(rt.alloc())?;
    carries(&rt, rt.alloc(), &mut farm)
}

fn carries<K: Keeper, S: RegionStore<Page>>(
    rt: &impl Abort,
    alloc: Global,
    farm: &mut Farm<K, S>,
) -> Result<(), Fail> {
    saves(alloc, farm, both(20_000))?;
    let body = Body::Purge {
        purge: 1,
        title: Title::parse(alloc, "A")?,
        issued: Moment(20_000),
    };
    carries_by(rt, alloc, farm, &body)
}

fn carries_by<K: Keeper, S: RegionStore<Page>>(
    rt: &impl Abort,
    alloc: Global,
    farm: &mut Farm<K, S>,
    body: &Body,
) -> Result<(), Fail> {
    let refused = said(alloc, carry(farm, both(20_500), 2, Some(body))?)?;
    assert_eq!(rt; refused.as_str(), "1 unknown message=2\n");
    assert!(rt; farm.receipt(1, Region::West).is_none());
    assert!(rt; carry(farm, both(21_000), 1, Some(body))?.is_none());
    assert_eq!(rt; farm.receipt(1, Region::West), Some(once(21_000)));
    assert!(rt; carry(farm, both(22_000), 2, None)?.is_none());
    Ok(())
}
