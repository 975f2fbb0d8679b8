// Calls that are no step.
use crate::setting::{arrive, begin, both, closed, edit_of_a, once, saves, small_farm};
use farm_base::{Moment, Region};
use farm_core::{Farm, Page};
use revision_keeper::{Keeper, MemKeeper};
use std::alloc::Global;
use std::process::Abort;
use std::test::Fail;
use wan_cache::RegionStore;
use wiki_titles::Title;

#[test]
fn a_begun_edit_is_pending_at_home_and_its_purge_received(rt: HostRuntime) -> Result<(), Fail> {
    let mut farm = small_farm(rt.alloc())?;
    begins(&rt, rt.alloc(), &mut farm)
}

fn begins<K: Keeper, S: RegionStore<Page>>(
    rt: &impl Abort,
    alloc: Global,
    farm: &mut Farm<K, S>,
) -> Result<(), Fail> {
    assert!(rt; arrives(alloc, farm)? && begins_at_once(farm)?);
    assert!(rt; farm.is_open(1) && !farm.is_open(2));
    is_pending_at_home(rt, alloc, farm)?;
    assert_eq!(rt; farm.issued(), 1);
    assert!(rt; farm.message(1).is_some() && farm.message(2).is_none());
    assert_eq!(rt; farm.receipt(1, Region::Home), Some(once(20_000)));
    assert!(rt; farm.receipt(1, Region::West).is_none());
    Ok(())
}

fn arrives<K: Keeper, S: RegionStore<Page>>(
    alloc: Global,
    farm: &mut Farm<K, S>,
) -> Result<bool, Fail> {
    Ok(arrive(farm, both(20_000), 1, edit_of_a(alloc)?)?.is_none())
}

fn begins_at_once<K: Keeper, S: RegionStore<Page>>(farm: &mut Farm<K, S>) -> Result<bool, Fail> {
    Ok(begin(farm, both(20_000), 1)?.is_none())
}

fn is_pending_at_home<K: Keeper, S: RegionStore<Page>>(
    rt: &impl Abort,
    alloc: Global,
    farm: &Farm<K, S>,
) -> Result<(), Fail> {
    let title = Title::parse(alloc, "A")?;
    assert!(rt; farm.pending(Region::Home, &title) && !farm.pending(Region::West, &title));
    Ok(())
}

#[test]
fn messages_are_sent_and_dropped(rt: HostRuntime) -> Result<(), Fail> {
    let mut farm = small_farm(rt.alloc())?;
    sends_and_drops(&rt, rt.alloc(), &mut farm)
}

fn sends_and_drops<K: Keeper, S: RegionStore<Page>>(
    rt: &impl Abort,
    alloc: Global,
    farm: &mut Farm<K, S>,
) -> Result<(), Fail> {
    saves(alloc, farm, both(20_000))?;
    assert_eq!(rt; farm.issued(), 2);
    assert_eq!(rt; farm.first_unsent(), Some(1));
    farm.mark_sent(1);
    assert_eq!(rt; farm.first_unsent(), Some(2));
    assert!(rt; farm.drop_message(both(20_000), 2).is_none());
    assert!(rt; farm.is_dropped(2) && !farm.is_dropped(1));
    farm.mark_sent(2);
    assert_eq!(rt; farm.first_unsent(), None);
    Ok(())
}

#[test]
fn entries_are_told_and_the_keeper_is_handed_back(rt: HostRuntime) -> Result<(), Fail> {
    let mut keeper = told_and_closed(&rt, rt.alloc())?;
    has_entries(&rt, &mut keeper, 2)
}

fn told_and_closed(rt: &impl Abort, alloc: Global) -> Result<MemKeeper, Fail> {
    let mut farm = small_farm(alloc)?;
    tells_entries(rt, alloc, &mut farm)?;
    closed(farm)
}

fn has_entries<K: Keeper>(rt: &impl Abort, keeper: &mut K, count: u64) -> Result<(), Fail> {
    assert_eq!(rt; keeper.len()?, count);
    Ok(())
}

fn tells_entries<K: Keeper, S: RegionStore<Page>>(
    rt: &impl Abort,
    alloc: Global,
    farm: &mut Farm<K, S>,
) -> Result<(), Fail> {
    saves(alloc, farm, both(20_000))?;
    assert_eq!(rt; farm.entries()?, 1);
    assert_eq!(rt; farm.last_beat(), None);
    assert!(rt; farm.beat(both(30_000)).is_none());
    assert_eq!(rt; farm.entries()?, 2);
    assert_eq!(rt; farm.last_beat(), Some(Moment(30_000)));
    for (number, is_there) in [(0, false), (1, true), (2, true), (3, false)] {
        assert_eq!(rt; has_entry(farm, number)?, is_there);
    }
    Ok(())
}

fn has_entry<K: Keeper, S: RegionStore<Page>>(
    farm: &mut Farm<K, S>,
    number: u64,
) -> Result<bool, Fail> {
    Ok(farm.entry(number)?.is_some())
}

#[test]
fn clocks_go_forwards_only_and_the_markup_is_set(rt: HostRuntime) -> Result<(), Fail> {
    let mut farm = small_farm(rt.alloc())?;
    sets_the_markup(&rt, &mut farm);
    Ok(())
}

fn sets_the_markup<K: Keeper, S: RegionStore<Page>>(rt: &impl Abort, farm: &mut Farm<K, S>) {
    assert_eq!(rt; farm.markup(), 1);
    assert_eq!(rt; farm.plan().workers, 1);
    assert_eq!(rt; farm.replicas(Region::Home), 1);
    assert_eq!(rt; farm.replicas(Region::West), 1);
    farm.set_markup(both(500), 2);
    assert_eq!(rt; farm.markup(), 2);
    assert_eq!(rt; farm.moment(Region::West), Moment(500));
    farm.set_markup(both(400), 2);
    assert_eq!(rt; farm.moment(Region::Home), Moment(500));
}
