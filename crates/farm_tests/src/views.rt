// A region that renders, stores, hits, purges and waits.
use crate::setting::{beat, first_commit, must, title_of, two_replicas};
use crate::timed_region::{Seen, Stored, TimedRegion};
use farm_base::{Moment, Region};
use page_render::Page;
use region_state::{Behind, Origin, PutNote, Snapped, ViewAsk, Wait};
use replica_apply::Applied;
use std::alloc::Global;
use std::test::Fail;
use sticky_routes::PosCookie;
use wan_cache::{Cause, MapCache, RegionStore};
use wiki_titles::ClientId;

// A region of two replicas that have applied nothing.
fn new_region(alloc: Global) -> Result<TimedRegion<MapCache<Page>>, Fail> {
    let plan = two_replicas(alloc)?;
    let cache = MapCache::new(alloc, 16, 11_000);
    Ok(TimedRegion::new(alloc, &plan, cache)?)
}

// At 2,000 the first replica has the page `A`, of stamp 1,000.
fn open_with_page<S: RegionStore<Page> + Drop>(
    alloc: Global,
    region: &mut TimedRegion<S>,
) -> Result<(), Fail> {
    region.apply_first(1, &first_commit(alloc, 1_000, "one")?)?;
    region.pass(2_000);
    Ok(())
}

// The same, and the page was stored.
fn open_with_hit<S: RegionStore<Page> + Drop>(
    alloc: Global,
    region: &mut TimedRegion<S>,
) -> Result<Snapped, Fail> {
    open_with_page(alloc, region)?;
    let snapped = region.snap(alloc, "A", 1, 0)?;
    region.store(alloc, "A", &snapped)?;
    Ok(snapped)
}

// The view of `A` by client 1, whose cookie tells so many commits of it at this second; 0: no cookie.
fn view_of(alloc: Global, index: u64, seconds: u64) -> Result<ViewAsk, Fail> {
    let client = ClientId::number(1);
    let cookie = if index == 0 {
        None
    } else {
        Some(PosCookie {
            index,
            seconds,
            client,
        })
    };
    Ok(ViewAsk {
        host: Region::West,
        client,
        cookie,
        use_master: false,
        word: 0,
        title: title_of(alloc, "A")?,
    })
}

fn page_from(source: u64, put: PutNote, lagged: bool) -> Stored {
    Stored::Page {
        source,
        origin: Origin::Replica(0),
        put: Some(put),
        lagged,
        bytes: 55,
    }
}

#[test]
fn a_page_is_rendered_once_and_then_hit(rt: HostRuntime) -> Result<(), Fail> {
    let alloc = rt.alloc();
    let mut region = new_region(alloc)?;
    hits(alloc, &mut region)
}

fn hits<S: RegionStore<Page> + Drop>(
    alloc: Global,
    region: &mut TimedRegion<S>,
) -> Result<(), Fail> {
    open_with_page(alloc, region)?;
    must(
        region.look(alloc, "A", 1)? == Seen::Miss(Cause::Absent),
        "nothing is stored",
    )?;
    let snapped = region.snap(alloc, "A", 1, 0)?;
    must(
        snapped.replica == 0 && !snapped.lagged && snapped.snapshot.upto == 1,
        "the first replica has it",
    )?;
    let stored = region.store(alloc, "A", &snapped)?;
    must(
        stored == page_from(1, PutNote::Whole, false),
        "it is stored whole",
    )?;
    must(region.look(alloc, "A", 1)? == Seen::Hit(1), "it is hit")?;
    must(
        region.look(alloc, "A", 2)? == behind_position(),
        "not by a later position",
    )
}

// The page that is stored misses the second entry.
fn behind_position() -> Seen {
    Seen::Miss(Cause::Position { have: 1 })
}

#[test]
fn a_title_without_a_page_is_told_so(rt: HostRuntime) -> Result<(), Fail> {
    let alloc = rt.alloc();
    let mut region = new_region(alloc)?;
    has_no_page(alloc, &mut region)
}

fn has_no_page<S: RegionStore<Page> + Drop>(
    alloc: Global,
    region: &mut TimedRegion<S>,
) -> Result<(), Fail> {
    open_with_page(alloc, region)?;
    let snapped = region.snap(alloc, "B", 1, 0)?;
    let stored = region.store(alloc, "B", &snapped)?;
    must(stored == Stored::NoPage { source: 1 }, "no page")?;
    must(
        region.look(alloc, "B", 0)? == Seen::Miss(Cause::Absent),
        "nothing is stored",
    )
}

#[test]
fn a_purged_title_is_held_off_and_shown_from_the_second_place(rt: HostRuntime) -> Result<(), Fail> {
    let alloc = rt.alloc();
    let mut region = new_region(alloc)?;
    holds_off(alloc, &mut region)
}

fn holds_off<S: RegionStore<Page> + Drop>(
    alloc: Global,
    region: &mut TimedRegion<S>,
) -> Result<(), Fail> {
    let snapped = open_with_hit(alloc, region)?;
    region.receive(alloc, "A")?;
    let floor = Moment(13_000);
    must(
        region.look(alloc, "A", 1)? == Seen::Miss(Cause::Purged { floor }),
        "it is purged",
    )?;
    let stored = region.store(alloc, "A", &snapped)?;
    must(
        stored == page_from(1, PutNote::Interim, false),
        "it is held off",
    )?;
    must(
        region.look(alloc, "A", 1)? == Seen::Interim(1),
        "the second place shows it",
    )
}

#[test]
fn a_purged_template_holds_off_every_title(rt: HostRuntime) -> Result<(), Fail> {
    let alloc = rt.alloc();
    let mut region = new_region(alloc)?;
    holds_all_off(alloc, &mut region)
}

fn holds_all_off<S: RegionStore<Page> + Drop>(
    alloc: Global,
    region: &mut TimedRegion<S>,
) -> Result<(), Fail> {
    open_with_hit(alloc, region)?;
    region.receive(alloc, "Template:B")?;
    let check = Moment(13_000);
    must(
        region.look(alloc, "A", 1)? == Seen::Miss(Cause::Checked { check }),
        "every title is held off",
    )
}

#[test]
fn a_page_is_stored_by_its_age(rt: HostRuntime) -> Result<(), Fail> {
    let alloc = rt.alloc();
    let mut region = new_region(alloc)?;
    ages(alloc, &mut region)
}

fn ages<S: RegionStore<Page> + Drop>(
    alloc: Global,
    region: &mut TimedRegion<S>,
) -> Result<(), Fail> {
    open_with_page(alloc, region)?;
    region.pass(2_000);
    let snapped = region.snap(alloc, "A", 1, 0)?;
    region.pass(5_000);
    let medium = region.store(alloc, "A", &snapped)?;
    must(
        medium == page_from(1, PutNote::NoMedium, false),
        "too old for its lag",
    )?;
    region.pass(3_000);
    let old = region.store(alloc, "A", &snapped)?;
    must(old == page_from(1, PutNote::NoOld, false), "too old at all")
}

#[test]
fn a_lagged_page_is_stored_and_counts_for_what_it_has(rt: HostRuntime) -> Result<(), Fail> {
    let alloc = rt.alloc();
    let mut region = new_region(alloc)?;
    lags(alloc, &mut region)
}

fn lags<S: RegionStore<Page> + Drop>(
    alloc: Global,
    region: &mut TimedRegion<S>,
) -> Result<(), Fail> {
    open_with_page(alloc, region)?;
    region.pass(10_000);
    let snapped = region.snap(alloc, "A", 1, 0)?;
    let stored = region.store(alloc, "A", &snapped)?;
    must(
        stored == page_from(1, PutNote::Lagged, true),
        "it is stored as lagged",
    )?;
    must(region.look(alloc, "A", 1)? == Seen::Hit(1), "it is hit")?;
    must(
        region.look(alloc, "A", 2)? == behind_position(),
        "not by a later position",
    )
}

#[test]
fn a_page_of_another_markup_counts_no_more(rt: HostRuntime) -> Result<(), Fail> {
    let alloc = rt.alloc();
    let mut region = new_region(alloc)?;
    changes_markup(alloc, &mut region)
}

fn changes_markup<S: RegionStore<Page> + Drop>(
    alloc: Global,
    region: &mut TimedRegion<S>,
) -> Result<(), Fail> {
    open_with_hit(alloc, region)?;
    must(region.markup() == 1, "the first markup")?;
    region.set_markup(2);
    must(region.markup() == 2, "the second markup")?;
    must(
        region.look(alloc, "A", 1)? == Seen::Miss(Cause::Version),
        "another version",
    )
}

#[test]
fn a_view_waits_until_its_own_commit_is_heard_of(rt: HostRuntime) -> Result<(), Fail> {
    let alloc = rt.alloc();
    let mut region = new_region(alloc)?;
    waits_for_its_commit(alloc, &mut region)
}

fn waits_for_its_commit<S: RegionStore<Page> + Drop>(
    alloc: Global,
    region: &mut TimedRegion<S>,
) -> Result<(), Fail> {
    open_with_page(alloc, region)?;
    let ask = view_of(alloc, 1, 2)?;
    must(region.wait(&ask, 2_000, false) == Wait::Stay, "it waits")?;
    must(
        region.wait(&ask, 2_000, true) == lag_by(Behind::Index, 1, 0),
        "or gives up",
    )?;
    region.hear(1, 1)?;
    must(
        region.wait(&ask, 2_000, false) == Wait::Go { need: 1 },
        "it goes on",
    )?;
    let bare = view_of(alloc, 0, 0)?;
    must(
        region.wait(&bare, 2_000, false) == Wait::Go { need: 1 },
        "also without its cookie",
    )
}

fn lag_by(by: Behind, needed: u64, reached: u64) -> Wait {
    Wait::Lag {
        by,
        needed,
        reached,
    }
}

#[test]
fn a_view_waits_until_a_replica_has_its_entry(rt: HostRuntime) -> Result<(), Fail> {
    let alloc = rt.alloc();
    let mut region = new_region(alloc)?;
    waits_for_a_replica(alloc, &mut region)
}

fn waits_for_a_replica<S: RegionStore<Page> + Drop>(
    alloc: Global,
    region: &mut TimedRegion<S>,
) -> Result<(), Fail> {
    open_with_page(alloc, region)?;
    let ask = view_of(alloc, 0, 0)?;
    region.hear(1, 2)?;
    must(region.wait(&ask, 2_000, false) == Wait::Stay, "it waits")?;
    region.pass(4_999);
    must(
        region.wait(&ask, 2_000, false) == Wait::Stay,
        "up to the limit",
    )?;
    region.pass(1);
    must(
        region.wait(&ask, 2_000, false) == lag_by(Behind::Entry, 2, 1),
        "and gives up there",
    )?;
    must(
        region.apply_first(2, &beat(3_000))? == Applied::Applied,
        "the entry is applied",
    )?;
    must(
        region.wait(&ask, 2_000, false) == Wait::Go { need: 2 },
        "it goes on",
    )
}
