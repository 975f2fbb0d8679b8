// A region over a keeper: entries that it applies, positions that it takes at its opening, edits, and its cache.
use crate::desk::{Desk, moment_from};
use crate::setting::{edit_of, must, title_of, two_replicas};
use chronology_store::ClientCommit;
use edit_core::{Begun, CommitOutcome, EditAsk, EditRefusal};
use farm_base::{Bounds, Moment, Region};
use page_render::Page;
use purge_relay::{Issued, Ledger};
use region_state::{RegionState, SnapTerms, ViewAsk, Wait, young_commits};
use revision_keeper::{Keeper, MemKeeper};
use std::alloc::Global;
use std::test::Fail;
use wan_cache::{MapCache, RegionStore};
use wiki_titles::ClientId;

fn new_region(alloc: Global) -> Result<RegionState<MapCache<Page>>, Fail> {
    let plan = two_replicas(alloc)?;
    let cache = MapCache::new(alloc, 16, 11_000);
    match RegionState::new(alloc, &plan, Moment(0), cache, Bounds::DEFAULT) {
        Ok(region) => Ok(region),
        Err(_) => Err(Fail::new("no region")),
    }
}

// The first commits of client 1 and of client 2, at 20,000 and at 90,000.
fn save_two<K: Keeper + Drop>(alloc: Global, desk: &mut Desk<K>) -> Result<(), Fail> {
    desk.save(edit_of(alloc, 1, "t1", 0, "one")?, 20_000)?;
    desk.save(edit_of(alloc, 2, "t1", 1, "two")?, 90_000)?;
    Ok(())
}

// Hands the next entries to a replica that is there.
fn apply<K: Keeper, S: RegionStore<Page>>(
    region: &mut RegionState<S>,
    keeper: &mut K,
    replica: u8,
    count: u32,
) -> Result<(), Fail> {
    if region.replicas() <= replica {
        return Err(Fail::new("no such replica"));
    }
    region.apply(keeper, replica, count)?;
    Ok(())
}

// What becomes of a view of `A` by this client that arrives at this moment.
fn waits<S: RegionStore<Page>>(
    alloc: Global,
    region: &RegionState<S>,
    client: u64,
    at: u64,
) -> Result<Wait, Fail> {
    let ask = ViewAsk {
        host: Region::Home,
        client: ClientId::number(client),
        cookie: None,
        use_master: false,
        word: 0,
        title: title_of(alloc, "A")?,
    };
    Ok(region.wait(&ask, Moment(at), Moment(at), false))
}

#[test]
fn a_replica_applies_what_the_keeper_has_and_no_more(rt: HostRuntime) -> Result<(), Fail> {
    let alloc = rt.alloc();
    let mut desk = Desk::new(alloc, MemKeeper::new(alloc));
    let mut region = new_region(alloc)?;
    applies_what_there_is(alloc, &mut desk, &mut region)
}

fn applies_what_there_is<K: Keeper + Drop, S: RegionStore<Page>>(
    alloc: Global,
    desk: &mut Desk<K>,
    region: &mut RegionState<S>,
) -> Result<(), Fail> {
    save_two(alloc, desk)?;
    must(region.replicas() == 2, "two replicas")?;
    apply(region, &mut desk.keeper, 0, 1)?;
    must(upto(alloc, region)? == 1, "one of the two entries")?;
    apply(region, &mut desk.keeper, 0, 10)?;
    must(upto(alloc, region)? == 2, "both and no more")
}

// How many entries the replica has that is drawn by the word 0.
fn upto<S: RegionStore<Page>>(alloc: Global, region: &RegionState<S>) -> Result<u64, Fail> {
    let title = title_of(alloc, "A")?;
    let terms = SnapTerms {
        need: 0,
        word: 0,
        pending: false,
    };
    let snapped = region.snap(alloc, &title, terms, Moment(90_000))?;
    Ok(snapped.snapshot.upto)
}

#[test]
fn the_young_commits_are_taken_at_an_opening(rt: HostRuntime) -> Result<(), Fail> {
    let alloc = rt.alloc();
    let mut desk = Desk::new(alloc, MemKeeper::new(alloc));
    let mut region = new_region(alloc)?;
    save_two(alloc, &mut desk)?;
    opens(alloc, &mut desk.keeper, &mut region)
}

fn opens<K: Keeper, S: RegionStore<Page>>(
    alloc: Global,
    keeper: &mut K,
    region: &mut RegionState<S>,
) -> Result<(), Fail> {
    let commits = young_commits(alloc, keeper, Moment(90_000))?;
    must(
        commits.as_slice() == [second_commit()].as_slice(),
        "the second commit alone",
    )?;
    region.rebuild(&commits)?;
    must(
        waits(alloc, region, 1, 90_000)? == Wait::Go { need: 0 },
        "no position of client 1",
    )?;
    must(
        waits(alloc, region, 2, 90_000)? == Wait::Stay,
        "client 2 waits for its commit",
    )?;
    apply(region, keeper, 1, 2)?;
    must(
        waits(alloc, region, 2, 90_000)? == Wait::Go { need: 2 },
        "it is applied",
    )
}

fn second_commit() -> ClientCommit {
    ClientCommit {
        client: ClientId::number(2),
        index: 1,
        entry: 2,
        stamp: Moment(90_000),
    }
}

#[test]
fn a_position_counts_for_its_life_and_no_longer(rt: HostRuntime) -> Result<(), Fail> {
    let alloc = rt.alloc();
    let mut desk = Desk::new(alloc, MemKeeper::new(alloc));
    save_two(alloc, &mut desk)?;
    ages(alloc, &mut desk.keeper)
}

fn ages<K: Keeper>(alloc: Global, keeper: &mut K) -> Result<(), Fail> {
    must(
        young_commits(alloc, keeper, Moment(79_999))?.len() == 2,
        "both count",
    )?;
    must(
        young_commits(alloc, keeper, Moment(80_000))?.len() == 1,
        "the second counts",
    )?;
    must(
        young_commits(alloc, keeper, Moment(150_000))?.len() == 0,
        "none counts",
    )
}

#[test]
fn an_edit_at_home_is_known_there_at_once(rt: HostRuntime) -> Result<(), Fail> {
    let alloc = rt.alloc();
    let mut keeper = MemKeeper::new(alloc);
    let mut region = new_region(alloc)?;
    edits_at_home(alloc, &mut keeper, &mut region)
}

fn edits_at_home<K: Keeper, S: RegionStore<Page>>(
    alloc: Global,
    keeper: &mut K,
    region: &mut RegionState<S>,
) -> Result<(), Fail> {
    let mut ledger = Ledger::new(alloc);
    let ask = edit_of(alloc, 1, "t1", 0, "one")?;
    let outcome = edit_late(region, keeper, &mut ledger, ask, 20_000)?;
    must(outcome.note.entry == 1, "it is the first entry")?;
    must(
        outcome.second_purge == Some(second_issued()),
        "it is purged again",
    )?;
    must(
        waits(alloc, region, 1, 22_000)? == Wait::Stay,
        "home knows its position",
    )?;
    region.sweep(Moment(22_000));
    apply(region, keeper, 0, 1)?;
    must(
        waits(alloc, region, 1, 22_000)? == Wait::Go { need: 1 },
        "it is applied",
    )
}

fn second_issued() -> Issued {
    Issued {
        purge: 2,
        message: 2,
    }
}

// Begins an edit at this moment and commits it two seconds later, one after it was due, through home's region.
fn edit_late<K: Keeper, S: RegionStore<Page>>(
    region: &mut RegionState<S>,
    keeper: &mut K,
    ledger: &mut Ledger,
    ask: EditAsk,
    at: u64,
) -> Result<CommitOutcome, EditRefusal> {
    let at = Moment(at.min(1_000_000));
    match region.begin(keeper, ledger, ask, at, 1_000)? {
        Begun::Already(note) => Ok(CommitOutcome {
            note,
            second_purge: None,
        }),
        Begun::Started(edit) => {
            let at = moment_from(keeper, at.0 + 2_000)?;
            region.commit(keeper, ledger, edit, at)
        }
    }
}

#[test]
fn a_cache_is_lent_and_given_back(rt: HostRuntime) -> Result<(), Fail> {
    lends(new_region(rt.alloc())?)
}

fn lends<S: RegionStore<Page> + Drop>(mut region: RegionState<S>) -> Result<(), Fail> {
    must(region.has_cache(), "the cache is there")?;
    let Some(cache) = region.lend_cache() else {
        return Err(Fail::new("no cache to lend"));
    };
    must(
        !region.has_cache() && region.lend_cache().is_none(),
        "it is away",
    )?;
    must(cache.hold_off() == 11_000, "it is that cache")?;
    must(region.take_cache(cache).is_none(), "none was there")?;
    must(region.into_cache().is_some(), "it is back")
}
