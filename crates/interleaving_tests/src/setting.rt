// A small farm, requests, and steps whose conditions are looked at first.
use drill_script::{Script, read_script, report_line};
use edit_core::EditAsk;
use farm_base::{BOUND_MAX, Moment, Readings, Region};
use farm_core::{Answer, Asked, Farm, Page, ViewAsk};
use purge_relay::{Body, Receipt};
use revision_keeper::{Keeper, MemKeeper};
use std::alloc::Global;
use std::str;
use std::test::Fail;
use wan_cache::{MapCache, RegionStore};
use wiki_titles::{ClientId, Text, Title, Token};

/// The farm of these tests.
pub type TestFarm = Farm<MemKeeper, MapCache<Page>>;

/// A farm of the default plan over this keeper. Each region has one replica.
pub fn farm_over(alloc: Global, keeper: MemKeeper, at: Readings) -> Result<TestFarm, Fail> {
    let Script { plan, .. } = read_script(alloc, b"end\n")?;
    let hold_off = plan.bounds.hold_off();
    let weights = plan.home.weights.as_slice().len().wrapping_sub(1) < 8
        && plan.west.weights.as_slice().len().wrapping_sub(1) < 8;
    if !weights || plan.bounds.commit_delay > BOUND_MAX || hold_off == 0 || hold_off > 180_000 {
        return Err(Fail::new("no plan of a farm"));
    }
    let home = MapCache::new(alloc, 65_536, hold_off);
    let west = MapCache::new(alloc, 65_536, hold_off);
    match Farm::new(alloc, keeper, plan, home, west, at) {
        Ok(farm) => Ok(farm),
        Err(_) => Err(Fail::new("no farm")),
    }
}

/// A farm over an empty keeper, by the plan of this crate, opened at the moment 0.
pub fn small_farm(alloc: Global) -> Result<TestFarm, Fail> {
    farm_over(alloc, MemKeeper::new(alloc), both(0))
}

/// Both clocks read this.
pub fn both(milliseconds: u64) -> Readings {
    Readings {
        home: Moment(milliseconds),
        west: Moment(milliseconds),
    }
}

/// A purge that was received once.
pub fn once(milliseconds: u64) -> Receipt {
    Receipt {
        first: Moment(milliseconds),
        last: Moment(milliseconds),
    }
}

/// The edit of `A` by client 1, to the text `one`.
pub fn edit_of_a(alloc: Global) -> Result<Asked, Fail> {
    Ok(Asked::Edit(EditAsk {
        client: ClientId::number(1),
        token: Token::parse(alloc, "t1")?,
        title: Title::parse(alloc, "A")?,
        base: 0,
        text: Text::parse(alloc, "one")?,
    }))
}

/// A view of `A` at home by this client, without a cookie.
pub fn view_of_a(alloc: Global, client: u64) -> Result<Asked, Fail> {
    Ok(Asked::View(ViewAsk {
        host: Region::Home,
        client: ClientId::number(client),
        cookie: None,
        use_master: false,
        word: 0,
        title: Title::parse(alloc, "A")?,
    }))
}

/// The line that a report has of the answer, as line 1; empty if there is none.
pub fn said(alloc: Global, answer: Option<Answer>) -> Result<String, Fail> {
    match answer {
        None => Ok(String::new(alloc)),
        Some(answer) => {
            let line = report_line(alloc, 1, &answer, false)?;
            Ok(String::from_str(alloc, str::from_utf8(line.as_slice())?)?)
        }
    }
}

fn not_ready() -> Fail {
    Fail::new("the step's condition does not hold")
}

/// The edit of `A` is saved at this moment; no message of it was sent.
pub fn saves<K: Keeper, S: RegionStore<Page>>(
    alloc: Global,
    farm: &mut Farm<K, S>,
    at: Readings,
) -> Result<String, Fail> {
    arrive(farm, at, 1, edit_of_a(alloc)?)?;
    begin(farm, at, 1)?;
    said(alloc, commit(farm, at, 1)?)
}

/// A request with this id arrives; fails if one with the id is open.
pub fn arrive<K: Keeper, S: RegionStore<Page>>(
    farm: &mut Farm<K, S>,
    at: Readings,
    id: u64,
    asked: Asked,
) -> Result<Option<Answer>, Fail> {
    if farm.is_open(id) {
        Err(not_ready())
    } else {
        Ok(farm.arrive(at, id, asked))
    }
}

/// Begins the edit with this id; fails if a cache is lent.
pub fn begin<K: Keeper, S: RegionStore<Page>>(
    farm: &mut Farm<K, S>,
    at: Readings,
    id: u64,
) -> Result<Option<Answer>, Fail> {
    if farm.is_whole() {
        Ok(farm.begin(at, id))
    } else {
        Err(not_ready())
    }
}

/// Commits the edit with this id; fails if a cache is lent.
pub fn commit<K: Keeper, S: RegionStore<Page>>(
    farm: &mut Farm<K, S>,
    at: Readings,
    id: u64,
) -> Result<Option<Answer>, Fail> {
    if farm.is_whole() {
        Ok(farm.commit(at, id))
    } else {
        Err(not_ready())
    }
}

/// Looks for the page of the view with this id; fails if a cache is lent.
pub fn look<K: Keeper, S: RegionStore<Page>>(
    farm: &mut Farm<K, S>,
    at: Readings,
    id: u64,
) -> Result<Option<Answer>, Fail> {
    if farm.is_whole() {
        Ok(farm.look(at, id))
    } else {
        Err(not_ready())
    }
}

/// Stores the page of the view with this id; fails if a cache is lent.
pub fn store<K: Keeper, S: RegionStore<Page>>(
    alloc: Global,
    farm: &mut Farm<K, S>,
    at: Readings,
    id: u64,
) -> Result<Option<Answer>, Fail> {
    if farm.is_whole() {
        Ok(farm.store(alloc, at, id))
    } else {
        Err(not_ready())
    }
}

/// Carries the message of this number to west, by this body if one is shown; fails if a cache is lent.
pub fn carry<K: Keeper, S: RegionStore<Page>>(
    farm: &mut Farm<K, S>,
    at: Readings,
    number: u64,
    shown: Option<&Body>,
) -> Result<Option<Answer>, Fail> {
    if farm.is_whole() {
        Ok(farm.carry(at, number, shown))
    } else {
        Err(not_ready())
    }
}

/// Applies entries to the first replica of a region.
pub fn apply<K: Keeper, S: RegionStore<Page>>(
    farm: &mut Farm<K, S>,
    at: Readings,
    region: Region,
    count: u32,
) -> Result<Option<Answer>, Fail> {
    if 0 < farm.replicas(region) {
        Ok(farm.apply(at, region, 0, count))
    } else {
        Err(not_ready())
    }
}

/// The keeper of a farm that is done with.
pub fn closed<K: Keeper + Drop, S: RegionStore<Page> + Drop>(farm: Farm<K, S>) -> Result<K, Fail> {
    if !farm.is_whole() {
        return Err(not_ready());
    }
    let (keeper, _, _) = farm.close();
    Ok(keeper)
}
