// A farm whose west has applied three edits, jobs, and a round whose conditions are looked at first.
use drill_script::{Script, read_script, report_head, report_line};
use edit_core::EditAsk;
use farm_base::{BOUND_MAX, Moment, Readings, Region};
use farm_core::{Answer, Asked, Farm, Page};
use purge_relay::Receipt;
use region_round::{Gate, JOBS_MAX, Job, OpenGate, RoundAsk, ViewJob, are_proper, round};
use revision_keeper::{Keeper, MemKeeper};
use slot_cache::SlotCache;
use std::alloc::Global;
use std::str;
use std::test::Fail;
use std::thread::Threads;
use wan_cache::RegionStore;
use wiki_titles::{ClientId, Text, Title, Token};

/// The farm of these tests.
pub type TestFarm = Farm<MemKeeper, SlotCache<Page>>;

fn not_ready() -> Fail {
    Fail::new("the condition of a call does not hold")
}

/// Both clocks read this.
pub fn both(milliseconds: u64) -> Readings {
    Readings {
        home: Moment(milliseconds),
        west: Moment(milliseconds),
    }
}

/// A purge that was received once.
pub fn once(milliseconds: u64) -> Receipt {
    Receipt {
        first: Moment(milliseconds),
        last: Moment(milliseconds),
    }
}

/// An empty farm of the default plan, whose rounds are done by this many workers. Each region has one replica.
pub fn empty_farm(alloc: Global, workers: u8) -> Result<TestFarm, Fail> {
    let Script { mut plan, .. } = read_script(alloc, b"end\n")?;
    plan.workers = workers;
    let hold_off = plan.bounds.hold_off();
    let weights = plan.home.weights.as_slice().len().wrapping_sub(1) < 8
        && plan.west.weights.as_slice().len().wrapping_sub(1) < 8;
    if !weights || plan.bounds.commit_delay > BOUND_MAX || hold_off == 0 || hold_off > 180_000 {
        return Err(Fail::new("no plan of a farm"));
    }
    let home = SlotCache::new(alloc, 65_536, hold_off)?;
    let west = SlotCache::new(alloc, 65_536, hold_off)?;
    match Farm::new(alloc, MemKeeper::new(alloc), plan, home, west, both(0)) {
        Ok(farm) => Ok(farm),
        Err(_) => Err(Fail::new("no farm")),
    }
}

/// A farm where `A`, `B` and `C` were saved at 20,000 with the texts `one`, `two` and `six`, and which west's replica
/// has applied. Their purges are the messages 1, 3 and 5, which west did not receive.
pub fn farm_of_three(alloc: Global, workers: u8) -> Result<TestFarm, Fail> {
    let mut farm = empty_farm(alloc, workers)?;
    save_three(alloc, &mut farm)?;
    Ok(farm)
}

fn save_three<K: Keeper, S: RegionStore<Page>>(
    alloc: Global,
    farm: &mut Farm<K, S>,
) -> Result<(), Fail> {
    save(alloc, farm, "A", "one")?;
    save(alloc, farm, "B", "two")?;
    save(alloc, farm, "C", "six")?;
    apply(farm, 3)
}

/// Saves the first text of a page at 20,000. Its title is its token.
fn save<K: Keeper, S: RegionStore<Page>>(
    alloc: Global,
    farm: &mut Farm<K, S>,
    title: &str,
    text: &str,
) -> Result<(), Fail> {
    let asked = Asked::Edit(EditAsk {
        client: ClientId::number(1),
        token: Token::parse(alloc, title)?,
        title: Title::parse(alloc, title)?,
        base: 0,
        text: Text::parse(alloc, text)?,
    });
    if farm.is_open(1) {
        return Err(not_ready());
    }
    if farm.arrive(both(20_000), 1, asked).is_some() {
        return Err(Fail::new("the edit did not arrive"));
    }
    commit(farm)
}

fn commit<K: Keeper, S: RegionStore<Page>>(farm: &mut Farm<K, S>) -> Result<(), Fail> {
    if !farm.is_whole() {
        return Err(not_ready());
    }
    if farm.begin(both(20_000), 1).is_some() {
        return Err(Fail::new("the edit did not begin"));
    }
    if !farm.is_whole() {
        return Err(not_ready());
    }
    match farm.commit(both(20_000), 1) {
        Some(Answer::Saved(_)) => Ok(()),
        _ => Err(Fail::new("the edit was not saved")),
    }
}

/// Applies entries to west's replica, and takes none of their messages.
fn apply<K: Keeper, S: RegionStore<Page>>(farm: &mut Farm<K, S>, count: u32) -> Result<(), Fail> {
    if 0 == farm.replicas(Region::West) {
        return Err(not_ready());
    }
    match farm.apply(both(20_000), Region::West, 0, count) {
        None => Ok(()),
        Some(_) => Err(Fail::new("the entries were not applied")),
    }
}

/// Jobs as words: a title is a view that needs the first entry, and a number the receipt of the purge of that number.
fn jobs_of(alloc: Global, words: &[&str]) -> Result<Vec<Job>, Fail> {
    let mut jobs = Vec::with_capacity(alloc, words.len())?;
    for word in words.iter() {
        jobs.push(job_of(alloc, word)?)?;
    }
    Ok(jobs)
}

fn job_of(alloc: Global, word: &str) -> Result<Job, Fail> {
    match word.parse::<u64>() {
        Ok(purge) => Ok(Job::Receipt(purge)),
        Err(_) => Ok(Job::View(ViewJob {
            title: Title::parse(alloc, word)?,
            need: 1,
            word: 0,
        })),
    }
}

/// A round in west, if its conditions hold.
fn west_round<K: Keeper, R: Threads + Sync, G: Gate>(
    rt: &R,
    alloc: Global,
    farm: &mut Farm<K, SlotCache<Page>>,
    jobs: Vec<Job>,
    at: u64,
    gate: &G,
) -> Result<Vec<Answer>, Fail> {
    if jobs.len() > JOBS_MAX
        || !are_proper(farm, Region::West, &jobs)
        || !farm.region(Region::West).has_cache()
    {
        return Err(not_ready());
    }
    let ask = RoundAsk {
        region: Region::West,
        jobs,
        at: both(at),
    };
    match round(rt, alloc, farm, ask, gate) {
        Ok(answers) => Ok(answers),
        Err(_) => Err(Fail::new("out of memory")),
    }
}

/// What a round of these jobs at this moment answers in west, as [`heads_of`] has it.
pub fn heads_at<K: Keeper, R: Threads + Sync, G: Gate>(
    rt: &R,
    alloc: Global,
    farm: &mut Farm<K, SlotCache<Page>>,
    words: &[&str],
    at: u64,
    gate: &G,
) -> Result<String, Fail> {
    let jobs = jobs_of(alloc, words)?;
    let answers = west_round(rt, alloc, farm, jobs, at, gate)?;
    heads_of(alloc, answers.as_slice())
}

/// What a round of these jobs at this moment answers in west, as [`lines_of`] has it, if it passes every gate.
pub fn lines_at<K: Keeper, R: Threads + Sync>(
    rt: &R,
    alloc: Global,
    farm: &mut Farm<K, SlotCache<Page>>,
    words: &[&str],
    at: u64,
) -> Result<String, Fail> {
    let jobs = jobs_of(alloc, words)?;
    let answers = west_round(rt, alloc, farm, jobs, at, &OpenGate)?;
    lines_of(alloc, answers.as_slice())
}

/// The lines that a report has of these answers, with their places as numbers.
fn lines_of(alloc: Global, answers: &[Answer]) -> Result<String, Fail> {
    let mut lines = Vec::new(alloc);
    let mut number = 0u64;
    for answer in answers.iter() {
        number = number.wrapping_add(1);
        lines.extend_from_slice(report_line(alloc, number, answer, false)?.as_slice())?;
    }
    Ok(String::from_str(alloc, str::from_utf8(lines.as_slice())?)?)
}

/// The same without the pages, with the title of each in front.
fn heads_of(alloc: Global, answers: &[Answer]) -> Result<String, Fail> {
    let mut heads = String::new(alloc);
    let mut number = 0u64;
    for answer in answers.iter() {
        number = number.wrapping_add(1);
        push_head(alloc, &mut heads, number, answer)?;
    }
    Ok(heads)
}

fn push_head(alloc: Global, heads: &mut String, number: u64, answer: &Answer) -> Result<(), Fail> {
    if let Answer::Ok(page) = answer {
        heads.push_str(page.title.text())?;
        heads.push_str(" ")?;
    }
    let head = report_head(alloc, number, answer, false)?;
    heads.push_str(str::from_utf8(head.as_slice())?)?;
    Ok(())
}
