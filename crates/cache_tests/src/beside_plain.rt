// A long run of a cache beside a plain list of keys.
use crate::plain::PlainCache;
use crate::setting::title_of;
use crate::timed::{Seen, Timed};
use rand_core::Rng;
use rand_pcg::Pcg32;
use std::alloc::{AllocError, Global};
use std::process::Abort;
use std::test::Fail;
use wan_cache::{Cause, Class, MapCache, Put, RegionStore};

/// What is asked of a cache: a title by its number, and for a look how many entries its page needs.
#[derive(Clone, Copy)]
enum Call {
    Put { title: u32, lagged: bool },
    Purge { title: u32 },
    Touch { class: Class },
    Look { title: u32, need: u64 },
}

#[derive(Clone, Copy, Debug, PartialEq, Eq)]
enum Answer {
    Put(Put),
    Look(Seen),
    Done,
}

// A call on one of seven titles. A look that needs entries may miss up to 99 of those there are.
fn random_call(draws: &mut Pcg32, entries: u64) -> Call {
    let title = draws.next_u32() % 7;
    let odd = draws.next_u32() % 4 == 0;
    match draws.next_u32() % 128 {
        0 if odd => Call::Touch {
            class: Class::Template,
        },
        0 => Call::Touch {
            class: Class::Message,
        },
        1..=8 => Call::Purge { title },
        9..=63 => Call::Put { title, lagged: odd },
        _ if odd => {
            let missed = u64::from(draws.next_u32() % 100);
            let need = entries.saturating_sub(missed);
            Call::Look { title, need }
        }
        _ => Call::Look { title, need: 0 },
    }
}

// The answer of a cache, by a page of so many entries if one is put.
fn ask_cache<C: RegionStore<u64> + Drop>(
    alloc: Global,
    cache: &mut Timed<C>,
    entries: u64,
    call: Call,
) -> Result<Answer, Fail> {
    match call {
        Call::Put { title, lagged } => {
            let put = cache.put(alloc, &title_of(alloc, title)?, entries, lagged)?;
            return Ok(Answer::Put(put));
        }
        Call::Look { title, need } => {
            let seen = cache.look(&title_of(alloc, title)?, need);
            return Ok(Answer::Look(seen));
        }
        Call::Purge { title } => cache.purge(&title_of(alloc, title)?),
        Call::Touch {
            class: Class::Template,
        } => cache.touch(Class::Template),
        Call::Touch { .. } => cache.touch(Class::Message),
    }
    Ok(Answer::Done)
}

fn ask_plain(
    plain: &mut PlainCache,
    now: u64,
    entries: u64,
    call: Call,
) -> Result<Answer, AllocError> {
    match call {
        Call::Put { title, lagged } => {
            return Ok(Answer::Put(plain.put(title, entries, now, lagged)?));
        }
        Call::Look { title, need } => return Ok(Answer::Look(plain.look(title, now, need))),
        Call::Purge { title } => plain.purge(title, now)?,
        Call::Touch { .. } => plain.touch(now),
    }
    Ok(Answer::Done)
}

// Asks the cache and the plain list. Their answers must be the same; what they are called is told.
fn ask_both<R: Abort + AllocGlobal>(
    rt: &R,
    cache: &mut Timed<MapCache<u64>>,
    plain: &mut PlainCache,
    entries: u64,
    call: Call,
) -> Result<&'static str, Fail> {
    let expected = ask_plain(plain, cache.now().0, entries, call)?;
    let answer = ask_cache(rt.alloc(), cache, entries, call)?;
    assert_eq!(rt; answer, expected, "at {entries} entries");
    Ok(name_of(answer))
}

// What an answer is called, without its numbers.
fn name_of(answer: Answer) -> &'static str {
    match answer {
        Answer::Done => "done",
        Answer::Put(Put::Main) => "put main",
        Answer::Put(Put::Interim) => "put interim",
        Answer::Put(Put::Held { .. }) => "put held",
        Answer::Put(_) => "put refused",
        Answer::Look(Seen::Hit(_)) => "hit",
        Answer::Look(Seen::Interim(_)) => "interim",
        Answer::Look(Seen::Memory) => "look refused",
        Answer::Look(Seen::Miss(cause)) => name_of_cause(cause),
    }
}

fn name_of_cause(cause: Cause) -> &'static str {
    match cause {
        Cause::Absent => "absent",
        Cause::Purged { .. } => "purged",
        Cause::Checked { .. } => "checked",
        Cause::Expired { .. } => "expired",
        Cause::Position { .. } => "position",
        _ => "another cause",
    }
}

#[test]
fn a_cache_answers_as_a_plain_list_of_keys(rt: HostRuntime) -> Result<(), Fail> {
    let alloc = rt.alloc();
    let mut cache = Timed::new(MapCache::new(alloc, 4, 11_000));
    let mut plain = PlainCache::new(alloc);
    let mut draws = Pcg32::new(7, 1);
    let mut names = Vec::new(alloc);
    for entries in 0..20_000u64 {
        cache.pass(u64::from(draws.next_u32() % 3_000));
        let call = random_call(&mut draws, entries);
        let name = ask_both(&rt, &mut cache, &mut plain, entries, call)?;
        if !names.contains(&name) {
            names.push(name)?;
        }
    }
    // Each kind of answer came, but for those that are out of memory or are of another store.
    assert_eq!(rt; names.len(), 11);
    Ok(())
}
