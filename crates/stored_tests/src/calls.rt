// A few appends and every question, by answers that are written out; a second start; and a refused opening.
use crate::setting::{Edit, Questions, answers, edit_of, new_keeper, started};
use crate::twins::Twins;
use commit_feed::{Entry, Writes};
use farm_base::Moment;
use revision_keeper::{KeepFault, Keeper, MemKeeper};
use sqlite::{Alter, Error, ErrorCode, MemStore};
use sqlite_keeper::SqliteKeeper;
use std::alloc::Global;
use std::process::Abort;
use std::test::Fail;
use wiki_titles::{ClientId, Token};

const ASKED: Questions<'static> = Questions {
    upto: 2,
    titles: &["A", "B"],
    clients: &[1, 2],
    tokens: &["t1", "t2"],
};

// A beat at 0, and at 0 the first commit of client 1, on `A`.
const ANSWERS: &str = "len 2
entry 0: none
entry 1: beat at 0
entry 2: A revision 1 from 0, client 00000000000000000000000000000001 index 1 token t1, purge 1 at 0: one
entry 3: none
latest A in 0: none
latest A in 1: none
latest A in 2: 2
latest A in 3: 2
latest B in 0: none
latest B in 1: none
latest B in 2: none
latest B in 3: none
client 1 token t1: 2
client 1 token t2: none
client 1 wrote 1, last 2 at 0
client 2 token t1: none
client 2 token t2: none
client 2 wrote 0, last 0 at 0
";

fn beat_and_commit<K: Keeper + Drop>(alloc: Global, twins: Twins<K>) -> Result<K, Fail> {
    let edit = edit_of(alloc, 1, "t1", "A", 1, "one")?;
    let Twins { keeper, .. } = twins.beat(0)?.commit(0, edit)?;
    Ok(keeper)
}

fn answers_as_written<K: Keeper>(
    rt: &impl Abort,
    alloc: Global,
    keeper: &mut K,
) -> Result<(), Fail> {
    let found = answers(alloc, keeper, &ASKED)?;
    assert_eq!(rt; found.as_str(), ANSWERS);
    Ok(())
}

#[test]
fn a_keeper_in_a_database_answers_as_is_written_here(rt: HostRuntime) -> Result<(), Fail> {
    let mut stored = stored_two(rt.alloc())?;
    answers_without_fault(&rt, rt.alloc(), &mut stored)
}

#[test]
fn a_keeper_in_memory_answers_the_same(rt: HostRuntime) -> Result<(), Fail> {
    let mut in_memory = two_in_memory(rt.alloc())?;
    answers_as_written(&rt, rt.alloc(), &mut in_memory)
}

fn stored_two(alloc: Global) -> Result<SqliteKeeper<MemStore>, Fail> {
    beat_and_commit(alloc, Twins::new(alloc, new_keeper(alloc)?))
}

fn two_in_memory(alloc: Global) -> Result<MemKeeper, Fail> {
    beat_and_commit(alloc, Twins::new(alloc, MemKeeper::new(alloc)))
}

fn answers_without_fault<S: Alter + Drop>(
    rt: &impl Abort,
    alloc: Global,
    keeper: &mut SqliteKeeper<S>,
) -> Result<(), Fail> {
    answers_as_written(rt, alloc, keeper)?;
    assert_eq!(rt; keeper.faults(), 0);
    Ok(())
}

#[test]
fn a_second_start_changes_nothing(rt: HostRuntime) -> Result<(), Fail> {
    let mut stored = stored_two(rt.alloc())?;
    starts_and_answers(&rt, rt.alloc(), &mut stored)
}

fn starts_and_answers<S: Alter + Drop>(
    rt: &impl Abort,
    alloc: Global,
    keeper: &mut SqliteKeeper<S>,
) -> Result<(), Fail> {
    keeper.start()?;
    answers_without_fault(rt, alloc, keeper)
}

#[test]
fn a_database_that_is_opened_again_answers_the_same(rt: HostRuntime) -> Result<(), Fail> {
    let mut again = started(rt.alloc(), stored_two(rt.alloc())?.into_opened()?)?;
    answers_without_fault(&rt, rt.alloc(), &mut again)
}

#[test]
fn nothing_is_asked_of_tables_that_are_not_ready(rt: HostRuntime) -> Result<(), Fail> {
    let token = Token::parse(rt.alloc(), "t1")?;
    let mut again = SqliteKeeper::new(rt.alloc(), stored_two(rt.alloc())?.into_opened());
    asks_nothing(&rt, &mut again, &token);
    starts(&rt, rt.alloc(), &mut again)
}

fn asks_nothing<S: Alter + Drop>(rt: &impl Abort, keeper: &mut SqliteKeeper<S>, token: &Token) {
    assert_eq!(rt; keeper.len(), Err(KeepFault::Fault));
    assert_eq!(rt;
        keeper.by_token(&ClientId::number(1), token),
        Err(KeepFault::Fault)
    );
    assert_eq!(rt; keeper.faults(), 2);
}

fn starts<K: Keeper>(rt: &impl Abort, alloc: Global, keeper: &mut K) -> Result<(), Fail> {
    keeper.start()?;
    answers_as_written(rt, alloc, keeper)
}

// A commit of `A` by client 1 and one of `B` by client 2, by turns: what is asked before an append is asked again after
// it, of the same title, token and client and of others.
#[test]
fn an_append_changes_the_answers_of_its_own(rt: HostRuntime) -> Result<(), Fail> {
    let mut keeper = new_keeper(rt.alloc())?;
    appends_by_turns(&rt, rt.alloc(), &mut keeper)?;
    assert_eq!(rt; keeper.faults(), 0);
    Ok(())
}

// whose commit it is, its token, and which one of its title's and of its client's
const BY_TURNS: [(u64, &str, u64); 5] = [
    (1, "t1", 1),
    (2, "t1", 1),
    (1, "t2", 2),
    (1, "t3", 3),
    (2, "t2", 2),
];

fn appends_by_turns<S: Alter + Drop>(
    rt: &impl Abort,
    alloc: Global,
    keeper: &mut SqliteKeeper<S>,
) -> Result<(), Fail> {
    let mut number = 0u64;
    for (client, token, count) in BY_TURNS {
        let edit = edit_by(alloc, client, token)?;
        number = number.saturating_add(1);
        appends(rt, keeper, &edit, number, count)?;
    }
    Ok(())
}

// The edit's commit is asked for, appended as this entry, and asked for again.
fn appends<S: Alter + Drop>(
    rt: &impl Abort,
    keeper: &mut SqliteKeeper<S>,
    edit: &Edit,
    number: u64,
    count: u64,
) -> Result<(), Fail> {
    asks(rt, keeper, edit, number.saturating_sub(1), None)?;
    assert_eq!(rt; keeper.append(commit_of(edit, number, count)?)?, number);
    asks(rt, keeper, edit, number, Some(count))
}

// Client 1 edits `A`, and client 2 edits `B`.
fn edit_by(alloc: Global, client: u64, token: &str) -> Result<Edit, Fail> {
    let title = if client == 1 { "A" } else { "B" };
    edit_of(alloc, client, token, title, 1, "text")
}

fn commit_of(edit: &Edit, number: u64, count: u64) -> Result<Entry, Fail> {
    Ok(Entry::Commit {
        stamp: Moment(number),
        purge: 1,
        title: edit.title.clone()?,
        revision: count,
        client: edit.client,
        index: count,
        token: edit.token.clone()?,
        base: count.saturating_sub(1),
        text: edit.text.clone()?,
    })
}

// After `number` entries the edit's commit is the last, and this one of its client's; or it is not there yet.
fn asks<K: Keeper>(
    rt: &impl Abort,
    keeper: &mut K,
    edit: &Edit,
    number: u64,
    count: Option<u64>,
) -> Result<(), Fail> {
    let found = count.map(|_| number);
    assert_eq!(rt; keeper.len()?, number);
    assert_eq!(rt; keeper.by_token(&edit.client, &edit.token)?, found);
    let writes = keeper.writes_of(&edit.client)?;
    let latest = keeper.latest(&edit.title, number)?;
    if let Some(count) = count {
        assert_eq!(rt; latest, found);
        assert_eq!(rt;
            writes,
            Writes {
                count,
                last: number,
                stamp: Moment(number)
            }
        );
        assert_eq!(rt;
            keeper.latest(&edit.title, number.saturating_sub(1))? == found,
            false
        );
    }
    assert_eq!(rt; writes.last, latest.unwrap_or(0));
    Ok(())
}

#[test]
fn a_refused_opening_answers_every_call(rt: HostRuntime) {
    let mut refused = refused_by(rt.alloc(), ErrorCode::CannotOpen);
    answers_by(&rt, &mut refused, KeepFault::Fault);
    assert_eq!(rt; refused.faults(), 3);
    let mut starved = refused_by(rt.alloc(), ErrorCode::OutOfMemory);
    answers_by(&rt, &mut starved, KeepFault::Memory);
    assert_eq!(rt; starved.faults(), 0);
}

fn refused_by(alloc: Global, code: ErrorCode) -> SqliteKeeper<MemStore> {
    SqliteKeeper::new(alloc, Err(Error::SqliteFailure(code)))
}

fn answers_by<K: Keeper>(rt: &impl Abort, keeper: &mut K, fault: KeepFault) {
    assert_eq!(rt; keeper.start(), Err(fault));
    assert_eq!(rt; keeper.len(), Err(fault));
    assert_eq!(rt; keeper.writes_of(&ClientId::number(1)), Err(fault));
}
