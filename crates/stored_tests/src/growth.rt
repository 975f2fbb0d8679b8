// That no statement goes over the history: each is asked of a long one, where none may visit more than a few rows.
use crate::setting::new_keeper;
use commit_feed::Entry;
use farm_base::Moment;
use revision_keeper::Keeper;
use sqlite::{Alter, MemStore};
use sqlite_keeper::SqliteKeeper;
use std::alloc::Global;
use std::process::Abort;
use std::test::Fail;
use wiki_titles::{ClientId, Text, Title, Token};

const COMMITS: u64 = 400;

// The rows that one statement may visit.
const ROWS_MOST: u64 = 8;

// Commit `n` of client 1, on `A`.
fn commit_of(alloc: Global, n: u64) -> Result<Entry, Fail> {
    Ok(Entry::Commit {
        stamp: Moment(n),
        purge: n,
        title: Title::parse(alloc, "A")?,
        revision: n,
        client: ClientId::number(1),
        index: n,
        token: token_of(alloc, n)?,
        base: n.saturating_sub(1),
        text: Text::parse(alloc, "text")?,
    })
}

fn token_of(alloc: Global, n: u64) -> Result<Token, Fail> {
    let token = format!(in alloc; "t{n}")?;
    Ok(Token::parse(alloc, token.as_str())?)
}

// A keeper over that many commits whose statements are refused if they visit more rows.
fn limited(alloc: Global) -> Result<SqliteKeeper<MemStore>, Fail> {
    let mut keeper = new_keeper(alloc)?;
    for n in 1..COMMITS + 1 {
        keeper.append(commit_of(alloc, n)?)?;
    }
    let mut conn = keeper.into_opened()?;
    conn.set_step_limit(Some(ROWS_MOST));
    Ok(SqliteKeeper::new(alloc, Ok(conn)))
}

#[test]
fn no_call_goes_over_the_history(rt: HostRuntime) -> Result<(), Fail> {
    let mut keeper = limited(rt.alloc())?;
    answers_all(&rt, rt.alloc(), &mut keeper)?;
    assert_eq!(rt; keeper.faults(), 0);
    Ok(())
}

fn answers_all<S: Alter + Drop>(
    rt: &impl Abort,
    alloc: Global,
    keeper: &mut SqliteKeeper<S>,
) -> Result<(), Fail> {
    keeper.start()?;
    assert_eq!(rt; keeper.len()?, COMMITS);
    for n in [1, 2, 199, 200, 399, 400] {
        finds(
            rt,
            keeper,
            n,
            &Title::parse(alloc, "A")?,
            &token_of(alloc, n)?,
        )?;
    }
    finds_no_other(rt, keeper, &Title::parse(alloc, "B")?)?;
    appends_two(rt, alloc, keeper)
}

// Commit `n`, by each question.
fn finds<K: Keeper>(
    rt: &impl Abort,
    keeper: &mut K,
    n: u64,
    title: &Title,
    token: &Token,
) -> Result<(), Fail> {
    assert!(rt; keeper.entry(n)?.is_some());
    assert_eq!(rt; keeper.latest(title, n)?, Some(n));
    assert_eq!(rt; keeper.by_token(&ClientId::number(1), token)?, Some(n));
    assert_eq!(rt; keeper.by_token(&ClientId::number(2), token)?, None);
    assert_eq!(rt; keeper.writes_of(&ClientId::number(1))?.count, COMMITS);
    Ok(())
}

fn finds_no_other<K: Keeper>(rt: &impl Abort, keeper: &mut K, title: &Title) -> Result<(), Fail> {
    assert_eq!(rt; keeper.latest(title, COMMITS)?, None);
    assert_eq!(rt; keeper.writes_of(&ClientId::number(2))?.count, 0);
    Ok(())
}

fn appends_two<S: Alter + Drop>(
    rt: &impl Abort,
    alloc: Global,
    keeper: &mut SqliteKeeper<S>,
) -> Result<(), Fail> {
    assert_eq!(rt; keeper.append(commit_of(alloc, COMMITS + 1)?)?, COMMITS + 1);
    let stamp = Moment(COMMITS + 1);
    assert_eq!(rt; keeper.append(Entry::Beat { stamp })?, COMMITS + 2);
    Ok(())
}
