// The history as a plain list.
use crate::setting::{
    Edit, NO_COMMITS, ONE_COMMIT, edit_of, is_first_commit, next_beat, next_commit,
};
use commit_feed::{Entry, Feed};
use std::alloc::Global;
use std::test::Fail;
use wiki_titles::ClientId;

fn push_beat(feed: &mut Feed) -> Result<u64, Fail> {
    match next_beat(feed, 0) {
        Some(entry) => Ok(feed.push(entry)?),
        None => Err(Fail::new("no beat follows")),
    }
}

// Two seconds after the last entry.
fn push_commit(feed: &mut Feed, edit: Edit) -> Result<u64, Fail> {
    match next_commit(feed, 2_000, edit) {
        Some(entry) => Ok(feed.push(entry)?),
        None => Err(Fail::new("no commit follows")),
    }
}

// A beat, and then an edit of page 1 by client 1 with the token t1.
fn beat_and_commit(alloc: Global) -> Result<Feed, Fail> {
    let mut feed = Feed::new(alloc);
    push_beat(&mut feed)?;
    push_commit(&mut feed, edit_of(alloc, 1, 1, 1)?)?;
    Ok(feed)
}

#[test]
fn entries_are_numbered_from_1(rt: HostRuntime) -> Result<(), Fail> {
    let mut feed = Feed::new(rt.alloc());
    assert!(rt; feed.is_empty());
    assert_eq!(rt; push_beat(&mut feed)?, 1);
    assert_eq!(rt; push_commit(&mut feed, edit_of(rt.alloc(), 1, 1, 1)?)?, 2);
    assert_eq!(rt; feed.len(), 2);
    assert!(rt; feed.entry(0).is_none() && feed.entry(3).is_none());
    assert!(rt; matches!(feed.entry(1), Some(Entry::Beat { .. })));
    assert!(rt; is_first_commit(feed.entry(2)));
    Ok(())
}

#[test]
fn the_latest_commit_is_found_by_title_and_by_token(rt: HostRuntime) -> Result<(), Fail> {
    let alloc = rt.alloc();
    let feed = beat_and_commit(alloc)?;
    let same = edit_of(alloc, 1, 1, 1)?;
    let other = edit_of(alloc, 2, 2, 1)?;
    assert_eq!(rt; feed.latest(&same.title, 1), None);
    assert_eq!(rt; feed.latest(&same.title, 2), Some(2));
    assert_eq!(rt; feed.latest(&other.title, 2), None);
    assert_eq!(rt; feed.by_token(&same.client, &same.token), Some(2));
    assert_eq!(rt; feed.by_token(&other.client, &other.token), None);
    Ok(())
}

#[test]
fn the_writes_of_a_client_are_counted(rt: HostRuntime) -> Result<(), Fail> {
    let feed = beat_and_commit(rt.alloc())?;
    assert_eq!(rt; feed.writes_of(&ClientId::number(1)), ONE_COMMIT);
    assert_eq!(rt; feed.writes_of(&ClientId::number(2)), NO_COMMITS);
    Ok(())
}
