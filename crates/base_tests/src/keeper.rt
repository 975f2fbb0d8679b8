// The keeper in memory, by calls that are told.
ghost use Rattle.std.specs.Prelude.{◌≡◌};

use crate::setting::{Edit, NO_COMMITS, ONE_COMMIT, edit_of, is_first_commit};
use crate::twins::Twins;
use commit_feed::Entry;
use farm_base::{MOMENT_MAX, Moment};
use revision_keeper::{KeepFault, Keeper, MemKeeper};
use std::alloc::Global;
use std::process::Abort;
use std::test::Fail;
use wiki_titles::ClientId;

// Appends a beat at the greatest moment, which may follow any history.
#[tactic(auto, using(crate::proofs::KeeperNext::last_beat))]
fn append_last_beat<K: Keeper>(keeper: &mut K) -> Result<u64, KeepFault> {
    keeper.known();
    keeper.append(Entry::Beat {
        stamp: Moment(MOMENT_MAX),
    })
}

fn is_last_beat(entry: &Option<Entry>) -> bool {
    matches!(
        entry,
        Some(Entry::Beat {
            stamp: Moment(MOMENT_MAX)
        })
    )
}

#[test]
fn a_keeper_gives_back_what_it_was_told(rt: HostRuntime) -> Result<(), Fail> {
    gives_back(&rt, &mut MemKeeper::new(rt.alloc()))
}

fn gives_back<K: Keeper>(rt: &impl Abort, keeper: &mut K) -> Result<(), Fail> {
    keeper.start()?;
    assert_eq!(rt; keeper.len()?, 0);
    assert_eq!(rt; append_last_beat(keeper)?, 1);
    assert!(rt; has_last_beat_at(keeper, 1)?);
    assert!(rt; has_none_at(keeper, 0)? && has_none_at(keeper, 2)?);
    assert_eq!(rt; keeper.len()?, 1);
    Ok(())
}

fn has_last_beat_at<K: Keeper>(keeper: &mut K, n: u64) -> Result<bool, Fail> {
    Ok(is_last_beat(&keeper.entry(n)?))
}

fn has_none_at<K: Keeper>(keeper: &mut K, n: u64) -> Result<bool, Fail> {
    Ok(keeper.entry(n)?.is_none())
}

#[test]
fn the_named_appends_fail_and_store_nothing(rt: HostRuntime) -> Result<(), Fail> {
    let failing = [1u64, 3].to_vec(rt.alloc())?;
    fails_at_1_and_3(&rt, &mut MemKeeper::failing(rt.alloc(), failing))
}

fn fails_at_1_and_3<K: Keeper>(rt: &impl Abort, keeper: &mut K) -> Result<(), Fail> {
    assert_eq!(rt; append_last_beat(keeper), Err(KeepFault::Fault));
    assert_eq!(rt; keeper.len()?, 0);
    assert_eq!(rt; append_last_beat(keeper), Ok(1));
    assert_eq!(rt; append_last_beat(keeper), Err(KeepFault::Fault));
    assert_eq!(rt; keeper.len()?, 1);
    assert!(rt; has_none_at(keeper, 2)?);
    assert_eq!(rt; append_last_beat(keeper), Ok(2));
    assert!(rt; has_last_beat_at(keeper, 2)?);
    Ok(())
}

// A keeper that was told of a beat, and of an edit of page 1 by client 1 with the token t1.
fn beat_and_commit(alloc: Global) -> Result<MemKeeper, Fail> {
    let twins = Twins::new(alloc, MemKeeper::new(alloc)).beat(0)?;
    let Twins { keeper, .. } = twins.commit(2_000, edit_of(alloc, 1, 1, 1)?)?;
    Ok(keeper)
}

#[test]
fn a_kept_commit_is_found_by_title_and_by_token(rt: HostRuntime) -> Result<(), Fail> {
    let mut keeper = beat_and_commit(rt.alloc())?;
    finds_the_commit(&rt, rt.alloc(), &mut keeper)
}

fn finds_the_commit<K: Keeper>(rt: &impl Abort, alloc: Global, keeper: &mut K) -> Result<(), Fail> {
    assert!(rt; has_first_commit_at(keeper, 2)?);
    finds(rt, keeper, &edit_of(alloc, 1, 1, 1)?, Some(2))?;
    finds(rt, keeper, &edit_of(alloc, 2, 1, 2)?, None)
}

fn has_first_commit_at<K: Keeper>(keeper: &mut K, n: u64) -> Result<bool, Fail> {
    Ok(is_first_commit(keeper.entry(n)?.as_ref()))
}

// The edit's commit is this entry by its title and by its token; none in a prefix of one.
fn finds<K: Keeper>(
    rt: &impl Abort,
    keeper: &mut K,
    edit: &Edit,
    found: Option<u64>,
) -> Result<(), Fail> {
    assert_eq!(rt; keeper.latest(&edit.title, 1)?, None);
    assert_eq!(rt; keeper.latest(&edit.title, 2)?, found);
    assert_eq!(rt; keeper.by_token(&edit.client, &edit.token)?, found);
    Ok(())
}

#[test]
fn the_kept_writes_of_a_client_are_counted(rt: HostRuntime) -> Result<(), Fail> {
    let mut keeper = beat_and_commit(rt.alloc())?;
    counts_writes(&rt, &mut keeper)
}

fn counts_writes<K: Keeper>(rt: &impl Abort, keeper: &mut K) -> Result<(), Fail> {
    assert_eq!(rt; keeper.writes_of(&ClientId::number(1))?, ONE_COMMIT);
    assert_eq!(rt; keeper.writes_of(&ClientId::number(2))?, NO_COMMITS);
    Ok(())
}
