// The commits of a history whose positions still count, for regions that are opened over it.
ghost use Rattle.std.specs.Prelude.{◌≡◌, ◌≤◌, ◌<◌, ◌+◌, ◌++◌, ◌∷◌, if◌then◌else◌, [], List, length, take, All, Some};
ghost use Rattle.std.specs.Prelude.{IfOk, OnOk, nat_lt};
ghost use Rattle.wiki_model.specs.Limits.{greatest_moment, position_life};
ghost use Rattle.wiki_model.specs.History as history;
ghost use Rattle.wiki_model.specs.History.{entry_at};
ghost use Rattle.wiki_model.specs.Positions.{young_commits};
ghost use Rattle.commit_feed.specs.AsModel.{entry_of};
ghost use Rattle.revision_keeper.specs.Bounds.{IsSmall};
ghost use Rattle.revision_keeper.specs.Causes.{HasFault};
ghost use Rattle.region_state.specs.YoungCommits.{AreSmall, counts, is_young_at, told_at, told_of, commits_of};

use chronology_store::{ClientCommit, expiry};
use commit_feed::Entry;
use farm_base::{Memory, Moment};
use revision_keeper::{KeepFault, Keeper};
use std::alloc::Global;

/// The commits of the history that are young at this moment, in its order. The keeper is asked only for the last
/// entries, back to the first that is not young: the stamps of a history never fall.
pub fn young_commits<K: Keeper>(
    alloc: Global,
    keeper: &mut K,
    now: Moment,
) -> Result<Vec<ClientCommit>, KeepFault>
    ensures content { K.content keeper.new ≡ K.content keeper.old }
    ensures cause { HasFault (K.faults keeper.old) (K.faults keeper.new) result }
    ensures small { IfOk result (λ commits. AreSmall commits.items) }
    ensures commits { (h : List history.Entry) → K.content keeper.old ≡ Some h
        → IfOk result (λ commits. commits.items ≡ commits_of (young_commits now h)) }
{
    let len = keeper.len()?;
    let old = old_entries(keeper, len, now)?;
    gather(alloc, keeper, old, len, now)
}

/// How many entries come before the first that is young, of `len`.
fn old_entries<K: Keeper>(keeper: &mut K, len: u64, now: Moment) -> Result<u64, KeepFault>
    ensures content { K.content keeper.new ≡ K.content keeper.old }
    ensures cause { HasFault (K.faults keeper.old) (K.faults keeper.new) result }
    ensures within { IfOk result (λ old. old ≤ len) }
    ensures none { (h : List history.Entry) → K.content keeper.old ≡ Some h → len ≡ length h
        → IfOk result (λ old. young_commits now (take old h) ≡ []) }
{
    keeper.known();
    let mut old = len;
    while 0 < old {
        match is_young(keeper, old, now) {
            Ok(true) => old -= 1,
            Ok(false) => return Ok(old),
            Err(fault) => return Err(fault),
        }
    }
    Ok(0)
}

/// Whether entry `n` is there and young.
fn is_young<K: Keeper>(keeper: &mut K, n: u64, now: Moment) -> Result<bool, KeepFault>
    ensures content { K.content keeper.new ≡ K.content keeper.old }
    ensures cause { HasFault (K.faults keeper.old) (K.faults keeper.new) result }
    ensures value { (h : List history.Entry) → K.content keeper.old ≡ Some h
        → IfOk result (λ young. young ≡ is_young_at now (entry_at h n)) }
{
    match keeper.entry(n) {
        Err(fault) => Err(fault),
        Ok(None) => Ok(false),
        Ok(Some(entry)) => Ok(counts(stamp_of(&entry), now)),
    }
}

fn stamp_of(entry: &Entry) -> Moment
    requires { IsSmall (entry_of entry.now) }
    ensures value { result ≡ history.stamp_of (entry_of entry.now) }
    ensures small { result ≤ greatest_moment }
{
    match entry {
        Entry::Beat { stamp } => *stamp,
        Entry::Commit { stamp, .. } => *stamp,
    }
}

/// Whether a position of this stamp still counts.
fn counts(stamp: Moment, now: Moment) -> bool
    requires { stamp ≤ greatest_moment }
    ensures { result ≡ counts now stamp }
{
    now.0 < expiry(stamp).0
}

/// The young commits after the first `old` entries, of `len`.
fn gather<K: Keeper>(
    alloc: Global,
    keeper: &mut K,
    old: u64,
    len: u64,
    now: Moment,
) -> Result<Vec<ClientCommit>, KeepFault>
    requires { old ≤ len }
    ensures content { K.content keeper.new ≡ K.content keeper.old }
    ensures cause { HasFault (K.faults keeper.old) (K.faults keeper.new) result }
    ensures small { IfOk result (λ commits. AreSmall commits.items) }
    ensures commits { (h : List history.Entry) → K.content keeper.old ≡ Some h → len ≡ length h
        → young_commits now (take old h) ≡ []
        → IfOk result (λ commits. commits.items ≡ commits_of (young_commits now h)) }
{
    let mut commits = Vec::new(alloc);
    let mut n = old;
    while n < len {
        match gather_one(keeper, &mut commits, n + 1, now) {
            Ok(()) => n += 1,
            Err(fault) => return Err(fault),
        }
    }
    Ok(commits)
}

/// Adds entry `n`, if it is a young commit.
fn gather_one<K: Keeper>(
    keeper: &mut K,
    commits: &mut Vec<ClientCommit>,
    n: u64,
    now: Moment,
) -> Result<(), KeepFault>
    ensures content { K.content keeper.new ≡ K.content keeper.old }
    ensures cause { HasFault (K.faults keeper.old) (K.faults keeper.new) result }
    ensures small { OnOk result (AreSmall commits.old.items → AreSmall commits.new.items) }
    ensures added { (h : List history.Entry) → K.content keeper.old ≡ Some h
        → OnOk result (commits.new.items ≡ commits.old.items ++ told_at now n (entry_at h n)) }
{
    match keeper.entry(n) {
        Err(fault) => Err(fault),
        Ok(None) => Ok(()),
        Ok(Some(entry)) => match push_young(commits, &entry, n, now) {
            Ok(()) => Ok(()),
            Err(Memory) => Err(KeepFault::Memory),
        },
    }
}

fn push_young(
    commits: &mut Vec<ClientCommit>,
    entry: &Entry,
    n: u64,
    now: Moment,
) -> Result<(), Memory>
    requires { IsSmall (entry_of entry.now) }
    ensures small { OnOk result (AreSmall commits.old.items → AreSmall commits.new.items) }
    ensures added { OnOk result (commits.new.items ≡ commits.old.items ++ told_of now n (entry_of entry.now)) }
{
    match entry {
        Entry::Beat { .. } => Ok(()),
        Entry::Commit {
            stamp,
            client,
            index,
            ..
        } => {
            let commit = ClientCommit {
                client: *client,
                index: *index,
                entry: n,
                stamp: *stamp,
            };
            push_if_young(commits, commit, now)
        }
    }
}

fn push_if_young(
    commits: &mut Vec<ClientCommit>,
    commit: ClientCommit,
    now: Moment,
) -> Result<(), Memory>
    requires { commit.stamp ≤ greatest_moment }
    ensures small { OnOk result (AreSmall commits.old.items → AreSmall commits.new.items) }
    ensures added { OnOk result (commits.new.items
        ≡ commits.old.items ++ (if counts now commit.stamp then commit ∷ [] else [])) }
{
    if !counts(commit.stamp, now) {
        return Ok(());
    }
    commits.push(commit)?;
    Ok(())
}
