// What the history says of an edit: each question is asked of the keeper once.
ghost use Rattle.std.specs.Prelude.{◌≡◌, ℕ, ◌<◌, ◌^◌, Some, IfOk};
ghost use Rattle.commit_feed.specs.AsModel.{entry_of};
ghost use Rattle.revision_keeper.specs.Causes.{HasFault};
ghost use Rattle.edit_core.specs.AsModel.{edit_of, decided_of};
ghost use Rattle.edit_core.specs.Decided.{repeated_at, revision_in, IsFree};
ghost use Rattle.edit_core.specs.Questions.{IsDecided, IsRepeated, IsDecidedByBase, IsCurrentRevision, IsLastOn};
ghost use Rattle.edit_core.specs.Questions.{IsRevisionAt};

use crate::edit_ask::{EditAsk, SavedNote};
use commit_feed::Entry;
use revision_keeper::{KeepFault, Keeper};
use wiki_titles::Title;

/// The answer to an edit that the history already decides.
#[derive(Clone, Copy, Debug, PartialEq, Eq)]
pub enum Decided {
    /// It was saved before.
    Saved(SavedNote),
    /// Its token names another edit, which is this entry.
    Token { entry: u64 },
    /// Its base is not the page's revision.
    Conflict { base: u64, current: u64 },
}

/// The answer to an edit that the history already decides: it was saved before, its token names another edit, or its
/// base is not the page's revision, in this order.
pub fn decide<K: Keeper>(keeper: &mut K, ask: &EditAsk) -> Result<Option<Decided>, KeepFault>
    ensures value { IsDecided (K.content keeper.old) (edit_of ask.now) result }
    ensures content { K.content keeper.new ≡ K.content keeper.old }
    ensures small { IfOk result (IsFree ask.now.base) }
    ensures cause { HasFault (K.faults keeper.old) (K.faults keeper.new) result }
{
    match keeper.by_token(&ask.client, &ask.token) {
        Ok(Some(n)) => match repeated_entry(keeper, n, ask) {
            Ok(decided) => Ok(Some(decided)),
            Err(fault) => Err(fault),
        },
        Ok(None) => decided_by_base(keeper, ask),
        Err(fault) => Err(fault),
    }
}

/// The answer to an edit whose client and token are those of entry `n`. A keeper that exposes nothing may name an entry
/// that it then does not have: that is answered as out of memory, since no fault was counted.
fn repeated_entry<K: Keeper>(keeper: &mut K, n: u64, ask: &EditAsk) -> Result<Decided, KeepFault>
    ensures value { IsRepeated (K.content keeper.old) (edit_of ask.now) n result }
    ensures content { K.content keeper.new ≡ K.content keeper.old }
    ensures cause { HasFault (K.faults keeper.old) (K.faults keeper.new) result }
{
    match keeper.entry(n) {
        Ok(Some(entry)) => Ok(repeated(n, &entry, ask)),
        Ok(None) => Err(KeepFault::Memory),
        Err(fault) => Err(fault),
    }
}

fn repeated(n: u64, entry: &Entry, ask: &EditAsk) -> Decided
    ensures { decided_of result ≡ repeated_at (edit_of ask.now) n (Some (entry_of entry.now)) }
{
    match entry {
        Entry::Beat { .. } => Decided::Token { entry: n },
        Entry::Commit {
            stamp,
            title,
            revision,
            client,
            index,
            base,
            text,
            ..
        } => {
            if ask.title.text() == title.text()
                && ask.base == *base
                && ask.text.text() == text.text()
            {
                Decided::Saved(SavedNote {
                    entry: n,
                    revision: *revision,
                    client: *client,
                    index: *index,
                    seconds: stamp.0 / 1000,
                })
            } else {
                Decided::Token { entry: n }
            }
        }
    }
}

/// Whether the base is the page's revision.
fn decided_by_base<K: Keeper>(keeper: &mut K, ask: &EditAsk) -> Result<Option<Decided>, KeepFault>
    ensures value { IsDecidedByBase (K.content keeper.old) (edit_of ask.now) result }
    ensures content { K.content keeper.new ≡ K.content keeper.old }
    ensures small { IfOk result (IsFree ask.now.base) }
    ensures cause { HasFault (K.faults keeper.old) (K.faults keeper.new) result }
{
    let current = current_revision(keeper, &ask.title)?;
    if ask.base == current {
        Ok(None)
    } else {
        Ok(Some(Decided::Conflict {
            base: ask.base,
            current,
        }))
    }
}

/// The revision of a title's page now, or 0.
fn current_revision<K: Keeper>(keeper: &mut K, title: &Title) -> Result<u64, KeepFault>
    ensures value { IsCurrentRevision (K.content keeper.old) title.now result }
    ensures content { K.content keeper.new ≡ K.content keeper.old }
    ensures small { IfOk result (λ r. r < 2 ^ 63) }
    ensures cause { HasFault (K.faults keeper.old) (K.faults keeper.new) result }
{
    match last_on(keeper, title) {
        Ok(Some(n)) => revision_at(keeper, n),
        Ok(None) => Ok(0),
        Err(fault) => Err(fault),
    }
}

/// The number of the last commit on the title.
fn last_on<K: Keeper>(keeper: &mut K, title: &Title) -> Result<Option<u64>, KeepFault>
    ensures value { IsLastOn (K.content keeper.old) title.now result }
    ensures content { K.content keeper.new ≡ K.content keeper.old }
    ensures cause { HasFault (K.faults keeper.old) (K.faults keeper.new) result }
{
    let upto = keeper.len()?;
    keeper.latest(title, upto)
}

/// The revision of the commit that is entry `n`. An entry that is not there is answered as out of memory, as above.
fn revision_at<K: Keeper>(keeper: &mut K, n: u64) -> Result<u64, KeepFault>
    ensures value { IsRevisionAt (K.content keeper.old) n result }
    ensures content { K.content keeper.new ≡ K.content keeper.old }
    ensures small { IfOk result (λ r. r < 2 ^ 63) }
    ensures cause { HasFault (K.faults keeper.old) (K.faults keeper.new) result }
{
    match keeper.entry(n) {
        Ok(Some(entry)) => Ok(revision_of(&entry)),
        Ok(None) => Err(KeepFault::Memory),
        Err(fault) => Err(fault),
    }
}

fn revision_of(entry: &Entry) -> u64
    ensures { result ≡ revision_in (Some (entry_of entry.now)) }
{
    match entry {
        Entry::Commit { revision, .. } => *revision,
        Entry::Beat { .. } => 0,
    }
}
