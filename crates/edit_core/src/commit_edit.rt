// The second step of an edit, and what is done instead of it.
ghost use Rattle.std.specs.Prelude.{◌≡◌, ℕ, ◌-◌, ◌<◌, ◌≤◌, ◌^◌, length, IfOk, IfSome, OnErr, IsTrue};
ghost use Rattle.wiki_model.specs.Limits.{greatest_moment};
ghost use Rattle.wiki_model.specs.History.{stamp_at};
ghost use Rattle.revision_keeper.specs.Causes.{HasFault};
ghost use Rattle.chronology_store.specs.ChronologyStore.{is_reserved, Changes};
ghost use Rattle.edit_core.specs.AsModel.{edit_of};
ghost use Rattle.edit_core.specs.EditState.{HasStoreFault, IsUndecided, state_of};
ghost use Rattle.edit_core.specs.CommitEdit.{Commits, CommitsWithOutcome, Appends, IsNoteOf, announced, second_purge};
ghost use Rattle.edit_core.specs.CommitEdit.{noted};

use crate::begin_edit::refusal;
use crate::begun_edit::{BegunEdit, MESSAGES_LEFT};
use crate::decide::decide;
use crate::edit_ask::{CommitOutcome, EditAsk, EditRefusal, SavedNote};
use chronology_store::{ChronologyStore, expiry};
use commit_feed::Entry;
use db_position::Position;
use farm_base::Moment;
use purge_relay::{Issued, Ledger};
use revision_keeper::{KeepFault, Keeper};
use wiki_titles::Title;

/// Commits an edit at this home moment, as [`commit_with_outcome`] does, and tells its note alone.
pub fn commit<K: Keeper>(
    keeper: &mut K,
    ledger: &mut Ledger,
    positions: &mut ChronologyStore,
    edit: BegunEdit,
    at: Moment,
) -> Result<SavedNote, EditRefusal>
    requires spare { 2 ≤ ledger.old.spare }
    requires reserved { IsTrue (is_reserved positions.old edit.ask.client) }
    requires moment { at ≤ greatest_moment }
    requires later { IfSome (K.content keeper.old) (λ h. stamp_at h (length h) ≤ at) }
    ensures cause { HasStoreFault (K.faults keeper.old) (K.faults keeper.new) result }
    ensures commits { let before = state_of (K.content keeper.old) ledger.old positions.old in
        let after = state_of (K.content keeper.new) ledger.new positions.new in
        Commits before after edit at result }
{
    match commit_with_outcome(keeper, ledger, positions, edit, at) {
        Ok(outcome) => Ok(outcome.note),
        Err(why) => Err(why),
    }
}

/// Commits an edit at this home moment: if the history does not decide it by now, its entry is appended, and the
/// client's position is noted at home and told to west. A commit after its due moment is purged again; the caller has
/// home receive that purge.
///
/// After any other answer nothing else has changed: the room that was reserved is given back, the client's row stays
/// reserved, and the purge stays issued.
pub fn commit_with_outcome<K: Keeper>(
    keeper: &mut K,
    ledger: &mut Ledger,
    positions: &mut ChronologyStore,
    edit: BegunEdit,
    at: Moment,
) -> Result<CommitOutcome, EditRefusal>
    requires spare { 2 ≤ ledger.old.spare }
    requires reserved { IsTrue (is_reserved positions.old edit.ask.client) }
    requires moment { at ≤ greatest_moment }
    requires later { IfSome (K.content keeper.old) (λ h. stamp_at h (length h) ≤ at) }
    ensures cause { HasStoreFault (K.faults keeper.old) (K.faults keeper.new) result }
    ensures commits { let before = state_of (K.content keeper.old) ledger.old positions.old in
        let after = state_of (K.content keeper.new) ledger.new positions.new in
        CommitsWithOutcome before after edit at result }
{
    let BegunEdit {
        ask,
        purge_title,
        issued,
        due,
    } = edit;
    match decide(keeper, &ask) {
        Ok(None) => {}
        Ok(Some(decided)) => {
            ledger.release(MESSAGES_LEFT);
            return match refusal(decided) {
                Ok(note) => Ok(CommitOutcome {
                    note,
                    second_purge: None,
                }),
                Err(why) => Err(why),
            };
        }
        Err(fault) => {
            ledger.release(MESSAGES_LEFT);
            return Err(EditRefusal::from(fault));
        }
    }
    match append(keeper, ask, issued.purge, at) {
        Ok(note) => {
            let second_purge = announce(ledger, positions, &note, purge_title, due, at);
            Ok(CommitOutcome { note, second_purge })
        }
        Err(fault) => {
            ledger.release(MESSAGES_LEFT);
            Err(EditRefusal::from(fault))
        }
    }
}

/// Appends the commit of an edit that the history does not decide.
fn append<K: Keeper>(
    keeper: &mut K,
    ask: EditAsk,
    purge: u64,
    at: Moment,
) -> Result<SavedNote, KeepFault>
    requires new { IsUndecided (K.content keeper.old) (edit_of ask) }
    requires small { ask.base < 2 ^ 63 }
    requires moment { at ≤ greatest_moment }
    requires later { IfSome (K.content keeper.old) (λ h. stamp_at h (length h) ≤ at) }
    ensures appends { Appends (K.content keeper.old) (K.content keeper.new) (edit_of ask) at purge result }
    ensures note { IfOk result (λ note. IsNoteOf (K.content keeper.old) (edit_of ask) at purge note) }
    ensures client { IfOk result (λ note. note.client ≡ ask.client) }
    ensures err { OnErr result (K.content keeper.new ≡ K.content keeper.old) }
    ensures cause { HasFault (K.faults keeper.old) (K.faults keeper.new) result }
{
    keeper.known();
    let client = ask.client;
    let writes = keeper.writes_of(&client)?;
    let revision = ask.base + 1;
    let index = writes.count + 1;
    let entry = keeper.append(Entry::Commit {
        stamp: at,
        purge,
        title: ask.title,
        revision,
        client,
        index,
        token: ask.token,
        base: ask.base,
        text: ask.text,
    })?;
    Ok(SavedNote {
        entry,
        revision,
        client,
        index,
        seconds: at.0 / 1000,
    })
}

/// Tells of a new commit: its second purge if one is due, its position to west and at home. What is left of the two
/// messages that were reserved is given back. Nothing here can be refused.
fn announce(
    ledger: &mut Ledger,
    positions: &mut ChronologyStore,
    note: &SavedNote,
    title: Title,
    due: Moment,
    at: Moment,
) -> Option<Issued>
    requires spare { 2 ≤ ledger.old.spare }
    requires reserved { IsTrue (is_reserved positions.old note.now.client) }
    requires moment { at ≤ greatest_moment }
    ensures second { result ≡ second_purge due at ledger.old }
    ensures rows { ledger.new.rows ≡ (announced due at title note.now ledger.old).rows }
    ensures spare { ledger.new.spare ≡ ledger.old.spare - 2 }
    ensures positions { Changes note.now.client (noted note.now at) positions.old positions.new }
{
    let second = if due < at {
        Some(ledger.issue_purge(title, at))
    } else {
        ledger.release(1);
        None
    };
    ledger.issue_position(note.client, note.index, note.entry, at);
    positions.note(
        &note.client,
        note.index,
        Position { entry: note.entry },
        expiry(at),
    );
    second
}

/// Gives up an edit that was begun: the room that was reserved is given back. Its purge stays issued.
pub fn abandon(ledger: &mut Ledger, edit: BegunEdit)
    requires { 2 ≤ ledger.old.spare }
    ensures { ledger.new ≡ record ledger.old { spare = ledger.old.spare - 2 } }
{
    let _ = edit;
    ledger.release(MESSAGES_LEFT);
}
