// The first step of an edit: its purge is issued, and what `commit` needs is reserved.
ghost use Rattle.std.specs.Prelude.{◌≡◌, ℕ, ◌+◌, ◌≤◌, IfOk, OnOk, OnErr};
ghost use Rattle.wiki_model.specs.Limits.{greatest_moment, bound_max};
ghost use Rattle.chronology_store.specs.PositionRow.{with_reserved};
ghost use Rattle.chronology_store.specs.ChronologyStore.{Changes};
ghost use Rattle.edit_core.specs.AsModel.{edit_of, IsRefusal};
ghost use Rattle.edit_core.specs.EditState.{HasStoreFault, state_of};
ghost use Rattle.edit_core.specs.BeginEdit.{Begins};

use crate::begun_edit::{Begun, BegunEdit, MESSAGES};
use crate::decide::{Decided, decide};
use crate::edit_ask::{EditAsk, EditRefusal, SavedNote};
use chronology_store::ChronologyStore;
use farm_base::{Memory, Moment};
use purge_relay::Ledger;
use revision_keeper::Keeper;
use wiki_titles::{ClientId, Title};

/// Begins an edit at this home moment: if the history does not decide it, its purge is issued. A commit more than
/// `delay` milliseconds later will be purged again.
///
/// The refusals come in the order of the tests: a token that names another edit, a conflict, then a fault of the
/// keeper or out of memory. A refused call leaves ledger and positions as they were; no call changes the history.
/// The keeper is asked each question once: the token, and if it is new the page's last revision.
pub fn begin<K: Keeper>(
    keeper: &mut K,
    ledger: &mut Ledger,
    positions: &mut ChronologyStore,
    ask: EditAsk,
    at: Moment,
    delay: u64,
) -> Result<Begun, EditRefusal>
    requires moment { at ≤ greatest_moment }
    requires delay { delay ≤ bound_max }
    ensures cause { HasStoreFault (K.faults keeper.old) (K.faults keeper.new) result }
    ensures begins { let before = state_of (K.content keeper.old) ledger.old positions.old in
        let after = state_of (K.content keeper.new) ledger.new positions.new in
        Begins before after (edit_of ask) at delay result }
{
    if let Some(decided) = decide(keeper, &ask)? {
        return match refusal(decided) {
            Ok(note) => Ok(Begun::Already(note)),
            Err(why) => Err(why),
        };
    }
    let (title, purge_title) = two_of(&ask.title)?;
    reserve(ledger, positions, &ask.client)?;
    let issued = ledger.issue_purge(title, at);
    Ok(Begun::Started(BegunEdit {
        ask,
        purge_title,
        issued,
        due: Moment(at.0 + delay),
    }))
}

/// The answer to an edit that the history decides: its note if it was saved, and else its refusal.
pub(crate) fn refusal(decided: Decided) -> Result<SavedNote, EditRefusal>
    ensures { IsRefusal decided result }
{
    match decided {
        Decided::Saved(note) => Ok(note),
        Decided::Token { entry } => Err(EditRefusal::TokenReused { entry }),
        Decided::Conflict { base, current } => Err(EditRefusal::Conflict { base, current }),
    }
}

/// The title for the purge now, and for one at the commit.
fn two_of(title: &Title) -> Result<(Title, Title), Memory>
    ensures first { IfOk result (λ both. both.0 ≡ title.now) }
    ensures second { IfOk result (λ both. both.1 ≡ title.now) }
{
    Ok((title.clone()?, title.clone()?))
}

/// Reserves room for the edit's messages and its client's row, or nothing.
fn reserve(
    ledger: &mut Ledger,
    positions: &mut ChronologyStore,
    client: &ClientId,
) -> Result<(), Memory>
    ensures ok { OnOk result (ledger.new ≡ record ledger.old { spare = ledger.old.spare + 3 }) }
    ensures row { OnOk result (Changes client.now with_reserved positions.old positions.new) }
    ensures err { OnErr result (ledger.new ≡ ledger.old) }
    ensures none { OnErr result (positions.new ≡ positions.old) }
{
    ledger.reserve(MESSAGES)?;
    match positions.reserve(client) {
        Ok(()) => Ok(()),
        Err(Memory) => {
            ledger.release(MESSAGES);
            Err(Memory)
        }
    }
}
