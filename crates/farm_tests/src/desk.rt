// What edits are written into, called at any moment.
ghost use Rattle.std.specs.Prelude.{◌≡◌, ◌≤◌, length, IfOk, IfSome};
ghost use Rattle.wiki_model.specs.Limits.{greatest_moment};
ghost use Rattle.wiki_model.specs.History as model;
ghost use Rattle.commit_feed.specs.AsModel.{entry_of};
ghost use Rattle.revision_keeper.specs.Bounds.{IsSmall};

use chronology_store::ChronologyStore;
use commit_feed::Entry;
use edit_core::{
    Begun, BegunEdit, CommitOutcome, EditAsk, EditRefusal, SavedNote, abandon, begin, commit,
    commit_with_outcome,
};
use farm_base::{Bounds, MOMENT_MAX, Memory, Moment};
use purge_relay::Ledger;
use revision_keeper::{KeepFault, Keeper};
use std::alloc::Global;
use wiki_titles::ClientId;

/// A keeper, a ledger and a store of positions.
#[derive(Drop)]
pub struct Desk<K: Keeper + Drop> {
    pub keeper: K,
    pub ledger: Ledger,
    pub positions: ChronologyStore,
}

impl<K: Keeper + Drop> Desk<K> {
    /// A desk over this keeper, with nothing sent and no position.
    pub fn new(alloc: Global, keeper: K) -> Desk<K> {
        Desk {
            keeper,
            ledger: Ledger::new(alloc),
            positions: ChronologyStore::new(alloc),
        }
    }

    /// Begins an edit, which may be committed within the default delay.
    pub fn begin(&mut self, ask: EditAsk, at: u64) -> Result<Begun, EditRefusal> {
        let at = Moment(at.min(MOMENT_MAX));
        let delay = u64::from(Bounds::DEFAULT.commit_delay);
        begin(
            &mut self.keeper,
            &mut self.ledger,
            &mut self.positions,
            ask,
            at,
            delay,
        )
    }

    /// Commits an edit that was begun, at this moment or at the last stamp. Its row is reserved once more, which
    /// changes nothing, and its messages are counted.
    pub fn commit(&mut self, edit: BegunEdit, at: u64) -> Result<CommitOutcome, EditRefusal> {
        self.positions.reserve(&edit.ask.client)?;
        if self.ledger.spare() < 2 {
            return Err(EditRefusal::Memory);
        }
        let at = moment_from(&mut self.keeper, at)?;
        commit_with_outcome(
            &mut self.keeper,
            &mut self.ledger,
            &mut self.positions,
            edit,
            at,
        )
    }

    /// Both steps at one moment, and the note alone.
    pub fn save(&mut self, ask: EditAsk, at: u64) -> Result<SavedNote, EditRefusal> {
        match self.begin(ask, at)? {
            Begun::Already(note) => Ok(note),
            Begun::Started(edit) => {
                self.positions.reserve(&edit.ask.client)?;
                if self.ledger.spare() < 2 {
                    return Err(EditRefusal::Memory);
                }
                let at = moment_from(&mut self.keeper, at)?;
                commit(
                    &mut self.keeper,
                    &mut self.ledger,
                    &mut self.positions,
                    edit,
                    at,
                )
            }
        }
    }

    /// Gives up an edit that was begun; out of memory if the ledger has less room than it reserved.
    pub fn abandon(&mut self, edit: BegunEdit) -> Result<(), Memory> {
        if self.ledger.spare() < 2 {
            return Err(Memory);
        }
        abandon(&mut self.ledger, edit);
        Ok(())
    }

    /// What is known of a client at this moment: index and entry.
    pub fn known(&self, client: u64, at: u64) -> Option<(u64, u64)> {
        let known = self.positions.find(&ClientId::number(client), Moment(at))?;
        Some((known.index, known.position.entry))
    }
}

/// This moment, or the stamp of the last entry if that is later.
#[tactic(auto, using(crate::proofs::LastStamps::last_stamp))]
pub fn moment_from<K: Keeper>(keeper: &mut K, at: u64) -> Result<Moment, KeepFault>
    ensures content { K.content keeper.new ≡ K.content keeper.old }
    ensures small { IfOk result (λ moment. moment ≤ greatest_moment) }
    ensures later { IfOk result (λ moment. IfSome (K.content keeper.new) (λ h. model.stamp_at h (length h) ≤ moment)) }
{
    let len = keeper.len()?;
    let last = match keeper.entry(len)? {
        Some(entry) => stamp_of(&entry),
        None => Moment(0),
    };
    Ok(Moment(at.min(MOMENT_MAX).max(last.0)))
}

fn stamp_of(entry: &Entry) -> Moment
    requires { IsSmall (entry_of entry.now) }
    ensures value { result ≡ model.stamp_of (entry_of entry.now) }
    ensures small { result ≤ greatest_moment }
{
    match entry {
        Entry::Beat { stamp } => *stamp,
        Entry::Commit { stamp, .. } => *stamp,
    }
}
