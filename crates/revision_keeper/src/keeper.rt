// What may be asked of the history, wherever it lies.
ghost use Rattle.std.specs.Prelude.{◌≡◌, ℕ, ◌<◌, ◌^◌, List, option_map, IfSome, IfOk, OnOk, OnErr};
ghost use Rattle.std.specs.declared.option.Option.{Option};
ghost use Rattle.wiki_model.specs.History as model;
ghost use Rattle.wiki_model.specs.History.{IsHistory};
ghost use Rattle.commit_feed.specs.AsModel.{entry_of};
ghost use Rattle.revision_keeper.specs.Causes.{HasFault};
ghost use Rattle.revision_keeper.specs.Bounds.{IsSmall, AreSmall};
ghost use Rattle.revision_keeper.specs.Keeper.{IsLength, IsEntryAt, IsLatest, IsByToken, AreWritesOf, IsNextNumber, MayFollow, with_entry, IsShort};

use commit_feed::{Entry, Writes};
use std::alloc::AllocError;
use wiki_titles::{ClientId, Title, Token};

/// Why a keeper does not do what it is asked.
#[derive(Clone, Copy, Debug, PartialEq, Eq)]
pub enum KeepFault {
    /// The outside failed, and the keeper has counted it.
    Fault,
    /// Out of memory.
    Memory,
}

impl From<AllocError> for KeepFault {
    ghost use Rattle.std.specs.Prelude.{◌≡◌};
    ghost use Rattle.revision_keeper.specs.declared.keeper.KeepFault.TheVariants.{Memory};

    ghost from_gives = { λ _ fault. fault ≡ Memory };

    fn from(_error: AllocError) -> KeepFault {
        KeepFault::Memory
    }
}

/// What keeps the one history. It may expose the history as a list of entries, and it counts its faults.
///
/// Entries are numbered from 1. If the history is exposed, each answer is the list's. Every length, number,
/// revision, index and count that is answered is below 2^63, and every stamp at most `MOMENT_MAX`. A call that
/// fails leaves the history as it was.
pub trait Keeper {
    /// The entries, if the keeper exposes them.
    ghost content: { Self → Option (List model.Entry) };

    /// How often the keeper has failed. It never falls.
    ghost faults: { Self → ℕ };

    /// Makes the keeper ready. It is called before the other calls; called again it changes nothing.
    fn start(&mut self) -> Result<(), KeepFault>
        ensures content { content self.new ≡ content self.old }
        ensures cause { HasFault (faults self.old) (faults self.new) result };

    /// The number of entries.
    fn len(&mut self) -> Result<u64, KeepFault>
        ensures value { IsLength (content self.old) result }
        ensures content { content self.new ≡ content self.old }
        ensures small { IfOk result (λ n. n < 2 ^ 63) }
        ensures cause { HasFault (faults self.old) (faults self.new) result };

    /// Entry `n`, counted from 1; None if there is none. Its text is shared.
    fn entry(&mut self, n: u64) -> Result<Option<Entry>, KeepFault>
        ensures value { IsEntryAt (content self.old) n result }
        ensures content { content self.new ≡ content self.old }
        ensures small { IfOk result (λ found. IfSome (option_map entry_of found) IsSmall) }
        ensures cause { HasFault (faults self.old) (faults self.new) result };

    /// The number of the last commit on the title among the first `upto` entries; None if there is none.
    fn latest(&mut self, title: &Title, upto: u64) -> Result<Option<u64>, KeepFault>
        ensures value { IsLatest (content self.old) title.now upto result }
        ensures content { content self.new ≡ content self.old }
        ensures small { IfOk result (λ found. IfSome found (λ n. n < 2 ^ 63)) }
        ensures cause { HasFault (faults self.old) (faults self.new) result };

    /// The number of the client's commit with this token; None if there is none.
    fn by_token(&mut self, client: &ClientId, token: &Token) -> Result<Option<u64>, KeepFault>
        ensures value { IsByToken (content self.old) client.now token.now result }
        ensures content { content self.new ≡ content self.old }
        ensures small { IfOk result (λ found. IfSome found (λ n. n < 2 ^ 63)) }
        ensures cause { HasFault (faults self.old) (faults self.new) result };

    /// How often the client has committed, and its last commit.
    fn writes_of(&mut self, client: &ClientId) -> Result<Writes, KeepFault>
        ensures value { AreWritesOf (content self.old) client.now result }
        ensures content { content self.new ≡ content self.old }
        ensures small { IfOk result AreSmall }
        ensures cause { HasFault (faults self.old) (faults self.new) result };

    /// Appends an entry that may follow, and answers its number. If it fails the history is as it was.
    fn append(&mut self, entry: Entry) -> Result<u64, KeepFault>
        requires { MayFollow (content self.old) (entry_of entry) }
        ensures appended { OnOk result (content self.new ≡ with_entry (entry_of entry) (content self.old)) }
        ensures number { IsNextNumber (content self.old) result }
        ensures refused { OnErr result (content self.new ≡ content self.old) }
        ensures small { IfOk result (λ n. n < 2 ^ 63) }
        ensures cause { HasFault (faults self.old) (faults self.new) result };

    /// It does nothing: it tells a caller what holds of an exposed history at every moment.
    fn known(&self)
        ensures history { IfSome (content self.now) IsHistory }
        ensures short { IsShort (content self.now) };
}
