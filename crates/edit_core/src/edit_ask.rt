// What is asked of an edit, and what it answers.
use farm_base::Memory;
use purge_relay::Issued;
use revision_keeper::KeepFault;
use wiki_titles::{ClientId, Text, Title, Token};

/// An edit of a page.
#[derive(Debug, Drop)]
pub struct EditAsk {
    /// Who edits.
    pub client: ClientId,
    /// Names the edit: a client's edit with the same token is saved once.
    pub token: Token,
    /// The page that is edited.
    pub title: Title,
    /// The revision from which the edit was made; 0 if there is no page.
    pub base: u64,
    /// The page's whole new text.
    pub text: Text,
}

/// What a saved edit became.
#[derive(Clone, Copy, Debug, PartialEq, Eq)]
pub struct SavedNote {
    /// The number of its entry in the history, from 1.
    pub entry: u64,
    /// The page's revision: how many commits the title has with this one.
    pub revision: u64,
    /// Who edited.
    pub client: ClientId,
    /// How many commits the client has with this one.
    pub index: u64,
    /// The second of its stamp.
    pub seconds: u64,
}

/// What a commit did.
#[derive(Clone, Copy, Debug, PartialEq, Eq)]
pub struct CommitOutcome {
    /// What the edit became.
    pub note: SavedNote,
    /// The second purge, if the commit came after its due moment. The caller has home receive it.
    pub second_purge: Option<Issued>,
}

/// Why an edit is not made, in the order of the tests.
#[derive(Clone, Copy, Debug, PartialEq, Eq)]
pub enum EditRefusal {
    /// The page's revision is `current`, and the edit was made from `base`.
    Conflict { base: u64, current: u64 },
    /// The client's token already names another edit, which is this entry.
    TokenReused { entry: u64 },
    /// The keeper failed, and has counted it.
    Store,
    /// Out of memory.
    Memory,
}

impl From<KeepFault> for EditRefusal {
    ghost use Rattle.std.specs.Prelude.{◌≡◌};
    ghost use Rattle.edit_core.specs.AsModel.{refusal_of};

    ghost from_gives = { λ fault refusal. refusal ≡ refusal_of fault };

    fn from(fault: KeepFault) -> EditRefusal {
        match fault {
            KeepFault::Fault => EditRefusal::Store,
            KeepFault::Memory => EditRefusal::Memory,
        }
    }
}

impl From<Memory> for EditRefusal {
    ghost use Rattle.std.specs.Prelude.{◌≡◌};
    ghost use Rattle.edit_core.specs.declared.edit_ask.EditRefusal.TheVariants.{Memory};

    ghost from_gives = { λ _ refusal. refusal ≡ Memory };

    fn from(_memory: Memory) -> EditRefusal {
        EditRefusal::Memory
    }
}
