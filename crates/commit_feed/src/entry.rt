// What the history is a list of.
ghost use Rattle.std.specs.Prelude.{◌≡◌};
ghost use Rattle.wiki_model.specs.History.{stamp_of};
ghost use Rattle.commit_feed.specs.AsModel.{entry_of};

use farm_base::Moment;
use wiki_titles::{ClientId, Text, Title, Token};

/// An entry of the history: a beat of home's clock, or a commit of one edit.
#[derive(Clone, Debug, Drop)]
pub enum Entry {
    /// Nothing was written; the clock went on.
    Beat {
        /// When home appended it.
        stamp: Moment,
    },
    /// An edit that was taken.
    Commit {
        /// When home appended it.
        stamp: Moment,
        /// The number of the purge that was issued for the edit.
        purge: u64,
        /// The page.
        title: Title,
        /// Which of the title's commits it is, counted from 1.
        revision: u64,
        /// Who made the edit.
        client: ClientId,
        /// Which of the client's commits it is, counted from 1.
        index: u64,
        /// The edit's token. No client has two commits with one token.
        token: Token,
        /// The revision that the edit was made from.
        base: u64,
        /// The page's new text.
        text: Text,
    },
}

impl Entry {
    /// When home appended the entry.
    pub fn stamp(&self) -> Moment
        ensures { result ≡ stamp_of (entry_of self.now) }
    {
        match self {
            Entry::Beat { stamp } => *stamp,
            Entry::Commit { stamp, .. } => *stamp,
        }
    }
}
