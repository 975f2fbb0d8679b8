// The history as a list, and what is asked of it.
use crate::Entry;
use crate::find::{Wanted, count_of, entry_at, first_of, last_of};
use farm_base::{Memory, Moment};
use std::alloc::Global;
use std::marker::Model;
use wiki_titles::{ClientId, Title, Token};

/// The history, as the list of its entries, numbered from 1. Contracts see the list, and it is a history at every
/// moment.
///
/// [`Feed::latest`], [`Feed::by_token`] and [`Feed::writes_of`] are linear in the entries.
#[derive(Debug, Drop)]
pub struct Feed {
    entries: Vec<Entry>,
}

impl Model for Feed {
    ghost use Rattle.std.specs.Prelude.{List, map};
    ghost use Rattle.wiki_model.specs.History.{Entry, IsHistory};
    ghost use Rattle.commit_feed.specs.AsModel.{entry_of};

    ghost Value = { List Entry };

    ghost view = { λ f. map entry_of f.entries.items };

    ghost invariant = { λ f. IsHistory (map entry_of f.entries.items) };
}

impl Feed {
    ghost use Rattle.std.specs.Prelude.{◌≡◌, ◌+◌, ◌^◌, ◌<◌, List, [], ◌∷◌, ◌++◌, ◌==◌, length, option_map, IfOk, OnOk, OnErr};
    ghost use Rattle.std.specs.Option.{option_copied};
    ghost use Rattle.wiki_model.specs.History.{IsHistory, entry_at, page, number_of, commit_with_token, count, own, stamp_at};
    ghost use Rattle.commit_feed.specs.AsModel.{entry_of};

    /// An empty history. It takes no memory.
    pub fn new(alloc: Global) -> Self
        ensures { result ≡ [] }
    {
        Feed {
            entries: Vec::new(alloc),
        }
    }

    /// The number of entries. Besides, the list is a history at every moment.
    pub fn len(&self) -> u64
        ensures len { result ≡ length self.now }
        ensures small { result < 2 ^ 63 }
        ensures history { IsHistory self.now }
    {
        self.entries.len() as u64
    }

    /// Whether there is no entry.
    pub fn is_empty(&self) -> bool
        ensures { result ≡ (length self.now == 0) }
    {
        self.entries.is_empty()
    }

    /// Entry `n`, counted from 1; there is none of number 0.
    pub fn entry(&self, n: u64) -> Option<&Entry>
        ensures { option_map entry_of (option_copied result) ≡ entry_at self.now n }
    {
        if n == 0 {
            return None;
        }
        entry_at(&self.entries, n)
    }

    /// Appends an entry that may follow, and answers its number. If memory runs out, the list stays.
    pub fn push(&mut self, entry: Entry) -> Result<u64, Memory>
        requires { IsHistory (self.old ++ entry_of entry ∷ []) }
        ensures number { IfOk result (λ n. n ≡ length self.old + 1) }
        ensures ok { OnOk result (self.new ≡ self.old ++ entry_of entry ∷ []) }
        ensures err { OnErr result (self.new ≡ self.old) }
    {
        self.entries.push(entry)?;
        Ok(self.entries.len() as u64)
    }

    /// The number of the last commit on the title among the first `upto` entries.
    pub fn latest(&self, title: &Title, upto: u64) -> Option<u64>
        ensures { result ≡ number_of (page self.now upto title.now) }
    {
        let (prefix, _) = self.entries.split_at(self.entries.len().min(upto as usize));
        last_of(prefix, Wanted::On(title))
    }

    /// The number of the client's commit with this token.
    pub fn by_token(&self, client: &ClientId, token: &Token) -> Option<u64>
        ensures { result ≡ number_of (commit_with_token self.now client.now token.now) }
    {
        first_of(&self.entries, Wanted::Of(client, token))
    }

    /// What the client has committed.
    pub fn writes_of(&self, client: &ClientId) -> Writes
        ensures count { result.count ≡ count self.now client.now }
        ensures last { result.last ≡ own self.now client.now }
        ensures stamp { result.stamp ≡ stamp_at self.now (own self.now client.now) }
    {
        let last = last_of(&self.entries, Wanted::By(client)).unwrap_or(0);
        let stamp = match self.entry(last) {
            Some(entry) => entry.stamp(),
            None => Moment(0),
        };
        Writes {
            count: count_of(&self.entries, Wanted::By(client)),
            last,
            stamp,
        }
    }
}

/// What a client has committed; zeros if it has nothing.
#[derive(Clone, Copy, Debug, PartialEq, Eq)]
pub struct Writes {
    /// How many commits.
    pub count: u64,
    /// The number of the last one's entry.
    pub last: u64,
    /// The last one's stamp.
    pub stamp: Moment,
}
