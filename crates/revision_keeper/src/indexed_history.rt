// The entries with an index by title and one by client.
ghost use Rattle.std.specs.Prelude.{◌≡◌, ◌≤◌, ◌<◌, ℕ, ◌+◌, ◌-◌, ◌^◌, List, [], ◌∷◌, ◌++◌, map, length, slice_get, option_map, IfOk, IfSome, OnOk, OnErr};
ghost use Rattle.std.specs.Option.{option_copied};
ghost use Rattle.wiki_model.specs.History.{IsHistory, entry_at, page, number_of, commit_with_token};
ghost use Rattle.commit_feed.specs.AsModel.{entry_of};
ghost use Rattle.revision_keeper.specs.Bounds.{IsSmall, AreSmall, writes_of};
ghost use Rattle.revision_keeper.specs.Indexes.{AreIndexed, AreSameNumbers, AreSameWrites, AddsNumber, AddsWrite, writes_in};

use crate::client_index::ClientIndex;
use crate::title_index::TitleIndex;
use commit_feed::{Entry, Writes};
use farm_base::Moment;
use std::alloc::{AllocError, Global};
use std::marker::Model;
use wiki_titles::{ClientId, Title, Token};

/// The entries, numbered from 1, with an index by title and one by client. Contracts see the list.
///
/// A look-up costs a logarithm of the number of entries. So does `push`, but for the growth of a list.
#[derive(Drop)]
pub struct IndexedHistory {
    alloc: Global,
    entries: Vec<Entry>,
    titles: TitleIndex,
    clients: ClientIndex,
}

impl Model for IndexedHistory {
    ghost use Rattle.std.specs.Prelude.{List, map};
    ghost use Rattle.wiki_model.specs.History.{Entry};
    ghost use Rattle.commit_feed.specs.AsModel.{entry_of};
    ghost use Rattle.revision_keeper.specs.Indexes.{AreIndexed};

    ghost Value = { List Entry };

    ghost view = { λ h. map entry_of h.entries.items };

    ghost invariant = { λ h. AreIndexed (map entry_of h.entries.items) h.titles h.clients };
}

impl IndexedHistory {
    ghost use Rattle.std.specs.Prelude.{◌≡◌, ◌≤◌, ◌<◌, ℕ, ◌+◌, ◌^◌, List, [], ◌∷◌, ◌++◌, map, length, option_map, IfOk, IfSome, OnOk, OnErr};
    ghost use Rattle.wiki_model.specs.History.{IsHistory, entry_at, page, number_of, commit_with_token};
    ghost use Rattle.commit_feed.specs.AsModel.{entry_of};
    ghost use Rattle.revision_keeper.specs.Bounds.{IsSmall, AreSmall, writes_of};

    /// An empty history. It takes no memory.
    pub fn new(alloc: Global) -> Self
        ensures { result ≡ [] }
    {
        IndexedHistory {
            alloc,
            entries: Vec::new(alloc),
            titles: TitleIndex::new(alloc),
            clients: ClientIndex::new(alloc),
        }
    }

    /// The number of entries. Besides, the list is a history at every moment.
    pub fn len(&self) -> u64
        ensures len { result ≡ length self.now }
        ensures small { result < 2 ^ 63 }
        ensures history { IsHistory self.now }
    {
        self.entries.len() as u64
    }

    /// Entry `n`, counted from 1. Its text is shared.
    pub fn entry(&self, n: u64) -> Result<Option<Entry>, AllocError>
        ensures value { IfOk result (λ found. option_map entry_of found ≡ entry_at self.now n) }
        ensures small { IfOk result (λ found. IfSome (option_map entry_of found) IsSmall) }
    {
        // Every number that is answered is at most the length.
        let _length = self.len();
        match entry_in(&self.entries, n) {
            Some(entry) => Ok(Some(entry.clone()?)),
            None => Ok(None),
        }
    }

    /// The number of the last commit on the title among the first `upto` entries.
    pub fn latest(&self, title: &Title, upto: u64) -> Option<u64>
        ensures value { result ≡ number_of (page self.now upto title.now) }
        ensures small { IfSome result (λ n. n < 2 ^ 63) }
    {
        // Every number that is answered is at most the length.
        let _length = self.len();
        self.titles.latest(title, upto)
    }

    /// The number of the client's commit with this token.
    pub fn by_token(&self, client: &ClientId, token: &Token) -> Option<u64>
        ensures value { result ≡ number_of (commit_with_token self.now client.now token.now) }
        ensures small { IfSome result (λ n. n < 2 ^ 63) }
    {
        // Every number that is answered is at most the length.
        let _length = self.len();
        self.clients.by_token(client, token)
    }

    /// What the client has committed.
    pub fn writes_of(&self, client: &ClientId) -> Writes
        ensures value { result ≡ writes_of self.now client.now }
        ensures small { AreSmall result }
    {
        // Every number that is answered is at most the length.
        let _length = self.len();
        self.clients.writes_of(client)
    }

    /// Appends an entry that may follow, and answers its number. If memory is refused nothing has changed.
    pub fn push(&mut self, entry: Entry) -> Result<u64, AllocError>
        requires { IsHistory (self.old ++ entry_of entry ∷ []) }
        ensures number { IfOk result (λ n. n ≡ length self.old + 1) }
        ensures small { IfOk result (λ n. n < 2 ^ 63) }
        ensures ok { OnOk result (self.new ≡ self.old ++ entry_of entry ∷ []) }
        ensures err { OnErr result (self.new ≡ self.old) }
    {
        push_entry(
            self.alloc,
            &mut self.entries,
            &mut self.titles,
            &mut self.clients,
            entry,
        )
    }
}

// The entry at a place counted from 1.
fn entry_in(entries: &[Entry], n: u64) -> Option<&Entry>
    ensures { option_map entry_of (option_copied result) ≡ entry_at (map entry_of entries.now) n }
{
    if n == 0 {
        return None;
    }
    entry_from(entries, n)
}

fn entry_from(entries: &[Entry], n: u64) -> Option<&Entry>
    requires { 0 < n }
    ensures { option_copied result ≡ slice_get entries.now (n - 1) }
{
    entries.get(n as usize - 1)
}

// Appends an entry, and makes the indexes agree.
fn push_entry(
    alloc: Global,
    entries: &mut Vec<Entry>,
    titles: &mut TitleIndex,
    clients: &mut ClientIndex,
    entry: Entry,
) -> Result<u64, AllocError>
    requires before { AreIndexed (map entry_of entries.old.items) titles.old clients.old }
    requires after { IsHistory (map entry_of entries.old.items ++ entry_of entry ∷ []) }
    ensures number { IfOk result (λ n. n ≡ length entries.old.items + 1) }
    ensures ok { OnOk result (map entry_of entries.new.items ≡ map entry_of entries.old.items ++ entry_of entry ∷ []) }
    ensures err { OnErr result (map entry_of entries.new.items ≡ map entry_of entries.old.items) }
    ensures indexed { AreIndexed (map entry_of entries.new.items) titles.new clients.new }
{
    // From here on there is room, so that the entry itself cannot be refused once it is indexed.
    entries.try_reserve(1)?;
    index_entry(alloc, entries, titles, clients, &entry)?;
    entries.push(entry)?;
    Ok(entries.len() as u64)
}

// Makes the indexes agree with the entries and one more. If memory is refused they agree with the entries as before.
fn index_entry(
    alloc: Global,
    entries: &[Entry],
    titles: &mut TitleIndex,
    clients: &mut ClientIndex,
    entry: &Entry,
) -> Result<(), AllocError>
    requires short { length entries.now < 2 ^ 63 }
    requires before { AreIndexed (map entry_of entries.now) titles.old clients.old }
    requires after { IsHistory (map entry_of entries.now ++ entry_of entry.now ∷ []) }
    ensures ok { let longer = map entry_of entries.now ++ entry_of entry.now ∷ [] in
        OnOk result (AreIndexed longer titles.new clients.new) }
    ensures err { OnErr result (AreIndexed (map entry_of entries.now) titles.new clients.new) }
{
    match entry {
        Entry::Beat { .. } => Ok(()),
        Entry::Commit {
            stamp,
            title,
            client,
            token,
            ..
        } => {
            let commit = CommitKey {
                title,
                client,
                token,
                number: entries.len() as u64 + 1,
                stamp: *stamp,
            };
            index_commit(alloc, titles, clients, &commit)
        }
    }
}

// What the indexes need of a commit.
#[derive(Clone, Copy)]
struct CommitKey<'a> {
    title: &'a Title,
    client: &'a ClientId,
    token: &'a Token,
    number: u64,
    stamp: Moment,
}

// Adds a commit to both indexes, or to none of them.
fn index_commit(
    alloc: Global,
    titles: &mut TitleIndex,
    clients: &mut ClientIndex,
    commit: &CommitKey<'_>,
) -> Result<(), AllocError>
    requires { (writes_in clients.old commit.now.client.now).count < 2 ^ 63 }
    ensures titles { OnOk result (AddsNumber titles.old titles.new commit.now.title.now commit.now.number) }
    ensures clients { let client = commit.now.client.now in
        let token = commit.now.token.now in
        let number = commit.now.number in
        OnOk result (AddsWrite clients.old clients.new client token number commit.now.stamp) }
    ensures titles_stay { OnErr result (AreSameNumbers titles.old titles.new) }
    ensures clients_stay { OnErr result (AreSameWrites clients.old clients.new) }
{
    let token = commit.token.clone()?;
    titles.open(alloc, commit.title)?;
    clients.open(alloc, commit.client)?;
    titles.push(commit.title, commit.number)?;
    let added = clients.add(commit.client, token, commit.number, commit.stamp);
    if added.is_err() {
        titles.pop(commit.title);
    }
    added
}
