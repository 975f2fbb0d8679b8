// What each client has committed: how often, the last, and its numbers by token.
ghost use Rattle.std.specs.Prelude.{◌≡◌, ℕ, ◌<◌, ◌^◌, if◌then◌else◌, bytes_eq, Some, None, OnOk, OnErr, IsSome};
ghost use Rattle.std.specs.BTreeMap.{get, IsEmpty};
ghost use Rattle.wiki_titles.specs.Order.{bytes_cmp};
ghost use Rattle.wiki_model.specs.Titles.{Client as ClientText, Token as TokenText};
ghost use Rattle.revision_keeper.specs.Indexes.{writes_in, number_in, no_writes, one_more, AreSameWrites, AddsToken, AddsWrite};

use commit_feed::Writes;
use farm_base::Moment;
use std::alloc::{AllocError, Global};
use std::collections::BTreeMap;
use wiki_titles::{ClientId, Token};

/// One client's commits: their count and the last of them, and their numbers by token.
#[derive(Debug, Drop)]
pub struct ClientRow {
    writes: Writes,
    /// The number of the commit with each token, by its text.
    tokens: BTreeMap<String, u64>,
}

/// Each client's commits. A client without commits may have an empty row.
#[derive(Debug, Drop)]
pub struct ClientIndex {
    rows: BTreeMap<ClientId, ClientRow>,
}

const NO_WRITES: Writes = Writes {
    count: 0,
    last: 0,
    stamp: Moment(0),
};

impl ClientRow {
    fn new(alloc: Global) -> Self
        ensures writes { result.writes ≡ no_writes }
        ensures tokens { IsEmpty result.tokens }
    {
        ClientRow {
            writes: NO_WRITES,
            tokens: BTreeMap::new(alloc),
        }
    }

    // Adds a commit.
    fn add(&mut self, token: Token, number: u64, stamp: Moment) -> Result<(), AllocError>
        requires { self.old.writes.count < 2 ^ 63 }
        ensures writes { OnOk result (self.new.writes ≡ one_more self.old.writes number stamp) }
        ensures tokens { OnOk result (AddsToken self.old.tokens self.new.tokens token number) }
        ensures writes_stay { OnErr result (self.new.writes ≡ self.old.writes) }
        ensures tokens_stay { OnErr result (self.new.tokens.entries ≡ self.old.tokens.entries) }
    {
        self.tokens.insert(token.into_text(), number)?;
        self.writes = Writes {
            count: self.writes.count + 1,
            last: number,
            stamp,
        };
        Ok(())
    }
}

impl ClientIndex {
    /// No client yet. It takes no memory.
    pub fn new(alloc: Global) -> Self
        ensures writes { (client : ClientText) → writes_in result client ≡ no_writes }
        ensures tokens { (client : ClientText) (token : TokenText) → number_in result client token ≡ None }
    {
        ClientIndex {
            rows: BTreeMap::new(alloc),
        }
    }

    /// How often the client has committed, and its last commit.
    pub fn writes_of(&self, client: &ClientId) -> Writes
        ensures { result ≡ writes_in self.now client.now }
    {
        match self.rows.get(client) {
            Some(row) => row.writes,
            None => NO_WRITES,
        }
    }

    /// The number of the client's commit with the token.
    pub fn by_token(&self, client: &ClientId, token: &Token) -> Option<u64>
        ensures { result ≡ number_in self.now client.now token.now }
    {
        match self.rows.get(client) {
            Some(row) => row.tokens.get(token.text()).copied(),
            None => None,
        }
    }

    /// Makes a row for the client if it has none. If memory is refused nothing has changed.
    pub fn open(&mut self, alloc: Global, client: &ClientId) -> Result<(), AllocError>
        ensures same { AreSameWrites self.old self.new }
        ensures open { OnOk result (IsSome (get bytes_cmp self.new.rows client.now)) }
    {
        if !self.rows.contains_key(client) {
            self.rows.insert(*client, ClientRow::new(alloc))?;
        }
        Ok(())
    }

    /// Adds a commit to the client's row. If memory is refused nothing has changed.
    pub fn add(
        &mut self,
        client: &ClientId,
        token: Token,
        number: u64,
        stamp: Moment,
    ) -> Result<(), AllocError>
        requires row { IsSome (get bytes_cmp self.old.rows client.now) }
        requires room { (writes_in self.old client.now).count < 2 ^ 63 }
        ensures ok { OnOk result (AddsWrite self.old self.new client.now token number stamp) }
        ensures err { OnErr result (AreSameWrites self.old self.new) }
    {
        match self.rows.get_mut(client) {
            Some(row) => row.add(token, number, stamp),
            None => Ok(()),
        }
    }
}
