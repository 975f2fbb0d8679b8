// The keeper over a connection, or over the refusal of opening one.
ghost use Rattle.std.specs.Prelude.{◌≡◌, ◌<◌, ◌^◌, None, IfOk, IfSome, option_map};
ghost use Rattle.commit_feed.specs.AsModel.{entry_of};
ghost use Rattle.revision_keeper.specs.Causes.{HasFault};
ghost use Rattle.revision_keeper.specs.Bounds.{IsSmall, AreSmall};
ghost use Rattle.sqlite_keeper.specs.SqliteKeeper.{IsRefusedIf, faults_after};

use crate::table_fault::{TableFault, answer};
use crate::tables::Tables;
use commit_feed::{Entry, Writes};
use revision_keeper::{KeepFault, Keeper};
use sqlite::{Alter, Connection, Error};
use std::alloc::Global;
use std::marker::Model;
use wiki_titles::{ClientId, Title, Token};

/// A keeper of the history in a database. It does not expose the history.
///
/// It is to be the only writer of the database. An answer costs a few looks into the database's trees, and a commit a
/// write that the disk has confirmed; neither grows with the history but for the depth of the trees. `start` reads the
/// version alone, unless it makes tables or brings those of version 1 over, which goes over the whole history once.
#[derive(Drop)]
pub struct SqliteKeeper<S: Alter + Drop> {
    opened: Result<Tables<S>, Error>,
    faults: u64,
}

impl<S: Alter + Drop> Model for SqliteKeeper<S> {
    ghost use Rattle.sqlite_keeper.specs.SqliteKeeper.{SqliteKeeperState, refusal_of};

    ghost Value = { SqliteKeeperState };

    ghost view = { λ k. record { refusal = refusal_of k.opened; faults = k.faults } };
}

impl<S: Alter + Drop> SqliteKeeper<S> {
    ghost use Rattle.std.specs.Prelude.{◌≡◌};
    ghost use Rattle.sqlite_keeper.specs.SqliteKeeper.{refusal_of};

    /// A keeper over a connection, or over the refusal of opening one, which then answers every call. It has counted
    /// no fault. Nothing is read before `start`.
    pub fn new(alloc: Global, opened: Result<Connection<S>, Error>) -> Self
        ensures { result ≡ record { refusal = refusal_of opened; faults = 0 } }
    {
        let opened = match opened {
            Ok(conn) => Ok(Tables::new(alloc, conn)),
            Err(error) => Err(error),
        };
        SqliteKeeper { opened, faults: 0 }
    }

    /// How many faults it has counted.
    pub fn faults(&self) -> u64
        ensures { result ≡ self.now.faults }
    {
        self.faults
    }

    /// Gives back what it was made of, so that a connection may be closed.
    pub fn into_opened(self) -> Result<Connection<S>, Error>
        ensures { refusal_of result ≡ self.refusal }
    {
        match self.opened {
            Ok(tables) => Ok(tables.into_connection()),
            Err(error) => Err(error),
        }
    }
}

impl<S: Alter + Drop> Keeper for SqliteKeeper<S> {
    ghost content = { λ _. None };

    ghost faults = { λ k. k.faults };

    fn start(&mut self) -> Result<(), KeepFault>
        ensures refused { IsRefusedIf self.old.refusal result }
        ensures refusal { self.new.refusal ≡ self.old.refusal }
        ensures counts { self.new.faults ≡ faults_after result self.old.faults }
        ensures cause { HasFault self.old.faults self.new.faults result }
    {
        let found = match &mut self.opened {
            Ok(tables) => tables.start(),
            Err(error) => Err(TableFault::from(*error)),
        };
        answer(&mut self.faults, found)
    }

    fn len(&mut self) -> Result<u64, KeepFault>
        ensures refused { IsRefusedIf self.old.refusal result }
        ensures refusal { self.new.refusal ≡ self.old.refusal }
        ensures small { IfOk result (λ n. n < 2 ^ 63) }
        ensures counts { self.new.faults ≡ faults_after result self.old.faults }
        ensures cause { HasFault self.old.faults self.new.faults result }
    {
        let found = match &mut self.opened {
            Ok(tables) => tables.length(),
            Err(error) => Err(TableFault::from(*error)),
        };
        answer(&mut self.faults, found)
    }

    fn entry(&mut self, n: u64) -> Result<Option<Entry>, KeepFault>
        ensures refused { IsRefusedIf self.old.refusal result }
        ensures refusal { self.new.refusal ≡ self.old.refusal }
        ensures small { IfOk result (λ found. IfSome (option_map entry_of found) IsSmall) }
        ensures counts { self.new.faults ≡ faults_after result self.old.faults }
        ensures cause { HasFault self.old.faults self.new.faults result }
    {
        let found = match &mut self.opened {
            Ok(tables) => tables.entry(n),
            Err(error) => Err(TableFault::from(*error)),
        };
        answer(&mut self.faults, found)
    }

    fn latest(&mut self, title: &Title, upto: u64) -> Result<Option<u64>, KeepFault>
        ensures refused { IsRefusedIf self.old.refusal result }
        ensures refusal { self.new.refusal ≡ self.old.refusal }
        ensures small { IfOk result (λ found. IfSome found (λ n. n < 2 ^ 63)) }
        ensures counts { self.new.faults ≡ faults_after result self.old.faults }
        ensures cause { HasFault self.old.faults self.new.faults result }
    {
        let found = match &mut self.opened {
            Ok(tables) => tables.latest(title, upto),
            Err(error) => Err(TableFault::from(*error)),
        };
        answer(&mut self.faults, found)
    }

    fn by_token(&mut self, client: &ClientId, token: &Token) -> Result<Option<u64>, KeepFault>
        ensures refused { IsRefusedIf self.old.refusal result }
        ensures refusal { self.new.refusal ≡ self.old.refusal }
        ensures small { IfOk result (λ found. IfSome found (λ n. n < 2 ^ 63)) }
        ensures counts { self.new.faults ≡ faults_after result self.old.faults }
        ensures cause { HasFault self.old.faults self.new.faults result }
    {
        let found = match &mut self.opened {
            Ok(tables) => tables.by_token(client, token),
            Err(error) => Err(TableFault::from(*error)),
        };
        answer(&mut self.faults, found)
    }

    fn writes_of(&mut self, client: &ClientId) -> Result<Writes, KeepFault>
        ensures refused { IsRefusedIf self.old.refusal result }
        ensures refusal { self.new.refusal ≡ self.old.refusal }
        ensures small { IfOk result AreSmall }
        ensures counts { self.new.faults ≡ faults_after result self.old.faults }
        ensures cause { HasFault self.old.faults self.new.faults result }
    {
        let found = match &mut self.opened {
            Ok(tables) => tables.writes_of(client),
            Err(error) => Err(TableFault::from(*error)),
        };
        answer(&mut self.faults, found)
    }

    fn append(&mut self, entry: Entry) -> Result<u64, KeepFault>
        ensures refused { IsRefusedIf self.old.refusal result }
        ensures refusal { self.new.refusal ≡ self.old.refusal }
        ensures small { IfOk result (λ n. n < 2 ^ 63) }
        ensures counts { self.new.faults ≡ faults_after result self.old.faults }
        ensures cause { HasFault self.old.faults self.new.faults result }
    {
        let found = match &mut self.opened {
            Ok(tables) => tables.append(entry),
            Err(error) => Err(TableFault::from(*error)),
        };
        answer(&mut self.faults, found)
    }

    fn known(&self) {}
}
