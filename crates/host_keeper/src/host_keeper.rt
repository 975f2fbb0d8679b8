// One keeper or the other, by a match in each call.
use commit_feed::{Entry, Writes};
use revision_keeper::{KeepFault, Keeper, MemKeeper};
use sqlite::Alter;
use sqlite_keeper::SqliteKeeper;
use wiki_titles::{ClientId, Title, Token};

/// The keeper of a process. One in memory exposes the history, one in a database does not.
#[derive(Drop)]
pub enum HostKeeper<S: Alter + Drop> {
    /// The history ends with the process.
    Memory(MemKeeper),
    /// The history is kept in a database.
    Stored(SqliteKeeper<S>),
}

impl<S: Alter + Drop> Keeper for HostKeeper<S> {
    ghost use Rattle.host_keeper.specs.HostKeeper.{content_of, faults_of};

    ghost content = { content_of };

    ghost faults = { faults_of };

    fn start(&mut self) -> Result<(), KeepFault> {
        match self {
            HostKeeper::Memory(keeper) => keeper.start(),
            HostKeeper::Stored(keeper) => keeper.start(),
        }
    }

    fn len(&mut self) -> Result<u64, KeepFault> {
        match self {
            HostKeeper::Memory(keeper) => keeper.len(),
            HostKeeper::Stored(keeper) => keeper.len(),
        }
    }

    fn entry(&mut self, n: u64) -> Result<Option<Entry>, KeepFault> {
        match self {
            HostKeeper::Memory(keeper) => keeper.entry(n),
            HostKeeper::Stored(keeper) => keeper.entry(n),
        }
    }

    fn latest(&mut self, title: &Title, upto: u64) -> Result<Option<u64>, KeepFault> {
        match self {
            HostKeeper::Memory(keeper) => keeper.latest(title, upto),
            HostKeeper::Stored(keeper) => keeper.latest(title, upto),
        }
    }

    fn by_token(&mut self, client: &ClientId, token: &Token) -> Result<Option<u64>, KeepFault> {
        match self {
            HostKeeper::Memory(keeper) => keeper.by_token(client, token),
            HostKeeper::Stored(keeper) => keeper.by_token(client, token),
        }
    }

    fn writes_of(&mut self, client: &ClientId) -> Result<Writes, KeepFault> {
        match self {
            HostKeeper::Memory(keeper) => keeper.writes_of(client),
            HostKeeper::Stored(keeper) => keeper.writes_of(client),
        }
    }

    fn append(&mut self, entry: Entry) -> Result<u64, KeepFault> {
        match self {
            HostKeeper::Memory(keeper) => keeper.append(entry),
            HostKeeper::Stored(keeper) => keeper.append(entry),
        }
    }

    fn known(&self) {
        match self {
            HostKeeper::Memory(keeper) => keeper.known(),
            HostKeeper::Stored(keeper) => keeper.known(),
        }
    }
}
