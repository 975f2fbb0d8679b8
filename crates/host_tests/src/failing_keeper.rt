// A keeper that cannot be made ready.
ghost use Rattle.std.specs.Prelude.{◌≤◌, Some};
ghost use Rattle.wiki_model.specs.Steps.{Rose};

use commit_feed::{Entry, Writes};
use farm_base::FailingCalls;
use revision_keeper::{KeepFault, Keeper, MemKeeper};
use std::alloc::Global;
use wiki_titles::{ClientId, Title, Token};

/// An empty keeper in memory. The calls of `start` in its list fail, counted from 1; each failure is counted.
#[derive(Drop)]
pub struct FailingKeeper {
    inner: MemKeeper,
    starts: FailingCalls,
    faults: u64,
}

impl FailingKeeper {
    /// A keeper whose calls of `start` of these numbers fail.
    pub fn new(alloc: Global, starts: Vec<u64>) -> Self {
        FailingKeeper {
            inner: MemKeeper::new(alloc),
            starts: FailingCalls::new(starts),
            faults: 0,
        }
    }
}

impl Keeper for FailingKeeper {
    ghost content = { λ k. Some k.inner.history };

    ghost faults = { λ k. k.faults };

    fn start(&mut self) -> Result<(), KeepFault> {
        if self.starts.next_fails() {
            return Err(fault(&mut self.faults));
        }
        self.inner.start()
    }

    fn len(&mut self) -> Result<u64, KeepFault> {
        self.inner.len()
    }

    fn entry(&mut self, n: u64) -> Result<Option<Entry>, KeepFault> {
        self.inner.entry(n)
    }

    fn latest(&mut self, title: &Title, upto: u64) -> Result<Option<u64>, KeepFault> {
        self.inner.latest(title, upto)
    }

    fn by_token(&mut self, client: &ClientId, token: &Token) -> Result<Option<u64>, KeepFault> {
        self.inner.by_token(client, token)
    }

    fn writes_of(&mut self, client: &ClientId) -> Result<Writes, KeepFault> {
        self.inner.writes_of(client)
    }

    fn append(&mut self, entry: Entry) -> Result<u64, KeepFault> {
        match self.inner.append(entry) {
            Err(KeepFault::Fault) => Err(fault(&mut self.faults)),
            other => other,
        }
    }

    fn known(&self) {
        self.inner.known();
    }
}

// Counts a fault.
fn fault(faults: &mut u64) -> KeepFault
    ensures later { faults.old ≤ faults.new }
    ensures rose { Rose faults.old faults.new }
{
    *faults = faults.saturating_add(1);
    KeepFault::Fault
}
