// The history in memory, in ordered indexes.
ghost use Rattle.std.specs.Prelude.{◌≡◌, ◌≤◌, ◌<◌, ℕ, ◌+◌, ◌^◌, List, [], ◌∷◌, ◌++◌, length, Some, Ok, if◌then◌else◌, option_map, IfOk, IfSome, OnOk, OnErr, IsOk, IsErrOf};
ghost use Rattle.wiki_model.specs.History.{IsHistory, entry_at, page, number_of, commit_with_token};
ghost use Rattle.commit_feed.specs.AsModel.{entry_of};
ghost use Rattle.farm_base.specs.Causes.{counted};
ghost use Rattle.farm_base.specs.FailingCalls.{one_more};
ghost use Rattle.revision_keeper.specs.Causes.{HasFault};
ghost use Rattle.revision_keeper.specs.Bounds.{IsSmall, AreSmall, writes_of};
ghost use Rattle.revision_keeper.specs.MemKeeper.{MemKeeperState, is_named, fails_next, is_fault};

use crate::indexed_history::IndexedHistory;
use crate::{KeepFault, Keeper};
use commit_feed::{Entry, Writes};
use farm_base::FailingCalls;
use std::alloc::Global;
use std::marker::Model;
use wiki_titles::{ClientId, Title, Token};

/// A keeper in memory, which always exposes its history. The appends in its list fail, counted from 1, and no
/// others; each failure is counted.
///
/// A look-up costs a logarithm of the history. So does `append`, but for the growth of a list and for one pass over
/// the list of failing appends. No call goes over the history. An entry shares its text, and takes a row of the list
/// and two of the indexes.
#[derive(Drop)]
pub struct MemKeeper {
    history: IndexedHistory,
    /// The appends that were asked for, and which of them fail.
    appends: FailingCalls,
    /// How many of them failed.
    faults: u64,
}

impl Model for MemKeeper {
    ghost use Rattle.revision_keeper.specs.MemKeeper.{MemKeeperState};

    ghost Value = { MemKeeperState };

    ghost view = { λ k. record {
      history = k.history;
      failing = k.appends.numbers;
      calls = k.appends.made;
      faults = k.faults;
    } };
}

impl MemKeeper {
    ghost use Rattle.std.specs.Prelude.{◌≡◌, []};

    /// An empty keeper of which no append fails. It takes no memory.
    pub fn new(alloc: Global) -> Self
        ensures { result ≡ record { history = []; failing = []; calls = 0; faults = 0 } }
    {
        MemKeeper::failing(alloc, Vec::new(alloc))
    }

    /// An empty keeper of which these appends fail, counted from 1. It takes no memory.
    pub fn failing(alloc: Global, calls: Vec<u64>) -> Self
        ensures { result ≡ record { history = []; failing = calls.items; calls = 0; faults = 0 } }
    {
        MemKeeper {
            history: IndexedHistory::new(alloc),
            appends: FailingCalls::new(calls),
            faults: 0,
        }
    }
}

impl Keeper for MemKeeper {
    ghost content = { λ k. Some k.history };

    ghost faults = { λ k. k.faults };

    fn start(&mut self) -> Result<(), KeepFault>
        ensures ready { IsOk result }
        ensures same { self.new ≡ self.old }
    {
        Ok(())
    }

    fn len(&mut self) -> Result<u64, KeepFault>
        ensures value { result ≡ Ok (length self.old.history) }
        ensures same { self.new ≡ self.old }
        ensures small { IfOk result (λ n. n < 2 ^ 63) }
    {
        Ok(self.history.len())
    }

    fn entry(&mut self, n: u64) -> Result<Option<Entry>, KeepFault>
        ensures value { IfOk result (λ found. option_map entry_of found ≡ entry_at self.old.history n) }
        ensures sure { ¬ IsErrOf result KeepFault.Fault }
        ensures same { self.new ≡ self.old }
        ensures small { IfOk result (λ found. IfSome (option_map entry_of found) IsSmall) }
    {
        Ok(self.history.entry(n)?)
    }

    fn latest(&mut self, title: &Title, upto: u64) -> Result<Option<u64>, KeepFault>
        ensures value { result ≡ Ok (number_of (page self.old.history upto title.now)) }
        ensures same { self.new ≡ self.old }
        ensures small { IfOk result (λ found. IfSome found (λ n. n < 2 ^ 63)) }
    {
        Ok(self.history.latest(title, upto))
    }

    fn by_token(&mut self, client: &ClientId, token: &Token) -> Result<Option<u64>, KeepFault>
        ensures value { result ≡ Ok (number_of (commit_with_token self.old.history client.now token.now)) }
        ensures same { self.new ≡ self.old }
        ensures small { IfOk result (λ found. IfSome found (λ n. n < 2 ^ 63)) }
    {
        Ok(self.history.by_token(client, token))
    }

    fn writes_of(&mut self, client: &ClientId) -> Result<Writes, KeepFault>
        ensures value { result ≡ Ok (writes_of self.old.history client.now) }
        ensures same { self.new ≡ self.old }
        ensures small { IfOk result AreSmall }
    {
        Ok(self.history.writes_of(client))
    }

    fn append(&mut self, entry: Entry) -> Result<u64, KeepFault>
        requires { IsHistory (self.old.history ++ entry_of entry ∷ []) }
        ensures appended { OnOk result (self.new.history ≡ self.old.history ++ entry_of entry ∷ []) }
        ensures number { IfOk result (λ n. n ≡ length self.old.history + 1) }
        ensures refused { OnErr result (self.new.history ≡ self.old.history) }
        ensures small { IfOk result (λ n. n < 2 ^ 63) }
        ensures fails { is_fault result ≡ fails_next self.old }
        ensures counts { self.new.faults ≡ (if fails_next self.old then counted self.old.faults else self.old.faults) }
        ensures later { self.old.faults ≤ self.new.faults }
        ensures calls { self.new.calls ≡ counted self.old.calls }
        ensures failing { self.new.failing ≡ self.old.failing }
    {
        if next_fails(&mut self.appends) {
            self.faults = self.faults.saturating_add(1);
            return Err(KeepFault::Fault);
        }
        Ok(self.history.push(entry)?)
    }

    fn known(&self)
        ensures history { IsHistory self.now.history }
        ensures short { length self.now.history < 2 ^ 63 }
    {
        self.history.len();
    }
}

// Counts an append, and says whether it is to fail.
fn next_fails(appends: &mut FailingCalls) -> bool
    ensures fails { result ≡ is_named (counted appends.old.made) appends.old.numbers }
    ensures counts { appends.new ≡ one_more appends.old }
{
    appends.next_fails()
}
