// Which key was used last: a number for each last use, a later one greater.
ghost use Rattle.std.specs.Prelude.{◌≡◌, ◌≢◌, ℕ, [], Some, IfOk, OnOk, OnErr, IfSome, IfNone, IsSome};
ghost use Rattle.wan_cache.specs.RecentUses.{key_in, key_at, AddsUse, ForgetsUse, IsFirstUse, HasNoUse};

use std::alloc::{AllocError, Global};
use std::collections::BTreeMap;
use std::marker::Model;
use wiki_titles::Title;

/// Keys by the number of a use. Contracts see the keys, and the number of the next use.
#[derive(Drop)]
pub(crate) struct RecentUses {
    keys: BTreeMap<u64, Title>,
    /// The number that the next use gets: above that of every use in `keys`.
    next: u64,
}

impl Model for RecentUses {
    ghost use Rattle.wan_cache.specs.RecentUses.{UseOrder, AreBelow};

    ghost Value = { UseOrder };

    ghost view = { λ u. record { keys = u.keys.entries; next = u.next } };

    ghost invariant = { λ u. AreBelow u.keys.entries u.next };
}

impl RecentUses {
    /// No use yet. It takes no memory.
    pub(crate) fn new(alloc: Global) -> Self
        ensures { result ≡ record { keys = []; next = 0 } }
    {
        RecentUses {
            keys: BTreeMap::new(alloc),
            next: 0,
        }
    }

    /// Gives the key a new use, the newest of all, and answers its number. Nothing has changed if memory is
    /// refused, or after 2^64 - 1 uses.
    pub(crate) fn claim(&mut self, key: &Title) -> Result<u64, AllocError>
        ensures number { IfOk result (λ number. number ≡ self.old.next) }
        ensures ok { OnOk result (AddsUse self.old self.new key.now) }
        ensures err { OnErr result (self.new ≡ self.old) }
    {
        if self.next == u64::MAX {
            return Err(AllocError);
        }
        let number = self.next;
        add_use(&mut self.keys, number, key)?;
        self.next = number + 1;
        Ok(number)
    }

    /// Forgets this use, and answers whose it was. It takes no memory.
    #[tactic(auto, using(crate::proofs::Keys::place_other, crate::proofs::Keys::place_itself, crate::proofs::Orders::below_fewer))]
    pub(crate) fn forget(&mut self, number: u64) -> Option<Title>
        ensures key { result ≡ key_in self.old.keys number }
        ensures gone { ForgetsUse self.old self.new number }
    {
        self.keys.remove(&number)
    }

    /// The number of the oldest use.
    pub(crate) fn oldest(&self) -> Option<u64>
        ensures first { IfSome result (λ number. IsFirstUse self.now.keys number) }
        ensures there { IfSome result (λ number. IsSome (key_in self.now.keys number)) }
        ensures none { IfNone result (HasNoUse self.now.keys) }
    {
        match self.keys.first_key_value() {
            Some((number, _)) => Some(*number),
            None => None,
        }
    }
}

// Gives the key this use, in place of the one that had it.
#[tactic(auto, using(crate::proofs::Keys::place_other, crate::proofs::Keys::place_itself))]
fn add_use(keys: &mut BTreeMap<u64, Title>, number: u64, key: &Title) -> Result<(), AllocError>
    ensures newest { OnOk result (key_at keys.new number ≡ Some key.now) }
    ensures others { OnOk result ((p : ℕ) → p ≢ number → key_at keys.new p ≡ key_at keys.old p) }
    ensures err { OnErr result (keys.new.entries ≡ keys.old.entries) }
{
    let title = key.clone()?;
    keys.insert(number, title)?;
    Ok(())
}
