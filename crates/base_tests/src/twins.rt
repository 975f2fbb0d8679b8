// The keeper beside the plain list: both are told the same calls, and asked the same.
ghost use Rattle.std.specs.Prelude.{◌≡◌, [], ◌∷◌, ◌++◌, Some};
ghost use Rattle.wiki_model.specs.History.{IsHistory};
ghost use Rattle.commit_feed.specs.AsModel.{entry_of};

use crate::setting::{Edit, edit_of, next_beat, next_commit};
use commit_feed::{Entry, Feed};
use rand_core::Rng;
use rand_pcg::Pcg32;
use revision_keeper::{Keeper, MemKeeper};
use std::alloc::Global;
use std::marker::Model;
use std::process::Abort;
use std::test::Fail;

/// The plain list and a keeper that was told the same. Contracts see the list.
#[derive(Drop)]
pub struct Twins<K: Keeper + Drop> {
    pub feed: Feed,
    pub keeper: K,
}

impl<K: Keeper + Drop> Model for Twins<K> {
    ghost use Rattle.std.specs.Prelude.{◌≡◌, List, Some};
    ghost use Rattle.wiki_model.specs.History.{Entry};

    ghost Value = { List Entry };

    ghost view = { λ t. t.feed };

    ghost invariant = { λ t. K.Keeper.content t.keeper ≡ Some t.feed };
}

impl<K: Keeper + Drop> Twins<K> {
    /// An empty list beside a keeper that has been told nothing.
    pub fn new(alloc: Global, keeper: K) -> Twins<K>
        requires { K.Keeper.content keeper ≡ Some [] }
    {
        Twins {
            feed: Feed::new(alloc),
            keeper,
        }
    }

    /// Appends a beat to both.
    pub fn beat(self, after: u32) -> Result<Twins<K>, Fail> {
        match next_beat(&self.feed, after) {
            Some(entry) => self.append(entry),
            None => Ok(self),
        }
    }

    /// Appends a commit to both, or nothing if the client's token was used before.
    pub fn commit(self, after: u32, edit: Edit) -> Result<Twins<K>, Fail> {
        match next_commit(&self.feed, after, edit) {
            Some(entry) => self.append(entry),
            None => Ok(self),
        }
    }

    fn append(self, entry: Entry) -> Result<Twins<K>, Fail>
        requires { IsHistory (self ++ entry_of entry ∷ []) }
    {
        let Twins {
            mut feed,
            mut keeper,
        } = self;
        keeper.append(entry.clone()?)?;
        feed.push(entry)?;
        Ok(Twins { feed, keeper })
    }

    // Asks both about the edit and about so many entries.
    fn compare(&mut self, rt: &impl Abort, upto: u64, edit: &Edit) -> Result<(), Fail> {
        let (title, client, token) = (&edit.title, &edit.client, &edit.token);
        assert_eq!(rt; self.keeper.len()?, self.feed.len());
        let latest = self.keeper.latest(title, upto)?;
        assert_eq!(rt; latest, self.feed.latest(title, upto));
        let found = self.keeper.by_token(client, token)?;
        assert_eq!(rt; found, self.feed.by_token(client, token));
        let writes = self.keeper.writes_of(client)?;
        assert_eq!(rt; writes, self.feed.writes_of(client));
        Ok(())
    }

    // Compares the entries as they are printed.
    fn compare_entry(&mut self, rt: &impl Abort, alloc: Global, n: u64) -> Result<(), Fail> {
        let kept = self.keeper.entry(n)?;
        let kept = format!(in alloc; "{kept:?}")?;
        let listed = self.feed.entry(n);
        let listed = format!(in alloc; "{listed:?}")?;
        assert_eq!(rt; kept.as_str(), listed.as_str());
        Ok(())
    }
}

// One call: a beat in eight, commits in three, and otherwise questions.
fn random_call<K: Keeper + Drop>(
    rt: &impl Abort,
    alloc: Global,
    twins: Twins<K>,
    draws: &mut Pcg32,
) -> Result<Twins<K>, Fail> {
    let edit = edit_of(
        alloc,
        draws.next_u32() % 7,
        draws.next_u32() % 5,
        draws.next_u32() % 300,
    )?;
    let after = draws.next_u32() % 3;
    match draws.next_u32() % 8 {
        0 => twins.beat(after),
        1..=3 => twins.commit(after, edit),
        _ => {
            let mut twins = twins;
            let upto = u64::from(draws.next_u32()) % (twins.feed.len() + 3);
            twins.compare(rt, upto, &edit)?;
            twins.compare_entry(rt, alloc, upto)?;
            Ok(twins)
        }
    }
}

#[test]
fn a_keeper_answers_as_the_list(rt: HostRuntime) -> Result<(), Fail> {
    let alloc = rt.alloc();
    let mut draws = Pcg32::new(17, 1);
    let mut twins = Twins::new(alloc, MemKeeper::new(alloc));
    for _ in 0..2_000u32 {
        twins = random_call(&rt, alloc, twins, &mut draws)?;
    }
    assert!(rt; 500 < twins.feed.len());
    for page in 0..7u32 {
        let edit = edit_of(alloc, page, page, page)?;
        for upto in [0, 1, 2, 100, 500, 501, 5_000] {
            twins.compare(&rt, upto, &edit)?;
        }
    }
    Ok(())
}
