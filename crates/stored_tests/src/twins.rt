// A keeper beside the plain list: both are told the same calls, and asked the same.
ghost use Rattle.std.specs.Prelude.{◌≡◌, [], ◌∷◌, ◌++◌, IfSome};
ghost use Rattle.wiki_model.specs.History.{IsHistory};
ghost use Rattle.commit_feed.specs.AsModel.{entry_of};

use crate::setting::{Edit, edit_of, new_keeper, next_beat, next_commit};
use commit_feed::{Entry, Feed};
use rand_core::Rng;
use rand_pcg::Pcg32;
use revision_keeper::Keeper;
use std::alloc::Global;
use std::marker::Model;
use std::process::Abort;
use std::test::Fail;

/// The plain list and a keeper that was told the same. Contracts see the list.
#[derive(Drop)]
pub struct Twins<K: Keeper + Drop> {
    pub feed: Feed,
    pub keeper: K,
}

impl<K: Keeper + Drop> Model for Twins<K> {
    ghost use Rattle.std.specs.Prelude.{◌≡◌, List, IfSome};
    ghost use Rattle.wiki_model.specs.History.{Entry};

    ghost Value = { List Entry };

    ghost view = { λ t. t.feed };

    ghost invariant = { λ t. IfSome (K.Keeper.content t.keeper) (λ history. history ≡ t.feed) };
}

impl<K: Keeper + Drop> Twins<K> {
    /// An empty list beside a keeper that has been told nothing.
    pub fn new(alloc: Global, keeper: K) -> Twins<K>
        requires { IfSome (K.Keeper.content keeper) (λ history. history ≡ []) }
    {
        Twins {
            feed: Feed::new(alloc),
            keeper,
        }
    }

    /// Appends a beat to both.
    pub fn beat(self, after: u32) -> Result<Twins<K>, Fail> {
        match next_beat(&self.feed, after) {
            Some(entry) => self.append(entry),
            None => Ok(self),
        }
    }

    /// Appends a commit to both, or nothing if the client's token was used before.
    pub fn commit(self, after: u32, edit: Edit) -> Result<Twins<K>, Fail> {
        match next_commit(&self.feed, after, edit) {
            Some(entry) => self.append(entry),
            None => Ok(self),
        }
    }

    #[tactic(auto, using(crate::proofs::Beside::may_follow, crate::proofs::Beside::stays_beside))]
    fn append(self, entry: Entry) -> Result<Twins<K>, Fail>
        requires { IsHistory (self ++ entry_of entry ∷ []) }
    {
        let Twins {
            mut feed,
            mut keeper,
        } = self;
        keeper.append(entry.clone()?)?;
        feed.push(entry)?;
        Ok(Twins { feed, keeper })
    }

    // Asks both about the edit and about so many entries.
    fn compare(&mut self, rt: &impl Abort, upto: u64, edit: &Edit) -> Result<(), Fail> {
        let (title, client, token) = (&edit.title, &edit.client, &edit.token);
        assert_eq!(rt; self.keeper.len()?, self.feed.len());
        let latest = self.keeper.latest(title, upto)?;
        assert_eq!(rt; latest, self.feed.latest(title, upto));
        let found = self.keeper.by_token(client, token)?;
        assert_eq!(rt; found, self.feed.by_token(client, token));
        let writes = self.keeper.writes_of(client)?;
        assert_eq!(rt; writes, self.feed.writes_of(client));
        Ok(())
    }

    // Asks both about the edit, so many entries and the last of these.
    fn compare_both(
        &mut self,
        rt: &impl Abort,
        alloc: Global,
        upto: u64,
        edit: &Edit,
    ) -> Result<(), Fail> {
        self.compare(rt, upto, edit)?;
        self.compare_entry(rt, alloc, upto)
    }

    // Compares the entries as they are printed.
    fn compare_entry(&mut self, rt: &impl Abort, alloc: Global, n: u64) -> Result<(), Fail> {
        let kept = self.keeper.entry(n)?;
        let kept = format!(in alloc; "{kept:?}")?;
        let listed = self.feed.entry(n);
        let listed = format!(in alloc; "{listed:?}")?;
        assert_eq!(rt; kept.as_str(), listed.as_str());
        Ok(())
    }
}

// An edit of one of seven pages by one of five clients.
fn random_edit(alloc: Global, draws: &mut Pcg32) -> Result<Edit, Fail> {
    let title = format!(in alloc; "Page {}", draws.next_u32() % 7)?;
    let client = u64::from(draws.next_u32() % 5);
    let token = format!(in alloc; "t{}", draws.next_u32() % 60)?;
    let text = format!(in alloc; "text {}", draws.next_u32())?;
    let purge = u64::from(draws.next_u32());
    edit_of(
        alloc,
        client,
        token.as_str(),
        title.as_str(),
        purge,
        text.as_str(),
    )
}

// One call: a beat in eight, commits in three, and otherwise questions.
fn random_call<K: Keeper + Drop>(
    rt: &impl Abort,
    alloc: Global,
    twins: Twins<K>,
    draws: &mut Pcg32,
) -> Result<Twins<K>, Fail> {
    let edit = random_edit(alloc, draws)?;
    let after = draws.next_u32() % 3;
    match draws.next_u32() % 8 {
        0 => twins.beat(after),
        1..=3 => twins.commit(after, edit),
        _ => {
            let mut twins = twins;
            let upto = u64::from(draws.next_u32()) % (twins.feed.len() + 3);
            twins.compare_both(rt, alloc, upto, &edit)?;
            Ok(twins)
        }
    }
}

#[test]
fn a_stored_history_answers_as_the_list(rt: HostRuntime) -> Result<(), Fail> {
    let alloc = rt.alloc();
    let mut draws = Pcg32::new(29, 1);
    let mut twins = Twins::new(alloc, new_keeper(alloc)?);
    for _ in 0..600u32 {
        twins = random_call(&rt, alloc, twins, &mut draws)?;
    }
    compare_all(&rt, alloc, &mut twins, &mut draws)?;
    assert_eq!(rt; twins.keeper.faults(), 0);
    Ok(())
}

fn compare_all<K: Keeper + Drop>(
    rt: &impl Abort,
    alloc: Global,
    twins: &mut Twins<K>,
    draws: &mut Pcg32,
) -> Result<(), Fail> {
    let last = twins.feed.len();
    assert!(rt; 150 < last);
    for n in 0..last.saturating_add(2) {
        let edit = random_edit(alloc, draws)?;
        twins.compare_both(rt, alloc, n, &edit)?;
    }
    Ok(())
}
