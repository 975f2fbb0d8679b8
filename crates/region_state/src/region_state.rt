// One region: its replicas, its positions, its cache.
ghost use Rattle.std.specs.Prelude.{◌≡◌, ◌≤◌, ◌<◌, length, IfOk, IfErr, IsSome, IsTrue, IfSome, OnOk, OnErr};

use crate::answer::Answer;
use crate::apply_entries::apply_all;
use crate::ask::ViewAsk;
use crate::new_region::new_replicas;
use crate::plan::RegionPlan;
use crate::receive_purge::take_purge;
use crate::replica_rows::rows_at;
use crate::snap_view::{SnapTerms, Snapped};
use crate::store_view::{PageRules, store_into};
use crate::sweep_positions::{SWEPT_ROWS_LEAST, sweep_doubled};
use crate::wait_view::{Wait, wait_at};
use chronology_store::{ChronologyStore, ClientCommit, RelayAnswer, expiry};
use commit_feed::Entry;
use db_position::Position;
use edit_core::{
    Begun, BegunEdit, CommitOutcome, EditAsk, EditRefusal, begin, commit_with_outcome,
};
use farm_base::{Bounds, Memory, Moment};
use load_balancer::{Choice, choose};
use page_render::Page;
use purge_relay::Ledger;
use replica_apply::{Applied, Replica};
use revision_keeper::{KeepFault, Keeper};
use std::alloc::Global;
use std::marker::Model;
use std::mem::replace;
use wan_cache::{Ask, Look, RegionStore};
use wiki_titles::{ClientId, Title};

/// A region. Contracts see its parts.
///
/// The moments that its calls are given never fall.
#[derive(Drop)]
pub struct RegionState<S: RegionStore<Page>> {
    /// The weight of each replica, in their order.
    weights: Vec<u16>,
    /// No page counts that was cached before this moment.
    epoch: Moment,
    /// How far a snapshot may lag for its page to be stored whole, in milliseconds.
    read_lag: u32,
    /// The number of the markup by which pages are read.
    markup: u8,
    /// One to eight.
    replicas: Vec<Replica>,
    /// What the region has heard of its clients' commits.
    positions: ChronologyStore,
    /// How many clients had a row after the last sweep, or the least number that a sweep is for.
    swept_rows: usize,
    /// Not shared with another thread; None while it is lent.
    cache: Option<S>,
}

impl<S: RegionStore<Page>> Model for RegionState<S> {
    ghost use Rattle.region_state.specs.RegionState.{RegionParts, IsRegion};

    ghost Value = { RegionParts S };

    ghost view = { λ r. record {
      config = record { weights = r.weights.items; epoch = r.epoch; read_lag = r.read_lag };
      markup = r.markup;
      replicas = r.replicas.items;
      positions = r.positions;
      swept = r.swept_rows;
      cache = r.cache;
    } };

    ghost invariant = { λ r. IsRegion S.cache
        (record {
          config = record { weights = r.weights.items; epoch = r.epoch; read_lag = r.read_lag };
          markup = r.markup;
          replicas = r.replicas.items;
          positions = r.positions;
          swept = r.swept_rows;
          cache = r.cache;
        }) };
}

impl<S: RegionStore<Page>> RegionState<S> {
    ghost use Rattle.std.specs.Prelude.{◌≡◌, ◌≤◌, ◌<◌, ◌+◌, ◌||◌, false, List, length, Some, None, IsSome, IsTrue};
    ghost use Rattle.std.specs.Prelude.{IfSome, IfOk, IfErr, OnOk, OnErr, slice_get, slice_set, nat_le, is_some};
    ghost use Rattle.wiki_model.specs.Limits.{greatest_moment, bound_max, replicas_max, wait_limit, position_life};
    ghost use Rattle.wiki_model.specs.Cache.{look as look_in};
    ghost use Rattle.wiki_model.specs.CacheCalls.{TakesPurge};
    ghost use Rattle.wiki_model.specs.History as history;
    ghost use Rattle.wiki_model.specs.History.{stamp_at};
    ghost use Rattle.wiki_model.specs.Positions.{told_all};
    ghost use Rattle.commit_feed.specs.AsModel.{entry_of};
    ghost use Rattle.revision_keeper.specs.Causes.{HasFault};
    ghost use Rattle.chronology_store.specs.ChronologyStore.{TellsPosition, TellsPrefix, is_reserved};
    ghost use Rattle.chronology_store.specs.AsModel.{rows_in};
    ghost use Rattle.wan_cache.specs.Rules.{IsFound};
    ghost use Rattle.edit_core.specs.AsModel.{edit_of};
    ghost use Rattle.edit_core.specs.EditState.{HasStoreFault, state_of};
    ghost use Rattle.edit_core.specs.BeginEdit.{Begins};
    ghost use Rattle.edit_core.specs.CommitEdit.{CommitsWithOutcome};
    ghost use Rattle.region_state.specs.AsModel.{answer_of};
    ghost use Rattle.region_state.specs.RegionState.{IsBefore, OnCache, OnPositions, OnReplica, SweepsRegion, with_cache};
    ghost use Rattle.region_state.specs.NewRegion.{IsNew};
    ghost use Rattle.region_state.specs.YoungCommits.{AreSmall, commits_of};
    ghost use Rattle.region_state.specs.ApplyEntries.{AppliesTo, TakesEntry};
    ghost use Rattle.region_state.specs.SnapView.{SnapsIn, ask_for};
    ghost use Rattle.region_state.specs.StoreView.{StoresIn};
    ghost use Rattle.region_state.specs.WaitView.{known_in, lag_in, waits};

    /// A region whose replicas have applied nothing, over an empty cache; pages are read by markup 1. If memory is
    /// refused the cache is handed back.
    pub fn new(
        alloc: Global,
        plan: &RegionPlan,
        epoch: Moment,
        cache: S,
        bounds: Bounds,
    ) -> Result<Self, S>
        requires some { 0 < length plan.now.weights }
        requires few { length plan.now.weights ≤ replicas_max }
        requires open { (S.cache cache).shared ≡ false }
        ensures new { IfOk result (λ parts. IsNew plan.now.weights epoch bounds.read_lag cache parts) }
        ensures back { IfErr result (λ back. back ≡ cache) }
    {
        let Ok((weights, replicas)) = new_replicas(alloc, plan.weights.as_slice()) else {
            return Err(cache);
        };
        Ok(RegionState {
            weights,
            epoch,
            read_lag: bounds.read_lag,
            markup: 1,
            replicas,
            positions: ChronologyStore::new(alloc),
            swept_rows: SWEPT_ROWS_LEAST,
            cache: Some(cache),
        })
    }

    /// How many replicas the region has, one to eight; their numbers are those below.
    pub fn replicas(&self) -> u8
        ensures number { result ≡ length self.now.replicas }
        ensures some { 0 < result }
    {
        self.replicas.len() as u8
    }

    /// Takes the positions of commits, as [`crate::young_commits`] gives them, for a region that is opened over a
    /// history. If memory is refused, those before are taken.
    pub fn rebuild(&mut self, commits: &[ClientCommit]) -> Result<(), Memory>
        requires { AreSmall commits.now }
        ensures ok { OnOk result (OnPositions self.old self.new (λ old new. (ns : List history.Numbered)
            → commits.now ≡ commits_of ns → rows_in new ≡ told_all ns (rows_in old))) }
        ensures err { OnErr result (OnPositions self.old self.new (TellsPrefix commits.now)) }
    {
        self.positions.rebuild(commits)
    }

    /// Hands an entry to a replica, which applies it if it is the next one.
    pub fn apply_entry(&mut self, replica: u8, n: u64, entry: &Entry) -> Result<Applied, Memory>
        requires { replica < length self.old.replicas }
        ensures { OnReplica replica self.old self.new (λ old new. TakesEntry old new n (entry_of entry.now) result) }
    {
        self.replicas[replica as usize].apply(n, entry)
    }

    /// Applies the next entries of the history to a replica, at most `count`. What was applied before a refusal stays.
    /// If there is none to apply, the keeper is asked for one entry.
    pub fn apply<K: Keeper>(
        &mut self,
        keeper: &mut K,
        replica: u8,
        count: u32,
    ) -> Result<(), KeepFault>
        requires { replica < length self.old.replicas }
        ensures content { K.content keeper.new ≡ K.content keeper.old }
        ensures cause { HasFault (K.faults keeper.old) (K.faults keeper.new) result }
        ensures applies { OnReplica replica self.old self.new (λ old new. (h : List history.Entry)
            → K.content keeper.old ≡ Some h → AppliesTo h count old new result) }
    {
        apply_all(keeper, &mut self.replicas[replica as usize], count)
    }

    /// Whether a view that arrived then goes on, waits or gives up. `last` says that it may not wait again. It takes no
    /// memory.
    pub fn wait(&self, ask: &ViewAsk, arrived: Moment, now: Moment, last: bool) -> Wait
        ensures { result ≡ waits (last || nat_le (arrived + wait_limit) now)
            (known_in self.now.positions ask.now.client now).position (lag_in self.now ask.now now) }
    {
        wait_at(&self.positions, &self.replicas, ask, arrived, now, last)
    }

    /// What the cache has for a view that may not miss the first `need` entries. It copies no page.
    pub fn look(&self, title: &Title, need: u64, now: Moment) -> Look<Page>
        requires there { IsSome self.now.cache }
        requires later { IsBefore S.cache self.now now }
        requires small { now ≤ greatest_moment }
        ensures { IfSome self.now.cache (λ c. IsFound result
            (look_in (S.cache c) title.now now (ask_for self.now need))) }
    {
        let ask = Ask {
            epoch: self.epoch,
            version: self.markup,
            need,
        };
        match &self.cache {
            Some(cache) => cache.look(title, now, &ask),
            None => Look::Memory,
        }
    }

    /// Draws a replica by the word for a view that may not miss the first `need` entries, and takes its snapshot of the
    /// title. Some replica has applied so many entries, else the answer is as if out of memory.
    pub fn snap(
        &self,
        alloc: Global,
        title: &Title,
        terms: SnapTerms,
        now: Moment,
    ) -> Result<Snapped, Memory>
        ensures { IfOk result (λ s. SnapsIn self.now title.now terms.need terms.word terms.pending now s) }
    {
        let rows = rows_at(alloc, &self.weights, &self.replicas, now)?;
        let (replica, lagged) = match choose(&rows, terms.need, terms.word) {
            Choice::At(replica) => (replica, false),
            Choice::Lagged(replica) => (replica, true),
            Choice::Behind { .. } => return Err(Memory),
        };
        let Some(chosen) = self.replicas.get(replica as usize) else {
            return Err(Memory);
        };
        let snapshot = chosen.snapshot(alloc, title, now)?;
        Ok(Snapped {
            snapshot,
            replica,
            lagged,
            pending: terms.pending,
        })
    }

    /// Renders the page of a snapshot of the title, puts it into the cache as the rule allows, and answers it; or
    /// answers that there is no page. Out of memory changes nothing, but for a put that is noted so on the page.
    pub fn store(&mut self, alloc: Global, title: &Title, snapped: &Snapped, now: Moment) -> Answer
        requires there { IsSome self.old.cache }
        requires later { IsBefore S.cache self.old now }
        requires small { now ≤ greatest_moment }
        ensures stores { StoresIn S.cache self.old self.new title.now snapped.now now (answer_of result) }
        ensures last { IsBefore S.cache self.new now }
    {
        let rules = PageRules {
            read_lag: self.read_lag,
            markup: self.markup,
        };
        store_into(alloc, &mut self.cache, title, snapped, now, rules)
    }

    /// Takes a purge: the title is kept out of the cache for the hold-off, and all titles if it stands on their pages.
    /// It takes no memory.
    pub fn receive(&mut self, title: &Title, now: Moment)
        requires there { IsSome self.old.cache }
        requires later { IsBefore S.cache self.old now }
        requires small { now ≤ greatest_moment }
        ensures takes { OnCache S.cache self.old self.new (λ before after. TakesPurge before after title.now now) }
        ensures last { IsBefore S.cache self.new now }
    {
        if let Some(cache) = &mut self.cache {
            take_purge(cache, title, now);
        }
    }

    /// Takes the position of a client: its commit of this index is this entry, with this stamp. If memory is refused
    /// nothing has changed.
    pub fn hear(
        &mut self,
        client: &ClientId,
        index: u64,
        entry: u64,
        stamp: Moment,
    ) -> Result<RelayAnswer, Memory>
        requires { stamp ≤ greatest_moment }
        ensures ok { OnOk result (OnPositions self.old self.new
            (TellsPosition client.now index entry (stamp + position_life))) }
        ensures err { OnErr result (self.new ≡ self.old) }
    {
        let position = Position { entry };
        self.positions
            .take_relay(client, index, position, expiry(stamp))
    }

    /// Forgets the positions that have expired, if the clients with a row have doubled since the last time. It is
    /// linear in the rows when it does, so a row costs constant time in the long run. It takes no memory.
    pub fn sweep(&mut self, now: Moment)
        ensures { SweepsRegion now self.old self.new }
    {
        sweep_doubled(&mut self.positions, &mut self.swept_rows, now);
    }

    /// Begins an edit over this region's positions, which are home's: `edit_core::begin`.
    pub fn begin<K: Keeper>(
        &mut self,
        keeper: &mut K,
        ledger: &mut Ledger,
        ask: EditAsk,
        now: Moment,
        delay: u64,
    ) -> Result<Begun, EditRefusal>
        requires small { now ≤ greatest_moment }
        requires delay { delay ≤ bound_max }
        ensures cause { HasStoreFault (K.faults keeper.old) (K.faults keeper.new) result }
        ensures begins { OnPositions self.old self.new
            (λ old new. Begins (state_of (K.content keeper.old) ledger.old old)
            (state_of (K.content keeper.new) ledger.new new) (edit_of ask) now delay result) }
    {
        begin(keeper, ledger, &mut self.positions, ask, now, delay)
    }

    /// Commits an edit over this region's positions, which are home's: `edit_core::commit_with_outcome`.
    pub fn commit<K: Keeper>(
        &mut self,
        keeper: &mut K,
        ledger: &mut Ledger,
        edit: BegunEdit,
        now: Moment,
    ) -> Result<CommitOutcome, EditRefusal>
        requires spare { 2 ≤ ledger.old.spare }
        requires reserved { IsTrue (is_reserved self.old.positions edit.ask.client) }
        requires small { now ≤ greatest_moment }
        requires later { IfSome (K.content keeper.old) (λ h. stamp_at h (length h) ≤ now) }
        ensures cause { HasStoreFault (K.faults keeper.old) (K.faults keeper.new) result }
        ensures commits { OnPositions self.old self.new
            (λ old new. CommitsWithOutcome (state_of (K.content keeper.old) ledger.old old)
            (state_of (K.content keeper.new) ledger.new new) edit now result) }
    {
        commit_with_outcome(keeper, ledger, &mut self.positions, edit, now)
    }

    /// The number of the markup by which pages are read.
    pub fn markup(&self) -> u8
        ensures { result ≡ self.now.markup }
    {
        self.markup
    }

    /// Sets the number of the markup. Pages in the cache that were read by another one count no more.
    pub fn set_markup(&mut self, markup: u8)
        ensures { self.new ≡ record self.old { markup = markup } }
    {
        self.markup = markup;
    }

    /// Whether the cache is there; it is away while it is lent.
    pub fn has_cache(&self) -> bool
        ensures { result ≡ is_some self.now.cache }
    {
        self.cache.is_some()
    }

    /// Hands out the cache, which is away from then on; None if it is lent already.
    pub fn lend_cache(&mut self) -> Option<S>
        ensures cache { result ≡ self.old.cache }
        ensures open { IfSome result (λ c. (S.cache c).shared ≡ false) }
        ensures rest { self.new ≡ with_cache None self.old }
    {
        self.cache.take()
    }

    /// Takes a cache, in place of the one that is handed back, if there is one.
    pub fn take_cache(&mut self, cache: S) -> Option<S>
        requires { (S.cache cache).shared ≡ false }
        ensures before { result ≡ self.old.cache }
        ensures rest { self.new ≡ with_cache (Some cache) self.old }
    {
        replace(&mut self.cache, Some(cache))
    }

    /// Ends the region: its cache, if it is not lent.
    pub fn into_cache(self) -> Option<S>
        ensures { result ≡ self.cache }
    {
        self.cache
    }
}
