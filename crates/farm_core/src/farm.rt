// The farm.
ghost use Rattle.edit_core.specs.AsModel.{refused_of, refusal_of};
ghost use Rattle.std.specs.Prelude.{◌≡◌, ◌≤◌, ◌<◌, ◌+◌, ℕ, max, Some, None, IfSome, OnOk, OnErr, [], ◌∷◌, ◌++◌, length};
ghost use Rattle.std.specs.Prelude.{option_map};
ghost use Rattle.wiki_model.specs.Limits.{greatest_moment};
ghost use Rattle.wiki_model.specs.History.{stamp_at};
ghost use Rattle.region_state.specs.AsModel.{answer_of};
ghost use Rattle.farm_core.specs.AppendBeat.{Beats};
ghost use Rattle.farm_core.specs.NewFarm.{new_fault_of};

use crate::lend_cache::{lend_cache, take_cache};
use crate::open_farm::start;
use commit_feed::Entry;
use farm_base::{Moment, Readings, Region};
use farm_steps::{EditTerm, Requests, is_open, moment_of, moments_at};
use page_render::Page;
use purge_relay::{Body, Ledger, Message, Receipt};
use region_state::{Answer, Asked, FarmPlan, RegionState};
use revision_keeper::{KeepFault, Keeper};
use std::alloc::Global;
use std::marker::Model;
use wan_cache::RegionStore;
use wiki_titles::Title;

/// A farm of two regions over a keeper of the history. Contracts see what it keeps.
#[derive(Drop)]
pub struct Farm<K: Keeper, S: RegionStore<Page>> {
    plan: FarmPlan,
    keeper: K,
    ledger: Ledger,
    home: RegionState<S>,
    west: RegionState<S>,
    requests: Requests,
    moments: Readings,
    last_beat: Option<Moment>,
}

impl<K: Keeper, S: RegionStore<Page>> Model for Farm<K, S> {
    ghost use Rattle.farm_core.specs.FarmParts.{FarmParts};

    ghost Value = { FarmParts K S };

    ghost use Rattle.farm_core.specs.FarmParts.{IsFarm};

    ghost view = { λ f. record {
      plan = f.plan;
      keeper = f.keeper;
      ledger = f.ledger;
      home = f.home;
      west = f.west;
      requests = f.requests.entries;
      moments = f.moments;
      last_beat = f.last_beat;
    } };

    ghost invariant = { λ f. IsFarm K.content S.cache
        (record {
          plan = f.plan;
          keeper = f.keeper;
          ledger = f.ledger;
          home = f.home;
          west = f.west;
          requests = f.requests.entries;
          moments = f.moments;
          last_beat = f.last_beat;
        }) };
}

/// Why a farm was not opened.
#[derive(Clone, Copy, Debug, PartialEq, Eq)]
pub enum NewFault {
    /// The keeper failed, and has counted it.
    Fault,
    /// Out of memory.
    Memory,
}

impl<K: Keeper, S: RegionStore<Page> + Drop> Farm<K, S> {
    ghost use Rattle.std.specs.Prelude.{◌≡◌, ◌≤◌, ◌<◌, length, IfOk, IfErr};
    ghost use Rattle.wiki_model.specs.Limits.{bound_max, replicas_max};
    ghost use Rattle.wiki_model.specs.Cache.{IsEmptyCache};
    ghost use Rattle.farm_core.specs.NewFarm.{HasNewFault, IsFresh, Opens};

    /// A farm over a keeper's history. Its replicas have applied nothing, its caches are empty, and both regions know
    /// the positions of the commits that are young. If it is refused the keeper is handed back, with the history that
    /// it had.
    ///
    /// The keeper is asked for its last entries, back to the first that is not young.
    pub fn new(
        alloc: Global,
        keeper: K,
        plan: FarmPlan,
        home: S,
        west: S,
        at: Readings,
    ) -> Result<Self, (K, NewFault)>
        requires home_some { 0 < length plan.home.weights }
        requires home_few { length plan.home.weights ≤ replicas_max }
        requires west_some { 0 < length plan.west.weights }
        requires west_few { length plan.west.weights ≤ replicas_max }
        requires delay { plan.bounds.commit_delay ≤ bound_max }
        requires home_empty { IsEmptyCache (S.cache home) }
        requires west_empty { IsEmptyCache (S.cache west) }
        ensures fresh { IfOk result (λ farm. IsFresh plan farm) }
        ensures opens { IfOk result (λ farm. Opens K.content K.faults S.cache keeper home west at farm) }
        ensures counts { IfOk result (λ farm. K.faults keeper ≤ K.faults farm.keeper) }
        ensures cause { IfErr result (λ back. HasNewFault (K.faults keeper) (K.faults back.0) back.1) }
        ensures back { IfErr result (λ back. K.content back.0 ≡ K.content keeper) }
    {
        let mut keeper = keeper;
        keeper.known();
        home.known();
        west.known();
        match start(alloc, &mut keeper, &plan, home, west, at) {
            Ok((home, west, moments)) => Ok(Farm {
                plan,
                keeper,
                ledger: Ledger::new(alloc),
                home,
                west,
                requests: Requests::new(alloc),
                moments,
                last_beat: None,
            }),
            Err(fault) => Err((keeper, new_fault(fault))),
        }
    }
}

// The steps, in the order of a request's life, and then those of the farm. Each first lets the moments go on by its
// readings, and they stay so whatever it answers. Beside that a step that is refused changes what it says, and no more;
// it finds its request by a search in a map, and makes no call of the keeper unless it says so.
impl<K: Keeper, S: RegionStore<Page>> Farm<K, S> {
    ghost use Rattle.std.specs.Prelude.{◌≡◌, ◌<◌, length, Some, None, option_map};
    ghost use Rattle.wiki_model.specs.Steps.{MakeBeat, Arrive, Begin, CommitEdit, Wait, Look, Snap, Store, Apply};
    ghost use Rattle.wiki_model.specs.Steps.{Carry, Drop, Need, SetMarkup};
    ghost use Rattle.std.specs.Option.{option_copied};
    ghost use Rattle.purge_relay.specs.AsModel.{body_of};
    ghost use Rattle.wiki_model.specs.Runs.{One};
    ghost use Rattle.region_state.specs.AsModel.{asked_of};
    ghost use Rattle.farm_steps.specs.RequestMap.{open_at};
    ghost use Rattle.farm_core.specs.RequestLife.{Arrives, Begins, Commits, Waits, Looks, Snaps, Stores, ClosesWaited};
    ghost use Rattle.farm_core.specs.RequestLife.{LeavesRequests};
    ghost use Rattle.farm_core.specs.FarmParts.{IsWhole};
    ghost use Rattle.farm_steps.specs.ViewSteps.{region_at};
    ghost use Rattle.farm_core.specs.Runs.{Steps, turn_of};

    /// Opens a request. None stands at its id.
    ///
    /// It takes memory for the request's place; if there is none, nothing is open.
    pub fn arrive(&mut self, at: Readings, id: u64, asked: Asked) -> Option<Answer>
        requires { open_at self.old.requests id ≡ None }
        ensures { Steps K.content K.faults S.cache self.old self.new (turn_of at (Arrive id (asked_of asked)) result)
            (Arrives id asked result) }
    {
        self.advance(at);
        self.arrive_now(id, asked)
    }

    /// Begins an edit: its purge is issued, and home receives it. Neither cache is lent.
    ///
    /// The keeper is asked for the token, and if it is new for the page's last revision. Memory is taken for three
    /// messages and the client's position, so that the commit needs none for them. Any answer closes the request.
    pub fn begin(&mut self, at: Readings, id: u64) -> Option<Answer>
        requires { IsWhole self.old }
        ensures { Steps K.content K.faults S.cache self.old self.new (turn_of at (Begin id) result) (Begins id result) }
    {
        self.advance(at);
        let answer = self.begin_now(id);
        self.sweep_home();
        answer
    }

    /// Commits a begun edit, and answers what became of it. Neither cache is lent.
    ///
    /// The keeper is asked again as at `begin`, then for the client's count, and appends. The request is closed,
    /// whatever comes of it; if the edit was not saved, its purge stays issued, and the reserved room is given back.
    pub fn commit(&mut self, at: Readings, id: u64) -> Option<Answer>
        requires { IsWhole self.old }
        ensures { Steps K.content K.faults S.cache self.old self.new (turn_of at (CommitEdit id) result)
            (Commits id result) }
    {
        self.advance(at);
        Some(self.commit_now(id))
    }

    /// Lets a view go on that is not behind its session's position. One that is behind waits, or gives up.
    ///
    /// It takes no memory. A view that gives up is closed.
    pub fn wait(&mut self, at: Readings, id: u64, last: bool) -> Option<Answer>
        ensures { Steps K.content K.faults S.cache self.old self.new (turn_of at (Wait id last) result)
            (Waits id last result) }
    {
        self.advance(at);
        self.wait_now(id, last)
    }

    /// Looks for the page in the cache of the view's region. Neither cache is lent.
    ///
    /// It costs one look of the cache; no page is copied. A view that is answered is closed.
    pub fn look(&mut self, at: Readings, id: u64) -> Option<Answer>
        requires { IsWhole self.old }
        ensures { Steps K.content K.faults S.cache self.old self.new (turn_of at (Look id) result) (Looks id result) }
    {
        self.advance(at);
        self.look_now(id)
    }

    /// Takes the snapshot of a view from a replica of its region.
    ///
    /// It costs one pass over the replicas and over the texts that the page reaches.
    pub fn snap(&mut self, alloc: Global, at: Readings, id: u64) -> Option<Answer>
        ensures { Steps K.content K.faults S.cache self.old self.new (turn_of at (Snap id) result) (Snaps id result) }
    {
        self.advance(at);
        self.snap_now(alloc, id)
    }

    /// Renders the page of a view's snapshot, stores it by the rule, and answers it. Neither cache is lent.
    ///
    /// It costs one rendering, and closes the view, whatever comes of it.
    pub fn store(&mut self, alloc: Global, at: Readings, id: u64) -> Option<Answer>
        requires { IsWhole self.old }
        ensures { Steps K.content K.faults S.cache self.old self.new (turn_of at (Store id) result) (Stores id result) }
    {
        self.advance(at);
        Some(self.store_now(alloc, id))
    }

    /// Closes a request that has waited, and tells its need.
    pub fn need(&mut self, at: Readings, id: u64) -> Option<u64>
        ensures { Steps K.content K.faults S.cache self.old self.new (turn_of at (Need id) None)
            (ClosesWaited id result) }
    {
        self.advance(at);
        self.need_now(id)
    }

    /// Appends a beat at the home moment: one call of the keeper.
    pub fn beat(&mut self, at: Readings) -> Option<Answer>
        ensures { Steps K.content K.faults S.cache self.old self.new (turn_of at MakeBeat result) LeavesRequests }
    {
        self.advance(at);
        self.beat_now()
    }

    /// Applies the next entries to a replica of the plan, at most `count`. Those applied before a refusal stay.
    ///
    /// The keeper is asked for each of them, and where the history ends sooner for one that it does not have.
    pub fn apply(&mut self, at: Readings, region: Region, replica: u8, count: u32) -> Option<Answer>
        requires { replica < length (region_at region self.old.home self.old.west).replicas }
        ensures { Steps K.content K.faults S.cache self.old self.new (turn_of at (Apply region replica count) result)
            LeavesRequests }
    {
        self.advance(at);
        self.apply_now(region, replica, count)
    }

    /// Sets the markup by which pages are read, 1 or 2.
    pub fn set_markup(&mut self, at: Readings, markup: u8)
        ensures { Steps K.content K.faults S.cache self.old self.new (turn_of at (SetMarkup markup) None)
            LeavesRequests }
    {
        self.advance(at);
        self.set_markup_now(markup);
    }

    /// Carries a message to west: it receives a purge, and hears a position. A body may be shown, and must then be
    /// the message's own. Neither cache is lent.
    ///
    /// It takes no memory for a purge, and none for the position of a client that west knows.
    pub fn carry(&mut self, at: Readings, number: u64, shown: Option<&Body>) -> Option<Answer>
        requires { IsWhole self.old }
        ensures { Steps K.content K.faults S.cache self.old self.new
            (turn_of at (Carry number (option_map body_of (option_copied shown.entry))) result) LeavesRequests }
    {
        self.advance(at);
        let answer = self.carry_now(number, shown);
        self.sweep_west();
        answer
    }

    /// Drops a message: it is carried no more.
    pub fn drop_message(&mut self, at: Readings, number: u64) -> Option<Answer>
        ensures { Steps K.content K.faults S.cache self.old self.new (turn_of at (Drop number) result) LeavesRequests }
    {
        self.advance(at);
        self.drop_now(number)
    }
}

// Calls that are no step.
impl<K: Keeper, S: RegionStore<Page>> Farm<K, S> {
    ghost use Rattle.std.specs.Prelude.{◌≡◌, ◌↔◌, ◌≤◌, ◌<◌, ℕ, length, Some, None, IsSome, IsTrue, IfSome, IfNone};
    ghost use Rattle.std.specs.Prelude.{IfOk, option_map, is_some};
    ghost use Rattle.std.specs.Option.{option_copied};
    ghost use Rattle.farm_steps.specs.RequestMap.{open_at};
    ghost use Rattle.revision_keeper.specs.Causes.{HasFault};
    ghost use Rattle.purge_relay.specs.LedgerRow.{sent, receipt_at, is_dropped_row};
    ghost use Rattle.purge_relay.specs.Ledger.{row_at, changed_at, IsFirstUnsent, AreSent};
    ghost use Rattle.revision_keeper.specs.Keeper.{IsEntryAt};
    ghost use Rattle.farm_core.specs.FarmParts.{IsWhole};
    ghost use Rattle.farm_steps.specs.Moments.{moment_of};
    ghost use Rattle.farm_steps.specs.ViewSteps.{region_at, IsPendingIn};
    ghost use Rattle.farm_core.specs.Runs.{StandsOn};

    /// The message of this number.
    pub fn message(&self, number: u64) -> Option<&Message>
        ensures value { option_copied result ≡ option_map (λ row. row.message) (row_at self.now.ledger.rows number) }
        ensures number { IfSome result (λ message. message.now.number ≡ number) }
    {
        self.ledger.message(number)
    }

    /// How many messages were issued.
    pub fn issued(&self) -> u64
        ensures { result ≡ length self.now.ledger.rows }
    {
        self.ledger.issued()
    }

    /// How many entries the history has.
    pub fn entries(&mut self) -> Result<u64, KeepFault>
        ensures stands { StandsOn K.content K.faults S.cache self.old self.new }
        ensures value { IfSome (K.content self.old.keeper) (λ h. IfOk result (λ n. n ≡ length h)) }
        ensures cause { HasFault (K.faults self.old.keeper) (K.faults self.new.keeper) result }
    {
        self.keeper.len()
    }

    /// Entry `n` of the history, counted from 1; None if there is none.
    pub fn entry(&mut self, n: u64) -> Result<Option<Entry>, KeepFault>
        ensures stands { StandsOn K.content K.faults S.cache self.old self.new }
        ensures value { IsEntryAt (K.content self.old.keeper) n result }
        ensures cause { HasFault (K.faults self.old.keeper) (K.faults self.new.keeper) result }
    {
        self.keeper.entry(n)
    }

    /// Whether a request is open under this id.
    pub fn is_open(&self, id: u64) -> bool
        ensures { result ≡ is_some (open_at self.now.requests id) }
    {
        is_open(&self.requests, id)
    }

    /// Whether both caches are there: none is lent.
    pub fn is_whole(&self) -> bool
        ensures { IsTrue result ↔ IsWhole self.now }
    {
        self.home.has_cache() && self.west.has_cache()
    }

    /// How many replicas a region has; their numbers are those below.
    pub fn replicas(&self, region: Region) -> u8
        ensures { result ≡ length (region_at region self.now.home self.now.west).replicas }
    {
        match region {
            Region::Home => self.home.replicas(),
            Region::West => self.west.replicas(),
        }
    }

    /// A region, as it looks and takes snapshots; its cache is away while it is lent.
    pub fn region(&self, region: Region) -> &RegionState<S>
        ensures { result.now ≡ region_at region self.now.home self.now.west }
    {
        match region {
            Region::Home => &self.home,
            Region::West => &self.west,
        }
    }

    /// Whether an edit of the title is begun while a view of this region reads it: edits are open at home alone. Its
    /// cost is linear in the open requests.
    pub fn pending(&self, region: Region, title: &Title) -> bool
        ensures { IsPendingIn region self.now.requests title.now result }
    {
        farm_steps::is_pending(&self.requests, region, title)
    }

    /// The moment of a region.
    pub fn moment(&self, region: Region) -> Moment
        ensures { result ≡ moment_of region self.now.moments }
    {
        moment_of(self.moments, region)
    }

    /// The stamp of the last beat that this farm appended.
    pub fn last_beat(&self) -> Option<Moment>
        ensures { result ≡ self.now.last_beat }
    {
        self.last_beat
    }

    /// The plan by which the farm was opened.
    pub fn plan(&self) -> &FarmPlan
        ensures { result.now ≡ self.now.plan }
    {
        &self.plan
    }

    /// The number of the first message that was not sent.
    pub fn first_unsent(&self) -> Option<u64>
        ensures first { IfSome result (λ number. IsFirstUnsent self.now.ledger.rows number) }
        ensures none { IfNone result (AreSent self.now.ledger.rows (length self.now.ledger.rows)) }
    {
        self.ledger.first_unsent()
    }

    /// Marks a message as sent, if there is one.
    pub fn mark_sent(&mut self, number: u64)
        ensures stands { StandsOn K.content K.faults S.cache self.old self.new }
        ensures book { self.new.ledger ≡ changed_at sent number self.old.ledger }
    {
        self.ledger.mark_sent(number);
    }

    /// Whether a message was dropped.
    pub fn is_dropped(&self, number: u64) -> bool
        ensures { result ≡ is_dropped_row (row_at self.now.ledger.rows number) }
    {
        self.ledger.is_dropped(number)
    }

    /// The markup by which pages are read.
    pub fn markup(&self) -> u8
        ensures { result ≡ self.now.home.markup }
    {
        self.home.markup()
    }

    /// Hands back the keeper and the caches. Neither cache is lent.
    pub fn close(self) -> (K, S, S)
        requires { IsWhole self }
        ensures keeper { result.0 ≡ self.keeper }
        ensures home { self.home.cache ≡ Some result.1 }
        ensures west { self.west.cache ≡ Some result.2 }
    {
        let home = self.home.into_cache().unwrap();
        let west = self.west.into_cache().unwrap();
        (self.keeper, home, west)
    }

    /// When a region received a purge, if it did.
    pub fn receipt(&self, purge: u64, region: Region) -> Option<Receipt>
        ensures { result ≡ receipt_at region (row_at self.now.ledger.rows purge) }
    {
        self.ledger.receipt(purge, region)
    }
}

/// A region's cache that was lent, with the moment at which it was.
#[derive(Drop)]
pub struct Lent<S> {
    /// The region's cache.
    pub cache: S,
    /// The region's moment when it was lent.
    pub now: Moment,
}

// A cache is lent to a round, and given back.
impl<K: Keeper, S: RegionStore<Page> + Drop> Farm<K, S> {
    ghost use Rattle.std.specs.Prelude.{◌≡◌, ◌≤◌, false, Some, None, IsSome};
    ghost use Rattle.wiki_model.specs.Limits.{greatest_moment};
    ghost use Rattle.farm_steps.specs.Moments.{moment_of};
    ghost use Rattle.farm_core.specs.LendCache.{without_cache, with_given, GivesBack};
    ghost use Rattle.farm_core.specs.Runs.{advanced};
    ghost use Rattle.farm_steps.specs.ViewSteps.{region_at};

    /// Hands out a region's cache for a round. Until it is given back no step may be called. No call of the cache was
    /// given a later moment.
    pub fn lend(&mut self, region: Region, at: Readings) -> Lent<S>
        requires { IsSome (region_at region self.old.home self.old.west).cache }
        ensures cache { (region_at region self.old.home self.old.west).cache ≡ Some result.cache }
        ensures now { result.now ≡ moment_of region (advanced at self.old).moments }
        ensures early { (S.cache result.cache).greatest ≤ result.now }
        ensures small { result.now ≤ greatest_moment }
        ensures farm { self.new ≡ without_cache region (advanced at self.old) }
    {
        self.advance(at);
        self.lend_now(region)
    }

    fn lend_now(&mut self, region: Region) -> Lent<S>
        requires { IsSome (region_at region self.old.home self.old.west).cache }
        ensures cache { (region_at region self.old.home self.old.west).cache ≡ Some result.cache }
        ensures now { result.now ≡ moment_of region self.old.moments }
        ensures early { (S.cache result.cache).greatest ≤ result.now }
        ensures small { result.now ≤ greatest_moment }
        ensures farm { self.new ≡ without_cache region self.old }
    {
        let now = moment_of(self.moments, region);
        let cache = lend_cache(&mut self.home, &mut self.west, region).unwrap();
        Lent { cache, now }
    }

    /// Takes a region's cache back after a round, which received these purges. `lost` says that the round was refused
    /// when it was to close the cache; the cache that is handed back then has nothing of the round but the purges.
    pub fn give_back(&mut self, region: Region, lent: Lent<S>, receipts: &[u64], lost: bool)
        requires open { (S.cache lent.cache).shared ≡ false }
        requires early { (S.cache lent.cache).greatest ≤ moment_of region self.old.moments }
        requires now { lent.now ≡ moment_of region self.old.moments }
        ensures farm { self.new ≡ with_given region lent.cache lent.now receipts.now self.old }
        ensures stands { GivesBack K.content K.faults S.cache self.old self.new region lent.cache receipts.now lost }
    {
        let _ = lost;
        let Lent { cache, now } = lent;
        take_cache(&mut self.home, &mut self.west, region, cache);
        farm_steps::receive_all(&mut self.ledger, region, receipts, now);
    }
}

// The steps at the moments that stand.
impl<K: Keeper, S: RegionStore<Page>> Farm<K, S> {
    ghost use Rattle.std.specs.Prelude.{◌≡◌, ◌<◌, length, Some, None, option_map};
    ghost use Rattle.wiki_model.specs.Steps.{MakeBeat, Arrive, Begin, CommitEdit, Wait, Look, Snap, Store, Apply};
    ghost use Rattle.wiki_model.specs.Steps.{Carry, Drop, Need, SetMarkup};
    ghost use Rattle.std.specs.Option.{option_copied};
    ghost use Rattle.purge_relay.specs.AsModel.{body_of};
    ghost use Rattle.wiki_model.specs.Runs.{One};
    ghost use Rattle.region_state.specs.AsModel.{answer_of, asked_of};
    ghost use Rattle.farm_core.specs.RequestLife.{Arrives, Begins, Commits, Waits, Looks, Snaps, Stores, ClosesWaited};
    ghost use Rattle.farm_core.specs.RequestLife.{LeavesRequests};
    ghost use Rattle.farm_core.specs.FarmParts.{IsWhole};
    ghost use Rattle.farm_steps.specs.ViewSteps.{region_at};
    ghost use Rattle.farm_core.specs.Runs.{Resumes, StepsFrom, advanced};

    /// Takes the readings of a step: no moment falls.
    fn advance(&mut self, at: Readings)
        ensures { self.new ≡ advanced at self.old }
    {
        self.moments = moments_at(at, self.moments);
    }

    fn arrive_now(&mut self, id: u64, asked: Asked) -> Option<Answer>
        ensures { StepsFrom K.content K.faults S.cache self.old self.new (Arrive id (asked_of asked))
            (One (option_map answer_of result)) (Arrives id asked result) }
    {
        farm_steps::arrive(&mut self.requests, self.moments, id, asked)
    }

    fn begin_now(&mut self, id: u64) -> Option<Answer>
        requires { IsWhole self.old }
        ensures { StepsFrom K.content K.faults S.cache self.old self.new (Begin id) (One (option_map answer_of result))
            (Begins id result) }
    {
        farm_steps::begin(
            &mut self.keeper,
            &mut self.ledger,
            &mut self.home,
            &mut self.requests,
            EditTerm {
                now: self.moments.home,
                delay: commit_delay(&self.plan),
            },
            id,
        )
    }

    /// Forgets positions at home that have expired, if they have doubled.
    fn sweep_home(&mut self)
        ensures { Resumes K.content K.faults S.cache self.old self.new }
    {
        self.home.sweep(self.moments.home);
    }

    fn commit_now(&mut self, id: u64) -> Answer
        requires { IsWhole self.old }
        ensures { StepsFrom K.content K.faults S.cache self.old self.new (CommitEdit id) (One (Some (answer_of result)))
            (Commits id (Some result)) }
    {
        farm_steps::commit(
            &mut self.keeper,
            &mut self.ledger,
            &mut self.home,
            &mut self.requests,
            self.moments.home,
            id,
        )
    }

    fn wait_now(&mut self, id: u64, last: bool) -> Option<Answer>
        ensures { StepsFrom K.content K.faults S.cache self.old self.new (Wait id last)
            (One (option_map answer_of result)) (Waits id last result) }
    {
        farm_steps::wait(
            &mut self.requests,
            &self.home,
            &self.west,
            self.moments,
            id,
            last,
        )
    }

    fn look_now(&mut self, id: u64) -> Option<Answer>
        requires { IsWhole self.old }
        ensures { StepsFrom K.content K.faults S.cache self.old self.new (Look id) (One (option_map answer_of result))
            (Looks id result) }
    {
        farm_steps::look(&mut self.requests, &self.home, &self.west, self.moments, id)
    }

    fn snap_now(&mut self, alloc: Global, id: u64) -> Option<Answer>
        ensures { StepsFrom K.content K.faults S.cache self.old self.new (Snap id) (One (option_map answer_of result))
            (Snaps id result) }
    {
        farm_steps::snap(
            alloc,
            &mut self.requests,
            &self.home,
            &self.west,
            self.moments,
            id,
        )
    }

    fn store_now(&mut self, alloc: Global, id: u64) -> Answer
        requires { IsWhole self.old }
        ensures { StepsFrom K.content K.faults S.cache self.old self.new (Store id) (One (Some (answer_of result)))
            (Stores id (Some result)) }
    {
        farm_steps::store(
            alloc,
            &mut self.requests,
            &mut self.home,
            &mut self.west,
            self.moments,
            id,
        )
    }

    fn need_now(&mut self, id: u64) -> Option<u64>
        ensures { StepsFrom K.content K.faults S.cache self.old self.new (Need id) (One None) (ClosesWaited id result) }
    {
        farm_steps::need(&mut self.requests, id)
    }

    fn beat_now(&mut self) -> Option<Answer>
        ensures { StepsFrom K.content K.faults S.cache self.old self.new MakeBeat (One (option_map answer_of result))
            LeavesRequests }
    {
        append_beat(&mut self.keeper, &mut self.last_beat, self.moments.home)
    }

    fn apply_now(&mut self, region: Region, replica: u8, count: u32) -> Option<Answer>
        requires { replica < length (region_at region self.old.home self.old.west).replicas }
        ensures { StepsFrom K.content K.faults S.cache self.old self.new (Apply region replica count)
            (One (option_map answer_of result)) LeavesRequests }
    {
        farm_steps::apply(
            &mut self.keeper,
            &mut self.home,
            &mut self.west,
            region,
            replica,
            count,
        )
    }

    fn set_markup_now(&mut self, markup: u8)
        ensures { StepsFrom K.content K.faults S.cache self.old self.new (SetMarkup markup) (One None) LeavesRequests }
    {
        self.home.set_markup(markup);
        self.west.set_markup(markup);
    }

    fn carry_now(&mut self, number: u64, shown: Option<&Body>) -> Option<Answer>
        requires { IsWhole self.old }
        ensures { StepsFrom K.content K.faults S.cache self.old self.new
            (Carry number (option_map body_of (option_copied shown.entry))) (One (option_map answer_of result))
            LeavesRequests }
    {
        let carriage = farm_steps::find_carriage(&self.ledger, number, shown);
        farm_steps::carry(
            &mut self.ledger,
            &mut self.west,
            self.moments.west,
            number,
            carriage,
        )
    }

    /// The same in west.
    fn sweep_west(&mut self)
        ensures { Resumes K.content K.faults S.cache self.old self.new }
    {
        self.west.sweep(self.moments.west);
    }

    fn drop_now(&mut self, number: u64) -> Option<Answer>
        ensures { StepsFrom K.content K.faults S.cache self.old self.new (Drop number)
            (One (option_map answer_of result)) LeavesRequests }
    {
        farm_steps::drop_message(&mut self.ledger, number)
    }
}

/// The answer to a step that the keeper refused.
fn refused(fault: KeepFault) -> Answer
    ensures { answer_of result ≡ refused_of (refusal_of fault) }
{
    match fault {
        KeepFault::Fault => Answer::Store,
        KeepFault::Memory => Answer::Memory,
    }
}

fn new_fault(fault: KeepFault) -> NewFault
    ensures { result ≡ new_fault_of fault }
{
    match fault {
        KeepFault::Fault => NewFault::Fault,
        KeepFault::Memory => NewFault::Memory,
    }
}

/// How long after its purge was issued a commit may come without a second one.
fn commit_delay(plan: &FarmPlan) -> u64
    ensures { result ≡ plan.now.bounds.commit_delay }
{
    u64::from(plan.bounds.commit_delay)
}

/// Appends a beat at this moment.
fn append_beat<K: Keeper>(
    keeper: &mut K,
    last_beat: &mut Option<Moment>,
    now: Moment,
) -> Option<Answer>
    requires moment { now ≤ greatest_moment }
    requires later { IfSome (K.content keeper.old) (λ h. stamp_at h (length h) ≤ now) }
    ensures { Beats (K.content keeper.old) (K.content keeper.new) (K.faults keeper.old) (K.faults keeper.new)
        last_beat.old last_beat.new now (option_map answer_of result) }
{
    keeper.known();
    match keeper.append(Entry::Beat { stamp: now }) {
        Ok(_) => {
            *last_beat = Some(now);
            None
        }
        Err(fault) => Some(refused(fault)),
    }
}
