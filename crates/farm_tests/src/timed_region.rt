// A region with the moment that it is called at.
ghost use Rattle.std.specs.Prelude.{◌≡◌, ◌≤◌, ◌<◌, length};
ghost use Rattle.wiki_model.specs.Cache.{IsEmptyCache};

use crate::setting::title_of;
use chronology_store::RelayAnswer;
use commit_feed::Entry;
use farm_base::{Bounds, MOMENT_MAX, Memory, Moment};
use page_render::Page;
use region_state::{
    Answer, Origin, PutNote, RegionPlan, RegionState, SnapTerms, Snapped, ViewAsk, Wait,
};
use replica_apply::Applied;
use std::alloc::Global;
use std::marker::Model;
use std::test::Fail;
use wan_cache::{Cause, Look, RegionStore};
use wiki_titles::ClientId;

/// A region whose cache is there, and a moment that is not before one that it was given.
#[derive(Drop)]
pub struct TimedRegion<S: RegionStore<Page> + Drop> {
    region: RegionState<S>,
    now: Moment,
}

impl<S: RegionStore<Page> + Drop> Model for TimedRegion<S> {
    ghost use Rattle.std.specs.Prelude.{◌≤◌, IsSome};
    ghost use Rattle.wiki_model.specs.Limits.{greatest_moment};
    ghost use Rattle.region_state.specs.RegionState.{RegionParts, IsBefore};

    ghost Value = { RegionParts S };

    ghost view = { λ t. t.region };

    ghost invariant = { λ t. IsSome t.region.cache × IsBefore S.cache t.region t.now × (t.now ≤ greatest_moment) };
}

/// What a look shows, with the source in place of the page.
#[derive(Clone, Copy, Debug, PartialEq, Eq)]
pub enum Seen {
    Hit(u64),
    Interim(u64),
    Miss(Cause),
    Memory,
}

/// What a store answers, with the length in place of the page.
#[derive(Clone, Copy, Debug, PartialEq, Eq)]
pub enum Stored {
    Page {
        source: u64,
        origin: Origin,
        put: Option<PutNote>,
        lagged: bool,
        bytes: usize,
    },
    NoPage {
        source: u64,
    },
    Other,
}

impl<S: RegionStore<Page> + Drop> TimedRegion<S> {
    /// A region at the moment 0, with the epoch 0 and the default bounds.
    pub fn new(alloc: Global, plan: &RegionPlan, cache: S) -> Result<TimedRegion<S>, Memory>
        requires empty { IsEmptyCache (S.cache cache) }
        requires some { 0 < length plan.now.weights }
        requires few { length plan.now.weights ≤ 8 }
    {
        match RegionState::new(alloc, plan, Moment(0), cache, Bounds::DEFAULT) {
            Ok(region) => Ok(TimedRegion {
                region,
                now: Moment(0),
            }),
            Err(_) => Err(Memory),
        }
    }

    /// Lets this many milliseconds pass.
    pub fn pass(&mut self, time: u64) {
        let later = self.now.0.saturating_add(time);
        self.now = Moment(later.min(MOMENT_MAX));
    }

    /// What the cache has now for a page of at least so many entries.
    pub fn look(&self, alloc: Global, title: &str, need: u64) -> Result<Seen, Fail> {
        let title = title_of(alloc, title)?;
        Ok(match self.region.look(&title, need, self.now) {
            Look::Hit(value) => Seen::Hit(value.upto),
            Look::Interim(value) => Seen::Interim(value.upto),
            Look::Miss(cause) => Seen::Miss(cause),
            Look::Memory => Seen::Memory,
        })
    }

    /// What a replica shows of the title now, for a page of at least so many entries; no edit of it is begun.
    pub fn snap(&self, alloc: Global, title: &str, need: u64, word: u64) -> Result<Snapped, Fail> {
        let title = title_of(alloc, title)?;
        let terms = SnapTerms {
            need,
            word,
            pending: false,
        };
        Ok(self.region.snap(alloc, &title, terms, self.now)?)
    }

    /// Renders and stores now what was snapped.
    pub fn store(&mut self, alloc: Global, title: &str, snapped: &Snapped) -> Result<Stored, Fail> {
        let title = title_of(alloc, title)?;
        Ok(shown(self.region.store(alloc, &title, snapped, self.now)))
    }

    /// Takes a purge of the title now.
    pub fn receive(&mut self, alloc: Global, title: &str) -> Result<(), Fail> {
        let title = title_of(alloc, title)?;
        self.region.receive(&title, self.now);
        Ok(())
    }

    /// Whether a view of this client goes on that arrived at this moment.
    pub fn wait(&self, ask: &ViewAsk, arrived: u64, last: bool) -> Wait {
        self.region.wait(ask, Moment(arrived), self.now, last)
    }

    /// Takes the client's first commit as heard now.
    pub fn hear(&mut self, client: u64, entry: u64) -> Result<RelayAnswer, Memory> {
        self.region
            .hear(&ClientId::number(client), 1, entry, self.now)
    }

    /// Hands an entry to replica 0.
    pub fn apply_first(&mut self, n: u64, entry: &Entry) -> Result<Applied, Memory> {
        // There is a replica 0.
        let _ = self.region.replicas();
        self.region.apply_entry(0, n, entry)
    }

    /// Pages are read by this markup from now on.
    pub fn set_markup(&mut self, markup: u8) {
        self.region.set_markup(markup);
    }

    /// The markup by which pages are read.
    pub fn markup(&self) -> u8 {
        self.region.markup()
    }
}

fn shown(answer: Answer) -> Stored {
    match answer {
        Answer::Ok(page) => Stored::Page {
            source: page.source,
            origin: page.origin,
            put: page.put,
            lagged: page.lagged,
            bytes: page.page.bytes().len(),
        },
        Answer::NoPage { source } => Stored::NoPage { source },
        _ => Stored::Other,
    }
}
