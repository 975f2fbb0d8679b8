// A store of cached pages with the moment that it is called at.
ghost use Rattle.std.specs.Prelude.{◌≡◌, ◌≢◌, ◌≤◌};
ghost use Rattle.wiki_model.specs.Cache.{IsEmptyCache};
ghost use Rattle.cache_tests.specs.Timed.{IsReady};

use crate::setting::value_at;
use farm_base::Moment;
use std::alloc::{AllocError, Global};
use std::marker::Model;
use wan_cache::{Ask, Cause, Class, Look, Put, RegionStore};
use wiki_titles::Title;

/// A store, and a moment that is not before one that it was given.
#[derive(Drop)]
pub struct Timed<C: RegionStore<u64> + Drop> {
    store: C,
    now: Moment,
}

impl<C: RegionStore<u64> + Drop> Model for Timed<C> {
    ghost use Rattle.cache_tests.specs.Timed.{IsReady};

    ghost Value = { C };

    ghost view = { λ t. t.store };

    ghost invariant = { λ t. IsReady (C.RegionStore.cache t.store) t.now };
}

/// What a look shows, with the source in place of the page.
#[derive(Clone, Copy, Debug, PartialEq, Eq)]
pub enum Seen {
    Hit(u64),
    Interim(u64),
    Miss(Cause),
    Memory,
}

/// What this look shows.
pub fn shown(look: &Look<u64>) -> Seen {
    match look {
        Look::Hit(value) => Seen::Hit(*value.page),
        Look::Interim(value) => Seen::Interim(*value.page),
        Look::Miss(cause) => Seen::Miss(*cause),
        Look::Memory => Seen::Memory,
    }
}

impl<C: RegionStore<u64> + Drop> Timed<C> {
    /// The store at the moment 0.
    pub fn new(store: C) -> Timed<C>
        requires { IsEmptyCache (C.RegionStore.cache store) }
    {
        Timed {
            store,
            now: Moment(0),
        }
    }

    /// The store at this moment.
    pub fn at(store: C, now: Moment) -> Timed<C>
        requires { IsReady (C.RegionStore.cache store) now }
    {
        Timed { store, now }
    }

    /// The store, and the moment that it is called at.
    pub fn into_parts(self) -> (C, Moment)
        ensures { IsReady (C.RegionStore.cache result.0) result.1 }
    {
        (self.store, self.now)
    }

    /// The moment at which the next call is made.
    pub fn now(&self) -> Moment {
        self.now
    }

    /// Lets so many milliseconds pass.
    pub fn pass(&mut self, time: u64) {
        let later = self.now.0.saturating_add(time);
        self.now = Moment(later.min(4_000_000_000_000_000));
    }

    /// What is there for a page of at least so many entries.
    pub fn look(&self, title: &Title, need: u64) -> Seen {
        let ask = Ask {
            epoch: Moment(0),
            version: 1,
            need,
        };
        shown(&self.store.look(title, self.now, &ask))
    }

    /// Stores a page of so many entries now, and answers where it is.
    pub fn put(
        &mut self,
        alloc: Global,
        title: &Title,
        upto: u64,
        lagged: bool,
    ) -> Result<Put, AllocError> {
        let value = value_at(alloc, upto, self.now, lagged)?;
        Ok(self.store.put(title, value))
    }

    /// Purges the title now.
    pub fn purge(&mut self, title: &Title) {
        self.store.purge(title, self.now);
    }

    /// Takes a purge of a title of this class now; all pages share titles of it.
    pub fn touch(&mut self, class: Class)
        requires { class ≢ Class.Plain }
    {
        self.store.touch(class, self.now);
    }

    /// For how many milliseconds a purge holds its title off.
    pub fn hold_off(&self) -> u64 {
        self.store.known();
        self.store.hold_off()
    }
}
