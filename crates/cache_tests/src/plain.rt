// A cache as a plain list of keys, which says in few words what a bounded cache is to answer.
use crate::timed::Seen;
use farm_base::Moment;
use std::alloc::{AllocError, Global};
use wan_cache::{Cause, Put};

const HOLD_OFF: u64 = 11_000;

/// A value: the number of its entries, and the moment at which it was set.
#[derive(Clone, Copy)]
struct Page {
    upto: u64,
    set_at: u64,
    life: u64,
}

/// A key and what is kept for it.
#[derive(Clone, Copy)]
struct Key {
    title: u32,
    floor: u64,
    main: Option<Page>,
    interim: Option<Page>,
}

/// A cache of four keys, that of the oldest use first, with the floor and the check of all.
#[derive(Drop)]
pub struct PlainCache {
    keys: Vec<Key>,
    base: u64,
    check: u64,
}

// The end of a hold-off or of a life.
fn end(start: u64, length: u64) -> u64 {
    start.saturating_add(length)
}

impl PlainCache {
    /// An empty cache, which has held nothing off.
    pub fn new(alloc: Global) -> PlainCache {
        PlainCache {
            keys: Vec::new(alloc),
            base: 0,
            check: 0,
        }
    }

    fn find(&self, title: u32) -> Option<Key> {
        self.keys.iter().find(|key| key.title == title).copied()
    }

    /// Takes the key out, or makes an empty one, for which a full list loses its first.
    fn claim(&mut self, title: u32, now: u64) -> Key {
        if let Some(place) = self.keys.iter().position(|key| key.title == title) {
            return self.keys.remove(place);
        }
        if self.keys.len() == 4 {
            let gone = self.keys.remove(0);
            if now < gone.floor {
                self.base = self.base.max(gone.floor);
            }
        }
        Key {
            title,
            floor: 0,
            main: None,
            interim: None,
        }
    }

    fn is_checked(&self, now: u64) -> bool {
        self.check != 0 && now <= self.check
    }

    /// Stores a page of so many entries at this moment, as the key's last use, and answers where it is.
    pub fn put(
        &mut self,
        title: u32,
        upto: u64,
        now: u64,
        lagged: bool,
    ) -> Result<Put, AllocError> {
        let mut key = self.claim(title, now);
        let floor = key.floor.max(self.base);
        let page = Page {
            upto,
            set_at: now,
            life: if lagged { 30_000 } else { 86_400_000 },
        };
        let answer = if floor <= now && !self.is_checked(now) {
            key.main = Some(page);
            Put::Main
        } else if !lagged {
            key.interim = Some(page);
            Put::Interim
        } else {
            let until = if now < floor { floor } else { self.check };
            Put::Held {
                until: Moment(until),
            }
        };
        self.keys.push(key)?;
        Ok(answer)
    }

    /// Drops the title's main page, and holds the title off.
    pub fn purge(&mut self, title: u32, now: u64) -> Result<(), AllocError> {
        let mut key = self.claim(title, now);
        key.floor = key.floor.max(end(now, HOLD_OFF));
        key.main = None;
        self.keys.push(key)?;
        Ok(())
    }

    /// Holds all titles off, as a purge of a shared title does.
    pub fn touch(&mut self, now: u64) {
        self.check = end(now, HOLD_OFF);
    }

    /// What is there for a page of at least so many entries; looking is no use of a key.
    pub fn look(&self, title: u32, now: u64, need: u64) -> Seen {
        let key = self.find(title);
        let floor = key.map_or(0, |key| key.floor).max(self.base);
        if now < floor || self.is_checked(now) {
            self.look_held(key.and_then(|key| key.interim), floor, now, need)
        } else {
            self.look_free(key.and_then(|key| key.main), floor, now, need)
        }
    }

    fn look_held(&self, page: Option<Page>, floor: u64, now: u64, need: u64) -> Seen {
        if let Some(page) = page {
            let held = end(page.set_at, HOLD_OFF);
            let shows = floor <= held && self.check <= held && now < end(page.set_at, 2_000);
            if shows && need <= page.upto {
                return Seen::Interim(page.upto);
            }
        }
        if now < floor {
            return Seen::Miss(Cause::Purged {
                floor: Moment(floor),
            });
        }
        Seen::Miss(Cause::Checked {
            check: Moment(self.check),
        })
    }

    fn look_free(&self, page: Option<Page>, floor: u64, now: u64, need: u64) -> Seen {
        let Some(page) = page else {
            return Seen::Miss(Cause::Absent)
        };
        if page.set_at < floor {
            return Seen::Miss(Cause::Absent);
        }
        if self.check != 0 && page.set_at <= self.check {
            return Seen::Miss(Cause::Checked {
                check: Moment(self.check),
            });
        }
        let at = end(page.set_at, page.life);
        if at <= now {
            return Seen::Miss(Cause::Expired { at: Moment(at) });
        }
        if page.upto < need {
            return Seen::Miss(Cause::Position { have: page.upto });
        }
        Seen::Hit(page.upto)
    }
}
