// A region's cache over ordered maps, of bounded size.
ghost use Rattle.std.specs.Prelude.{◌≡◌, ◌≢◌, ◌+◌, ◌<◌, ◌≤◌, false};
ghost use Rattle.wiki_model.specs.Limits.{greatest_moment, hold_off_max};
ghost use Rattle.wiki_model.specs.Cache.{IsEmptyCache, Puts, Purges, Touches};
ghost use Rattle.wan_value.specs.AsModel.{value_of};
ghost use Rattle.wan_cache.specs.CacheRow.{floor_in};
ghost use Rattle.wan_cache.specs.MapCache.{row_in, KeepsOthers, Renews, HoldsKeyOrAll, KeepsAll};
ghost use Rattle.wan_cache.specs.AsModel.{map_of};

use crate::find_value::{LookTimes, find};
use crate::recent_uses::RecentUses;
use crate::region_store::{Look, RegionStore};
use crate::row_table::RowTable;
use std::alloc::Global;
use std::collections::BTreeMap;
use std::marker::Model;
use wan_value::{Ask, Value};
use wiki_model::{Class, Moment, Put};
use wiki_titles::Title;

/// How many keys a cache may keep at most.
pub const KEYS_MAX: u32 = 65_536;
/// How long a purge may hold its key off at most, in milliseconds: three minutes.
pub const HOLD_OFF_MAX: u64 = 180_000;

/// A cache of bounded size. If a new key finds it full, the key goes whose last `put` or `purge` is oldest; if
/// that key's floor is still to come, the floor of every key is raised to it, and a purge that finds no memory
/// raises the floor of every key. So no purge is forgotten before its time. All other keys stay as they were.
/// Any two keys are together. Each call costs a logarithm of the keys.
#[derive(Drop)]
pub struct MapCache<P> {
    table: RowTable<P>,
    /// Up to this moment all keys are held off, since a template changed; 0 before the first touch.
    template_check: Moment,
    /// Up to this moment all keys are held off, since a message changed; 0 before the first touch.
    message_check: Moment,
    /// The greatest moment that a call was given.
    greatest: Moment,
    /// How long a purge holds its key off, in milliseconds, 1 to `HOLD_OFF_MAX`.
    hold_off: u64,
}

impl<P> Model for MapCache<P> {
    ghost use Rattle.wan_cache.specs.MapCache.{MapState, IsKept};

    ghost Value = { MapState P };

    ghost view = { λ c. record {
      rows = c.table.rows.entries;
      uses = c.table.uses;
      capacity = c.table.capacity;
      base = c.table.base;
      template_check = c.template_check;
      message_check = c.message_check;
      greatest = c.greatest;
      hold_off = c.hold_off;
    } };

    ghost invariant = { λ c. IsKept (record {
      rows = c.table.rows.entries;
      uses = c.table.uses;
      capacity = c.table.capacity;
      base = c.table.base;
      template_check = c.template_check;
      message_check = c.message_check;
      greatest = c.greatest;
      hold_off = c.hold_off;
    }) };
}

impl<P: Drop> MapCache<P> {
    /// An empty cache for this many keys, 1 to `KEYS_MAX`, whose purges hold off for this many milliseconds, 1 to
    /// `HOLD_OFF_MAX`. It takes no memory.
    pub fn new(alloc: Global, keys: u32, hold_off: u64) -> Self
        requires some { 0 < keys }
        requires few { keys ≤ KEYS_MAX }
        requires holds { 0 < hold_off }
        requires short { hold_off ≤ hold_off_max }
        ensures empty { IsEmptyCache (map_of result) }
        ensures hold_off { (map_of result).hold_off ≡ hold_off }
        ensures capacity { result.capacity ≡ keys }
    {
        let table = RowTable {
            rows: BTreeMap::new(alloc),
            uses: RecentUses::new(alloc),
            capacity: keys as usize,
            base: Moment(0),
        };
        MapCache {
            table,
            template_check: Moment(0),
            message_check: Moment(0),
            greatest: Moment(0),
            hold_off,
        }
    }
}

impl<P: Drop> RegionStore<P> for MapCache<P> {
    ghost cache = { map_of };

    fn look(&self, key: &Title, now: Moment, ask: &Ask) -> Look<P> {
        let times = LookTimes {
            floor: self.table.base,
            check: self.template_check.later(self.message_check),
            hold_off: self.hold_off,
            at: now,
        };
        find(self.table.rows.get(key), &times, ask)
    }

    /// Stores a value with the newest use for its key. Other keys stay, but for eviction.
    fn put(&mut self, key: &Title, value: Value<P>) -> Put
        requires open { (map_of {P = P} self.old).shared ≡ false }
        requires later { (map_of {P = P} self.old).greatest ≤ value.set_at }
        requires small { value.set_at ≤ greatest_moment }
        ensures puts { Puts (map_of {P = P} self.old) (map_of {P = P} self.new) key.now (value_of value) result }
        ensures others { KeepsOthers {P = P} self.old self.new key.now value.set_at }
        ensures floor { floor_in (row_in self.new.rows key.now) ≡ floor_in (row_in self.old.rows key.now) }
        ensures renews { result ≢ Put.Memory → Renews {P = P} self.old self.new key.now }
    {
        let check = self.template_check.later(self.message_check);
        self.greatest = value.set_at;
        self.table.put_value(key, check, value)
    }

    /// Holds the key off. If memory is refused, it holds off all keys.
    fn purge(&mut self, key: &Title, now: Moment)
        requires open { (map_of {P = P} self.old).shared ≡ false }
        requires later { (map_of {P = P} self.old).greatest ≤ now }
        requires small { now ≤ greatest_moment }
        ensures purges { Purges (map_of {P = P} self.old) (map_of {P = P} self.new) key.now now }
        ensures holds { HoldsKeyOrAll {P = P} self.old self.new key.now now (now + self.old.hold_off) }
    {
        let until = Moment(now.0 + self.hold_off);
        self.greatest = now;
        self.table.purge_key(key, now, until);
    }

    /// Holds off all keys. Nothing that is kept for a key changes.
    fn touch(&mut self, class: Class, now: Moment)
        requires open { (map_of {P = P} self.old).shared ≡ false }
        requires later { (map_of {P = P} self.old).greatest ≤ now }
        requires small { now ≤ greatest_moment }
        requires class { class ≢ Class.Plain }
        ensures touches { Touches (map_of {P = P} self.old) (map_of {P = P} self.new) class now }
        ensures keeps { KeepsAll {P = P} self.old self.new }
    {
        let until = Moment(now.0 + self.hold_off);
        self.greatest = now;
        match class {
            Class::Template => self.template_check = self.template_check.later(until),
            Class::Message => self.message_check = self.message_check.later(until),
            Class::Plain => {}
        }
    }

    fn hold_off(&self) -> u64 {
        self.hold_off
    }

    fn known(&self) {}
}
