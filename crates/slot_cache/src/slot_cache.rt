// A region's cache of fixed slots.
ghost use Rattle.std.specs.Prelude.{◌≡◌, ◌≢◌, ◌<◌, ◌≤◌, ◌+◌, ℕ, length, slice_index, slice_set, max, false, IfOk, replicate};
ghost use Rattle.wiki_model.specs.Limits.{greatest_moment, hold_off_max, slots_min, slots_max};
ghost use Rattle.wiki_model.specs.Cache.{IsEmptyCache, Puts, Purges, Touches};
ghost use Rattle.wan_value.specs.AsModel.{value_of, ask_of};
ghost use Rattle.wan_cache.specs.Rules.{IsFound, found_by, shown, placed};
ghost use Rattle.slot_cache.specs.Slots.{same_slot};
ghost use Rattle.slot_cache.specs.SlotRow.{main_for, interim_for};
ghost use Rattle.slot_cache.specs.SlotCache.{state_of, IsKept, row_in, AreEmpty, StoresIn, DropsIn, KeepsOthers, HoldsSlot, KeepsAll};
ghost use Rattle.slot_cache.specs.AsModel.{map_of};

use crate::slot_number::slot_of;
use crate::slot_parts::SlotParts;
use crate::slot_row::SlotRow;
use farm_base::Memory;
use std::alloc::Global;
use std::marker::Model;
use wan_cache::{Ask, Class, HOLD_OFF_MAX, Look, LookTimes, Moment, Put, RegionStore, Value};
use wiki_titles::Title;

/// How many slots a cache has at least.
pub const SLOTS_MIN: u32 = 256;
/// How many slots a cache may have at most.
pub const SLOTS_MAX: u32 = 65_536;

/// A cache of fixed slots. Two keys are together if they have one slot: they share its floor, and one place each for a
/// main and an interim value, which are those of the key that was put last. Keys of other slots stay exactly as they
/// were. Each call but `touch` costs one digest of its key, and `look` and `put` one comparison of keys. `put`, `purge`
/// and `touch` take no memory, and `put` never answers `Put::Memory` or `Put::Busy`.
#[derive(Drop)]
pub struct SlotCache<P> {
    /// How many slots there are, `SLOTS_MIN` to `SLOTS_MAX`.
    slots: u32,
    /// By slot: until this moment its keys are held off; 0 before the first purge.
    floors: Vec<Moment>,
    /// By slot: its key and its two places. Each row lies in a block of its own, which can be moved as one word.
    rows: Vec<Box<SlotRow<P>>>,
    /// Up to this moment all keys are held off, since a template changed; 0 before the first touch.
    template_check: Moment,
    /// Up to this moment all keys are held off, since a message changed; 0 before the first touch.
    message_check: Moment,
    /// The greatest moment that a call was given.
    greatest: Moment,
    /// How long a purge holds its slot off, in milliseconds, 1 to `HOLD_OFF_MAX`.
    hold_off: u64,
}

impl<P> Model for SlotCache<P> {
    ghost use Rattle.slot_cache.specs.SlotCache.{SlotState, IsKept};

    ghost Value = { SlotState P };

    ghost view = { λ c. record {
      slots = c.slots;
      floors = c.floors.items;
      rows = c.rows.items;
      template_check = c.template_check;
      message_check = c.message_check;
      greatest = c.greatest;
      hold_off = c.hold_off;
    } };

    ghost invariant = { λ c. IsKept (record {
      slots = c.slots;
      floors = c.floors.items;
      rows = c.rows.items;
      template_check = c.template_check;
      message_check = c.message_check;
      greatest = c.greatest;
      hold_off = c.hold_off;
    }) };
}

impl<P: Drop> SlotCache<P> {
    /// An empty cache of this many slots, `SLOTS_MIN` to `SLOTS_MAX`, whose purges hold off for this many
    /// milliseconds, 1 to `HOLD_OFF_MAX`. All memory that the cache ever needs is taken here: about 400 bytes a slot.
    pub fn new(alloc: Global, slots: u32, hold_off: u64) -> Result<Self, Memory>
        requires some { slots_min ≤ slots }
        requires few { slots ≤ slots_max }
        requires holds { 0 < hold_off }
        requires short { hold_off ≤ hold_off_max }
        ensures empty { IfOk result (λ c. IsEmptyCache (map_of c)) }
        ensures hold_off { IfOk result (λ c. (map_of c).hold_off ≡ hold_off) }
        ensures together { IfOk result (λ c. (map_of c).together ≡ same_slot slots) }
        ensures slots { IfOk result (λ c. c.slots ≡ slots) }
    {
        Ok(SlotCache {
            slots,
            floors: open_floors(alloc, slots)?,
            rows: empty_rows(alloc, slots)?,
            template_check: Moment(0),
            message_check: Moment(0),
            greatest: Moment(0),
            hold_off,
        })
    }

    /// Takes the cache apart. It takes no memory.
    pub fn into_parts(self) -> SlotParts<P>
        ensures state { state_of result ≡ self }
        ensures kept { IsKept (state_of result) }
    {
        SlotParts {
            slots: self.slots,
            floors: self.floors,
            rows: self.rows,
            template_check: self.template_check,
            message_check: self.message_check,
            greatest: self.greatest,
            hold_off: self.hold_off,
        }
    }

    /// The cache of these parts. It takes no memory.
    pub fn from_parts(parts: SlotParts<P>) -> Self
        requires kept { IsKept (state_of parts) }
        ensures state { result ≡ state_of parts }
    {
        SlotCache {
            slots: parts.slots,
            floors: parts.floors,
            rows: parts.rows,
            template_check: parts.template_check,
            message_check: parts.message_check,
            greatest: parts.greatest,
            hold_off: parts.hold_off,
        }
    }
}

impl<P: Drop> RegionStore<P> for SlotCache<P> {
    ghost cache = { map_of };

    fn look(&self, key: &Title, now: Moment, ask: &Ask) -> Look<P> {
        let slot = slot_of(key, self.slots) as usize;
        let times = LookTimes {
            floor: floor_in(&self.floors, slot),
            check: self.template_check.later(self.message_check),
            hold_off: self.hold_off,
            at: now,
        };
        look_in(&self.rows, slot, key, &times, ask)
    }

    /// Stores a value in its key's slot. Other slots stay, and so does every floor.
    fn put(&mut self, key: &Title, value: Value<P>) -> Put
        requires open { (map_of {P = P} self.old).shared ≡ false }
        requires later { (map_of {P = P} self.old).greatest ≤ value.set_at }
        requires small { value.set_at ≤ greatest_moment }
        ensures puts { Puts (map_of {P = P} self.old) (map_of {P = P} self.new) key.now (value_of value) result }
        ensures others { KeepsOthers {P = P} self.old self.new key.now }
        ensures floors { self.new.floors ≡ self.old.floors }
        ensures granted { result ≢ Put.Memory }
        ensures alone { (holder : ℕ) → result ≢ Put.Busy holder }
    {
        let slot = slot_of(key, self.slots) as usize;
        let check = self.template_check.later(self.message_check);
        let floor = floor_in(&self.floors, slot);
        self.greatest = value.set_at;
        put_in(&mut self.rows, slot, key, floor, check, value)
    }

    /// Holds the key's slot off, and drops its main value. Other slots stay.
    fn purge(&mut self, key: &Title, now: Moment)
        requires open { (map_of {P = P} self.old).shared ≡ false }
        requires later { (map_of {P = P} self.old).greatest ≤ now }
        requires small { now ≤ greatest_moment }
        ensures purges { Purges (map_of {P = P} self.old) (map_of {P = P} self.new) key.now now }
        ensures holds { HoldsSlot {P = P} self.old self.new key.now (now + self.old.hold_off) }
        ensures others { KeepsOthers {P = P} self.old self.new key.now }
    {
        let slot = slot_of(key, self.slots) as usize;
        let until = Moment(now.0 + self.hold_off);
        self.greatest = now;
        raise_floor(&mut self.floors, slot, until);
        drop_main(&mut self.rows, slot);
    }

    /// Holds off all keys. Nothing that is kept for a slot changes.
    fn touch(&mut self, class: Class, now: Moment)
        requires open { (map_of {P = P} self.old).shared ≡ false }
        requires later { (map_of {P = P} self.old).greatest ≤ now }
        requires small { now ≤ greatest_moment }
        requires class { class ≢ Class.Plain }
        ensures touches { Touches (map_of {P = P} self.old) (map_of {P = P} self.new) class now }
        ensures keeps { KeepsAll {P = P} self.old self.new }
    {
        let until = Moment(now.0 + self.hold_off);
        self.greatest = now;
        match class {
            Class::Template => self.template_check = self.template_check.later(until),
            Class::Message => self.message_check = self.message_check.later(until),
            Class::Plain => {}
        }
    }

    fn hold_off(&self) -> u64 {
        self.hold_off
    }

    fn known(&self) {}
}

// A floor of 0 for each slot.
fn open_floors(alloc: Global, slots: u32) -> Result<Vec<Moment>, Memory>
    ensures { IfOk result (λ floors. floors.items ≡ replicate slots 0) }
{
    let mut floors = Vec::with_capacity(alloc, slots as usize)?;
    for _ in 0..slots {
        floors.push(Moment(0))?;
    }
    Ok(floors)
}

// An empty row for each slot, each in a block of its own.
fn empty_rows<P: Drop>(alloc: Global, slots: u32) -> Result<Vec<Box<SlotRow<P>>>, Memory>
    ensures length { IfOk result (λ rows. length rows.items ≡ slots) }
    ensures empty { IfOk result (λ rows. AreEmpty rows.items) }
{
    // Once there is room for all, only a row's own block can be refused.
    let mut rows = Vec::with_capacity(alloc, slots as usize)?;
    for _ in 0..slots {
        rows.push(Box::new(alloc, SlotRow::new())?)?;
    }
    Ok(rows)
}

fn floor_in(floors: &[Moment], slot: usize) -> Moment
    requires { slot < length floors.now }
    ensures { result ≡ slice_index floors.now slot }
{
    floors[slot]
}

// What is there for the key in this slot.
fn look_in<P: Drop>(
    rows: &[Box<SlotRow<P>>],
    slot: usize,
    key: &Title,
    times: &LookTimes,
    ask: &Ask,
) -> Look<P>
    requires { slot < length rows.now }
    ensures { let main = shown (main_for (row_in rows.now slot) key.now) in
        let interim = shown (interim_for (row_in rows.now slot) key.now) in
        IsFound result (found_by times.now (ask_of ask.now) main interim) }
{
    rows[slot].look(key, times, ask)
}

// Puts the value into this slot, by its floor and the check.
fn put_in<P: Drop>(
    rows: &mut Vec<Box<SlotRow<P>>>,
    slot: usize,
    key: &Title,
    floor: Moment,
    check: Moment,
    value: Value<P>,
) -> Put
    requires { slot < length rows.old.items }
    ensures answer { result ≡ placed floor check value.set_at value.lagged }
    ensures stores { StoresIn rows.old.items rows.new.items slot key.now value result }
    ensures length { length rows.new.items ≡ length rows.old.items }
{
    put_at(rows, slot, key, floor, check, value)
}

// The same over the slots as a slice.
fn put_at<P: Drop>(
    rows: &mut [Box<SlotRow<P>>],
    slot: usize,
    key: &Title,
    floor: Moment,
    check: Moment,
    value: Value<P>,
) -> Put
    requires { slot < length rows.old }
    ensures answer { result ≡ placed floor check value.set_at value.lagged }
    ensures stores { StoresIn rows.old rows.new slot key.now value result }
    ensures length { length rows.new ≡ length rows.old }
{
    rows[slot].put(key, floor, check, value)
}

// Drops this slot's main value.
fn drop_main<P: Drop>(rows: &mut Vec<Box<SlotRow<P>>>, slot: usize)
    requires { slot < length rows.old.items }
    ensures drops { DropsIn rows.old.items rows.new.items slot }
    ensures length { length rows.new.items ≡ length rows.old.items }
{
    drop_main_at(rows, slot);
}

// The same over the slots as a slice.
fn drop_main_at<P: Drop>(rows: &mut [Box<SlotRow<P>>], slot: usize)
    requires { slot < length rows.old }
    ensures drops { DropsIn rows.old rows.new slot }
    ensures length { length rows.new ≡ length rows.old }
{
    rows[slot].main = None;
}

// Raises this slot's floor.
fn raise_floor(floors: &mut Vec<Moment>, slot: usize, until: Moment)
    requires { slot < length floors.old.items }
    ensures { let raised = max (slice_index floors.old.items slot) until in
        floors.new.items ≡ slice_set floors.old.items slot raised }
{
    raise_at(floors, slot, until);
}

// The same over the floors as a slice.
fn raise_at(floors: &mut [Moment], slot: usize, until: Moment)
    requires { slot < length floors.old }
    ensures { floors.new ≡ slice_set floors.old slot (max (slice_index floors.old slot) until) }
{
    floors[slot] = floors[slot].later(until);
}
