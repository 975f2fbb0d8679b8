// A cache is no longer shared.
ghost use Rattle.std.specs.Prelude.{◌≡◌, ◌<◌, ◌≤◌, ◌+◌, ◌∷◌, ◌++◌, [], ℕ, All, None, ◌*◌, true, false, length, slice_index_or, slice_set};
ghost use Rattle.std.specs.Slots.{slots_items, slots_filled, slots_len, IsFull};
ghost use lib.ListN.{get_elem?};
ghost use mathlib.Core.Option.{some};
ghost use Rattle.slot_share.specs.Values.{slots_of};
ghost use Rattle.slot_share.specs.Rule.{size_of};
ghost use Rattle.slot_share.specs.Closing.{AreAllSeats, Closes, Gathers, IsTakenBack, TakesRow};

use crate::marker::Marker;
use crate::shared::{CacheSeat, Shared};
use crate::table_steps::{Chair, Row, Table, join};
use atomic_table::Closed;
use slot_cache::{SlotCache, SlotParts};
use std::alloc::Global;
use wan_cache::Moment;

impl<P: Drop, M: Marker<P>> Shared<M, P> {
    /// Ends the share, of which all seats are handed in, and gives the cache back, whose greatest moment is now `now`.
    /// No call was given a later moment. A main value that was set before its slot's floor is dropped. It takes no
    /// memory, since `share` took what it needs, and so it is never refused.
    pub fn close(self, seats: Vec<CacheSeat<M, P>>, now: Moment) -> SlotCache<P>
        requires seats { AreAllSeats self seats.items now }
        ensures { Closes M.is_true self seats.items now result }
    {
        let Shared { table, rest } = self;
        let chair = join_all(&table.shared, seats);
        let mut closed = table.close_with(chair);
        let mut parts = rest;
        parts.template_check = Moment(closed.word(1));
        parts.message_check = Moment(closed.word(2));
        parts.greatest = now;
        take_rows(&mut closed, &mut parts);
        closed.free();
        SlotCache::from_parts(parts)
    }
}

// Makes one seat of all.
fn join_all<P, M: Marker<P>>(table: &Table<M, P>, seats: Vec<CacheSeat<M, P>>) -> Chair<P>
    requires words { table.now.table_id.words ≡ size_of table.now.key + slots_of table.now.key }
    requires rows { table.now.table_id.slots ≡ slots_of table.now.key }
    requires some { (0 < size_of table.now.key) × (0 < length seats.items) }
    requires mine { All (λ seat. seat.table ≡ table.now.table_id) seats.items }
    ensures same { result.table_id ≡ table.now.table_id }
    ensures carries { (result.me.1 ≡ []) × (result.me.0.holds ≡ None) }
    ensures parts { result.me.0.rank.parts ≡ length seats.items }
    ensures gathers { Gathers seats.items result.me.0 }
{
    let mut seats = seats;
    let Some(last) = seats.pop() else {
        unreachable!()
    };
    let CacheSeat {
        chair: mut all,
        number: _,
        greatest: _,
        apart: _,
        marker: _,
    } = last;
    while let Some(seat) = seats.pop() {
        let CacheSeat {
            chair,
            number: _,
            greatest: _,
            apart: _,
            marker: _,
        } = seat;
        join(table, &mut all, chair);
    }
    all
}

// Takes all rows and floors back.
fn take_rows<P: Drop>(closed: &mut Closed<Row<P>, Global>, parts: &mut SlotParts<P>)
    requires words { (slots_len closed.old.words ≡ 2 * parts.old.slots + 3) × IsFull closed.old.words }
    requires rows { (slots_len closed.old.slots ≡ parts.old.slots) × IsFull closed.old.slots }
    requires floors { length parts.old.floors.items ≡ parts.old.slots }
    requires room { (parts.old.rows.items ≡ []) × (parts.old.slots ≤ parts.old.rows.cap) }
    ensures emptied { (k : ℕ) → k < slots_len closed.new.slots
        → slice_index_or (slots_filled closed.new.slots) k false ≡ false }
    ensures taken { IsTakenBack parts.old.slots (slots_items closed.old.words) (slots_items closed.old.slots)
        parts.old parts.new }
{
    for slot in 0..parts.slots as usize {
        take_row(closed, parts, slot);
    }
}

// Takes one row and its floor back.
fn take_row<P: Drop>(closed: &mut Closed<Row<P>, Global>, parts: &mut SlotParts<P>, slot: usize)
    requires word { (slot + 3 < slots_len closed.old.words) × IsFull closed.old.words }
    requires row { (slot < slots_len closed.old.slots)
        × (slice_index_or (slots_filled closed.old.slots) slot false ≡ true) }
    requires floor { slot < length parts.old.floors.items }
    requires room { length parts.old.rows.items < parts.old.rows.cap }
    ensures closed { (closed.new.words ≡ closed.old.words)
        × (slots_items closed.new.slots ≡ slots_items closed.old.slots)
        × (slots_len closed.new.slots ≡ slots_len closed.old.slots)
        × (slots_filled closed.new.slots ≡ slice_set (slots_filled closed.old.slots) slot false) }
    ensures room { parts.old.rows.cap ≤ parts.new.rows.cap }
    ensures taken { TakesRow (slots_items closed.old.words) (slots_items closed.old.slots) slot parts.old parts.new }
{
    let floor = Moment(closed.word(slot + 3));
    let mut row = closed.take(slot);
    if parts.floors[slot] < floor {
        row.drop_before(floor);
    }
    parts.floors[slot] = floor;
    let Ok(()) = parts.rows.push(row) else {
        unreachable!()
    };
}
