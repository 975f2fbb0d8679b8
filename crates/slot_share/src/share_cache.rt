// A cache is shared.
ghost use Rattle.std.specs.Prelude.{◌≡◌, ◌<◌, ◌≤◌, ◌+◌, ◌∷◌, ◌++◌, [], All, IfOk, IfErr, length, replicate};
ghost use Rattle.slot_cache.specs.SlotCache.{state_of, IsKept};
ghost use Rattle.slot_cache.specs.AsModel.{map_of};
ghost use Rattle.slot_share.specs.Values.{slots_of};
ghost use Rattle.slot_share.specs.Rule.{size_of, first_view};
ghost use Rattle.slot_share.specs.Shares.{IsSeat, IsDealt};
ghost use Rattle.slot_share.specs.Closing.{marks_in, lent_state, AllTrueIn};

use crate::marker::Marker;
use crate::shared::{CacheSeat, Shared};
use crate::table_steps::{Chair, Row, Table, open_table, split};
use crate::view::Start;
use farm_base::Memory;
use slot_cache::{SlotCache, SlotParts};
use std::alloc::Global;
use std::marker::PhantomData;
use std::mem;
use std::snapshot::Snapshot;
use wan_cache::Moment;

/// How many seats a share may have at most.
pub const SEATS_MAX: u8 = 8;

/// There was no memory to share a cache. It comes back as it was.
#[derive(Drop)]
pub struct NotShared<P> {
    /// The cache as it was.
    pub cache: SlotCache<P>,
}

/// Shares a cache among this many seats, 1 to `SEATS_MAX`. Each value that it shows must be true by `M` in its place.
/// The rows move by one word each, and no page is copied. It takes the memory that `Shared::close` will need, so that
/// `close` is never refused.
pub fn share<M: Marker<P>, P: Drop>(
    alloc: Global,
    cache: SlotCache<P>,
    seats: u8,
) -> Result<(Shared<M, P>, Vec<CacheSeat<M, P>>), NotShared<P>>
    requires some { 0 < seats }
    requires few { seats ≤ SEATS_MAX }
    requires truth { AllTrueIn M.is_true (map_of cache) }
    ensures lent { IfOk result (λ t. lent_state t.0 ≡ cache) }
    ensures seats { IfOk result (λ t. t.0.start.seats ≡ seats) }
    ensures count { IfOk result (λ t. length t.1.items ≡ seats) }
    ensures dealt { IfOk result (λ t. All (IsDealt t.0.table t.0.start t.0.greatest) t.1.items) }
    ensures back { IfErr result (λ refused. refused.cache ≡ cache) }
{
    let parts = cache.into_parts();
    match room_for(alloc, &parts, seats) {
        Ok(room) => share_parts(alloc, parts, room, seats),
        Err(Memory) => Err(not_shared(parts)),
    }
}

// The cache of these parts comes back.
fn not_shared<P: Drop>(parts: SlotParts<P>) -> NotShared<P>
    requires kept { IsKept (state_of parts) }
    ensures back { result.cache ≡ state_of parts }
{
    NotShared {
        cache: SlotCache::from_parts(parts),
    }
}

// All memory but the table's.
struct Room<M, P> {
    /// What the table's words are at first: the marks, and no claim.
    words: Vec<u64>,
    /// Room for the rows that come back.
    rows: Vec<Row<P>>,
    /// Room for the seats.
    seats: Vec<CacheSeat<M, P>>,
}

fn room_for<M, P: Drop>(
    alloc: Global,
    parts: &SlotParts<P>,
    seats: u8,
) -> Result<Room<M, P>, Memory>
    requires floors { length parts.now.floors.items ≡ parts.now.slots }
    ensures words { IfOk result (λ room. room.words.items ≡ marks_in parts.now ++ replicate parts.now.slots 0) }
    ensures rows { IfOk result (λ room. (room.rows.items ≡ []) × (parts.now.slots ≤ room.rows.cap)) }
    ensures seats { IfOk result (λ room. (room.seats.items ≡ []) × (seats ≤ room.seats.cap)) }
{
    let mut words = marks_of(alloc, parts)?;
    push_zeros(&mut words, parts.slots)?;
    Ok(Room {
        words,
        rows: Vec::with_capacity(alloc, parts.slots as usize)?,
        seats: Vec::with_capacity(alloc, seats as usize)?,
    })
}

// Word 0, the checks, and each slot's floor.
fn marks_of<P>(alloc: Global, parts: &SlotParts<P>) -> Result<Vec<u64>, Memory>
    ensures { IfOk result (λ words. words.items ≡ marks_in parts.now) }
{
    let mut words = Vec::with_capacity(alloc, 2 * parts.slots as usize + 3)?;
    words.push(0)?;
    words.push(parts.template_check.0)?;
    words.push(parts.message_check.0)?;
    push_floors(&mut words, &parts.floors)?;
    Ok(words)
}

fn push_floors(words: &mut Vec<u64>, floors: &[Moment]) -> Result<(), Memory>
    ensures { IfOk result (λ _. words.new.items ≡ words.old.items ++ floors.now) }
{
    for floor in floors.iter() {
        words.push(floor.0)?;
    }
    Ok(())
}

fn push_zeros(words: &mut Vec<u64>, count: u32) -> Result<(), Memory>
    ensures { IfOk result (λ _. words.new.items ≡ words.old.items ++ replicate count 0) }
{
    for _ in 0..count {
        words.push(0)?;
    }
    Ok(())
}

// Moves the rows into a table and deals its seats.
fn share_parts<M: Marker<P>, P: Drop>(
    alloc: Global,
    parts: SlotParts<P>,
    room: Room<M, P>,
    seats: u8,
) -> Result<(Shared<M, P>, Vec<CacheSeat<M, P>>), NotShared<P>>
    requires kept { IsKept (state_of parts) }
    requires some { 0 < seats }
    requires few { seats ≤ SEATS_MAX }
    requires truth { AllTrueIn M.is_true (map_of (state_of parts)) }
    requires words { room.words.items ≡ marks_in parts ++ replicate parts.slots 0 }
    requires rows { (room.rows.items ≡ []) × (parts.slots ≤ room.rows.cap) }
    requires room { (room.seats.items ≡ []) × (seats ≤ room.seats.cap) }
    ensures lent { IfOk result (λ t. lent_state t.0 ≡ state_of parts) }
    ensures seats { IfOk result (λ t. t.0.start.seats ≡ seats) }
    ensures count { IfOk result (λ t. length t.1.items ≡ seats) }
    ensures dealt { IfOk result (λ t. All (IsDealt t.0.table t.0.start t.0.greatest) t.1.items) }
    ensures back { IfErr result (λ refused. refused.cache ≡ state_of parts) }
{
    let Room {
        words,
        rows,
        seats: mut dealt,
    } = room;
    let start = Start {
        floors: Snapshot::of(&parts.floors),
        template_check: parts.template_check,
        message_check: parts.message_check,
        rows: Snapshot::of(&parts.rows),
        seats: u64::from(seats),
    };
    let mut rest = parts;
    let lent = mem::replace(&mut rest.rows, rows);
    match open_table::<P, M>(alloc, &words, lent, &start) {
        Ok((table, chair)) => {
            deal_seats(
                &table.shared,
                chair,
                u64::from(seats),
                rest.greatest,
                &mut dealt,
            );
            Ok((Shared { table, rest }, dealt))
        }
        Err(rows) => {
            rest.rows = rows;
            Err(not_shared(rest))
        }
    }
}

// Cuts the first seat of a share into its seats, for which there is room. The seat with number 1 is the last.
fn deal_seats<P, M: Marker<P>>(
    table: &Table<M, P>,
    chair: Chair<P>,
    count: u64,
    greatest: Moment,
    seats: &mut Vec<CacheSeat<M, P>>,
)
    requires words { table.now.table_id.words ≡ size_of table.now.key + slots_of table.now.key }
    requires rows { table.now.table_id.slots ≡ slots_of table.now.key }
    requires some { (0 < size_of table.now.key) × (0 < count) }
    requires few { (count ≡ table.now.key.seats) × (count ≤ 8) }
    requires chair { (chair.table_id ≡ table.now.table_id) × (chair.me ≡ (first_view table.now.key, [])) }
    requires empty { seats.old.items ≡ [] }
    requires room { count ≤ seats.old.cap }
    ensures all { All (IsDealt table.now.table_id table.now.key greatest) seats.new.items }
    ensures count { length seats.new.items ≡ count }
{
    let mut chair = chair;
    let mut number = count;
    while 1 < number {
        let right = split(table, &mut chair);
        add_seat(seats, right, number, greatest);
        number -= 1;
    }
    add_seat(seats, chair, 1, greatest);
}

fn add_seat<P, M>(seats: &mut Vec<CacheSeat<M, P>>, chair: Chair<P>, number: u64, greatest: Moment)
    requires seat { IsSeat chair.table_id chair.me number }
    requires room { length seats.old.items < seats.old.cap }
    ensures added { (s : _) × (seats.new.items ≡ seats.old.items ++ s ∷ []) × (s.table ≡ chair.table_id)
        × (s.view ≡ chair.me.0) × (s.greatest ≡ greatest) }
    ensures room { seats.old.cap ≤ seats.new.cap }
{
    let seat = CacheSeat {
        chair,
        number,
        greatest,
        apart: [0; 14],
        marker: PhantomData,
    };
    let Ok(()) = seats.push(seat) else {
        unreachable!()
    };
}
