// The table of a shared cache: its rule, and its single steps.
ghost use Rattle.std.specs.Prelude.{◌≡◌, ◌≢◌, ◌<◌, ◌≤◌, ◌+◌, ◌∷◌, ◌++◌, [], ℕ, Some, None, length, replicate, IfOk, IfErr};
ghost use Rattle.slot_share.specs.Marks.{seen_at, raised, loaded};
ghost use Rattle.slot_share.specs.Values.{AllTrue, slots_of, start_floor};
ghost use Rattle.slot_share.specs.Rule.{marks_at, size_of, first_view, left_of, right_of, both_of};
ghost use Rattle.slot_share.specs.Steps.{noted, tried, took, TrueBy, released, Owes};
ghost use Rattle.slot_share.specs.Shares.{AllTrueAt};

use crate::marker::Marker;
use crate::view::{Handed, Start, View};
use atomic_table::{Join, Play, Refused, Seat, Split, TableRule};
use slot_cache::SlotRow;
use std::alloc::Global;
use std::marker::{Brand, PhantomData};
use wan_cache::Value;
use wiki_titles::Title;

/// A slot of the table.
pub(crate) type Row<P> = Box<SlotRow<P>>;

pub(crate) type Table<M, P> = atomic_table::Shared<Row<P>, View<P>, Start<P>, SlotRule<M>>;

pub(crate) type OwnedTable<M, P> = atomic_table::Table<
    Row<P>,
    View<P>,
    Start<P>,
    SlotRule<M>,
    Global,
>;

pub(crate) type Chair<P> = Seat<Row<P>, View<P>>;

/// The rule, for the values that `M` says are true.
pub(crate) struct SlotRule<M> {
    marker: PhantomData<M>,
}

impl<P, M: Marker<P>> TableRule<Row<P>, View<P>, Start<P>> for SlotRule<M> {
    ghost use Rattle.slot_share.specs.Rule.{Keeps, first_view};

    ghost holds = { Keeps M.is_true };

    ghost first = { first_view };
}

/// A mark is raised.
pub(crate) struct RaisePlay;

impl<P> Play<Row<P>, View<P>> for RaisePlay {
    ghost use Rattle.slot_share.specs.Steps.{Raises};

    ghost then = { Raises };
}

/// A mark is loaded.
pub(crate) struct LoadPlay;

impl<P> Play<Row<P>, View<P>> for LoadPlay {
    ghost use Rattle.slot_share.specs.Steps.{Loads};

    ghost then = { Loads };
}

/// A claim is tried.
pub(crate) struct ClaimPlay<M> {
    marker: PhantomData<M>,
}

impl<P, M: Marker<P>> Play<Row<P>, View<P>> for ClaimPlay<M> {
    ghost use Rattle.slot_share.specs.Steps.{Tries};

    ghost then = { Tries M.is_true };
}

/// A claim is given back.
pub(crate) struct ReleasePlay;

impl<P> Play<Row<P>, View<P>> for ReleasePlay {
    ghost use Rattle.slot_share.specs.Steps.{Releases};

    ghost then = { Releases };
}

/// What a put was handed, for the proof alone. A call at `Brand` picks it.
pub(crate) trait Handing<P> {
    ghost use Rattle.std.specs.Prelude.{Option};
    ghost use Rattle.slot_share.specs.declared.view.Handed.{Handed};

    ghost what: { Option (Handed P) };
}

impl<P> Handing<P> for Brand {
    ghost use Rattle.std.specs.Prelude.{None};

    ghost what = { None };
}

/// A mark is loaded by a put, and the seat's list gains what was handed in.
pub(crate) struct NotePlay<B> {
    handing: PhantomData<B>,
}

impl<P, B: Handing<P>> Play<Row<P>, View<P>> for NotePlay<B> {
    ghost use Rattle.slot_share.specs.Steps.{Notes};

    ghost then = { Notes B.what };
}

/// A seat is cut in two, and two seats become one.
pub(crate) struct SeatParts;

impl<P> Split<View<P>> for SeatParts {
    ghost use Rattle.slot_share.specs.Rule.{left_of, right_of};

    ghost left = { left_of };

    ghost right = { right_of };
}

impl<P> Join<View<P>> for SeatParts {
    ghost use Rattle.slot_share.specs.Rule.{both_of, spent_view};

    ghost both = { both_of };

    ghost spent = { spent_view };
}

/// Raises a mark, whoever holds a slot.
pub(crate) fn raise_mark<P, M: Marker<P>>(
    table: &Table<M, P>,
    chair: &mut Chair<P>,
    word: usize,
    to: u64,
)
    requires words { size_of table.now.key ≤ table.now.table_id.words }
    requires chair { chair.old.table_id ≡ table.now.table_id }
    requires mark { (0 < word) × (word < size_of table.now.key) }
    requires part { 0 < chair.old.me.0.rank.parts }
    requires seen_long { length chair.old.me.0.marks.seen ≡ size_of table.now.key }
    requires made_long { length chair.old.me.0.marks.made ≡ size_of table.now.key }
    ensures same { chair.new.table_id ≡ chair.old.table_id }
    ensures seat { let old = chair.old.me.0 in
        (found : ℕ) × (chair.new.me ≡ (record old { marks = raised old.marks word found to }, chair.old.me.1))
        × (seen_at word old.marks ≤ found) }
{
    table.fetch_max::<RaisePlay>(chair, word, to);
}

/// Loads a mark.
pub(crate) fn load_mark<P, M: Marker<P>>(
    table: &Table<M, P>,
    chair: &mut Chair<P>,
    word: usize,
) -> u64
    requires words { size_of table.now.key ≤ table.now.table_id.words }
    requires chair { chair.old.table_id ≡ table.now.table_id }
    requires mark { word < size_of table.now.key }
    requires seen_long { length chair.old.me.0.marks.seen ≡ size_of table.now.key }
    ensures same { chair.new.table_id ≡ chair.old.table_id }
    ensures seat { let old = chair.old.me.0 in
        chair.new.me ≡ (record old { marks = loaded old.marks word result }, chair.old.me.1) }
    ensures least { seen_at word chair.old.me.0.marks ≤ result }
{
    table.load::<LoadPlay>(chair, word)
}

/// Loads a mark for a put of this value.
pub(crate) fn note_mark<P, M: Marker<P>>(
    table: &Table<M, P>,
    chair: &mut Chair<P>,
    word: usize,
    key: &Title,
    value: &Value<P>,
) -> u64
    requires words { size_of table.now.key ≤ table.now.table_id.words }
    requires chair { chair.old.table_id ≡ table.now.table_id }
    requires mark { word < size_of table.now.key }
    requires part { 0 < chair.old.me.0.rank.parts }
    requires seen_long { length chair.old.me.0.marks.seen ≡ size_of table.now.key }
    ensures same { chair.new.table_id ≡ chair.old.table_id }
    ensures seat { chair.new.me
        ≡ (noted chair.old.me.0 word result (Some (record { key = key.now; value = value.now })), chair.old.me.1) }
    ensures least { seen_at word chair.old.me.0.marks ≤ result }
{
    load_noting::<Brand, P, M>(table, chair, word, key, value)
}

// The same for what `B` names. Key and value are there for the call that picks them.
fn load_noting<B: Handing<P>, P, M: Marker<P>>(
    table: &Table<M, P>,
    chair: &mut Chair<P>,
    word: usize,
    _key: &Title,
    _value: &Value<P>,
) -> u64
    requires words { size_of table.now.key ≤ table.now.table_id.words }
    requires chair { chair.old.table_id ≡ table.now.table_id }
    requires mark { word < size_of table.now.key }
    requires part { 0 < chair.old.me.0.rank.parts }
    requires seen_long { length chair.old.me.0.marks.seen ≡ size_of table.now.key }
    ensures same { chair.new.table_id ≡ chair.old.table_id }
    ensures seat { chair.new.me ≡ (noted chair.old.me.0 word result B.what, chair.old.me.1) }
    ensures least { seen_at word chair.old.me.0.marks ≤ result }
{
    table.load::<NotePlay<B>>(chair, word)
}

/// Tries once to claim a slot, whose word of claims this is.
pub(crate) fn claim<P, M: Marker<P>>(
    table: &Table<M, P>,
    chair: &mut Chair<P>,
    word: usize,
    slot: usize,
    number: u64,
) -> u64
    requires words { size_of table.now.key + slots_of table.now.key ≤ table.now.table_id.words }
    requires chair { chair.old.table_id ≡ table.now.table_id }
    requires word { (word ≡ size_of table.now.key + slot) × (slot < slots_of table.now.key) }
    requires long { size_of table.now.key ≡ slots_of table.now.key + 3 }
    requires seen_long { length chair.old.me.0.marks.seen ≡ size_of table.now.key }
    requires mine { (number ≡ chair.old.me.0.rank.number) × (0 < number) × (0 < chair.old.me.0.rank.parts) }
    requires free_hands { chair.old.me.0.holds ≡ None }
    ensures same { chair.new.table_id ≡ chair.old.table_id }
    ensures busy { result ≢ 0 → (chair.new.me ≡ (tried chair.old.me.0 slot result, chair.old.me.1))
        × (result ≢ number) × (result ≤ chair.old.me.0.rank.seats) }
    ensures free { result ≡ 0 → (row : _)
        × (chair.new.me ≡ (took chair.old.me.0 slot row, (slot, row) ∷ chair.old.me.1))
        × TrueBy M.is_true chair.old.me.0.marks slot row }
{
    table.compare_exchange::<ClaimPlay<M>>(chair, word, 0, number)
}

/// Gives a slot back.
pub(crate) fn release<P, M: Marker<P>>(
    table: &Table<M, P>,
    chair: &mut Chair<P>,
    word: usize,
    slot: usize,
)
    requires words { size_of table.now.key + slots_of table.now.key ≤ table.now.table_id.words }
    requires slots { slots_of table.now.key ≡ table.now.table_id.slots }
    requires chair { chair.old.table_id ≡ table.now.table_id }
    requires word { (word ≡ size_of table.now.key + slot) × (slot < slots_of table.now.key) }
    requires owes { Owes M.is_true chair.old.me slot }
    ensures same { chair.new.table_id ≡ chair.old.table_id }
    ensures seat { chair.new.me ≡ (released chair.old.me.0, []) }
{
    table.store::<ReleasePlay>(chair, word, 0);
}

/// Cuts a seat in two.
pub(crate) fn split<P, M: Marker<P>>(table: &Table<M, P>, chair: &mut Chair<P>) -> Chair<P>
    requires words { size_of table.now.key ≤ table.now.table_id.words }
    requires some { 0 < size_of table.now.key }
    requires chair { chair.old.table_id ≡ table.now.table_id }
    requires two { (1 < chair.old.me.0.rank.parts) × (0 < chair.old.me.0.rank.number) }
    requires free_hands { chair.old.me.0.holds ≡ None }
    requires seen_long { length chair.old.me.0.marks.seen ≡ size_of table.now.key }
    ensures same { (chair.new.table_id ≡ chair.old.table_id) × (result.table_id ≡ chair.old.table_id) }
    ensures left { chair.new.me ≡ (left_of chair.old.me.0, chair.old.me.1) }
    ensures right { result.me ≡ (right_of chair.old.me.0, []) }
{
    table.split_seat::<SeatParts>(chair)
}

/// Makes one seat of two.
pub(crate) fn join<P, M: Marker<P>>(table: &Table<M, P>, chair: &mut Chair<P>, other: Chair<P>)
    requires words { size_of table.now.key ≤ table.now.table_id.words }
    requires some { 0 < size_of table.now.key }
    requires chair { chair.old.table_id ≡ table.now.table_id }
    requires other { (other.table_id ≡ table.now.table_id) × (other.me.1 ≡ []) }
    requires part { 0 < chair.old.me.0.rank.parts }
    requires free_hands { (chair.old.me.0.holds ≡ None) × (other.me.0.holds ≡ None) }
    requires seen_long { length chair.old.me.0.marks.seen ≡ size_of table.now.key }
    requires other_long { length other.me.0.marks.seen ≡ size_of table.now.key }
    ensures same { chair.new.table_id ≡ chair.old.table_id }
    ensures both { chair.new.me ≡ (both_of chair.old.me.0 other.me.0, chair.old.me.1) }
{
    table.join_seat::<SeatParts>(chair, other);
}

/// A table of these rows, and its first seat. The words are the marks and then a 0 for each row. If it is refused the
/// rows come back.
pub(crate) fn open_table<P, M: Marker<P>>(
    alloc: Global,
    words: &[u64],
    rows: Vec<Row<P>>,
    start: &Start<P>,
) -> Result<(OwnedTable<M, P>, Chair<P>), Vec<Row<P>>>
    requires words { words.now ≡ marks_at start.now ++ replicate (length rows.items) 0 }
    requires rows { start.now.rows.value.items ≡ rows.items }
    requires truth { AllTrueAt M.is_true start.now }
    ensures key { IfOk result (λ t. t.0.shared.key ≡ start.now) }
    ensures counts { IfOk result (λ t. (t.0.shared.table_id.words ≡ size_of start.now + slots_of start.now)
        × (t.0.shared.table_id.slots ≡ slots_of start.now)) }
    ensures seat { IfOk result (λ t. (t.1.table_id ≡ t.0.shared.table_id) × (t.1.me ≡ (first_view start.now, []))) }
    ensures back { IfErr result (λ r. r.items ≡ rows.items) }
{
    match OwnedTable::<M, P>::new(alloc, words, rows, start) {
        Ok(table) => Ok(table),
        Err(Refused { slots }) => Err(slots),
    }
}
