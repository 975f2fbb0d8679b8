// What a call with a seat does at the table: load the marks, claim a slot, look or put there, and give it back.
ghost use Rattle.std.specs.Prelude.{◌≡◌, ◌≢◌, ◌<◌, ◌≤◌, ◌+◌, ◌∷◌, [], ℕ, None, false, length, Contains};
ghost use Rattle.atomic_table.specs.Table.{rest};
ghost use Rattle.wan_value.specs.AsModel.{value_of, ask_of};
ghost use Rattle.wan_cache.specs.Rules.{IsFound, placed};
ghost use Rattle.slot_cache.specs.Slots.{slot_of};
ghost use Rattle.slot_cache.specs.SlotRow.{Stores};
ghost use Rattle.slot_share.specs.declared.part.Part.TheVariants as part;
ghost use Rattle.slot_share.specs.Marks.{seen_at, made_at, floor_word, raised};
ghost use Rattle.slot_share.specs.Values.{slots_of};
ghost use Rattle.slot_share.specs.Rule.{size_of};
ghost use Rattle.slot_share.specs.Calls.{check_of, times_of, word_of_class, with_loaded, with_noted, AreAtLeast, found_in_row, AnswersLook, AnswersPut, IsRaised};

use crate::marker::Marker;
use crate::table_steps::{Chair, Table, claim, load_mark, note_mark, raise_mark, release};
use slot_cache::slot_of;
use wan_cache::{Ask, Cause, Class, Look, LookTimes, Moment, Put, Value, placed};
use wiki_titles::Title;

/// What a call loads before it claims.
#[derive(Clone, Copy)]
pub(crate) struct LoadedMarks {
    pub(crate) floor: Moment,
    pub(crate) template: Moment,
    pub(crate) message: Moment,
}

impl LoadedMarks {
    /// All keys are held off up to this moment.
    pub(crate) fn check(&self) -> Moment
        ensures { result ≡ check_of self.now }
    {
        self.template.later(self.message)
    }

    /// The times by which a look at `now` goes.
    pub(crate) fn times(&self, hold_off: u64, now: Moment) -> LookTimes
        ensures { result ≡ times_of self.now hold_off now }
    {
        LookTimes {
            floor: self.floor,
            check: self.check(),
            hold_off,
            at: now,
        }
    }
}

/// Which slot a seat claims.
#[derive(Drop)]
pub(crate) struct ClaimAt {
    pub(crate) slot: usize,
    /// The slot's word of claims.
    pub(crate) word: usize,
    /// The seat's number.
    pub(crate) number: u64,
}

/// The claim of a seat for a key.
pub(crate) fn claim_for(key: &Title, slots: u32, number: u64) -> ClaimAt
    requires { 0 < slots }
    ensures slot { result.slot ≡ slot_of key.now slots }
    ensures below { result.slot < slots }
    ensures word { result.word ≡ slots + 3 + result.slot }
    ensures number { result.number ≡ number }
{
    let slot = slot_of(key, slots) as usize;
    ClaimAt {
        slot,
        word: slots as usize + 3 + slot,
        number,
    }
}

/// The word of a class's check. A class other than `Plain` has one.
pub(crate) fn word_of_class(class: Class) -> usize
    ensures { result ≡ word_of_class class }
{
    match class {
        Class::Template => 1,
        Class::Plain | Class::Message => 2,
    }
}

/// Loads the slot's floor and the checks.
pub(crate) fn load_marks<P, M: Marker<P>>(
    table: &Table<M, P>,
    chair: &mut Chair<P>,
    slot: usize,
) -> LoadedMarks
    requires words { size_of table.now.key ≤ table.now.table_id.words }
    requires chair { chair.old.table_id ≡ table.now.table_id }
    requires mark { slot + 3 < size_of table.now.key }
    requires seen_long { length chair.old.me.0.marks.seen ≡ size_of table.now.key }
    ensures same { chair.new.table_id ≡ chair.old.table_id }
    ensures seat { chair.new.me ≡ (with_loaded chair.old.me.0 slot result, chair.old.me.1) }
    ensures least { AreAtLeast chair.old.me.0 slot result }
{
    let floor = load_mark(table, chair, slot + 3);
    let template = load_mark(table, chair, 1);
    let message = load_mark(table, chair, 2);
    LoadedMarks {
        floor: Moment(floor),
        template: Moment(template),
        message: Moment(message),
    }
}

/// The same for a put, which notes what it was handed.
#[tactic(auto, using(crate::proofs::Lists::first_in))]
pub(crate) fn note_marks<P, M: Marker<P>>(
    table: &Table<M, P>,
    chair: &mut Chair<P>,
    slot: usize,
    key: &Title,
    value: &Value<P>,
) -> LoadedMarks
    requires words { size_of table.now.key ≤ table.now.table_id.words }
    requires chair { chair.old.table_id ≡ table.now.table_id }
    requires mark { slot + 3 < size_of table.now.key }
    requires part { 0 < chair.old.me.0.rank.parts }
    requires seen_long { length chair.old.me.0.marks.seen ≡ size_of table.now.key }
    ensures same { chair.new.table_id ≡ chair.old.table_id }
    ensures seat { chair.new.me
        ≡ (with_noted chair.old.me.0 slot result (record { key = key.now; value = value.now }), chair.old.me.1) }
    ensures handed { Contains chair.new.me.0.handed (record { key = key.now; value = value.now }) }
    ensures least { AreAtLeast chair.old.me.0 slot result }
{
    let floor = note_mark(table, chair, slot + 3, key, value);
    let template = load_mark(table, chair, 1);
    let message = load_mark(table, chair, 2);
    LoadedMarks {
        floor: Moment(floor),
        template: Moment(template),
        message: Moment(message),
    }
}

/// Looks for the key in its slot, if the one claim finds it free.
pub(crate) fn look_claimed<P: Drop, M: Marker<P>>(
    table: &Table<M, P>,
    chair: &mut Chair<P>,
    at: &ClaimAt,
    key: &Title,
    times: &LookTimes,
    ask: &Ask,
) -> Look<P>
    requires words { size_of table.now.key + slots_of table.now.key ≤ table.now.table_id.words }
    requires slots { slots_of table.now.key ≡ table.now.table_id.slots }
    requires long { size_of table.now.key ≡ slots_of table.now.key + 3 }
    requires chair { chair.old.table_id ≡ table.now.table_id }
    requires word { (at.now.word ≡ size_of table.now.key + at.now.slot) × (at.now.slot < slots_of table.now.key) }
    requires mine { (at.now.number ≡ chair.old.me.0.rank.number) × (0 < at.now.number) }
    requires part { (0 < chair.old.me.0.rank.parts) × (chair.old.me.0.rank.seats ≤ 8) }
    requires free_hands { (chair.old.me.0.holds ≡ None) × (chair.old.me.1 ≡ []) }
    requires seen_long { length chair.old.me.0.marks.seen ≡ size_of table.now.key }
    ensures same { chair.new.table_id ≡ chair.old.table_id }
    ensures rank { chair.new.me.0.rank ≡ chair.old.me.0.rank }
    ensures marks { chair.new.me.0.marks ≡ chair.old.me.0.marks }
    ensures free_hands { chair.new.me.0.holds ≡ None }
    ensures carries { chair.new.me.1 ≡ [] }
    ensures answers { (found : ℕ) × AnswersLook M.is_true chair.old.me.0 chair.new.me.0 at.now.slot found times.now
        (ask_of ask.now) key.now result }
{
    let found = claim(table, chair, at.word, at.slot, at.number);
    if found != 0 {
        let holder = found as u8;
        return Look::Miss(Cause::Busy { holder });
    }
    let answer = look_held(table, chair, at.slot, key, times, ask);
    release(table, chair, at.word, at.slot);
    answer
}

// Looks for the key in the slot that the seat holds.
fn look_held<P: Drop, M: Marker<P>>(
    table: &Table<M, P>,
    chair: &mut Chair<P>,
    slot: usize,
    key: &Title,
    times: &LookTimes,
    ask: &Ask,
) -> Look<P>
    requires chair { chair.old.table_id ≡ table.now.table_id }
    requires holds { (row : _) × (chair.old.me.1 ≡ (slot, row) ∷ rest chair.old.me.1) }
    ensures same { chair.new.table_id ≡ chair.old.table_id }
    ensures found { (row : _) × (chair.old.me.1 ≡ (slot, row) ∷ rest chair.old.me.1) × (chair.new.me ≡ chair.old.me)
        × IsFound result (found_in_row times.now (ask_of ask.now) row key.now) }
{
    chair.slot_mut(table, slot).look(key, times, ask)
}

/// Puts the value into its key's slot, if the one claim finds it free. The key is not held, or the value is not lagged.
pub(crate) fn put_claimed<P: Drop, M: Marker<P>>(
    table: &Table<M, P>,
    chair: &mut Chair<P>,
    at: &ClaimAt,
    key: &Title,
    loaded: &LoadedMarks,
    value: Value<P>,
) -> Put
    requires words { size_of table.now.key + slots_of table.now.key ≤ table.now.table_id.words }
    requires slots { slots_of table.now.key ≡ table.now.table_id.slots }
    requires long { size_of table.now.key ≡ slots_of table.now.key + 3 }
    requires chair { chair.old.table_id ≡ table.now.table_id }
    requires word { (at.now.word ≡ size_of table.now.key + at.now.slot) × (at.now.slot < slots_of table.now.key) }
    requires mine { (at.now.number ≡ chair.old.me.0.rank.number) × (0 < at.now.number) }
    requires part { (0 < chair.old.me.0.rank.parts) × (chair.old.me.0.rank.seats ≤ 8) }
    requires free_hands { (chair.old.me.0.holds ≡ None) × (chair.old.me.1 ≡ []) }
    requires seen_long { length chair.old.me.0.marks.seen ≡ size_of table.now.key }
    requires main { M.is_true part.Main key.now (value_of value) }
    requires interim { value.lagged ≡ false → M.is_true part.Interim key.now (value_of value) }
    requires handed { Contains chair.old.me.0.handed (record { key = key.now; value = value }) }
    requires free { (until : ℕ)
        → placed loaded.now.floor (check_of loaded.now) value.set_at value.lagged ≢ Put.Held until }
    ensures same { chair.new.table_id ≡ chair.old.table_id }
    ensures rank { chair.new.me.0.rank ≡ chair.old.me.0.rank }
    ensures marks { chair.new.me.0.marks ≡ chair.old.me.0.marks }
    ensures free_hands { chair.new.me.0.holds ≡ None }
    ensures carries { chair.new.me.1 ≡ [] }
    ensures answers { AnswersPut chair.old.me.0 chair.new.me.0 at.now.slot loaded.now value result }
{
    let found = claim(table, chair, at.word, at.slot, at.number);
    if found != 0 {
        let holder = found as u8;
        return Put::Busy { holder };
    }
    let put = put_held(table, chair, at.slot, key, loaded, value);
    release(table, chair, at.word, at.slot);
    put
}

// Puts the value into the slot that the seat holds.
fn put_held<P: Drop, M: Marker<P>>(
    table: &Table<M, P>,
    chair: &mut Chair<P>,
    slot: usize,
    key: &Title,
    loaded: &LoadedMarks,
    value: Value<P>,
) -> Put
    requires chair { chair.old.table_id ≡ table.now.table_id }
    requires holds { (row : _) × (chair.old.me.1 ≡ (slot, row) ∷ rest chair.old.me.1) }
    ensures same { chair.new.table_id ≡ chair.old.table_id }
    ensures answer { result ≡ placed loaded.now.floor (check_of loaded.now) value.set_at value.lagged }
    ensures stores { (old : _) × (new : _) × (chair.old.me.1 ≡ (slot, old) ∷ rest chair.old.me.1)
        × (chair.new.me ≡ (chair.old.me.0, (slot, new) ∷ rest chair.old.me.1))
        × Stores old.value new.value key.now value result }
{
    let check = loaded.check();
    chair
        .slot_mut(table, slot)
        .put(key, loaded.floor, check, value)
}

/// Raises a mark for a seat.
pub(crate) fn raise_seat<P, M: Marker<P>>(
    table: &Table<M, P>,
    chair: &mut Chair<P>,
    word: usize,
    to: u64,
)
    requires words { size_of table.now.key ≤ table.now.table_id.words }
    requires chair { chair.old.table_id ≡ table.now.table_id }
    requires mark { (0 < word) × (word < size_of table.now.key) }
    requires part { 0 < chair.old.me.0.rank.parts }
    requires seen_long { length chair.old.me.0.marks.seen ≡ size_of table.now.key }
    requires made_long { length chair.old.me.0.marks.made ≡ size_of table.now.key }
    ensures same { chair.new.table_id ≡ chair.old.table_id }
    ensures carries { chair.new.me.1 ≡ chair.old.me.1 }
    ensures seen_long { length chair.new.me.0.marks.seen ≡ size_of table.now.key }
    ensures made_long { length chair.new.me.0.marks.made ≡ size_of table.now.key }
    ensures raised { IsRaised chair.old.me.0 chair.new.me.0 word to }
{
    raise_mark(table, chair, word, to);
}
