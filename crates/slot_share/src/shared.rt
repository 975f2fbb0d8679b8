// What threads do with a cache that they share: each with a seat of its own.
ghost use Rattle.std.specs.Prelude.{◌≡◌, ◌≢◌, ◌≤◌, ◌+◌, ℕ, false, max};
ghost use Rattle.wiki_model.specs.Limits.{greatest_moment};
ghost use Rattle.wan_value.specs.AsModel.{value_of, ask_of};
ghost use Rattle.slot_cache.specs.Slots.{slot_of};
ghost use Rattle.slot_share.specs.declared.part.Part.TheVariants as part;
ghost use Rattle.slot_share.specs.Marks.{floor_word};
ghost use Rattle.slot_share.specs.Calls.{word_of_class, IsRaised, Looks, IsTrueAnswer, IsMetAnswer, IsBusy, TellsPut};

use crate::marker::Marker;
use crate::seat_steps::{
    claim_for, load_marks, look_claimed, note_marks, put_claimed, raise_seat, word_of_class,
};
use crate::table_steps::{Chair, OwnedTable};
use slot_cache::{SlotParts, slot_of};
use std::marker::{Model, PhantomData};
use wan_cache::{Ask, Cause, Class, Look, Moment, Put, Value, placed};
use wiki_titles::Title;

/// A cache that threads share, for values that `M` says are true. The cache's content is in here until `close`.
#[derive(Drop)]
pub struct Shared<M: Marker<P>, P> {
    /// The floors, the checks, the claims and the rows.
    pub(crate) table: OwnedTable<M, P>,
    /// What is left of the cache: its numbers, its floors as they were, and room for its rows.
    pub(crate) rest: SlotParts<P>,
}

impl<M: Marker<P>, P> Model for Shared<M, P> {
    ghost use Rattle.slot_share.specs.Shares.{ShareState, IsShare, HasRoom};

    ghost Value = { ShareState P };

    ghost view = { λ s. record {
      table = s.table.shared.table_id;
      start = s.table.shared.key;
      slots = s.rest.slots;
      hold_off = s.rest.hold_off;
      greatest = s.rest.greatest;
    } };

    ghost invariant = { λ s. IsShare (record {
      table = s.table.shared.table_id;
      start = s.table.shared.key;
      slots = s.rest.slots;
      hold_off = s.rest.hold_off;
      greatest = s.rest.greatest;
    }) × HasRoom s.rest };
}

/// One thread's part in a shared cache. It belongs to one share.
#[derive(Drop)]
pub struct CacheSeat<M, P> {
    pub(crate) chair: Chair<P>,
    /// Its number, from 1. Another seat that meets its claim is told it.
    pub(crate) number: u64,
    /// The greatest moment that a call was given.
    pub(crate) greatest: Moment,
    /// Nothing. Each call writes the moment, and seats stand side by side in a list: so no two are on one line of a
    /// processor's cache.
    pub(crate) apart: [u64; 14],
    pub(crate) marker: PhantomData<M>,
}

impl<M, P> Model for CacheSeat<M, P> {
    ghost use Rattle.slot_share.specs.Shares.{SeatState, IsSeat};

    ghost Value = { SeatState P };

    ghost view = { λ s. record { table = s.chair.table_id; view = s.chair.me.0; greatest = s.greatest } };

    ghost invariant = { λ s. IsSeat s.chair.table_id s.chair.me s.number };
}

impl<M, P> CacheSeat<M, P> {
    /// The greatest moment that a call was given, on the cache before it was shared, or with this seat.
    pub fn greatest(&self) -> Moment
        ensures { result ≡ self.now.greatest }
    {
        self.greatest
    }
}

impl<P: Drop, M: Marker<P>> Shared<M, P> {
    /// What is there for the key. It loads the floor and the checks, tries one claim of the slot, and answers by what
    /// it loaded and found. `Busy` names the seat whose number the claim found. It waits for nobody.
    pub fn look(&self, seat: &mut CacheSeat<M, P>, key: &Title, now: Moment, ask: &Ask) -> Look<P>
        requires mine { seat.old.table ≡ self.now.table }
        ensures mine { seat.new.table ≡ seat.old.table }
        ensures looks { Looks M.is_true seat.old.view seat.new.view (slot_of key.now self.now.slots) self.now.hold_off
            now (ask_of ask.now) key.now result }
        ensures truth { IsTrueAnswer M.is_true key.now result }
        ensures met { IsMetAnswer seat.new.view self.now.slots key.now result }
        ensures busy { (holder : ℕ) → result ≡ Look.Miss (Cause.Busy holder)
            → IsBusy seat.old.view seat.new.view (slot_of key.now self.now.slots) holder }
        ensures alone { seat.old.view.rank.seats ≡ 1 → (holder : ℕ) → result ≢ Look.Miss (Cause.Busy holder) }
        ensures greatest { seat.new.greatest ≡ max seat.old.greatest now }
    {
        seat.greatest = seat.greatest.later(now);
        let at = claim_for(key, self.rest.slots, seat.number);
        let loaded = load_marks(&self.table.shared, &mut seat.chair, at.slot);
        let times = loaded.times(self.rest.hold_off, now);
        look_claimed(&self.table.shared, &mut seat.chair, &at, key, &times, ask)
    }

    /// Stores a value at the moment `value.set_at`, as the floor and the checks let it. If they hold its key off and it
    /// is lagged, it tries no claim; else it tries one, and `Busy` names the seat whose number the claim found. The
    /// value must be true as a main value, and if it is not lagged as an interim one. It takes no memory and waits for
    /// nobody.
    #[tactic(auto, using(crate::proofs::Truths::put_busy, crate::proofs::Truths::never_busy))]
    pub fn put(&self, seat: &mut CacheSeat<M, P>, key: &Title, value: Value<P>) -> Put
        requires mine { seat.old.table ≡ self.now.table }
        requires main { M.is_true part.Main key.now (value_of value) }
        requires interim { value.lagged ≡ false → M.is_true part.Interim key.now (value_of value) }
        ensures mine { seat.new.table ≡ seat.old.table }
        ensures tells { TellsPut seat.old.view seat.new.view (slot_of key.now self.now.slots) key.now value result }
        ensures busy { (holder : ℕ) → result ≡ Put.Busy holder
            → IsBusy seat.old.view seat.new.view (slot_of key.now self.now.slots) holder }
        ensures alone { seat.old.view.rank.seats ≡ 1 → (holder : ℕ) → result ≢ Put.Busy holder }
        ensures greatest { seat.new.greatest ≡ max seat.old.greatest value.set_at }
    {
        seat.greatest = seat.greatest.later(value.set_at);
        let at = claim_for(key, self.rest.slots, seat.number);
        let loaded = note_marks(&self.table.shared, &mut seat.chair, at.slot, key, &value);
        match placed(loaded.floor, loaded.check(), value.set_at, value.lagged) {
            Put::Held { until } => Put::Held { until },
            _ => put_claimed(
                &self.table.shared,
                &mut seat.chair,
                &at,
                key,
                &loaded,
                value,
            ),
        }
    }

    /// Holds the key off from `now` for the hold-off, whoever holds its slot. It is never refused, takes no memory and
    /// waits for nobody.
    pub fn purge(&self, seat: &mut CacheSeat<M, P>, key: &Title, now: Moment)
        requires mine { seat.old.table ≡ self.now.table }
        requires small { now ≤ greatest_moment }
        ensures mine { seat.new.table ≡ seat.old.table }
        ensures raised { IsRaised seat.old.view seat.new.view (floor_word (slot_of key.now self.now.slots))
            (now + self.now.hold_off) }
        ensures greatest { seat.new.greatest ≡ max seat.old.greatest now }
    {
        seat.greatest = seat.greatest.later(now);
        let slot = slot_of(key, self.rest.slots) as usize;
        let until = now.0 + self.rest.hold_off;
        raise_seat(&self.table.shared, &mut seat.chair, slot + 3, until);
    }

    /// Holds all keys off from `now` for the hold-off, since a title of this class has changed.
    pub fn touch(&self, seat: &mut CacheSeat<M, P>, class: Class, now: Moment)
        requires mine { seat.old.table ≡ self.now.table }
        requires small { now ≤ greatest_moment }
        requires class { class ≢ Class.Plain }
        ensures mine { seat.new.table ≡ seat.old.table }
        ensures raised { IsRaised seat.old.view seat.new.view (word_of_class class) (now + self.now.hold_off) }
        ensures greatest { seat.new.greatest ≡ max seat.old.greatest now }
    {
        seat.greatest = seat.greatest.later(now);
        let until = now.0 + self.rest.hold_off;
        raise_seat(
            &self.table.shared,
            &mut seat.chair,
            word_of_class(class),
            until,
        );
    }
}
