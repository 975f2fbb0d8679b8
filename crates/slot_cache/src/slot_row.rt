// What is kept for the key that has a slot: look, put, drop the main value.
ghost use Rattle.std.specs.Prelude.{◌≡◌, None};
ghost use Rattle.std.specs.Option.{option_copied};
ghost use Rattle.wan_value.specs.AsModel.{ask_of};
ghost use Rattle.wan_cache.specs.Rules.{IsFound, found_by, shown, placed};
ghost use Rattle.slot_cache.specs.SlotRow.{if_same, not_before, main_of, interim_of, IsGivenTo, Stores};

use crate::key_copy::KeyCopy;
use wan_cache::{Ask, Look, LookTimes, Moment, Put, Value, look_at, placed};
use wiki_titles::Title;

/// A slot's key and its two places. A cache that is taken apart (`SlotParts`) hands its rows on; whoever has them gives
/// each call the floor of its slot. The key stands last and begins with its length, so that what a look at a short title
/// reads lies together.
#[derive(Drop)]
pub struct SlotRow<P> {
    /// What was stored while the slot was free. A value that was set before the slot's floor is as good as gone.
    pub(crate) main: Option<Value<P>>,
    /// What was stored while the slot was held off.
    pub(crate) interim: Option<Value<P>>,
    /// Whose the two values are; before the first put no title's.
    pub(crate) key: KeyCopy,
}

impl<P: Drop> SlotRow<P> {
    /// A row with nothing in it.
    pub(crate) fn new() -> Self
        ensures main { result.main ≡ None }
        ensures interim { result.interim ≡ None }
    {
        SlotRow {
            key: KeyCopy::none(),
            main: None,
            interim: None,
        }
    }

    /// What is there for the key, by the slot's floor and the check.
    pub fn look(&self, key: &Title, times: &LookTimes, ask: &Ask) -> Look<P>
        ensures { let main = shown (main_of self.now key.now) in
            let interim = shown (interim_of self.now key.now) in
            IsFound result (found_by times.now (ask_of ask.now) main interim) }
    {
        let same = self.key.is(key);
        look_at(
            lent_if(same, &self.main),
            lent_if(same, &self.interim),
            times,
            ask,
        )
    }

    /// Puts the value where it belongs, by the slot's floor and the check. If it is stored, the slot is its key's.
    pub fn put(&mut self, key: &Title, floor: Moment, check: Moment, value: Value<P>) -> Put
        ensures answer { result ≡ placed floor check value.set_at value.lagged }
        ensures stores { Stores self.old self.new key.now value result }
    {
        let put = placed(floor, check, value.set_at, value.lagged);
        match put {
            Put::Main => {
                self.give_to(key);
                self.main = Some(value);
            }
            Put::Interim => {
                self.give_to(key);
                self.interim = Some(value);
            }
            _ => {}
        }
        put
    }

    /// Drops a main value that was set before this floor, since no look finds it any more. The rest stays.
    pub fn drop_before(&mut self, floor: Moment)
        ensures { self.new ≡ (record self.old { main = not_before floor self.old.main }) }
    {
        if matches!(&self.main, Some(value) if value.set_at < floor) {
            self.main = None;
        }
    }

    // Makes the slot this key's. If it was another's, both of that one's values go: the first page says why that is
    // no loss.
    #[tactic(auto, using(crate::proofs::Rows::same_key))]
    fn give_to(&mut self, key: &Title)
        ensures { IsGivenTo self.old self.new key.now }
    {
        if !self.key.is(key) {
            self.key = KeyCopy::new(key);
            self.main = None;
            self.interim = None;
        }
    }
}

// A value, if the slot is the key's that asks.
fn lent_if<P>(same: bool, place: &Option<Value<P>>) -> Option<&Value<P>>
    ensures { option_copied result ≡ if_same same place.now }
{
    match place {
        Some(value) if same => Some(value),
        _ => None,
    }
}
