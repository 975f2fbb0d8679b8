// What every region's cache promises.
ghost use Rattle.std.specs.Prelude.{◌≡◌, ◌≢◌, ◌≤◌, false};
ghost use Rattle.wiki_model.specs.Limits.{greatest_moment};
ghost use Rattle.wiki_model.specs.Cache.{CacheMap, look as look_in, Puts, Purges, Touches, IsCache};
ghost use Rattle.wan_value.specs.AsModel.{value_of, ask_of};
ghost use Rattle.wan_cache.specs.Rules.{IsFound};

use wan_value::{Ask, Value};
use wiki_model::{Cause, Class, Moment, Put};
use wiki_titles::Title;

/// What a look into a cache finds.
#[derive(Drop)]
pub enum Look<P> {
    /// A value that nothing speaks against.
    Hit(Value<P>),
    /// A value from the time in which its key is held off.
    Interim(Value<P>),
    /// Nothing, and why.
    Miss(Cause),
    /// A value is there, but sharing its page was refused. Nothing else has changed.
    Memory,
}

/// A region's cache. Contracts see it as a map from keys, by one ghost member.
///
/// The moment that a call is given is never before that of an earlier `put`, `purge` or `touch`. No call is made
/// on a cache while it is shared.
pub trait RegionStore<P> {
    /// What is kept for each key, and for all keys.
    ghost cache: { Self → CacheMap P };

    /// What is there for the key at this moment. It changes nothing.
    fn look(&self, key: &Title, now: Moment, ask: &Ask) -> Look<P>
        requires open { (cache self.now).shared ≡ false }
        requires later { (cache self.now).greatest ≤ now }
        requires small { now ≤ greatest_moment }
        ensures { IsFound result (look_in (cache self.now) key.now now (ask_of ask.now)) };

    /// Stores a value at the moment `value.set_at`, as the key's floor and the checks let it. If it answers
    /// `Put::Memory` nothing has changed.
    fn put(&mut self, key: &Title, value: Value<P>) -> Put
        requires open { (cache self.old).shared ≡ false }
        requires later { (cache self.old).greatest ≤ value.set_at }
        requires small { value.set_at ≤ greatest_moment }
        ensures { Puts (cache self.old) (cache self.new) key.now (value_of value) result };

    /// Holds the key off from `now` for the hold-off, and drops its main value. It is never refused.
    fn purge(&mut self, key: &Title, now: Moment)
        requires open { (cache self.old).shared ≡ false }
        requires later { (cache self.old).greatest ≤ now }
        requires small { now ≤ greatest_moment }
        ensures { Purges (cache self.old) (cache self.new) key.now now };

    /// Holds all keys off from `now` for the hold-off, since a title of this class has changed.
    fn touch(&mut self, class: Class, now: Moment)
        requires open { (cache self.old).shared ≡ false }
        requires later { (cache self.old).greatest ≤ now }
        requires small { now ≤ greatest_moment }
        requires class { class ≢ Class.Plain }
        ensures { Touches (cache self.old) (cache self.new) class now };

    /// How long a purge holds its key off, in milliseconds.
    fn hold_off(&self) -> u64
        ensures { result ≡ (cache self.now).hold_off };

    /// It does nothing: it tells a caller what holds of a cache at every moment.
    fn known(&self)
        ensures { IsCache (cache self.now) };
}
