// How a worker works on a region's cache.
ghost use Rattle.std.specs.Prelude.{◌≡◌, ◌≤◌};
ghost use Rattle.wiki_model.specs.Limits.{greatest_moment};
ghost use Rattle.wan_value.specs.AsModel.{ask_of};
ghost use Rattle.region_round.specs.Alone.{IsReady, LooksAlone, PutsAlone, TakesAlone, AcceptsAll};

use farm_base::Moment;
use page_render::Page;
use region_state::take_purge;
use slot_cache::SlotCache;
use wan_cache::{Ask, Look, Put, RegionStore, Value};
use wiki_titles::Title;

/// How a worker works at its place. What its calls do is the desk's to say, by ghost members.
pub(crate) trait Desk<P> {
    ghost use Rattle.std.specs.Prelude.{ℕ, List};
    ghost use Rattle.wiki_model.specs.Titles.{Title};
    ghost use Rattle.wiki_model.specs.Cache.{Ask};
    ghost use Rattle.wiki_model.specs.declared.Put.{Put};
    ghost use Rattle.wan_value.specs.declared.Value.{Value};
    ghost use Rattle.wan_cache.specs.declared.region_store.Look.{Look};

    /// A call at this moment may be made at the place.
    ghost ready: { Self → P → ℕ → Type 0 };

    /// What a look at this moment does and finds.
    ghost looks: { Self → P → P → Title → ℕ → Ask → Look (List ℕ) → Type 0 };

    /// The value may be put for the title.
    ghost accepts: { Self → Title → Value (List ℕ) → Type 0 };

    /// What a put does and answers.
    ghost puts: { Self → P → P → Title → Value (List ℕ) → Put → Type 0 };

    /// Looks for the title.
    fn look(&self, place: &mut P, title: &Title, now: Moment, ask: &Ask) -> Look<Page>
        requires ready { ready self.now place.old now }
        requires small { now ≤ greatest_moment }
        ensures ready { ready self.now place.new now }
        ensures looks { looks self.now place.old place.new title.now now (ask_of ask.now) result };

    /// Puts a value.
    fn put(&self, place: &mut P, title: &Title, value: Value<Page>) -> Put
        requires ready { ready self.now place.old value.set_at }
        requires small { value.set_at ≤ greatest_moment }
        requires accepts { accepts self.now title.now value }
        ensures ready { ready self.now place.new value.set_at }
        ensures puts { puts self.now place.old place.new title.now value result };
}

/// The desk of the caller, who alone puts: its place is the cache itself.
pub(crate) struct Alone;

impl Desk<SlotCache<Page>> for Alone {
    ghost ready = { λ desk cache now. IsReady cache now };

    ghost looks = { λ desk old new title now ask found. LooksAlone old new title now ask found };

    ghost accepts = { λ desk title value. AcceptsAll title value };

    ghost puts = { λ desk old new title value answer. PutsAlone old new title value answer };

    fn look(
        &self,
        place: &mut SlotCache<Page>,
        title: &Title,
        now: Moment,
        ask: &Ask,
    ) -> Look<Page> {
        place.look(title, now, ask)
    }

    fn put(&self, place: &mut SlotCache<Page>, title: &Title, value: Value<Page>) -> Put {
        let answer = place.put(title, value);
        place.known();
        answer
    }
}

/// The caller gives the cache a purge.
pub(crate) fn take_alone(cache: &mut SlotCache<Page>, title: &Title, now: Moment)
    requires ready { IsReady cache.old now }
    requires small { now ≤ greatest_moment }
    ensures ready { IsReady cache.new now }
    ensures takes { TakesAlone cache.old cache.new title.now now }
{
    take_purge(cache, title, now);
}
