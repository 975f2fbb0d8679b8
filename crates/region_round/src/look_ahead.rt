// The views of a round, looked up and rendered by several workers side by side, before the cache changes.
ghost use Rattle.std.specs.Prelude.{◌≡◌, ◌≤◌, ◌++◌, All, None, IfSome, IfOk};
ghost use Rattle.std.specs.Option.{option_to_list};
ghost use Rattle.wiki_model.specs.Limits.{greatest_moment};
ghost use Rattle.farm_steps.specs.ViewSteps.{region_at};
ghost use Rattle.region_round.specs.Alone.{IsReady};
ghost use Rattle.region_round.specs.Ahead.{IsAhead};

use crate::gate::Gate;
use crate::job::{Job, ViewJob};
use crate::lent_cache::{LentCache, view_terms};
use crate::prepare_view::{Prepared, ViewTerms, ask_of, prepare};
use farm_base::Region;
use farm_core::Farm;
use page_render::Page;
use region_state::RegionState;
use revision_keeper::Keeper;
use slot_cache::SlotCache;
use std::alloc::{AllocError, Global};
use std::thread;
use std::thread::Threads;
use wan_cache::{Look, RegionStore};

/// The place of a view among those that workers look up.
#[derive(Drop)]
pub(crate) struct Place {
    /// The number of its job.
    pub job: usize,
    /// Whether an edit of its title is begun.
    pub pending: bool,
    /// None: the cache has the page, or there was no memory.
    pub ready: Option<Prepared>,
}

/// Looks up all views in the cache as it was lent, and prepares those that miss, by the workers of the plan: each has
/// neighbouring views, and the caller has those for which no thread can be started. The places stand from the last view
/// to the first. There are none if one worker does all, or if there is no memory for them.
pub(crate) fn look_ahead<K: Keeper, R: Threads + Sync, G: Gate>(
    rt: &R,
    alloc: Global,
    farm: &Farm<K, SlotCache<Page>>,
    lent: &LentCache,
    jobs: &[Job],
    gate: &G,
) -> Vec<Place>
    requires ready { IsReady lent.now.cache lent.now.terms.at }
    requires small { lent.now.terms.at ≤ greatest_moment }
    ensures { All (IsAhead (region_at lent.now.region farm.now.home farm.now.west) lent.now.terms jobs.now)
        result.items }
{
    let workers = usize::from(farm.plan().workers);
    if workers < 2 {
        return Vec::new(alloc);
    }
    let Ok(mut places) = places_of(alloc, farm, lent.region, jobs) else {
        return Vec::new(alloc);
    };
    let region = farm.region(lent.region);
    thread::for_each_mut(
        rt,
        &mut places,
        workers,
        &|_: usize, place: &mut Place|
            requires { IsReady lent.now.cache lent.now.terms.at × (lent.now.terms.at ≤ greatest_moment)
                × (place.now.ready ≡ None) }
            ensures { IsAhead region.entry.now lent.entry.now.terms jobs.entry.now place.exit.now }
        {
            gate.pass(place.job);
            prepare_at(alloc, lent, region, jobs, place);
        },
    );
    places
}

/// A place for each view, from the last to the first.
fn places_of<K: Keeper>(
    alloc: Global,
    farm: &Farm<K, SlotCache<Page>>,
    region: Region,
    jobs: &[Job],
) -> Result<Vec<Place>, AllocError>
    ensures { IfOk result (λ places. All (λ place. place.ready ≡ None) places.items) }
{
    let mut places = Vec::with_capacity(alloc, jobs.len())?;
    let mut number = jobs.len();
    while 0 < number {
        number -= 1;
        if let Job::View(view) = &jobs[number] {
            let pending = farm.pending(region, &view.title);
            push_place(&mut places, number, pending)?;
        }
    }
    Ok(places)
}

fn push_place(places: &mut Vec<Place>, job: usize, pending: bool) -> Result<(), AllocError>
    requires { All (λ place. place.ready ≡ None) places.old.items }
    ensures { IfOk result (λ done. All (λ place. place.ready ≡ None) places.new.items) }
{
    places
        .push(Place {
            job,
            pending,
            ready: None,
        })
        .or(Err(AllocError))
}

/// Prepares the view of a place, if the cache misses it.
fn prepare_at(
    alloc: Global,
    lent: &LentCache,
    region: &RegionState<SlotCache<Page>>,
    jobs: &[Job],
    place: &mut Place,
)
    requires ready { IsReady lent.now.cache lent.now.terms.at }
    requires small { lent.now.terms.at ≤ greatest_moment }
    requires new { place.old.ready ≡ None }
    ensures { IsAhead region.now lent.now.terms jobs.now place.new }
{
    let Some(Job::View(view)) = jobs.get(place.job) else {
        return;
    };
    let terms = view_terms(lent.terms, place.pending);
    if misses(&lent.cache, view, &terms) {
        place.ready = prepare(alloc, region, view, &terms).ok();
    }
}

/// Whether the cache misses the view.
fn misses(cache: &SlotCache<Page>, view: &ViewJob, terms: &ViewTerms) -> bool
    requires ready { IsReady cache.now terms.now.at }
    requires small { terms.now.at ≤ greatest_moment }
{
    match cache.look(&view.title, terms.at, &ask_of(view, terms)) {
        Look::Miss(_) => true,
        Look::Hit(_) | Look::Interim(_) | Look::Memory => false,
    }
}

/// The place of this job, if it is the next that has one.
pub(crate) fn next_place(places: &mut Vec<Place>, job: usize) -> Option<Place>
    ensures rest { places.old.items ≡ places.new.items ++ option_to_list result }
    ensures own { IfSome result (λ place. place.job ≡ job) }
{
    let last = places.last()?;
    if last.job != job {
        return None;
    }
    places.pop()
}
