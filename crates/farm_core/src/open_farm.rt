// A farm is opened over a keeper's history: each region begins with the positions of the commits that are young.
ghost use Rattle.std.specs.Prelude.{◌≡◌, ◌≤◌, ◌<◌, max, false, length, List, Some, IfOk};
ghost use Rattle.wiki_model.specs.Limits.{greatest_moment, replicas_max};
ghost use Rattle.wiki_model.specs.History as history;
ghost use Rattle.wiki_model.specs.History.{stamp_at};
ghost use Rattle.revision_keeper.specs.Causes.{HasFault};
ghost use Rattle.region_state.specs.YoungCommits.{AreSmall, commits_of};
ghost use Rattle.farm_core.specs.NewFarm.{IsOpenedRegion, IsStarted};

use chronology_store::ClientCommit;
use farm_base::{Bounds, Memory, Moment, Readings};
use farm_steps::first_moments;
use page_render::Page;
use region_state::{FarmPlan, RegionPlan, RegionState, young_commits};
use revision_keeper::{KeepFault, Keeper};
use std::alloc::Global;
use wan_cache::RegionStore;

/// The regions and the first moments of a farm over the keeper's history. The keeper is asked for its last entries,
/// back to the first that is not young.
pub(crate) fn start<K: Keeper, S: RegionStore<Page> + Drop>(
    alloc: Global,
    keeper: &mut K,
    plan: &FarmPlan,
    home: S,
    west: S,
    at: Readings,
) -> Result<(RegionState<S>, RegionState<S>, Readings), KeepFault>
    requires home_some { 0 < length plan.now.home.weights }
    requires home_few { length plan.now.home.weights ≤ replicas_max }
    requires west_some { 0 < length plan.now.west.weights }
    requires west_few { length plan.now.west.weights ≤ replicas_max }
    requires home_open { (S.cache home).shared ≡ false }
    requires west_open { (S.cache west).shared ≡ false }
    ensures content { K.content keeper.new ≡ K.content keeper.old }
    ensures cause { HasFault (K.faults keeper.old) (K.faults keeper.new) result }
    ensures home_replicas { IfOk result (λ made. length made.0.replicas ≡ length plan.now.home.weights) }
    ensures home_cache { IfOk result (λ made. made.0.cache ≡ Some home) }
    ensures west_replicas { IfOk result (λ made. length made.1.replicas ≡ length plan.now.west.weights) }
    ensures west_cache { IfOk result (λ made. made.1.cache ≡ Some west) }
    ensures home_small { IfOk result (λ made. made.2.home ≤ greatest_moment) }
    ensures west_small { IfOk result (λ made. made.2.west ≤ greatest_moment) }
    ensures started { (h : List history.Entry) → K.content keeper.old ≡ Some h
        → IfOk result (λ made. IsStarted S.cache plan.now home west at h made.0 made.1 made.2) }
{
    let stamp = match last_stamp(keeper) {
        Ok(stamp) => stamp,
        Err(fault) => return Err(fault),
    };
    let moments = first_moments(at, stamp);
    let commits = match young_commits(alloc, keeper, moments.home) {
        Ok(commits) => commits,
        Err(fault) => return Err(fault),
    };
    match start_regions(alloc, plan, home, west, &commits) {
        Ok((home, west)) => Ok((home, west, moments)),
        Err(Memory) => Err(KeepFault::Memory),
    }
}

/// When the last entry was appended; 0 if there is none.
fn last_stamp<K: Keeper>(keeper: &mut K) -> Result<Moment, KeepFault>
    ensures content { K.content keeper.new ≡ K.content keeper.old }
    ensures cause { HasFault (K.faults keeper.old) (K.faults keeper.new) result }
    ensures small { IfOk result (λ stamp. stamp ≤ greatest_moment) }
    ensures stamp { (h : List history.Entry) → K.content keeper.old ≡ Some h
        → IfOk result (λ stamp. stamp ≡ stamp_at h (length h)) }
{
    keeper.start()?;
    let len = keeper.len()?;
    stamp_of(keeper, len)
}

/// When entry `n` was appended; 0 if there is none.
fn stamp_of<K: Keeper>(keeper: &mut K, n: u64) -> Result<Moment, KeepFault>
    ensures content { K.content keeper.new ≡ K.content keeper.old }
    ensures cause { HasFault (K.faults keeper.old) (K.faults keeper.new) result }
    ensures small { IfOk result (λ stamp. stamp ≤ greatest_moment) }
    ensures stamp { (h : List history.Entry) → K.content keeper.old ≡ Some h
        → IfOk result (λ stamp. stamp ≡ stamp_at h n) }
{
    match keeper.entry(n) {
        Err(fault) => Err(fault),
        Ok(None) => Ok(Moment(0)),
        Ok(Some(entry)) => Ok(entry.stamp()),
    }
}

fn start_regions<S: RegionStore<Page> + Drop>(
    alloc: Global,
    plan: &FarmPlan,
    home: S,
    west: S,
    commits: &[ClientCommit],
) -> Result<(RegionState<S>, RegionState<S>), Memory>
    requires home_some { 0 < length plan.now.home.weights }
    requires home_few { length plan.now.home.weights ≤ replicas_max }
    requires west_some { 0 < length plan.now.west.weights }
    requires west_few { length plan.now.west.weights ≤ replicas_max }
    requires home_open { (S.cache home).shared ≡ false }
    requires west_open { (S.cache west).shared ≡ false }
    requires small { AreSmall commits.now }
    ensures home_replicas { IfOk result (λ made. length made.0.replicas ≡ length plan.now.home.weights) }
    ensures west_replicas { IfOk result (λ made. length made.1.replicas ≡ length plan.now.west.weights) }
    ensures home_cache { IfOk result (λ made. made.0.cache ≡ Some home) }
    ensures west_cache { IfOk result (λ made. made.1.cache ≡ Some west) }
    ensures home { (ns : List history.Numbered) → commits.now ≡ commits_of ns
        → IfOk result (λ made. IsOpenedRegion plan.now.home.weights plan.now.epoch plan.now.bounds.read_lag
        home ns made.0) }
    ensures west { (ns : List history.Numbered) → commits.now ≡ commits_of ns
        → IfOk result (λ made. IsOpenedRegion plan.now.west.weights plan.now.epoch plan.now.bounds.read_lag
        west ns made.1) }
{
    let home = start_region(alloc, &plan.home, plan.epoch, plan.bounds, home, commits)?;
    let west = start_region(alloc, &plan.west, plan.epoch, plan.bounds, west, commits)?;
    Ok((home, west))
}

/// A region over an empty cache that has heard of these commits.
fn start_region<S: RegionStore<Page> + Drop>(
    alloc: Global,
    plan: &RegionPlan,
    epoch: Moment,
    bounds: Bounds,
    cache: S,
    commits: &[ClientCommit],
) -> Result<RegionState<S>, Memory>
    requires some { 0 < length plan.now.weights }
    requires few { length plan.now.weights ≤ replicas_max }
    requires open { (S.cache cache).shared ≡ false }
    requires small { AreSmall commits.now }
    ensures replicas { IfOk result (λ parts. length parts.replicas ≡ length plan.now.weights) }
    ensures cache { IfOk result (λ parts. parts.cache ≡ Some cache) }
    ensures region { (ns : List history.Numbered) → commits.now ≡ commits_of ns
        → IfOk result (λ parts. IsOpenedRegion plan.now.weights epoch bounds.read_lag cache ns parts) }
{
    let Ok(mut region) = RegionState::new(alloc, plan, epoch, cache, bounds) else {
        return Err(Memory);
    };
    region.rebuild(commits)?;
    Ok(region)
}
