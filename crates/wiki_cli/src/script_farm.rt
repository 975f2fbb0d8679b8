// A farm for a script: opened by its plan over the keeper's history, with two empty caches.
ghost use Rattle.std.specs.Prelude.{◌≡◌, ◌≤◌, List, IfOk, IfErr};
ghost use Rattle.wiki_model.specs.declared.Region.TheVariants.{Home, West};
ghost use Rattle.wiki_model.specs.declared.Region.{Region};
ghost use Rattle.wiki_model.specs.Limits.{script_slots};
ghost use Rattle.wiki_model.specs.Script.{Line};
ghost use Rattle.wiki_model.specs.Report.{no_readings};
ghost use Rattle.slot_cache.specs.AsModel.{map_of};
ghost use Rattle.drill_script.specs.ReadScript.{HasRoom};
ghost use Rattle.farm_core.specs.NewFarm.{HasNewFault};
ghost use Rattle.script_runner.specs.Openings.{IsScriptPlan, IsScriptCache, StartsScript};
ghost use Rattle.wiki_cli.specs.Ends.{together};

use farm_base::{Memory, Moment, Readings};
use farm_core::{Farm, FarmPlan, NewFault, Page};
use revision_keeper::Keeper;
use slot_cache::SlotCache;
use std::alloc::Global;
use wan_cache::RegionStore;

/// The caches of both regions.
#[derive(Drop)]
pub struct Caches<S: Drop> {
    /// Home's cache.
    pub home: S,
    /// West's cache.
    pub west: S,
}

/// A farm over the keeper's history, by the plan of a script.
pub fn open_farm<K: Keeper + Drop, S: RegionStore<Page> + Drop>(
    alloc: Global,
    keeper: K,
    plan: FarmPlan,
    caches: Caches<S>,
) -> Result<Farm<K, S>, (K, NewFault)>
    requires plan { (lines : List Line) × IsScriptPlan plan lines }
    requires home { IsScriptCache S.cache together Home plan caches.home }
    requires west { IsScriptCache S.cache together West plan caches.west }
    ensures starts { IfOk result (λ farm. (lines : List Line) → IsScriptPlan plan lines
        → StartsScript K.content K.faults S.cache together lines keeper farm) }
    ensures counts { IfOk result (λ farm. K.faults keeper ≤ K.faults farm.keeper) }
    ensures cause { IfErr result (λ back. HasNewFault (K.faults keeper) (K.faults back.0) back.1) }
{
    let Caches { home, west } = caches;
    Farm::new(alloc, keeper, plan, home, west, no_readings())
}

/// Empty caches of as many slots as the plan says.
pub fn new_caches(alloc: Global, plan: &FarmPlan) -> Result<Caches<SlotCache<Page>>, Memory>
    requires plan { (lines : List Line) × IsScriptPlan plan.now lines }
    requires room { HasRoom plan.now }
    ensures home { IfOk result (λ caches. IsScriptCache map_of together Home plan.now caches.home) }
    ensures west { IfOk result (λ caches. IsScriptCache map_of together West plan.now caches.west) }
{
    let home = new_cache(alloc, plan, plan.home.slots)?;
    let west = new_cache(alloc, plan, plan.west.slots)?;
    Ok(Caches { home, west })
}

fn new_cache(alloc: Global, plan: &FarmPlan, slots: u32) -> Result<SlotCache<Page>, Memory>
    requires plan { (lines : List Line) × IsScriptPlan plan.now lines }
    requires slots { slots ≡ script_slots }
    ensures { IfOk result (λ cache. (r : Region) → IsScriptCache map_of together r plan.now cache) }
{
    SlotCache::new(alloc, slots, plan.bounds.hold_off())
}

/// What both clocks read before the first line of a script that gives readings.
fn no_readings() -> Readings
    ensures { result ≡ no_readings }
{
    Readings {
        home: Moment(0),
        west: Moment(0),
    }
}
