// A farm that is ready to be served: opened by a layout over the keeper's history, at the clocks' first reading.
ghost use Rattle.std.specs.Prelude.{◌≡◌, ◌≤◌, IfOk, IfErr};
ghost use Rattle.wiki_model.specs.declared.Region.TheVariants.{Home, West};
ghost use Rattle.wiki_model.specs.Limits.{slots_min, slots_max};
ghost use Rattle.farm_core.specs.NewFarm.{HasNewFault};
ghost use Rattle.slot_cache.specs.AsModel.{map_of};
ghost use Rattle.wiki_layout.specs.ReadLayout.{IsAllowed};
ghost use Rattle.wiki_layout.specs.AsModel.{plan_of};
ghost use Rattle.wiki_host.specs.Opening.{slots_for, keeper_seen, IsLaidCache, IsOpened, OpensPlan, OpensLayout};
ghost use Rattle.wiki_host.specs.Refusals.{RefusesHost, breaks, breaks_none, store_end, layout_end, new_end};

use crate::host::{HostEnd, Hosted};
use farm_base::{Clock, Memory, Readings, Region};
use farm_core::{Farm, FarmPlan, NewFault, Page};
use revision_keeper::{KeepFault, Keeper};
use slot_cache::SlotCache;
use std::alloc::Global;
use wan_cache::RegionStore;
use wiki_layout::{LayoutFault, layout_of};
use wiki_serve::ServedFarm;

/// The markup by which the pages of a hosted wiki are read.
const MARKUP: u8 = 2;

/// The caches of both regions.
#[derive(Drop)]
pub struct Caches<S: Drop> {
    /// Home's cache.
    pub home: S,
    /// West's cache.
    pub west: S,
}

/// Makes the keeper ready, reads the layout, and opens the farm. If anything is refused the keeper is handed back.
pub fn open_layout<K: Keeper + Drop, C: Clock>(
    alloc: Global,
    keeper: K,
    layout: &[u8],
    clock: &mut C,
) -> Result<ServedFarm<K, SlotCache<Page>>, Hosted<K>>
    ensures opens { IfOk result (λ served. OpensLayout K.content K.faults map_of layout.now
        (keeper_seen (K.content keeper) (K.faults keeper)) (C.exposed clock.old) (C.exposed clock.new)
        served.farm served.sent) }
    ensures refused { IfErr result (λ hosted. RefusesHost (breaks layout.now)
        (keeper_seen (K.content keeper) (K.faults keeper))
        (keeper_seen (K.content hosted.keeper) (K.faults hosted.keeper))
        (C.exposed clock.old) (C.exposed clock.new) hosted.end) }
{
    let mut keeper = keeper;
    if let Err(fault) = keeper.start() {
        let end = store_end(fault);
        return Err(Hosted { keeper, end });
    }
    match layout_of(alloc, layout) {
        Ok(plan) => open_plan(alloc, keeper, plan, clock),
        Err(fault) => Err(Hosted {
            keeper,
            end: layout_end(fault),
        }),
    }
}

// Opens a farm by its plan, at what the clocks read now.
fn open_plan<K: Keeper + Drop, C: Clock>(
    alloc: Global,
    keeper: K,
    plan: FarmPlan,
    clock: &mut C,
) -> Result<ServedFarm<K, SlotCache<Page>>, Hosted<K>>
    requires { IsAllowed plan }
    ensures opens { IfOk result (λ served. OpensPlan K.content K.faults map_of (plan_of plan)
        (keeper_seen (K.content keeper) (K.faults keeper)) (C.exposed clock.old) (C.exposed clock.new)
        served.farm served.sent) }
    ensures refused { IfErr result (λ hosted. RefusesHost breaks_none
        (keeper_seen (K.content keeper) (K.faults keeper))
        (keeper_seen (K.content hosted.keeper) (K.faults hosted.keeper))
        (C.exposed clock.old) (C.exposed clock.new) hosted.end) }
{
    match new_caches(alloc, &plan) {
        Ok(caches) => {
            let at = clock.readings();
            match open_farm(alloc, keeper, plan, caches, &at) {
                Ok(served) => Ok(served),
                Err((keeper, fault)) => Err(Hosted {
                    keeper,
                    end: new_end(fault),
                }),
            }
        }
        Err(Memory) => Err(Hosted {
            keeper,
            end: HostEnd::Memory,
        }),
    }
}

// A farm over the keeper's history that reads pages by the second markup, with nothing sent yet.
fn open_farm<K: Keeper + Drop, S: RegionStore<Page> + Drop>(
    alloc: Global,
    keeper: K,
    plan: FarmPlan,
    caches: Caches<S>,
    at: &Readings,
) -> Result<ServedFarm<K, S>, (K, NewFault)>
    requires plan { IsAllowed plan }
    requires home { IsLaidCache S.cache plan Home caches.home }
    requires west { IsLaidCache S.cache plan West caches.west }
    ensures opened { IfOk result (λ served.
        IsOpened K.content K.faults S.cache (plan_of plan) (keeper_seen (K.content keeper) (K.faults keeper)) at.now
        served.farm served.sent) }
    ensures cause { IfErr result (λ back. HasNewFault (K.faults keeper) (K.faults back.0) back.1) }
    ensures back { IfErr result (λ back. K.content back.0 ≡ K.content keeper) }
{
    let Caches { home, west } = caches;
    match Farm::new(alloc, keeper, plan, home, west, *at) {
        Ok(farm) => {
            let mut farm = farm;
            farm.set_markup(*at, MARKUP);
            Ok(ServedFarm { farm, sent: 0 })
        }
        Err(back) => Err(back),
    }
}

// Empty caches of as many slots as the plan says.
fn new_caches(alloc: Global, plan: &FarmPlan) -> Result<Caches<SlotCache<Page>>, Memory>
    requires { IsAllowed plan.now }
    ensures home { IfOk result (λ caches. IsLaidCache map_of plan.now Home caches.home) }
    ensures west { IfOk result (λ caches. IsLaidCache map_of plan.now West caches.west) }
{
    let home = new_cache(alloc, plan, Region::Home)?;
    let west = new_cache(alloc, plan, Region::West)?;
    Ok(Caches { home, west })
}

fn new_cache(alloc: Global, plan: &FarmPlan, region: Region) -> Result<SlotCache<Page>, Memory>
    requires { IsAllowed plan.now }
    ensures { IfOk result (λ cache. IsLaidCache map_of plan.now region cache) }
{
    SlotCache::new(alloc, slots_for(plan, region), plan.bounds.hold_off())
}

fn slots_for(plan: &FarmPlan, region: Region) -> u32
    requires { IsAllowed plan.now }
    ensures value { result ≡ slots_for (plan_of plan.now) region }
    ensures some { slots_min ≤ result }
    ensures few { result ≤ slots_max }
{
    match region {
        Region::Home => plan.home.slots,
        Region::West => plan.west.slots,
    }
}

fn store_end(fault: KeepFault) -> HostEnd
    ensures { result ≡ store_end fault }
{
    match fault {
        KeepFault::Fault => HostEnd::StoreFault,
        KeepFault::Memory => HostEnd::Memory,
    }
}

fn layout_end(fault: LayoutFault) -> HostEnd
    ensures { result ≡ layout_end fault }
{
    match fault {
        LayoutFault::Rule(rule) => HostEnd::BadLayout { rule },
        LayoutFault::Memory => HostEnd::Memory,
    }
}

fn new_end(fault: NewFault) -> HostEnd
    ensures { result ≡ new_end fault }
{
    match fault {
        NewFault::Fault => HostEnd::StoreFault,
        NewFault::Memory => HostEnd::Memory,
    }
}
