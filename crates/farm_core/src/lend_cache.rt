// A region's cache goes to a round, and comes back.
ghost use Rattle.std.specs.Prelude.{◌≡◌, false, Some, None};
ghost use Rattle.region_state.specs.RegionState.{with_cache};
ghost use Rattle.farm_core.specs.FarmParts.{pick_home, pick_west};
ghost use Rattle.farm_steps.specs.ViewSteps.{region_at};

use farm_base::Region;
use page_render::Page;
use region_state::RegionState;
use wan_cache::RegionStore;

/// The region's cache, which is away from then on.
pub(crate) fn lend_cache<S: RegionStore<Page>>(
    home: &mut RegionState<S>,
    west: &mut RegionState<S>,
    region: Region,
) -> Option<S>
    ensures cache { result ≡ (region_at region home.old west.old).cache }
    ensures home { home.new ≡ pick_home region (with_cache None home.old) home.old }
    ensures west { west.new ≡ pick_west region (with_cache None west.old) west.old }
{
    match region {
        Region::Home => home.lend_cache(),
        Region::West => west.lend_cache(),
    }
}

/// The region's cache is back.
pub(crate) fn take_cache<S: RegionStore<Page> + Drop>(
    home: &mut RegionState<S>,
    west: &mut RegionState<S>,
    region: Region,
    cache: S,
)
    requires { (S.cache cache).shared ≡ false }
    ensures home { home.new ≡ pick_home region (with_cache (Some cache) home.old) home.old }
    ensures west { west.new ≡ pick_west region (with_cache (Some cache) west.old) west.old }
{
    // The place is empty: the cache was lent.
    let _ = match region {
        Region::Home => home.take_cache(cache),
        Region::West => west.take_cache(cache),
    };
}
