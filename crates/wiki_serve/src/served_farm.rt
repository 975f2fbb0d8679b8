// A farm as it is served.
use farm_core::{Farm, Page};
use revision_keeper::Keeper;
use wan_cache::RegionStore;

/// A farm, with how many of its messages were given to the wire: those with the first numbers.
#[derive(Drop)]
pub struct ServedFarm<K: Keeper, S: RegionStore<Page>> {
    pub farm: Farm<K, S>,
    /// Messages up to this number were sent; 0: none.
    pub sent: u64,
}
