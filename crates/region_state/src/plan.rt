// How a farm is laid out.
use farm_base::{Bounds, Listed, Moment};

/// One region's part of a plan.
#[derive(Debug, Drop)]
pub struct RegionPlan {
    /// The weight of each replica in the drawing, 0 to 1,000; there are one to eight.
    pub weights: Listed<u16>,
    /// How many pages the cache has room for.
    pub slots: u32,
}

/// The layout of a farm.
#[derive(Debug, Drop)]
pub struct FarmPlan {
    /// The region that takes all edits.
    pub home: RegionPlan,
    /// The other region.
    pub west: RegionPlan,
    /// No page counts that was cached before this moment.
    pub epoch: Moment,
    /// The workers of a round.
    pub workers: u8,
    /// The bounds within which the caches' promises hold.
    pub bounds: Bounds,
    /// How many entries each replica applies before a request; 0: none of itself.
    pub pace: u32,
}
