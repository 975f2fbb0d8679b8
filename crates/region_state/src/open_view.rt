// A view under way.
use crate::ask::ViewAsk;
use farm_base::{Moment, Region};

/// A view with what its arrival fixed.
#[derive(Debug, Drop)]
pub struct OpenView {
    /// The view as it was asked.
    pub ask: ViewAsk,
    /// The region that serves it.
    pub region: Region,
    /// That region's moment when it arrived, from which it waits.
    pub arrived: Moment,
}
