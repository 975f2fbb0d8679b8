// When a region forgets the positions that have expired.
ghost use Rattle.region_state.specs.RegionState.{SweepsDoubled};

use chronology_store::ChronologyStore;
use farm_base::Moment;

/// Fewer clients with a row than this are not swept.
pub(crate) const SWEPT_ROWS_LEAST: usize = 64;

/// Sweeps if the rows are twice as many as they were after the last sweep.
pub(crate) fn sweep_doubled(positions: &mut ChronologyStore, swept_rows: &mut usize, now: Moment)
    ensures { SweepsDoubled now swept_rows.old positions.old swept_rows.new positions.new }
{
    let rows = positions.rows();
    if rows / 2 < *swept_rows {
        return;
    }
    positions.sweep(now);
    *swept_rows = positions.rows().max(SWEPT_ROWS_LEAST);
}
