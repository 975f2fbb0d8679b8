// What a step's readings make of the moments of the regions.
ghost use Rattle.std.specs.Prelude.{◌≡◌, max};
ghost use Rattle.wiki_model.specs.World.{cut};
ghost use Rattle.farm_steps.specs.Moments.{moment_of};
ghost use Rattle.farm_steps.specs.Moments.{moments_at};

use farm_base::{MOMENT_MAX, Moment, Readings, Region};

/// A reading counts up to the greatest moment.
fn cut(reading: Moment) -> Moment
    ensures { result ≡ cut reading }
{
    Moment(reading.0.min(MOMENT_MAX))
}

/// The moments after these readings: none falls.
pub fn moments_at(at: Readings, now: Readings) -> Readings
    ensures { result ≡ moments_at at now }
{
    Readings {
        home: now.home.later(cut(at.home)),
        west: now.west.later(cut(at.west)),
    }
}

/// The first moments: home's is not before the last stamp.
pub fn first_moments(at: Readings, stamp: Moment) -> Readings
    ensures { result ≡ record { home = max (cut at.home) stamp; west = cut at.west } }
{
    Readings {
        home: cut(at.home).later(stamp),
        west: cut(at.west),
    }
}

/// The region's moment.
pub fn moment_of(at: Readings, region: Region) -> Moment
    ensures { result ≡ moment_of region at }
{
    match region {
        Region::Home => at.home,
        Region::West => at.west,
    }
}
