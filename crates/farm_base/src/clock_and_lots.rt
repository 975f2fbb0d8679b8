// The clocks of both regions, and random words.
ghost use Rattle.std.specs.Prelude.{ℕ, ◌≤◌, Option};
ghost use Rattle.wiki_model.specs.declared.Readings.{Readings as Moments};
ghost use Rattle.wiki_model.specs.Limits.{greatest_moment};
ghost use Rattle.farm_base.specs.Series.{Series, Gives};

use crate::Readings;

/// The clocks of both regions. They cannot fail, and may expose the readings to come. A reading may be less than one
/// before it. Whoever makes one cuts what it reads at `MOMENT_MAX`, and the farm cuts what it is given as well.
pub trait Clock {
    /// The readings to come, if the clock exposes them.
    ghost exposed: { Self → Option (Series Moments) };

    /// What the two clocks read now.
    fn readings(&mut self) -> Readings
        ensures value { Gives (exposed self.old) (exposed self.new) result }
        ensures home { result.home ≤ greatest_moment }
        ensures west { result.west ≤ greatest_moment };
}

/// Random words. They cannot fail, and may be exposed.
pub trait Lots {
    /// The words to come, if they are exposed.
    ghost exposed: { Self → Option (Series ℕ) };

    /// The next word: any 64 bits.
    fn word(&mut self) -> u64
        ensures { Gives (exposed self.old) (exposed self.new) result };
}
