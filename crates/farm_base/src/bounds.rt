// How late, how far behind and how far apart the parts of the farm may be for the caches' promises.
ghost use Rattle.std.specs.Prelude.{◌≡◌, ◌<◌};
ghost use Rattle.wiki_model.specs.Limits.{hold_off, default_bounds};
ghost use Rattle.farm_base.specs.AsModel.{bounds_of, are_allowed};

/// The greatest value of each bound: a minute.
pub const BOUND_MAX: u32 = 60_000; // milliseconds

/// The bounds within which the caches' promises hold.
#[derive(Clone, Copy, Debug, PartialEq, Eq)]
pub struct Bounds {
    /// How late a commit may follow its purge, in milliseconds.
    pub commit_delay: u32,
    /// How far a replica may lag for its page to be kept whole, in milliseconds.
    pub read_lag: u32,
    /// By how much the clocks of the two regions may differ, in milliseconds.
    pub skew: u32,
}

impl Bounds {
    /// Commits within 3 s of their purge, replicas within 7 s, clocks within 1 s.
    pub const DEFAULT: Bounds = Bounds {
        commit_delay: 3_000,
        read_lag: 7_000,
        skew: 1_000,
    };
}

impl Default for Bounds {
    fn default() -> Self
        ensures { bounds_of result ≡ default_bounds }
    {
        Bounds::DEFAULT
    }
}

impl Bounds {
    /// How long a purge holds its title off the main cache, in milliseconds: the sum of the three.
    pub fn hold_off(&self) -> u64
        ensures { result ≡ hold_off (bounds_of self.now) }
    {
        u64::from(self.commit_delay) + u64::from(self.read_lag) + u64::from(self.skew)
    }

    /// Whether each bound is at most a minute and the clocks may differ at all.
    pub fn are_allowed(&self) -> bool
        ensures { result ≡ are_allowed (bounds_of self.now) }
    {
        self.commit_delay <= BOUND_MAX
            && self.read_lag <= BOUND_MAX
            && 0 < self.skew
            && self.skew <= BOUND_MAX
    }
}
