// The times of the rules, each once, and the law that ties them to the definitions.
ghost use Rattle.std.specs.Prelude.{◌≡◌};
ghost use Rattle.wiki_model.specs.Limits.{greatest_moment, life_whole, life_lagged, life_interim, greatest_lag, position_life, cookie_seconds, wait_limit, beat_after};

/// The last moment: a greater reading of a clock counts as this one.
pub const MOMENT_MAX: u64 = 4_000_000_000_000_000; // milliseconds

/// How long a page is kept that was stored whole: a day.
pub const LIFE_WHOLE: u64 = 86_400_000; // milliseconds

/// How long a page is kept that was stored as lagged.
pub const LIFE_LAGGED: u64 = 30_000; // milliseconds

/// How long an interim page may be shown.
pub const LIFE_INTERIM: u64 = 2_000; // milliseconds

/// The greatest lag of a replica that may be drawn for a read.
pub const LAG_MAX: u64 = 6_000; // milliseconds

/// How long a region keeps a session's position after the commit.
pub const POSITION_LIFE: u64 = 60_000; // milliseconds

/// How long a browser keeps the cookies of a commit.
pub const COOKIE_SECONDS: u64 = 10; // seconds

/// How long a view waits for a replica to reach its position.
pub const WAIT_LIMIT: u64 = 5_000; // milliseconds

/// How old the last beat is when a farm that is served makes the next.
pub const BEAT_AFTER: u64 = 1_000; // milliseconds

/// Each of these numbers is that of the definition by which the contracts speak of it.
pub fn tied_to_the_rules()
    ensures moment { MOMENT_MAX ≡ greatest_moment }
    ensures whole { LIFE_WHOLE ≡ life_whole }
    ensures lagged { LIFE_LAGGED ≡ life_lagged }
    ensures interim { LIFE_INTERIM ≡ life_interim }
    ensures lag { LAG_MAX ≡ greatest_lag }
    ensures position { POSITION_LIFE ≡ position_life }
    ensures cookie { COOKIE_SECONDS ≡ cookie_seconds }
    ensures wait { WAIT_LIMIT ≡ wait_limit }
    ensures beat { BEAT_AFTER ≡ beat_after }
{}
