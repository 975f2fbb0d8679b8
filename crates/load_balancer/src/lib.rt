//! Which replica of a region answers a read.
//!
//! The replicas that may answer share a wheel: each has as much of it as its weight, and one word that is handed in
//! stops the wheel. (1) Replicas that lag too far, that miss an entry which the read needs, or that have no weight
//! have no share. (2) If no share is left, the replica that has applied most answers, and the page is marked as
//! lagged. (3) If even that one misses an entry which is needed, the read is behind, and its caller may wait.
//!
//! Where the word comes from, and what is done with a read that is behind, is left to the caller.
//!
//! `choose(&rows, 0, 5)` over two rows of the weights 4 and 3 is `Choice::At(1)`: the word 5 is past the first 4.
#![tactic(auto)]

ghost use Rattle.std.specs.Prelude.{◌≡◌, ◌<◌, ◌≤◌, length, sum};
ghost use Rattle.wiki_model.specs.Balance.{IsChoice, IsMostApplied, is_eligible, share, shares};
ghost use Rattle.wiki_model.specs.Limits.{replicas_max};
ghost use Rattle.load_balancer.specs.AsModel.{row_of, rows_of};
ghost use Rattle.load_balancer.specs.Shares.{IsDrawn};

pub use farm_base::LAG_MAX;
pub use wiki_model::Choice;

/// The replica that answers a read which needs this many applied entries. `At`: drawn by the word and by weight among
/// the replicas that lag at most [`LAG_MAX`] and have applied enough. `Lagged`: there is none of those, but one that
/// lags more or has no weight has applied enough. `Behind`: none has applied enough. Takes no memory; linear in the
/// rows.
pub fn choose(rows: &[Row], need: u64, word: u64) -> Choice
    requires some { 0 < length rows.now }
    requires few { length rows.now ≤ replicas_max }
    ensures { IsChoice (rows_of rows.now) need word result }
{
    let total = total(rows, need);
    if 0 < total {
        return Choice::At(drawn_at(rows, need, word % total));
    }
    let (place, best) = most_applied(rows);
    if need <= best.applied {
        Choice::Lagged(place)
    } else {
        Choice::Behind {
            need,
            best: best.applied,
        }
    }
}

/// What the choice sees of a replica.
#[derive(Clone, Copy, Debug, PartialEq, Eq)]
pub struct Row {
    /// How often it is drawn beside the others; 0 keeps it from being drawn.
    pub weight: u16,
    /// How far it lags, in milliseconds.
    pub lag: u64,
    /// How many entries of the history it has applied.
    pub applied: u64,
}

impl Row {
    // The weight if the replica may be drawn, and else 0.
    fn share(&self, need: u64) -> u16
        ensures { result ≡ share need (row_of self.now) }
    {
        if self.is_eligible(need) {
            self.weight
        } else {
            0
        }
    }

    fn is_eligible(&self, need: u64) -> bool
        ensures { result ≡ is_eligible need (row_of self.now) }
    {
        1 <= self.weight && self.lag <= LAG_MAX && need <= self.applied
    }
}

fn total(rows: &[Row], need: u64) -> u64
    requires { length rows.now ≤ replicas_max }
    ensures { result ≡ sum (shares need (rows_of rows.now)) }
{
    let mut total = 0;
    for row in rows {
        total += u64::from(row.share(need));
    }
    total
}

// The first place at which the running sum of the shares exceeds the drawn number.
fn drawn_at(rows: &[Row], need: u64, drawn: u64) -> u8
    requires few { length rows.now ≤ replicas_max }
    requires within { drawn < sum (shares need (rows_of rows.now)) }
    ensures { IsDrawn (shares need (rows_of rows.now)) drawn result }
{
    let mut before = 0;
    for (i, row) in rows.iter().enumerate() {
        let after = before + u64::from(row.share(need));
        if drawn < after {
            return i as u8;
        }
        before = after;
    }
    // Not reached, as the drawn number is below the last sum.
    0
}

// The first of the rows that have applied most, with its place.
fn most_applied(rows: &[Row]) -> (u8, Row)
    requires some { 0 < length rows.now }
    requires few { length rows.now ≤ replicas_max }
    ensures { IsMostApplied (rows_of rows.now) result.0 (row_of result.1) }
{
    let mut best = (0, rows[0]);
    for (i, row) in rows.iter().enumerate() {
        if best.1.applied < row.applied {
            best = (i as u8, *row);
        }
    }
    best
}
