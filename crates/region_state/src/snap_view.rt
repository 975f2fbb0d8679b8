// What a view takes of a replica.
use replica_apply::Snapshot;

/// What a snapshot is taken by, beside the title and the moment.
#[derive(Clone, Copy, Debug, PartialEq, Eq)]
pub struct SnapTerms {
    /// How many entries the view may not miss.
    pub need: u64,
    /// The word by which a replica is drawn.
    pub word: u64,
    /// Whether an edit of the title is begun.
    pub pending: bool,
}

/// A snapshot with the choice of its replica.
#[derive(Debug, Drop)]
pub struct Snapped {
    /// What the replica had applied, with the title's page.
    pub snapshot: Snapshot,
    /// The number of the replica, from 0.
    pub replica: u8,
    /// Whether every replica lagged too much to be drawn, and this is the one that has applied most.
    pub lagged: bool,
    /// Whether an edit of the title was begun when the snapshot was taken.
    pub pending: bool,
}
