//! What a region knows of its clients' edits: for each client the last one that it was told of.
//!
//! A client that has just edited a page may read from a replica that lags. To show it no less than it has written,
//! a region must know how far its own edits reach. It is told so by each commit at home and by messages in west,
//! and messages come late, twice or never. So a store keeps for a client the greatest index that it was told, with
//! the place of that commit in the history: a message with a lesser index, or the same, changes nothing. After
//! `POSITION_LIFE` a position counts no more, since by then every replica has it; but its row still stands in the
//! way of an older one that is told late, until it is swept.
//!
//! `reserve` makes room before an edit begins, so that `note` cannot fail when it is committed. Cookies carry what
//! a client knows of itself: `sticky_routes`. Whether a view must wait is the farm's to say.
//!
//! After `take_relay(client, 2, Position { entry: 7 }, expiry(Moment(1_000)))`, which answers `RelayAnswer::Newer`,
//! `find(client, Moment(60_999))` is index 2 at entry 7, and at `Moment(61_000)` it is `None`.
#![tactic(auto)]

mod chronology_store;
mod position_row;

pub use chronology_store::{ChronologyStore, expiry, finds_greatest};
use db_position::Position;
use farm_base::Moment;
pub use farm_base::POSITION_LIFE;
pub use position_row::{HeldPosition, PositionRow};
use wiki_titles::ClientId;

/// What a store knows of a client.
#[derive(Clone, Copy, Debug, PartialEq, Eq)]
pub struct KnownPosition {
    /// Which of the client's commits it is, counted from 1.
    pub index: u64,
    /// The place of that commit in the history.
    pub position: Position,
}

/// What became of a position that a message told.
#[derive(Clone, Copy, Debug, PartialEq, Eq)]
pub enum RelayAnswer {
    /// Its index is above the one that was held, or none was: it is held now.
    Newer,
    /// It changed nothing.
    Older,
}

/// A commit that the history has.
#[derive(Clone, Copy, Debug, PartialEq, Eq)]
pub struct ClientCommit {
    /// Whose commit it is.
    pub client: ClientId,
    /// Which of the client's commits it is, counted from 1.
    pub index: u64,
    /// The number of its entry in the history, counted from 1.
    pub entry: u64,
    /// When it was committed.
    pub stamp: Moment,
}
