// What a seat of a shared cache knows, and what stood at sharing. Only clauses read views: no value of one is made.
use slot_cache::SlotRow;
use std::collections::LinkedList;
use std::snapshot::Snapshot;
use wan_cache::{Moment, Value};
use wiki_titles::Title;

/// By mark, which is a floor or a check.
pub(crate) struct Marks {
    /// The greatest that the seat made or loaded, or that stood at sharing.
    pub(crate) seen: LinkedList<u64>,
    /// The greatest that the seat made; 0 for none.
    pub(crate) made: LinkedList<u64>,
}

/// Which of the seats it is.
pub(crate) struct Rank {
    /// Its number, from 1.
    pub(crate) number: u64,
    /// How many seats it can still be cut into. A seat that is handed out has one part, itself.
    pub(crate) parts: u64,
    /// How many seats the share has.
    pub(crate) seats: u64,
}

/// A value with its key, as it was handed to a put.
pub(crate) struct Handed<P> {
    pub(crate) key: Title,
    pub(crate) value: Value<P>,
}

/// A row as a seat found it in a slot that it claimed.
pub(crate) struct Met<P> {
    pub(crate) slot: u64,
    pub(crate) row: Box<SlotRow<P>>,
}

/// What a seat knows.
pub(crate) struct View<P> {
    pub(crate) marks: Marks,
    pub(crate) rank: Rank,
    /// The slot whose claim it holds; between calls none.
    pub(crate) holds: Option<u64>,
    /// The rows that it found, the last one first.
    pub(crate) met: LinkedList<Met<P>>,
    /// How many claims it tried.
    pub(crate) claims: u64,
    /// The slot of the last one.
    pub(crate) last_slot: u64,
    /// The word that the last one found: 0, or another seat's number.
    pub(crate) last_found: u64,
    /// What it handed to its puts, the last one first.
    pub(crate) handed: LinkedList<Handed<P>>,
}

/// What stood at sharing.
#[derive(Drop)]
pub(crate) struct Start<P> {
    pub(crate) floors: Snapshot<Vec<Moment>>,
    pub(crate) template_check: Moment,
    pub(crate) message_check: Moment,
    pub(crate) rows: Snapshot<Vec<Box<SlotRow<P>>>>,
    pub(crate) seats: u64,
}
