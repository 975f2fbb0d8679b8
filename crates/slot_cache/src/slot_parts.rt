// A cache that was taken apart.
use crate::slot_row::SlotRow;
use wan_cache::Moment;

/// What a cache keeps, in the open, for whoever shares it among threads and puts it together again.
/// `SlotCache::into_parts` takes a cache apart, and `SlotCache::from_parts` makes one of its parts.
#[derive(Drop)]
pub struct SlotParts<P> {
    /// How many slots there are.
    pub slots: u32,
    /// By slot: until this moment its keys are held off.
    pub floors: Vec<Moment>,
    /// By slot: its key and its two places.
    pub rows: Vec<Box<SlotRow<P>>>,
    /// Up to this moment all keys are held off, since a template changed.
    pub template_check: Moment,
    /// Up to this moment all keys are held off, since a message changed.
    pub message_check: Moment,
    /// The greatest moment that a call was given.
    pub greatest: Moment,
    /// How long a purge holds its slot off, in milliseconds.
    pub hold_off: u64,
}
