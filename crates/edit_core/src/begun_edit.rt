// An edit between its two steps.
use crate::edit_ask::{EditAsk, SavedNote};
use farm_base::Moment;
use purge_relay::Issued;
use wiki_titles::Title;

/// The messages of an edit: its purge, a second one if the commit comes late, and the position.
pub(crate) const MESSAGES: u32 = 3;

/// Those of them that are still to come after `begin`.
pub(crate) const MESSAGES_LEFT: u32 = 2;

/// An edit whose purge was issued. Room for two more messages and the row of its client are reserved.
#[derive(Debug, Drop)]
pub struct BegunEdit {
    /// The edit as it was asked.
    pub ask: EditAsk,
    /// A copy of the ask's title, for a second purge.
    pub purge_title: Title,
    /// The purge that `begin` issued.
    pub issued: Issued,
    /// A commit after this moment is purged again.
    pub due: Moment,
}

/// What `begin` answers if it refuses nothing.
#[derive(Debug, Drop)]
pub enum Begun {
    /// The edit may be committed.
    Started(BegunEdit),
    /// The history has the edit already.
    Already(SavedNote),
}
