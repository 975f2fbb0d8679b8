// What a farm answers.
use edit_core::SavedNote;
use page_render::Page;
use std::sync::Arc;
use wiki_model::{Behind, Cause, Origin, PutNote};
use wiki_titles::Title;

/// A page that is answered.
#[derive(Drop)]
pub struct PageAnswer {
    /// The page's title.
    pub title: Title,
    /// How many entries the history had of which this is the page.
    pub source: u64,
    /// The cache or the replica that it comes from.
    pub origin: Origin,
    /// What became of the page in the cache; None unless it was rendered for this answer.
    pub put: Option<PutNote>,
    /// Whether it may lack commits that are older than the read lag.
    pub lagged: bool,
    /// The page itself, shared with the cache.
    pub page: Arc<Page>,
}

/// The answer to a step.
#[derive(Drop)]
pub enum Answer {
    /// The page of a view.
    Ok(PageAnswer),
    /// The edit is saved, now or before.
    Saved(SavedNote),
    /// There is no page of this title in the first `source` entries.
    NoPage {
        source: u64,
    },
    /// The page's revision is `current`, and the edit was made from `base`.
    Conflict {
        base: u64,
        current: u64,
    },
    /// The client's token already names another edit, which is this entry.
    Token {
        entry: u64,
    },
    /// The view is behind the position of its client, by its index or its entry.
    Lag {
        by: Behind,
        needed: u64,
        reached: u64,
    },
    /// The cache has no page for this view, and why.
    Miss {
        cause: Cause,
    },
    /// No request of this id stands at the point that the step needs.
    NotOpen {
        id: u64,
    },
    /// No message of this number was issued, or not the one that was shown.
    Unknown {
        message: u64,
    },
    /// The message was dropped.
    Gone {
        message: u64,
    },
    /// The keeper failed, and has counted it.
    Store,
    /// Out of memory.
    Memory,
}
