// What a round is asked for.
use wiki_titles::Title;

/// A view of a page at the round's region.
#[derive(Debug, Drop)]
pub struct ViewJob {
    /// The page that is asked for.
    pub title: Title,
    /// How many entries the page may not miss. If no replica has reached so many and the cache misses, the answer is
    /// out of memory.
    pub need: u64,
    /// The word by which one of several replicas is drawn.
    pub word: u64,
}

/// One job of a round.
#[derive(Debug, Drop)]
pub enum Job {
    /// A page is answered.
    View(ViewJob),
    /// West receives the purge of this number.
    Receipt(u64),
}
