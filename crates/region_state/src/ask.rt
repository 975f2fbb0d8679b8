// What is asked of a farm.
use edit_core::EditAsk;
use farm_base::Region;
use sticky_routes::PosCookie;
use wiki_titles::{ClientId, Title};

/// A view of a page.
#[derive(Debug, Drop)]
pub struct ViewAsk {
    /// The region of the host that was asked.
    pub host: Region,
    /// Who asks.
    pub client: ClientId,
    /// The position that the client's cookie tells, if it sent one.
    pub cookie: Option<PosCookie>,
    /// Whether the client stays with home, whatever the host.
    pub use_master: bool,
    /// The word by which one of several replicas is drawn.
    pub word: u64,
    /// The page that is asked for.
    pub title: Title,
}

/// A request: a view or an edit.
#[derive(Debug, Drop)]
pub enum Asked {
    /// A page is to be answered.
    View(ViewAsk),
    /// A page is to be changed.
    Edit(EditAsk),
}
