//! One region of the farm: the replicas that follow the history, the positions of the region's clients and its cache,
//! with the plan of both regions, and with what is asked of a farm and answered.
//!
//! A region knows nothing of requests: it is handed a title, a need, a moment, and does one thing. That is why it can
//! serve by itself, and why the farm above it has only to say in which order. (1) A view comes to a region. `wait` asks
//! whether the region has heard of what the client has written, and whether a replica has it: it goes on with its
//! *need*, the number of entries that its page may not miss; or it waits; or it gives up. (2) `look` asks the cache for
//! a page of at least the need. (3) On a miss `snap` draws a replica that has the need, by weight, and takes what the
//! page is made of. (4) `store` renders it, puts it into the cache as far as its age allows, and answers it. Meanwhile
//! replicas apply entries (`apply_entry`, `apply`), a purge keeps a title out of the cache for the hold-off (`receive`)
//! and the positions of clients come in (`hear`).
//!
//! Two calls reach beyond the region, `begin` and `commit` of an edit. They stand here since the positions that they
//! reserve and note are home's, and nobody else may change those.
//!
//! The parts of `store` and `receive` stand alone as well, over any cache (`rendered`, `rule_for`, `take_purge` and
//! others), for a round that works on a cache which is lent.
//!
//! What is left to the farm: open requests and their order, the ledger of messages between the regions, which moment a
//! region has. How a page looks is `page_render`'s, which replica is drawn `load_balancer`'s, what may be stored
//! `wan_value`'s.
//!
//! ```text
//! hear(client, index 2, entry 7, stamp 1,000)     the client's last commit is entry 7
//! wait(view of the client, arrived 2,000, at 2,000)   Stay, while no replica has applied 7 entries
//! wait(the same, at 7,000)                        Lag { by: Entry, needed: 7, reached: 6 }
//! ```
#![tactic(auto)]

mod answer;
mod apply_entries;
mod ask;
mod gather_commits;
mod new_region;
mod open_view;
mod plan;
mod receive_purge;
mod region_state;
mod replica_rows;
mod snap_view;
mod store_view;
mod sweep_positions;
mod wait_view;

pub use answer::{Answer, PageAnswer};
pub use ask::{Asked, ViewAsk};
pub use edit_core::{EditAsk, SavedNote};
pub use gather_commits::young_commits;
pub use open_view::OpenView;
pub use page_render::Page;
pub use plan::{FarmPlan, RegionPlan};
pub use receive_purge::take_purge;
pub use region_state::RegionState;
pub use snap_view::{SnapTerms, Snapped};
pub use store_view::{MadePage, PageRules, answer_from, note_of, rendered, rule_for, value_of};
pub use wait_view::Wait;
pub use wiki_model::{Behind, Origin, PutNote};
