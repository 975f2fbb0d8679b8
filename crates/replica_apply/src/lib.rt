//! A replica of a region: it follows the one history, and gives snapshots of a page with all that its rendering needs.
//!
//! A replica is late, but never wrong: what it keeps is always the first `n` entries of the history, for some `n`.
//! [`Replica::apply`] takes entry `n + 1` and no other, so nothing is left out and nothing comes twice, however entries
//! are handed to it. It keeps each title's last text and no entries. A page is not its text alone: the templates that
//! the text names, those that they name, and the site notice belong to it, and all must be of one prefix.
//! [`Replica::snapshot`] takes them together: it follows the names from the page's text as deep as templates nest,
//! reads each template's text once, and shares the texts. So a page rendered later from the snapshot is the page of
//! that very prefix, in either markup, also when the history has grown since.
//!
//! Which replica answers a view is for `load_balancer` to say; rendering is `page_render`'s, and what a cache makes of
//! a lagging page is `wan_value`'s.
//!
//! A replica that has applied `A` with the text `{{b}}` and `Template:B` with `bee`, both at stamp 1,000, gives for `A`
//! at 4,500 a snapshot with `upto` 2, `stamp` 1,000, `lag` 3,500, the page's text, and one template.
#![tactic(auto)]

mod gather;
mod page_map;
mod replica;
mod snapshot;

pub use commit_feed::Entry;
pub use farm_base::{Memory, Moment};
pub use replica::{Applied, Replica, snapshots_last};
pub use snapshot::Snapshot;
