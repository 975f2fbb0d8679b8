//! The steps of the farm, each over the parts that it changes: the open requests, the two regions, the ledger of
//! messages and the keeper of the history.
//!
//! The idea is that a request lies in a map under its number, at a *point* of its life ([`OpenRequest`]), and that a
//! step takes it out of its place, does one thing with one region, and puts it back at the next point or closes it. (1)
//! A step asks the map for the request at the point that it needs; if it stands elsewhere, the answer is `NotOpen` and
//! nothing has changed. (2) The place is kept meanwhile, by `Taken`, so that putting the request back takes no memory:
//! only [`arrive`], which makes the place, can be refused it. (3) An edit is at home, and a view at its region. A purge
//! of either is *received*: the region's cache takes it, and the ledger notes its receipt at the same moment.
//!
//! What each step does is said by a relation over the parts before and after it (`specs/`), with no word of a run.
//!
//! What is left to others: `region_state` does what one region can do by itself, `edit_core` decides and commits;
//! that all steps together go on with every run, and which moment it is, is the farm's, in `farm_core`.
//!
//! ```text
//! arrive(requests, moments, 1, view of A)   None: request 1 is ViewArrived
//! wait(requests, home, west, moments, 1, ..)   None: it is ViewWaited, with its need
//! snap(.., 1)                               NotOpen { id: 1 }: it has not looked yet
//! look(.., 1)                               Miss: it is ViewLooked
//! ```
#![tactic(auto)]

mod edit_steps;
mod moments;
mod open_request;
mod relay_steps;
mod request_map;
mod view_steps;

pub use edit_steps::{EditTerm, begin, commit};
pub use moments::{first_moments, moment_of, moments_at};
pub use open_request::OpenRequest;
pub use relay_steps::{Carriage, carry, drop_message, find_carriage, receive_all};
pub use request_map::{Requests, is_open};
pub use view_steps::{apply, arrive, is_pending, look, need, snap, store, wait};
