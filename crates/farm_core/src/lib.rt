//! The farm: two regions that serve the pages of one history, step by step.
//!
//! Home takes every write into the one history. Each region follows it by replicas of its own, which are late, and
//! keeps rendered pages and the positions of its sessions. Between home and west go messages, and nothing is said of
//! when they arrive, how often, or whether they do.
//!
//! The idea is that a request is never served in one piece. It is noted under its number (`arrive`), and each further
//! step moves it to the next point of its life; between two steps anything else may happen. So whatever a server, a
//! script or a storm of them does is a list of steps in some order, a *run*. (1) Before a step the farm stands for some
//! run. (2) The step is made, and answers. (3) Now the farm stands for that run with this step and its answer at its
//! end. That is the clause of every step, `GoesOnBy`. What holds of all runs, as `wiki_model` proves it, therefore
//! holds of whatever a farm answers.
//!
//! What is left to others: how one region waits, looks, snaps and stores is `region_state`'s; what the history decides
//! of an edit is `edit_core`'s; in which order steps are made is the caller's alone.
//!
//! ```text
//! arrive(at, 1, edit of A)   None: open
//! begin(at, 1)               None: purge 1 is issued, and home's cache holds A off
//! commit(at, 1)              Saved { entry: 1, revision: 1, .. }: closed
//! carry(at, 1, None)         None: west holds A off as well
//! ```
#![tactic(auto)]

mod farm;
mod lend_cache;
mod open_farm;

pub use farm::{Farm, Lent, NewFault};
pub use region_state::{
    Answer, Asked, Behind, EditAsk, FarmPlan, Origin, Page, PageAnswer, PutNote, RegionPlan,
    RegionState, SavedNote, ViewAsk,
};
