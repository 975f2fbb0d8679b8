//! Rounds: a batch of pages of one region, rendered at one moment on its cache, with purges that west receives among
//! them.
//!
//! A page that nobody keeps costs a hundred times one that the cache has, so whoever asks for many at once wants them
//! rendered side by side, and yet on one cache, which must lose no purge. (1) The farm *lends* the region's cache:
//! until it is back no step may be made, so all jobs of a round see one history and one moment. (2) If the plan has
//! several workers they look all views up in the cache as it was lent, and prepare those that miss: a snapshot of a
//! replica, and its page. Nothing is put yet. (3) The caller does the jobs in their order: a receipt gives the cache a
//! purge, and a view looks into the cache; if it misses, what was prepared for it is put by the rule and answered, or
//! is prepared now. So several workers answer as one does, only sooner. (4) The cache goes back to the farm together
//! with the receipts, and the farm stands for the longer run: a round is one step.
//!
//! How a cache is looked into and what may be put stands behind one trait (`Desk`), which the lent cache meets.
//!
//! What is left to others: what is kept of a page is `region_state`'s and the cache's to say, that a run goes on by a
//! round is shown by `farm_core`'s `lend` and `give_back` with the laws of `wiki_model`, and which titles make a batch
//! is the caller's.
//!
//! ```text
//! round(rt, alloc, farm, RoundAsk { region: West, jobs: [view of A with need 1, receipt 1, view of A], at }, gate)
//!     Ok([A from replica 0, put whole; A from replica 0, put interim]): the receipt holds A off
//! ```
#![tactic(auto)]

mod desk;
mod do_jobs;
mod do_view;
mod gate;
mod job;
mod lent_cache;
mod look_ahead;
mod prepare_view;
mod proper_jobs;
mod run_round;

pub use farm_base::Memory;
pub use gate::{Gate, OpenGate};
pub use job::{Job, ViewJob};
pub use proper_jobs::{are_proper, can_receive};
pub use run_round::{JOBS_MAX, RoundAsk, round};
