//! Edits in two steps, over the history, the ledger of messages and the positions of sessions.
//!
//! An edit is saved once for each client and token, and only on the revision that it was made from. `begin` asks the
//! history whether it decides the edit: saved before, a token that names another edit, a conflict. If it does not, the
//! title's purge is issued before anything is written, so that no region can keep an older page for longer than its
//! hold-off. `commit` asks the same again, since other edits may have come between, and appends the entry.
//!
//! The idea is that an appended entry can't be taken back, so nothing may be refused after it. Whatever `commit` needs
//! besides the keeper is reserved by `begin`: room for three messages (the purge, a second purge if the commit comes
//! late, the position) and the row of the client's position. What turns out not to be needed is given back.
//!
//! What the caller does: home receives each purge at once (`Issued` names it), positions and purges travel to west by
//! the ledger's messages, and a begun edit that is given up goes through `abandon`.
//!
//! ```text
//! begin(keeper, ledger, positions, ask, at 20,000, delay 3,000)  Started: purge 3 is issued, due 23,000
//! commit_with_outcome(.., at 23,001)                             entry 2, and the second purge 4
//! ```
#![tactic(auto)]

mod begin_edit;
mod begun_edit;
mod commit_edit;
mod decide;
mod edit_ask;

pub use begin_edit::begin;
pub use begun_edit::{Begun, BegunEdit};
pub use commit_edit::{abandon, commit, commit_with_outcome};
pub use edit_ask::{CommitOutcome, EditAsk, EditRefusal, SavedNote};
