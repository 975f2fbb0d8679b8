//! The one history, and what may be asked of it.
//!
//! Every edit at home ends in one list of entries, from which everything else follows: what a page is, which
//! revision it has, whether an edit was made before. A list answers such a question by going over it, and it may
//! lie in a file or on another machine, where a call can fail. So the history stands behind a trait. `Keeper` says
//! what each answer is, in terms of the list, if the keeper exposes it; which numbers an answer may have at all; and
//! that a call fails only if it is counted, and then leaves the history as it was.
//!
//! `MemKeeper` keeps the list in memory with an index by title and one by client, so that no call goes over it. It has
//! a list of the appends that are to fail. Entries and histories as lists are in `commit_feed`; what an edit answers is
//! the farm's to say.
//!
//! After an append of a commit on `A` by client 1 with token `t1`, which answers 1, `latest(A, 1)` is `Some(1)`,
//! `latest(A, 0)` is `None`, and `by_token(1, t1)` is `Some(1)`.
#![tactic(auto)]

mod client_index;
mod entry_numbers;
mod indexed_history;
mod keeper;
mod mem_keeper;
mod title_index;

pub use keeper::{KeepFault, Keeper};
pub use mem_keeper::MemKeeper;
