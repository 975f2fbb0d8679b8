//! Messages from home to west: a ledger of all that were issued, and wires that carry them.
//!
//! Home tells west two things. A purge says that a title has changed, so that west's cache holds it off as home's
//! does. A position says which of its edits a client made last, so that west does not show the client less. Between
//! the regions a message may come late, twice or never, and an edit that was begun must not fail because there is
//! no room to tell of it. So the ledger goes first: room is reserved before an edit begins, an issue takes no memory
//! and cannot be refused, and each message keeps its number, counted from 1, for good. What happens to it later is
//! noted in its row: a wire has taken it, it was dropped, a region received it at this moment. Since every message
//! is looked up by its number, one that comes twice does no harm.
//!
//! `Ledger` keeps the rows. `Wire` is what carries messages, as a trait with three counts of faults; `FarmWire` is
//! one in memory. What a region does with a message is the farm's to say: `wan_cache` takes purges and
//! `chronology_store` takes positions.
//!
//! After `reserve(2)`, `issue_purge(A, 1_000)` answers `Issued { purge: 1, message: 1 }` and leaves `spare()` at 1;
//! `first_unsent()` is `Some(1)` until `mark_sent(1)`.
#![tactic(auto)]

mod farm_wire;
mod ledger;
mod ledger_row;
mod message;
mod past;
mod wire;

pub use farm_wire::{Deal, FarmWire};
pub use ledger::{Issued, Ledger};
pub use ledger_row::{LedgerRow, Receipt};
pub use message::{Body, Message, same_says_equal};
pub use wire::{Wire, WireFault};
