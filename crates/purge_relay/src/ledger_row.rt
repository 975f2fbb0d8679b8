// A message in the ledger, and what became of it.
ghost use Rattle.std.specs.Prelude.{◌≡◌};
ghost use Rattle.purge_relay.specs.LedgerRow.{received_at, with_receipt};

use crate::message::{Body, Message};
use farm_base::{Moment, Region};

/// When a region received a purge.
#[derive(Clone, Copy, Debug, PartialEq, Eq)]
pub struct Receipt {
    /// The first time.
    pub first: Moment,
    /// The last time; as long as it came once only, the first.
    pub last: Moment,
}

/// A message and what became of it.
#[derive(Debug, Drop)]
pub struct LedgerRow {
    /// The message as it was issued.
    pub message: Message,
    /// It can be carried no more.
    pub dropped: bool,
    /// A wire has taken it.
    pub sent: bool,
    /// When home received it; None if it did not, and for a position.
    pub home: Option<Receipt>,
    /// When west received it; None if it did not, and for a position.
    pub west: Option<Receipt>,
}

impl LedgerRow {
    /// Notes that the region received the purge; a position is not received.
    pub(crate) fn receive(&mut self, region: Region, at: Moment)
        ensures { self.new ≡ with_receipt region at self.old }
    {
        if let Body::Position { .. } = self.message.body {
            return;
        }
        match region {
            Region::Home => self.home = Some(received_at(self.home, at)),
            Region::West => self.west = Some(received_at(self.west, at)),
        }
    }
}

fn received_at(receipt: Option<Receipt>, at: Moment) -> Receipt
    ensures { result ≡ received_at receipt at }
{
    match receipt {
        Some(receipt) => Receipt {
            first: receipt.first,
            last: at,
        },
        None => Receipt {
            first: at,
            last: at,
        },
    }
}
