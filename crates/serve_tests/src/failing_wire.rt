// A wire of which sends fail.
ghost use Rattle.std.specs.Prelude.{◌≤◌};
ghost use Rattle.wiki_model.specs.Steps.{Rose};

use farm_base::FailingCalls;
use purge_relay::{FarmWire, Message, Wire, WireFault};
use std::alloc::Global;

/// A wire in memory, which gives each message that was sent once and in order. The sends in its list fail, counted
/// from 1; each failure is counted.
#[derive(Drop)]
pub struct FailingWire {
    inner: FarmWire,
    sends: FailingCalls,
    /// How many sends and takes failed.
    faults: u64,
    /// How many sends were refused.
    refused: u64,
}

impl FailingWire {
    /// A wire whose sends of these numbers fail.
    pub fn new(alloc: Global, sends: Vec<u64>) -> Self {
        FailingWire {
            inner: FarmWire::new(alloc),
            sends: FailingCalls::new(sends),
            faults: 0,
            refused: 0,
        }
    }
}

impl Wire for FailingWire {
    ghost use Rattle.purge_relay.specs.FarmWire.{carried_by};

    ghost carried = { λ w. carried_by w.inner };

    ghost faults = { λ w. w.faults };

    ghost refused = { λ w. w.refused };

    ghost empty = { λ w. w.inner.empty };

    fn send(&mut self, message: &Message) -> Result<(), WireFault> {
        if self.sends.next_fails() {
            self.refused = self.refused.saturating_add(1);
            return Err(fault(&mut self.faults));
        }
        match self.inner.send(message) {
            Ok(()) => Ok(()),
            Err(_) => {
                self.refused = self.refused.saturating_add(1);
                Err(WireFault::Memory)
            }
        }
    }

    fn take(&mut self) -> Result<Option<Message>, WireFault> {
        match self.inner.take() {
            Err(WireFault::Failed) => Err(fault(&mut self.faults)),
            other => other,
        }
    }
}

// Counts a fault.
fn fault(faults: &mut u64) -> WireFault
    ensures later { faults.old ≤ faults.new }
    ensures rose { Rose faults.old faults.new }
{
    *faults = faults.saturating_add(1);
    WireFault::Failed
}
