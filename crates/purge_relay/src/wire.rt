// What carries messages between the regions.
ghost use Rattle.std.specs.Prelude.{◌≡◌, ℕ, IfOk, OnOk, OnErr};
ghost use Rattle.std.specs.declared.option.Option.{Option};
ghost use Rattle.farm_base.specs.Causes.{counted};
ghost use Rattle.purge_relay.specs.Carried.{Carried};
ghost use Rattle.purge_relay.specs.AsModel.{HasSent, HasTaken, empty_after};
ghost use Rattle.purge_relay.specs.Causes.{HasWireFault};

use crate::message::Message;

/// Why a wire did not do what it was asked.
#[derive(Clone, Copy, Debug, PartialEq, Eq)]
pub enum WireFault {
    /// The outside refused, and the wire has counted it.
    Failed,
    /// Out of memory.
    Memory,
}

/// What carries messages from home to west. It may expose what it was given and what it gave. Its three counts
/// never fall, and what it gives need not be what it was given.
pub trait Wire {
    /// The messages sent and the messages taken, if the wire exposes them.
    ghost carried: { Self → Option Carried };

    /// How often the outside has refused.
    ghost faults: { Self → ℕ };

    /// How often a send was refused.
    ghost refused: { Self → ℕ };

    /// How often a take gave no message.
    ghost empty: { Self → ℕ };

    /// Gives the wire a message. If it fails, nothing was sent.
    fn send(&mut self, message: &Message) -> Result<(), WireFault>
        ensures sent { OnOk result (HasSent (carried self.old) (carried self.new) message.now) }
        ensures kept { OnErr result (carried self.new ≡ carried self.old) }
        ensures accepted { OnOk result (refused self.new ≡ refused self.old) }
        ensures counted { OnErr result (refused self.new ≡ counted (refused self.old)) }
        ensures takes { empty self.new ≡ empty self.old }
        ensures cause { HasWireFault (faults self.old) (faults self.new) result };

    /// Takes a message that is ready; None if none is. If it fails, nothing was taken.
    fn take(&mut self) -> Result<Option<Message>, WireFault>
        ensures taken { IfOk result (λ m. HasTaken (carried self.old) (carried self.new) m) }
        ensures kept { OnErr result (carried self.new ≡ carried self.old) }
        ensures counted { empty self.new ≡ empty_after result (empty self.old) }
        ensures sends { refused self.new ≡ refused self.old }
        ensures cause { HasWireFault (faults self.old) (faults self.new) result };
}
