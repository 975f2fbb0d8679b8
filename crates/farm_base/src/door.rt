// Where connections come from.
ghost use Rattle.std.specs.Prelude.{◌≡◌, ℕ, Option, if◌then◌else◌};
ghost use Rattle.farm_base.specs.Causes.{HasCause, counted};
ghost use Rattle.farm_base.specs.Offered.{Offered, GivesNext, TakesBack, is_none_left};

use crate::{Conn, OutFault};

/// Where connections come from, and where they are handed back. It may expose its connections, and it counts its
/// faults and how often it said that there are no more.
pub trait Door {
    /// Its connections.
    type C: Conn;

    /// The connections that are left and those handed back, if the door exposes them.
    ghost offered: { Self → Option (Offered Self.C) };

    /// How often a call of [`Door::next`] has failed. It never falls.
    ghost faults: { Self → ℕ };

    /// How often a call of [`Door::next`] has given `None`. It never falls.
    ghost nones: { Self → ℕ };

    /// The next connection, or `None` if there are no more. A failed call changes nothing but the count of faults.
    fn next(&mut self) -> Result<Option<Self::C>, OutFault>
        ensures conns { GivesNext (offered self.old) (offered self.new) result }
        ensures nones { nones self.new ≡ (if is_none_left result then counted (nones self.old) else nones self.old) }
        ensures cause { HasCause (faults self.old) (faults self.new) result };

    /// Takes back a connection that [`Door::next`] gave. It takes no memory and cannot be refused.
    fn done(&mut self, conn: Self::C)
        ensures conns { TakesBack (offered self.old) (offered self.new) conn }
        ensures nones { nones self.new ≡ nones self.old }
        ensures faults { faults self.new ≡ faults self.old };
}
