// How many bytes of templates a page has included, which never passes the limit.
ghost use Rattle.std.specs.Prelude.{◌≡◌, ◌≤◌, ◌<◌, ◌+◌, IsTrue, false};
ghost use Rattle.wiki_model.specs.Limits.{included_max};

use std::marker::Model;

/// The bytes of templates that a page may include: 256 KiB, four times the longest text, so that no page grows without
/// bound however its templates name each other.
pub const INCLUDED_MAX: usize = 262_144;

/// How many bytes of templates a page has included: at most [`INCLUDED_MAX`]. Contracts see the number.
#[derive(Drop)]
pub struct Included {
    bytes: usize,
}

impl Model for Included {
    ghost use Rattle.std.specs.Prelude.{ℕ, ◌≤◌};
    ghost use Rattle.wiki_model.specs.Limits.{included_max};

    ghost Value = { ℕ };

    ghost view = { λ included. included.bytes };

    ghost invariant = { λ included. included.bytes ≤ included_max };
}

impl Included {
    /// Nothing is included yet.
    pub fn nothing() -> Included
        ensures { result ≡ 0 }
    {
        Included { bytes: 0 }
    }

    /// Whether this many bytes fit beside those that are included.
    pub fn has_room(&self, bytes: usize) -> bool
        ensures fits { IsTrue result → self.now + bytes ≤ included_max }
        ensures full { result ≡ false → included_max < self.now + bytes }
    {
        bytes <= INCLUDED_MAX - self.bytes
    }

    /// Includes this many bytes, which fit.
    pub fn add(&mut self, bytes: usize)
        requires { self.old + bytes ≤ included_max }
        ensures { self.new ≡ self.old + bytes }
    {
        self.bytes += bytes;
    }
}
