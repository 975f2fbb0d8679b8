// Where bytes come from and go to: the traits, and the one fault of a call.
ghost use Rattle.std.specs.Prelude.{◌≡◌, ℕ, ◌<◌, ◌≤◌, List, length, IfOk};
ghost use Rattle.std.specs.declared.option.Option.{Option};
ghost use Rattle.std.specs.Io.{ReadsAtMost};
ghost use Rattle.std.specs.Io.KnownBytes.{ReadConsumes};
ghost use Rattle.farm_base.specs.Causes.{HasCause};
ghost use Rattle.farm_base.specs.Exposed.{WriteAdds};
ghost use Rattle.farm_base.specs.Half.{Half, no_half};

use std::fmt;

/// Where bytes come from. It may expose the bytes that are left, and it counts its faults.
pub trait Source {
    /// The bytes that are left, if the source exposes them.
    ghost left: { Self → Option (List ℕ) };

    /// How often a read has failed. It never falls.
    ghost faults: { Self → ℕ };

    /// What a source that is a sink as well shows of its writes. No read changes it.
    ghost writing_half: { Self → Half } = { λ _. no_half };

    /// Fills a prefix of the buffer with the next bytes and answers how many; 0 is the end of input.
    fn read(&mut self, buf: &mut [u8]) -> Result<usize, OutFault>
        requires { 0 < length buf.old }
        ensures bound { ReadsAtMost result buf.new }
        ensures bytes { ReadConsumes (left self.old) (left self.new) result buf.new }
        ensures cause { HasCause (faults self.old) (faults self.new) result }
        ensures other { writing_half self.new ≡ writing_half self.old };
}

/// Where bytes go. It may expose the bytes written so far, or cease to for good, and it counts its faults.
pub trait Sink {
    /// The bytes written, if the sink exposes them.
    ghost written: { Self → Option (List ℕ) };

    /// How often a write has failed. It never falls.
    ghost faults: { Self → ℕ };

    /// What a sink that is a source as well shows of its reads. No write changes it.
    ghost reading_half: { Self → Half } = { λ _. no_half };

    /// Writes a prefix of the piece, of one byte at least, and answers its length.
    fn write(&mut self, piece: &[u8]) -> Result<usize, OutFault>
        requires { 0 < length piece.now }
        ensures some { IfOk result (λ n. 0 < n) }
        ensures bound { IfOk result (λ n. n ≤ length piece.now) }
        ensures bytes { WriteAdds (written self.old) (written self.new) result piece.now }
        ensures cause { HasCause (faults self.old) (faults self.new) result }
        ensures other { reading_half self.new ≡ reading_half self.old };
}

/// A call of a stream that failed. It may have failed only if the stream's count of faults rose in it.
#[derive(Clone, Copy, Debug, PartialEq, Eq)]
pub enum OutFault {
    /// The read or the write failed.
    Failed,
}

impl fmt::Display for OutFault {
    ghost use Rattle.std.specs.Prelude.{Some, codes};

    ghost output = { λ _. Some (codes "the stream failed") };

    fn fmt<W: fmt::Write>(&self, f: &mut fmt::Formatter<W>) -> fmt::Result {
        f.write_str("the stream failed")
    }
}
