// The real source and sink, over any reader and writer.
ghost use Rattle.std.specs.Prelude.{◌<◌, ◌≤◌, length, None, IfOk};
ghost use Rattle.std.specs.Io.KnownBytes.{WriteAppends};
ghost use Rattle.farm_base.specs.Causes.{HasCause};
ghost use Rattle.farm_base.specs.Exposed.{WriteAdds};

use farm_base::{OutFault, Sink, Source};
use std::io::{Read, Write};

/// A source over a reader, with the bytes that the reader tells: each error that it gives is a counted fault.
#[derive(Drop)]
pub struct Reading<R: Drop> {
    inner: R,
    faults: u64,
}

impl<R: Read + Drop> Reading<R> {
    /// A source over the reader, of which nothing was read; no fault is counted.
    pub fn new(inner: R) -> Self {
        Reading { inner, faults: 0 }
    }
}

impl<R: Read + Drop> Source for Reading<R> {
    ghost left = { λ s. R.remaining s.inner };

    ghost faults = { λ s. s.faults };

    fn read(&mut self, buf: &mut [u8]) -> Result<usize, OutFault> {
        match self.inner.read(buf) {
            Ok(count) => Ok(count),
            Err(_) => {
                self.faults = self.faults.saturating_add(1);
                Err(OutFault::Failed)
            }
        }
    }
}

/// A sink over a writer: each error of the writer, and each write that takes nothing, is a counted fault. It tells
/// nothing, since a writer may begin to tell what it holds; but what the writer tells grows by what is taken.
#[derive(Drop)]
pub struct Writing<W: Drop> {
    inner: W,
    faults: u64,
}

impl<W: Write + Drop> Writing<W> {
    /// A sink over the writer, to which nothing was written; no fault is counted.
    pub fn new(inner: W) -> Self {
        Writing { inner, faults: 0 }
    }
}

impl<W: Write + Drop> Sink for Writing<W> {
    ghost written = { λ _. None };

    ghost faults = { λ s. s.faults };

    fn write(&mut self, piece: &[u8]) -> Result<usize, OutFault>
        ensures some { IfOk result (λ n. 0 < n) }
        ensures bound { IfOk result (λ n. n ≤ length piece.now) }
        ensures bytes { WriteAdds None None result piece.now }
        ensures cause { HasCause self.old.faults self.new.faults result }
        ensures passed_on { WriteAppends (W.contents self.old.inner) (W.contents self.new.inner) result piece.now }
    {
        match self.inner.write(piece) {
            Ok(count) if 0 < count => Ok(count),
            _ => {
                self.faults = self.faults.saturating_add(1);
                Err(OutFault::Failed)
            }
        }
    }
}
