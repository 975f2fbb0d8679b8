// A source and a sink that fail the calls whose numbers they were given, and a source and a sink that never fail.
ghost use Rattle.std.specs.Prelude.{◌≡◌, ℕ, ◌+◌, ◌-◌, ◌<◌, ◌≤◌, ◌++◌, min, List, [], take, drop, length, Option, Some, None, IfSome, if◌then◌else◌, IfOk, OnOk, OnErr, IsErr, Contains, ◌↔◌};
ghost use Rattle.std.specs.Io.{ReadsAtMost};
ghost use Rattle.std.specs.Io.KnownBytes.{ReadConsumes};
ghost use Rattle.farm_base.specs.Causes.{HasCause, counted};
ghost use Rattle.farm_base.specs.Exposed.{WriteAdds};
ghost use Rattle.farm_base.specs.FailingCalls.{none_made, one_more};
ghost use Rattle.farm_base.specs.MemSource.{Reader};
ghost use Rattle.farm_base.specs.MemSink.{Writer};

use crate::{FailingCalls, OutFault, Sink, Source};
use std::alloc::Global;
use std::marker::Model;

/// A source over bytes. The calls in its list fail, counted from 1, and no others; each that fails counts a fault
/// and gives no byte.
#[derive(Drop)]
pub struct MemSource {
    rest: SureSource,
    calls: FailingCalls,
    faults: u64,
}

impl Model for MemSource {
    ghost use Rattle.farm_base.specs.MemSource.{Reader};

    ghost Value = { Reader };

    ghost view = { λ s. record { left = s.rest; calls = s.calls; faults = s.faults } };
}

impl MemSource {
    /// A source over these bytes; the calls of these numbers fail. It takes no memory.
    pub fn new(bytes: Vec<u8>, failing: Vec<u64>) -> Self
        ensures { result ≡ record { left = bytes.items; calls = none_made failing.items; faults = 0 } }
    {
        MemSource {
            rest: SureSource::new(bytes),
            calls: FailingCalls::new(failing),
            faults: 0,
        }
    }
}

impl Source for MemSource {
    ghost left = { λ s. Some s.left };

    ghost faults = { λ s. s.faults };

    fn read(&mut self, buf: &mut [u8]) -> Result<usize, OutFault>
        requires { 0 < length buf.old }
        ensures bound { ReadsAtMost result buf.new }
        ensures bytes { ReadConsumes (Some self.old.left) (Some self.new.left) result buf.new }
        ensures cause { HasCause self.old.faults self.new.faults result }
        ensures fails { IsErr result ↔ Contains self.old.calls.numbers (counted self.old.calls.made) }
        ensures most { IfOk result (λ n. n ≡ min (length buf.old) (length self.old.left)) }
        ensures still { OnOk result (self.new.faults ≡ self.old.faults) }
        ensures counts { OnErr result (self.new.faults ≡ counted self.old.faults) }
        ensures calls { self.new.calls ≡ one_more self.old.calls }
    {
        if self.calls.next_fails() {
            self.faults = self.faults.saturating_add(1);
            return Err(OutFault::Failed);
        }
        Ok(self.rest.fill(buf))
    }
}

/// A source over bytes, of which no read fails.
#[derive(Drop)]
pub struct SureSource {
    bytes: Vec<u8>,
    at: usize,
}

impl Model for SureSource {
    ghost use Rattle.std.specs.Prelude.{ℕ, List, ◌≤◌, length, drop};

    ghost Value = { List ℕ };

    ghost view = { λ s. drop s.at s.bytes.items };

    ghost invariant = { λ s. s.at ≤ length s.bytes.items };
}

impl SureSource {
    /// A source over these bytes. It takes no memory.
    pub fn new(bytes: Vec<u8>) -> Self
        ensures { result ≡ bytes.items }
    {
        SureSource { bytes, at: 0 }
    }

    // Fills the buffer as far as there are bytes, and answers how many it took.
    fn fill(&mut self, buf: &mut [u8]) -> usize
        requires { 0 < length buf.old }
        ensures most { result ≡ min (length buf.old) (length self.old) }
        ensures bytes { self.old ≡ take result buf.new ++ self.new }
        ensures end { result ≡ 0 → self.new ≡ [] }
    {
        let count = copy_from(&self.bytes, self.at, buf);
        self.at += count;
        count
    }
}

impl Source for SureSource {
    ghost left = { λ s. Some s };

    ghost faults = { λ _. 0 };

    fn read(&mut self, buf: &mut [u8]) -> Result<usize, OutFault> {
        Ok(self.fill(buf))
    }
}

/// A sink that keeps what is written. The calls in its list fail, counted from 1, and besides only one that was
/// out of memory; each that fails counts a fault and keeps no byte.
#[derive(Drop)]
pub struct MemSink {
    bytes: Vec<u8>,
    calls: FailingCalls,
    faults: u64,
}

impl Model for MemSink {
    ghost use Rattle.farm_base.specs.MemSink.{Writer};

    ghost Value = { Writer };

    ghost view = { λ s. record { written = s.bytes.items; calls = s.calls; faults = s.faults } };
}

impl MemSink {
    /// An empty sink; the calls of these numbers fail. It takes no memory.
    pub fn new(alloc: Global, failing: Vec<u64>) -> Self
        ensures { result ≡ record { written = []; calls = none_made failing.items; faults = 0 } }
    {
        MemSink {
            bytes: Vec::new(alloc),
            calls: FailingCalls::new(failing),
            faults: 0,
        }
    }

    /// What was written.
    pub fn bytes(&self) -> &[u8]
        ensures { result.now ≡ self.now.written }
    {
        self.bytes.as_slice()
    }
}

impl Sink for MemSink {
    ghost written = { λ s. Some s.written };

    ghost faults = { λ s. s.faults };

    fn write(&mut self, piece: &[u8]) -> Result<usize, OutFault>
        requires { 0 < length piece.now }
        ensures some { IfOk result (λ n. 0 < n) }
        ensures bound { IfOk result (λ n. n ≤ length piece.now) }
        ensures bytes { WriteAdds (Some self.old.written) (Some self.new.written) result piece.now }
        ensures cause { HasCause self.old.faults self.new.faults result }
        ensures fails { Contains self.old.calls.numbers (counted self.old.calls.made) → IsErr result }
        ensures whole { IfOk result (λ n. n ≡ length piece.now) }
        ensures still { OnOk result (self.new.faults ≡ self.old.faults) }
        ensures counts { OnErr result (self.new.faults ≡ counted self.old.faults) }
        ensures calls { self.new.calls ≡ one_more self.old.calls }
    {
        if self.calls.next_fails() || self.bytes.extend_from_slice(piece).is_err() {
            self.faults = self.faults.saturating_add(1);
            return Err(OutFault::Failed);
        }
        Ok(piece.len())
    }
}

/// A sink that keeps what is written, of which no write fails. Once it was out of memory it exposes its bytes
/// no more.
#[derive(Drop)]
pub struct SureSink {
    bytes: Vec<u8>,
    whole: bool,
}

impl Model for SureSink {
    ghost use Rattle.std.specs.Prelude.{ℕ, List, Option, Some, None, if◌then◌else◌};

    ghost Value = { Option (List ℕ) };

    ghost view = { λ s. if s.whole then Some s.bytes.items else None };
}

impl SureSink {
    /// An empty sink. It takes no memory.
    pub fn new(alloc: Global) -> Self
        ensures { result ≡ Some [] }
    {
        SureSink {
            bytes: Vec::new(alloc),
            whole: true,
        }
    }

    /// What was written, if the sink still exposes it.
    pub fn bytes(&self) -> &[u8]
        ensures { IfSome self.now (λ bytes. result.now ≡ bytes) }
    {
        self.bytes.as_slice()
    }
}

impl Sink for SureSink {
    ghost written = { λ s. s };

    ghost faults = { λ _. 0 };

    fn write(&mut self, piece: &[u8]) -> Result<usize, OutFault> {
        if self.bytes.extend_from_slice(piece).is_err() {
            self.whole = false;
        }
        Ok(piece.len())
    }
}

// Takes as many of the bytes from a place on as the buffer has room for, and answers how many.
fn copy_from(bytes: &[u8], at: usize, buf: &mut [u8]) -> usize
    requires { at ≤ length bytes.now }
    ensures count { result ≡ min (length buf.old) (length bytes.now - at) }
    ensures prefix { take result buf.new ≡ take result (drop at bytes.now) }
{
    let count = buf.len().min(bytes.len() - at);
    buf[..count].copy_from_slice(&bytes[at..at + count]);
    count
}
