// A connection that moves a few bytes in each call, and a door that gives such connections and keeps those handed back.
ghost use Rattle.std.specs.Prelude.{◌≡◌, ◌<◌, ◌≤◌, min, length, Some, IfOk, OnOk, OnErr, IsErr, Contains, ◌↔◌, [], if◌then◌else◌, option_map};
ghost use Rattle.std.specs.Io.{ReadsAtMost};
ghost use Rattle.std.specs.Io.KnownBytes.{ReadConsumes};
ghost use Rattle.std.specs.String.{string_bytes};
ghost use Rattle.farm_base.specs.Causes.{HasCause, counted};
ghost use Rattle.farm_base.specs.Exposed.{WriteAdds};
ghost use Rattle.farm_base.specs.FailingCalls.{none_made, one_more};
ghost use Rattle.farm_base.specs.MemConn.{Talker, reading_half_of, writing_half_of, with_input, with_output, with_place};
ghost use Rattle.farm_base.specs.MemDoor.{Doorway, from_place, unused_door};
ghost use Rattle.farm_base.specs.Offered.{GivesNext, TakesBack, is_none_left};

use crate::{Conn, Door, FailingCalls, ListedText, MemSink, MemSource, OutFault, Sink, Source};
use std::alloc::Global;
use std::marker::Model;

/// A connection over bytes, which keeps what is written. Each call moves as many bytes as it can, up to a number. The
/// reads and writes in its lists fail, counted from 1, and besides only a write that was out of memory.
#[derive(Drop)]
pub struct MemConn {
    input: MemSource,
    output: MemSink,
    peer: ListedText,
    piece: usize,
    place: usize,
}

impl Model for MemConn {
    ghost use Rattle.std.specs.Prelude.{◌<◌};
    ghost use Rattle.farm_base.specs.MemConn.{Talker};

    ghost Value = { Talker };

    ghost view = { λ c. record {
      input = c.input;
      output = c.output;
      peer = c.peer;
      piece = c.piece;
      place = c.place;
    } };

    ghost invariant = { λ c. 0 < c.piece };
}

impl MemConn {
    /// A connection over this input; a call moves at most `piece` bytes, and the reads and the writes of these
    /// numbers fail. It takes no memory.
    pub fn new(
        alloc: Global,
        input: Vec<u8>,
        peer: String,
        piece: usize,
        reads: Vec<u64>,
        writes: Vec<u64>,
    ) -> Self
        requires { 0 < piece }
        ensures { result ≡ record {
          input = record { left = input.items; calls = none_made reads.items; faults = 0 };
          output = record { written = []; calls = none_made writes.items; faults = 0 };
          peer = string_bytes peer;
          piece = piece;
          place = 0;
        } }
    {
        MemConn {
            input: MemSource::new(input, reads),
            output: MemSink::new(alloc, writes),
            peer: ListedText::new(peer),
            piece,
            place: 0,
        }
    }

    /// What was written.
    pub fn written(&self) -> &[u8]
        ensures { result.now ≡ self.now.output.written }
    {
        self.output.bytes()
    }

    // The connection, with its place in the door that gives it.
    fn at_place(self, place: usize) -> Self
        ensures { result ≡ with_place place self }
    {
        MemConn {
            input: self.input,
            output: self.output,
            peer: self.peer,
            piece: self.piece,
            place,
        }
    }
}

impl Source for MemConn {
    ghost left = { λ c. Some c.input.left };

    ghost faults = { λ c. c.input.faults };

    ghost writing_half = { writing_half_of };

    fn read(&mut self, buf: &mut [u8]) -> Result<usize, OutFault>
        requires { 0 < length buf.old }
        ensures bound { ReadsAtMost result buf.new }
        ensures bytes { ReadConsumes (Some self.old.input.left) (Some self.new.input.left) result buf.new }
        ensures cause { HasCause self.old.input.faults self.new.input.faults result }
        ensures fails { IsErr result ↔ Contains self.old.input.calls.numbers (counted self.old.input.calls.made) }
        ensures most { IfOk result (λ n. n ≡ min (min (length buf.old) self.old.piece) (length self.old.input.left)) }
        ensures still { OnOk result (self.new.input.faults ≡ self.old.input.faults) }
        ensures counts { OnErr result (self.new.input.faults ≡ counted self.old.input.faults) }
        ensures calls { self.new.input.calls ≡ one_more self.old.input.calls }
        ensures rest { self.new ≡ with_input self.new.input self.old }
    {
        let room = buf.len().min(self.piece);
        self.input.read(&mut buf[..room])
    }
}

impl Sink for MemConn {
    ghost written = { λ c. Some c.output.written };

    ghost faults = { λ c. c.output.faults };

    ghost reading_half = { reading_half_of };

    fn write(&mut self, piece: &[u8]) -> Result<usize, OutFault>
        requires { 0 < length piece.now }
        ensures some { IfOk result (λ n. 0 < n) }
        ensures bound { IfOk result (λ n. n ≤ length piece.now) }
        ensures bytes { WriteAdds (Some self.old.output.written) (Some self.new.output.written) result piece.now }
        ensures cause { HasCause self.old.output.faults self.new.output.faults result }
        ensures fails { Contains self.old.output.calls.numbers (counted self.old.output.calls.made) → IsErr result }
        ensures most { IfOk result (λ n. n ≡ min (length piece.now) self.old.piece) }
        ensures still { OnOk result (self.new.output.faults ≡ self.old.output.faults) }
        ensures counts { OnErr result (self.new.output.faults ≡ counted self.old.output.faults) }
        ensures calls { self.new.output.calls ≡ one_more self.old.output.calls }
        ensures rest { self.new ≡ with_output self.new.output self.old }
    {
        let room = piece.len().min(self.piece);
        self.output.write(&piece[..room])
    }
}

impl Conn for MemConn {
    ghost peer = { λ c. c.peer };

    fn peer(&self) -> &str {
        self.peer.as_str()
    }

    /// A write of the first piece.
    fn write_two(&mut self, first: &[u8], second: &[u8]) -> Result<usize, OutFault> {
        let _ = second;
        self.write(first)
    }

    fn shows_halves(&self) {}
}

/// A door over connections, which it gives in their order, each with its place; it keeps those handed back. The calls
/// of `next` in its list fail, counted from 1, and no others.
#[derive(Drop)]
pub struct MemDoor {
    // Those that are left, and then those handed back. There is room for each that is out, so none is refused.
    conns: Vec<MemConn>,
    left: usize,
    out: usize,
    total: usize,
    calls: FailingCalls,
    faults: u64,
    nones: u64,
}

impl Model for MemDoor {
    ghost use Rattle.std.specs.Prelude.{◌-◌, take, drop};
    ghost use Rattle.std.specs.Vec.{vec_len, vec_capacity};
    ghost use Rattle.farm_base.specs.MemDoor.{Doorway, HasRoom, numbered};

    ghost Value = { Doorway };

    ghost view = { λ d. record {
      offered = record {
        left = numbered (d.total - d.left) (take d.left d.conns.items);
        out = d.out;
        returned = drop d.left d.conns.items;
      };
      calls = d.calls;
      faults = d.faults;
      nones = d.nones;
    } };

    ghost invariant = { λ d. HasRoom d.left (vec_len d.conns) d.out d.total (vec_capacity d.conns) };
}

impl MemDoor {
    /// A door over these connections; the calls of `next` of these numbers fail. It takes no memory.
    pub fn new(conns: Vec<MemConn>, failing: Vec<u64>) -> Self
        ensures { result ≡ unused_door conns.items (none_made failing.items) }
    {
        let total = conns.len();
        MemDoor {
            conns,
            left: total,
            out: 0,
            total,
            calls: FailingCalls::new(failing),
            faults: 0,
            nones: 0,
        }
    }

    /// The connection of this place, counted from 0, once it was handed back. Linear in those handed back.
    pub fn returned(&self, index: usize) -> Option<&MemConn>
        ensures { option_map (λ conn. conn.now) result ≡ from_place index self.now.offered.returned }
    {
        let (_, returned) = self.conns.as_slice().split_at(self.left);
        from_place(returned, index)
    }
}

impl Door for MemDoor {
    type C = MemConn;

    ghost offered = { λ d. Some d.offered };

    ghost faults = { λ d. d.faults };

    ghost nones = { λ d. d.nones };

    fn next(&mut self) -> Result<Option<MemConn>, OutFault>
        ensures conns { GivesNext (Some self.old.offered) (Some self.new.offered) result }
        ensures nones { self.new.nones ≡ (if is_none_left result then counted self.old.nones else self.old.nones) }
        ensures cause { HasCause self.old.faults self.new.faults result }
        ensures fails { IsErr result ↔ Contains self.old.calls.numbers (counted self.old.calls.made) }
        ensures still { OnOk result (self.new.faults ≡ self.old.faults) }
        ensures counts { OnErr result (self.new.faults ≡ counted self.old.faults) }
        ensures calls { self.new.calls ≡ one_more self.old.calls }
    {
        if self.calls.next_fails() {
            self.faults = self.faults.saturating_add(1);
            return Err(OutFault::Failed);
        }
        if self.left == 0 {
            self.nones = self.nones.saturating_add(1);
            return Ok(None);
        }
        let place = self.total - self.left;
        let conn = self.conns.remove(0);
        self.left -= 1;
        self.out += 1;
        Ok(Some(conn.at_place(place)))
    }

    /// Takes back a connection. One from elsewhere is dropped if all that were given are back.
    fn done(&mut self, conn: MemConn)
        ensures conns { TakesBack (Some self.old.offered) (Some self.new.offered) conn }
        ensures nones { self.new.nones ≡ self.old.nones }
        ensures faults { self.new.faults ≡ self.old.faults }
        ensures calls { self.new.calls ≡ self.old.calls }
    {
        if 0 < self.out {
            self.out -= 1;
            // There is room for it, so it is not refused.
            let _ = self.conns.push(conn);
        }
    }
}

// The connection that was given from this place.
fn from_place(conns: &[MemConn], place: usize) -> Option<&MemConn>
    ensures { option_map (λ conn. conn.now) result ≡ from_place place conns.now }
{
    for conn in conns {
        if conn.place == place {
            return Some(conn);
        }
    }
    None
}
