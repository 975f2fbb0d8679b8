// Reading all that is left, and writing all of a text.
ghost use Rattle.std.specs.Prelude.{◌≡◌, ◌≤◌, ◌<◌, ◌+◌, ◌^◌, length, IfOk, OnOk};
ghost use Rattle.wiki_model.specs.Steps.{Rose};
ghost use Rattle.farm_base.specs.Causes.{HasCause};
ghost use Rattle.farm_base.specs.Exposed.{Adds, AddsPrefix, ReadsAll};
ghost use Rattle.farm_base.specs.InputFault.{OnFailed};

use crate::{OutFault, Sink, Source};
use std::alloc::{AllocError, Global};
use std::fmt;

/// Writes all of the bytes. If a write fails, a prefix of them was written.
pub fn write_all<O: Sink>(sink: &mut O, bytes: &[u8]) -> Result<(), OutFault>
    ensures ok { OnOk result (Adds (O.written sink.old) (O.written sink.new) bytes.now) }
    ensures prefix { AddsPrefix (O.written sink.old) (O.written sink.new) bytes.now }
    ensures cause { HasCause (O.faults sink.old) (O.faults sink.new) result }
    ensures other { O.reading_half sink.new ≡ O.reading_half sink.old }
{
    let mut done = 0;
    while done < bytes.len() {
        let (_, rest) = bytes.split_at(done);
        let count = sink.write(rest)?;
        done += count;
    }
    Ok(())
}

/// Reads all that is left, or one byte more than the limit if there is as much. After an error some bytes are read
/// and lost.
pub fn read_all<I: Source>(
    alloc: Global,
    limit: usize,
    source: &mut I,
) -> Result<Vec<u8>, InputFault>
    requires { limit < 2 ^ 32 }
    ensures length { IfOk result (λ v. length v.items ≤ limit + 1) }
    ensures all { IfOk result (λ v. ReadsAll limit (I.left source.old) (I.left source.new) v.items) }
    ensures later { I.faults source.old ≤ I.faults source.new }
    ensures failed { OnFailed result (Rose (I.faults source.old) (I.faults source.new)) }
    ensures other { I.writing_half source.new ≡ I.writing_half source.old }
{
    let mut bytes = Vec::new(alloc);
    let mut buf = [0u8; 4096];
    while bytes.len() <= limit {
        let room = buf.len().min(limit + 1 - bytes.len());
        let count = source.read(&mut buf[..room])?;
        if count == 0 {
            return Ok(bytes);
        }
        let (prefix, _) = buf.split_at(count);
        bytes.extend_from_slice(prefix)?;
    }
    Ok(bytes)
}

/// Why a source was not read to its end.
#[derive(Clone, Copy, Debug, PartialEq, Eq)]
pub enum InputFault {
    /// A read failed.
    Failed,
    /// Out of memory.
    Memory,
}

impl From<OutFault> for InputFault {
    ghost use Rattle.std.specs.Prelude.{◌≡◌};
    ghost use Rattle.farm_base.specs.declared.read_write.InputFault.TheVariants.{Failed};

    ghost from_gives = { λ _ fault. fault ≡ Failed };

    fn from(_fault: OutFault) -> InputFault {
        InputFault::Failed
    }
}

impl From<AllocError> for InputFault {
    ghost use Rattle.std.specs.Prelude.{◌≡◌};
    ghost use Rattle.farm_base.specs.declared.read_write.InputFault.TheVariants.{Memory};

    ghost from_gives = { λ _ fault. fault ≡ Memory };

    fn from(_error: AllocError) -> InputFault {
        InputFault::Memory
    }
}

impl fmt::Display for InputFault {
    ghost use Rattle.std.specs.Prelude.{Some};
    ghost use Rattle.farm_base.specs.InputFault.{fault_text};

    ghost output = { λ fault. Some (fault_text fault) };

    fn fmt<W: fmt::Write>(&self, f: &mut fmt::Formatter<W>) -> fmt::Result {
        match self {
            InputFault::Failed => f.write_str("a read failed"),
            InputFault::Memory => f.write_str("out of memory"),
        }
    }
}
