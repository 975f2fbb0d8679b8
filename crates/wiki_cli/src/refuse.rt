// The lines of refusals.
ghost use Rattle.std.specs.Prelude.{◌≡◌, ◌⊎◌, ◌≤◌, IfOk, string_bytes};
ghost use Rattle.wiki_model.specs.Steps.{Rose};
ghost use Rattle.farm_base.specs.Exposed.{Stays};
ghost use Rattle.wiki_cli.specs.Command.{script_line, not_empty_line};
ghost use Rattle.wiki_cli.specs.Ends.{IsWritten, Says};
ghost use Rattle.wiki_cli.specs.declared.status.Status.TheVariants.{Script, NotEmpty, Memory};

use crate::Status;
use farm_base::{Sink, write_all};
use std::alloc::{AllocError, Global};

/// Writes the line of a refusal, as far as the sink takes it.
pub fn refuse<O: Sink>(sink: &mut O, text: &[u8], status: Status) -> Status
    ensures status { result ≡ status }
    ensures written { IsWritten (Rose (O.faults sink.old) (O.faults sink.new))
        (O.written sink.old) (O.written sink.new) text.now }
    ensures later { O.faults sink.old ≤ O.faults sink.new }
{
    match write_all(sink, text) {
        Ok(()) => status,
        Err(_) => status,
    }
}

/// Refuses a script by its first faulty line.
pub fn refuse_line<O: Sink>(alloc: Global, sink: &mut O, line: u64) -> Status
    ensures status { (result ≡ Script line) ⊎ (result ≡ Memory) }
    ensures says { Says (Rose (O.faults sink.old) (O.faults sink.new))
        (O.written sink.old) (O.written sink.new) result }
    ensures memory { result ≡ Memory → Stays (O.written sink.old) (O.written sink.new) }
{
    match script_line(alloc, line) {
        Ok(text) => refuse(sink, text.as_bytes(), Status::Script { line }),
        Err(_) => Status::Memory,
    }
}

/// Refuses to run a script on a history that has entries.
pub fn refuse_not_empty<O: Sink>(alloc: Global, sink: &mut O, entries: u64) -> Status
    ensures status { (result ≡ NotEmpty entries) ⊎ (result ≡ Memory) }
    ensures says { Says (Rose (O.faults sink.old) (O.faults sink.new))
        (O.written sink.old) (O.written sink.new) result }
{
    match not_empty_line(alloc, entries) {
        Ok(text) => refuse(sink, text.as_bytes(), Status::NotEmpty { entries }),
        Err(_) => Status::Memory,
    }
}

fn script_line(alloc: Global, line: u64) -> Result<String, AllocError>
    ensures { IfOk result (λ s. string_bytes s ≡ script_line line) }
{
    format!(in alloc; "script line={line}\n")
}

fn not_empty_line(alloc: Global, entries: u64) -> Result<String, AllocError>
    ensures { IfOk result (λ s. string_bytes s ≡ not_empty_line entries) }
{
    format!(in alloc; "not-empty entries={entries}\n")
}
