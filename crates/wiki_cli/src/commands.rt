// The commands, over a keeper of the history: what each reads, runs and writes.
ghost use Rattle.std.specs.Prelude.{◌≡◌, ◌≤◌, ◌<◌, ◌+◌, [], Some, ℕ, List, IfSome, length};
ghost use Rattle.std.specs.Io.KnownBytes.{IsAtEnd};
ghost use Rattle.wiki_model.specs.Steps.{Rose};
ghost use Rattle.wiki_model.specs.Limits.{script_max, seed_limit, steps_max};
ghost use Rattle.wiki_model.specs.Script.{Line, IsScript};
ghost use Rattle.revision_keeper.specs.Causes.{HasFault};
ghost use Rattle.revision_keeper.specs.Keeper.{IsLength};
ghost use Rattle.wiki_serve.specs.Connections.{conn_seen};
ghost use Rattle.wiki_serve.specs.Exchanges.{heard_seen};
ghost use Rattle.wiki_host.specs.Visits.{door_seen};
ghost use Rattle.wiki_host.specs.Opening.{keeper_seen};
ghost use Rattle.wiki_host.specs.Hosting.{host_seen};
ghost use Rattle.wiki_cli.specs.Serving.{Serves};
ghost use Rattle.wiki_cli.specs.Ends.{Says, Drills, Stirs, IsRefusedBy, IsNotEmpty, HasRisen};
ghost use Rattle.wiki_cli.specs.RunFarm.{kept_by, IsRunEnd};
ghost use Rattle.wiki_cli.specs.Commands.{IsAllowed, IsDrillEnd, IsSourceEnd, IsScriptEnd, IsCommandEnd, CountsEntries, CountsScript};
ghost use Rattle.wiki_cli.specs.declared.command.Command.TheVariants.{Script, Serve};
ghost use Rattle.wiki_cli.specs.declared.command.ScriptCommand.TheVariants.{Drill, Stir};
ghost use Rattle.wiki_cli.specs.declared.status.Status.TheVariants.{Ok as Done, ReadFault, DoorFault};

use crate::Status;
use crate::command::{Command, ScriptCommand};
use crate::outside::Outside;
use crate::refuse::{refuse, refuse_line, refuse_not_empty};
use crate::run_farm::{Ended, STORE_FAULT};
use crate::run_script::{drill_on, stir_on};
use crate::script_farm::new_caches;
use crate::serve_wiki::serve_wiki;
use drill_script::{SCRIPT_MAX, ScriptFault, read_script};
use farm_base::{Clock, Door, InputFault, Lots, Memory, Sink, Source, read_all};
use purge_relay::Wire;
use revision_keeper::{KeepFault, Keeper};
use script_generator::stir;
use std::alloc::Global;
use std::thread::Threads;

/// Runs the script of these bytes, and writes its report or its refusal.
pub fn drill_bytes<K: Keeper + Drop, O: Sink>(
    alloc: Global,
    bytes: &[u8],
    keeper: K,
    sink: &mut O,
) -> Ended<K>
    ensures drills { K.content keeper ≡ Some [] → Drills bytes.now
        (K.faults keeper) (kept_by K.content K.faults result.keeper)
        (Rose (O.faults sink.old) (O.faults sink.new)) (O.written sink.old) (O.written sink.new) result.status }
    ensures refused { IsRefusedBy bytes.now result.status }
    ensures short { result.status ≡ Done → length bytes.now ≤ script_max }
    ensures says { Says (Rose (O.faults sink.old) (O.faults sink.new))
        (O.written sink.old) (O.written sink.new) result.status }
    ensures end { IsDrillEnd result.status }
    ensures cause { HasRisen (Rose (O.faults sink.old) (O.faults sink.new))
        (Rose (K.faults keeper) (K.faults result.keeper)) result.status }
{
    match read_script(alloc, bytes) {
        Ok(script) => match new_caches(alloc, &script.plan) {
            Ok(caches) => drill_on(alloc, keeper, script, caches, sink),
            Err(Memory) => Ended {
                status: Status::Memory,
                keeper,
            },
        },
        Err(ScriptFault::Line { line }) => Ended {
            status: refuse_line(alloc, sink, line),
            keeper,
        },
        Err(ScriptFault::Memory) => Ended {
            status: Status::Memory,
            keeper,
        },
    }
}

/// Makes a script from a seed and a number of steps, runs it, and writes the counts of its answers.
pub fn stir_keeper<K: Keeper + Drop, O: Sink>(
    alloc: Global,
    seed: u64,
    steps: u32,
    keeper: K,
    sink: &mut O,
) -> Ended<K>
    requires seed { seed < seed_limit }
    requires steps { steps ≤ steps_max }
    ensures stirs { K.content keeper ≡ Some [] → Stirs seed steps
        (K.faults keeper) (kept_by K.content K.faults result.keeper)
        (Rose (O.faults sink.old) (O.faults sink.new)) (O.written sink.old) (O.written sink.new) result.status }
    ensures end { IsRunEnd result.status }
    ensures cause { HasRisen (Rose (O.faults sink.old) (O.faults sink.new))
        (Rose (K.faults keeper) (K.faults result.keeper)) result.status }
{
    let Ok(bytes) = stir(alloc, seed, steps) else {
        return Ended {
            status: Status::Memory,
            keeper,
        };
    };
    stir_bytes(alloc, &bytes, steps, keeper, sink)
}

/// The same over the bytes that were made. They are a script, so a line is never refused.
fn stir_bytes<K: Keeper + Drop, O: Sink>(
    alloc: Global,
    bytes: &[u8],
    steps: u32,
    keeper: K,
    sink: &mut O,
) -> Ended<K>
    requires script { (lines : List Line) × IsScript lines bytes.now }
    ensures stirs { K.content keeper ≡ Some [] → CountsScript bytes.now steps
        (K.faults keeper) (kept_by K.content K.faults result.keeper)
        (Rose (O.faults sink.old) (O.faults sink.new)) (O.written sink.old) (O.written sink.new) result.status }
    ensures end { IsRunEnd result.status }
    ensures cause { HasRisen (Rose (O.faults sink.old) (O.faults sink.new))
        (Rose (K.faults keeper) (K.faults result.keeper)) result.status }
{
    match read_script(alloc, bytes) {
        Ok(script) => match new_caches(alloc, &script.plan) {
            Ok(caches) => stir_on(alloc, keeper, script, caches, steps, sink),
            Err(Memory) => Ended {
                status: Status::Memory,
                keeper,
            },
        },
        Err(_) => Ended {
            status: Status::Memory,
            keeper,
        },
    }
}

/// Reads a script from the source, runs it, and writes its report or its refusal.
pub fn drill_source<I: Source, K: Keeper + Drop, O: Sink>(
    alloc: Global,
    source: &mut I,
    keeper: K,
    sink: &mut O,
) -> Ended<K>
    ensures drills { IfSome (I.left source.old) (λ input. K.content keeper ≡ Some [] → Drills input
        (K.faults keeper) (kept_by K.content K.faults result.keeper)
        (Rose (O.faults sink.old) (O.faults sink.new)) (O.written sink.old) (O.written sink.new) result.status) }
    ensures refused { IfSome (I.left source.old) (λ input. IsRefusedBy input result.status) }
    ensures says { Says (Rose (O.faults sink.old) (O.faults sink.new))
        (O.written sink.old) (O.written sink.new) result.status }
    ensures end { IsSourceEnd result.status }
    ensures read { result.status ≡ ReadFault → Rose (I.faults source.old) (I.faults source.new) }
    ensures read_out { result.status ≡ Done → IsAtEnd (I.left source.new) }
    ensures cause { HasRisen (Rose (O.faults sink.old) (O.faults sink.new))
        (Rose (K.faults keeper) (K.faults result.keeper)) result.status }
{
    match read_all(alloc, SCRIPT_MAX, source) {
        Ok(bytes) => drill_bytes(alloc, &bytes, keeper, sink),
        Err(InputFault::Failed) => Ended {
            status: refuse(sink, b"read-fault\n", Status::ReadFault),
            keeper,
        },
        Err(InputFault::Memory) => Ended {
            status: Status::Memory,
            keeper,
        },
    }
}

/// Does what a command says. A script is run if the history has no entries yet; a wiki is served over any history.
pub fn perform<R, I, O, D, K, C, L, W>(
    rt: &R,
    alloc: Global,
    command: Command,
    outside: &mut Outside<I, O, D, K, C, L, W>,
    keeper: K,
) -> Ended<K>
where
    R: Threads + Sync,
    I: Source + Drop,
    O: Sink + Drop,
    D: Door + Drop,
    K: Keeper + Drop,
    C: Clock + Drop,
    L: Lots + Drop,
    W: Wire + Drop,
    requires command { (script : _) → command ≡ Script script → IsAllowed script }
    ensures drills { command ≡ Script Drill → IfSome (I.left outside.old.source) (λ input. K.content keeper ≡ Some []
        → Drills input (K.faults keeper) (kept_by K.content K.faults result.keeper)
        (Rose (O.faults outside.old.sink) (O.faults outside.new.sink))
        (O.written outside.old.sink) (O.written outside.new.sink) result.status) }
    ensures refused { IfSome (I.left outside.old.source) (λ input. IsRefusedBy input result.status) }
    ensures stirs { (seed steps : ℕ) → command ≡ Script (Stir seed steps) → K.content keeper ≡ Some []
        → Stirs seed steps (K.faults keeper) (kept_by K.content K.faults result.keeper)
        (Rose (O.faults outside.old.sink) (O.faults outside.new.sink))
        (O.written outside.old.sink) (O.written outside.new.sink) result.status }
    ensures serves { (wanted : ℕ) → command ≡ Serve wanted → IfSome (I.left outside.old.source) (λ layout. Serves
        (λ conn. conn_seen (D.C.peer conn) (D.C.left conn) (D.C.written conn) (D.C.Source.faults conn)
        (D.C.Sink.faults conn))
        wanted layout
        (host_seen
        (door_seen (D.offered outside.old.door) (D.faults outside.old.door) (D.nones outside.old.door))
        (heard_seen (C.exposed outside.old.clock) (L.exposed outside.old.lots) (W.carried outside.old.wire)
        (W.refused outside.old.wire) (W.empty outside.old.wire))
        (keeper_seen (K.content keeper) (K.faults keeper)))
        (host_seen
        (door_seen (D.offered outside.new.door) (D.faults outside.new.door) (D.nones outside.new.door))
        (heard_seen (C.exposed outside.new.clock) (L.exposed outside.new.lots) (W.carried outside.new.wire)
        (W.refused outside.new.wire) (W.empty outside.new.wire))
        (keeper_seen (K.content result.keeper) (K.faults result.keeper)))
        (Rose (O.faults outside.old.sink) (O.faults outside.new.sink))
        (O.written outside.old.sink) (O.written outside.new.sink) result.status) }
    ensures not_empty { (script : _) → command ≡ Script script
        → IfSome (K.content keeper) (λ history. IsNotEmpty history result.status) }
    ensures entries { IfSome (K.content keeper) (λ history. CountsEntries history result.status) }
    ensures says { Says (Rose (O.faults outside.old.sink) (O.faults outside.new.sink))
        (O.written outside.old.sink) (O.written outside.new.sink) result.status }
    ensures end { IsCommandEnd command result.status }
    ensures read { result.status ≡ ReadFault → Rose (I.faults outside.old.source) (I.faults outside.new.source) }
    ensures read_out { command ≡ Script Drill → result.status ≡ Done → IsAtEnd (I.left outside.new.source) }
    ensures door { result.status ≡ DoorFault → Rose (D.faults outside.old.door) (D.faults outside.new.door) }
    ensures cause { HasRisen (Rose (O.faults outside.old.sink) (O.faults outside.new.sink))
        (Rose (K.faults keeper) (K.faults result.keeper)) result.status }
{
    match command {
        Command::Script(script) => perform_script(
            alloc,
            script,
            &mut outside.source,
            keeper,
            &mut outside.sink,
        ),
        Command::Serve { connections } => serve_wiki(rt, alloc, outside, keeper, connections),
    }
}

/// Runs a script, if the history has no entries yet.
fn perform_script<I: Source, K: Keeper + Drop, O: Sink>(
    alloc: Global,
    command: ScriptCommand,
    source: &mut I,
    keeper: K,
    sink: &mut O,
) -> Ended<K>
    requires command { IsAllowed command }
    ensures drills { command ≡ Drill → IfSome (I.left source.old) (λ input. K.content keeper ≡ Some [] → Drills input
        (K.faults keeper) (kept_by K.content K.faults result.keeper)
        (Rose (O.faults sink.old) (O.faults sink.new)) (O.written sink.old) (O.written sink.new) result.status) }
    ensures refused { IfSome (I.left source.old) (λ input. IsRefusedBy input result.status) }
    ensures stirs { (seed steps : ℕ) → command ≡ Stir seed steps → K.content keeper ≡ Some [] → Stirs seed steps
        (K.faults keeper) (kept_by K.content K.faults result.keeper)
        (Rose (O.faults sink.old) (O.faults sink.new)) (O.written sink.old) (O.written sink.new) result.status }
    ensures not_empty { IfSome (K.content keeper) (λ history. IsNotEmpty history result.status) }
    ensures entries { IfSome (K.content keeper) (λ history. CountsEntries history result.status) }
    ensures says { Says (Rose (O.faults sink.old) (O.faults sink.new))
        (O.written sink.old) (O.written sink.new) result.status }
    ensures end { IsScriptEnd result.status }
    ensures read { result.status ≡ ReadFault → Rose (I.faults source.old) (I.faults source.new) }
    ensures read_out { command ≡ Drill → result.status ≡ Done → IsAtEnd (I.left source.new) }
    ensures cause { HasRisen (Rose (O.faults sink.old) (O.faults sink.new))
        (Rose (K.faults keeper) (K.faults result.keeper)) result.status }
{
    let mut keeper = keeper;
    match entries_of(&mut keeper) {
        Ok(0) => perform_on_empty(alloc, command, source, keeper, sink),
        Ok(entries) => Ended {
            status: refuse_not_empty(alloc, sink, entries),
            keeper,
        },
        Err(KeepFault::Fault) => Ended {
            status: refuse(sink, STORE_FAULT, Status::StoreFault),
            keeper,
        },
        Err(KeepFault::Memory) => Ended {
            status: Status::Memory,
            keeper,
        },
    }
}

/// How many entries the history has. The keeper is made ready first.
fn entries_of<K: Keeper>(keeper: &mut K) -> Result<u64, KeepFault>
    ensures value { IsLength (K.content keeper.old) result }
    ensures content { K.content keeper.new ≡ K.content keeper.old }
    ensures cause { HasFault (K.faults keeper.old) (K.faults keeper.new) result }
{
    keeper.start()?;
    keeper.len()
}

fn perform_on_empty<I: Source, K: Keeper + Drop, O: Sink>(
    alloc: Global,
    command: ScriptCommand,
    source: &mut I,
    keeper: K,
    sink: &mut O,
) -> Ended<K>
    requires command { IsAllowed command }
    ensures drills { command ≡ Drill → IfSome (I.left source.old) (λ input. K.content keeper ≡ Some [] → Drills input
        (K.faults keeper) (kept_by K.content K.faults result.keeper)
        (Rose (O.faults sink.old) (O.faults sink.new)) (O.written sink.old) (O.written sink.new) result.status) }
    ensures refused { IfSome (I.left source.old) (λ input. IsRefusedBy input result.status) }
    ensures stirs { (seed steps : ℕ) → command ≡ Stir seed steps → K.content keeper ≡ Some [] → Stirs seed steps
        (K.faults keeper) (kept_by K.content K.faults result.keeper)
        (Rose (O.faults sink.old) (O.faults sink.new)) (O.written sink.old) (O.written sink.new) result.status }
    ensures says { Says (Rose (O.faults sink.old) (O.faults sink.new))
        (O.written sink.old) (O.written sink.new) result.status }
    ensures end { IsSourceEnd result.status }
    ensures read { result.status ≡ ReadFault → Rose (I.faults source.old) (I.faults source.new) }
    ensures read_out { command ≡ Drill → result.status ≡ Done → IsAtEnd (I.left source.new) }
    ensures cause { HasRisen (Rose (O.faults sink.old) (O.faults sink.new))
        (Rose (K.faults keeper) (K.faults result.keeper)) result.status }
{
    match command {
        ScriptCommand::Drill => drill_source(alloc, source, keeper, sink),
        ScriptCommand::Stir { seed, steps } => stir_keeper(alloc, seed, steps, keeper, sink),
    }
}
