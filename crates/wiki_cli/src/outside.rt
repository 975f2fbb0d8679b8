// The top call.
ghost use Rattle.std.specs.Prelude.{◌≡◌, ◌⊎◌, ◌↔◌, ℕ, [], List, Some, IsSome, IfSome};
ghost use Rattle.std.specs.Io.KnownBytes.{IsAtEnd};
ghost use Rattle.wiki_model.specs.Steps.{Rose};
ghost use Rattle.wiki_model.specs.Script.{Line, IsScript};
ghost use Rattle.wiki_serve.specs.Connections.{conn_seen};
ghost use Rattle.wiki_serve.specs.Exchanges.{heard_seen};
ghost use Rattle.wiki_host.specs.Visits.{door_seen};
ghost use Rattle.wiki_host.specs.Opening.{keeper_seen};
ghost use Rattle.wiki_host.specs.Hosting.{host_seen};
ghost use Rattle.wiki_cli.specs.Command.{AreWordsOf, AreServeWords, AreScriptWords, AreNoCommand};
ghost use Rattle.wiki_cli.specs.Serving.{Serves, IsLayout};
ghost use Rattle.wiki_cli.specs.Ends.{Says, Drills, Stirs, IsRefusedBy, IsNotEmpty, HasRisen, IsExposed};
ghost use Rattle.wiki_cli.specs.RunFarm.{kept_by};
ghost use Rattle.wiki_cli.specs.Commands.{CountsEntries, OfKeepers};
ghost use Rattle.wiki_cli.specs.declared.command.ScriptCommand.TheVariants.{Drill, Stir};
ghost use Rattle.wiki_cli.specs.declared.status.Status.TheVariants.{Ok as Done, Usage, ReadFault, DoorFault, Memory as OutOfMemory};

use crate::Status;
use crate::command::{USAGE, read_command};
use crate::commands::perform;
use crate::refuse::refuse;
use farm_base::{Clock, Door, Lots, Sink, Source};
use purge_relay::Wire;
use revision_keeper::Keeper;
use std::alloc::Global;
use std::thread::Threads;

/// All that lies outside the program: where a script or a layout comes from and where a report goes, where
/// connections come from, the history, the clocks, random words, and the wire between the regions.
#[derive(Drop)]
pub struct Outside<I: Drop, O: Drop, D: Drop, K: Drop, C: Drop, L: Drop, W: Drop> {
    /// Where a script or a layout comes from.
    pub source: I,
    /// Where a report goes.
    pub sink: O,
    /// Where connections come from.
    pub door: D,
    /// The keeper of the history. It is there at each call, and is given back.
    pub keeper: Option<K>,
    /// The clocks of both regions.
    pub clock: C,
    /// Random words.
    pub lots: L,
    /// What carries messages to west.
    pub wire: W,
}

/// All that the program does.
///
/// With the word `drill` the whole script is read first; then all its steps are made from an empty history, and the
/// report is written as the answers come. If a write fails nothing more is written, and the steps are made all the
/// same. With `stir SEED STEPS` the script is made instead of read, and what is written is one line with the counts
/// of its answers. With `serve` a layout is read, and the door's connections are served on a wiki of it, over the
/// keeper's history; what is written is one line with their number.
///
/// Nothing is said of when memory runs out.
pub fn run<R, I, O, D, K, C, L, W>(
    rt: &R,
    alloc: Global,
    words: &[String],
    outside: &mut Outside<I, O, D, K, C, L, W>,
) -> Status
where
    R: Threads + Sync,
    I: Source + Drop,
    O: Sink + Drop,
    D: Door + Drop,
    K: Keeper + Drop,
    C: Clock + Drop,
    L: Lots + Drop,
    W: Wire + Drop,
    requires keeper { IsSome outside.old.keeper }
    // The keeper is given back.
    ensures keeper { IsSome outside.new.keeper }

    // The words are refused exactly if they are no command.
    ensures words { (result ≡ Usage) ↔ AreNoCommand words.now }

    // A refusal writes its own line, or a prefix of it if a write failed.
    ensures says { Says (Rose (O.faults outside.old.sink) (O.faults outside.new.sink))
        (O.written outside.old.sink) (O.written outside.new.sink) result }

    // A script is refused by its first line outside the grammar.
    ensures script { IfSome (I.left outside.old.source) (λ input. IsRefusedBy input result) }

    // The bytes read are a script, and what is written is the report of a run of its steps from an empty history, or a
    // prefix of it if a write failed or memory ran out.
    ensures drill { AreWordsOf Drill words.now → IfSome (I.left outside.old.source) (λ input.
        OfKeepers outside.old.keeper outside.new.keeper (λ before after. K.content before ≡ Some []
        → Drills input (K.faults before) (kept_by K.content K.faults after)
        (Rose (O.faults outside.old.sink) (O.faults outside.new.sink))
        (O.written outside.old.sink) (O.written outside.new.sink) result)) }

    // What is written counts the answers of a run of the script that the numbers make.
    ensures stir { (seed steps : ℕ) → AreWordsOf (Stir seed steps) words.now
        → OfKeepers outside.old.keeper outside.new.keeper (λ before after. K.content before ≡ Some []
        → Stirs seed steps (K.faults before) (kept_by K.content K.faults after)
        (Rose (O.faults outside.old.sink) (O.faults outside.new.sink))
        (O.written outside.old.sink) (O.written outside.new.sink) result) }

    // The bytes read are a layout, the door's connections were served one after another on a wiki of it, and their
    // number is written; or why there were none.
    ensures serve { (wanted : ℕ) → AreServeWords wanted words.now → IfSome (I.left outside.old.source) (λ layout.
        OfKeepers outside.old.keeper outside.new.keeper (λ before after. Serves
        (λ conn. conn_seen (D.C.peer conn) (D.C.left conn) (D.C.written conn) (D.C.Source.faults conn)
        (D.C.Sink.faults conn))
        wanted layout
        (host_seen
        (door_seen (D.offered outside.old.door) (D.faults outside.old.door) (D.nones outside.old.door))
        (heard_seen (C.exposed outside.old.clock) (L.exposed outside.old.lots) (W.carried outside.old.wire)
        (W.refused outside.old.wire) (W.empty outside.old.wire))
        (keeper_seen (K.content before) (K.faults before)))
        (host_seen
        (door_seen (D.offered outside.new.door) (D.faults outside.new.door) (D.nones outside.new.door))
        (heard_seen (C.exposed outside.new.clock) (L.exposed outside.new.lots) (W.carried outside.new.wire)
        (W.refused outside.new.wire) (W.empty outside.new.wire))
        (keeper_seen (K.content after) (K.faults after)))
        (Rose (O.faults outside.old.sink) (O.faults outside.new.sink))
        (O.written outside.old.sink) (O.written outside.new.sink) result)) }

    // No script is run on a history that has entries.
    ensures not_empty { AreScriptWords words.now → OfKeepers outside.old.keeper outside.new.keeper (λ before after.
        IfSome (K.content before) (λ history. IsNotEmpty history result)) }
    ensures entries { OfKeepers outside.old.keeper outside.new.keeper (λ before after.
        IfSome (K.content before) (λ history. CountsEntries history result)) }

    // A fault is named only if its count rose.
    ensures read { result ≡ ReadFault → Rose (I.faults outside.old.source) (I.faults outside.new.source) }
    ensures cause { OfKeepers outside.old.keeper outside.new.keeper (λ before after.
        HasRisen (Rose (O.faults outside.old.sink) (O.faults outside.new.sink))
        (Rose (K.faults before) (K.faults after)) result) }

    ensures door { result ≡ DoorFault → Rose (D.faults outside.old.door) (D.faults outside.new.door) }

    // A script that was run was read to its end.
    ensures read_out { AreWordsOf Drill words.now → result ≡ Done → IsAtEnd (I.left outside.new.source) }

    // If nothing fails, a script is run on an empty history and its report written, unless memory runs out.
    ensures complete_drill { AreWordsOf Drill words.now
        → IsExposed (I.left outside.old.source) (λ input. (lines : List Line) × IsScript lines input)
        → OfKeepers outside.old.keeper outside.new.keeper (λ before after.
        (K.content before ≡ Some []) × (Rose (K.faults before) (K.faults after) → ⊥))
        → (Rose (I.faults outside.old.source) (I.faults outside.new.source) → ⊥)
        → (Rose (O.faults outside.old.sink) (O.faults outside.new.sink) → ⊥)
        → (result ≡ Done) ⊎ (result ≡ OutOfMemory) }

    // So is a script that is made.
    ensures complete_stir { (seed steps : ℕ) → AreWordsOf (Stir seed steps) words.now
        → OfKeepers outside.old.keeper outside.new.keeper (λ before after.
        (K.content before ≡ Some []) × (Rose (K.faults before) (K.faults after) → ⊥))
        → (Rose (O.faults outside.old.sink) (O.faults outside.new.sink) → ⊥)
        → (result ≡ Done) ⊎ (result ≡ OutOfMemory) }

    // So is a wiki of a layout served, if there is one.
    ensures complete_serve { (wanted : ℕ) → AreServeWords wanted words.now
        → IsExposed (I.left outside.old.source) IsLayout
        → OfKeepers outside.old.keeper outside.new.keeper (λ before after. Rose (K.faults before) (K.faults after) → ⊥)
        → (Rose (I.faults outside.old.source) (I.faults outside.new.source) → ⊥)
        → (Rose (O.faults outside.old.sink) (O.faults outside.new.sink) → ⊥)
        → (Rose (D.faults outside.old.door) (D.faults outside.new.door) → ⊥)
        → (result ≡ Done) ⊎ (result ≡ OutOfMemory) }
{
    let Some(command) = read_command(words) else {
        return refuse(&mut outside.sink, USAGE, Status::Usage);
    };
    let keeper = outside.keeper.take().unwrap();
    let ended = perform(rt, alloc, command, outside, keeper);
    outside.keeper = Some(ended.keeper);
    ended.status
}
