// The command `serve`: a layout is read, a wiki of it is hosted for the connections of a door, and their number is
// written.
ghost use Rattle.std.specs.Prelude.{◌≡◌, ◌≤◌, IfOk, IfSome, ℕ};
ghost use Rattle.std.specs.String.{string_bytes};
ghost use Rattle.wiki_model.specs.Steps.{Rose};
ghost use Rattle.wiki_serve.specs.Connections.{conn_seen};
ghost use Rattle.wiki_serve.specs.Exchanges.{heard_seen};
ghost use Rattle.wiki_host.specs.Visits.{door_seen};
ghost use Rattle.wiki_host.specs.Opening.{keeper_seen};
ghost use Rattle.wiki_host.specs.Hosting.{host_seen};
ghost use Rattle.wiki_cli.specs.Command.{layout_line, served_line};
ghost use Rattle.wiki_cli.specs.Commands.{IsServeEnd};
ghost use Rattle.wiki_cli.specs.Ends.{Says, HasRisen};
ghost use Rattle.wiki_cli.specs.Serving.{Serves, WritesServed, RefusesLayout, WritesHostEnd};
ghost use Rattle.wiki_cli.specs.declared.status.Status.TheVariants.{DoorFault, ReadFault};

use crate::Status;
use crate::outside::Outside;
use crate::refuse::refuse;
use crate::run_farm::{Ended, STORE_FAULT};
use farm_base::{Clock, Door, InputFault, Lots, Sink, Source, read_all, write_all};
use purge_relay::Wire;
use revision_keeper::{KeepFault, Keeper};
use std::alloc::{AllocError, Global};
use std::thread::Threads;
use wiki_host::{Host, HostEnd, serve_door};
use wiki_layout::LAYOUT_MAX;

/// Makes the keeper ready, reads a layout from the source, serves at most `wanted` connections of a wiki of it, and
/// writes how many there were, or why there were none.
pub fn serve_wiki<R, I, O, D, K, C, L, W>(
    rt: &R,
    alloc: Global,
    outside: &mut Outside<I, O, D, K, C, L, W>,
    keeper: K,
    wanted: u64,
) -> Ended<K>
where
    R: Threads + Sync,
    I: Source + Drop,
    O: Sink + Drop,
    D: Door + Drop,
    K: Keeper + Drop,
    C: Clock + Drop,
    L: Lots + Drop,
    W: Wire + Drop,
    ensures serves { IfSome (I.left outside.old.source) (λ layout. Serves
        (λ conn. conn_seen (D.C.peer conn) (D.C.left conn) (D.C.written conn) (D.C.Source.faults conn)
        (D.C.Sink.faults conn))
        wanted layout
        (host_seen
        (door_seen (D.offered outside.old.door) (D.faults outside.old.door) (D.nones outside.old.door))
        (heard_seen (C.exposed outside.old.clock) (L.exposed outside.old.lots) (W.carried outside.old.wire)
        (W.refused outside.old.wire) (W.empty outside.old.wire))
        (keeper_seen (K.content keeper) (K.faults keeper)))
        (host_seen
        (door_seen (D.offered outside.new.door) (D.faults outside.new.door) (D.nones outside.new.door))
        (heard_seen (C.exposed outside.new.clock) (L.exposed outside.new.lots) (W.carried outside.new.wire)
        (W.refused outside.new.wire) (W.empty outside.new.wire))
        (keeper_seen (K.content result.keeper) (K.faults result.keeper)))
        (Rose (O.faults outside.old.sink) (O.faults outside.new.sink))
        (O.written outside.old.sink) (O.written outside.new.sink) result.status) }
    ensures says { Says (Rose (O.faults outside.old.sink) (O.faults outside.new.sink))
        (O.written outside.old.sink) (O.written outside.new.sink) result.status }
    ensures end { IsServeEnd result.status }
    ensures read { result.status ≡ ReadFault → Rose (I.faults outside.old.source) (I.faults outside.new.source) }
    ensures door { result.status ≡ DoorFault → Rose (D.faults outside.old.door) (D.faults outside.new.door) }
    ensures cause { HasRisen (Rose (O.faults outside.old.sink) (O.faults outside.new.sink))
        (Rose (K.faults keeper) (K.faults result.keeper)) result.status }
{
    let mut keeper = keeper;
    match keeper.start() {
        Ok(()) => serve_ready(rt, alloc, outside, keeper, wanted),
        Err(KeepFault::Fault) => Ended {
            status: refuse(&mut outside.sink, STORE_FAULT, Status::StoreFault),
            keeper,
        },
        Err(KeepFault::Memory) => Ended {
            status: Status::Memory,
            keeper,
        },
    }
}

/// The same with a keeper that is ready.
fn serve_ready<R, I, O, D, K, C, L, W>(
    rt: &R,
    alloc: Global,
    outside: &mut Outside<I, O, D, K, C, L, W>,
    keeper: K,
    wanted: u64,
) -> Ended<K>
where
    R: Threads + Sync,
    I: Source + Drop,
    O: Sink + Drop,
    D: Door + Drop,
    K: Keeper + Drop,
    C: Clock + Drop,
    L: Lots + Drop,
    W: Wire + Drop,
    ensures serves { IfSome (I.left outside.old.source) (λ layout. Serves
        (λ conn. conn_seen (D.C.peer conn) (D.C.left conn) (D.C.written conn) (D.C.Source.faults conn)
        (D.C.Sink.faults conn))
        wanted layout
        (host_seen
        (door_seen (D.offered outside.old.door) (D.faults outside.old.door) (D.nones outside.old.door))
        (heard_seen (C.exposed outside.old.clock) (L.exposed outside.old.lots) (W.carried outside.old.wire)
        (W.refused outside.old.wire) (W.empty outside.old.wire))
        (keeper_seen (K.content keeper) (K.faults keeper)))
        (host_seen
        (door_seen (D.offered outside.new.door) (D.faults outside.new.door) (D.nones outside.new.door))
        (heard_seen (C.exposed outside.new.clock) (L.exposed outside.new.lots) (W.carried outside.new.wire)
        (W.refused outside.new.wire) (W.empty outside.new.wire))
        (keeper_seen (K.content result.keeper) (K.faults result.keeper)))
        (Rose (O.faults outside.old.sink) (O.faults outside.new.sink))
        (O.written outside.old.sink) (O.written outside.new.sink) result.status) }
    ensures says { Says (Rose (O.faults outside.old.sink) (O.faults outside.new.sink))
        (O.written outside.old.sink) (O.written outside.new.sink) result.status }
    ensures end { IsServeEnd result.status }
    ensures read { result.status ≡ ReadFault → Rose (I.faults outside.old.source) (I.faults outside.new.source) }
    ensures door { result.status ≡ DoorFault → Rose (D.faults outside.old.door) (D.faults outside.new.door) }
    ensures cause { HasRisen (Rose (O.faults outside.old.sink) (O.faults outside.new.sink))
        (Rose (K.faults keeper) (K.faults result.keeper)) result.status }
{
    match read_all(alloc, LAYOUT_MAX, &mut outside.source) {
        Ok(layout) => serve_bytes(
            rt,
            alloc,
            outside,
            Host {
                keeper,
                layout,
                wanted,
            },
        ),
        Err(InputFault::Failed) => Ended {
            status: refuse(&mut outside.sink, b"read-fault\n", Status::ReadFault),
            keeper,
        },
        Err(InputFault::Memory) => Ended {
            status: Status::Memory,
            keeper,
        },
    }
}

/// The same with the layout that was read.
fn serve_bytes<R, I, O, D, K, C, L, W>(
    rt: &R,
    alloc: Global,
    outside: &mut Outside<I, O, D, K, C, L, W>,
    host: Host<K>,
) -> Ended<K>
where
    R: Threads + Sync,
    I: Source + Drop,
    O: Sink + Drop,
    D: Door + Drop,
    K: Keeper + Drop,
    C: Clock + Drop,
    L: Lots + Drop,
    W: Wire + Drop,
    ensures serves { Serves
        (λ conn. conn_seen (D.C.peer conn) (D.C.left conn) (D.C.written conn) (D.C.Source.faults conn)
        (D.C.Sink.faults conn))
        host.wanted host.layout.items
        (host_seen
        (door_seen (D.offered outside.old.door) (D.faults outside.old.door) (D.nones outside.old.door))
        (heard_seen (C.exposed outside.old.clock) (L.exposed outside.old.lots) (W.carried outside.old.wire)
        (W.refused outside.old.wire) (W.empty outside.old.wire))
        (keeper_seen (K.content host.keeper) (K.faults host.keeper)))
        (host_seen
        (door_seen (D.offered outside.new.door) (D.faults outside.new.door) (D.nones outside.new.door))
        (heard_seen (C.exposed outside.new.clock) (L.exposed outside.new.lots) (W.carried outside.new.wire)
        (W.refused outside.new.wire) (W.empty outside.new.wire))
        (keeper_seen (K.content result.keeper) (K.faults result.keeper)))
        (Rose (O.faults outside.old.sink) (O.faults outside.new.sink))
        (O.written outside.old.sink) (O.written outside.new.sink) result.status }
    ensures says { Says (Rose (O.faults outside.old.sink) (O.faults outside.new.sink))
        (O.written outside.old.sink) (O.written outside.new.sink) result.status }
    ensures end { IsServeEnd result.status }
    ensures source { outside.new.source ≡ outside.old.source }
    ensures unread { result.status ≡ ReadFault → ⊥ }
    ensures door { result.status ≡ DoorFault → Rose (D.faults outside.old.door) (D.faults outside.new.door) }
    ensures cause { HasRisen (Rose (O.faults outside.old.sink) (O.faults outside.new.sink))
        (Rose (K.faults host.keeper) (K.faults result.keeper)) result.status }
{
    let hosted = serve_door(
        &(rt, alloc),
        host,
        &mut outside.door,
        &mut outside.clock,
        &mut outside.lots,
        &mut outside.wire,
    );
    Ended {
        status: write_end(alloc, &mut outside.sink, hosted.end),
        keeper: hosted.keeper,
    }
}

/// Writes how a hosting ended.
fn write_end<O: Sink>(alloc: Global, sink: &mut O, end: HostEnd) -> Status
    ensures { WritesHostEnd end (O.written sink.old) (O.written sink.new) (O.faults sink.old) (O.faults sink.new)
        result }
{
    match end {
        HostEnd::Served { connections } => write_served(alloc, sink, connections),
        HostEnd::DoorFault => refuse(sink, b"door-fault\n", Status::DoorFault),
        HostEnd::BadLayout { rule } => refuse_layout(alloc, sink, rule),
        HostEnd::StoreFault => refuse(sink, STORE_FAULT, Status::StoreFault),
        HostEnd::Memory => Status::Memory,
    }
}

fn write_served<O: Sink>(alloc: Global, sink: &mut O, connections: u64) -> Status
    ensures { WritesServed connections (O.written sink.old) (O.written sink.new)
        (O.faults sink.old) (O.faults sink.new) result }
{
    match served_line(alloc, connections) {
        Ok(text) => match write_all(sink, text.as_bytes()) {
            Ok(()) => Status::Ok,
            Err(_) => Status::WriteFault,
        },
        Err(_) => Status::Memory,
    }
}

fn refuse_layout<O: Sink>(alloc: Global, sink: &mut O, rule: u8) -> Status
    ensures { RefusesLayout rule (O.written sink.old) (O.written sink.new)
        (O.faults sink.old) (O.faults sink.new) result }
{
    match layout_line(alloc, rule) {
        Ok(text) => refuse(sink, text.as_bytes(), Status::Layout { rule }),
        Err(_) => Status::Memory,
    }
}

fn served_line(alloc: Global, connections: u64) -> Result<String, AllocError>
    ensures { IfOk result (λ s. string_bytes s ≡ served_line connections) }
{
    format!(in alloc; "served connections={connections}\n")
}

fn layout_line(alloc: Global, rule: u8) -> Result<String, AllocError>
    ensures { IfOk result (λ s. string_bytes s ≡ layout_line rule) }
{
    format!(in alloc; "layout rule={rule}\n")
}
