// The whole of a hosting, from the layout's bytes to the keeper that is given back.
ghost use Rattle.std.specs.Prelude.{◌≡◌, ◌≤◌, None};
ghost use Rattle.slot_cache.specs.AsModel.{map_of};
ghost use Rattle.farm_core.specs.FarmParts.{IsWhole};
ghost use Rattle.farm_steps.specs.RequestMap.{open_at};
ghost use Rattle.wiki_serve.specs.Connections.{conn_seen};
ghost use Rattle.wiki_serve.specs.Exchanges.{heard_seen};
ghost use Rattle.wiki_serve.specs.Turns.{StandsSent, unsent_of};
ghost use Rattle.wiki_host.specs.Visits.{door_seen};
ghost use Rattle.wiki_host.specs.Hosting.{host_seen, visits_end, ClosesVisits, Hosts};
ghost use Rattle.wiki_host.specs.Opening.{keeper_seen};

use crate::door_visits::{OpenHost, serve_visits};
use crate::opening::open_layout;
use farm_base::{Clock, Door, Lots, OutFault};
use farm_core::Page;
use purge_relay::Wire;
use revision_keeper::Keeper;
use slot_cache::SlotCache;
use std::thread::Threads;

/// What is to be hosted.
#[derive(Drop)]
pub struct Host<K: Drop> {
    /// The keeper of the history. It need not be ready yet.
    pub keeper: K,
    /// The bytes of the layout; none for the default layout.
    pub layout: Vec<u8>,
    /// How many connections are served at most.
    pub wanted: u64,
}

/// How a hosting ended.
#[derive(Clone, Copy, Debug, PartialEq, Eq)]
pub enum HostEnd {
    /// This many connections were served and handed back: all that were wanted, or all that the door had.
    Served { connections: u64 },
    /// The door failed when it was asked for a connection: its count of faults rose. All before it were handed back.
    DoorFault,
    /// The layout breaks this rule first. Nothing was opened.
    BadLayout { rule: u8 },
    /// The keeper failed before the first connection: its count of faults rose.
    StoreFault,
    /// Out of memory before the first connection.
    Memory,
}

/// What a hosting leaves.
#[derive(Drop)]
pub struct Hosted<K: Drop> {
    /// The keeper, with all that was committed.
    pub keeper: K,
    /// Why it ended.
    pub end: HostEnd,
}

/// Opens a farm by the layout over the keeper's history, and serves the door's connections on it, one by one.
///
/// Each connection is handed back before the next is asked for, whatever it ended with. No connection is asked for
/// after as many as are wanted.
pub fn serve_door<R, D, K, C, L, W>(
    rt: &R,
    host: Host<K>,
    door: &mut D,
    clock: &mut C,
    lots: &mut L,
    wire: &mut W,
) -> Hosted<K>
where
    R: AllocGlobal + Threads + Sync,
    D: Door,
    K: Keeper + Drop,
    C: Clock,
    L: Lots,
    W: Wire,
    // Who came, what was said, heard and done for them, and how it ended.
    ensures hosts { Hosts
        (λ conn. conn_seen (D.C.peer conn) (D.C.left conn) (D.C.written conn) (D.C.Source.faults conn)
        (D.C.Sink.faults conn))
        host.wanted host.layout.items
        (host_seen (door_seen (D.offered door.old) (D.faults door.old) (D.nones door.old))
        (heard_seen (C.exposed clock.old) (L.exposed lots.old) (W.carried wire.old) (W.refused wire.old)
        (W.empty wire.old))
        (keeper_seen (K.content host.keeper) (K.faults host.keeper)))
        (host_seen (door_seen (D.offered door.new) (D.faults door.new) (D.nones door.new))
        (heard_seen (C.exposed clock.new) (L.exposed lots.new) (W.carried wire.new) (W.refused wire.new)
        (W.empty wire.new))
        (keeper_seen (K.content result.keeper) (K.faults result.keeper)))
        result.end }
{
    let Host {
        keeper,
        layout,
        wanted,
    } = host;
    match open_layout(rt.alloc(), keeper, &layout, clock) {
        Ok(served) => serve_open(rt, OpenHost { served, wanted }, door, clock, lots, wire),
        Err(hosted) => hosted,
    }
}

// Serves the connections on the farm that was opened, and closes it.
fn serve_open<R, D, K, C, L, W>(
    rt: &R,
    host: OpenHost<K, SlotCache<Page>>,
    door: &mut D,
    clock: &mut C,
    lots: &mut L,
    wire: &mut W,
) -> Hosted<K>
where
    R: AllocGlobal + Threads + Sync,
    D: Door,
    K: Keeper + Drop,
    C: Clock,
    L: Lots,
    W: Wire,
    requires whole { IsWhole host.served.farm }
    requires free { open_at host.served.farm.requests 0 ≡ None }
    ensures visits { ClosesVisits
        (λ conn. conn_seen (D.C.peer conn) (D.C.left conn) (D.C.written conn) (D.C.Source.faults conn)
        (D.C.Sink.faults conn))
        host.served.farm.plan.pace host.wanted
        (door_seen (D.offered door.old) (D.faults door.old) (D.nones door.old))
        (door_seen (D.offered door.new) (D.faults door.new) (D.nones door.new))
        (heard_seen (C.exposed clock.old) (L.exposed lots.old) (W.carried wire.old) (W.refused wire.old)
        (W.empty wire.old))
        (heard_seen (C.exposed clock.new) (L.exposed lots.new) (W.carried wire.new) (W.refused wire.new)
        (W.empty wire.new))
        (unsent_of host.served.farm host.served.sent)
        (StandsSent K.content K.faults map_of host.served.farm host.served.sent)
        (keeper_seen (K.content result.keeper) (K.faults result.keeper)) result.end }
    ensures counts { K.faults host.served.farm.keeper ≤ K.faults result.keeper }
{
    let mut host = host;
    let visited = serve_visits(rt, &mut host, door, clock, lots, wire);
    let OpenHost { served, .. } = host;
    let (keeper, _, _) = served.farm.close();
    Hosted {
        keeper,
        end: visits_end(visited),
    }
}

fn visits_end(visited: Result<u64, OutFault>) -> HostEnd
    ensures { result ≡ visits_end visited }
{
    match visited {
        Ok(connections) => HostEnd::Served { connections },
        Err(OutFault::Failed) => HostEnd::DoorFault,
    }
}
