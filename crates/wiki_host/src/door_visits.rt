// The connections of a door, one after another: each is taken, served to its end, and handed back.
ghost use Rattle.std.specs.Prelude.{◌≡◌, ◌≤◌, None};
ghost use Rattle.slot_cache.specs.AsModel.{map_of};
ghost use Rattle.farm_core.specs.FarmParts.{IsWhole, SameShape};
ghost use Rattle.farm_steps.specs.RequestMap.{open_at};
ghost use Rattle.wiki_serve.specs.Connections.{conn_seen};
ghost use Rattle.wiki_serve.specs.Exchanges.{heard_seen};
ghost use Rattle.wiki_serve.specs.Turns.{StandsSent, unsent_of};
ghost use Rattle.wiki_host.specs.Visits.{door_seen, VisitsNext, VisitsAll};

use farm_base::{Clock, Door, Lots, OutFault};
use farm_core::Page;
use purge_relay::Wire;
use revision_keeper::Keeper;
use slot_cache::SlotCache;
use std::thread::Threads;
use wan_cache::RegionStore;
use wiki_serve::{ServedFarm, serve_conn};

/// A farm that is open, and how many connections are served on it at most.
#[derive(Drop)]
pub struct OpenHost<K: Keeper + Drop, S: RegionStore<Page> + Drop> {
    /// The farm, with how far its messages were sent.
    pub served: ServedFarm<K, S>,
    /// How many connections are served at most.
    pub wanted: u64,
}

/// What came of asking a door for its next connection.
#[derive(Clone, Copy, Debug, PartialEq, Eq)]
pub enum Next {
    /// It gave one, which was served and handed back.
    Served,
    /// It has no more.
    NoneLeft,
}

/// Serves connections until as many were served as are wanted, or the door has no more, and answers how many. It fails
/// if the door does.
pub fn serve_visits<R, D, K, C, L, W>(
    rt: &R,
    host: &mut OpenHost<K, SlotCache<Page>>,
    door: &mut D,
    clock: &mut C,
    lots: &mut L,
    wire: &mut W,
) -> Result<u64, OutFault>
where
    R: AllocGlobal + Threads + Sync,
    D: Door,
    K: Keeper + Drop,
    C: Clock,
    L: Lots,
    W: Wire,
    requires whole { IsWhole host.old.served.farm }
    requires free { open_at host.old.served.farm.requests 0 ≡ None }
    ensures visits { VisitsAll
        (λ conn. conn_seen (D.C.peer conn) (D.C.left conn) (D.C.written conn) (D.C.Source.faults conn)
        (D.C.Sink.faults conn))
        host.old.served.farm.plan.pace host.old.wanted
        (door_seen (D.offered door.old) (D.faults door.old) (D.nones door.old))
        (door_seen (D.offered door.new) (D.faults door.new) (D.nones door.new))
        (heard_seen (C.exposed clock.old) (L.exposed lots.old) (W.carried wire.old) (W.refused wire.old)
        (W.empty wire.old))
        (heard_seen (C.exposed clock.new) (L.exposed lots.new) (W.carried wire.new) (W.refused wire.new)
        (W.empty wire.new))
        (unsent_of host.old.served.farm host.old.served.sent) (unsent_of host.new.served.farm host.new.served.sent)
        (StandsSent K.content K.faults map_of host.old.served.farm host.old.served.sent)
        (StandsSent K.content K.faults map_of host.new.served.farm host.new.served.sent) result }
    ensures whole { IsWhole host.new.served.farm }
    ensures free { open_at host.new.served.farm.requests 0 ≡ None }
    ensures shape { SameShape host.old.served.farm host.new.served.farm }
    ensures counts { K.faults host.old.served.farm.keeper ≤ K.faults host.new.served.farm.keeper }
{
    for connections in 0..host.wanted {
        match serve_next(rt, &mut host.served, door, clock, lots, wire) {
            Ok(Next::Served) => {}
            Ok(Next::NoneLeft) => return Ok(connections),
            Err(fault) => return Err(fault),
        }
    }
    Ok(host.wanted)
}

// Serves the door's next connection to its end, and hands it back.
fn serve_next<R, D, K, C, L, W>(
    rt: &R,
    served: &mut ServedFarm<K, SlotCache<Page>>,
    door: &mut D,
    clock: &mut C,
    lots: &mut L,
    wire: &mut W,
) -> Result<Next, OutFault>
where
    R: AllocGlobal + Threads + Sync,
    D: Door,
    K: Keeper + Drop,
    C: Clock,
    L: Lots,
    W: Wire,
    requires whole { IsWhole served.old.farm }
    requires free { open_at served.old.farm.requests 0 ≡ None }
    ensures visits { VisitsNext
        (λ conn. conn_seen (D.C.peer conn) (D.C.left conn) (D.C.written conn) (D.C.Source.faults conn)
        (D.C.Sink.faults conn))
        served.old.farm.plan.pace
        (door_seen (D.offered door.old) (D.faults door.old) (D.nones door.old))
        (door_seen (D.offered door.new) (D.faults door.new) (D.nones door.new))
        (heard_seen (C.exposed clock.old) (L.exposed lots.old) (W.carried wire.old) (W.refused wire.old)
        (W.empty wire.old))
        (heard_seen (C.exposed clock.new) (L.exposed lots.new) (W.carried wire.new) (W.refused wire.new)
        (W.empty wire.new))
        (unsent_of served.old.farm served.old.sent) (unsent_of served.new.farm served.new.sent)
        (StandsSent K.content K.faults map_of served.old.farm served.old.sent)
        (StandsSent K.content K.faults map_of served.new.farm served.new.sent) result }
    ensures whole { IsWhole served.new.farm }
    ensures free { open_at served.new.farm.requests 0 ≡ None }
    ensures shape { SameShape served.old.farm served.new.farm }
    ensures counts { K.faults served.old.farm.keeper ≤ K.faults served.new.farm.keeper }
{
    match door.next() {
        Ok(Some(conn)) => {
            let mut conn = conn;
            serve_conn(rt, served, &mut conn, clock, lots, wire);
            door.done(conn);
            Ok(Next::Served)
        }
        Ok(None) => Ok(Next::NoneLeft),
        Err(fault) => Err(fault),
    }
}
