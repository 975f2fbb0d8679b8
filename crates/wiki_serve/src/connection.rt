// The loop over the requests of one connection.
ghost use Rattle.std.specs.Prelude.{◌≡◌, ◌≤◌, None};
ghost use Rattle.wiki_serve.specs.Exchanges.{heard_seen};
ghost use Rattle.wiki_serve.specs.Connections.{conn_seen, IsServed};
ghost use Rattle.wiki_serve.specs.Turns.{StandsSent, unsent_of};
ghost use Rattle.wiki_serve.specs.Reactions.{Responds, desk_of};
ghost use Rattle.wiki_serve.specs.AsModel.{end_of};
ghost use Rattle.farm_core.specs.FarmParts.{IsWhole, SameShape};
ghost use Rattle.farm_steps.specs.RequestMap.{open_at};
ghost use Rattle.slot_cache.specs.AsModel.{map_of};

use crate::read_arrival::read_arrival;
use crate::respond::respond;
use crate::serve_arrival::{Reaction, serve_arrival};
use crate::served_farm::ServedFarm;
use farm_base::{Clock, Conn, Lots};
use farm_core::Page;
use purge_relay::Wire;
use revision_keeper::Keeper;
use slot_cache::SlotCache;
use std::alloc::Global;
use std::thread::Threads;

/// At most this many requests are answered on one connection.
pub const REQUESTS_MAX: u64 = 1_000; // requests

/// How a connection ended.
#[derive(Clone, Copy, Debug, PartialEq, Eq)]
pub enum ConnEnd {
    /// The input ended between two requests.
    Closed,
    /// The input ended inside a request.
    Cut,
    /// A read failed: the connection's count for reads rose.
    ReadFault,
    /// A write failed: its count for writes rose.
    WriteFault,
    /// A request asked for the end, or was refused with it; its response was written.
    Ended,
    /// As many requests were answered as a connection may have.
    Enough,
    /// Out of memory: before a request was begun, or after all its steps with no byte of its response written.
    Memory,
}

/// Serves the requests of a connection, one by one, until it ends.
///
/// The farm is ready for it: neither cache is lent, and no request is open under the number 0, which whole requests
/// take. It is so again at the end.
pub fn serve_conn<R: AllocGlobal + Threads + Sync, X: Conn, K: Keeper, C: Clock, L: Lots, W: Wire>(
    rt: &R,
    served: &mut ServedFarm<K, SlotCache<Page>>,
    conn: &mut X,
    clock: &mut C,
    lots: &mut L,
    wire: &mut W,
) -> ConnEnd
    requires whole { IsWhole served.old.farm }
    requires free { open_at served.old.farm.requests 0 ≡ None }
    // What was read and written, what was heard, and what the farm did.
    ensures served { IsServed (desk_of (X.peer conn.old) served.old.farm)
        (conn_seen (X.peer conn.old) (X.left conn.old) (X.written conn.old) (X.Source.faults conn.old)
        (X.Sink.faults conn.old))
        (conn_seen (X.peer conn.new) (X.left conn.new) (X.written conn.new) (X.Source.faults conn.new)
        (X.Sink.faults conn.new))
        (heard_seen (C.exposed clock.old) (L.exposed lots.old) (W.carried wire.old) (W.refused wire.old)
        (W.empty wire.old))
        (heard_seen (C.exposed clock.new) (L.exposed lots.new) (W.carried wire.new) (W.refused wire.new)
        (W.empty wire.new))
        (unsent_of served.old.farm served.old.sent) (unsent_of served.new.farm served.new.sent)
        (StandsSent K.content K.faults map_of served.old.farm served.old.sent)
        (StandsSent K.content K.faults map_of served.new.farm served.new.sent) (end_of result) }
    // The farm has its plan, its caches and its replicas as before.
    ensures shape { SameShape served.old.farm served.new.farm }
    ensures whole { IsWhole served.new.farm }
    ensures free { open_at served.new.farm.requests 0 ≡ None }
    // The keeper's count of faults does not fall.
    ensures counts { K.faults served.old.farm.keeper ≤ K.faults served.new.farm.keeper }
{
    let alloc = rt.alloc();
    let mut kept = Vec::new(alloc);
    let mut answered = 0;
    'requests: loop {
        let arrival = read_arrival(alloc, conn, &mut kept);
        let reaction = serve_arrival(rt, served, clock, lots, wire, arrival);
        if let Some(end) = answer(alloc, conn, reaction, answered + 1) {
            return end;
        }
        answered += 1;
    }
}

/// Writes the response, and lets go of it.
fn answer<X: Conn>(alloc: Global, conn: &mut X, reaction: Reaction, number: u64) -> Option<ConnEnd>
    ensures responds { Responds
        (conn_seen (X.peer conn.old) (X.left conn.old) (X.written conn.old) (X.Source.faults conn.old)
        (X.Sink.faults conn.old))
        (conn_seen (X.peer conn.new) (X.left conn.new) (X.written conn.new) (X.Source.faults conn.new)
        (X.Sink.faults conn.new))
        reaction number result }
    ensures peer { X.peer conn.new ≡ X.peer conn.old }
{
    respond(alloc, conn, &reaction, number)
}
