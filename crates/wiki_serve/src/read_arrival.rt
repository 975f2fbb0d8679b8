// What comes next on a connection.
ghost use Rattle.std.specs.Prelude.{◌≡◌};
ghost use Rattle.wiki_serve.specs.Connections.{conn_seen};
ghost use Rattle.wiki_serve.specs.Reactions.{Arrives, IsFrom};

use crate::callers::Visit;
use crate::connection::ConnEnd;
use farm_base::Conn;
use http_desk::{Incoming, Request, read_request};
use http_reply::Refusal;
use std::alloc::Global;
use wiki_titles::ClientId;

/// What was read of a connection.
#[derive(Drop)]
pub enum Arrival {
    /// No request: the connection ends like this.
    Ended(ConnEnd),
    /// A request that is refused.
    Refused(Refusal),
    /// A request that is to be served.
    Ready(Visit),
}

/// Reads what comes next. `kept` is what was read after the last request.
pub(crate) fn read_arrival<X: Conn>(alloc: Global, conn: &mut X, kept: &mut Vec<u8>) -> Arrival
    ensures arrives { Arrives
        (conn_seen (X.peer conn.old) (X.left conn.old) (X.written conn.old) (X.Source.faults conn.old)
        (X.Sink.faults conn.old))
        (conn_seen (X.peer conn.new) (X.left conn.new) (X.written conn.new) (X.Source.faults conn.new)
        (X.Sink.faults conn.new))
        kept.old.items kept.new.items result }
    ensures peer { X.peer conn.new ≡ X.peer conn.old }
{
    conn.shows_halves();
    let incoming = read_request(alloc, conn, kept);
    conn.shows_halves();
    match incoming {
        Incoming::Ready(request) => Arrival::Ready(visit_of(conn.peer(), request)),
        Incoming::Refused(refusal) => Arrival::Refused(refusal),
        Incoming::Closed => Arrival::Ended(ConnEnd::Closed),
        Incoming::Cut => Arrival::Ended(ConnEnd::Cut),
        Incoming::ReadFault => Arrival::Ended(ConnEnd::ReadFault),
        Incoming::Memory => Arrival::Ended(ConnEnd::Memory),
    }
}

#[tactic(auto, unfolding(crate::specs::Callers::stranger_of))]
fn visit_of(peer: &str, request: Request) -> Visit
    ensures request { result.request ≡ request }
    ensures from { IsFrom peer.now result }
{
    let stranger = ClientId::of(peer, &request.agent);
    Visit { request, stranger }
}
