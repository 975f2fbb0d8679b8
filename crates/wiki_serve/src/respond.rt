// Writing the response to a request.
ghost use Rattle.std.specs.Prelude.{◌≡◌, ◌==◌, ◌||◌, ◌++◌, [], length, if◌then◌else◌, IfOk};
ghost use Rattle.wiki_model.specs.Limits.{requests_max};
ghost use Rattle.region_state.specs.AsModel.{answer_of};
ghost use Rattle.wiki_model.specs.Report as report;
ghost use Rattle.http_reply.specs.Reply as reply;
ghost use Rattle.http_reply.specs.AsModel.{refusal_of};
ghost use Rattle.wiki_serve.specs.Connections.{conn_seen};
ghost use Rattle.wiki_serve.specs.Reactions.{Responds, WritesResponse, ended_of, reaction_closes, reaction_bytes};
ghost use Rattle.wiki_serve.specs.Reactions.{listed_body, page_part, end_after};

use crate::connection::{ConnEnd, REQUESTS_MAX};
use crate::list_answers::{batch_body, listed_head};
use crate::replies::{answer_start, sent_page};
use crate::serve_arrival::{Answered, Listed, Reaction};
use farm_base::{Conn, Memory, OutFault, write_both};
use http_reply::{Refusal, answer_bytes, refusal_reply};
use std::alloc::Global;

/// Writes the response to the `number`-th request, counted from 1. Answers how the connection ends, or None if it goes
/// on.
pub(crate) fn respond<X: Conn>(
    alloc: Global,
    conn: &mut X,
    reaction: &Reaction,
    number: u64,
) -> Option<ConnEnd>
    ensures responds { Responds
        (conn_seen (X.peer conn.old) (X.left conn.old) (X.written conn.old) (X.Source.faults conn.old)
        (X.Sink.faults conn.old))
        (conn_seen (X.peer conn.new) (X.left conn.new) (X.written conn.new) (X.Source.faults conn.new)
        (X.Sink.faults conn.new))
        reaction.now number result }
    ensures peer { X.peer conn.new ≡ X.peer conn.old }
{
    match ended(reaction) {
        Some(end) => Some(end),
        None => write_response(alloc, conn, reaction, closes(reaction), number),
    }
}

/// How the connection ends without a response; None if there is one.
fn ended(reaction: &Reaction) -> Option<ConnEnd>
    ensures { result ≡ ended_of reaction.now }
{
    match reaction {
        Reaction::Ended(end) => Some(*end),
        Reaction::Refused(_) | Reaction::Answered(_) | Reaction::Listed(_) => None,
    }
}

fn write_response<X: Conn>(
    alloc: Global,
    conn: &mut X,
    reaction: &Reaction,
    closes: bool,
    number: u64,
) -> Option<ConnEnd>
    ensures writes { WritesResponse
        (conn_seen (X.peer conn.old) (X.left conn.old) (X.written conn.old) (X.Source.faults conn.old)
        (X.Sink.faults conn.old))
        (conn_seen (X.peer conn.new) (X.left conn.new) (X.written conn.new) (X.Source.faults conn.new)
        (X.Sink.faults conn.new))
        (reaction_bytes reaction.now (closes || (number == requests_max))) closes number result }
    ensures peer { X.peer conn.new ≡ X.peer conn.old }
{
    let Ok(body) = body_of(alloc, reaction) else {
        return Some(ConnEnd::Memory);
    };
    let Ok(start) = start_of(alloc, reaction, body.len(), is_last(closes, number)) else {
        return Some(ConnEnd::Memory);
    };
    conn.shows_halves();
    let wrote = write_both(conn, &start, page_of(reaction, &body));
    conn.shows_halves();
    match wrote {
        Err(OutFault::Failed) => Some(ConnEnd::WriteFault),
        Ok(()) => end_after(closes, number),
    }
}

/// Whether the response is the last one of its connection.
fn is_last(closes: bool, number: u64) -> bool
    ensures { result ≡ (closes || (number == requests_max)) }
{
    closes || number == REQUESTS_MAX
}

/// How the connection ends after a response that was written whole.
fn end_after(closes: bool, number: u64) -> Option<ConnEnd>
    ensures { result ≡ end_after closes number }
{
    if closes {
        Some(ConnEnd::Ended)
    } else if number == REQUESTS_MAX {
        Some(ConnEnd::Enough)
    } else {
        None
    }
}

/// Whether the connection ends after the response.
fn closes(reaction: &Reaction) -> bool
    ensures { result ≡ reaction_closes reaction.now }
{
    match reaction {
        Reaction::Ended(_) => true,
        Reaction::Refused(refusal) => refusal.close,
        Reaction::Answered(answered) => answered.close,
        Reaction::Listed(listed) => listed.close,
    }
}

/// The body of a batch's response; empty for another.
fn body_of(alloc: Global, reaction: &Reaction) -> Result<Vec<u8>, Memory>
    ensures { IfOk result (λ body. body.items ≡ listed_body reaction.now) }
{
    match reaction {
        Reaction::Listed(listed) => batch_body(alloc, &listed.answers),
        _ => Ok(Vec::new(alloc)),
    }
}

/// The bytes of the response, but for those of a page and of a batch's body, which has this many bytes.
fn start_of(
    alloc: Global,
    reaction: &Reaction,
    count: usize,
    close: bool,
) -> Result<Vec<u8>, Memory>
    requires { count ≡ length (listed_body reaction.now) }
    ensures { IfOk result (λ start. start.items ++ page_part reaction.now ≡ reaction_bytes reaction.now close) }
{
    match reaction {
        Reaction::Ended(_) => Ok(Vec::new(alloc)),
        Reaction::Refused(refusal) => refused_bytes(alloc, refusal, close),
        Reaction::Answered(answered) => answer_start(
            alloc,
            &answered.location,
            &answered.answer,
            answered.head,
            close,
        ),
        Reaction::Listed(_) => listed_head(alloc, count, close),
    }
}

fn refused_bytes(alloc: Global, refusal: &Refusal, close: bool) -> Result<Vec<u8>, Memory>
    ensures { IfOk result (λ bytes.
        bytes.items ≡ reply.answer_bytes (reply.refusal_reply (refusal_of refusal.now) close)) }
{
    let reply = refusal_reply(alloc, refusal, close)?;
    answer_bytes(alloc, &reply)
}

/// The bytes of the page or of the batch's body that are sent; none if there are none.
fn page_of<'a>(reaction: &'a Reaction, body: &'a [u8]) -> &'a [u8]
    requires { body.now ≡ listed_body reaction.now }
    ensures { result.now ≡ page_part reaction.now }
{
    match reaction {
        Reaction::Answered(answered) => page_in(answered),
        Reaction::Listed(listed) => body_in(listed, body),
        _ => &[],
    }
}

fn body_in<'a>(listed: &Listed, body: &'a [u8]) -> &'a [u8]
    ensures { result.now ≡ (if listed.now.head then [] else body.now) }
{
    if listed.head { &[] } else { body }
}

fn page_in(answered: &Answered) -> &[u8]
    ensures { result.now ≡ (if answered.now.head then [] else report.page_of (answer_of answered.now.answer)) }
{
    sent_page(&answered.answer, answered.head)
}
