// A head that was found: what it says alone, and what it asks for with its body.
ghost use Rattle.std.specs.Prelude.{◌≡◌, ◌≢◌, ◌≤◌, false, IfOk};
ghost use Rattle.httparse.specs.Spans.{IsRequestWithin};
ghost use Rattle.http_desk.specs.Incoming.{incoming};
ghost use Rattle.http_desk.specs.Heads.{said_at, AreWithin, head_fault, body_length, is_head_method};
ghost use Rattle.http_desk.specs.Calls.{call_of, request_of};
ghost use Rattle.http_desk.specs.AsModel.{said_in, fault_found, call_shown, request_shown, incoming_shown, IsShown};

use crate::calls::{Outcome, call_in};
use crate::fields::{BODY_MAX, asks_to_close, body_length, cookies_in, first_value};
use crate::request::{Call, Incoming, Request};
use crate::routes::{is_get, is_head};
use farm_base::Memory;
use http_head::ROOM;
use http_reply::{Fault, Refusal};
use httparse::spans::{HeaderSpan, RequestSpans};
use std::alloc::Global;

/// The length of the body that the head declares, or the refusal that the head alone gives.
pub(crate) fn length_at(
    buf: &[u8],
    fields: &[HeaderSpan; ROOM],
    spans: &RequestSpans,
) -> Result<u64, Fault>
    requires { IsRequestWithin buf.now fields.now spans.now }
    ensures fault { fault_found result ≡ head_fault (said_at buf.now fields.now spans.now) }
    ensures length { IfOk result (λ n. body_length (said_at buf.now fields.now spans.now) ≡ n) }
    ensures small { IfOk result (λ n. n ≤ BODY_MAX) }
{
    length_in(parts_of(buf, fields, spans))
}

/// Whether the method is `HEAD`.
pub(crate) fn is_head_at(buf: &[u8], fields: &[HeaderSpan; ROOM], spans: &RequestSpans) -> bool
    requires { IsRequestWithin buf.now fields.now spans.now }
    ensures { result ≡ is_head_method (said_at buf.now fields.now spans.now) }
{
    is_head(parts_of(buf, fields, spans).method)
}

/// The request that the head makes with its whole body, or the refusal.
pub(crate) fn incoming_at(
    alloc: Global,
    buf: &[u8],
    fields: &[HeaderSpan; ROOM],
    spans: &RequestSpans,
    body: &[u8],
) -> Incoming
    requires { IsRequestWithin buf.now fields.now spans.now }
    ensures shown { IsShown (incoming_shown result) (incoming (said_at buf.now fields.now spans.now)
        (call_of false (said_at buf.now fields.now spans.now) body.now)) }
    ensures no_fault { result ≢ Incoming.ReadFault }
{
    incoming_in(alloc, parts_of(buf, fields, spans), body)
}

/// The parts of a head, as slices; the fields are spans of `buf`.
#[derive(Clone, Copy, Debug)]
pub struct HeadParts<'a> {
    /// The bytes in which the fields lie.
    pub buf: &'a [u8],
    /// The fields in their order.
    pub fields: &'a [HeaderSpan],
    /// The method, as `GET`.
    pub method: &'a [u8],
    /// The path with its query.
    pub target: &'a [u8],
    /// The second number of the version: 0 or 1.
    pub minor: u8,
}

fn parts_of<'a>(
    buf: &'a [u8],
    fields: &'a [HeaderSpan; ROOM],
    spans: &RequestSpans,
) -> HeadParts<'a>
    requires { IsRequestWithin buf.now fields.now spans.now }
    ensures said { said_in result ≡ said_at buf.now fields.now spans.now }
    ensures within { AreWithin result.buf.now result.fields.now }
{
    let (list, _) = fields.as_slice().split_at(spans.headers);
    HeadParts {
        buf,
        fields: list,
        method: spans.method.of(buf),
        target: spans.path.of(buf),
        minor: spans.version,
    }
}

fn length_in(parts: HeadParts<'_>) -> Result<u64, Fault>
    requires { AreWithin parts.buf.now parts.fields.now }
    ensures fault { fault_found result ≡ head_fault (said_in parts.entry) }
    ensures length { IfOk result (λ n. body_length (said_in parts.entry) ≡ n) }
    ensures small { IfOk result (λ n. n ≤ BODY_MAX) }
{
    body_length(parts.buf, parts.fields, parts.minor)
}

fn incoming_in(alloc: Global, parts: HeadParts<'_>, body: &[u8]) -> Incoming
    requires { AreWithin parts.buf.now parts.fields.now }
    ensures shown { IsShown (incoming_shown result)
        (incoming (said_in parts.entry) (call_of false (said_in parts.entry) body.now)) }
    ensures no_fault { result ≢ Incoming.ReadFault }
{
    match call_in(alloc, parts.method, parts.target, body) {
        Outcome::Call(call) => match request_of(alloc, parts, call) {
            Ok(request) => Incoming::Ready(request),
            Err(_) => Incoming::Memory,
        },
        Outcome::Refused(fault) => Incoming::Refused(Refusal {
            fault,
            head: is_head(parts.method),
            close: asks_to_close(parts.buf, parts.fields, parts.minor),
        }),
        Outcome::Memory => Incoming::Memory,
    }
}

fn request_of(alloc: Global, parts: HeadParts<'_>, call: Call) -> Result<Request, Memory>
    requires { AreWithin parts.buf.now parts.fields.now }
    ensures { IfOk result (λ r. request_shown r ≡ request_of (said_in parts.entry) (call_shown call)) }
{
    let host = first_value(alloc, parts.buf, parts.fields, b"host")?;
    let agent = first_value(alloc, parts.buf, parts.fields, b"user-agent")?;
    let cookies = cookies_in(alloc, parts.buf, parts.fields)?;
    Ok(Request {
        get: is_get(parts.method),
        head: is_head(parts.method),
        close: asks_to_close(parts.buf, parts.fields, parts.minor),
        host,
        agent,
        cookies,
        call,
    })
}
