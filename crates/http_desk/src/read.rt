// One request from a source: its head, and after it its body.
ghost use Rattle.std.specs.Prelude.{◌≡◌, ◌≢◌, ◌≤◌, [], None, true, false, length, take, IfSome};
ghost use Rattle.std.specs.Io.KnownBytes.{IsAtEnd};
ghost use Rattle.wiki_model.specs.Steps.{Rose};
ghost use Rattle.httparse.specs.Grammar.{RequestHead, NeverHasRequest};
ghost use Rattle.httparse.specs.Spans.{IsRequestWithin};
ghost use Rattle.http_head.specs.Input.{window, is_full, IsOpen, IsHeadIn};
ghost use Rattle.http_desk.specs.Incoming.{Grows, IsRead};
ghost use Rattle.http_desk.specs.Heads.{said_by, head_fault, body_length};
ghost use Rattle.http_desk.specs.AsModel.{incoming_shown};
ghost use Rattle.http_reply.specs.AsModel.{fault_of};

use crate::fields::BODY_MAX;
use crate::head_parts::{incoming_at, is_head_at, length_at};
use crate::kept_bytes::{FillEnd, More, drop_prefix, fill, read_more};
use crate::request::Incoming;
use farm_base::Source;
use http_head::{HeadPlace, KeptBytes, ROOM, find_head};
use http_reply::{Fault, Refusal};
use httparse::spans::{EMPTY_HEADER_SPAN, HeaderSpan};
use std::alloc::Global;

/// Reads one request from a source. What is read after it is kept for the next, and what was kept before is its
/// beginning: hand in an empty list first, and then the same list again.
///
/// The answer depends on the bytes alone, and not on how many of them each read gives. No more is read than shows
/// the answer, but for what the last read gives besides.
pub fn read_request<X: Source>(alloc: Global, conn: &mut X, kept: &mut Vec<u8>) -> Incoming
    // What was read is what the input begins with, and the input goes on with what is kept and what is left.
    ensures read { IfSome (incoming_shown result)
        (λ got. IsRead false kept.old.items (X.left conn.old) kept.new.items (X.left conn.new) got) }
    // The count of faults never falls.
    ensures later { X.faults conn.old ≤ X.faults conn.new }
    // A fault is answered only if it rose.
    ensures failed { result ≡ Incoming.ReadFault → Rose (X.faults conn.old) (X.faults conn.new) }
    // Nothing is written.
    ensures other { X.writing_half conn.new ≡ X.writing_half conn.old }
{
    let mut fields = [EMPTY_HEADER_SPAN; ROOM];
    match read_head(conn, kept, &mut fields) {
        Start::Whole(at) => read_after_head(alloc, conn, kept, &fields, &at),
        Start::TooLarge => Incoming::Refused(closing(Fault::HeadTooLarge)),
        Start::NoHead => Incoming::Refused(closing(Fault::NoHead)),
        Start::Closed => Incoming::Closed,
        Start::Cut => Incoming::Cut,
        Start::Failed => Incoming::ReadFault,
        Start::Memory => Incoming::Memory,
    }
}

// A refusal before a head was found.
fn closing(fault: Fault) -> Refusal
    ensures { result ≡ record { fault = fault; head = false; close = true } }
{
    Refusal {
        fault,
        head: false,
        close: true,
    }
}

/// How the input begins.
#[derive(Clone, Copy, Debug)]
pub enum Start {
    Whole(HeadPlace),
    TooLarge,
    NoHead,
    Closed,
    Cut,
    Failed,
    Memory,
}

// Reads until the input shows how it begins.
#[tactic(auto, using(crate::proofs::Inputs::grows_start, crate::proofs::Inputs::grows_then))]
fn read_head<X: Source>(conn: &mut X, kept: &mut Vec<u8>, fields: &mut [HeaderSpan; ROOM]) -> Start
    ensures grows { result ≢ Start.Failed → result ≢ Start.Memory
        → Grows kept.old.items (X.left conn.old) kept.new.items (X.left conn.new) }
    ensures whole { (at : HeadPlace) → result ≡ Start.Whole at
        → (h : RequestHead) × IsHeadIn kept.new.items at.seen fields.new at.spans h }
    ensures large { result ≡ Start.TooLarge → (is_full kept.new.items ≡ true) × IsOpen (window kept.new.items) }
    ensures none { result ≡ Start.NoHead → NeverHasRequest (window kept.new.items) }
    ensures closed { result ≡ Start.Closed → (kept.new.items ≡ []) × IsAtEnd (X.left conn.new) }
    ensures cut { result ≡ Start.Cut
        → (kept.new.items ≢ []) × (is_full kept.new.items ≡ false) × IsOpen kept.new.items
        × IsAtEnd (X.left conn.new) }
    ensures later { X.faults conn.old ≤ X.faults conn.new }
    ensures failed { result ≡ Start.Failed → Rose (X.faults conn.old) (X.faults conn.new) }
    ensures other { X.writing_half conn.new ≡ X.writing_half conn.old }
{
    'reads: loop {
        match find_head(kept, fields) {
            KeptBytes::Whole(at) => return Start::Whole(at),
            KeptBytes::Full => return Start::TooLarge,
            KeptBytes::Never => return Start::NoHead,
            KeptBytes::Open => {}
        }
        match read_more(conn, kept) {
            More::Some => {}
            More::End if kept.is_empty() => return Start::Closed,
            More::End => return Start::Cut,
            More::Failed => return Start::Failed,
            More::Memory => return Start::Memory,
        }
    }
}

// The refusal that the head alone gives, or what it asks for with its body.
fn read_after_head<X: Source>(
    alloc: Global,
    conn: &mut X,
    kept: &mut Vec<u8>,
    fields: &[HeaderSpan; ROOM],
    at: &HeadPlace,
) -> Incoming
    requires seen { at.now.seen ≤ length kept.old.items }
    requires within { IsRequestWithin (take at.now.seen kept.old.items) fields.now at.now.spans }
    ensures read { (h : RequestHead) → IsHeadIn kept.old.items at.now.seen fields.now at.now.spans h
        → IfSome (incoming_shown result)
        (λ got. IsRead false kept.old.items (X.left conn.old) kept.new.items (X.left conn.new) got) }
    ensures later { X.faults conn.old ≤ X.faults conn.new }
    ensures failed { result ≡ Incoming.ReadFault → Rose (X.faults conn.old) (X.faults conn.new) }
    ensures other { X.writing_half conn.new ≡ X.writing_half conn.old }
{
    let (looked_at, _) = kept.split_at(at.seen);
    match length_at(looked_at, fields, &at.spans) {
        Err(fault) => Incoming::Refused(Refusal {
            fault,
            head: is_head_at(looked_at, fields, &at.spans),
            close: true,
        }),
        Ok(count) => read_body(alloc, conn, kept, fields, at, count as usize),
    }
}

// The body of `count` bytes, and what the head asks for with it.
fn read_body<X: Source>(
    alloc: Global,
    conn: &mut X,
    kept: &mut Vec<u8>,
    fields: &[HeaderSpan; ROOM],
    at: &HeadPlace,
    count: usize,
) -> Incoming
    requires seen { at.now.seen ≤ length kept.old.items }
    requires within { IsRequestWithin (take at.now.seen kept.old.items) fields.now at.now.spans }
    requires small { count ≤ BODY_MAX }
    ensures read { (h : RequestHead) → IsHeadIn kept.old.items at.now.seen fields.now at.now.spans h
        → head_fault (said_by h) ≡ None → body_length (said_by h) ≡ count
        → IfSome (incoming_shown result)
        (λ got. IsRead false kept.old.items (X.left conn.old) kept.new.items (X.left conn.new) got) }
    ensures later { X.faults conn.old ≤ X.faults conn.new }
    ensures failed { result ≡ Incoming.ReadFault → Rose (X.faults conn.old) (X.faults conn.new) }
    ensures other { X.writing_half conn.new ≡ X.writing_half conn.old }
{
    let total = at.spans.len + count;
    match fill(conn, kept, total) {
        FillEnd::Full => {
            let (looked_at, _) = kept.split_at(at.seen);
            let (_, after) = kept.split_at(at.spans.len);
            let (body, _) = after.split_at(count);
            let incoming = incoming_at(alloc, looked_at, fields, &at.spans, body);
            drop_prefix(kept, total);
            incoming
        }
        FillEnd::End => Incoming::Cut,
        FillEnd::Failed => Incoming::ReadFault,
        FillEnd::Memory => Incoming::Memory,
    }
}
