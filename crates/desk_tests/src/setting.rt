// Reading a request from bytes, and a word for what was read.
use farm_base::{MemConn, SureSource};
use http_desk::{Call, Incoming, Request, read_request};
use http_reply::Fault;
use std::alloc::Global;
use std::test::Fail;

/// What a read of these bytes answers, the input being no longer than they are.
pub fn incoming(alloc: Global, bytes: &[u8]) -> Result<Incoming, Fail> {
    let mut source = SureSource::new(bytes.to_vec(alloc)?);
    let mut kept = Vec::new(alloc);
    Ok(read_request(alloc, &mut source, &mut kept))
}

/// A connection over the bytes that gives one of them in each read; the reads of these numbers fail.
pub fn slow_connection(alloc: Global, bytes: &[u8], failing: &[u64]) -> Result<MemConn, Fail> {
    let peer = String::from_str(alloc, "192.0.2.7")?;
    Ok(MemConn::new(
        alloc,
        bytes.to_vec(alloc)?,
        peer,
        1,
        failing.to_vec(alloc)?,
        Vec::new(alloc),
    ))
}

/// The word for what a read of these bytes answers.
pub fn word(alloc: Global, bytes: &[u8]) -> Result<&'static str, Fail> {
    Ok(word_of(&incoming(alloc, bytes)?))
}

/// What was read, in a word: the call, or the fault.
pub fn word_of(incoming: &Incoming) -> &'static str {
    match incoming {
        Incoming::Ready(request) => call_of(request),
        Incoming::Refused(refusal) => fault_of(refusal.fault),
        Incoming::Closed => "closed",
        Incoming::Cut => "cut",
        Incoming::ReadFault => "read fault",
        Incoming::Memory => "memory",
    }
}

fn call_of(request: &Request) -> &'static str {
    match &request.call {
        Call::Page(_) => "page",
        Call::Edit { .. } => "edit",
        Call::Batch(_) => "batch",
    }
}

fn fault_of(fault: Fault) -> &'static str {
    match fault {
        Fault::HeadTooLarge => "large head",
        Fault::NoHead => "no head",
        Fault::Transfer => "transfer",
        Fault::BadHost => "bad host",
        Fault::BadLength => "bad length",
        Fault::LargeBody { .. } => "large body",
        Fault::BadTarget => "bad target",
        Fault::NoRoute => "no route",
        Fault::WrongMethod { post: true } => "only post",
        Fault::WrongMethod { post: false } => "no post",
        Fault::BadTitle => "bad title",
        Fault::BadField => "bad field",
        Fault::LargeText { .. } => "large text",
    }
}
