// Responses, and their bytes.
ghost use Rattle.std.specs.Prelude.{◌≡◌, ◌++◌, flat_map, IfOk, OnOk, codes, if◌then◌else◌, string_bytes};
ghost use Rattle.http_reply.specs.Reply.{phrase, field_line, first_fields, connection_line, head_of_length, head_bytes, sent_body, answer_bytes, end_of_line, printed_first_fields};
ghost use Rattle.http_reply.specs.AsModel.{reply_of, status_of, lines_of};

use farm_base::Memory;
use http::StatusCode;
use std::alloc::Global;

/// The status of a response.
#[derive(Clone, Copy, Debug, PartialEq, Eq)]
pub enum Status {
    /// 200: a page or a batch.
    Ok,
    /// 303: an edit is saved.
    SeeOther,
    /// 400: the request is malformed.
    BadRequest,
    /// 404: no route, or no page.
    NotFound,
    /// 405: the route has another method.
    MethodNotAllowed,
    /// 409: an edit was made from an older revision.
    Conflict,
    /// 413: a body or a text is too large.
    TooLarge,
    /// 422: a token was used before.
    Unprocessable,
    /// 431: the head is too large.
    HeadTooLarge,
    /// 501: a body has a transfer coding.
    NotImplemented,
    /// 502: the store failed.
    BadGateway,
    /// 503: the region has not reached what the client needs.
    Unavailable,
    /// 507: out of memory.
    NoStorage,
}

impl Status {
    /// Its number.
    pub fn code(self) -> u16
        ensures { result ≡ status_of self }
    {
        let code = match self {
            Status::Ok => StatusCode::OK,
            Status::SeeOther => StatusCode::SEE_OTHER,
            Status::BadRequest => StatusCode::BAD_REQUEST,
            Status::NotFound => StatusCode::NOT_FOUND,
            Status::MethodNotAllowed => StatusCode::METHOD_NOT_ALLOWED,
            Status::Conflict => StatusCode::CONFLICT,
            Status::TooLarge => StatusCode::PAYLOAD_TOO_LARGE,
            Status::Unprocessable => StatusCode::UNPROCESSABLE_ENTITY,
            Status::HeadTooLarge => StatusCode::REQUEST_HEADER_FIELDS_TOO_LARGE,
            Status::NotImplemented => StatusCode::NOT_IMPLEMENTED,
            Status::BadGateway => StatusCode::BAD_GATEWAY,
            Status::Unavailable => StatusCode::SERVICE_UNAVAILABLE,
            Status::NoStorage => StatusCode::INSUFFICIENT_STORAGE,
        };
        code.as_u16()
    }

    /// Its phrase. Two of them are newer than those that `http` has: 413 and 422.
    pub fn phrase(self) -> &'static str
        ensures { result.now ≡ phrase (status_of self) }
    {
        match self {
            Status::Ok => "OK",
            Status::SeeOther => "See Other",
            Status::BadRequest => "Bad Request",
            Status::NotFound => "Not Found",
            Status::MethodNotAllowed => "Method Not Allowed",
            Status::Conflict => "Conflict",
            Status::TooLarge => "Content Too Large",
            Status::Unprocessable => "Unprocessable Content",
            Status::HeadTooLarge => "Request Header Fields Too Large",
            Status::NotImplemented => "Not Implemented",
            Status::BadGateway => "Bad Gateway",
            Status::Unavailable => "Service Unavailable",
            Status::NoStorage => "Insufficient Storage",
        }
    }
}

/// A response.
#[derive(Debug, Drop)]
pub struct Reply {
    /// Its code and phrase.
    pub status: Status,
    /// Whether the body is a page; else it is plain text.
    pub html: bool,
    /// The bytes after the head; not sent to `HEAD`.
    pub body: Vec<u8>,
    /// The names and values of the fields that only some responses have, in their order.
    pub lines: Vec<(String, String)>,
    /// Whether the request was `HEAD`: the body is not sent, and its length is.
    pub head: bool,
    /// Whether the connection closes after it.
    pub close: bool,
}

/// The bytes of a response, ready to be written.
pub fn answer_bytes(alloc: Global, reply: &Reply) -> Result<Vec<u8>, Memory>
    ensures { IfOk result (λ bytes. bytes.items ≡ answer_bytes (reply_of reply.now)) }
{
    let mut bytes = head_bytes(alloc, reply)?;
    bytes.extend_from_slice(sent_body(reply))?;
    Ok(bytes)
}

/// The bytes of a response before its body.
pub fn head_bytes(alloc: Global, reply: &Reply) -> Result<Vec<u8>, Memory>
    ensures { IfOk result (λ bytes. bytes.items ≡ head_bytes (reply_of reply.now)) }
{
    let text = head_of_length(
        alloc,
        reply.status,
        reply.html,
        reply.body.len(),
        &reply.lines,
        reply.close,
    )?;
    Ok(text.into_bytes())
}

/// What is sent of the body: nothing of a response to `HEAD`.
pub fn sent_body(reply: &Reply) -> &[u8]
    ensures { result.now ≡ sent_body (reply_of reply.now) }
{
    if reply.head {
        &[]
    } else {
        reply.body.as_slice()
    }
}

/// The bytes before a body of this length. With them whoever has the body elsewhere writes a response without a copy
/// of it.
pub fn head_of_length(
    alloc: Global,
    status: Status,
    html: bool,
    count: usize,
    lines: &[(String, String)],
    close: bool,
) -> Result<String, Memory>
    ensures { IfOk result (λ text. string_bytes text
        ≡ head_of_length (status_of status) html count (lines_of lines.now) close) }
{
    let mut text = first_fields(alloc, status, html, count)?;
    add_fields(&mut text, lines)?;
    text.push_str(connection(close))?;
    Ok(text)
}

// The line of the status, and the two fields that every response has.
#[tactic(auto, using(crate::proofs::Pieces::first_fields_are))]
fn first_fields(alloc: Global, status: Status, html: bool, count: usize) -> Result<String, Memory>
    ensures { IfOk result (λ text. string_bytes text ≡ first_fields (status_of status) html count) }
{
    printed_first_fields(alloc, status.code(), status.phrase(), kind(html), count)
}

fn printed_first_fields(
    alloc: Global,
    code: u16,
    phrase: &str,
    kind: &str,
    count: usize,
) -> Result<String, Memory>
    ensures { IfOk result (λ text. string_bytes text ≡ printed_first_fields code phrase.now kind.now count) }
{
    Ok(format!(in alloc;
        "HTTP/1.1 {code} {phrase}\r\nContent-Type: text/{kind}; charset=utf-8\r\nContent-Length: {count}\r\n"
    )?)
}

fn kind(html: bool) -> &'static str
    ensures { result.now ≡ (if html then codes "html" else codes "plain") }
{
    if html { "html" } else { "plain" }
}

fn add_fields(text: &mut String, lines: &[(String, String)]) -> Result<(), Memory>
    ensures { OnOk result (string_bytes text.new
        ≡ string_bytes text.old ++ flat_map field_line (lines_of lines.now)) }
{
    for line in lines {
        add_field(text, line.0.as_str(), line.1.as_str())?;
    }
    Ok(())
}

#[tactic(auto, using(crate::proofs::Pieces::field_is))]
fn add_field(text: &mut String, name: &str, value: &str) -> Result<(), Memory>
    ensures { OnOk result (string_bytes text.new ≡ string_bytes text.old ++ field_line (name.now, value.now)) }
{
    text.push_str(name)?;
    text.push_str(": ")?;
    text.push_str(value)?;
    text.push_str("\r\n")?;
    Ok(())
}

// The last field, and the empty line.
fn connection(close: bool) -> &'static str
    ensures { result.now ≡ connection_line close ++ end_of_line }
{
    if close {
        "Connection: close\r\n\r\n"
    } else {
        "Connection: keep-alive\r\n\r\n"
    }
}
