// Why a request is refused, and the response that says so.
ghost use Rattle.std.specs.Prelude.{◌≡◌, ◌++◌, map, IfOk, codes, decimal, if◌then◌else◌, string_bytes};
ghost use Rattle.wiki_model.specs.Asking.{row_number};
ghost use Rattle.http_reply.specs.Reply.{fault_text, fault_lines, allow_lines, text_line, refusal_reply};
ghost use Rattle.http_reply.specs.AsModel.{fault_of, refusal_of, reply_of, status_of, lines_of};

use crate::reply::{Reply, Status};
use farm_base::Memory;
use std::alloc::Global;

/// Why a request is refused, in the order in which the causes are tested. The first six close the connection.
#[derive(Clone, Copy, Debug, PartialEq, Eq)]
pub enum Fault {
    /// The head has more than 16,384 bytes, or more than 64 fields.
    HeadTooLarge,
    /// No continuation makes the bytes a head.
    NoHead,
    /// There is a field `Transfer-Encoding`.
    Transfer,
    /// HTTP/1.1 without exactly one `Host`, HTTP/1.0 with more than one, or a `Host`, `Cookie` or `User-Agent` that is
    /// no UTF-8.
    BadHost,
    /// A `Content-Length` is not 1 to 15 digits, or two of them differ as numbers.
    BadLength,
    /// The `Content-Length` is more than a body may have.
    LargeBody { bytes: u64 },
    /// The target does not begin with `/`.
    BadTarget,
    /// The path leads nowhere.
    NoRoute,
    /// The route has another method: `POST` alone if `post` holds, else `GET` and `HEAD`.
    WrongMethod { post: bool },
    /// A title's decoded bytes are no UTF-8, or no title.
    BadTitle,
    /// A field is missing, stands twice or is not readable; or a batch has no title or more than 16.
    BadField,
    /// The text of an edit is longer than a page may be.
    LargeText { bytes: u64 },
}

/// A refused request.
#[derive(Clone, Copy, Debug, PartialEq, Eq)]
pub struct Refusal {
    /// Why it is refused.
    pub fault: Fault,
    /// Whether a head was found and its method is `HEAD`.
    pub head: bool,
    /// Whether the connection closes: after the first six faults, and if the request asked for it.
    pub close: bool,
}

impl Fault {
    /// Its place in the order of the tests, from 1.
    pub fn row(self) -> u8
        ensures { result ≡ row_number (fault_of self) }
    {
        match self {
            Fault::HeadTooLarge => 1,
            Fault::NoHead => 2,
            Fault::Transfer => 3,
            Fault::BadHost => 4,
            Fault::BadLength => 5,
            Fault::LargeBody { .. } => 6,
            Fault::BadTarget => 7,
            Fault::NoRoute => 8,
            Fault::WrongMethod { .. } => 9,
            Fault::BadTitle => 10,
            Fault::BadField => 11,
            Fault::LargeText { .. } => 12,
        }
    }

    /// The status of its response.
    pub fn status(self) -> Status
        ensures { status_of result ≡ (fault_text (fault_of self)).0 }
    {
        match self {
            Fault::HeadTooLarge => Status::HeadTooLarge,
            Fault::Transfer => Status::NotImplemented,
            Fault::NoHead
            | Fault::BadHost
            | Fault::BadLength
            | Fault::BadTarget
            | Fault::BadTitle
            | Fault::BadField => Status::BadRequest,
            Fault::LargeBody { .. } | Fault::LargeText { .. } => Status::TooLarge,
            Fault::NoRoute => Status::NotFound,
            Fault::WrongMethod { .. } => Status::MethodNotAllowed,
        }
    }

    /// The body of its response: a line.
    pub fn text(self, alloc: Global) -> Result<String, Memory>
        ensures { IfOk result (λ text. string_bytes text ≡ text_line (fault_text (fault_of self)).1) }
    {
        let text = match self {
            Fault::HeadTooLarge => "head\n",
            Fault::NoHead => "malformed rule=1\n",
            Fault::Transfer => "transfer\n",
            Fault::BadHost => "malformed rule=2\n",
            Fault::BadLength => "malformed rule=3\n",
            Fault::LargeBody { bytes } => return large_text(alloc, bytes),
            Fault::BadTarget => "malformed rule=4\n",
            Fault::NoRoute => "no-route\n",
            Fault::WrongMethod { .. } => "method\n",
            Fault::BadTitle => "malformed rule=5\n",
            Fault::BadField => "malformed rule=6\n",
            Fault::LargeText { bytes } => return large_text(alloc, bytes),
        };
        Ok(String::from_str(alloc, text)?)
    }

    // The fields that only its response has.
    fn lines(self, alloc: Global) -> Result<Vec<(String, String)>, Memory>
        ensures { IfOk result (λ lines. lines_of lines.items ≡ fault_lines (fault_of self)) }
    {
        match self {
            Fault::WrongMethod { post } => allow_line(alloc, post),
            _ => Ok(Vec::new(alloc)),
        }
    }
}

/// The response to a refused request.
pub fn refusal_reply(alloc: Global, refusal: &Refusal, close: bool) -> Result<Reply, Memory>
    ensures { IfOk result (λ reply. reply_of reply ≡ refusal_reply (refusal_of refusal.now) close) }
{
    let body = refusal.fault.text(alloc)?;
    let lines = refusal.fault.lines(alloc)?;
    Ok(Reply {
        status: refusal.fault.status(),
        html: false,
        body: body.into_bytes(),
        lines,
        head: refusal.head,
        close,
    })
}

fn large_text(alloc: Global, bytes: u64) -> Result<String, Memory>
    ensures { IfOk result (λ text. string_bytes text ≡ codes "large bytes=" ++ (decimal bytes ++ codes "\n")) }
{
    Ok(format!(in alloc; "large bytes={bytes}\n")?)
}

fn allow_line(alloc: Global, post: bool) -> Result<Vec<(String, String)>, Memory>
    ensures { IfOk result (λ lines. lines_of lines.items ≡ allow_lines post) }
{
    let mut lines = Vec::new(alloc);
    let name = String::from_str(alloc, "Allow")?;
    let value = String::from_str(alloc, allowed(post))?;
    lines.push((name, value))?;
    Ok(lines)
}

fn allowed(post: bool) -> &'static str
    ensures { result.now ≡ (if post then codes "POST" else codes "GET, HEAD") }
{
    if post { "POST" } else { "GET, HEAD" }
}
