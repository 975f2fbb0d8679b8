//! Requests from a connection: HTTP/1.1 and 1.0, one request after the other.
//!
//! A connection gives its bytes in pieces of any size, and yet the same bytes must get the same answer. (1) Pieces are
//! kept until they show how the input begins: `http_head` says whether they do, and more bytes never change what it
//! said. (2) A head is tested by itself, in the order of [`http_reply::Fault`], and only then its body is waited for:
//! who sends too much is refused before it is read. (3) With its body, the head's target and method say what is asked
//! for, or the first fault of these. (4) What was read after the request is kept for the next one, byte for byte, so
//! that no body is taken for a request and no request for a body.
//!
//! Forms are read by `form_urlencoded`, paths by `percent_encoding`, and `http` names methods. What a refused request
//! is answered is left to `http_reply`, which has the bytes of every response; which response an answer of the wiki
//! gets, to whoever has answers. So is writing them, and the loop over the requests of a connection; for them
//! [`read_request`] says that it writes nothing.
//!
//! Over a source with `GET /wiki/Main_Page HTTP/1.0`, CR LF, CR LF, `read_request` answers `Incoming::Ready`, and its
//! call is `Call::Page` of the title `Main Page`; a second call answers `Incoming::Closed`.
#![tactic(auto)]

mod calls;
mod fields;
mod head_parts;
mod kept_bytes;
mod read;
mod request;
mod routes;
mod texts;
mod titles;

pub use calls::BATCH_MAX;
pub use fields::{BODY_MAX, LENGTH_DIGITS};
pub use read::read_request;
pub use request::{Call, Incoming, Request};
