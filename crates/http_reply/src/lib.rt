//! Responses and their bytes, and the response of each refusal: HTTP/1.1.
//!
//! A response is a value first ([`Reply`]), and becomes bytes in one place. The idea is that its head tells of the body
//! that it belongs to, and not of what is sent. (1) A page is asked for by `GET`: the head says how long the page is,
//! and the page follows it. (2) The same page is asked for by `HEAD`: the head is the same byte for byte, its length
//! included, and nothing follows ([`sent_body`]). (3) A page that lies in a cache is not copied: whoever has it writes
//! the head of its length ([`head_of_length`]), and then the page from where it lies. Each way the bytes are those of
//! [`answer_bytes`].
//!
//! A refused request is answered like any other. Each [`Fault`] has a status, one line as its body, and after a wrong
//! method the methods that the route takes. After the first six nobody can say where the next request begins, so they
//! close the connection ([`Refusal::close`]).
//!
//! `http` names the codes. Reading requests, and finding the first fault of one, is left to `http_desk`; which response
//! an answer of the wiki gets, to whoever has answers; writing, to whoever has the connection.
//!
//! `refusal_reply` of the fault `NoRoute` answers status 404 with the body `no-route` and a line feed, and
//! `answer_bytes` of it begins with `HTTP/1.1 404 Not Found`, CR LF.
#![tactic(auto)]

mod refusal;
mod reply;

pub use farm_base::Memory;
pub use refusal::{Fault, Refusal, refusal_reply};
pub use reply::{Reply, Status, answer_bytes, head_bytes, head_of_length, sent_body};
