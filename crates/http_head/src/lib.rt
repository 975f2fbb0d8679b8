//! Whether an input begins with the head of a request, and where it lies: HTTP/1.1 and 1.0.
//!
//! A connection gives its bytes in pieces of any size, and yet the same bytes must get the same answer. The idea is a
//! window: the part of the input that is looked at for a head. (1) The window has the first 16,384 bytes, and of these
//! no more lines than a head with one field too many has. (2) If no continuation makes the window a head, the input
//! never begins with one, and if the window is full and has no head, its head is too large. Both are seen in the
//! shortest prefix that shows them, and more bytes change neither ([`refusals_stay`]), so it is no matter when one
//! looks. (3) Until then the bytes may become a head, and another piece is wanted.
//!
//! A full window does not change when bytes come, and a head that is found in it is within the limits; so whoever asks
//! again with more bytes gets the answer that all of them get.
//!
//! Heads are read by `httparse`. What a head says, and whether that is refused, is left to `http_desk`, and so is
//! reading more bytes.
//!
//! `find_head` of `GET / HTTP/1.0`, CR LF, CR LF answers `KeptBytes::Whole`, with spans of 18 bytes; of `GET / HT` it
//! answers `KeptBytes::Open`, and of `GET` and an empty line `KeptBytes::Never`.
#![tactic(auto)]

mod head_place;
mod laws;
mod window;

pub use head_place::{HeadPlace, KeptBytes, ROOM, find_head};
pub use laws::{
    heads_are_found, malformed_lines_are_seen, refusals_are_one, refusals_stay, windows_are_limited,
};
pub use window::{FIELDS_MAX, HEAD_MAX};
