//! The real outside of a hosted wiki: connections over TCP, the system's clock, and random words.
//!
//! The idea is that the outside may do what it likes, and each of its errors is counted where it happens: a call of a
//! connection that fails, or that goes past the connection's time, is a fault of that connection ([`TcpConn`]), and a
//! connection that cannot be taken is a fault of the door ([`TcpDoor`]). Nothing here exposes what is to come, so
//! nothing is promised of bytes, readings and words; what is promised is that no fault is told that was not counted.
//! Clocks and words cannot fail: a clock that the system does not read stands still ([`SystemClock`]), and a word that
//! it does not give is made from the last ([`SystemLots`]).
//!
//! One connection is served at a time, so a client that is silent or slow must not stop the others. A connection's
//! reads and writes may wait for a limit of time, from its begin, or from its last write that was taken whole, which
//! ends a response; a call that would go past it fails. So whoever sends nothing, or a byte now and then, is let go,
//! and nobody for what the wiki or its disk takes.
//!
//! Who is served, and how, is left to `wiki_host` and `wiki_serve`.
//!
//! ```text
//! TcpDoor::bind(&rt, alloc, "127.0.0.1:0")?    a door at a free port
//! door.next()                                  waits for a client: Ok(Some(conn)), and conn.peer() is "127.0.0.1"
//! ```
#![tactic(auto)]

mod system_clock;
mod system_lots;
mod tcp_conn;
mod tcp_door;

pub use system_clock::SystemClock;
pub use system_lots::SystemLots;
pub use tcp_conn::{TIME_LIMIT, TcpConn};
pub use tcp_door::TcpDoor;
