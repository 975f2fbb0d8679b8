//! The floor that every other crate stands on: errors of memory, small work on bytes, the outside as traits with its
//! forms in memory (streams of bytes, connections and their door, clocks and lots), lists for public fields, and the
//! times and bounds of the farm, each written once.
//!
//! The idea is in the streams. A program cannot say what a disk or a socket will do, but it can say what it owes
//! when they fail. So a [`Source`] or a [`Sink`] counts its faults, and an error may be answered only in a call in
//! which that count rose: whoever shows that no count rose has shown that no call failed. What a stream holds it may
//! expose to contracts or keep to itself, and [`read_all`] and [`write_all`] promise as much as is exposed. The forms
//! in memory expose all, and fail the calls whose numbers they were given ([`FailingCalls`]); so a test can make any
//! call of a program fail, and a good call never counts a fault.
//!
//! A connection ([`Conn`]) is a source and a sink at once, and each of the two shows the other's half: so whoever
//! reads knows that nothing was written, and whoever writes that nothing was read. A [`Door`] gives its connections in
//! order and takes them back. A [`Clock`] and [`Lots`] cannot fail, and may expose what is to come.
//!
//! What a title or a cookie looks like is left to `wiki_titles` and `sticky_routes`, and what the numbers mean to
//! the definitions of `wiki_model`: here each number is only tied to its definition ([`tied_to_the_rules`]).
//!
//! A source over `abc` whose second call fails: `MemSource::new(abc, [2])`. Its first `read` into room for two bytes
//! answers `Ok(2)` and gives `ab`, the second `Err(OutFault::Failed)`, the third `Ok(1)` and gives `c`.
#![tactic(auto)]

mod bounds;
pub mod bytes;
mod clock_and_lots;
mod connection;
mod door;
mod failing_calls;
mod lists;
mod memory;
mod memory_clock_and_lots;
mod memory_connections;
mod memory_streams;
mod read_write;
mod streams;
mod times;

pub use bounds::{BOUND_MAX, Bounds};
pub use clock_and_lots::{Clock, Lots};
pub use connection::{Conn, write_both};
pub use door::Door;
pub use failing_calls::FailingCalls;
pub use lists::{Listed, ListedText};
pub use memory::Memory;
pub use memory_clock_and_lots::{MemClock, MemLots};
pub use memory_connections::{MemConn, MemDoor};
pub use memory_streams::{MemSink, MemSource, SureSink, SureSource};
pub use read_write::{InputFault, read_all, write_all};
pub use streams::{OutFault, Sink, Source};
pub use times::{
    BEAT_AFTER, COOKIE_SECONDS, LAG_MAX, LIFE_INTERIM, LIFE_LAGGED, LIFE_WHOLE, MOMENT_MAX,
    POSITION_LIFE, WAIT_LIMIT, tied_to_the_rules,
};
pub use wiki_model::{Moment, Readings, Region};
