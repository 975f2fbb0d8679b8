//! The keeper of a process: in memory, or in the database that its words name.
//!
//! The idea is that nobody above has to ask which it is. A command is over any keeper; the process decides once, by its
//! words, where the history lies, and each call is handed on. One in memory exposes its history, so that all clauses of
//! a command speak of it; one in a database exposes nothing, and what is left are bounds and causes.
//!
//! What is left to others: how a history is kept is `revision_keeper`'s and `sqlite_keeper`'s, which file it is the
//! words', and opening it the program's.
//!
//! ```text
//! HostKeeper::Memory(MemKeeper::new(alloc))                                         ends with the process
//! HostKeeper::Stored(SqliteKeeper::new(alloc, Connection::open(&rt, "wiki.db")))    is there at the next start
//! ```
#![tactic(auto)]

mod host_keeper;

pub use host_keeper::HostKeeper;
