//! The top call of the program `wiki`: its command words, its ends, what it reads and what it writes, over any outside;
//! and the adapters of the real streams.
//!
//! The idea is that nothing is answered twice. The words say what is to be done ([`Command`]); a script is read whole
//! before its first step; each step lengthens a run for which the farm stands; and what is written is the model's
//! text of that run's answers, as far as the sink took it. So the clauses of [`run`] speak of bytes alone: the bytes
//! that were read are a script, and the bytes that were written are the report of a run of its steps from an empty
//! history. Whatever `wiki_model` proves of all runs holds of what the program prints.
//!
//! How a line is read is `drill_script`'s, what its steps do `script_runner`'s and `farm_core`'s, which scripts a
//! seed makes `script_generator`'s.
//!
//! ```text
//! run(["drill"], ..)            reads a script, writes its report
//! run(["stir", "7", "0"], ..)   makes a script of no step, writes one line in which each count is 0
//! run(["drill", "now"], ..)     Status::Usage, and the usage line
//! ```
#![tactic(auto)]

mod adapters;
mod command;
mod commands;
mod outside;
mod refuse;
mod run_farm;
mod run_script;
mod script_farm;
mod serve_wiki;
mod status;
mod words;

pub use adapters::{Reading, Writing};
pub use command::{Command, ScriptCommand, read_command, store_of};
pub use outside::{Outside, run};
pub use status::Status;
pub use words::refuse_words;
