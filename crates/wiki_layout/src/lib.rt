//! The layout of a farm, read from a text of TOML, and the options with which a farm is served, read from words.
//!
//! A person who wrote a text with three mistakes is told of one, and of the same one each time. So there are four rules
//! with an order, and each is asked of the whole text before the next: (1) it is a document; (2) each table and key has
//! a name that is known; (3) each value is of its kind; (4) each number is in its range. The last three are one walk,
//! made three times, and differ in the test of a value alone. What has passed the fourth needs no test any more: each
//! number fits its field, and each list of weights has one to eight.
//!
//! Options are read twice. `clap` takes the words as any program would, and a small reader by hand says what they are,
//! since `clap` takes more than options: `--connections 01` has a value too. It suffices to know that `clap` takes all
//! words that are options: then its refusal is right, and what it takes the reader decides.
//!
//! What is left to others: where the bytes and the words come from, which status a refusal has, and what a farm does
//! with its plan, which is `region_state`'s [`FarmPlan`].
//!
//! ```text
//! layout_of("")                            weights 1, 4,096 slots, epoch 0, one worker, pace 1,000
//! layout_of("[farm]\npace = 0\n")          Err(Rule(4))
//! layout_of("[edge]\n[farm]\npace = 0\n")  Err(Rule(2))
//! read_options(["--store", "wiki.db"])     one connection, the file wiki.db
//! read_options(["--connections=01"])       None
//! ```
#![tactic(auto)]

mod clap_options;
mod layout;
mod layout_values;
mod options;
mod rules;

pub use clap_options::served_options;
pub use layout::{LAYOUT_MAX, LayoutFault, layout_of};
pub use options::{CONNECTIONS_DEFAULT, CONNECTIONS_MAX, Options, read_options};
pub use region_state::{FarmPlan, RegionPlan};
