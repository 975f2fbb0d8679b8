//! The generator: long scripts, made from a number.
//!
//! A seed and a number of steps give a script, and for the same two always the same one. Each step draws seven
//! numbers of the seed, in a fixed order and whether or not it needs them; so what a step is hangs on nothing but the
//! seed and what was counted of the steps before it: the clocks' readings, each title's revision, each client's
//! edits, the messages. The bytes are the model's (`Generator.stirred`), and `wiki_model` proves that they are a
//! script of the grammar.
//!
//! What is left to others: what the script does, and how its answers are counted.
//!
//! ```text
//! stir(7, 0)    "farm 3,1 2,1 0\nend\n"
//! ```
#![tactic(auto)]

mod make_script;

pub use make_script::stir;
