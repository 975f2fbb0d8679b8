//! Runs the lines of a script on a farm, and writes or counts their answers.
//!
//! A script is a play with two clocks: a line `at` sets the readings, and every other line makes the steps of its form at
//! the readings that stand. It has at most one answer in the report: a whole edit or a whole view ends at its first
//! answer, and a miss in between is not shown. The idea is that what is answered does not hang on what is written: if
//! the sink fails, or memory runs out for the text of an answer, nothing more is written, and all steps are made all the
//! same. So the run is a function of the script, and the report is as much of the run's text as the sink took.
//!
//! What is left to others: which bytes are a script is `drill_script`'s, what a step does `farm_core`'s, and how the
//! program ends `wiki_cli`'s.
//!
//! ```text
//! report_script(alloc, farm, [at 5000, edit A .., view A], sink)     writes `2 saved ..` and `3 ok ..`
//! count_script(alloc, farm, the same lines)                          counts one `saved` and one `ok`
//! ```
#![tactic(auto)]

mod make_lines;
mod report_state;
mod run_script;

pub use make_lines::make_line;
pub use report_state::{LinePlace, ReportState, Told, write_answer, write_part};
pub use run_script::{count_script, report_script};
