//! Scripts of a farm's steps, and the reports of their answers: text over plain values, with no farm.
//!
//! A script is lines, each ended by a line feed, the last of them `end`. Whoever reads bytes that someone typed has
//! to say exactly which line is the first that is wrong, and here is why that is possible: whether a line may stand
//! where it stands hangs on five facts of the lines before it (whether there are any, whether `farm` stands alone,
//! how many replicas each region has, the greatest opened id, whether `end` was read). A [`ScriptState`] holds these
//! five. So [`read_line`] reads one line after another, and is the same whether a whole script is read or a line
//! comes alone. What is read is spelled so, and what is spelled is read: the bytes of a script are never a second
//! script ([`scripts_are_one`]).
//!
//! The other way round, [`report_line`] writes the text of an answer, [`end_line`] the last line, and
//! [`summary_line`] what was counted of the answers.
//!
//! What is left to others: what a line does ([`region_state`] and the farm above it), which scripts a generator makes
//! (`script_generator`), where bytes come from and go to.
//!
//! ```text
//! read_script("farm 3,1 2,1 0\nend\n")      two lines, and a plan of two replicas in each region
//! read_script("beat\nend\nbeat\n")          Err(Line { line: 3 })
//! report_line(12, NoPage { source: 7 }, ..)  "12 no-page source=7\n"
//! ```
#![tactic(auto)]

mod count_answers;
mod laws;
mod plan;
mod read_forms;
mod report_text;
mod script_line;
mod script_state;
mod whole_script;
mod words;

pub use count_answers::{Summary, count_answer, summary_line};
pub use laws::{scripts_are_one, scripts_have_no_fault};
pub use plan::SLOTS;
pub use report_text::{answer_text, end_line, origin_text, page_bytes, report_head, report_line};
pub use script_line::ScriptLine;
pub use script_state::{ScriptState, has_ended, read_line};
pub use whole_script::{SCRIPT_MAX, Script, ScriptFault, read_script};
pub use words::{LineFault, number_of};
