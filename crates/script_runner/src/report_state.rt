// How much of a report is written, and writing the lines of one more answer.
ghost use Rattle.std.specs.Prelude.{◌+◌, ◌++◌};
ghost use Rattle.wiki_model.specs.Report.{report_line};
ghost use Rattle.region_state.specs.AsModel.{answer_of};
ghost use Rattle.script_runner.specs.RunScript.{IsReported, Continues};

use drill_script::{page_bytes, report_head};
use farm_base::{OutFault, Sink, write_all};
use farm_core::Answer;
use std::alloc::Global;

/// How much of a report is written.
#[derive(Clone, Copy, Debug, PartialEq, Eq)]
pub enum ReportState {
    /// All of it so far.
    Whole,
    /// A prefix: a write failed, and nothing was written after it.
    Failed,
    /// A prefix: memory ran out for the text of an answer, and nothing was written after it.
    Memory,
}

/// What was told of a run so far.
#[derive(Clone, Copy, Debug, PartialEq, Eq)]
pub struct Told {
    /// How many answers there were, written or not.
    pub answers: u64,
    /// How much of them is written.
    pub state: ReportState,
}

/// A line's place in a script.
#[derive(Clone, Copy, Debug)]
pub struct LinePlace {
    /// Its number, from 1.
    pub number: u64,
    /// Whether it is a whole edit or a whole view, which shows no note of the cache.
    pub composite: bool,
}

/// Writes the lines of an answer: the head, and then the page from where it lies.
pub fn write_answer<O: Sink>(
    alloc: Global,
    sink: &mut O,
    place: LinePlace,
    answer: &Answer,
) -> ReportState
    ensures { IsReported result (O.written sink.old) (O.written sink.new) (O.faults sink.old) (O.faults sink.new)
        (report_line place.number place.composite (answer_of answer.now)) }
{
    match report_head(alloc, place.number, answer, place.composite) {
        Ok(head) => write_parts(sink, &head, page_bytes(answer)),
        Err(_) => ReportState::Memory,
    }
}

fn write_parts<O: Sink>(sink: &mut O, head: &[u8], page: &[u8]) -> ReportState
    ensures { IsReported result (O.written sink.old) (O.written sink.new) (O.faults sink.old) (O.faults sink.new)
        (head.now ++ page.now) }
{
    match write_part(sink, head) {
        ReportState::Whole => write_part(sink, page),
        other => other,
    }
}

/// Writes all of the bytes, if no write fails.
pub fn write_part<O: Sink>(sink: &mut O, bytes: &[u8]) -> ReportState
    ensures { IsReported result (O.written sink.old) (O.written sink.new)
        (O.faults sink.old) (O.faults sink.new) bytes.now }
{
    match write_all(sink, bytes) {
        Ok(()) => ReportState::Whole,
        Err(OutFault::Failed) => ReportState::Failed,
    }
}

/// Writes more after what is written, if that is whole.
pub fn continue_with<O: Sink>(
    alloc: Global,
    sink: &mut O,
    state: ReportState,
    place: LinePlace,
    answer: &Answer,
) -> ReportState
    ensures { Continues state result (O.written sink.old) (O.written sink.new) (O.faults sink.old) (O.faults sink.new)
        (report_line place.number place.composite (answer_of answer.now)) }
{
    match state {
        ReportState::Whole => write_answer(alloc, sink, place, answer),
        other => other,
    }
}
