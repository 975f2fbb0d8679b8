// A script's run on a farm, up to what is written of it.
ghost use Rattle.std.specs.Prelude.{◌≤◌, []};
ghost use Rattle.wiki_model.specs.World.{World};
ghost use Rattle.wiki_model.specs.Steps.{Rose};
ghost use Rattle.wiki_model.specs.Report.{end_line};
ghost use Rattle.drill_script.specs.ReadScript.{lines_of};
ghost use Rattle.farm_core.specs.Runs.{Stands};
ghost use Rattle.script_runner.specs.RunScript.{IsRunnable};
ghost use Rattle.wiki_cli.specs.Ends.{IsReportFrom, IsCutReportFrom, IsSummaryFrom, EndsReport, EndsSummary, HasRisen};
ghost use Rattle.wiki_cli.specs.RunFarm.{kept_by, WritesText, WritesLast, FailsReport, ClosesReport, WritesCounts, WritesSummary, IsRunEnd};

use crate::Status;
use crate::refuse::refuse;
use drill_script::{ScriptLine, Summary, end_line, summary_line};
use farm_base::{Listed, Sink, write_all};
use farm_core::{Farm, Page};
use revision_keeper::{KeepFault, Keeper};
use script_runner::{ReportState, Told, count_script, report_script};
use std::alloc::Global;
use wan_cache::RegionStore;

/// What a command leaves: the keeper, and how it ended.
#[derive(Drop)]
pub struct Ended<K: Drop> {
    /// The keeper, with all that was committed.
    pub keeper: K,
    /// How the command ended.
    pub status: Status,
}

/// The line of a keeper that failed.
pub const STORE_FAULT: &[u8] = b"store-fault\n";

/// Runs the lines on a farm and writes their report, as it is made.
pub fn report_farm<K: Keeper + Drop, S: RegionStore<Page> + Drop, O: Sink>(
    alloc: Global,
    farm: Farm<K, S>,
    lines: Listed<ScriptLine>,
    sink: &mut O,
) -> Ended<K>
    requires runnable { IsRunnable farm (lines_of lines) }
    ensures ends { (start w : World) → Stands K.content K.faults S.cache farm start [] w
        → EndsReport (IsReportFrom start (lines_of lines) (kept_by K.content K.faults result.keeper))
        (IsCutReportFrom start (lines_of lines) (kept_by K.content K.faults result.keeper))
        (Rose (O.faults sink.old) (O.faults sink.new)) (O.written sink.old) (O.written sink.new) result.status }
    ensures end { IsRunEnd result.status }
    ensures cause { HasRisen (Rose (O.faults sink.old) (O.faults sink.new))
        (Rose (K.faults farm.keeper) (K.faults result.keeper)) result.status }
    ensures counts { K.faults farm.keeper ≤ K.faults result.keeper }
{
    let mut farm = farm;
    let told = report_script(alloc, &mut farm, lines, sink);
    let (mut keeper, _, _) = farm.close();
    let entries = keeper.len();
    let status = close_report(alloc, sink, told, entries);
    Ended { keeper, status }
}

/// Writes the last line after what is written of a report, or the line of a keeper that failed.
fn close_report<O: Sink>(
    alloc: Global,
    sink: &mut O,
    told: Told,
    entries: Result<u64, KeepFault>,
) -> Status
    ensures { ClosesReport told entries (O.written sink.old) (O.written sink.new)
        (O.faults sink.old) (O.faults sink.new) result }
{
    match entries {
        Ok(entries) => write_end(alloc, sink, told, entries),
        Err(KeepFault::Fault) => write_fault(sink, told.state),
        Err(KeepFault::Memory) => Status::Memory,
    }
}

fn write_end<O: Sink>(alloc: Global, sink: &mut O, told: Told, entries: u64) -> Status
    ensures { WritesLast told.state (O.written sink.old) (O.written sink.new) (O.faults sink.old) (O.faults sink.new)
        (end_line told.answers entries) result }
{
    match told.state {
        ReportState::Whole => match end_line(alloc, told.answers, entries) {
            Ok(text) => write_text(sink, &text),
            Err(_) => Status::Memory,
        },
        ReportState::Failed => Status::WriteFault,
        ReportState::Memory => Status::Memory,
    }
}

fn write_fault<O: Sink>(sink: &mut O, state: ReportState) -> Status
    ensures { FailsReport state (O.written sink.old) (O.written sink.new)
        (O.faults sink.old) (O.faults sink.new) result }
{
    match state {
        ReportState::Whole => refuse(sink, STORE_FAULT, Status::StoreFault),
        ReportState::Failed => Status::StoreFault,
        ReportState::Memory => Status::Memory,
    }
}

/// Writes a text to its end, if no write fails.
fn write_text<O: Sink>(sink: &mut O, text: &[u8]) -> Status
    ensures { WritesText (O.written sink.old) (O.written sink.new)
        (O.faults sink.old) (O.faults sink.new) text.now result }
{
    match write_all(sink, text) {
        Ok(()) => Status::Ok,
        Err(_) => Status::WriteFault,
    }
}

/// Runs the lines on a farm and writes the counts of their answers.
pub fn count_farm<K: Keeper + Drop, S: RegionStore<Page> + Drop, O: Sink>(
    alloc: Global,
    farm: Farm<K, S>,
    lines: Listed<ScriptLine>,
    steps: u32,
    sink: &mut O,
) -> Ended<K>
    requires runnable { IsRunnable farm (lines_of lines) }
    ensures ends { (start w : World) → Stands K.content K.faults S.cache farm start [] w
        → EndsSummary (IsSummaryFrom start steps (lines_of lines) (kept_by K.content K.faults result.keeper))
        (Rose (O.faults sink.old) (O.faults sink.new)) (O.written sink.old) (O.written sink.new) result.status }
    ensures end { IsRunEnd result.status }
    ensures cause { HasRisen (Rose (O.faults sink.old) (O.faults sink.new))
        (Rose (K.faults farm.keeper) (K.faults result.keeper)) result.status }
    ensures counts { K.faults farm.keeper ≤ K.faults result.keeper }
{
    let mut farm = farm;
    let summary = count_script(alloc, &mut farm, lines);
    let (mut keeper, _, _) = farm.close();
    let entries = keeper.len();
    let status = close_summary(alloc, sink, steps, summary, entries);
    Ended { keeper, status }
}

fn close_summary<O: Sink>(
    alloc: Global,
    sink: &mut O,
    steps: u32,
    summary: Summary,
    entries: Result<u64, KeepFault>,
) -> Status
    ensures { WritesSummary steps summary entries (O.written sink.old) (O.written sink.new)
        (O.faults sink.old) (O.faults sink.new) result }
{
    match entries {
        Ok(entries) => write_summary(alloc, sink, steps, entries, summary),
        Err(KeepFault::Fault) => refuse(sink, STORE_FAULT, Status::StoreFault),
        Err(KeepFault::Memory) => Status::Memory,
    }
}

fn write_summary<O: Sink>(
    alloc: Global,
    sink: &mut O,
    steps: u32,
    entries: u64,
    summary: Summary,
) -> Status
    ensures { WritesCounts (O.written sink.old) (O.written sink.new) (O.faults sink.old) (O.faults sink.new)
        steps entries summary result }
{
    match summary_line(alloc, steps, entries, &summary) {
        Ok(text) => write_text(sink, &text),
        Err(_) => Status::Memory,
    }
}
