// The run of a whole script: the report of its answers, or their counts.
ghost use Rattle.std.specs.Prelude.{◌≡◌, ◌<◌, ◌^◌, List, None, option_map};
ghost use Rattle.wiki_model.specs.Answers as model;
ghost use Rattle.wiki_model.specs.Script.{is_composite};
ghost use Rattle.wiki_model.specs.Report.{no_readings, readings_after};
ghost use Rattle.region_state.specs.AsModel.{answer_of};
ghost use Rattle.drill_script.specs.AsModel.{line_of};
ghost use Rattle.drill_script.specs.ReadScript.{lines_of};
ghost use Rattle.drill_script.specs.Summary.{IsSummaryOf, IsOrdered};
ghost use Rattle.farm_core.specs.FarmParts.{IsWhole};
ghost use Rattle.farm_steps.specs.RequestMap.{open_at};
ghost use Rattle.script_runner.specs.MakeLine.{IsReadyFor, MakesLine};
ghost use Rattle.script_runner.specs.RunSoFar.{answers_more};
ghost use Rattle.script_runner.specs.RunScript.{IsRunnable, Reports, Counts, Tells};

use crate::make_lines::make_line;
use crate::report_state::{LinePlace, ReportState, Told, continue_with};
use drill_script::{ScriptLine, Summary, count_answer};
use farm_base::{Listed, Moment, Readings, Sink};
use farm_core::{Answer, Farm, Page};
use revision_keeper::Keeper;
use std::alloc::Global;
use wan_cache::RegionStore;

/// Makes the steps of all lines, in order, and writes the lines of each answer as it is made. If a write fails, or
/// memory runs out for the text of an answer, nothing more is written, and the steps are made all the same: what was
/// answered does not hang on what was written.
pub fn report_script<K: Keeper, S: RegionStore<Page>, O: Sink>(
    alloc: Global,
    farm: &mut Farm<K, S>,
    lines: Listed<ScriptLine>,
    sink: &mut O,
) -> Told
    requires runnable { IsRunnable farm.old (lines_of lines) }
    ensures whole { IsWhole farm.new }
    ensures reports { Reports K.content K.faults S.cache farm.old farm.new (lines_of lines) result
        (O.written sink.old) (O.written sink.new) (O.faults sink.old) (O.faults sink.new) }
{
    let mut at = no_readings();
    let mut number: u64 = 0;
    let mut told = Told {
        answers: 0,
        state: ReportState::Whole,
    };
    for line in lines.into_vec() {
        number += 1;
        let place = LinePlace {
            number,
            composite: is_composite(&line),
        };
        let said = make_next(alloc, farm, &mut at, line);
        told = tell(alloc, sink, told, place, said);
    }
    told
}

/// Makes the steps of all lines, in order, and counts their answers.
pub fn count_script<K: Keeper, S: RegionStore<Page>>(
    alloc: Global,
    farm: &mut Farm<K, S>,
    lines: Listed<ScriptLine>,
) -> Summary
    requires runnable { IsRunnable farm.old (lines_of lines) }
    ensures whole { IsWhole farm.new }
    ensures counts { Counts K.content K.faults S.cache farm.old farm.new (lines_of lines) result }
{
    let mut at = no_readings();
    let mut summary = Summary::new();
    for line in lines.into_vec() {
        let said = make_next(alloc, farm, &mut at, line);
        count(&mut summary, said);
    }
    summary
}

/// The readings before the first line that gives some.
fn no_readings() -> Readings
    ensures { result ≡ no_readings }
{
    Readings {
        home: Moment(0),
        west: Moment(0),
    }
}

fn is_composite(line: &ScriptLine) -> bool
    ensures { result ≡ is_composite (line_of line.now) }
{
    match line {
        ScriptLine::Edit(_) => true,
        ScriptLine::View(_) => true,
        _ => false,
    }
}

/// Makes the next line's steps at the readings that stand then.
fn make_next<K: Keeper, S: RegionStore<Page>>(
    alloc: Global,
    farm: &mut Farm<K, S>,
    at: &mut Readings,
    line: ScriptLine,
) -> Option<Answer>
    requires whole { IsWhole farm.old }
    requires free { open_at farm.old.requests 0 ≡ None }
    requires ready { IsReadyFor farm.old line }
    ensures at { at.new ≡ readings_after (line_of line) at.old }
    ensures made { MakesLine K.content K.faults S.cache farm.old farm.new at.new
        (line_of line) (option_map answer_of result) }
{
    *at = readings_after(&line, *at);
    make_line(alloc, farm, *at, line)
}

fn readings_after(line: &ScriptLine, before: Readings) -> Readings
    ensures { result ≡ readings_after (line_of line.now) before }
{
    match line {
        ScriptLine::At(readings) => *readings,
        _ => before,
    }
}

/// Counts an answer, and writes its lines if the report is whole.
fn tell<O: Sink>(
    alloc: Global,
    sink: &mut O,
    told: Told,
    place: LinePlace,
    said: Option<Answer>,
) -> Told
    requires room { told.answers < 2 ^ 63 }
    ensures { Tells told result place (option_map answer_of said)
        (O.written sink.old) (O.written sink.new) (O.faults sink.old) (O.faults sink.new) }
{
    match said {
        None => told,
        Some(answer) => Told {
            answers: told.answers + 1,
            state: continue_with(alloc, sink, told.state, place, &answer),
        },
    }
}

fn count(summary: &mut Summary, said: Option<Answer>)
    requires room { summary.old.answers < 2 ^ 63 }
    requires ordered { IsOrdered summary.old }
    ensures counted { (answers : List model.Answer) → IsSummaryOf summary.old answers
        → IsSummaryOf summary.new (answers_more answers (option_map answer_of said)) }
    ensures ordered { IsOrdered summary.new }
{
    match said {
        None => {}
        Some(answer) => count_answer(summary, &answer),
    }
}
