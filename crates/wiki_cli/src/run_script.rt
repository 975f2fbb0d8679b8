// A script's run over a keeper's history, on a farm whose caches are the program's.
ghost use Rattle.std.specs.Prelude.{◌≡◌};
ghost use Rattle.wiki_model.specs.declared.Region.TheVariants.{Home, West};
ghost use Rattle.wiki_model.specs.Steps.{Rose};
ghost use Rattle.drill_script.specs.ReadScript.{lines_of};
ghost use Rattle.script_runner.specs.Openings.{IsScriptPlan, IsScriptCache};
ghost use Rattle.wiki_cli.specs.Ends.{together, IsReportFrom, IsCutReportFrom, IsSummaryFrom, EndsReport, EndsSummary, HasRisen};
ghost use Rattle.wiki_cli.specs.RunFarm.{kept_by, IsRunEnd};
ghost use Rattle.wiki_cli.specs.Commands.{FromStart, fault_status, RefusesOpening};

use crate::Status;
use crate::refuse::refuse;
use crate::run_farm::{Ended, STORE_FAULT, count_farm, report_farm};
use crate::script_farm::{Caches, open_farm};
use drill_script::Script;
use farm_base::Sink;
use farm_core::{NewFault, Page};
use revision_keeper::Keeper;
use std::alloc::Global;
use wan_cache::RegionStore;

/// Runs a script and writes its report, as it is made.
pub fn drill_on<K: Keeper + Drop, S: RegionStore<Page> + Drop, O: Sink>(
    alloc: Global,
    keeper: K,
    script: Script,
    caches: Caches<S>,
    sink: &mut O,
) -> Ended<K>
    requires script { IsScriptPlan script.plan (lines_of script.lines) }
    requires home { IsScriptCache S.cache together Home script.plan caches.home }
    requires west { IsScriptCache S.cache together West script.plan caches.west }
    ensures ends { FromStart K.content K.faults keeper (lines_of script.lines) (λ start.
        let kept = kept_by K.content K.faults result.keeper in
        EndsReport (IsReportFrom start (lines_of script.lines) kept)
        (IsCutReportFrom start (lines_of script.lines) kept)
        (Rose (O.faults sink.old) (O.faults sink.new)) (O.written sink.old) (O.written sink.new) result.status) }
    ensures end { IsRunEnd result.status }
    ensures cause { HasRisen (Rose (O.faults sink.old) (O.faults sink.new))
        (Rose (K.faults keeper) (K.faults result.keeper)) result.status }
{
    let Script { plan, lines } = script;
    match open_farm(alloc, keeper, plan, caches) {
        Ok(farm) => report_farm(alloc, farm, lines, sink),
        Err((keeper, fault)) => refuse_opening(keeper, fault, sink),
    }
}

/// Runs a script and writes the counts of its answers.
pub fn stir_on<K: Keeper + Drop, S: RegionStore<Page> + Drop, O: Sink>(
    alloc: Global,
    keeper: K,
    script: Script,
    caches: Caches<S>,
    steps: u32,
    sink: &mut O,
) -> Ended<K>
    requires script { IsScriptPlan script.plan (lines_of script.lines) }
    requires home { IsScriptCache S.cache together Home script.plan caches.home }
    requires west { IsScriptCache S.cache together West script.plan caches.west }
    ensures ends { FromStart K.content K.faults keeper (lines_of script.lines) (λ start.
        EndsSummary (IsSummaryFrom start steps (lines_of script.lines) (kept_by K.content K.faults result.keeper))
        (Rose (O.faults sink.old) (O.faults sink.new)) (O.written sink.old) (O.written sink.new) result.status) }
    ensures end { IsRunEnd result.status }
    ensures cause { HasRisen (Rose (O.faults sink.old) (O.faults sink.new))
        (Rose (K.faults keeper) (K.faults result.keeper)) result.status }
{
    let Script { plan, lines } = script;
    match open_farm(alloc, keeper, plan, caches) {
        Ok(farm) => count_farm(alloc, farm, lines, steps, sink),
        Err((keeper, fault)) => refuse_opening(keeper, fault, sink),
    }
}

/// A farm was not opened: says so, if the keeper failed.
fn refuse_opening<K: Keeper + Drop, O: Sink>(keeper: K, fault: NewFault, sink: &mut O) -> Ended<K>
    ensures keeper { result.keeper ≡ keeper }
    ensures status { result.status ≡ fault_status fault }
    ensures says { RefusesOpening (Rose (O.faults sink.old) (O.faults sink.new))
        (O.written sink.old) (O.written sink.new) fault }
{
    let status = match fault {
        NewFault::Fault => refuse(sink, STORE_FAULT, Status::StoreFault),
        NewFault::Memory => Status::Memory,
    };
    Ended { keeper, status }
}
