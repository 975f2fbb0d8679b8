// The steps of one line.
ghost use Rattle.std.specs.Prelude.{◌≡◌, ◌↔◌, IsTrue, None, Some, option_map};
ghost use Rattle.drill_script.specs.AsModel.{line_of};
ghost use Rattle.wiki_model.specs.Script.{EditLine, ViewLine};
ghost use Rattle.edit_core.specs.AsModel.{edit_of};
ghost use Rattle.region_state.specs.AsModel.{answer_of, view_of};
ghost use Rattle.region_state.specs.declared.ask.Asked.TheVariants as asked;
ghost use Rattle.farm_core.specs.FarmParts.{IsWhole};
ghost use Rattle.farm_steps.specs.RequestMap.{open_at};
ghost use Rattle.script_runner.specs.MakeLine.{IsReadyFor, IsMissed, MakesLine};

use drill_script::ScriptLine;
use farm_base::Readings;
use farm_core::{Answer, Asked, EditAsk, Farm, Page, ViewAsk};
use revision_keeper::Keeper;
use std::alloc::Global;
use wan_cache::RegionStore;

/// Makes the steps of a line at these readings, and gives the answer that the report has of it: a line has at most
/// one. A line that sets something makes no step.
pub fn make_line<K: Keeper, S: RegionStore<Page>>(
    alloc: Global,
    farm: &mut Farm<K, S>,
    at: Readings,
    line: ScriptLine,
) -> Option<Answer>
    requires whole { IsWhole farm.old }
    requires free { open_at farm.old.requests 0 ≡ None }
    requires ready { IsReadyFor farm.old line }
    ensures { MakesLine K.content K.faults S.cache farm.old farm.new at (line_of line) (option_map answer_of result) }
{
    match line {
        ScriptLine::Farm { .. } => None,
        ScriptLine::Bounds(_) => None,
        ScriptLine::At(_) => None,
        ScriptLine::Beat => farm.beat(at),
        ScriptLine::Apply {
            region,
            replica,
            count,
        } => farm.apply(at, region, replica, count),
        ScriptLine::Edit(ask) => make_edit(farm, &at, ask),
        ScriptLine::View(ask) => make_view(alloc, farm, &at, ask),
        ScriptLine::Arrive { id, asked } => farm.arrive(at, id, asked),
        ScriptLine::Begin { id } => farm.begin(at, id),
        ScriptLine::Commit { id } => farm.commit(at, id),
        ScriptLine::Wait { id } => farm.wait(at, id, false),
        ScriptLine::Look { id } => farm.look(at, id),
        ScriptLine::Snap { id } => farm.snap(alloc, at, id),
        ScriptLine::Store { id } => farm.store(alloc, at, id),
        ScriptLine::Carry { number } => farm.carry(at, number, None),
        ScriptLine::Drop { number } => farm.drop_message(at, number),
        ScriptLine::Markup(markup) => {
            farm.set_markup(at, markup);
            None
        }
        ScriptLine::End => None,
    }
}

/// A whole edit, up to its first answer.
fn make_edit<K: Keeper, S: RegionStore<Page>>(
    farm: &mut Farm<K, S>,
    at: &Readings,
    ask: EditAsk,
) -> Option<Answer>
    requires whole { IsWhole farm.old }
    requires free { open_at farm.old.requests 0 ≡ None }
    ensures { MakesLine K.content K.faults S.cache farm.old farm.new at.now
        (EditLine (edit_of ask)) (option_map answer_of result) }
{
    let opened = farm.arrive(*at, 0, of_edit(ask));
    if opened.is_some() {
        return opened;
    }
    let begun = farm.begin(*at, 0);
    if begun.is_some() {
        return begun;
    }
    farm.commit(*at, 0)
}

/// A whole view, up to its first answer that is no miss.
fn make_view<K: Keeper, S: RegionStore<Page>>(
    alloc: Global,
    farm: &mut Farm<K, S>,
    at: &Readings,
    ask: ViewAsk,
) -> Option<Answer>
    requires whole { IsWhole farm.old }
    requires free { open_at farm.old.requests 0 ≡ None }
    ensures { MakesLine K.content K.faults S.cache farm.old farm.new at.now
        (ViewLine (view_of ask)) (option_map answer_of result) }
{
    let opened = farm.arrive(*at, 0, of_view(ask));
    if opened.is_some() {
        return opened;
    }
    let waited = farm.wait(*at, 0, true);
    if waited.is_some() {
        return waited;
    }
    let looked = farm.look(*at, 0);
    if !has_missed(&looked) {
        return looked;
    }
    let snapped = farm.snap(alloc, *at, 0);
    if snapped.is_some() {
        return snapped;
    }
    farm.store(alloc, *at, 0)
}

fn has_missed(answer: &Option<Answer>) -> bool
    ensures { IsTrue result ↔ IsMissed (option_map answer_of answer.now) }
{
    match answer {
        Some(Answer::Miss { .. }) => true,
        _ => false,
    }
}

fn of_edit(ask: EditAsk) -> Asked
    ensures { result ≡ asked.Edit ask }
{
    Asked::Edit(ask)
}

fn of_view(ask: ViewAsk) -> Asked
    ensures { result ≡ asked.View ask }
{
    Asked::View(ask)
}
