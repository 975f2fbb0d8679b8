// The steps of a whole page and of a whole edit, up to the first answer.
ghost use Rattle.std.specs.Prelude.{◌≡◌, ◌↔◌, IsTrue, None, Some, option_map};
ghost use Rattle.wiki_model.specs.World.Asked.{AskedView, AskedEdit};
ghost use Rattle.edit_core.specs.AsModel.{edit_of};
ghost use Rattle.region_state.specs.AsModel.{answer_of, view_of};
ghost use Rattle.region_state.specs.declared.ask.Asked.TheVariants as asked;
ghost use Rattle.farm_core.specs.FarmParts.{IsWhole};
ghost use Rattle.farm_steps.specs.RequestMap.{open_at};
ghost use Rattle.wiki_serve.specs.Turns.{MakesAnswer, IsMissed};
ghost use Rattle.slot_cache.specs.AsModel.{map_of};

use farm_base::Readings;
use farm_core::{Answer, Asked, EditAsk, Farm, Page, ViewAsk};
use revision_keeper::Keeper;
use slot_cache::SlotCache;
use std::alloc::Global;

/// A whole edit, up to its first answer.
pub(crate) fn make_edit<K: Keeper>(
    farm: &mut Farm<K, SlotCache<Page>>,
    at: &Readings,
    ask: EditAsk,
) -> Option<Answer>
    requires whole { IsWhole farm.old }
    requires free { open_at farm.old.requests 0 ≡ None }
    ensures { MakesAnswer K.content K.faults map_of farm.old farm.new at.now
        (AskedEdit (edit_of ask)) (option_map answer_of result) }
{
    let opened = farm.arrive(*at, 0, of_edit(ask));
    if opened.is_some() {
        return opened;
    }
    let begun = farm.begin(*at, 0);
    if begun.is_some() {
        return begun;
    }
    farm.commit(*at, 0)
}

/// A whole view, up to its first answer that is no miss.
pub(crate) fn make_view<K: Keeper>(
    alloc: Global,
    farm: &mut Farm<K, SlotCache<Page>>,
    at: &Readings,
    ask: ViewAsk,
) -> Option<Answer>
    requires whole { IsWhole farm.old }
    requires free { open_at farm.old.requests 0 ≡ None }
    ensures { MakesAnswer K.content K.faults map_of farm.old farm.new at.now
        (AskedView (view_of ask)) (option_map answer_of result) }
{
    let opened = farm.arrive(*at, 0, of_view(ask));
    if opened.is_some() {
        return opened;
    }
    let waited = farm.wait(*at, 0, true);
    if waited.is_some() {
        return waited;
    }
    let looked = farm.look(*at, 0);
    if !has_missed(&looked) {
        return looked;
    }
    let snapped = farm.snap(alloc, *at, 0);
    if snapped.is_some() {
        return snapped;
    }
    farm.store(alloc, *at, 0)
}

fn has_missed(answer: &Option<Answer>) -> bool
    ensures { IsTrue result ↔ IsMissed (option_map answer_of answer.now) }
{
    match answer {
        Some(Answer::Miss { .. }) => true,
        _ => false,
    }
}

fn of_edit(ask: EditAsk) -> Asked
    ensures { result ≡ asked.Edit ask }
{
    Asked::Edit(ask)
}

pub(crate) fn of_view(ask: ViewAsk) -> Asked
    ensures { result ≡ asked.View ask }
{
    Asked::View(ask)
}
