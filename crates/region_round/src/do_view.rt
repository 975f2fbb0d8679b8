// A view job: a page of the cache, or one that is rendered and put there.
ghost use Rattle.std.specs.Prelude.{◌≡◌, ◌≤◌, Some, IfSome};
ghost use Rattle.std.specs.Arc.{arc_value};
ghost use Rattle.wiki_model.specs.Answers as model;
ghost use Rattle.wiki_model.specs.CacheCalls.{answer_from as answer_of_value};
ghost use Rattle.wiki_model.specs.Limits.{greatest_moment};
ghost use Rattle.wan_value.specs.AsModel.{value_of as cached_of};
ghost use Rattle.wan_value.specs.declared.Value.{Value as CodeValue};
ghost use Rattle.wiki_model.specs.Bytes.{Bytes};
ghost use Rattle.region_state.specs.AsModel.{answer_of};
ghost use Rattle.region_state.specs.StoreView.{rendered as page_of, rule_at};
ghost use Rattle.region_round.specs.Prepared.{IsMade, IsPreparedFor};
ghost use Rattle.region_round.specs.Views.{AnswersLook, DoesView, IsPutBy, Makes, MayPut, PutsBy, Renders, Shows};

use crate::desk::Desk;
use crate::job::ViewJob;
use crate::prepare_view::{Prepared, ViewTerms, ViewWork, ask_of, prepared_or_made};
use page_render::Page;
use region_state::{
    Answer, MadePage, Origin, PageAnswer, PutNote, RegionState, answer_from, note_of, rule_for,
    value_of,
};
use replica_apply::Snapshot;
use std::alloc::Global;
use wan_cache::{Look, RegionStore, Value};
use wan_value::{LIFE_LAGGED, LIFE_WHOLE, SetRule};
use wiki_titles::Title;

/// Does a view at a desk. What was prepared for it counts if the desk misses.
pub(crate) fn do_view<P, D: Desk<P>, S: RegionStore<Page>>(
    alloc: Global,
    desk: &D,
    place: &mut P,
    region: &RegionState<S>,
    view: &ViewJob,
    work: ViewWork,
) -> Answer
    requires ready { D.ready desk.now place.old work.terms.at }
    requires small { work.terms.at ≤ greatest_moment }
    requires prepared { IfSome work.ready (IsPreparedFor region.now view.now work.terms) }
    requires accepts { (value : CodeValue Bytes) → MayPut region.now view.now work.terms value
        → D.accepts desk.now view.now.title value }
    ensures ready { D.ready desk.now place.new work.terms.at }
    ensures does { DoesView (D.looks desk.now) (D.puts desk.now) region.now view.now work.terms place.old place.new
        (answer_of result) }
{
    let ViewWork { terms, ready } = work;
    let ask = ask_of(view, &terms);
    match desk.look(place, &view.title, terms.at, &ask) {
        Look::Hit(value) => from_cache(&view.title, Origin::Hit, value),
        Look::Interim(value) => from_cache(&view.title, Origin::Interim, value),
        Look::Miss(_) => {
            let work = ViewWork { terms, ready };
            make_view(alloc, desk, place, region, view, work)
        }
        Look::Memory => Answer::Memory,
    }
}

/// The answer of a view from a value of the cache.
fn from_cache(title: &Title, origin: Origin, value: Value<Page>) -> Answer
    ensures { Shows (answer_of_value title.now origin (cached_of value)) (answer_of result) }
{
    let Ok(title) = title.clone() else {
        return Answer::Memory;
    };
    Answer::Ok(PageAnswer {
        title,
        source: value.upto,
        origin,
        put: None,
        lagged: value.lagged,
        page: value.page,
    })
}

/// Answers a view that missed, from a snapshot of a replica.
fn make_view<P, D: Desk<P>, S: RegionStore<Page>>(
    alloc: Global,
    desk: &D,
    place: &mut P,
    region: &RegionState<S>,
    view: &ViewJob,
    work: ViewWork,
) -> Answer
    requires ready { D.ready desk.now place.old work.terms.at }
    requires small { work.terms.at ≤ greatest_moment }
    requires prepared { IfSome work.ready (IsPreparedFor region.now view.now work.terms) }
    requires accepts { (value : CodeValue Bytes) → MayPut region.now view.now work.terms value
        → D.accepts desk.now view.now.title value }
    ensures ready { D.ready desk.now place.new work.terms.at }
    ensures makes { Makes (D.puts desk.now) region.now place.old place.new view.now work.terms (answer_of result) }
{
    let ViewWork { terms, ready } = work;
    let Ok(prepared) = prepared_or_made(alloc, region, view, &terms, ready) else {
        return Answer::Memory;
    };
    put_prepared(desk, place, &view.title, prepared, &terms)
}

/// Puts the page of a snapshot by the rule, and answers it.
fn put_prepared<P, D: Desk<P>>(
    desk: &D,
    place: &mut P,
    title: &Title,
    prepared: Prepared,
    terms: &ViewTerms,
) -> Answer
    requires ready { D.ready desk.now place.old terms.now.at }
    requires small { terms.now.at ≤ greatest_moment }
    requires made { IsMade terms.now.rules.markup title.now prepared.snapped.snapshot prepared.pages }
    requires accepts { (text : Bytes) (value : CodeValue Bytes) → prepared.snapped.snapshot.page ≡ Some text
        → IsPutBy (rule_at prepared.snapped terms.now.at terms.now.rules.read_lag) prepared.snapped.snapshot
        (page_of terms.now.rules.markup title.now text prepared.snapped.snapshot) terms.now.at
        terms.now.rules.markup value
        → D.accepts desk.now title.now value }
    ensures ready { D.ready desk.now place.new terms.now.at }
    ensures renders { Renders (D.puts desk.now) place.old place.new title.now prepared.snapped terms.now
        (answer_of result) }
{
    let Prepared { snapped, pages } = prepared;
    let Some(pages) = pages else {
        return Answer::NoPage {
            source: snapped.snapshot.upto,
        };
    };
    let rule = rule_for(&snapped, terms.at, terms.rules.read_lag);
    let made = MadePage {
        page: pages.shared,
        at: terms.at,
        markup: terms.rules.markup,
    };
    let note = put_by(rule, desk, place, title, &snapped.snapshot, made);
    answer_from(pages.name, &snapped, note, pages.page)
}

/// Puts the page by the rule, and tells what became of it.
fn put_by<P, D: Desk<P>>(
    rule: SetRule,
    desk: &D,
    place: &mut P,
    title: &Title,
    snapshot: &Snapshot,
    made: MadePage,
) -> PutNote
    requires ready { D.ready desk.now place.old made.at }
    requires small { made.at ≤ greatest_moment }
    requires accepts { (value : CodeValue Bytes)
        → IsPutBy rule snapshot.now (arc_value made.page) made.at made.markup value
        → D.accepts desk.now title.now value }
    ensures ready { D.ready desk.now place.new made.at }
    ensures puts { PutsBy (D.puts desk.now) rule place.old place.new title.now snapshot.now (arc_value made.page)
        made.at made.markup result }
{
    match rule {
        SetRule::Whole => {
            let value = value_of(snapshot, made, LIFE_WHOLE, false);
            note_of(desk.put(place, title, value), false)
        }
        SetRule::Lagged => {
            let value = value_of(snapshot, made, LIFE_LAGGED, true);
            note_of(desk.put(place, title, value), true)
        }
        SetRule::NoPending => PutNote::NoPending,
        SetRule::NoOld => PutNote::NoOld,
        SetRule::NoMedium => PutNote::NoMedium,
    }
}
