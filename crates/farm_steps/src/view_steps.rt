// The steps of a view.
ghost use Rattle.wiki_model.specs.Answers as model;
ghost use Rattle.std.specs.Prelude.{◌≡◌, ◌≤◌, ◌<◌, ◌+◌, ◌||◌, length, nat_le, Some, None, IsSome, IfSome, IfOk};
ghost use Rattle.std.specs.Prelude.{option_map, ◌↔◌, IsTrue};
ghost use Rattle.wiki_model.specs.Limits.{greatest_moment, wait_limit};
ghost use Rattle.wan_value.specs.AsModel.{value_of};
ghost use Rattle.wiki_model.specs.CacheCalls.{answer_from};
ghost use Rattle.region_state.specs.AsModel.{answer_of, page_of};
ghost use Rattle.farm_steps.specs.RequestMap.{kept_at, open_at, arrived_view, waited_view, need_of, looked_view};
ghost use Rattle.farm_steps.specs.RequestMap.{snapped_view};
ghost use Rattle.farm_steps.specs.Moments.{moment_of};
ghost use Rattle.region_state.specs.RegionState.{IsBefore};
ghost use Rattle.farm_steps.specs.ArriveStep.{Arrives, open_of, region_for};
ghost use Rattle.farm_steps.specs.ViewSteps.{Needs, SnapsTo, SnapsView, Waits, WaitsTo, Looks, LooksTo, StoresTo};
ghost use Rattle.farm_steps.specs.ViewSteps.{HasBegun, IsPendingIn, begun_on, any_begun, AreFound, region_at};
ghost use Rattle.region_state.specs.WaitView.{known_in, lag_in, waits};
ghost use Rattle.region_state.specs.SnapView.{ask_for, SnapsIn};
ghost use Rattle.wan_cache.specs.Rules.{IsFound};
ghost use Rattle.farm_steps.specs.ApplyStep.{apply_answer, AppliesMade, AppliesIn};
ghost use Rattle.wiki_model.specs.Cache.{Found, look as look_in};
ghost use Rattle.wiki_model.specs.Bytes.{Bytes};

use crate::moments::moment_of;
use crate::open_request::OpenRequest;
use crate::request_map::{
    Requests, close, open, put, take_arrived_view, take_looked_view, take_snapped_view,
    take_waited_view,
};
use farm_base::{Memory, Moment, Readings, Region};
use page_render::Page;
use region_state::{
    Answer, Asked, OpenView, Origin, PageAnswer, RegionState, SnapTerms, Snapped, ViewAsk, Wait,
};
use revision_keeper::{KeepFault, Keeper};
use std::alloc::Global;
use wan_cache::{Look, RegionStore, Value};
use wiki_titles::Title;

/// The step `wait`.
pub fn wait<S: RegionStore<Page>>(
    requests: &mut Requests,
    home: &RegionState<S>,
    west: &RegionState<S>,
    at: Readings,
    id: u64,
    last: bool,
) -> Option<Answer>
    ensures { Waits home.now west.now at id last requests.old.entries requests.new.entries (option_map answer_of result)
        (arrived_view (open_at requests.old.entries id)) }
{
    let Some(view) = take_arrived_view(requests, id) else {
        return Some(Answer::NotOpen { id });
    };
    let outcome = wait_in(home, west, at, &view, last);
    waited(requests, id, view, outcome)
}

fn wait_in<S: RegionStore<Page>>(
    home: &RegionState<S>,
    west: &RegionState<S>,
    at: Readings,
    view: &OpenView,
    last: bool,
) -> Wait
    ensures { result ≡ waits (last || nat_le (view.now.arrived + wait_limit) (moment_of view.now.region at))
        (known_in (region_at view.now.region home.now west.now).positions view.now.ask.client
        (moment_of view.now.region at)).position
        (lag_in (region_at view.now.region home.now west.now) view.now.ask (moment_of view.now.region at)) }
{
    match view.region {
        Region::Home => home.wait(&view.ask, view.arrived, at.home, last),
        Region::West => west.wait(&view.ask, view.arrived, at.west, last),
    }
}

#[tactic(auto, using(crate::proofs::Twice::placed_twice))]
fn waited(requests: &mut Requests, id: u64, view: OpenView, outcome: Wait) -> Option<Answer>
    requires { kept_at requests.old.entries id ≡ Some OpenRequest.Taken }
    ensures { WaitsTo outcome id view requests.old.entries requests.new.entries (option_map answer_of result) }
{
    match outcome {
        Wait::Go { need } => {
            let _ = put(requests, id, OpenRequest::ViewWaited { view, need });
            None
        }
        Wait::Stay => {
            let _ = put(requests, id, OpenRequest::ViewArrived(view));
            None
        }
        Wait::Lag {
            by,
            needed,
            reached,
        } => {
            close(requests, id);
            Some(Answer::Lag {
                by,
                needed,
                reached,
            })
        }
    }
}

/// The step `look`.
pub fn look<S: RegionStore<Page>>(
    requests: &mut Requests,
    home: &RegionState<S>,
    west: &RegionState<S>,
    at: Readings,
    id: u64,
) -> Option<Answer>
    requires home_there { IsSome home.now.cache }
    requires west_there { IsSome west.now.cache }
    requires home_before { IsBefore S.cache home.now at.home }
    requires west_before { IsBefore S.cache west.now at.west }
    requires home_small { at.home ≤ greatest_moment }
    requires west_small { at.west ≤ greatest_moment }
    ensures { Looks S.cache home.now west.now at id requests.old.entries requests.new.entries
        (option_map answer_of result) (waited_view (open_at requests.old.entries id)) }
{
    let Some((view, need)) = take_waited_view(requests, id) else {
        return Some(Answer::NotOpen { id });
    };
    let found = look_in(home, west, at, &view, need);
    looked(requests, id, view, need, found)
}

fn look_in<S: RegionStore<Page>>(
    home: &RegionState<S>,
    west: &RegionState<S>,
    at: Readings,
    view: &OpenView,
    need: u64,
) -> Look<Page>
    requires home_there { IsSome home.now.cache }
    requires west_there { IsSome west.now.cache }
    requires home_before { IsBefore S.cache home.now at.home }
    requires west_before { IsBefore S.cache west.now at.west }
    requires home_small { at.home ≤ greatest_moment }
    requires west_small { at.west ≤ greatest_moment }
    ensures { IfSome (region_at view.now.region home.now west.now).cache
        (λ c. IsFound result (look_in (S.cache c) view.now.ask.title (moment_of view.now.region at)
        (ask_for (region_at view.now.region home.now west.now) need))) }
{
    match view.region {
        Region::Home => home.look(&view.ask.title, need, at.home),
        Region::West => west.look(&view.ask.title, need, at.west),
    }
}

#[tactic(auto, using(crate::proofs::Twice::placed_twice))]
fn looked(
    requests: &mut Requests,
    id: u64,
    view: OpenView,
    need: u64,
    found: Look<Page>,
) -> Option<Answer>
    requires { kept_at requests.old.entries id ≡ Some OpenRequest.Taken }
    ensures { (f : Found Bytes) → IsFound found f → LooksTo id view need requests.old.entries requests.new.entries
        (option_map answer_of result) f }
{
    match found {
        Look::Hit(value) => {
            close(requests, id);
            Some(cached(title_of(view), Origin::Hit, value))
        }
        Look::Interim(value) => {
            close(requests, id);
            Some(cached(title_of(view), Origin::Interim, value))
        }
        Look::Miss(cause) => {
            let _ = put(requests, id, OpenRequest::ViewLooked { view, need });
            Some(Answer::Miss { cause })
        }
        Look::Memory => {
            close(requests, id);
            Some(Answer::Memory)
        }
    }
}

/// The answer of a view from a value of its region's cache.
fn cached(title: Title, origin: Origin, value: Value<Page>) -> Answer
    ensures { answer_of result ≡ model.Page (answer_from title origin (value_of value)) }
{
    Answer::Ok(PageAnswer {
        title,
        source: value.upto,
        origin,
        put: None,
        lagged: value.lagged,
        page: value.page,
    })
}

fn title_of(view: OpenView) -> Title
    ensures { result ≡ view.ask.title }
{
    view.ask.title
}

/// The step `need`.
pub fn need(requests: &mut Requests, id: u64) -> Option<u64>
    ensures does { Needs id requests.old.entries requests.new.entries (waited_view (open_at requests.old.entries id)) }
    ensures need { result ≡ need_of (waited_view (open_at requests.old.entries id)) }
{
    let Some((_, need)) = take_waited_view(requests, id) else {
        return None;
    };
    close(requests, id);
    Some(need)
}

fn any_begun(requests: &Requests, title: &Title) -> bool
    ensures any { result ≡ any_begun title.now requests.now.entries }
    ensures found { AreFound requests.now.entries }
{
    for request in requests {
        if is_begun_on(request.1, title) {
            return true;
        }
    }
    false
}

fn is_begun_on(request: &OpenRequest, title: &Title) -> bool
    ensures { result ≡ begun_on title.now request.now }
{
    match request {
        OpenRequest::EditBegun(begun) => begun.ask.title.text() == title.text(),
        _ => false,
    }
}

/// Whether an edit of the title is begun while a view of this region reads it.
pub fn is_pending(requests: &Requests, region: Region, title: &Title) -> bool
    ensures { IsPendingIn region requests.now.entries title.now result }
{
    match region {
        Region::Home => has_begun(requests, title),
        Region::West => false,
    }
}

/// Whether an edit of the title is begun.
fn has_begun(requests: &Requests, title: &Title) -> bool
    ensures { IsTrue result ↔ HasBegun requests.now.entries title.now }
{
    any_begun(requests, title)
}

/// The step `snap`.
pub fn snap<S: RegionStore<Page>>(
    alloc: Global,
    requests: &mut Requests,
    home: &RegionState<S>,
    west: &RegionState<S>,
    at: Readings,
    id: u64,
) -> Option<Answer>
    ensures { SnapsTo home.now west.now at id requests.old.entries requests.new.entries (option_map answer_of result)
        (looked_view (open_at requests.old.entries id)) }
{
    let Some((view, need)) = take_looked_view(requests, id) else {
        return Some(Answer::NotOpen { id });
    };
    let pending = is_pending(requests, view.region, &view.ask.title);
    let terms = SnapTerms {
        need,
        word: view.ask.word,
        pending,
    };
    let made = snap_in(alloc, home, west, at, &view, terms);
    snapped(requests, id, view, made)
}

fn snap_in<S: RegionStore<Page>>(
    alloc: Global,
    home: &RegionState<S>,
    west: &RegionState<S>,
    at: Readings,
    view: &OpenView,
    terms: SnapTerms,
) -> Result<Snapped, Memory>
    ensures { IfOk result (λ s. SnapsIn (region_at view.now.region home.now west.now) view.now.ask.title terms.need
        terms.word terms.pending (moment_of view.now.region at) s) }
{
    match view.region {
        Region::Home => home.snap(alloc, &view.ask.title, terms, at.home),
        Region::West => west.snap(alloc, &view.ask.title, terms, at.west),
    }
}

#[tactic(auto, using(crate::proofs::Twice::placed_twice))]
fn snapped(
    requests: &mut Requests,
    id: u64,
    view: OpenView,
    made: Result<Snapped, Memory>,
) -> Option<Answer>
    requires { kept_at requests.old.entries id ≡ Some OpenRequest.Taken }
    ensures { SnapsView id view requests.old.entries requests.new.entries (option_map answer_of result) made }
{
    match made {
        Ok(snapped) => {
            let _ = put(requests, id, OpenRequest::ViewSnapped { view, snapped });
            None
        }
        Err(Memory) => {
            close(requests, id);
            Some(Answer::Memory)
        }
    }
}

/// The step `store`: closes the request and answers the page of its snapshot.
pub fn store<S: RegionStore<Page>>(
    alloc: Global,
    requests: &mut Requests,
    home: &mut RegionState<S>,
    west: &mut RegionState<S>,
    at: Readings,
    id: u64,
) -> Answer
    requires home_there { IsSome home.old.cache }
    requires west_there { IsSome west.old.cache }
    requires home_before { IsBefore S.cache home.old at.home }
    requires west_before { IsBefore S.cache west.old at.west }
    requires home_small { at.home ≤ greatest_moment }
    requires west_small { at.west ≤ greatest_moment }
    ensures { StoresTo S.cache home.old west.old home.new west.new at id requests.old.entries requests.new.entries
        (answer_of result) (snapped_view (open_at requests.old.entries id)) }
{
    let Some((view, snapped)) = take_snapped_view(requests, id) else {
        return Answer::NotOpen { id };
    };
    close(requests, id);
    match view.region {
        Region::Home => home.store(alloc, &view.ask.title, &snapped, at.home),
        Region::West => west.store(alloc, &view.ask.title, &snapped, at.west),
    }
}

/// The step `arrive`.
pub fn arrive(requests: &mut Requests, at: Readings, id: u64, asked: Asked) -> Option<Answer>
    ensures { Arrives at id asked requests.old.entries requests.new.entries (option_map answer_of result) }
{
    match open(requests, id, request_of(at, asked)) {
        Ok(()) => None,
        Err(Memory) => Some(Answer::Memory),
    }
}

/// What arrives, as an open request.
fn request_of(at: Readings, asked: Asked) -> OpenRequest
    ensures { result ≡ open_of at asked }
{
    match asked {
        Asked::Edit(ask) => OpenRequest::EditArrived(ask),
        Asked::View(ask) => {
            let region = region_for(&ask);
            OpenRequest::ViewArrived(OpenView {
                ask,
                region,
                arrived: moment_of(at, region),
            })
        }
    }
}

fn region_for(view: &ViewAsk) -> Region
    ensures { result ≡ region_for view.now }
{
    if view.use_master {
        Region::Home
    } else {
        view.host
    }
}

/// The step `apply`.
pub fn apply<K: Keeper, S: RegionStore<Page>>(
    keeper: &mut K,
    home: &mut RegionState<S>,
    west: &mut RegionState<S>,
    region: Region,
    replica: u8,
    count: u32,
) -> Option<Answer>
    requires { replica < length (region_at region home.old west.old).replicas }
    ensures { AppliesIn (K.content keeper.old) (K.content keeper.new) (K.faults keeper.old) (K.faults keeper.new)
        home.old west.old home.new west.new region replica count (option_map answer_of result) }
{
    applied(apply_in(keeper, home, west, region, replica, count))
}

fn applied(made: Result<(), KeepFault>) -> Option<Answer>
    ensures { option_map answer_of result ≡ apply_answer made }
{
    match made {
        Ok(()) => None,
        Err(KeepFault::Fault) => Some(Answer::Store),
        Err(KeepFault::Memory) => Some(Answer::Memory),
    }
}

fn apply_in<K: Keeper, S: RegionStore<Page>>(
    keeper: &mut K,
    home: &mut RegionState<S>,
    west: &mut RegionState<S>,
    region: Region,
    replica: u8,
    count: u32,
) -> Result<(), KeepFault>
    requires { replica < length (region_at region home.old west.old).replicas }
    ensures { AppliesMade (K.content keeper.old) (K.content keeper.new) (K.faults keeper.old) (K.faults keeper.new)
        home.old west.old home.new west.new region replica count result }
{
    match region {
        Region::Home => home.apply(keeper, replica, count),
        Region::West => west.apply(keeper, replica, count),
    }
}
