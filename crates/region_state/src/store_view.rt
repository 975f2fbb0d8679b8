// A page is rendered from a snapshot, put into the cache by the rule, and answered.
ghost use Rattle.std.specs.Arc.{arc_value};
ghost use Rattle.std.specs.Prelude.{◌≡◌, ◌≤◌, ◌-◌, false, IsSome, IfSome, IfOk};
ghost use Rattle.wiki_model.specs.Answers as model;
ghost use Rattle.wiki_model.specs.Cache.{IsCache, set_rule};
ghost use Rattle.wiki_model.specs.Limits.{greatest_moment};
ghost use Rattle.wan_value.specs.AsModel.{value_of};
ghost use Rattle.region_state.specs.AsModel.{answer_of};
ghost use Rattle.region_state.specs.StoreView.{NotesPut, StoresAt, StoresInto, StoresBy, replica_answer, rendered};
ghost use Rattle.region_state.specs.StoreView.{value_from};

use crate::answer::{Answer, PageAnswer};
use crate::replica_rows::age_at;
use crate::snap_view::Snapped;
use farm_base::{Memory, Moment};
use page_render::{Page, render};
use replica_apply::Snapshot;
use std::alloc::{AllocError, Global};
use std::sync::Arc;
use wan_cache::{Put, RegionStore, Value};
use wan_value::{LIFE_LAGGED, LIFE_WHOLE, SetRule, decide_set};
use wiki_model::{Origin, PutNote};
use wiki_titles::{Text, Title};

/// How pages of a region are rendered, and when they may be stored.
#[derive(Clone, Copy, Debug)]
pub struct PageRules {
    /// How far a snapshot may lag for its page to be stored whole, in milliseconds.
    pub read_lag: u32,
    /// The number of the markup.
    pub markup: u8,
}

/// A page that was rendered, to be stored at this moment.
#[derive(Drop)]
pub struct MadePage {
    /// The page, shared with whom it is answered to.
    pub page: Arc<Page>,
    /// The region's moment.
    pub at: Moment,
    /// The markup by which it was read.
    pub markup: u8,
}

/// Stores into a region's cache, which is there.
pub(crate) fn store_into<S: RegionStore<Page>>(
    alloc: Global,
    cache: &mut Option<S>,
    title: &Title,
    snapped: &Snapped,
    now: Moment,
    rules: PageRules,
) -> Answer
    requires there { IsSome cache.old }
    requires open { IfSome cache.old (λ c. (S.cache c).shared ≡ false) }
    requires later { IfSome cache.old (λ c. (S.cache c).greatest ≤ now) }
    requires small { now ≤ greatest_moment }
    ensures stores { StoresInto S.cache cache.old cache.new title.now snapped.now now rules.read_lag rules.markup
        (answer_of result) }
    ensures last { IfSome cache.new (λ c. (S.cache c).greatest ≤ now) }
{
    match cache {
        Some(cache) => store_at(alloc, cache, title, snapped, now, rules),
        None => Answer::Memory,
    }
}

/// Renders the page of a snapshot, puts it into the cache by the rule, and answers it.
fn store_at<S: RegionStore<Page>>(
    alloc: Global,
    cache: &mut S,
    title: &Title,
    snapped: &Snapped,
    now: Moment,
    rules: PageRules,
) -> Answer
    requires open { (S.cache cache.old).shared ≡ false }
    requires later { (S.cache cache.old).greatest ≤ now }
    requires small { now ≤ greatest_moment }
    ensures stores { StoresAt S.cache cache.old cache.new title.now snapped.now now rules.read_lag rules.markup
        (answer_of result) }
    ensures last { (S.cache cache.new).greatest ≤ now }
{
    let Some(text) = &snapped.snapshot.page else {
        return Answer::NoPage {
            source: snapped.snapshot.upto,
        };
    };
    let pages = rendered(alloc, title, text, &snapped.snapshot, rules.markup);
    let Ok((name, page, shared)) = pages else {
        return Answer::Memory;
    };
    let rule = rule_for(snapped, now, rules.read_lag);
    let made = MadePage {
        page: shared,
        at: now,
        markup: rules.markup,
    };
    let note = put_by(rule, cache, title, &snapped.snapshot, made);
    answer_from(name, snapped, note, page)
}

/// The page of a snapshot with a copy of its title, and shared once more for the cache.
pub fn rendered(
    alloc: Global,
    title: &Title,
    text: &Text,
    snapshot: &Snapshot,
    markup: u8,
) -> Result<(Title, Arc<Page>, Arc<Page>), Memory>
    ensures name { IfOk result (λ made. made.0 ≡ title.now) }
    ensures page { IfOk result (λ made. arc_value made.1 ≡ rendered markup title.now text.now snapshot.now) }
    ensures shared { IfOk result (λ made. arc_value made.2 ≡ rendered markup title.now text.now snapshot.now) }
{
    let page = render_page(alloc, title, text, snapshot, markup)?;
    match shared(alloc, title, page) {
        Ok(made) => Ok(made),
        Err(_) => Err(Memory),
    }
}

#[tactic(auto, unfolding(crate::specs::StoreView::rendered))]
fn render_page(
    alloc: Global,
    title: &Title,
    text: &Text,
    snapshot: &Snapshot,
    markup: u8,
) -> Result<Page, Memory>
    ensures { IfOk result (λ page. page ≡ rendered markup title.now text.now snapshot.now) }
{
    render(
        alloc,
        title,
        text,
        snapshot.templates.as_slice(),
        snapshot.notice.as_ref(),
        markup,
    )
}

fn shared(
    alloc: Global,
    title: &Title,
    page: Page,
) -> Result<(Title, Arc<Page>, Arc<Page>), AllocError>
    ensures name { IfOk result (λ made. made.0 ≡ title.now) }
    ensures page { IfOk result (λ made. arc_value made.1 ≡ page) }
    ensures shared { IfOk result (λ made. arc_value made.2 ≡ page) }
{
    let name = title.clone()?;
    let page = Arc::new(alloc, page)?;
    let shared = page.clone()?;
    Ok((name, page, shared))
}

/// How a page of this snapshot may be stored now, by its lag, by its age, and by an edit that was begun.
pub fn rule_for(snapped: &Snapped, now: Moment, read_lag: u32) -> SetRule
    ensures { result ≡ set_rule snapped.now.snapshot.lag (now - snapped.now.snapshot.since) snapped.now.pending
        read_lag }
{
    let age = age_at(now, snapped.snapshot.since);
    let read_lag = u64::from(read_lag);
    decide_set(snapped.snapshot.lag, age, snapped.pending, read_lag)
}

/// Stores the page by the rule, and answers what became of it.
fn put_by<S: RegionStore<Page>>(
    rule: SetRule,
    cache: &mut S,
    title: &Title,
    snapshot: &Snapshot,
    made: MadePage,
) -> PutNote
    requires open { (S.cache cache.old).shared ≡ false }
    requires later { (S.cache cache.old).greatest ≤ made.at }
    requires small { made.at ≤ greatest_moment }
    ensures known { IsCache (S.cache cache.new) }
    ensures last { (S.cache cache.new).greatest ≤ made.at }
    ensures stores { StoresBy rule (S.cache cache.old) (S.cache cache.new) title.now snapshot.now (arc_value made.page)
        made.at made.markup result }
{
    let note = put_under(rule, cache, title, snapshot, made);
    cache.known();
    note
}

fn put_under<S: RegionStore<Page>>(
    rule: SetRule,
    cache: &mut S,
    title: &Title,
    snapshot: &Snapshot,
    made: MadePage,
) -> PutNote
    requires open { (S.cache cache.old).shared ≡ false }
    requires later { (S.cache cache.old).greatest ≤ made.at }
    requires small { made.at ≤ greatest_moment }
    ensures last { (S.cache cache.new).greatest ≤ made.at }
    ensures stores { StoresBy rule (S.cache cache.old) (S.cache cache.new) title.now snapshot.now (arc_value made.page)
        made.at made.markup result }
{
    match rule {
        SetRule::Whole => {
            let value = value_of(snapshot, made, LIFE_WHOLE, false);
            note_of(cache.put(title, value), false)
        }
        SetRule::Lagged => {
            let value = value_of(snapshot, made, LIFE_LAGGED, true);
            note_of(cache.put(title, value), true)
        }
        SetRule::NoPending => PutNote::NoPending,
        SetRule::NoOld => PutNote::NoOld,
        SetRule::NoMedium => PutNote::NoMedium,
    }
}

/// The page as a cache keeps it.
pub fn value_of(snapshot: &Snapshot, made: MadePage, life: u64, lagged: bool) -> Value<Page>
    ensures { value_of result ≡ value_from snapshot.now (arc_value made.page) made.at life lagged made.markup }
{
    Value {
        page: made.page,
        upto: snapshot.upto,
        stamp: snapshot.stamp,
        set_at: made.at,
        life,
        lagged,
        version: made.markup,
    }
}

/// What a put's answer says of the page, which was put as lagged or not.
pub fn note_of(put: Put, lagged: bool) -> PutNote
    ensures { NotesPut put lagged result }
{
    match put {
        Put::Main => {
            if lagged {
                PutNote::Lagged
            } else {
                PutNote::Whole
            }
        }
        Put::Interim => PutNote::Interim,
        Put::Held { .. } => PutNote::Held,
        Put::Busy { holder } => PutNote::Busy(holder),
        Put::Memory => PutNote::Memory,
    }
}

/// The answer of a page that was rendered from a snapshot.
pub fn answer_from(title: Title, snapped: &Snapped, note: PutNote, page: Arc<Page>) -> Answer
    ensures { answer_of result ≡ model.Page (replica_answer title snapped.now note (arc_value page)) }
{
    Answer::Ok(PageAnswer {
        title,
        source: snapped.snapshot.upto,
        origin: Origin::Replica(snapped.replica),
        put: Some(note),
        lagged: snapped.lagged,
        page,
    })
}
