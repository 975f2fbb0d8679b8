// The jobs of a round, in their order, on the cache itself.
ghost use Rattle.std.specs.Prelude.{◌≡◌, ◌<◌, ◌≤◌, ◌+◌, All, IfSome, List, [], ◌∷◌, ◌++◌, length};
ghost use Rattle.wiki_model.specs.Limits.{greatest_moment};
ghost use Rattle.farm_steps.specs.ViewSteps.{region_at};
ghost use Rattle.region_state.specs.AsModel.{answer_of};
ghost use Rattle.region_round.specs.Alone.{IsReady, Kept};
ghost use Rattle.region_round.specs.declared.job.Job.{Job as CodeJob};
ghost use Rattle.region_round.specs.AsModel.{answers_of};
ghost use Rattle.region_round.specs.Jobs.{AreProper, DoesAll, IsProper, IsPurgeAt, Receives, ReceivesAll, Views};
ghost use Rattle.region_round.specs.Jobs.{sight_of, terms_of};
ghost use Rattle.region_round.specs.Ahead.{IsAhead, IsReadyFor, ready_in};
ghost use Rattle.region_round.specs.Prepared.{IsPrepared};
ghost use Rattle.wiki_model.specs.Titles.{Title as ModelTitle};

use crate::desk::{Alone, take_alone};
use crate::do_view::do_view;
use crate::gate::Gate;
use crate::job::{Job, ViewJob};
use crate::lent_cache::{LentCache, view_terms};
use crate::look_ahead::{Place, next_place};
use crate::prepare_view::{Prepared, ViewWork};
use farm_core::Farm;
use page_render::Page;
use purge_relay::Body;
use region_state::Answer;
use revision_keeper::Keeper;
use slot_cache::SlotCache;
use std::alloc::Global;
use wan_cache::RegionStore;
use wiki_titles::Title;

/// What there is of a round's views.
#[derive(Drop)]
pub(crate) struct RoundViews {
    /// What workers have ready for them, from the last to the first.
    pub places: Vec<Place>,
    /// The answers of those that are done.
    pub answers: Vec<Answer>,
}

/// Does the jobs in their order. There is room for their answers. A job that no worker had passes the gate here.
pub(crate) fn do_all<K: Keeper, G: Gate>(
    alloc: Global,
    farm: &Farm<K, SlotCache<Page>>,
    lent: &mut LentCache,
    jobs: &[Job],
    gate: &G,
    views: &mut RoundViews,
)
    requires ready { IsReady lent.old.cache lent.old.terms.at }
    requires small { lent.old.terms.at ≤ greatest_moment }
    requires proper { AreProper lent.old.region farm.now.ledger.rows jobs.now }
    requires empty { views.old.answers.items ≡ [] }
    requires room { length jobs.now ≤ views.old.answers.cap }
    requires ahead { All (IsAhead (region_at lent.old.region farm.now.home farm.now.west) lent.old.terms jobs.now)
        views.old.places.items }
    ensures ready { IsReady lent.new.cache lent.old.terms.at }
    ensures region { lent.new.region ≡ lent.old.region }
    ensures terms { lent.new.terms ≡ lent.old.terms }
    ensures does { DoesAll lent.old.region (sight_of lent.old.region farm.now) lent.old.terms jobs.now
        (answers_of views.new.answers.items) lent.old.cache lent.new.cache }
{
    let mut number: usize = 0;
    for job in jobs.iter() {
        let place = next_place(&mut views.places, number);
        if place.is_none() {
            gate.pass(number);
        }
        number += 1;
        let ready = ready_of(place);
        do_one(alloc, farm, lent, job, ready, &mut views.answers);
    }
}

/// Does one more job. There is room for its answer.
#[tactic(auto, using(crate::proofs::Sequence::then_view, crate::proofs::Sequence::then_receipt))]
fn do_one<K: Keeper>(
    alloc: Global,
    farm: &Farm<K, SlotCache<Page>>,
    lent: &mut LentCache,
    job: &Job,
    ready: Option<Prepared>,
    answers: &mut Vec<Answer>,
)
    requires ready { IsReady lent.old.cache lent.old.terms.at }
    requires small { lent.old.terms.at ≤ greatest_moment }
    requires proper { IsProper lent.old.region farm.now.ledger.rows job.now }
    requires room { length answers.old.items < answers.old.cap }
    requires ahead { IfSome ready (IsReadyFor (region_at lent.old.region farm.now.home farm.now.west) lent.old.terms
        job.now) }
    ensures ready { IsReady lent.new.cache lent.old.terms.at }
    ensures region { lent.new.region ≡ lent.old.region }
    ensures terms { lent.new.terms ≡ lent.old.terms }
    ensures room { answers.old.cap ≤ answers.new.cap }
    ensures few { length answers.new.items ≤ length answers.old.items + 1 }
    ensures does { (jobs : List CodeJob) (first : Kept)
        → DoesAll lent.old.region (sight_of lent.old.region farm.now) lent.old.terms jobs (answers_of answers.old.items)
        first lent.old.cache
        → DoesAll lent.old.region (sight_of lent.old.region farm.now) lent.old.terms (jobs ++ job.now ∷ [])
        (answers_of answers.new.items) first lent.new.cache }
{
    match job {
        Job::View(view) => {
            let answer = view_alone(alloc, farm, lent, view, ready);
            push_answer(answers, answer);
        }
        Job::Receipt(purge) => receive(farm, lent, *purge),
    }
}

/// Adds an answer. There is room for it.
#[tactic(auto, using(crate::proofs::Sequence::said_more))]
fn push_answer(answers: &mut Vec<Answer>, answer: Answer)
    requires room { length answers.old.items < answers.old.cap }
    ensures room { answers.old.cap ≤ answers.new.cap }
    ensures few { length answers.new.items ≡ length answers.old.items + 1 }
    ensures said { answers_of answers.new.items ≡ answers_of answers.old.items ++ answer_of answer ∷ [] }
{
    let Ok(()) = answers.push(answer) else {
        unreachable!()
    };
}

/// Does a view on the cache itself.
fn view_alone<K: Keeper>(
    alloc: Global,
    farm: &Farm<K, SlotCache<Page>>,
    lent: &mut LentCache,
    view: &ViewJob,
    ready: Option<Prepared>,
) -> Answer
    requires ready { IsReady lent.old.cache lent.old.terms.at }
    requires small { lent.old.terms.at ≤ greatest_moment }
    requires ahead { IfSome ready (λ prepared. IsPrepared (region_at lent.old.region farm.now.home farm.now.west)
        view.now (terms_of lent.old.terms prepared.snapped.pending) prepared) }
    ensures ready { IsReady lent.new.cache lent.old.terms.at }
    ensures region { lent.new.region ≡ lent.old.region }
    ensures terms { lent.new.terms ≡ lent.old.terms }
    ensures views { Views lent.old.region (sight_of lent.old.region farm.now) lent.old.terms view.now lent.old.cache
        lent.new.cache (answer_of result) }
{
    let pending = farm.pending(lent.region, &view.title);
    let terms = view_terms(lent.terms, pending);
    let region = farm.region(lent.region);
    let work = ViewWork { terms, ready };
    let answer = do_view(alloc, &Alone, &mut lent.cache, region, view, work);
    lent.cache.known();
    answer
}

/// What a place has ready.
fn ready_of(place: Option<Place>) -> Option<Prepared>
    ensures { result ≡ ready_in place }
{
    match place {
        Some(place) => place.ready,
        None => None,
    }
}

/// Gives the cache the purge of this number.
fn receive<K: Keeper>(farm: &Farm<K, SlotCache<Page>>, lent: &mut LentCache, number: u64)
    requires ready { IsReady lent.old.cache lent.old.terms.at }
    requires small { lent.old.terms.at ≤ greatest_moment }
    requires purge { (title : ModelTitle) × IsPurgeAt farm.now.ledger.rows number title }
    ensures ready { IsReady lent.new.cache lent.old.terms.at }
    ensures region { lent.new.region ≡ lent.old.region }
    ensures terms { lent.new.terms ≡ lent.old.terms }
    ensures receives { Receives farm.now.ledger.rows number lent.old.terms.at lent.old.cache lent.new.cache }
{
    let title = purged_title(farm, number);
    take_alone(&mut lent.cache, title, lent.terms.at);
}

/// The title of a purge that was issued.
fn purged_title<'a, K: Keeper>(farm: &'a Farm<K, SlotCache<Page>>, number: u64) -> &'a Title
    requires purge { (title : ModelTitle) × IsPurgeAt farm.now.ledger.rows number title }
    ensures { IsPurgeAt farm.now.ledger.rows number result.now }
{
    let Some(message) = farm.message(number) else {
        unreachable!()
    };
    match &message.body {
        Body::Purge { title, .. } => title,
        Body::Position { .. } => unreachable!(),
    }
}

/// Gives the cache all purges, and does nothing else.
pub(crate) fn receive_all<K: Keeper>(
    farm: &Farm<K, SlotCache<Page>>,
    lent: &mut LentCache,
    jobs: &[Job],
)
    requires ready { IsReady lent.old.cache lent.old.terms.at }
    requires small { lent.old.terms.at ≤ greatest_moment }
    requires proper { AreProper lent.old.region farm.now.ledger.rows jobs.now }
    ensures ready { IsReady lent.new.cache lent.old.terms.at }
    ensures region { lent.new.region ≡ lent.old.region }
    ensures terms { lent.new.terms ≡ lent.old.terms }
    ensures receives { ReceivesAll farm.now.ledger.rows lent.old.terms.at jobs.now lent.old.cache lent.new.cache }
{
    for job in jobs.iter() {
        receive_one(farm, lent, job);
    }
}

/// Gives the cache the purge of one more job, if it is a receipt.
#[tactic(auto, using(crate::proofs::Sequence::received_more, crate::proofs::Sequence::not_received))]
fn receive_one<K: Keeper>(farm: &Farm<K, SlotCache<Page>>, lent: &mut LentCache, job: &Job)
    requires ready { IsReady lent.old.cache lent.old.terms.at }
    requires small { lent.old.terms.at ≤ greatest_moment }
    requires proper { IsProper lent.old.region farm.now.ledger.rows job.now }
    ensures ready { IsReady lent.new.cache lent.old.terms.at }
    ensures region { lent.new.region ≡ lent.old.region }
    ensures terms { lent.new.terms ≡ lent.old.terms }
    ensures receives { (jobs : List CodeJob) (first : Kept)
        → ReceivesAll farm.now.ledger.rows lent.old.terms.at jobs first lent.old.cache
        → ReceivesAll farm.now.ledger.rows lent.old.terms.at (jobs ++ job.now ∷ []) first lent.new.cache }
{
    match job {
        Job::View(_) => {}
        Job::Receipt(purge) => receive(farm, lent, *purge),
    }
}
