// A round: the cache is lent, the jobs are done, the cache is given back.
ghost use Rattle.std.specs.Prelude.{◌≡◌, ◌<◌, ◌≤◌, ◌+◌, Some, None, IsSome, IfOk, OnErr, List, [], ◌∷◌, ◌++◌, length};
ghost use Rattle.region_round.specs.declared.job.Job.{Job as CodeJob};
ghost use Rattle.wiki_model.specs.Limits.{greatest_moment, jobs_max};
ghost use Rattle.farm_core.specs.LendCache.{purges_of};
ghost use Rattle.farm_steps.specs.ViewSteps.{region_at};
ghost use Rattle.region_round.specs.Alone.{IsReady};
ghost use Rattle.region_round.specs.AsModel.{answers_of, jobs_of};
ghost use Rattle.region_round.specs.Jobs.{AreProper, DoesAll, ReceivesAll, sight_of};
ghost use Rattle.region_round.specs.Rounds.{RoundsOn};

use crate::do_jobs::{RoundViews, do_all, receive_all};
use crate::gate::Gate;
use crate::job::Job;
use crate::lent_cache::{LentCache, terms_at};
use crate::look_ahead::look_ahead;
use arrayvec::ArrayVec;
use farm_base::{Memory, Readings, Region};
use farm_core::{Farm, Lent};
use page_render::Page;
use region_state::Answer;
use revision_keeper::Keeper;
use slot_cache::SlotCache;
use std::alloc::Global;
use std::thread::Threads;

/// How many jobs a round may have.
pub const JOBS_MAX: usize = 16;

/// What a round is asked for.
#[derive(Debug, Drop)]
pub struct RoundAsk {
    /// Whose cache is looked into.
    pub region: Region,
    /// At most [`JOBS_MAX`].
    pub jobs: Vec<Job>,
    /// The readings of the round's one moment.
    pub at: Readings,
}

/// Does the jobs of a round on the region's cache, and answers its views in their order. All jobs have the region's one
/// moment. An answer is a page, that there is no page, or out of memory.
///
/// If the plan has several workers the pages that the cache lacks are rendered side by side, each thread's for
/// neighbouring views; the caller has those for which no thread can be started. The answers are those of one worker.
///
/// If there is no memory for the list of answers no view is done, and all receipts are given all the same. The region's
/// cache is there. Each receipt is west's, of a purge that was issued and not dropped.
pub fn round<K: Keeper, R: Threads + Sync, G: Gate>(
    rt: &R,
    alloc: Global,
    farm: &mut Farm<K, SlotCache<Page>>,
    ask: RoundAsk,
    gate: &G,
) -> Result<Vec<Answer>, Memory>
    requires few { length ask.jobs.items ≤ jobs_max }
    requires proper { AreProper ask.region farm.old.ledger.rows ask.jobs.items }
    requires there { IsSome (region_at ask.region farm.old.home farm.old.west).cache }
    ensures done { IfOk result (λ answers. RoundsOn K.content K.faults farm.old farm.new ask.at ask.region
        ask.jobs.items (Some (answers_of answers.items))) }
    ensures lost { OnErr result (RoundsOn K.content K.faults farm.old farm.new ask.at ask.region ask.jobs.items None) }
{
    let RoundAsk { region, jobs, at } = ask;
    let purges = purges_in(&jobs);
    let Lent { cache, now } = farm.lend(region, at);
    let terms = terms_at(farm, now);
    let mut lent = LentCache {
        region,
        cache,
        terms,
    };
    let answers = do_round(rt, alloc, farm, &mut lent, &jobs, gate);
    let back = Lent {
        cache: lent.cache,
        now,
    };
    let lost = answers.is_err();
    farm.give_back(region, back, purges.as_slice(), lost);
    answers
}

/// The purges that the jobs receive.
fn purges_in(jobs: &[Job]) -> ArrayVec<u64, JOBS_MAX>
    requires { length jobs.now ≤ jobs_max }
    ensures { result.items ≡ purges_of (jobs_of jobs.now) }
{
    let mut purges = ArrayVec::new();
    for job in jobs.iter() {
        push_purge(&mut purges, job);
    }
    purges
}

/// Adds the purge of one more job, if it is a receipt.
#[tactic(auto, using(crate::proofs::Sequence::purge_more, crate::proofs::Sequence::no_purge))]
fn push_purge(purges: &mut ArrayVec<u64, JOBS_MAX>, job: &Job)
    requires { length purges.old.items < jobs_max }
    ensures few { length purges.new.items ≤ length purges.old.items + 1 }
    ensures pushed { (jobs : List CodeJob) → purges.old.items ≡ purges_of (jobs_of jobs)
        → purges.new.items ≡ purges_of (jobs_of (jobs ++ job.now ∷ [])) }
{
    match job {
        Job::View(_) => {}
        Job::Receipt(purge) => purges.push(*purge),
    }
}

/// Does the jobs on the cache that was lent.
fn do_round<K: Keeper, R: Threads + Sync, G: Gate>(
    rt: &R,
    alloc: Global,
    farm: &Farm<K, SlotCache<Page>>,
    lent: &mut LentCache,
    jobs: &[Job],
    gate: &G,
) -> Result<Vec<Answer>, Memory>
    requires ready { IsReady lent.old.cache lent.old.terms.at }
    requires small { lent.old.terms.at ≤ greatest_moment }
    requires proper { AreProper lent.old.region farm.now.ledger.rows jobs.now }
    ensures ready { IsReady lent.new.cache lent.old.terms.at }
    ensures region { lent.new.region ≡ lent.old.region }
    ensures terms { lent.new.terms ≡ lent.old.terms }
    ensures done { IfOk result (λ answers. DoesAll lent.old.region (sight_of lent.old.region farm.now) lent.old.terms
        jobs.now (answers_of answers.items) lent.old.cache lent.new.cache) }
    ensures lost { OnErr result (ReceivesAll farm.now.ledger.rows lent.old.terms.at jobs.now lent.old.cache
        lent.new.cache) }
{
    let Ok(answers) = Vec::with_capacity(alloc, jobs.len()) else {
        receive_all(farm, lent, jobs);
        return Err(Memory);
    };
    let places = look_ahead(rt, alloc, farm, lent, jobs, gate);
    let mut views = RoundViews { places, answers };
    do_all(alloc, farm, lent, jobs, gate, &mut views);
    let RoundViews { answers, .. } = views;
    Ok(answers)
}
