// A batch: a view of each title, all of them in one round of the region's cache, which then receives purges that came.
ghost use Rattle.std.specs.Prelude.{◌≡◌, ◌≤◌, ◌<◌, ◌+◌, ◌++◌, ◌∷◌, [], length, map, IfOk, IfErr, Some, None};
ghost use Rattle.wiki_model.specs.Bytes.{first_of_list};
ghost use Rattle.wiki_model.specs.Limits.{jobs_max};
ghost use Rattle.wiki_model.specs.Serving.{room_beside};
ghost use Rattle.wiki_model.specs.Steps.{region_of};
ghost use Rattle.http_desk.specs.AsModel.{call_shown};
ghost use Rattle.slot_cache.specs.AsModel.{map_of};
ghost use Rattle.region_state.specs.AsModel.{view_of};
ghost use Rattle.farm_core.specs.FarmParts.{IsWhole};
ghost use Rattle.farm_steps.specs.RequestMap.{open_at};
ghost use Rattle.wiki_serve.specs.Callers.{view_by};
ghost use Rattle.wiki_serve.specs.Housework.{wire_seen};
ghost use Rattle.wiki_serve.specs.BatchSteps.{HasRoomFor, IsRoomFor, IsDrawn, IsOneDrawn, pair_of, word_of, job_at};
ghost use Rattle.wiki_serve.specs.BatchSteps.{HasRoomForJobs, room_of, FindsNeed, MakesBatch, ServesBatch};
ghost use Rattle.wiki_serve.specs.BatchSteps.{said_outcome};
ghost use Rattle.wiki_serve.specs.HoldingBack.{IsEmpty, held_of};

use crate::asked_steps::of_view;
use crate::callers::{Caller, view_by};
use crate::held_purges::{HeldPurges, with_receipts};
use crate::housework::{carry_held, keep_house};
use crate::served_farm::ServedFarm;
use farm_base::{Lots, Memory, Readings, Region};
use farm_core::{Answer, Farm, Page, ViewAsk};
use http_desk::Call;
use purge_relay::{Message, Wire};
use region_round::{JOBS_MAX, Job, OpenGate, RoundAsk, ViewJob, round};
use revision_keeper::Keeper;
use slot_cache::SlotCache;
use std::alloc::Global;
use std::thread::Threads;
use wiki_titles::Title;

/// A title of a batch, with the word that was drawn for it.
#[derive(Debug, Drop)]
pub struct Drawn {
    pub title: Title,
    pub word: u64,
}

/// What a batch needs memory for, made before its first step.
#[derive(Debug, Drop)]
pub struct BatchRoom {
    /// The title whose view waits for all.
    pub first: Title,
    /// Room for each title with its word.
    pub drawn: Vec<Drawn>,
    /// Room for each job of a round.
    pub jobs: Vec<Job>,
    /// Room for a purge for each job that is no title's.
    pub held: Vec<Message>,
}

/// What a batch asks for.
#[derive(Debug, Drop)]
pub struct BatchAsk {
    /// The view of the first title and word.
    pub view: ViewAsk,
    pub drawn: Vec<Drawn>,
    /// Room for each job of a round.
    pub jobs: Vec<Job>,
    /// The purges that its round receives.
    pub held: HeldPurges,
}

/// What a request was answered.
#[derive(Drop)]
pub enum Said {
    One(Answer),
    /// The answers of a batch, in the order of its titles.
    Many(Vec<Answer>),
}

/// Room for a batch; none for another call. A batch that was read has 1 to [`JOBS_MAX`] titles, and no other gets room.
pub(crate) fn room_for(alloc: Global, call: &Call) -> Result<Option<BatchRoom>, Memory>
    ensures { IfOk result (λ room. HasRoomFor (call_shown call.now) room) }
{
    match call {
        Call::Batch(titles) => Ok(Some(batch_room(alloc, titles)?)),
        Call::Page(_) | Call::Edit { .. } => Ok(None),
    }
}

fn batch_room(alloc: Global, titles: &[Title]) -> Result<BatchRoom, Memory>
    ensures { IfOk result (λ room. IsRoomFor room titles.now) }
{
    let Some(first) = titles.first() else {
        return Err(Memory);
    };
    if titles.len() > JOBS_MAX {
        return Err(Memory);
    }
    Ok(BatchRoom {
        first: first.clone()?,
        drawn: Vec::with_capacity(alloc, titles.len())?,
        jobs: Vec::with_capacity(alloc, JOBS_MAX)?,
        held: Vec::with_capacity(alloc, JOBS_MAX - titles.len())?,
    })
}

/// What a batch of these titles asks for, with a word that is drawn for each. There is room for them.
pub(crate) fn ask_batch<L: Lots>(
    lots: &mut L,
    caller: Caller,
    titles: Vec<Title>,
    room: BatchRoom,
) -> BatchAsk
    requires room { IsRoomFor room titles.items }
    ensures drawn { IsDrawn (L.exposed lots.old) (L.exposed lots.new) titles.items result.drawn.items }
    ensures word { first_of_list (map word_of result.drawn.items) ≡ Some result.view.word }
    ensures title { first_of_list titles.items ≡ Some result.view.title }
    ensures view { result.view ≡ view_by caller result.view.word result.view.title }
    ensures jobs { HasRoomForJobs result }
    ensures held { IsEmpty result.held }
    ensures beside { result.held.room ≡ room_of result }
{
    let BatchRoom {
        first,
        drawn,
        jobs,
        held,
    } = room;
    let drawn = draw_words(lots, titles, drawn);
    let view = view_by(caller, first_word(&drawn), first);
    let held = HeldPurges {
        room: room_beside(region_of(&view), drawn.len()),
        messages: held,
    };
    BatchAsk {
        view,
        drawn,
        jobs,
        held,
    }
}

/// How many purges a round of this region may receive beside the views of so many titles: home's receives none.
fn room_beside(region: Region, titles: usize) -> usize
    requires { titles ≤ jobs_max }
    ensures { result ≡ room_beside region titles }
{
    match region {
        Region::Home => 0,
        Region::West => JOBS_MAX - titles,
    }
}

/// Draws a word for each title, in their order. There is room for them.
fn draw_words<L: Lots>(lots: &mut L, titles: Vec<Title>, room: Vec<Drawn>) -> Vec<Drawn>
    requires empty { room.items ≡ [] }
    requires room { length titles.items ≤ room.cap }
    ensures drawn { IsDrawn (L.exposed lots.old) (L.exposed lots.new) titles.items result.items }
{
    let mut drawn = room;
    for title in titles {
        draw_one(lots, &mut drawn, title);
    }
    drawn
}

/// Draws a word for one more title. There is room for it.
fn draw_one<L: Lots>(lots: &mut L, drawn: &mut Vec<Drawn>, title: Title)
    requires room { length drawn.old.items < drawn.old.cap }
    ensures room { drawn.old.cap ≤ drawn.new.cap }
    ensures drawn { IsOneDrawn (L.exposed lots.old) (L.exposed lots.new) title drawn.old.items drawn.new.items }
{
    let word = lots.word();
    let Ok(()) = drawn.push(Drawn { title, word }) else {
        unreachable!()
    };
}

/// The word of the first title. There is one.
fn first_word(drawn: &[Drawn]) -> u64
    requires { 0 < length drawn.now }
    ensures { first_of_list (map word_of drawn.now) ≡ Some result }
{
    let Some(first) = drawn.first() else {
        unreachable!()
    };
    first.word
}

/// Keeps the house, and then makes the steps of a batch.
pub(crate) fn serve_batch<R: Threads + Sync, K: Keeper, W: Wire>(
    rt: &R,
    alloc: Global,
    served: &mut ServedFarm<K, SlotCache<Page>>,
    wire: &mut W,
    at: &Readings,
    ask: BatchAsk,
) -> Said
    requires whole { IsWhole served.old.farm }
    requires free { open_at served.old.farm.requests 0 ≡ None }
    requires jobs { HasRoomForJobs ask }
    requires held { IsEmpty ask.held }
    requires beside { ask.held.room ≡ room_of ask }
    ensures { ServesBatch K.content K.faults map_of served.old.farm served.new.farm served.old.sent served.new.sent
        at.now (wire_seen (W.carried wire.old) (W.refused wire.old) (W.empty wire.old))
        (wire_seen (W.carried wire.new) (W.refused wire.new) (W.empty wire.new))
        (view_of ask.view) (map pair_of ask.drawn.items) (said_outcome ask.view.title result) }
{
    let BatchAsk {
        view,
        drawn,
        jobs,
        held,
    } = ask;
    let mut held = held;
    keep_house(served, at, wire, &mut held);
    let ask = BatchAsk {
        view,
        drawn,
        jobs,
        held,
    };
    make_batch(rt, alloc, &mut served.farm, at, ask)
}

/// A batch after its housekeeping: the first title's view waits and tells its need, and then there is a round, which
/// receives the purges that are held. If the view ends before its need is known, they are carried.
fn make_batch<R: Threads + Sync, K: Keeper>(
    rt: &R,
    alloc: Global,
    farm: &mut Farm<K, SlotCache<Page>>,
    at: &Readings,
    ask: BatchAsk,
) -> Said
    requires whole { IsWhole farm.old }
    requires free { open_at farm.old.requests 0 ≡ None }
    requires jobs { HasRoomForJobs ask }
    requires held { length ask.held.messages.items ≤ room_of ask }
    ensures { MakesBatch K.content K.faults map_of farm.old farm.new at.now (view_of ask.view)
        (map pair_of ask.drawn.items) (held_of ask.held) (said_outcome ask.view.title result) }
{
    let BatchAsk {
        view,
        drawn,
        jobs,
        held,
    } = ask;
    let region = region_of(&view);
    match find_need(farm, at, view) {
        Ok(need) => {
            let views = view_jobs(drawn, need, jobs);
            let jobs = with_receipts(farm, held.messages, views);
            let at = *at;
            match round(rt, alloc, farm, RoundAsk { region, jobs, at }, &OpenGate) {
                Ok(answers) => Said::Many(answers),
                Err(_) => Said::One(Answer::Memory),
            }
        }
        Err(answer) => {
            carry_held(farm, at, held.messages);
            Said::One(answer)
        }
    }
}

/// The region of a view.
fn region_of(view: &ViewAsk) -> Region
    ensures { result ≡ region_of (view_of view.now) }
{
    if view.use_master {
        Region::Home
    } else {
        view.host
    }
}

/// The need of a view after it has waited, which then is no longer open. If it ends before, its answer.
fn find_need<K: Keeper>(
    farm: &mut Farm<K, SlotCache<Page>>,
    at: &Readings,
    view: ViewAsk,
) -> Result<u64, Answer>
    requires free { open_at farm.old.requests 0 ≡ None }
    ensures { FindsNeed K.content K.faults map_of farm.old farm.new at.now (view_of view) result }
{
    let opened = farm.arrive(*at, 0, of_view(view));
    if let Some(answer) = opened {
        return Err(answer);
    }
    let waited = farm.wait(*at, 0, true);
    if let Some(answer) = waited {
        return Err(answer);
    }
    let Some(need) = farm.need(*at, 0) else {
        unreachable!()
    };
    Ok(need)
}

/// The jobs of these titles, with this need. There is room for them.
fn view_jobs(drawn: Vec<Drawn>, need: u64, room: Vec<Job>) -> Vec<Job>
    requires empty { room.items ≡ [] }
    requires room { length drawn.items ≤ room.cap }
    ensures jobs { result.items ≡ map (job_at need) drawn.items }
    ensures room { room.cap ≤ result.cap }
{
    let mut jobs = room;
    for one in drawn {
        push_job(&mut jobs, need, one);
    }
    jobs
}

/// Adds the job of one more title. There is room for it.
fn push_job(jobs: &mut Vec<Job>, need: u64, one: Drawn)
    requires room { length jobs.old.items < jobs.old.cap }
    ensures room { jobs.old.cap ≤ jobs.new.cap }
    ensures pushed { jobs.new.items ≡ jobs.old.items ++ job_at need one ∷ [] }
{
    let Drawn { title, word } = one;
    let job = Job::View(ViewJob { title, need, word });
    let Ok(()) = jobs.push(job) else {
        unreachable!()
    };
}
