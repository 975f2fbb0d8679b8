// What is done for what was read.
ghost use Rattle.std.specs.Prelude.{◌≡◌, ◌≤◌, None, IfOk};
ghost use Rattle.std.specs.String.{string_bytes};
ghost use Rattle.wiki_model.specs.Bytes.{Bytes};
ghost use Rattle.http_desk.specs.AsModel.{call_shown, request_shown};
ghost use Rattle.wiki_serve.specs.Exchanges.{heard_seen};
ghost use Rattle.wiki_serve.specs.Reactions.{IsFrom, IsLocationFor, DoesCallFor, outside_seen, ReactsTo, Reacts};
ghost use Rattle.wiki_serve.specs.Reactions.{desk_of};
ghost use Rattle.wiki_model.specs.World.Asked.{AskedView, AskedEdit};
ghost use Rattle.edit_core.specs.AsModel.{edit_of};
ghost use Rattle.region_state.specs.AsModel.{answer_of, view_of};
ghost use Rattle.wiki_serve.specs.Housework.{wire_seen, ServesAsked};
ghost use Rattle.wiki_serve.specs.BatchSteps.{HasRoomFor};
ghost use Rattle.farm_core.specs.FarmParts.{IsWhole, SameShape};
ghost use Rattle.farm_steps.specs.RequestMap.{open_at};
ghost use Rattle.slot_cache.specs.AsModel.{map_of};

use crate::asked_steps::{make_edit, make_view};
use crate::callers::{Visit, caller_of, moment_for, view_by};
use crate::connection::ConnEnd;
use crate::held_purges::none_held;
use crate::housework::keep_house;
use crate::read_arrival::Arrival;
use crate::replies::location_of;
use crate::serve_batch::{BatchRoom, Said, ask_batch, room_for, serve_batch};
use crate::served_farm::ServedFarm;
use farm_base::{Clock, Lots, Memory, Readings};
use farm_core::{Answer, EditAsk, Page, ViewAsk};
use http_desk::{Call, Request};
use http_reply::Refusal;
use purge_relay::Wire;
use revision_keeper::Keeper;
use slot_cache::SlotCache;
use std::alloc::Global;
use std::thread::Threads;

/// A request that was answered.
#[derive(Drop)]
pub struct Answered {
    /// Where the page is that was edited; empty for a view.
    pub location: String,
    pub answer: Answer,
    /// Whether the method was `HEAD`.
    pub head: bool,
    /// Whether the request asked to close the connection.
    pub close: bool,
}

/// A batch that was answered by its round.
#[derive(Drop)]
pub struct Listed {
    /// In the order of the titles.
    pub answers: Vec<Answer>,
    /// Whether the method was `HEAD`.
    pub head: bool,
    /// Whether the request asked to close the connection.
    pub close: bool,
}

/// A visit, with what is made before its first step.
#[derive(Drop)]
pub struct Prepared {
    pub visit: Visit,
    /// The reading of the clocks.
    pub at: Readings,
    /// What a batch needs.
    pub room: Option<BatchRoom>,
}

/// What there is to respond.
#[derive(Drop)]
pub enum Reaction {
    /// Nothing: the connection ends like this.
    Ended(ConnEnd),
    /// The request was refused.
    Refused(Refusal),
    /// The request was answered.
    Answered(Answered),
    /// All titles of a batch were answered.
    Listed(Listed),
}

/// Does what a request that was read asks for. If it is out of memory before it begins, nothing is done.
pub(crate) fn serve_arrival<R: AllocGlobal + Threads + Sync, K: Keeper, C: Clock, L: Lots, W: Wire>(
    rt: &R,
    served: &mut ServedFarm<K, SlotCache<Page>>,
    clock: &mut C,
    lots: &mut L,
    wire: &mut W,
    arrival: Arrival,
) -> Reaction
    requires whole { IsWhole served.old.farm }
    requires free { open_at served.old.farm.requests 0 ≡ None }
    ensures reacts { (peer : Bytes) → Reacts K.content K.faults map_of peer served.old.farm served.new.farm
        served.old.sent served.new.sent
        (heard_seen (C.exposed clock.old) (L.exposed lots.old) (W.carried wire.old) (W.refused wire.old)
        (W.empty wire.old))
        (heard_seen (C.exposed clock.new) (L.exposed lots.new) (W.carried wire.new) (W.refused wire.new)
        (W.empty wire.new))
        arrival result }
    ensures shape { SameShape served.old.farm served.new.farm }
    ensures free { open_at served.new.farm.requests 0 ≡ None }
    ensures counts { K.faults served.old.farm.keeper ≤ K.faults served.new.farm.keeper }
{
    match arrival {
        Arrival::Ended(end) => Reaction::Ended(end),
        Arrival::Refused(refusal) => Reaction::Refused(refusal),
        Arrival::Ready(visit) => serve_visit(rt, served, clock, lots, wire, visit),
    }
}

fn serve_visit<R: AllocGlobal + Threads + Sync, K: Keeper, C: Clock, L: Lots, W: Wire>(
    rt: &R,
    served: &mut ServedFarm<K, SlotCache<Page>>,
    clock: &mut C,
    lots: &mut L,
    wire: &mut W,
    visit: Visit,
) -> Reaction
    requires whole { IsWhole served.old.farm }
    requires free { open_at served.old.farm.requests 0 ≡ None }
    ensures reacts { (peer : Bytes) → IsFrom peer visit → ReactsTo K.content K.faults map_of
        (desk_of peer served.old.farm) served.old.farm served.new.farm served.old.sent served.new.sent
        (heard_seen (C.exposed clock.old) (L.exposed lots.old) (W.carried wire.old) (W.refused wire.old)
        (W.empty wire.old))
        (heard_seen (C.exposed clock.new) (L.exposed lots.new) (W.carried wire.new) (W.refused wire.new)
        (W.empty wire.new))
        visit result }
    ensures shape { SameShape served.old.farm served.new.farm }
    ensures free { open_at served.new.farm.requests 0 ≡ None }
    ensures counts { K.faults served.old.farm.keeper ≤ K.faults served.new.farm.keeper }
{
    let alloc = rt.alloc();
    let Ok(location) = location_for(alloc, &visit.request.call) else {
        return Reaction::Ended(ConnEnd::Memory);
    };
    let Ok(room) = room_for(alloc, &visit.request.call) else {
        return Reaction::Ended(ConnEnd::Memory);
    };
    let head = visit.request.head;
    let close = visit.request.close;
    let at = clock.readings();
    let prepared = Prepared { visit, at, room };
    match serve_call(rt, alloc, served, lots, wire, prepared) {
        Said::One(answer) => Reaction::Answered(Answered {
            location,
            answer,
            head,
            close,
        }),
        Said::Many(answers) => Reaction::Listed(Listed {
            answers,
            head,
            close,
        }),
    }
}

/// Where the page of an edit is; empty for another call. It is made before the first step, so that an edit that is
/// saved can be answered.
fn location_for(alloc: Global, call: &Call) -> Result<String, Memory>
    ensures { IfOk result (λ text. IsLocationFor (call_shown call.now) (string_bytes text)) }
{
    match call {
        Call::Edit { title, .. } => location_of(alloc, title),
        Call::Page(_) | Call::Batch(_) => Ok(String::new(alloc)),
    }
}

/// Keeps the house, and then makes the steps of the call.
fn serve_call<R: Threads + Sync, K: Keeper, L: Lots, W: Wire>(
    rt: &R,
    alloc: Global,
    served: &mut ServedFarm<K, SlotCache<Page>>,
    lots: &mut L,
    wire: &mut W,
    prepared: Prepared,
) -> Said
    requires whole { IsWhole served.old.farm }
    requires free { open_at served.old.farm.requests 0 ≡ None }
    requires room { HasRoomFor (call_shown prepared.visit.request.call) prepared.room }
    ensures does { (peer : Bytes) → IsFrom peer prepared.visit → DoesCallFor K.content K.faults map_of
        (desk_of peer served.old.farm) served.old.farm served.new.farm served.old.sent served.new.sent prepared.at
        (outside_seen (L.exposed lots.old) (W.carried wire.old) (W.refused wire.old) (W.empty wire.old))
        (outside_seen (L.exposed lots.new) (W.carried wire.new) (W.refused wire.new) (W.empty wire.new))
        (request_shown prepared.visit.request) result }
    ensures shape { SameShape served.old.farm served.new.farm }
    ensures free { open_at served.new.farm.requests 0 ≡ None }
    ensures counts { K.faults served.old.farm.keeper ≤ K.faults served.new.farm.keeper }
{
    let Prepared { visit, at, room } = prepared;
    let Visit { request, stranger } = visit;
    let now = moment_for(&served.farm, &at, &request);
    let caller = caller_of(&request, stranger, now);
    let Request { call, .. } = request;
    match call {
        Call::Page(title) => {
            let ask = view_by(caller, lots.word(), title);
            Said::One(serve_view(alloc, served, wire, &at, ask))
        }
        Call::Edit {
            title,
            base,
            token,
            text,
        } => {
            let ask = EditAsk {
                client: caller.client,
                token,
                title,
                base,
                text,
            };
            Said::One(serve_edit(alloc, served, wire, &at, ask))
        }
        Call::Batch(titles) => {
            let Some(room) = room else { unreachable!() };
            let ask = ask_batch(lots, caller, titles, room);
            serve_batch(rt, alloc, served, wire, &at, ask)
        }
    }
}

fn serve_view<K: Keeper, W: Wire>(
    alloc: Global,
    served: &mut ServedFarm<K, SlotCache<Page>>,
    wire: &mut W,
    at: &Readings,
    ask: ViewAsk,
) -> Answer
    requires whole { IsWhole served.old.farm }
    requires free { open_at served.old.farm.requests 0 ≡ None }
    ensures { ServesAsked K.content K.faults map_of served.old.farm served.new.farm served.old.sent served.new.sent
        at.now (wire_seen (W.carried wire.old) (W.refused wire.old) (W.empty wire.old))
        (wire_seen (W.carried wire.new) (W.refused wire.new) (W.empty wire.new))
        (AskedView (view_of ask)) (answer_of result) }
{
    let mut held = none_held(alloc);
    keep_house(served, at, wire, &mut held);
    let Some(answer) = make_view(alloc, &mut served.farm, at, ask) else {
        unreachable!()
    };
    answer
}

fn serve_edit<K: Keeper, W: Wire>(
    alloc: Global,
    served: &mut ServedFarm<K, SlotCache<Page>>,
    wire: &mut W,
    at: &Readings,
    ask: EditAsk,
) -> Answer
    requires whole { IsWhole served.old.farm }
    requires free { open_at served.old.farm.requests 0 ≡ None }
    ensures { ServesAsked K.content K.faults map_of served.old.farm served.new.farm served.old.sent served.new.sent
        at.now (wire_seen (W.carried wire.old) (W.refused wire.old) (W.empty wire.old))
        (wire_seen (W.carried wire.new) (W.refused wire.new) (W.empty wire.new))
        (AskedEdit (edit_of ask)) (answer_of result) }
{
    let mut held = none_held(alloc);
    keep_house(served, at, wire, &mut held);
    let Some(answer) = make_edit(&mut served.farm, at, ask) else {
        unreachable!()
    };
    answer
}
