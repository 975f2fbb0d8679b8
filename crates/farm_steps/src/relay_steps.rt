// Messages from home to west, as a farm issues, carries and receives them.
ghost use Rattle.std.specs.Prelude.{◌≡◌, ◌≤◌, Some, None, IsSome, IfSome, option_map};
ghost use Rattle.wiki_model.specs.Limits.{greatest_moment};
ghost use Rattle.purge_relay.specs.Ledger.{row_at};
ghost use Rattle.purge_relay.specs.AsModel.{body_of};
ghost use Rattle.region_state.specs.RegionState.{IsBefore};
ghost use Rattle.std.specs.Option.{option_copied};
ghost use Rattle.region_state.specs.AsModel.{answer_of};
ghost use Rattle.farm_steps.specs.RelaySteps.{Receives, Drops, TakesRow, TakesBody, CarriesAs, IsSmallCarriage, shows};
ghost use Rattle.farm_steps.specs.RelaySteps.{carriage_in, carriage_of};
ghost use Rattle.purge_relay.specs.LedgerRow.{is_dropped_row, IsSmallBody};
ghost use Rattle.farm_steps.specs.RelaySteps.{received_all};

use farm_base::{Memory, Moment, Region};
use page_render::Page;
use purge_relay::{Body, Ledger, Message};
use region_state::{Answer, RegionState};
use wan_cache::RegionStore;
use wiki_titles::ClientId;

/// A region receives a purge at this moment, and its receipt is noted.
pub(crate) fn receive<S: RegionStore<Page>>(
    ledger: &mut Ledger,
    region: Region,
    parts: &mut RegionState<S>,
    purge: u64,
    now: Moment,
)
    requires there { IsSome parts.old.cache }
    requires later { IsBefore S.cache parts.old now }
    requires small { now ≤ greatest_moment }
    ensures { Receives S.cache region parts.old parts.new ledger.old ledger.new purge now }
{
    take_message(ledger, parts, purge, now);
    ledger.receive(purge, region, now);
}

/// A region's cache takes the purge of this number, if it is one.
fn take_message<S: RegionStore<Page>>(
    ledger: &Ledger,
    parts: &mut RegionState<S>,
    purge: u64,
    now: Moment,
)
    requires there { IsSome parts.old.cache }
    requires later { IsBefore S.cache parts.old now }
    requires small { now ≤ greatest_moment }
    ensures { TakesRow S.cache parts.old parts.new now (row_at ledger.now.rows purge) }
{
    if let Some(message) = ledger.message(purge) {
        take_body(&message.body, parts, now);
    }
}

fn take_body<S: RegionStore<Page>>(body: &Body, parts: &mut RegionState<S>, now: Moment)
    requires there { IsSome parts.old.cache }
    requires later { IsBefore S.cache parts.old now }
    requires small { now ≤ greatest_moment }
    ensures { TakesBody S.cache parts.old parts.new now body.now }
{
    match body {
        Body::Purge { title, .. } => parts.receive(title, now),
        Body::Position { .. } => {}
    }
}

/// What becomes of a message that is carried.
#[derive(Clone, Copy, Debug, PartialEq, Eq)]
pub enum Carriage {
    /// None of this number was issued, or not with the body that is shown.
    Unknown,
    /// It was dropped.
    Gone,
    /// West receives the purge.
    Purge,
    /// West hears the position.
    Position {
        client: ClientId,
        index: u64,
        entry: u64,
        stamp: Moment,
    },
}

fn carriage_in(body: &Body) -> Carriage
    requires { IsSmallBody body.now }
    ensures value { result ≡ carriage_in body.now }
    ensures small { IsSmallCarriage result }
{
    match body {
        Body::Purge { .. } => Carriage::Purge,
        Body::Position {
            client,
            index,
            entry,
            stamp,
        } => Carriage::Position {
            client: *client,
            index: *index,
            entry: *entry,
            stamp: *stamp,
        },
    }
}

fn carriage_of(shown: Option<&Body>, message: Option<&Message>, dropped: bool) -> Carriage
    requires { IfSome message (λ m. IsSmallBody m.now.body) }
    ensures value { result ≡ carriage_of (option_map body_of (option_copied shown.entry)) (option_copied message.entry)
        dropped }
    ensures small { IsSmallCarriage result }
{
    let Some(message) = message else {
        return Carriage::Unknown;
    };
    if !is_shown(shown, &message.body) {
        return Carriage::Unknown;
    }
    if dropped {
        Carriage::Gone
    } else {
        carriage_in(&message.body)
    }
}

/// Whether a body that is shown is the message's own; it need not be shown.
fn is_shown(shown: Option<&Body>, body: &Body) -> bool
    ensures { result ≡ shows (option_map body_of (option_copied shown.entry)) (body_of body.now) }
{
    match shown {
        Some(shown) => shown.is_same(body),
        None => true,
    }
}

/// What becomes of the message of this number, where a body may be shown for it.
pub fn find_carriage(ledger: &Ledger, number: u64, shown: Option<&Body>) -> Carriage
    ensures small { IsSmallCarriage result }
    ensures value { result ≡ carriage_of (option_map body_of (option_copied shown.entry))
        (option_map (λ row. row.message) (row_at ledger.now.rows number))
        (is_dropped_row (row_at ledger.now.rows number)) }
{
    let dropped = ledger.is_dropped(number);
    carriage_of(shown, ledger.message(number), dropped)
}

/// Carries a message to west.
pub fn carry<S: RegionStore<Page>>(
    ledger: &mut Ledger,
    west: &mut RegionState<S>,
    now: Moment,
    number: u64,
    carriage: Carriage,
) -> Option<Answer>
    requires there { IsSome west.old.cache }
    requires later { IsBefore S.cache west.old now }
    requires small { now ≤ greatest_moment }
    requires stamps { IsSmallCarriage carriage }
    ensures { CarriesAs S.cache west.old west.new ledger.old ledger.new number now (option_map answer_of result)
        carriage }
{
    match carriage {
        Carriage::Unknown => Some(Answer::Unknown { message: number }),
        Carriage::Gone => Some(Answer::Gone { message: number }),
        Carriage::Purge => {
            receive(ledger, Region::West, west, number, now);
            None
        }
        Carriage::Position {
            client,
            index,
            entry,
            stamp,
        } => match west.hear(&client, index, entry, stamp) {
            Ok(_) => None,
            Err(Memory) => Some(Answer::Memory),
        },
    }
}

/// Drops a message.
pub fn drop_message(ledger: &mut Ledger, number: u64) -> Option<Answer>
    ensures { Drops ledger.old ledger.new number (option_map answer_of result) (row_at ledger.old.rows number) }
{
    if !is_issued(ledger, number) {
        return Some(Answer::Unknown { message: number });
    }
    ledger.drop_message(number);
    None
}

fn is_issued(ledger: &Ledger, number: u64) -> bool
    ensures { result ≡ Rattle.std.specs.Prelude.is_some (row_at ledger.now.rows number) }
{
    ledger.message(number).is_some()
}

/// The region received these purges.
pub fn receive_all(ledger: &mut Ledger, region: Region, purges: &[u64], now: Moment)
    requires { now ≤ greatest_moment }
    ensures { ledger.new ≡ received_all region now purges.now ledger.old }
{
    for purge in purges {
        ledger.receive(*purge, region, now);
    }
}
