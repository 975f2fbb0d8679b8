// What is done before each request that is served.
ghost use Rattle.std.specs.Prelude.{◌≡◌, ◌≤◌, ◌<◌, ◌+◌, ◌^◌, ℕ, length, max, Some, None, IfSome, IfNone, option_map};
ghost use Rattle.wiki_model.specs.World.{cut};
ghost use Rattle.wiki_model.specs.Steps.{MakeBeat, Apply, Carry};
ghost use Rattle.wiki_model.specs.Serving.{is_past};
ghost use Rattle.purge_relay.specs.AsModel.{body_of};
ghost use Rattle.farm_steps.specs.ViewSteps.{region_at};
ghost use Rattle.farm_core.specs.FarmParts.{IsWhole};
ghost use Rattle.wiki_serve.specs.Turns.{MakesStep};
ghost use Rattle.wiki_serve.specs.Housework.{IsRow, wire_seen, SendsAll, TakesAll, BeatsIfDue, AppliesTo};
ghost use Rattle.wiki_serve.specs.Housework.{DoesHousework};
ghost use Rattle.wiki_serve.specs.HoldingBack.{IsEmpty, HasRoom, taken_of, all_taken, held_of, is_held, TakesOne};
ghost use Rattle.wiki_serve.specs.HoldingBack.{CarriesAll};
ghost use Rattle.slot_cache.specs.AsModel.{map_of};

use crate::held_purges::{HeldPurges, hold, is_to_hold};
use crate::served_farm::ServedFarm;
use farm_base::{BEAT_AFTER, MOMENT_MAX, Readings, Region};
use farm_core::{Farm, Page};
use purge_relay::{Message, Wire};
use revision_keeper::Keeper;
use slot_cache::SlotCache;

/// At most this many messages are taken from the wire before a request.
pub const TAKEN_MAX: u32 = 256; // messages

/// Keeps the house before a request, at its readings: the unsent messages are sent in order, until one is refused;
/// messages are taken and carried, until none comes or there were enough, but the first purges are held back if there
/// is room for them; a beat is made if it is due; and each replica applies, home's first. What these steps answer ends
/// nothing and is shown to no one.
pub(crate) fn keep_house<K: Keeper, W: Wire>(
    served: &mut ServedFarm<K, SlotCache<Page>>,
    at: &Readings,
    wire: &mut W,
    held: &mut HeldPurges,
)
    requires whole { IsWhole served.old.farm }
    requires empty { IsEmpty held.old }
    ensures keeps { DoesHousework K.content K.faults map_of served.old.farm served.new.farm served.old.sent
        served.new.sent at.now (wire_seen (W.carried wire.old) (W.refused wire.old) (W.empty wire.old))
        (wire_seen (W.carried wire.new) (W.refused wire.new) (W.empty wire.new)) held.old.room (held_of held.new) }
    ensures few { length held.new.messages.items ≤ held.old.room }
{
    send_unsent(&served.farm, &mut served.sent, wire);
    carry_taken(&mut served.farm, at, wire, held);
    beat_if_due(&mut served.farm, at);
    let pace = served.farm.plan().pace;
    apply_region(&mut served.farm, at, Region::Home, pace);
    apply_region(&mut served.farm, at, Region::West, pace);
}

/// Gives the wire the messages after the first `sent`, in order, until it refuses one.
fn send_unsent<K: Keeper, W: Wire>(farm: &Farm<K, SlotCache<Page>>, sent: &mut u64, wire: &mut W)
    ensures { SendsAll farm.now.ledger.rows sent.old sent.new
        (wire_seen (W.carried wire.old) (W.refused wire.old) (W.empty wire.old))
        (wire_seen (W.carried wire.new) (W.refused wire.new) (W.empty wire.new)) }
{
    'sending: while let Some(message) = message_after(farm, *sent) {
        match wire.send(message) {
            Ok(()) => *sent += 1,
            Err(_) => return,
        }
    }
}

/// The message after the first `sent`; None if there is none.
fn message_after<K: Keeper>(farm: &Farm<K, SlotCache<Page>>, sent: u64) -> Option<&Message>
    ensures some { IfSome result (λ message. (sent < length farm.now.ledger.rows)
        × IsRow farm.now.ledger.rows (sent + 1) (taken_of message.now)) }
    ensures small { IfSome result (λ message. sent + 1 < 2 ^ 64) }
    ensures none { IfNone result (length farm.now.ledger.rows ≤ sent) }
{
    if sent < farm.issued() {
        farm.message(sent + 1)
    } else {
        None
    }
}

/// Takes messages from the wire until none comes or there were [`TAKEN_MAX`]. The first purges are held back, if there
/// is room for them, and all other messages are carried.
fn carry_taken<K: Keeper, W: Wire>(
    farm: &mut Farm<K, SlotCache<Page>>,
    at: &Readings,
    wire: &mut W,
    held: &mut HeldPurges,
)
    requires whole { IsWhole farm.old }
    requires empty { IsEmpty held.old }
    ensures takes { TakesAll K.content K.faults map_of farm.old farm.new at.now
        (wire_seen (W.carried wire.old) (W.refused wire.old) (W.empty wire.old))
        (wire_seen (W.carried wire.new) (W.refused wire.new) (W.empty wire.new)) held.old.room (held_of held.new) }
    ensures few { length held.new.messages.items ≤ held.old.room }
{
    let mut count = 0;
    'taking: while count < TAKEN_MAX {
        match wire.take() {
            Ok(Some(message)) => hold_or_carry(farm, at, held, message),
            Ok(None) | Err(_) => return,
        }
        count += 1;
    }
}

/// Holds a message back, or carries it.
fn hold_or_carry<K: Keeper>(
    farm: &mut Farm<K, SlotCache<Page>>,
    at: &Readings,
    held: &mut HeldPurges,
    message: Message,
)
    requires whole { IsWhole farm.old }
    requires room { HasRoom held.old }
    ensures takes { TakesOne K.content K.faults map_of
        (is_held farm.old.ledger.rows held.old.room (length held.old.messages.items) (taken_of message)) farm.old
        farm.new at.now (taken_of message) (held_of held.old) (held_of held.new) }
    ensures room { HasRoom held.new }
    ensures same { held.new.room ≡ held.old.room }
{
    if is_to_hold(farm, held, &message) {
        hold(held, message);
    } else {
        carry_one(farm, at, message);
    }
}

/// Carries the messages that were held back, in their order.
pub(crate) fn carry_held<K: Keeper>(
    farm: &mut Farm<K, SlotCache<Page>>,
    at: &Readings,
    messages: Vec<Message>,
)
    requires { IsWhole farm.old }
    ensures { CarriesAll K.content K.faults map_of farm.old farm.new at.now (all_taken messages.items) }
{
    for message in messages {
        carry_one(farm, at, message);
    }
}

fn carry_one<K: Keeper>(farm: &mut Farm<K, SlotCache<Page>>, at: &Readings, message: Message)
    requires { IsWhole farm.old }
    ensures { MakesStep K.content K.faults map_of farm.old farm.new at.now
        (Carry message.number (Some (body_of message.body))) }
{
    farm.carry(*at, message.number, Some(&message.body));
}

/// Makes a beat, if the last one of this farm is long enough ago or there was none.
fn beat_if_due<K: Keeper>(farm: &mut Farm<K, SlotCache<Page>>, at: &Readings)
    ensures { BeatsIfDue K.content K.faults map_of farm.old farm.new at.now }
{
    if is_due(farm, at) {
        beat_once(farm, at);
    }
}

fn is_due<K: Keeper>(farm: &Farm<K, SlotCache<Page>>, at: &Readings) -> bool
    ensures { result ≡ is_past (max farm.now.moments.home (cut at.now.home)) farm.now.last_beat }
{
    let reading = at.home.0.min(MOMENT_MAX);
    let now = farm.moment(Region::Home).0.max(reading);
    match farm.last_beat() {
        Some(last) => BEAT_AFTER <= now.saturating_sub(last.0),
        None => true,
    }
}

fn beat_once<K: Keeper>(farm: &mut Farm<K, SlotCache<Page>>, at: &Readings)
    ensures { MakesStep K.content K.faults map_of farm.old farm.new at.now MakeBeat }
{
    farm.beat(*at);
}

/// Lets each replica of a region apply up to `pace` entries, in their order.
fn apply_region<K: Keeper>(
    farm: &mut Farm<K, SlotCache<Page>>,
    at: &Readings,
    region: Region,
    pace: u32,
)
    ensures { AppliesTo K.content K.faults map_of farm.old farm.new at.now region pace
        (length (region_at region farm.old.home farm.old.west).replicas) }
{
    let count = farm.replicas(region);
    let mut replica = 0;
    'applying: while replica < count {
        apply_one(farm, at, region, replica, pace);
        replica += 1;
    }
}

fn apply_one<K: Keeper>(
    farm: &mut Farm<K, SlotCache<Page>>,
    at: &Readings,
    region: Region,
    replica: u8,
    pace: u32,
)
    requires { replica < length (region_at region farm.old.home farm.old.west).replicas }
    ensures { MakesStep K.content K.faults map_of farm.old farm.new at.now (Apply region replica pace) }
{
    farm.apply(*at, region, replica, pace);
}
