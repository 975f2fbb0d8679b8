// Purges that came for a batch of west: they are held back, and its round receives them.
ghost use Rattle.std.specs.Prelude.{◌≡◌, ◌≤◌, ◌<◌, ◌+◌, ◌++◌, ◌∷◌, [], length};
ghost use Rattle.wiki_serve.specs.HoldingBack.{IsEmpty, HasRoom, taken_of, all_taken, held_of, is_receivable, is_held};
ghost use Rattle.wiki_serve.specs.HoldingBack.{receipts_in};

use farm_core::{Farm, Page};
use purge_relay::{Body, Message};
use region_round::Job;
use revision_keeper::Keeper;
use slot_cache::SlotCache;
use std::alloc::Global;

/// Purges that were taken and are held back for a round, in the order in which they were taken.
#[derive(Debug, Drop)]
pub struct HeldPurges {
    /// At most this many are held; 0: none.
    pub room: usize,
    pub messages: Vec<Message>,
}

/// For a request without a round: none is held.
pub(crate) fn none_held(alloc: Global) -> HeldPurges
    ensures empty { IsEmpty result }
    ensures room { result.room ≡ 0 }
{
    HeldPurges {
        room: 0,
        messages: Vec::new(alloc),
    }
}

/// Whether this message is to be held back: there is room, and west would receive it.
pub(crate) fn is_to_hold<K: Keeper>(
    farm: &Farm<K, SlotCache<Page>>,
    held: &HeldPurges,
    message: &Message,
) -> bool
    ensures { result ≡ is_held farm.now.ledger.rows held.now.room (length held.now.messages.items)
        (taken_of message.now) }
{
    held.messages.len() < held.room && is_receivable(farm, message)
}

/// Whether this is a purge that was issued under its number as it is here, and not dropped.
fn is_receivable<K: Keeper>(farm: &Farm<K, SlotCache<Page>>, message: &Message) -> bool
    ensures { result ≡ is_receivable farm.now.ledger.rows (taken_of message.now) }
{
    let Some(issued) = farm.message(message.number) else {
        return false;
    };
    match &issued.body {
        Body::Purge { .. } => {
            message.body.is_same(&issued.body) && !farm.is_dropped(message.number)
        }
        Body::Position { .. } => false,
    }
}

/// Holds one more back. There is room for it.
pub(crate) fn hold(held: &mut HeldPurges, message: Message)
    requires room { HasRoom held.old }
    requires more { length held.old.messages.items < held.old.room }
    ensures room { HasRoom held.new }
    ensures same { held.new.room ≡ held.old.room }
    ensures held { held_of held.new ≡ held_of held.old ++ taken_of message ∷ [] }
{
    let Ok(()) = held.messages.push(message) else {
        unreachable!()
    };
}

/// The jobs, and after them a receipt of each of these purges, in their order. There is room for them.
///
/// Each is asked once more whether west may receive it, since a round wants to know that of the farm as it is.
pub(crate) fn with_receipts<K: Keeper>(
    farm: &Farm<K, SlotCache<Page>>,
    messages: Vec<Message>,
    jobs: Vec<Job>,
) -> Vec<Job>
    requires room { length jobs.items + length messages.items ≤ jobs.cap }
    ensures { result.items ≡ jobs.items ++ receipts_in farm.now.ledger.rows (all_taken messages.items) }
{
    let mut all = jobs;
    for message in messages {
        push_receipt(farm, &mut all, message);
    }
    all
}

/// Adds the receipt of one more purge. There is room for it.
fn push_receipt<K: Keeper>(farm: &Farm<K, SlotCache<Page>>, jobs: &mut Vec<Job>, message: Message)
    requires room { length jobs.old.items < jobs.old.cap }
    ensures room { jobs.old.cap ≤ jobs.new.cap }
    ensures pushed { jobs.new.items ≡ jobs.old.items ++ receipts_in farm.now.ledger.rows (taken_of message ∷ []) }
{
    if is_receivable(farm, &message) {
        let Ok(()) = jobs.push(Job::Receipt(message.number)) else {
            unreachable!()
        };
    }
}
