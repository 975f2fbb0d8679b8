// A replica applies the next entries of a keeper's history.
ghost use Rattle.std.specs.Prelude.{◌≡◌, ◌+◌, ◌<◌, ◌^◌, List, Some};
ghost use Rattle.wiki_model.specs.History as history;
ghost use Rattle.revision_keeper.specs.Causes.{HasFault};
ghost use Rattle.region_state.specs.ApplyEntries.{says_applied, AppliesOne, AppliesTo};

use farm_base::Memory;
use replica_apply::{Applied, Replica};
use revision_keeper::{KeepFault, Keeper};

/// Applies the next entries, at most `count`. What was applied before a refusal stays.
pub(crate) fn apply_all<K: Keeper>(
    keeper: &mut K,
    replica: &mut Replica,
    count: u32,
) -> Result<(), KeepFault>
    ensures content { K.content keeper.new ≡ K.content keeper.old }
    ensures cause { HasFault (K.faults keeper.old) (K.faults keeper.new) result }
    ensures applies { (h : List history.Entry) → K.content keeper.old ≡ Some h
        → AppliesTo h count replica.old replica.new result }
{
    let mut left = count;
    while 0 < left {
        match apply_one(keeper, replica) {
            Ok(true) => left -= 1,
            Ok(false) => return Ok(()),
            Err(fault) => return Err(fault),
        }
    }
    Ok(())
}

/// Applies the next entry; answers whether there was one.
fn apply_one<K: Keeper>(keeper: &mut K, replica: &mut Replica) -> Result<bool, KeepFault>
    ensures content { K.content keeper.new ≡ K.content keeper.old }
    ensures cause { HasFault (K.faults keeper.old) (K.faults keeper.new) result }
    ensures applies { (h : List history.Entry) → K.content keeper.old ≡ Some h
        → AppliesOne h replica.old replica.new result }
{
    keeper.known();
    let n = next_of(replica.applied());
    match keeper.entry(n) {
        Err(fault) => Err(fault),
        Ok(None) => Ok(false),
        Ok(Some(entry)) => applied_of(replica.apply(n, &entry)),
    }
}

/// The number of the next entry. A history is so short that nothing is cut off here.
fn next_of(applied: u64) -> u64
    ensures { applied < 2 ^ 63 → result ≡ applied + 1 }
{
    applied.saturating_add(1)
}

fn applied_of(made: Result<Applied, Memory>) -> Result<bool, KeepFault>
    ensures { result ≡ says_applied made }
{
    match made {
        Ok(_) => Ok(true),
        Err(Memory) => Err(KeepFault::Memory),
    }
}
