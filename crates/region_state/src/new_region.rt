// What a region begins with.
ghost use Rattle.std.specs.Prelude.{◌≡◌, IfOk};
ghost use Rattle.region_state.specs.NewRegion.{AreNew};

use farm_base::Memory;
use replica_apply::Replica;
use std::alloc::Global;

/// A copy of the weights, and a replica that has applied nothing for each.
pub(crate) fn new_replicas(
    alloc: Global,
    weights: &[u16],
) -> Result<(Vec<u16>, Vec<Replica>), Memory>
    ensures weights { IfOk result (λ made. made.0.items ≡ weights.now) }
    ensures replicas { IfOk result (λ made. AreNew weights.now made.1.items) }
{
    let copy = copied(alloc, weights)?;
    let replicas = replicas_for(alloc, weights)?;
    Ok((copy, replicas))
}

fn copied(alloc: Global, weights: &[u16]) -> Result<Vec<u16>, Memory>
    ensures { IfOk result (λ copy. copy.items ≡ weights.now) }
{
    let mut copy = Vec::new(alloc);
    for weight in weights {
        copy.push(*weight)?;
    }
    Ok(copy)
}

#[tactic(auto, using(crate::proofs::NewReplicas::one_new))]
fn replicas_for(alloc: Global, weights: &[u16]) -> Result<Vec<Replica>, Memory>
    ensures { IfOk result (λ replicas. AreNew weights.now replicas.items) }
{
    let mut replicas = Vec::new(alloc);
    for _weight in weights {
        replicas.push(Replica::new(alloc))?;
    }
    Ok(replicas)
}
