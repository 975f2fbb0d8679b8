// A region's replicas as the balancer sees them.
ghost use Rattle.std.specs.Prelude.{◌≡◌, ◌-◌, length, map, IfOk};
ghost use Rattle.wiki_model.specs.Sessions.{greatest};
ghost use Rattle.load_balancer.specs.AsModel.{row_of, rows_of};
ghost use Rattle.region_state.specs.SnapView.{seen_row, seen_rows};

use farm_base::{Memory, Moment};
use load_balancer::Row;
use replica_apply::Replica;
use std::alloc::Global;

/// Each replica with its weight, its lag and how much it has applied.
#[tactic(auto, using(crate::proofs::ReplicaRows::rows_next))]
pub(crate) fn rows_at(
    alloc: Global,
    weights: &[u16],
    replicas: &[Replica],
    now: Moment,
) -> Result<Vec<Row>, Memory>
    requires { length weights.now ≡ length replicas.now }
    ensures rows { IfOk result (λ rows. rows_of rows.items ≡ seen_rows now weights.now replicas.now) }
    ensures len { IfOk result (λ rows. length rows.items ≡ length replicas.now) }
{
    let mut rows = Vec::new(alloc);
    for (i, replica) in replicas.iter().enumerate() {
        rows.push(row_of(weights[i], replica, now))?;
    }
    Ok(rows)
}

fn row_of(weight: u16, replica: &Replica, now: Moment) -> Row
    ensures { row_of result ≡ seen_row now (weight, replica.now) }
{
    Row {
        weight,
        lag: age_at(now, replica.stamp()),
        applied: replica.applied(),
    }
}

/// By how many milliseconds a moment is before now; 0 if it is after it.
pub(crate) fn age_at(now: Moment, moment: Moment) -> u64
    ensures { result ≡ now - moment }
{
    now.0.saturating_sub(moment.0)
}

/// How many entries the replica has applied that has applied most.
pub(crate) fn most_applied(replicas: &[Replica]) -> u64
    ensures { result ≡ greatest (map (λ k. k.applied) replicas.now) }
{
    let mut most = 0;
    for replica in replicas {
        if most < replica.applied() {
            most = replica.applied();
        }
    }
    most
}
