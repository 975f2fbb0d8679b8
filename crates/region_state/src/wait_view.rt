// Whether a view goes on, waits or gives up.
ghost use Rattle.std.specs.Prelude.{◌≡◌, ◌+◌, ◌||◌, map, option_map, nat_le};
ghost use Rattle.wiki_model.specs.Limits.{wait_limit};
ghost use Rattle.wiki_model.specs.Sessions.{live_index, lag_behind};
ghost use Rattle.region_state.specs.AsModel.{view_of};
ghost use Rattle.region_state.specs.WaitView.{known_in, lag_at, waits};

use crate::ask::ViewAsk;
use crate::replica_rows::most_applied;
use chronology_store::ChronologyStore;
use db_position::Position;
use farm_base::{Moment, WAIT_LIMIT};
use replica_apply::Replica;
use sticky_routes::live;
use wiki_model::Behind;
use wiki_titles::ClientId;

/// What a view does at its step `wait`.
#[derive(Clone, Copy, Debug, PartialEq, Eq)]
pub enum Wait {
    /// It goes on, and its page may not miss the first `need` entries; 0: any page will do.
    Go {
        need: u64,
    },
    /// It is behind, and gives up.
    Lag {
        by: Behind,
        needed: u64,
        reached: u64,
    },
    /// It is behind, and waits.
    Stay,
}

/// A view that arrived then is behind if the region has not heard of what the client's cookie counts, or if no replica
/// has applied what the region has heard. It waits for the wait limit, or gives up at once if this is its last chance.
pub(crate) fn wait_at(
    positions: &ChronologyStore,
    replicas: &[Replica],
    ask: &ViewAsk,
    arrived: Moment,
    now: Moment,
    last: bool,
) -> Wait
    ensures { result ≡ waits (last || nat_le (arrived + wait_limit) now)
        (known_in positions.now ask.now.client now).position
        (lag_at positions.now (map (λ k. k.applied) replicas.now) ask.now now) }
{
    let (known_index, need) = known(positions, &ask.client, now);
    let index = live_index(ask, now);
    match behind(index, known_index, need, most_applied(replicas)) {
        None => Wait::Go { need },
        Some((by, needed, reached)) => {
            if last || gives_up(arrived, now) {
                Wait::Lag {
                    by,
                    needed,
                    reached,
                }
            } else {
                Wait::Stay
            }
        }
    }
}

/// What is known of the client, its index and its position; zeros if nothing is.
fn known(positions: &ChronologyStore, client: &ClientId, now: Moment) -> (u64, u64)
    ensures { record { index = result.0; position = result.1 } ≡ known_in positions.now client.now now }
{
    match positions.find(client, now) {
        Some(known) => (known.index, entry_of(known.position)),
        None => (0, 0),
    }
}

fn entry_of(position: Position) -> u64
    ensures { result ≡ position }
{
    position.entry
}

/// The index of a live cookie, or 0.
fn live_index(ask: &ViewAsk, now: Moment) -> u64
    ensures { result ≡ live_index now (view_of ask.now) }
{
    match &ask.cookie {
        Some(cookie) if live(cookie, now) => cookie.index,
        _ => 0,
    }
}

/// How a view is behind, if it is.
fn behind(index: u64, known_index: u64, need: u64, applied: u64) -> Option<(Behind, u64, u64)>
    ensures { option_map (λ lag. record { by = lag.0; needed = lag.1; reached = lag.2 }) result
        ≡ lag_behind index (record { index = known_index; position = need }) applied }
{
    if known_index < index {
        Some((Behind::Index, index, known_index))
    } else if applied < need {
        Some((Behind::Entry, need, applied))
    } else {
        None
    }
}

/// Whether a view has waited as long as it may.
fn gives_up(arrived: Moment, now: Moment) -> bool
    ensures { result ≡ nat_le (arrived + wait_limit) now }
{
    WAIT_LIMIT <= now.0 && arrived.0 <= now.0 - WAIT_LIMIT
}
