// Positions, and a region's store of them.
ghost use Rattle.std.specs.Prelude.{IsTrue, IfOk, ◌≤◌};
ghost use Rattle.chronology_store.specs.ChronologyStore.{is_reserved};

use chronology_store::{ChronologyStore, ClientCommit, KnownPosition, RelayAnswer, expiry};
use db_position::{Position, merge, reached};
use farm_base::{Memory, Moment};
use std::alloc::Global;
use std::test::Fail;
use wiki_titles::ClientId;

fn known(index: u64, entry: u64) -> Option<KnownPosition> {
    Some(KnownPosition {
        index,
        position: Position { entry },
    })
}

#[test]
fn a_position_is_a_number(rt: HostRuntime) -> Result<(), Fail> {
    let (early, late) = (Position { entry: 16 }, Position { entry: 17 });
    assert_eq!(rt; late.text(rt.alloc())?.as_str(), "17");
    assert!(rt; merge(early, late) == late && merge(late, early) == late);
    assert!(rt; !reached(16, late) && reached(17, late) && reached(18, late));
    Ok(())
}

// index, entry, what became of it
const MESSAGES: [(u64, u64, RelayAnswer); 3] = [
    (2, 9, RelayAnswer::Newer),
    (1, 4, RelayAnswer::Older),
    (2, 9, RelayAnswer::Older),
];

#[test]
fn a_message_tells_a_greater_index_or_nothing(rt: HostRuntime) -> Result<(), Fail> {
    let mut store = ChronologyStore::new(rt.alloc());
    let one = ClientId::number(1);
    for (index, entry, expected) in MESSAGES {
        let taken = store.take_relay(&one, index, Position { entry }, Moment(60_000))?;
        assert_eq!(rt; taken, expected);
    }
    assert_eq!(rt; store.find(&one, Moment(59_999)), known(2, 9));
    assert_eq!(rt; store.find(&one, Moment(60_000)), None);
    assert_eq!(rt; store.find(&ClientId::number(2), Moment(0)), None);
    assert_eq!(rt; store.rows(), 1);
    Ok(())
}

#[test]
fn a_position_lives_a_minute(rt: HostRuntime) {
    assert_eq!(rt; expiry(Moment(12_000)), Moment(72_000));
}

// A store in which the client has room for good.
fn reserved(alloc: Global, client: &ClientId) -> Result<ChronologyStore, Memory>
    ensures { IfOk result (λ store. IsTrue (is_reserved store client.now)) }
{
    let mut store = ChronologyStore::new(alloc);
    store.reserve(client)?;
    Ok(store)
}

// Makes place 7 of the history the client's last.
fn note(store: &mut ChronologyStore, client: &ClientId, index: u64, expires: Moment)
    requires { IsTrue (is_reserved store.old client.now) }
    ensures { IsTrue (is_reserved store.new client.now) }
{
    store.note(client, index, Position { entry: 7 }, expires);
}

fn sweep(store: &mut ChronologyStore, client: &ClientId, now: Moment)
    requires { IsTrue (is_reserved store.old client.now) }
    ensures { IsTrue (is_reserved store.new client.now) }
{
    store.sweep(now);
}

#[test]
fn a_reserved_row_is_noted_and_outlives_a_sweep(rt: HostRuntime) -> Result<(), Fail> {
    let one = ClientId::number(1);
    let mut store = reserved(rt.alloc(), &one)?;
    assert_eq!(rt; store.find(&one, Moment(0)), None);
    sweep(&mut store, &one, Moment(1_000));
    note(&mut store, &one, 3, Moment(70_000));
    assert_eq!(rt; store.find(&one, Moment(10_000)), known(3, 7));
    sweep(&mut store, &one, Moment(69_999));
    assert_eq!(rt; store.find(&one, Moment(69_999)), known(3, 7));
    sweep(&mut store, &one, Moment(70_000));
    assert_eq!(rt; store.find(&one, Moment(0)), None);
    note(&mut store, &one, 1, Moment(80_000));
    assert_eq!(rt; store.find(&one, Moment(70_000)), known(1, 7));
    Ok(())
}

// Rebuilds from one commit, the client's first.
fn rebuild(store: &mut ChronologyStore, client: ClientId, stamp: Moment) -> Result<(), Memory>
    requires { stamp ≤ 4_000_000_000_000_000 }
{
    store.rebuild(&[ClientCommit {
        client,
        index: 1,
        entry: 5,
        stamp,
    }])
}

#[test]
fn positions_are_rebuilt_from_commits(rt: HostRuntime) -> Result<(), Fail> {
    let (one, two) = (ClientId::number(1), ClientId::number(2));
    let mut store = reserved(rt.alloc(), &one)?;
    note(&mut store, &one, 3, Moment(70_000));
    rebuild(&mut store, two, Moment(12_000))?;
    for now in [0, 12_000, 71_999] {
        assert_eq!(rt; store.find(&two, Moment(now)), known(1, 5));
    }
    assert_eq!(rt; store.find(&two, Moment(72_000)), None);
    assert_eq!(rt; store.find(&one, Moment(0)), known(3, 7));
    Ok(())
}
