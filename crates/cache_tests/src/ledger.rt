// Messages in the ledger: their numbers, what became of them, and their receipts.
ghost use Rattle.std.specs.Prelude.{◌≤◌};

use crate::setting::title_of;
use farm_base::{Moment, Region};
use purge_relay::{Issued, Ledger, Receipt};
use std::alloc::Global;
use std::test::Fail;
use wiki_titles::{ClientId, Title};

// Issues a purge, and the position of a client.
fn issue_two(ledger: &mut Ledger, title: Title) -> (Issued, u64)
    requires { 2 ≤ ledger.old.spare }
{
    let issued = ledger.issue_purge(title, Moment(5));
    let position = ledger.issue_position(ClientId::number(1), 1, 1, Moment(5));
    (issued, position)
}

// A ledger of a purge, which is message 1, and a position, which is message 2.
fn ledger_of_two(alloc: Global) -> Result<Ledger, Fail> {
    let mut ledger = Ledger::new(alloc);
    ledger.reserve(2)?;
    issue_two(&mut ledger, title_of(alloc, 1)?);
    Ok(ledger)
}

#[test]
fn messages_are_numbered_as_they_are_issued(rt: HostRuntime) -> Result<(), Fail> {
    let alloc = rt.alloc();
    let mut ledger = Ledger::new(alloc);
    ledger.reserve(2)?;
    let (issued, position) = issue_two(&mut ledger, title_of(alloc, 1)?);
    assert_eq!(rt; (issued.purge, issued.message, position), (1, 1, 2));
    for number in [1, 2] {
        assert_eq!(rt;
            ledger.message(number).map(|message| message.number),
            Some(number)
        );
    }
    assert!(rt; ledger.message(0).is_none() && ledger.message(3).is_none());
    Ok(())
}

fn release_one(ledger: &mut Ledger)
    requires { 1 ≤ ledger.old.spare }
{
    ledger.release(1);
}

#[test]
fn reserved_room_is_used_or_released(rt: HostRuntime) -> Result<(), Fail> {
    assert_eq!(rt; ledger_of_two(rt.alloc())?.spare(), 0);
    let mut ledger = Ledger::new(rt.alloc());
    ledger.reserve(3)?;
    assert_eq!(rt; ledger.spare(), 3);
    release_one(&mut ledger);
    assert_eq!(rt; ledger.spare(), 2);
    Ok(())
}

#[test]
fn the_first_unsent_message_is_the_lowest(rt: HostRuntime) -> Result<(), Fail> {
    let mut ledger = ledger_of_two(rt.alloc())?;
    assert_eq!(rt; ledger.first_unsent(), Some(1));
    ledger.mark_sent(2);
    assert_eq!(rt; ledger.first_unsent(), Some(1));
    ledger.mark_sent(1);
    assert_eq!(rt; ledger.first_unsent(), None);
    Ok(())
}

#[test]
fn a_receipt_has_the_first_and_the_last_moment(rt: HostRuntime) -> Result<(), Fail> {
    let mut ledger = ledger_of_two(rt.alloc())?;
    ledger.receive(1, Region::West, Moment(7));
    ledger.receive(1, Region::West, Moment(9));
    ledger.receive(2, Region::West, Moment(9));
    ledger.receive(3, Region::West, Moment(9));
    let receipt = Receipt {
        first: Moment(7),
        last: Moment(9),
    };
    assert_eq!(rt; ledger.receipt(1, Region::West), Some(receipt));
    assert_eq!(rt; ledger.receipt(1, Region::Home), None);
    assert_eq!(rt; ledger.receipt(2, Region::West), None);
    Ok(())
}

#[test]
fn a_message_that_is_dropped_is_marked(rt: HostRuntime) -> Result<(), Fail> {
    let mut ledger = ledger_of_two(rt.alloc())?;
    ledger.drop_message(2);
    assert!(rt; ledger.is_dropped(2));
    assert!(rt; !ledger.is_dropped(1) && !ledger.is_dropped(3));
    Ok(())
}
