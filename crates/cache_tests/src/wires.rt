// Messages on their way.
use farm_base::Moment;
use purge_relay::{Body, Deal, FarmWire, Message, Wire, WireFault};
use std::test::Fail;
use wiki_titles::ClientId;

// The number that a take gives.
fn taken<W: Wire>(wire: &mut W) -> Result<Option<u64>, WireFault> {
    Ok(wire.take()?.map(|message| message.number))
}

fn position(number: u64) -> Message {
    Message {
        number,
        body: Body::Position {
            client: ClientId::number(number),
            index: 1,
            entry: 1,
            stamp: Moment(5),
        },
    }
}

#[test]
fn a_wire_gives_what_was_sent(rt: HostRuntime) -> Result<(), Fail> {
    let mut wire = FarmWire::new(rt.alloc());
    assert_eq!(rt; taken(&mut wire)?, None);
    wire.send(&position(1))?;
    assert_eq!(rt; taken(&mut wire)?, Some(1));
    wire.send(&position(2))?;
    wire.send(&position(3))?;
    for expected in [Some(2), Some(3), None] {
        assert_eq!(rt; taken(&mut wire)?, expected);
    }
    Ok(())
}

const PLAN: [Deal; 5] = [
    Deal::Fail,
    Deal::Carry(3),
    Deal::Skip,
    Deal::Carry(1),
    Deal::Carry(1),
];

// what each take answers, after one message was sent; the last is past the plan
const TAKEN: [Result<Option<u64>, WireFault>; 6] = [
    Err(WireFault::Failed),
    Ok(None),
    Ok(None),
    Ok(Some(1)),
    Ok(Some(1)),
    Ok(None),
];

#[test]
fn a_scripted_wire_follows_its_plan(rt: HostRuntime) -> Result<(), Fail> {
    let alloc = rt.alloc();
    let mut wire = FarmWire::scripted(alloc, PLAN.as_slice().to_vec(alloc)?);
    wire.send(&position(1))?;
    for answer in TAKEN {
        assert_eq!(rt; taken(&mut wire), answer);
    }
    Ok(())
}
