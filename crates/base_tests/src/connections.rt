// Connections, doors, clocks and lots in memory.
use farm_base::{
    Clock, Conn, Door, Lots, MOMENT_MAX, MemClock, MemConn, MemDoor, MemLots, Moment, OutFault,
    Readings, Sink, Source, write_both,
};
use std::alloc::Global;
use std::process::Abort;
use std::test::Fail;

// A connection over a text, of which each call moves one byte.
fn byte_by_byte(alloc: Global, text: &str, reads: &[u64], writes: &[u64]) -> Result<MemConn, Fail> {
    Ok(MemConn::new(
        alloc,
        text.as_bytes().to_vec(alloc)?,
        "10.0.0.7".to_string(alloc)?,
        1,
        reads.to_vec(alloc)?,
        writes.to_vec(alloc)?,
    ))
}

#[test]
fn a_connection_moves_a_byte_at_a_time(rt: HostRuntime) -> Result<(), Fail> {
    let mut conn = byte_by_byte(rt.alloc(), "ab", &[2], &[1])?;
    moves_bytes(&rt, &mut conn);
    Ok(())
}

fn moves_bytes(rt: &impl Abort, conn: &mut MemConn) {
    let mut buf = [0u8; 4];
    assert_eq!(rt; conn.peer(), "10.0.0.7");
    assert_eq!(rt; conn.read(&mut buf), Ok(1));
    assert_eq!(rt; buf[0], b'a');
    assert_eq!(rt; conn.write(b"one"), Err(OutFault::Failed));
    assert_eq!(rt; conn.read(&mut buf), Err(OutFault::Failed));
    assert_eq!(rt; conn.read(&mut buf), Ok(1));
    assert_eq!(rt; buf[0], b'b');
    assert_eq!(rt; conn.write(b"two"), Ok(1));
    assert_eq!(rt; conn.read(&mut buf), Ok(0));
    assert_eq!(rt; conn.written(), b"t".as_slice());
}

#[test]
fn two_pieces_are_written_whole_or_up_to_a_failed_write(rt: HostRuntime) -> Result<(), Fail> {
    writes_whole(&rt, &mut byte_by_byte(rt.alloc(), "", &[], &[])?);
    writes_up_to_the_sixth(&rt, &mut byte_by_byte(rt.alloc(), "", &[], &[6])?);
    Ok(())
}

fn writes_whole(rt: &impl Abort, conn: &mut MemConn) {
    assert!(rt; write_both(conn, b"head", b"page").is_ok());
    assert!(rt; write_both(conn, b"", b"end").is_ok());
    assert_eq!(rt; conn.written(), b"headpageend".as_slice());
}

fn writes_up_to_the_sixth(rt: &impl Abort, conn: &mut MemConn) {
    assert!(rt; write_both(conn, b"head", b"page").is_err());
    assert_eq!(rt; conn.written(), b"headp".as_slice());
}

// A door over two connections, of which these calls fail.
fn two_at_a_door(alloc: Global, failing: &[u64]) -> Result<MemDoor, Fail> {
    let mut conns = Vec::new(alloc);
    conns.push(byte_by_byte(alloc, "a", &[], &[])?)?;
    conns.push(byte_by_byte(alloc, "b", &[], &[])?)?;
    Ok(MemDoor::new(conns, failing.to_vec(alloc)?))
}

// What the next connection of a door gives first.
fn next_byte(door: &mut MemDoor) -> Result<u8, Fail> {
    let mut conn = door.next()?.ok_or("no connection")?;
    let mut buf = [0u8; 1];
    conn.read(&mut buf)?;
    conn.write(&buf)?;
    door.done(conn);
    Ok(buf[0])
}

// Whether what was written over the connection of this place is the byte.
fn has_back(door: &MemDoor, place: usize, byte: u8) -> bool {
    door.returned(place)
        .map_or(false, |conn| conn.written() == [byte].as_slice())
}

#[test]
fn a_door_gives_its_connections_in_order(rt: HostRuntime) -> Result<(), Fail> {
    let mut door = two_at_a_door(rt.alloc(), &[2])?;
    gives_both(&rt, &mut door)
}

fn gives_both(rt: &impl Abort, door: &mut MemDoor) -> Result<(), Fail> {
    assert_eq!(rt; next_byte(door)?, b'a');
    assert!(rt; door.next().is_err());
    assert_eq!(rt; next_byte(door)?, b'b');
    assert!(rt; door.next()?.is_none());
    assert!(rt; has_back(door, 0, b'a'));
    assert!(rt; has_back(door, 1, b'b'));
    Ok(())
}

#[test]
fn a_connection_goes_back_to_its_place(rt: HostRuntime) -> Result<(), Fail> {
    let mut door = two_at_a_door(rt.alloc(), &[])?;
    let first = door.next()?.ok_or("no connection")?;
    let _ = next_byte(&mut door)?;
    assert!(rt; door.returned(0).is_none());
    assert!(rt; has_back(&door, 1, b'b'));
    door.done(first);
    assert!(rt; door.returned(0).is_some());
    Ok(())
}

// The same moment in both regions.
fn both(at: u64) -> Readings {
    Readings {
        home: Moment(at),
        west: Moment(at),
    }
}

#[test]
fn a_clock_that_runs_out_gives_its_last_readings(rt: HostRuntime) -> Result<(), Fail> {
    let coming = [both(7), both(u64::MAX)].to_vec(rt.alloc())?;
    let mut clock = MemClock::new(coming, both(9));
    assert_eq!(rt; clock.readings(), both(7));
    assert_eq!(rt; clock.readings(), both(MOMENT_MAX));
    assert_eq!(rt; clock.readings(), both(9));
    assert_eq!(rt; clock.readings(), both(9));
    Ok(())
}

#[test]
fn lots_that_run_out_give_their_last_word(rt: HostRuntime) -> Result<(), Fail> {
    let mut lots = MemLots::new([5u64].to_vec(rt.alloc())?, u64::MAX);
    assert_eq!(rt; lots.word(), 5);
    assert_eq!(rt; lots.word(), u64::MAX);
    assert_eq!(rt; lots.word(), u64::MAX);
    Ok(())
}
