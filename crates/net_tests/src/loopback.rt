// A door on loopback, a client of it, the system's clock and words.
ghost use Rattle.std.specs.Prelude.{IsTrue};
ghost use Rattle.wiki_model.specs.Steps.{Rose};

use farm_base::{Clock, Conn, Door, Lots, OutFault, Sink, Source, read_all, write_both};
use std::alloc::Global;
use std::io::{Read, Write};
use std::net::{Shutdown, TcpStream};
use std::process::Abort;
use std::test::Fail;
use std::{io, str};
use wiki_net::{SystemClock, SystemLots, TcpDoor};

#[test]
fn bytes_go_both_ways_over_a_connection(rt: HostRuntime) -> Result<(), Fail> {
    let mut door = TcpDoor::bind(&rt, rt.alloc(), "127.0.0.1:0")?;
    let mut client = TcpStream::connect(&rt, door.address()?)?;
    let Ok(Some(conn)) = door.next() else {
        return Err(Fail::new("no connection"));
    };
    let mut conn = conn;
    assert_eq!(rt; conn.peer(), "127.0.0.1");
    client.write_all(b"ask")?;
    let mut asked = [0u8; 3];
    assert!(rt; matches!(conn.read(&mut asked), Ok(3)));
    assert_eq!(rt; &asked, b"ask");
    assert!(rt; matches!(conn.write(b"answer"), Ok(6)));
    let mut answered = [0u8; 6];
    client.read_exact(&mut answered)?;
    assert_eq!(rt; &answered, b"answer");
    assert!(rt; matches!(conn.write_two(b"both ", b"leave"), Ok(10)));
    let mut both = [0u8; 10];
    client.read_exact(&mut both)?;
    assert_eq!(rt; &both, b"both leave");
    door.done(conn);
    assert_eq!(rt; client.read(&mut answered)?, 0);
    Ok(())
}

const ASKED: &str = "GET /nowhere HTTP/1.1\r\nHost: wiki.example\r\n\r\n";

const HEAD: &str = "HTTP/1.1 404 Not Found\r\nContent-Length: 9\r\n\r\n";

const BODY: &str = "no-route\n";

// One thread is enough for both ends: the client has sent all before its connection is taken.
#[test]
fn a_client_that_sent_all_before_it_was_taken_is_answered(rt: HostRuntime) -> Result<(), Fail> {
    let alloc = rt.alloc();
    let mut door = TcpDoor::bind(&rt, alloc, "127.0.0.1:0")?;
    let mut client = TcpStream::connect(&rt, door.address()?)?;
    client.write_all(ASKED.as_bytes())?;
    client.shutdown(Shutdown::Write)?;
    let Ok(Some(conn)) = door.next() else {
        return Err(Fail::new("no connection"));
    };
    let mut conn = conn;
    assert_answers(&rt, alloc, &mut conn)?;
    door.done(conn);
    let answered = io::read_to_string(alloc, client)?;
    let wanted = format!(in alloc; "{HEAD}{BODY}")?;
    assert_eq!(rt; answered.as_str(), wanted.as_str());
    Ok(())
}

fn assert_answers<R: Abort, X: Conn>(rt: &R, alloc: Global, conn: &mut X) -> Result<(), Fail> {
    let asked = read_all(alloc, 4_096, conn)?;
    assert_eq!(rt; str::from_utf8(&asked)?, ASKED);
    write_both(conn, HEAD.as_bytes(), BODY.as_bytes())?;
    Ok(())
}

#[test]
fn a_shut_door_fails_each_time(rt: HostRuntime) {
    let mut door = TcpDoor::shut(&rt, rt.alloc());
    assert!(rt; door.address().is_err());
    assert!(rt; is_refused(&mut door));
    assert!(rt; is_refused(&mut door));
    assert!(rt; is_refused(&mut door));
}

// Whether the door fails, which it then counts.
fn is_refused<D: Door>(door: &mut D) -> bool
    ensures { IsTrue result → Rose (D.faults door.old) (D.faults door.new) }
{
    match door.next() {
        Err(OutFault::Failed) => true,
        Ok(Some(conn)) => {
            door.done(conn);
            false
        }
        Ok(None) => false,
    }
}

#[test]
fn a_silent_client_is_let_go(rt: HostRuntime) -> Result<(), Fail> {
    let mut door = TcpDoor::bind(&rt, rt.alloc(), "127.0.0.1:0")?;
    let client = TcpStream::connect(&rt, door.address()?)?;
    let Ok(Some(conn)) = door.next() else {
        return Err(Fail::new("no connection"));
    };
    let mut conn = conn;
    let mut asked = [0u8; 3];
    assert!(rt; conn.read(&mut asked).is_err());
    door.done(conn);
    drop(client);
    Ok(())
}

#[test]
fn the_clock_reads_a_time_and_the_words_differ(rt: HostRuntime) -> Result<(), Fail> {
    let mut clock = SystemClock::new(&rt);
    let first = clock.readings();
    assert!(rt; 1_600_000_000_000 < first.home.0);
    assert_eq!(rt; first.home.0, first.west.0);
    let mut lots = SystemLots::new(&rt);
    let first = lots.word();
    let second = lots.word();
    assert!(rt; first != second);
    Ok(())
}
