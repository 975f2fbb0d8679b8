// How many connections are served, and a door that has no more or fails.
use crate::setting::{door_of, end_at, has_said};
use std::test::Fail;
use wiki_host::HostEnd;

const NO_ROUTE: &str = "GET / HTTP/1.1\r\nHost: wiki.example\r\nConnection: close\r\n\r\n";

const REFUSED: &str = "\
HTTP/1.1 404 Not Found\r
Content-Type: text/plain; charset=utf-8\r
Content-Length: 9\r
Connection: close\r
\r
no-route
";

#[test]
fn no_more_connections_are_taken_than_are_wanted(rt: HostRuntime) -> Result<(), Fail> {
    let mut door = door_of(rt.alloc(), NO_ROUTE, NO_ROUTE, 0)?;
    let end = end_at(&rt, rt.alloc(), &mut door, 1)?;
    assert_eq!(rt; end, HostEnd::Served { connections: 1 });
    assert!(rt; door.returned(1).is_none());
    has_said(&rt, rt.alloc(), &door, 0, REFUSED)
}

#[test]
fn a_door_that_has_no_more_ends_the_hosting(rt: HostRuntime) -> Result<(), Fail> {
    let mut door = door_of(rt.alloc(), NO_ROUTE, NO_ROUTE, 0)?;
    let end = end_at(&rt, rt.alloc(), &mut door, 1_000_000)?;
    assert_eq!(rt; end, HostEnd::Served { connections: 2 });
    assert!(rt; door.returned(1).is_some());
    Ok(())
}

#[test]
fn a_door_that_fails_ends_the_hosting(rt: HostRuntime) -> Result<(), Fail> {
    let mut door = door_of(rt.alloc(), NO_ROUTE, NO_ROUTE, 2)?;
    let end = end_at(&rt, rt.alloc(), &mut door, 2)?;
    assert_eq!(rt; end, HostEnd::DoorFault);
    assert!(rt; door.returned(1).is_none());
    has_said(&rt, rt.alloc(), &door, 0, REFUSED)
}

#[test]
fn a_connection_that_is_cut_is_handed_back(rt: HostRuntime) -> Result<(), Fail> {
    let mut door = door_of(rt.alloc(), "GET / HTTP/1.1\r\nHost:", NO_ROUTE, 0)?;
    let end = end_at(&rt, rt.alloc(), &mut door, 2)?;
    assert_eq!(rt; end, HostEnd::Served { connections: 2 });
    has_said(&rt, rt.alloc(), &door, 0, "")?;
    has_said(&rt, rt.alloc(), &door, 1, REFUSED)
}

#[test]
fn no_connection_need_be_wanted(rt: HostRuntime) -> Result<(), Fail> {
    let mut door = door_of(rt.alloc(), NO_ROUTE, NO_ROUTE, 1)?;
    let end = end_at(&rt, rt.alloc(), &mut door, 0)?;
    assert_eq!(rt; end, HostEnd::Served { connections: 0 });
    Ok(())
}
