// An edit and a view, byte for byte, and how a connection ends.
use crate::setting::{READ, READING, SAVED, SAVING, Talked, talk, talk_in_pieces};
use std::process::Abort;
use std::test::Fail;
use std::thread::Threads;
use wiki_serve::ConnEnd;

// The input is answered with this text, and the connection ends so.
fn is_answered<R: AllocGlobal + Threads + Sync + Abort>(
    rt: &R,
    input: &[u8],
    piece: usize,
    wanted: &str,
    wanted_end: ConnEnd,
) -> Result<(), Fail> {
    let Talked { end, text } = talk_in_pieces(rt, input, piece)?;
    assert_eq!(rt; text.as_str(), wanted);
    assert_eq!(rt; end, wanted_end);
    Ok(())
}

// The answers to this input end with this text, and the connection ends so.
fn is_answered_last<R: AllocGlobal + Threads + Sync + Abort>(
    rt: &R,
    input: &[u8],
    last: &str,
    wanted_end: ConnEnd,
) -> Result<(), Fail> {
    let Talked { end, text } = talk(rt, input)?;
    assert!(rt; text.as_str().ends_with(last));
    assert_eq!(rt; end, wanted_end);
    Ok(())
}

#[test]
fn an_edit_is_saved_and_its_page_is_seen(rt: HostRuntime) -> Result<(), Fail> {
    let input = format!(in rt.alloc(); "{SAVING}{READING}")?;
    let wanted = format!(in rt.alloc(); "{SAVED}{READ}")?;
    is_answered(
        &rt,
        input.as_bytes(),
        65_536,
        wanted.as_str(),
        ConnEnd::Closed,
    )
}

#[test]
fn the_same_is_said_byte_by_byte(rt: HostRuntime) -> Result<(), Fail> {
    let input = format!(in rt.alloc(); "{SAVING}{READING}")?;
    let wanted = format!(in rt.alloc(); "{SAVED}{READ}")?;
    is_answered(&rt, input.as_bytes(), 1, wanted.as_str(), ConnEnd::Closed)
}

#[test]
fn a_head_says_how_long_the_page_is_and_does_not_send_it(rt: HostRuntime) -> Result<(), Fail> {
    let input = format!(in rt.alloc();
        "{SAVING}HEAD /wiki/Caf%C3%A9_menu HTTP/1.0\r\nHost: wiki.example\r\n\r\n"
    )?;
    let last = "\
Connection: keep-alive\r
\r
saved entry=2 revision=1 cookie=1@5
HTTP/1.1 200 OK\r
Content-Type: text/html; charset=utf-8\r
Content-Length: 73\r
Wiki-Source: 2\r
Wiki-From: replica:0\r
Wiki-Lagged: 0\r
Connection: close\r
\r
";
    is_answered_last(&rt, input.as_bytes(), last, ConnEnd::Ended)
}

#[test]
fn a_page_that_is_not_there_is_said_of_its_prefix(rt: HostRuntime) -> Result<(), Fail> {
    let input = b"GET /wiki/A HTTP/1.1\r\nHost: wiki.example\r\nConnection: close\r\n\r\nGET /";
    let wanted = "\
HTTP/1.1 404 Not Found\r
Content-Type: text/plain; charset=utf-8\r
Content-Length: 17\r
Wiki-Source: 1\r
Connection: close\r
\r
no-page source=1
";
    is_answered(&rt, input, 65_536, wanted, ConnEnd::Ended)
}

#[test]
fn a_token_that_is_used_again_says_what_it_named(rt: HostRuntime) -> Result<(), Fail> {
    let again = "\
POST /edit HTTP/1.1\r
Host: wiki.example\r
Content-Length: 45\r
Cookie: cpPosIndex=1@5#00000000000000000000000000000001\r
\r
title=Caf%C3%A9_menu&base=0&token=k1&text=two\
POST /edit HTTP/1.1\r
Host: wiki.example\r
Content-Length: 45\r
Cookie: cpPosIndex=1@5#00000000000000000000000000000001\r
\r
title=Caf%C3%A9_menu&base=0&token=k2&text=two";
    let input = format!(in rt.alloc(); "{SAVING}{again}")?;
    let last = "\
HTTP/1.1 422 Unprocessable Content\r
Content-Type: text/plain; charset=utf-8\r
Content-Length: 14\r
Connection: keep-alive\r
\r
token entry=2
HTTP/1.1 409 Conflict\r
Content-Type: text/plain; charset=utf-8\r
Content-Length: 26\r
Connection: keep-alive\r
\r
conflict base=0 current=1
";
    is_answered_last(&rt, input.as_bytes(), last, ConnEnd::Closed)
}

#[test]
fn a_session_in_west_is_told_that_its_edit_is_not_there_yet(rt: HostRuntime) -> Result<(), Fail> {
    let view = "\
GET /wiki/B HTTP/1.1\r
Host: west.wiki.example\r
Cookie: cpPosIndex=2@5#00000000000000000000000000000001\r
\r
";
    let input = format!(in rt.alloc(); "{SAVING}{view}")?;
    let last = "\r\n\r\nlag index needed=2 reached=1\n";
    is_answered_last(&rt, input.as_bytes(), last, ConnEnd::Closed)
}

#[test]
fn a_connection_has_a_thousand_requests(rt: HostRuntime) -> Result<(), Fail> {
    let mut input = String::new(rt.alloc());
    for _ in 0..1_001 {
        input.push_str("GET /nowhere HTTP/1.1\r\nHost: a\r\n\r\n")?;
    }
    let Talked { end, text } = talk(&rt, input.as_bytes())?;
    let one = "\
HTTP/1.1 404 Not Found\r
Content-Type: text/plain; charset=utf-8\r
Content-Length: 9\r
Connection: keep-alive\r
\r
no-route
";
    let last = "\
HTTP/1.1 404 Not Found\r
Content-Type: text/plain; charset=utf-8\r
Content-Length: 9\r
Connection: close\r
\r
no-route
";
    assert_eq!(rt; text.len(), 999 * one.len() + last.len());
    assert!(rt; text.as_str().ends_with(last));
    assert_eq!(rt; end, ConnEnd::Enough);
    Ok(())
}
