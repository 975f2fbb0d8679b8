// A browser saves a page and reads it: what it sends, and what it gets.
use crate::setting::word_of;
use farm_base::SureSource;
use http_desk::{Call, Incoming, Request, read_request};
use http_reply::{Reply, Status, answer_bytes};
use std::alloc::Global;
use std::process::Abort;
use std::test::Fail;
use sticky_routes::{Cookies, PosCookie, no_edge_value, position_value, use_master_value};
use wiki_titles::ClientId;

const SAVING: &str = "\
POST /edit HTTP/1.1\r
Host: wiki.example\r
Content-Type: application/x-www-form-urlencoded\r
Content-Length: 45\r
Cookie: theme=dark; cpPosIndex=1%405%2300000000000000000000000000000001\r
\r
title=Caf%C3%A9_menu&base=0&token=k1&text=one";

const READING: &str = "\
GET /wiki/Caf%C3%A9_menu HTTP/1.1\r
Host: wiki.example\r
User-Agent: Browser/1.0\r
Accept: text/html\r
Accept-Language: en\r
Accept-Encoding: gzip\r
DNT: 1\r
Connection: keep-alive\r
Upgrade-Insecure-Requests: 1\r
Sec-Fetch-Dest: document\r
Sec-Fetch-Mode: navigate\r
Sec-Fetch-Site: same-origin\r
Referer: http://wiki.example/wiki/A\r
Pragma: no-cache\r
Cache-Control: no-cache\r
Cookie: theme=dark; cpPosIndex=1@5#00000000000000000000000000000001; UseDC=master\r
\r
";

const SAVED: &str = "\
HTTP/1.1 303 See Other\r
Content-Type: text/plain; charset=utf-8\r
Content-Length: 36\r
Location: /wiki/Caf%C3%A9_menu\r
Set-Cookie: cpPosIndex=1@5#00000000000000000000000000000001; Max-Age=10; Path=/\r
Set-Cookie: UseDC=master; Max-Age=10; Path=/\r
Set-Cookie: UseCDNCache=false; Max-Age=10; Path=/\r
Connection: keep-alive\r
\r
saved entry=2 revision=1 cookie=1@5
";

const PAGE: &str = "\
HTTP/1.1 200 OK\r
Content-Type: text/html; charset=utf-8\r
Content-Length: 73\r
Wiki-Source: 2\r
Wiki-From: replica:0\r
Wiki-Lagged: 0\r
Connection: keep-alive\r
\r
<!DOCTYPE html>
<title>Café menu</title>
<h1>Café menu</h1>
<p>one</p>
";

// The parts of a request that every call has, in a line.
fn line_of(alloc: Global, request: &Request) -> Result<String, Fail> {
    let mut line = String::new(alloc);
    push_request(alloc, &mut line, request)?;
    Ok(line)
}

fn push_request(alloc: Global, line: &mut String, request: &Request) -> Result<(), Fail> {
    line.push_str(request.host.as_str())?;
    line.push_str(" [")?;
    line.push_str(request.agent.as_str())?;
    line.push_str("]")?;
    push_cookies(alloc, line, request.cookies)?;
    if request.close {
        line.push_str(" close")?;
    }
    push_call(line, &request.call)
}

fn push_cookies(alloc: Global, line: &mut String, cookies: Cookies) -> Result<(), Fail> {
    push_position(alloc, line, cookies.position)?;
    if cookies.use_master {
        line.push_str(" home")?;
    }
    Ok(())
}

fn push_position(
    alloc: Global,
    line: &mut String,
    position: Option<PosCookie>,
) -> Result<(), Fail> {
    match position {
        Some(position) => {
            line.push_str(" position=")?;
            line.push_str(position.text(alloc)?.as_str())?;
            Ok(())
        }
        None => Ok(()),
    }
}

fn push_call(line: &mut String, call: &Call) -> Result<(), Fail> {
    match call {
        Call::Page(title) => {
            line.push_str(" page ")?;
            line.push_str(title.text())?;
        }
        Call::Edit {
            title,
            token,
            text,
            ..
        } => {
            line.push_str(" edit ")?;
            line.push_str(title.text())?;
            line.push_str(" ")?;
            line.push_str(token.text())?;
            line.push_str(" ")?;
            line.push_str(text.text())?;
        }
        Call::Batch(_) => line.push_str(" batch")?,
    }
    Ok(())
}

// What was read, in a line.
fn read_line(alloc: Global, incoming: &Incoming) -> Result<String, Fail> {
    match incoming {
        Incoming::Ready(request) => line_of(alloc, request),
        _ => Ok(String::from_str(alloc, word_of(incoming))?),
    }
}

#[test]
fn a_form_and_then_a_page_come_over_one_connection(rt: HostRuntime) -> Result<(), Fail> {
    let input = format!(in rt.alloc(); "{SAVING}{READING}")?;
    let mut source = SureSource::new(input.as_bytes().to_vec(rt.alloc())?);
    reads_form_and_page(&rt, rt.alloc(), &mut source)
}

fn reads_form_and_page(
    rt: &impl Abort,
    alloc: Global,
    source: &mut SureSource,
) -> Result<(), Fail> {
    let mut kept = Vec::new(alloc);
    let saving = next_line(alloc, source, &mut kept)?;
    assert_eq!(rt;
        saving.as_str(),
        "wiki.example [] position=1@5#00000000000000000000000000000001 edit Café menu k1 one"
    );
    let reading = next_line(alloc, source, &mut kept)?;
    assert_eq!(rt;
        reading.as_str(),
        "wiki.example [Browser/1.0] position=1@5#00000000000000000000000000000001 home page Café menu"
    );
    let end = next_line(alloc, source, &mut kept)?;
    assert_eq!(rt; end.as_str(), "closed");
    Ok(())
}

// What is read next, in a line.
fn next_line(alloc: Global, source: &mut SureSource, kept: &mut Vec<u8>) -> Result<String, Fail> {
    read_line(alloc, &read_request(alloc, source, kept))
}

// One more field of a response.
fn push_line(
    alloc: Global,
    lines: &mut Vec<(String, String)>,
    name: &str,
    value: &str,
) -> Result<(), Fail> {
    lines.push((
        String::from_str(alloc, name)?,
        String::from_str(alloc, value)?,
    ))?;
    Ok(())
}

#[test]
fn a_saved_edit_is_answered_with_its_cookies(rt: HostRuntime) -> Result<(), Fail> {
    let alloc = rt.alloc();
    let cookie = PosCookie {
        index: 1,
        seconds: 5,
        client: ClientId::number(1),
    };
    let position = position_value(alloc, &cookie)?;
    let reply = saved_reply(alloc, position.as_str())?;
    assert!(rt; answer_bytes(alloc, &reply)?.as_slice() == SAVED.as_bytes());
    Ok(())
}

// The response to the saved edit, with this position.
fn saved_reply(alloc: Global, position: &str) -> Result<Reply, Fail> {
    let body = b"saved entry=2 revision=1 cookie=1@5\n"
        .as_slice()
        .to_vec(alloc)?;
    let mut lines = Vec::new(alloc);
    push_saved(alloc, &mut lines, position)?;
    Ok(Reply {
        status: Status::SeeOther,
        html: false,
        body,
        lines,
        head: false,
        close: false,
    })
}

fn push_saved(
    alloc: Global,
    lines: &mut Vec<(String, String)>,
    position: &str,
) -> Result<(), Fail> {
    push_line(alloc, lines, "Location", "/wiki/Caf%C3%A9_menu")?;
    push_line(alloc, lines, "Set-Cookie", position)?;
    push_line(alloc, lines, "Set-Cookie", use_master_value())?;
    push_line(alloc, lines, "Set-Cookie", no_edge_value())
}

const HTML: &str = "\
<!DOCTYPE html>
<title>Café menu</title>
<h1>Café menu</h1>
<p>one</p>
";

// The response with this page.
fn page_reply(alloc: Global, head: bool) -> Result<Reply, Fail> {
    let body = HTML.as_bytes().to_vec(alloc)?;
    let mut lines = Vec::new(alloc);
    push_source(alloc, &mut lines)?;
    Ok(Reply {
        status: Status::Ok,
        html: true,
        body,
        lines,
        head,
        close: false,
    })
}

fn push_source(alloc: Global, lines: &mut Vec<(String, String)>) -> Result<(), Fail> {
    push_line(alloc, lines, "Wiki-Source", "2")?;
    push_line(alloc, lines, "Wiki-From", "replica:0")?;
    push_line(alloc, lines, "Wiki-Lagged", "0")
}

#[test]
fn a_page_is_answered_with_its_source(rt: HostRuntime) -> Result<(), Fail> {
    let alloc = rt.alloc();
    let reply = page_reply(alloc, false)?;
    assert!(rt; answer_bytes(alloc, &reply)?.as_slice() == PAGE.as_bytes());
    Ok(())
}

#[test]
fn a_head_is_answered_with_the_length_and_no_body(rt: HostRuntime) -> Result<(), Fail> {
    let alloc = rt.alloc();
    let reply = page_reply(alloc, true)?;
    let bytes = answer_bytes(alloc, &reply)?;
    assert!(rt; PAGE.as_bytes().starts_with(bytes.as_slice()));
    assert_eq!(rt; bytes.len() + HTML.len(), PAGE.len());
    Ok(())
}
