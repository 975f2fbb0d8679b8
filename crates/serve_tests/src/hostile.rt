// Input that is cut, refused or too large, and calls of a connection that fail.
use crate::setting::{Talked, conn_failing, serve_new, talk, written};
use farm_base::MemConn;
use std::alloc::Global;
use std::process::Abort;
use std::test::Fail;
use std::thread::Threads;
use wiki_serve::ConnEnd;

#[test]
fn input_that_ends_inside_a_head_is_cut(rt: HostRuntime) -> Result<(), Fail> {
    let Talked { end, text } = talk(&rt, b"GET / HTTP/1.1\r\nHost:")?;
    assert_eq!(rt; text.as_str(), "");
    assert_eq!(rt; end, ConnEnd::Cut);
    Ok(())
}

#[test]
fn a_refusal_of_the_head_closes_the_connection(rt: HostRuntime) -> Result<(), Fail> {
    let input = b"POST /edit HTTP/1.1\r\nHost: a\r\nTransfer-Encoding: chunked\r\n\r\nGET /wiki/A";
    let Talked { end, text } = talk(&rt, input)?;
    let wanted = "\
HTTP/1.1 501 Not Implemented\r
Content-Type: text/plain; charset=utf-8\r
Content-Length: 9\r
Connection: close\r
\r
transfer
";
    assert_eq!(rt; text.as_str(), wanted);
    assert_eq!(rt; end, ConnEnd::Ended);
    Ok(())
}

#[test]
fn a_wrong_method_and_a_wrong_path_let_it_go_on(rt: HostRuntime) -> Result<(), Fail> {
    let input = b"GET /edit HTTP/1.1\r\nHost: a\r\n\r\nGET /nowhere HTTP/1.1\r\nHost: a\r\n\r\n";
    let Talked { end, text } = talk(&rt, input)?;
    let wanted = "\
HTTP/1.1 405 Method Not Allowed\r
Content-Type: text/plain; charset=utf-8\r
Content-Length: 7\r
Allow: POST\r
Connection: keep-alive\r
\r
method
HTTP/1.1 404 Not Found\r
Content-Type: text/plain; charset=utf-8\r
Content-Length: 9\r
Connection: keep-alive\r
\r
no-route
";
    assert_eq!(rt; text.as_str(), wanted);
    assert_eq!(rt; end, ConnEnd::Closed);
    Ok(())
}

#[test]
fn a_text_at_its_limit_is_saved_and_one_more_is_not(rt: HostRuntime) -> Result<(), Fail> {
    let saved = posting(rt.alloc(), 65_536)?;
    is_answered_between(&rt, saved.as_bytes(), "HTTP/1.1 303 See Other\r\n", "\n")?;
    let refused = posting(rt.alloc(), 65_537)?;
    is_answered_between(
        &rt,
        refused.as_bytes(),
        "HTTP/1.1 413 Content Too Large\r\n",
        "\r\n\r\nlarge bytes=65537\n",
    )
}

// An edit whose text has so many bytes.
fn posting(alloc: Global, bytes: usize) -> Result<String, Fail> {
    let text = "a".repeat(alloc, bytes)?;
    let fields = "title=A&base=0&token=k&text=";
    let length = fields.len().saturating_add(bytes);
    Ok(format!(in alloc;
        "POST /edit HTTP/1.1\r\nHost: a\r\nContent-Length: {length}\r\n\r\n{fields}{text}"
    )?)
}

// The answer begins and ends so, and then the connection is closed.
fn is_answered_between<R: AllocGlobal + Threads + Sync + Abort>(
    rt: &R,
    input: &[u8],
    first: &str,
    last: &str,
) -> Result<(), Fail> {
    let Talked { end, text } = talk(rt, input)?;
    assert!(rt; text.as_str().starts_with(first));
    assert!(rt; text.as_str().ends_with(last));
    assert_eq!(rt; end, ConnEnd::Closed);
    Ok(())
}

#[test]
fn a_write_that_fails_ends_the_connection(rt: HostRuntime) -> Result<(), Fail> {
    let input = b"GET /wiki/A HTTP/1.1\r\nHost: a\r\n\r\n";
    let writes = [1u64].to_vec(rt.alloc())?;
    let mut conn = conn_failing(rt.alloc(), input, 65_536, Vec::new(rt.alloc()), writes)?;
    ends(&rt, rt.alloc(), &mut conn, "", ConnEnd::WriteFault)
}

// What is written over the connection ends so, and so does the connection.
fn ends<R: AllocGlobal + Threads + Sync + Abort>(
    rt: &R,
    alloc: Global,
    conn: &mut MemConn,
    last: &str,
    wanted: ConnEnd,
) -> Result<(), Fail> {
    let end = serve_new(rt, conn)?;
    assert_eq!(rt; end, wanted);
    let text = written(alloc, conn)?;
    assert!(rt; text.as_str().ends_with(last));
    assert_eq!(rt; text.as_str() == "", last == "");
    Ok(())
}

#[test]
fn a_read_that_fails_ends_the_connection(rt: HostRuntime) -> Result<(), Fail> {
    let input = b"GET /nowhere HTTP/1.1\r\nHost: a\r\n\r\n";
    let reads = [2u64].to_vec(rt.alloc())?;
    let mut conn = conn_failing(rt.alloc(), input, 65_536, reads, Vec::new(rt.alloc()))?;
    ends(&rt, rt.alloc(), &mut conn, "no-route\n", ConnEnd::ReadFault)
}
