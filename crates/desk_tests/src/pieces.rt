// Input that is cut off, that comes byte by byte, and whose reads fail.
use crate::setting::{slow_connection, word, word_of};
use http_desk::read_request;
use std::alloc::Global;
use std::test::Fail;

const SHORT: &str =
    "POST /edit HTTP/1.0\r\nContent-Length: 32\r\n\r\ntitle=A&base=0&token=k1&text=one";

#[test]
fn a_request_that_ends_early_is_cut(rt: HostRuntime) -> Result<(), Fail> {
    let bytes = SHORT.as_bytes();
    for length in 1..bytes.len() {
        let (prefix, _) = bytes.split_at(length);
        assert_eq!(rt; word(rt.alloc(), prefix)?, "cut");
    }
    assert_eq!(rt; word(rt.alloc(), bytes)?, "edit");
    Ok(())
}

// The words for the first and the second request over a connection that gives a byte in each read.
fn slow_words(alloc: Global, bytes: &[u8], failing: &[u64]) -> Result<String, Fail> {
    let mut conn = slow_connection(alloc, bytes, failing)?;
    let mut kept = Vec::new(alloc);
    let first = word_of(&read_request(alloc, &mut conn, &mut kept));
    let second = word_of(&read_request(alloc, &mut conn, &mut kept));
    Ok(format!(in alloc; "{first}, {second}")?)
}

#[test]
fn a_request_may_come_byte_by_byte(rt: HostRuntime) -> Result<(), Fail> {
    assert_eq!(rt;
        slow_words(rt.alloc(), SHORT.as_bytes(), &[])?.as_str(),
        "edit, closed"
    );
    Ok(())
}

#[test]
fn a_read_that_fails_loses_nothing(rt: HostRuntime) -> Result<(), Fail> {
    assert_eq!(rt;
        slow_words(rt.alloc(), SHORT.as_bytes(), &[40])?.as_str(),
        "read fault, edit"
    );
    Ok(())
}

#[test]
fn a_refusal_does_not_wait_for_its_body(rt: HostRuntime) -> Result<(), Fail> {
    let bytes = b"POST /edit HTTP/1.0\r\nContent-Length: 262145\r\n\r\n";
    assert_eq!(rt;
        slow_words(rt.alloc(), bytes, &[])?.as_str(),
        "large body, large body"
    );
    Ok(())
}
