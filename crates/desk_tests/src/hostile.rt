// Requests that are refused, each for its own fault, and the responses to them.
use crate::setting::{incoming, word};
use http_desk::Incoming;
use http_reply::{answer_bytes, refusal_reply};
use std::alloc::Global;
use std::test::Fail;

const HEADS: [(&str, &str); 20] = [
    ("", "closed"),
    ("\r\n", "cut"),
    ("GET / HTTP/1.1\r\nHost:", "cut"),
    ("GET\r\n\r\n", "no head"),
    (
        "GET / HTTP/1.1\r\nTransfer-Encoding: chunked\r\n\r\n",
        "transfer",
    ),
    ("GET / HTTP/1.1\r\n\r\n", "bad host"),
    ("GET / HTTP/1.1\r\nHost: a\r\nhost: a\r\n\r\n", "bad host"),
    ("GET / HTTP/1.0\r\nHost: a\r\nhost: a\r\n\r\n", "bad host"),
    ("GET / HTTP/1.0\r\nContent-Length: 1x\r\n\r\n", "bad length"),
    (
        "GET / HTTP/1.0\r\nContent-Length: 1\r\nContent-Length: 2\r\n\r\n",
        "bad length",
    ),
    (
        "GET / HTTP/1.0\r\nContent-Length: 262145\r\n\r\n",
        "large body",
    ),
    ("GET wiki HTTP/1.0\r\n\r\n", "bad target"),
    ("GET /nowhere HTTP/1.0\r\n\r\n", "no route"),
    ("GET /wiki/ HTTP/1.0\r\n\r\n", "no route"),
    ("GET /edit HTTP/1.0\r\n\r\n", "only post"),
    ("POST /wiki/A HTTP/1.0\r\n\r\n", "no post"),
    ("GET /wiki/%FF HTTP/1.0\r\n\r\n", "bad title"),
    ("GET /batch HTTP/1.0\r\n\r\n", "bad field"),
    ("GET /batch?titles=A| HTTP/1.0\r\n\r\n", "bad title"),
    ("HEAD /batch?titles=A|B HTTP/1.0\r\n\r\n", "batch"),
];

#[test]
fn a_head_is_refused_for_its_first_fault(rt: HostRuntime) -> Result<(), Fail> {
    for (bytes, wanted) in HEADS {
        assert_eq!(rt; word(rt.alloc(), bytes.as_bytes())?, wanted);
    }
    Ok(())
}

const FORMS: [(&str, &str); 6] = [
    ("title=A&base=0&token=k1&text=one", "edit"),
    ("title=A&base=0&token=k1", "bad field"),
    ("title=A&title=A&base=0&token=k1&text=one", "bad field"),
    ("title=A&title=&base=0&token=k1&text=one", "bad title"),
    (
        "title=A&base=9223372036854775808&token=k1&text=one",
        "bad field",
    ),
    ("title=A&base=0&token=k1&text=one&text=two", "bad field"),
];

// A request with this form.
fn posted(alloc: Global, form: &str) -> Result<String, Fail> {
    let length = form.len();
    Ok(format!(in alloc; "POST /edit HTTP/1.0\r\nContent-Length: {length}\r\n\r\n{form}")?)
}

#[test]
fn a_form_has_each_field_once(rt: HostRuntime) -> Result<(), Fail> {
    for (form, wanted) in FORMS {
        let bytes = posted(rt.alloc(), form)?;
        assert_eq!(rt; word(rt.alloc(), bytes.as_bytes())?, wanted);
    }
    Ok(())
}

// What is sent to a refused request.
fn answer_to(alloc: Global, bytes: &[u8]) -> Result<Vec<u8>, Fail> {
    match incoming(alloc, bytes)? {
        Incoming::Refused(refusal) => {
            let reply = refusal_reply(alloc, &refusal, refusal.close)?;
            Ok(answer_bytes(alloc, &reply)?)
        }
        _ => Ok(Vec::new(alloc)),
    }
}

const WRONG_METHOD: &str = "\
HTTP/1.1 405 Method Not Allowed\r
Content-Type: text/plain; charset=utf-8\r
Content-Length: 7\r
Allow: POST\r
Connection: keep-alive\r
\r
method
";

const LARGE_TEXT: &str = "\
HTTP/1.1 413 Content Too Large\r
Content-Type: text/plain; charset=utf-8\r
Content-Length: 18\r
Connection: close\r
\r
large bytes=65537
";

#[test]
fn a_refusal_is_a_line_of_text(rt: HostRuntime) -> Result<(), Fail> {
    let answer = answer_to(rt.alloc(), b"GET /edit HTTP/1.1\r\nHost: a\r\n\r\n")?;
    assert!(rt; answer.as_slice() == WRONG_METHOD.as_bytes());
    Ok(())
}

const NOWHERE: &str = "\
HTTP/1.1 404 Not Found\r
Content-Type: text/plain; charset=utf-8\r
Content-Length: 9\r
Connection: close\r
\r
";

#[test]
fn a_refused_head_gets_the_length_and_no_body(rt: HostRuntime) -> Result<(), Fail> {
    let answer = answer_to(rt.alloc(), b"HEAD /nowhere HTTP/1.0\r\n\r\n")?;
    assert!(rt; answer.as_slice() == NOWHERE.as_bytes());
    Ok(())
}

// A form whose text has `length` characters.
fn long_form(alloc: Global, length: usize) -> Result<String, Fail> {
    let text = "a".repeat(alloc, length)?;
    Ok(format!(in alloc; "title=A&base=0&token=k1&text={text}")?)
}

#[test]
fn a_text_has_as_many_bytes_as_a_page_may(rt: HostRuntime) -> Result<(), Fail> {
    let alloc = rt.alloc();
    let fits = posted(alloc, long_form(alloc, 65_536)?.as_str())?;
    assert_eq!(rt; word(alloc, fits.as_bytes())?, "edit");
    let long = posted(alloc, long_form(alloc, 65_537)?.as_str())?;
    assert!(rt; answer_to(alloc, long.as_bytes())?.as_slice() == LARGE_TEXT.as_bytes());
    Ok(())
}
