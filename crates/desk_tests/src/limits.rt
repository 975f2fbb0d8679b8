// How large a head may be.
use crate::setting::word;
use std::alloc::Global;
use std::test::Fail;

// A head with `count` fields.
fn with_fields(alloc: Global, count: usize) -> Result<String, Fail> {
    let fields = "a: b\r\n".repeat(alloc, count)?;
    Ok(format!(in alloc; "GET /wiki/A HTTP/1.0\r\n{fields}\r\n")?)
}

#[test]
fn a_head_has_64_fields_and_no_more(rt: HostRuntime) -> Result<(), Fail> {
    let alloc = rt.alloc();
    assert_eq!(rt; word(alloc, with_fields(alloc, 64)?.as_bytes())?, "page");
    assert_eq!(rt;
        word(alloc, with_fields(alloc, 65)?.as_bytes())?,
        "large head"
    );
    Ok(())
}

// A head of `length` bytes, 29 of them besides the value.
fn with_bytes(alloc: Global, length: usize) -> Result<String, Fail> {
    let value = "b".repeat(alloc, length.saturating_sub(29))?;
    Ok(format!(in alloc; "GET /wiki/A HTTP/1.0\r\na: {value}\r\n\r\n")?)
}

#[test]
fn a_head_has_16384_bytes_and_no_more(rt: HostRuntime) -> Result<(), Fail> {
    let alloc = rt.alloc();
    let fits = with_bytes(alloc, 16_384)?;
    assert_eq!(rt; fits.len(), 16_384);
    assert_eq!(rt; word(alloc, fits.as_bytes())?, "page");
    assert_eq!(rt;
        word(alloc, with_bytes(alloc, 16_385)?.as_bytes())?,
        "large head"
    );
    Ok(())
}

#[test]
fn a_batch_has_16_titles_and_no_more(rt: HostRuntime) -> Result<(), Fail> {
    let alloc = rt.alloc();
    let fifteen = "A|".repeat(alloc, 15)?;
    let sixteen = format!(in alloc; "GET /batch?titles={fifteen}A HTTP/1.0\r\n\r\n")?;
    assert_eq!(rt; word(alloc, sixteen.as_bytes())?, "batch");
    let more = format!(in alloc; "GET /batch?titles={fifteen}A|A HTTP/1.0\r\n\r\n")?;
    assert_eq!(rt; word(alloc, more.as_bytes())?, "bad field");
    Ok(())
}
