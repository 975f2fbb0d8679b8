// Scripts and their first faulty line.
use drill_script::{ScriptFault, read_script};
use std::alloc::Global;
use std::test::Fail;

// The first faulty line; 0 if the bytes are a script.
fn faulty_line(alloc: Global, script: &[u8]) -> u64 {
    match read_script(alloc, script) {
        Ok(_) => 0,
        Err(ScriptFault::Line { line }) => line,
        Err(ScriptFault::Memory) => u64::MAX,
    }
}

const ENDS: [(&[u8], u64); 8] = [
    (b"end\n", 0),
    (b"", 1),
    (b"end", 1),
    (b"end\nbeat\n", 2),
    (b"end\n\n", 2),
    (b"end\r\n", 1),
    (b"\nend\n", 1),
    (b"beat\n", 2),
];

#[test]
fn a_script_ends_with_end_and_a_line_feed(rt: HostRuntime) -> Result<(), Fail> {
    for (script, line) in ENDS {
        assert_eq!(rt; faulty_line(rt.alloc(), script), line);
    }
    Ok(())
}

const PLACES: [(&[u8], u64); 12] = [
    (b"farm 1 1 0\nfarm 1 1 0\nend\n", 2),
    (b"beat\nfarm 1 1 0\nend\n", 2),
    (b"bounds 0 0 1\nend\n", 0),
    (b"farm 1 1 0\nbounds 0 0 1\nend\n", 0),
    (b"beat\nbounds 0 0 1\nend\n", 2),
    (b"bounds 0 0 1\nbounds 0 0 1\nend\n", 2),
    (b"apply home 0 1\nend\n", 0),
    (b"apply home 1 1\nend\n", 1),
    (b"farm 1,1 1 0\napply home 1 1\nend\n", 0),
    (b"farm 1,1 1 0\napply west 1 1\nend\n", 2),
    (b"open 2 edit 1 t A 0 \nopen 2 edit 1 u A 0 \nend\n", 2),
    (b"open 2 edit 1 t A 0 \nopen 1 edit 1 u A 0 \nend\n", 2),
];

#[test]
fn a_line_stands_where_it_may(rt: HostRuntime) -> Result<(), Fail> {
    for (script, line) in PLACES {
        assert_eq!(rt; faulty_line(rt.alloc(), script), line);
    }
    Ok(())
}

const WORDS: [(&[u8], u64); 14] = [
    (b"farm 1,1,1,1,1,1,1,1 1 0\nend\n", 0),
    (b"farm 1,1,1,1,1,1,1,1,1 1 0\nend\n", 1),
    (b"farm 1001 1 0\nend\n", 1),
    (b"farm 1, 1 0\nend\n", 1),
    (b"farm 1 1 4000000000000001\nend\n", 1),
    (b"bounds 60001 0 1\nend\n", 1),
    (b"bounds 0 0 0\nend\n", 1),
    (b"at 5\nend\n", 1),
    (b"at 05 5\nend\n", 1),
    (b"begin 0\nend\n", 1),
    (b"begin 4294967296\nend\n", 1),
    (b"carry 9223372036854775808\nend\n", 1),
    (b"markup 3\nend\n", 1),
    (b"beat \nend\n", 1),
];

#[test]
fn numbers_are_within_their_limits(rt: HostRuntime) -> Result<(), Fail> {
    for (script, line) in WORDS {
        assert_eq!(rt; faulty_line(rt.alloc(), script), line);
    }
    Ok(())
}

const REQUESTS: [(&[u8], u64); 12] = [
    (b"edit 1 t1 A 0 a\\nb\\\\\nend\n", 0),
    (b"edit 1 t1 A 0 \nend\n", 0),
    (b"edit 1 t1 A 0\nend\n", 1),
    (b"edit 1 t1 A 0 a\\tb\nend\n", 1),
    (b"edit 1 t.1 A 0 one\nend\n", 1),
    (b"edit 1 t1 a#b 0 one\nend\n", 1),
    (b"edit 1 t1 A 0 \xff\nend\n", 1),
    (b"view home 2 - 0 A B\nend\n", 1),
    (b"view home 2 1@5+ 0 A\nend\n", 0),
    (b"view home 2 0@5 0 A\nend\n", 1),
    (b"view home 2 -+ 0 A\nend\n", 1),
    (b"view east 2 - 0 A\nend\n", 1),
];

#[test]
fn requests_are_spelled_exactly(rt: HostRuntime) -> Result<(), Fail> {
    for (script, line) in REQUESTS {
        assert_eq!(rt; faulty_line(rt.alloc(), script), line);
    }
    Ok(())
}
