// Scripts outside the grammar.
use crate::setting::{drill_of, outcome_of};
use std::alloc::Global;
use std::process::Abort;
use std::test::Fail;
use std::thread::Threads;
use wiki_cli::Status;

fn assert_refused<R: Abort + Threads + Sync>(
    rt: &R,
    alloc: Global,
    script: &[u8],
    line: u64,
) -> Result<(), Fail> {
    let found = outcome_of(rt, alloc, drill_of(script))?;
    let wanted = format!(in alloc; "script line={line}\n")?;
    assert_eq!(rt; found.text.as_str(), wanted.as_str());
    assert_eq!(rt; found.status, Status::Script { line });
    Ok(())
}

// a script that does not end as it must, and its first line outside the grammar
const ENDS: [(&[u8], u64); 10] = [
    (b"", 1),
    (b"end", 1),
    (b"end\nbeat\n", 2),
    (b"end\n\n", 2),
    (b"end\r\n", 1),
    (b"beat\nend\nat 1 1\n", 3),
    (b"edit 1 t1 A 0 one\n", 2),
    (b"edit 1 t1 A 0 one\r\nend\r\n", 2),
    (b"\nend\n", 1),
    (b"# the first page\nend\n", 1),
];

#[test]
fn a_script_ends_with_its_one_end(rt: HostRuntime) -> Result<(), Fail> {
    for (script, line) in ENDS {
        assert_refused(&rt, rt.alloc(), script, line)?;
    }
    Ok(())
}

const EDITS: [(&[u8], u64); 13] = [
    (b"edit 1 t1 A 0 C:\\temp\nend\n", 1),
    (b"edit 1 t1 A 0 a\\\nend\n", 1),
    (b"edit 1 t1 A 0 a\\\\\\\nend\n", 1),
    (b"edit 1 t1 A 0 \nedit 1 t2 B 0\nend\n", 2),
    (b"edit 1 t1 A one\nend\n", 1),
    (b"edit 1 t1 A 0 one\nedit 1 t2 A 01 two\nend\n", 2),
    (b"edit  1 t1 A 0 one\nend\n", 1),
    (b"edit 1 t.1 A 0 one\nend\n", 1),
    (b"edit 1 t1 _ 0 one\nend\n", 1),
    (b"edit 1 t1 a#b 0 one\nend\n", 1),
    (b"edit 1 t1 Main Page 0 one\nend\n", 1),
    (b"edit 9223372036854775808 t1 A 0 one\nend\n", 1),
    (b"edit 1 t1 A 0 \xff\nend\n", 1),
];

#[test]
fn an_edit_is_spelled_exactly(rt: HostRuntime) -> Result<(), Fail> {
    for (script, line) in EDITS {
        assert_refused(&rt, rt.alloc(), script, line)?;
    }
    Ok(())
}

const VIEWS: [(&[u8], u64); 9] = [
    (b"view home 2 - 0  A\nend\n", 1),
    (b"view home 2 - 0 Main Page\nend\n", 1),
    (b"view home 2 - 0 A\nview home 2 - 0 A \nend\n", 2),
    (b"view home 2 - 0 A\tB\nend\n", 1),
    (b"view home 2 0 A\nend\n", 1),
    (b"view home 1 0@12 0 A\nend\n", 1),
    (b"view home 1 3@ 0 A\nend\n", 1),
    (b"view home 1 -+ 0 A\nend\n", 1),
    (b"view east 2 - 0 A\nend\n", 1),
];

#[test]
fn a_view_is_spelled_exactly(rt: HostRuntime) -> Result<(), Fail> {
    for (script, line) in VIEWS {
        assert_refused(&rt, rt.alloc(), script, line)?;
    }
    Ok(())
}

const STEPS: [(&[u8], u64); 14] = [
    (b"at 5\n", 1),
    (b"at 1  1\nend\n", 1),
    (b"beat 1\nend\n", 1),
    (b"beat\nfarm 1 1 0\nend\n", 2),
    (b"farm 1 1 0\nbeat\nbounds 1 1 1\nend\n", 3),
    (b"bounds 1000 2000 0\n", 1),
    (b"beat\napply home 0 0\nend\n", 2),
    (b"beat\napply home 0 1000001\nend\n", 2),
    (b"apply home 0 1\napply home 1 1\nend\n", 2),
    (b"farm 1,1 1 0\napply home 1 1\napply west 1 1\nend\n", 3),
    (
        b"open 2 view home 1 - 0 A\nopen 2 view home 1 - 0 A\nend\n",
        2,
    ),
    (b"begin 0\nend\n", 1),
    (b"carry 9223372036854775808\nend\n", 1),
    (b"markup 3\nend\n", 1),
];

#[test]
fn a_step_is_spelled_exactly_and_stands_where_it_may(rt: HostRuntime) -> Result<(), Fail> {
    for (script, line) in STEPS {
        assert_refused(&rt, rt.alloc(), script, line)?;
    }
    Ok(())
}
