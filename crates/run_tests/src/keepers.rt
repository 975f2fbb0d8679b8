// Keepers that fail, that are not empty, and that are given back.
use crate::failing_keeper::FailingKeeper;
use crate::setting::{Given, assert_report_on, drill_of, outcome_of, outcome_on, words_of};
use revision_keeper::{Keeper, MemKeeper};
use std::alloc::Global;
use std::process::Abort;
use std::test::Fail;
use std::thread::Threads;
use wiki_cli::Status;

#[test]
fn a_keeper_that_fails_to_start_is_told(rt: HostRuntime) -> Result<(), Fail> {
    let alloc = rt.alloc();
    let keeper = FailingKeeper::new(alloc, [1u64].to_vec(alloc)?, Vec::new(alloc));
    let found = outcome_on(&rt, alloc, keeper, drill_of(b"end\n"))?;
    assert_eq!(rt; found.text.as_str(), "store-fault\n");
    assert_eq!(rt; found.status, Status::StoreFault);
    Ok(())
}

// Which call of `len` fails, the status, and the report. The first is before all else, the next two open the farm, and
// the last counts the entries.
const LENGTHS: [(u64, Status, &str); 5] = [
    (1, Status::StoreFault, "store-fault\n"),
    (2, Status::StoreFault, "store-fault\n"),
    (3, Status::StoreFault, "store-fault\n"),
    (4, Status::StoreFault, "2 no-page source=0\nstore-fault\n"),
    (
        5,
        Status::Ok,
        "2 no-page source=0\nend answers=1 entries=1\n",
    ),
];

#[test]
fn a_keeper_that_fails_to_count_is_told(rt: HostRuntime) -> Result<(), Fail> {
    let alloc = rt.alloc();
    for (call, status, text) in LENGTHS {
        let keeper = FailingKeeper::new(alloc, Vec::new(alloc), [call].to_vec(alloc)?);
        let found = outcome_on(
            &rt,
            alloc,
            keeper,
            drill_of(b"beat\nview home 2 - 0 A\nend\n"),
        )?;
        assert_eq!(rt; found.text.as_str(), text);
        assert_eq!(rt; found.status, status);
    }
    Ok(())
}

#[test]
fn a_made_script_on_a_keeper_that_fails_writes_no_counts(rt: HostRuntime) -> Result<(), Fail> {
    let alloc = rt.alloc();
    for call in [1u64, 2, 3, 4] {
        let keeper = FailingKeeper::new(alloc, Vec::new(alloc), [call].to_vec(alloc)?);
        let found = outcome_on(&rt, alloc, keeper, words_of(&["stir", "7", "0"]))?;
        assert_eq!(rt; found.text.as_str(), "store-fault\n");
        assert_eq!(rt; found.status, Status::StoreFault);
    }
    Ok(())
}

// the words, the input, which reads fail, and what is written on a history of one entry
const ON_ONE_ENTRY: [(&[&str], &[u8], &[u64], &str, Status); 4] = [
    (
        &["drill"],
        b"end\n",
        &[],
        "not-empty entries=1\n",
        Status::NotEmpty { entries: 1 },
    ),
    (
        &["drill"],
        b"at 5\n",
        &[],
        "not-empty entries=1\n",
        Status::NotEmpty { entries: 1 },
    ),
    (
        &["drill"],
        b"end\n",
        &[1],
        "not-empty entries=1\n",
        Status::NotEmpty { entries: 1 },
    ),
    (
        &["stir", "7", "0"],
        b"",
        &[],
        "not-empty entries=1\n",
        Status::NotEmpty { entries: 1 },
    ),
];

#[test]
fn nothing_is_run_on_a_history_that_has_entries(rt: HostRuntime) -> Result<(), Fail> {
    for (words, input, reads, text, status) in ON_ONE_ENTRY {
        let given = Given {
            words,
            input,
            reads,
            writes: &[],
        };
        let keeper = outcome_of(&rt, rt.alloc(), drill_of(b"beat\nend\n"))?.keeper;
        is_not_run(&rt, rt.alloc(), keeper, given, text, status)?;
    }
    Ok(())
}

// The run writes this text, ends so, and leaves the one entry.
fn is_not_run<R: Abort + Threads + Sync, K: Keeper + Drop>(
    rt: &R,
    alloc: Global,
    keeper: K,
    given: Given<'_>,
    text: &str,
    status: Status,
) -> Result<(), Fail> {
    let mut found = outcome_on(rt, alloc, keeper, given)?;
    assert_eq!(rt; found.text.as_str(), text);
    assert_eq!(rt; found.status, status);
    assert_eq!(rt; found.keeper.len()?, 1);
    Ok(())
}

#[test]
fn a_failing_append_is_an_answer(rt: HostRuntime) -> Result<(), Fail> {
    let keeper = MemKeeper::failing(rt.alloc(), [1u64].to_vec(rt.alloc())?);
    let script = "\
edit 1 t1 A 0 one
edit 1 t1 A 0 one
carry 1
carry 4
look 9
end
";
    let report = "\
1 store
2 saved entry=1 revision=1 cookie=1@0
4 unknown message=4
5 not-open id=9
end answers=4 entries=1
";
    assert_report_on(&rt, rt.alloc(), keeper, script, report)
}

const THREE_APPENDS: &str = "\
edit 1 t1 A 0 one
edit 1 t2 A 1 two
beat
edit 2 t1 A 0 six
edit 1 t1 A 0 one
apply home 0 9
view home 2 - 0 A
end
";

// which append fails, and the report
const APPENDS: [(u64, &str); 4] = [
    (
        1,
        "\
1 store
2 conflict base=1 current=0
4 saved entry=2 revision=1 cookie=1@0
5 conflict base=0 current=1
7 ok source=2 from=replica:0 lagged=0 bytes=55
<!DOCTYPE html>
<title>A</title>
<h1>A</h1>
<p>six</p>
end answers=5 entries=2
",
    ),
    (
        2,
        "\
1 saved entry=1 revision=1 cookie=1@0
2 store
4 conflict base=0 current=1
5 saved entry=1 revision=1 cookie=1@0
7 ok source=2 from=replica:0 lagged=0 bytes=55
<!DOCTYPE html>
<title>A</title>
<h1>A</h1>
<p>one</p>
end answers=5 entries=2
",
    ),
    (
        3,
        "\
1 saved entry=1 revision=1 cookie=1@0
2 saved entry=2 revision=2 cookie=2@0
3 store
4 conflict base=0 current=2
5 saved entry=1 revision=1 cookie=1@0
7 ok source=2 from=replica:0 lagged=0 bytes=55
<!DOCTYPE html>
<title>A</title>
<h1>A</h1>
<p>two</p>
end answers=6 entries=2
",
    ),
    (
        4,
        "\
1 saved entry=1 revision=1 cookie=1@0
2 saved entry=2 revision=2 cookie=2@0
4 conflict base=0 current=2
5 saved entry=1 revision=1 cookie=1@0
7 ok source=3 from=replica:0 lagged=0 bytes=55
<!DOCTYPE html>
<title>A</title>
<h1>A</h1>
<p>two</p>
end answers=5 entries=3
",
    ),
];

#[test]
fn after_each_failing_append_the_answers_are_right(rt: HostRuntime) -> Result<(), Fail> {
    for (call, report) in APPENDS {
        let keeper = MemKeeper::failing(rt.alloc(), [call].to_vec(rt.alloc())?);
        assert_report_on(&rt, rt.alloc(), keeper, THREE_APPENDS, report)?;
    }
    Ok(())
}

#[test]
fn the_keeper_is_given_back_with_its_entries(rt: HostRuntime) -> Result<(), Fail> {
    let mut found = outcome_of(&rt, rt.alloc(), drill_of(THREE_APPENDS.as_bytes()))?;
    assert_eq!(rt; found.keeper.len()?, 3);
    let mut found = outcome_of(&rt, rt.alloc(), drill_of(b"beat\nat 5\nend\n"))?;
    assert_eq!(rt; found.keeper.len()?, 0);
    Ok(())
}
