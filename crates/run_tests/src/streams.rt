// Reads and writes that fail.
use crate::setting::{Given, drill_of, outcome_of, run_over};
use farm_base::{SureSink, SureSource};
use revision_keeper::{Keeper, MemKeeper};
use std::test::Fail;
use wiki_cli::Status;

// which read of `end` and its line feed fails, the status, and what is written
const READS: [(u64, Status, &str); 3] = [
    (1, Status::ReadFault, "read-fault\n"),
    (2, Status::ReadFault, "read-fault\n"),
    (3, Status::Ok, "end answers=0 entries=0\n"),
];

#[test]
fn a_failed_read_is_told(rt: HostRuntime) -> Result<(), Fail> {
    for (read, status, text) in READS {
        let reads = [read];
        let given = Given {
            reads: &reads,
            ..drill_of(b"end\n")
        };
        let found = outcome_of(&rt, rt.alloc(), given)?;
        assert_eq!(rt; found.text.as_str(), text);
        assert_eq!(rt; found.status, status);
    }
    Ok(())
}

#[test]
fn no_step_is_made_before_the_script_is_read(rt: HostRuntime) -> Result<(), Fail> {
    for input in [b"beat\nend\n".as_slice(), b"beat\nbeat\n".as_slice()] {
        let given = Given {
            reads: &[2],
            ..drill_of(input)
        };
        let mut found = outcome_of(&rt, rt.alloc(), given)?;
        assert_eq!(rt; found.status, Status::ReadFault);
        assert_eq!(rt; found.keeper.len()?, 0);
    }
    Ok(())
}

// the words, the input, which reads fail, and the status if the first write fails
const FIRST_WRITES: [(&[&str], &[u8], &[u64], Status); 5] = [
    (&["drill"], b"end\n", &[], Status::WriteFault),
    (&["stir", "7", "0"], b"", &[], Status::WriteFault),
    (&["drill"], b"at 5\n", &[], Status::Script { line: 1 }),
    (&["drill"], b"end\n", &[1], Status::ReadFault),
    (&["help"], b"end\n", &[1], Status::Usage),
];

#[test]
fn only_a_report_that_is_not_written_is_a_write_fault(rt: HostRuntime) -> Result<(), Fail> {
    for (words, input, reads, status) in FIRST_WRITES {
        let given = Given {
            words,
            input,
            reads,
            writes: &[1],
        };
        let found = outcome_of(&rt, rt.alloc(), given)?;
        assert_eq!(rt; found.text.as_str(), "");
        assert_eq!(rt; found.status, status);
    }
    Ok(())
}

const THREE_ENTRIES: &[u8] = b"\
edit 1 t1 A 0 one
apply home 0 1
view home 2 - 0 A
beat
edit 1 t2 A 1 two
end
";

const THREE_ENTRIES_REPORT: &str = "\
1 saved entry=1 revision=1 cookie=1@0
3 ok source=1 from=replica:0 lagged=0 bytes=55
<!DOCTYPE html>
<title>A</title>
<h1>A</h1>
<p>one</p>
5 saved entry=3 revision=2 cookie=2@0
end answers=3 entries=3
";

#[test]
fn a_write_that_fails_ends_the_report_and_not_the_steps(rt: HostRuntime) -> Result<(), Fail> {
    for write in [2, 3, 4, 5] {
        let writes = [write];
        let given = Given {
            writes: &writes,
            ..drill_of(THREE_ENTRIES)
        };
        let mut found = outcome_of(&rt, rt.alloc(), given)?;
        assert_eq!(rt; found.status, Status::WriteFault);
        assert!(rt; THREE_ENTRIES_REPORT.starts_with(found.text.as_str()));
        assert!(rt; 0 < found.text.len() && found.text.len() < THREE_ENTRIES_REPORT.len());
        assert_eq!(rt; found.keeper.len()?, 3);
    }
    Ok(())
}

#[test]
fn a_run_over_streams_that_never_fail_is_done(rt: HostRuntime) -> Result<(), Fail> {
    let alloc = rt.alloc();
    let source = SureSource::new(THREE_ENTRIES.to_vec(alloc)?);
    let sink = SureSink::new(alloc);
    let (status, sink, _) = run_over(&rt, alloc, &["drill"], source, sink, MemKeeper::new(alloc))?;
    assert_eq!(rt; status, Status::Ok);
    assert_eq!(rt; sink.bytes(), THREE_ENTRIES_REPORT.as_bytes());
    Ok(())
}
