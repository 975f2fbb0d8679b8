// Scripts that are read, and what their first lines say of the farm.
use drill_script::{
    LineFault, SCRIPT_MAX, SLOTS, ScriptLine, ScriptState, has_ended, read_line, read_script,
};
use farm_base::{Bounds, Region};
use region_state::Asked;
use std::test::Fail;

const EACH_FORM: &[u8] = b"farm 3,1 2 7\nbounds 1 2 3\nat 5 6\nbeat\napply west 0 1000000\n\
    edit 1 t1 A 0 one\nview home 2 - 0 A\nopen 1 edit 1 t2 A 1 \nopen 3 view west 2 1@5+ 9 A\n\
    begin 1\ncommit 1\nwait 3\nlook 3\nsnap 3\nstore 3\ncarry 1\ndrop 2\nmarkup 2\nend\n";

#[test]
fn each_form_is_read(rt: HostRuntime) -> Result<(), Fail> {
    let script = read_script(rt.alloc(), EACH_FORM)?;
    assert_eq!(rt; script.lines.as_slice().len(), 19);
    assert_eq!(rt; script.plan.home.weights.as_slice(), [3u16, 1].as_slice());
    assert_eq!(rt; script.plan.west.weights.as_slice(), [2u16].as_slice());
    assert_eq!(rt; script.plan.epoch.0, 7);
    assert_eq!(rt;
        script.plan.bounds,
        Bounds {
            commit_delay: 1,
            read_lag: 2,
            skew: 3
        }
    );
    assert_eq!(rt; script.plan.home.slots, SLOTS);
    Ok(())
}

#[test]
fn without_a_farm_line_each_region_has_one_replica(rt: HostRuntime) -> Result<(), Fail> {
    let script = read_script(rt.alloc(), b"end\n")?;
    assert_eq!(rt; script.plan.home.weights.as_slice(), [1u16].as_slice());
    assert_eq!(rt; script.plan.west.weights.as_slice(), [1u16].as_slice());
    assert_eq!(rt; script.plan.epoch.0, 0);
    assert_eq!(rt; script.plan.bounds, Bounds::DEFAULT);
    assert_eq!(rt; script.plan.workers, 1);
    assert_eq!(rt; script.plan.pace, 0);
    Ok(())
}

#[test]
fn an_apply_line_names_its_replica(rt: HostRuntime) -> Result<(), Fail> {
    let mut state = ScriptState::new();
    let line = read_line(rt.alloc(), &mut state, b"apply west 0 50")?;
    match line {
        ScriptLine::Apply {
            region,
            replica,
            count,
        } => assert_eq!(rt; (region, replica, count), (Region::West, 0, 50)),
        _ => return Err(Fail::new("another line")),
    }
    Ok(())
}

#[test]
fn a_cookie_may_have_a_plus(rt: HostRuntime) -> Result<(), Fail> {
    let mut state = ScriptState::new();
    let text = b"open 3 view west 2 1@5+ 9 a_b";
    let line = read_line(rt.alloc(), &mut state, text)?;
    match line {
        ScriptLine::Arrive {
            id,
            asked: Asked::View(view),
        } => {
            assert_eq!(rt; (id, view.word, view.use_master), (3, 9, true));
            assert_eq!(rt; view.title.text(), "A b");
        }
        _ => return Err(Fail::new("another line")),
    }
    Ok(())
}

#[test]
fn after_end_no_line_is_read(rt: HostRuntime) -> Result<(), Fail> {
    let mut state = ScriptState::new();
    let _end = read_line(rt.alloc(), &mut state, b"end")?;
    assert!(rt; has_ended(&state));
    match read_line(rt.alloc(), &mut state, b"beat") {
        Err(fault) => assert_eq!(rt; fault, LineFault::Form),
        Ok(_) => return Err(Fail::new("another line")),
    }
    assert_eq!(rt; SCRIPT_MAX, 1 << 24);
    Ok(())
}
