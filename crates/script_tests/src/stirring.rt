// What the generator makes.
use drill_script::read_script;
use script_generator::stir;
use std::str;
use std::test::Fail;

// The rows of seed 93, from the rule of the draws in another language.
const EIGHT_STEPS: &str = "farm 3,1 2,1 0\n\
    at 1469 1398\n\
    apply home 1 50\n\
    at 1707 1988\n\
    edit 4 t2 D 0 v2\n\
    at 1877 1739\n\
    edit 2 t3 D 1 v3\n\
    at 2524 2689\n\
    edit 1 t4 H 0 v4\n\
    at 2621 2344\n\
    edit 1 t5 G 0 v5\n\
    at 4043 4256\n\
    carry 4\n\
    at 5211 4651\n\
    view home 3 - 99 F\n\
    at 6181 6484\n\
    view west 4 1@6 244 B\n\
    end\n";

#[test]
fn no_step_is_a_farm_and_an_end(rt: HostRuntime) -> Result<(), Fail> {
    let script = stir(rt.alloc(), 7, 0)?;
    assert_eq!(rt; str::from_utf8(&script)?, "farm 3,1 2,1 0\nend\n");
    Ok(())
}

#[test]
fn eight_steps_are_those_of_the_draws(rt: HostRuntime) -> Result<(), Fail> {
    let script = stir(rt.alloc(), 93, 8)?;
    assert_eq!(rt; str::from_utf8(&script)?, EIGHT_STEPS);
    Ok(())
}

#[test]
fn what_is_made_is_read(rt: HostRuntime) -> Result<(), Fail> {
    let text = stir(rt.alloc(), 11, 500)?;
    let script = read_script(rt.alloc(), &text)?;
    assert_eq!(rt; script.lines.as_slice().len(), 1_002);
    Ok(())
}
