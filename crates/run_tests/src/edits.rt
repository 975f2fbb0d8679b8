// Edits and their answers, and the first views of their pages.
use crate::setting::assert_report;
use std::test::Fail;

#[test]
fn an_empty_script_has_no_answers(rt: HostRuntime) -> Result<(), Fail> {
    let script = "\
end
";
    let report = "\
end answers=0 entries=0
";
    assert_report(&rt, rt.alloc(), script, report)
}

#[test]
fn an_edit_is_shown_once_it_is_applied(rt: HostRuntime) -> Result<(), Fail> {
    let script = "\
edit 1 t1 A 0 one
view home 2 - 0 A
apply home 0 1
view home 2 - 0 A
end
";
    let report = "\
1 saved entry=1 revision=1 cookie=1@0
2 no-page source=0
4 ok source=1 from=replica:0 lagged=0 bytes=55
<!DOCTYPE html>
<title>A</title>
<h1>A</h1>
<p>one</p>
end answers=3 entries=1
";
    assert_report(&rt, rt.alloc(), script, report)
}

#[test]
fn a_token_is_used_once_and_an_old_base_is_a_conflict(rt: HostRuntime) -> Result<(), Fail> {
    let script = "\
edit 1 t1 A 0 one
edit 1 t1 A 0 one
edit 1 t1 A 0 two
edit 1 t2 A 0 two
at 5000 5000
edit 1 t1 A 0 one
end
";
    let report = "\
1 saved entry=1 revision=1 cookie=1@0
2 saved entry=1 revision=1 cookie=1@0
3 token entry=1
4 conflict base=0 current=1
6 saved entry=1 revision=1 cookie=1@0
end answers=5 entries=1
";
    assert_report(&rt, rt.alloc(), script, report)
}

#[test]
fn the_first_commit_of_two_edits_at_once_is_saved(rt: HostRuntime) -> Result<(), Fail> {
    let script = "\
open 1 edit 1 t1 A 0 one
open 2 edit 2 t1 A 0 two
begin 1
begin 2
commit 2
commit 1
begin 1
end
";
    let report = "\
5 saved entry=1 revision=1 cookie=1@0
6 conflict base=0 current=1
7 not-open id=1
end answers=3 entries=1
";
    assert_report(&rt, rt.alloc(), script, report)
}

#[test]
fn titles_are_cleaned(rt: HostRuntime) -> Result<(), Fail> {
    let script = "\
edit 1 t-1 __foo__bar_ 0 one
edit 1 t2 template:_x 0 tee
edit 1 t3 Foo_bar 1 {{x}}
apply home 0 3
view home 2 - 0 foo_bar
end
";
    let report = "\
1 saved entry=1 revision=1 cookie=1@0
2 saved entry=2 revision=1 cookie=2@0
3 saved entry=3 revision=2 cookie=3@0
5 ok source=3 from=replica:0 lagged=0 bytes=67
<!DOCTYPE html>
<title>Foo bar</title>
<h1>Foo bar</h1>
<p>tee</p>
end answers=4 entries=3
";
    assert_report(&rt, rt.alloc(), script, report)
}

#[test]
fn a_line_takes_the_greatest_numbers_and_an_empty_text(rt: HostRuntime) -> Result<(), Fail> {
    let script = "\
edit 9223372036854775807 t-_1 _café__\"a\"&b 0 
apply home 0 2
view home 2 - 9223372036854775807 Café_\"a\"&b
end
";
    let report = "\
1 saved entry=1 revision=1 cookie=1@0
3 ok source=1 from=replica:0 lagged=0 bytes=92
<!DOCTYPE html>
<title>Café &quot;a&quot;&amp;b</title>
<h1>Café &quot;a&quot;&amp;b</h1>
end answers=2 entries=1
";
    assert_report(&rt, rt.alloc(), script, report)
}
