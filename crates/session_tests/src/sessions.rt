// Cookies and positions: what a session is shown, and how long it waits.
use crate::setting::assert_report;
use std::test::Fail;

#[test]
fn a_cached_page_is_passed_over_for_its_author(rt: HostRuntime) -> Result<(), Fail> {
    let script = "\
edit 1 t1 A 0 one
apply west 0 1
view west 2 - 0 A
edit 1 t2 A 1 two
carry 4
apply west 0 1
view west 2 - 0 A
view west 1 2@0 0 A
view west 2 - 0 A
end
";
    let report = "\
1 saved entry=1 revision=1 cookie=1@0
3 ok source=1 from=replica:0 lagged=0 bytes=55
<!DOCTYPE html>
<title>A</title>
<h1>A</h1>
<p>one</p>
4 saved entry=2 revision=2 cookie=2@0
7 ok source=1 from=hit lagged=0 bytes=55
<!DOCTYPE html>
<title>A</title>
<h1>A</h1>
<p>one</p>
8 ok source=2 from=replica:0 lagged=0 bytes=55
<!DOCTYPE html>
<title>A</title>
<h1>A</h1>
<p>two</p>
9 ok source=2 from=hit lagged=0 bytes=55
<!DOCTYPE html>
<title>A</title>
<h1>A</h1>
<p>two</p>
end answers=6 entries=2
";
    assert_report(&rt, rt.alloc(), script, report)
}

#[test]
fn how_long_a_cookie_and_a_position_count(rt: HostRuntime) -> Result<(), Fail> {
    let script = "\
edit 1 t1 A 0 one
at 10999 10999
view west 1 1@0 0 A
at 11000 11000
view west 1 1@0 0 A
at 59999 59999
view home 1 - 0 A
at 60000 60000
view home 1 - 0 A
end
";
    let report = "\
1 saved entry=1 revision=1 cookie=1@0
3 lag index needed=1 reached=0
5 no-page source=0
7 lag entry needed=1 reached=0
9 no-page source=0
end answers=5 entries=1
";
    assert_report(&rt, rt.alloc(), script, report)
}

#[test]
fn an_old_position_is_not_taken(rt: HostRuntime) -> Result<(), Fail> {
    let script = "\
edit 1 t1 A 0 one
at 70000 70000
edit 1 t2 A 1 two
carry 4
carry 2
view west 1 2@70 0 A
end
";
    let report = "\
1 saved entry=1 revision=1 cookie=1@0
3 saved entry=2 revision=2 cookie=2@70
6 lag entry needed=2 reached=0
end answers=3 entries=2
";
    assert_report(&rt, rt.alloc(), script, report)
}

#[test]
fn a_view_waits_for_its_session(rt: HostRuntime) -> Result<(), Fail> {
    let script = "\
edit 1 t1 A 0 one
open 1 view west 1 1@0 0 A
wait 1
at 4999 4999
wait 1
at 5000 5000
wait 1
view west 1 1@0+ 0 A
apply home 0 1
view west 1 1@0+ 0 A
end
";
    let report = "\
1 saved entry=1 revision=1 cookie=1@0
7 lag index needed=1 reached=0
8 lag entry needed=1 reached=0
10 ok source=1 from=replica:0 lagged=0 bytes=55
<!DOCTYPE html>
<title>A</title>
<h1>A</h1>
<p>one</p>
end answers=4 entries=1
";
    assert_report(&rt, rt.alloc(), script, report)
}
