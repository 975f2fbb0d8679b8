// The interleavings of docs/INTERLEAVINGS.md, and a script that gets every answer: the scripts of examples/.
use crate::setting::assert_report;
use std::test::Fail;

const LATE_COMMIT_SCRIPT: &str = "\
edit 1 t1 A 0 one
apply home 0 1
at 20000 20000
open 1 edit 1 t2 A 1 two
begin 1
at 23001 23001
commit 1
at 34000 34000
beat
apply home 0 2
view home 2 - 0 A
at 34001 34001
view home 2 - 0 A
view home 2 - 0 A
carry 5
end
";

const LATE_COMMIT_REPORT: &str = "\
1 saved entry=1 revision=1 cookie=1@0
7 saved entry=2 revision=2 cookie=2@23
11 ok source=3 from=replica:0 lagged=0 bytes=55
<!DOCTYPE html>
<title>A</title>
<h1>A</h1>
<p>two</p>
13 ok source=3 from=replica:0 lagged=0 bytes=55
<!DOCTYPE html>
<title>A</title>
<h1>A</h1>
<p>two</p>
14 ok source=3 from=hit lagged=0 bytes=55
<!DOCTYPE html>
<title>A</title>
<h1>A</h1>
<p>two</p>
end answers=5 entries=3
";

#[test]
fn a_late_commit_is_purged_again(rt: HostRuntime) -> Result<(), Fail> {
    assert_report(&rt, rt.alloc(), LATE_COMMIT_SCRIPT, LATE_COMMIT_REPORT)
}

const LATE_PURGE_SCRIPT: &str = "\
edit 1 t1 A 0 one
apply west 0 1
view west 2 - 0 A
at 20000 20000
edit 1 t2 A 1 two
apply west 0 1
at 27000 27000
view west 2 - 0 A
carry 3
view west 2 - 0 A
at 38000 38000
beat
apply west 0 1
view west 2 - 0 A
view west 2 - 0 A
at 47000 47000
carry 3
view west 2 - 0 A
end
";

const LATE_PURGE_REPORT: &str = "\
1 saved entry=1 revision=1 cookie=1@0
3 ok source=1 from=replica:0 lagged=0 bytes=55
<!DOCTYPE html>
<title>A</title>
<h1>A</h1>
<p>one</p>
5 saved entry=2 revision=2 cookie=2@20
8 ok source=1 from=hit lagged=0 bytes=55
<!DOCTYPE html>
<title>A</title>
<h1>A</h1>
<p>one</p>
10 ok source=2 from=replica:0 lagged=1 bytes=55
<!DOCTYPE html>
<title>A</title>
<h1>A</h1>
<p>two</p>
14 ok source=3 from=replica:0 lagged=0 bytes=55
<!DOCTYPE html>
<title>A</title>
<h1>A</h1>
<p>two</p>
15 ok source=3 from=hit lagged=0 bytes=55
<!DOCTYPE html>
<title>A</title>
<h1>A</h1>
<p>two</p>
18 ok source=3 from=replica:0 lagged=1 bytes=55
<!DOCTYPE html>
<title>A</title>
<h1>A</h1>
<p>two</p>
end answers=8 entries=3
";

#[test]
fn a_purge_late_and_repeated(rt: HostRuntime) -> Result<(), Fail> {
    assert_report(&rt, rt.alloc(), LATE_PURGE_SCRIPT, LATE_PURGE_REPORT)
}

const LOST_PURGE_SCRIPT: &str = "\
edit 1 t1 A 0 one
apply home 0 1
apply west 0 1
view west 2 - 0 A
at 20000 20000
edit 1 t2 A 1 two
drop 3
apply home 0 1
apply west 0 1
view west 2 - 0 A
view home 2 - 0 A
at 86399999 86399999
view west 2 - 0 A
at 86400000 86400000
view west 2 - 0 A
carry 3
end
";

const LOST_PURGE_REPORT: &str = "\
1 saved entry=1 revision=1 cookie=1@0
4 ok source=1 from=replica:0 lagged=0 bytes=55
<!DOCTYPE html>
<title>A</title>
<h1>A</h1>
<p>one</p>
6 saved entry=2 revision=2 cookie=2@20
10 ok source=1 from=hit lagged=0 bytes=55
<!DOCTYPE html>
<title>A</title>
<h1>A</h1>
<p>one</p>
11 ok source=2 from=replica:0 lagged=0 bytes=55
<!DOCTYPE html>
<title>A</title>
<h1>A</h1>
<p>two</p>
13 ok source=1 from=hit lagged=0 bytes=55
<!DOCTYPE html>
<title>A</title>
<h1>A</h1>
<p>one</p>
15 ok source=2 from=replica:0 lagged=1 bytes=55
<!DOCTYPE html>
<title>A</title>
<h1>A</h1>
<p>two</p>
16 gone message=3
end answers=8 entries=2
";

#[test]
fn a_purge_lost(rt: HostRuntime) -> Result<(), Fail> {
    assert_report(&rt, rt.alloc(), LOST_PURGE_SCRIPT, LOST_PURGE_REPORT)
}

#[test]
fn a_session_in_west(rt: HostRuntime) -> Result<(), Fail> {
    let script = "\
beat
apply west 0 1
edit 1 t1 A 0 one
view west 1 1@0 0 A
carry 2
view west 1 1@0 0 A
apply west 0 1
view west 1 1@0 0 A
end
";
    let report = "\
3 saved entry=2 revision=1 cookie=1@0
4 lag index needed=1 reached=0
6 lag entry needed=2 reached=1
8 ok source=2 from=replica:0 lagged=0 bytes=55
<!DOCTYPE html>
<title>A</title>
<h1>A</h1>
<p>one</p>
end answers=4 entries=2
";
    assert_report(&rt, rt.alloc(), script, report)
}

const EVERY_ANSWER_SCRIPT: &str = "\
view home 2 - 0 A
edit 1 t1 A 0 one
edit 1 t1 A 0 one
edit 1 t1 A 0 two
edit 2 t1 A 0 two
apply home 0 1
view home 2 - 0 A
view home 2 - 0 A
view west 1 1@0 0 A
carry 2
view west 1 1@0 0 A
drop 1
carry 1
carry 9
look 7
at 11000 11000
beat
apply home 0 1
open 1 view home 2 - 0 A
wait 1
look 1
snap 1
store 1
view home 2 - 0 A
end
";

const EVERY_ANSWER_REPORT: &str = "\
1 no-page source=0
2 saved entry=1 revision=1 cookie=1@0
3 saved entry=1 revision=1 cookie=1@0
4 token entry=1
5 conflict base=0 current=1
7 ok source=1 from=replica:0 lagged=0 bytes=55
<!DOCTYPE html>
<title>A</title>
<h1>A</h1>
<p>one</p>
8 ok source=1 from=interim lagged=0 bytes=55
<!DOCTYPE html>
<title>A</title>
<h1>A</h1>
<p>one</p>
9 lag index needed=1 reached=0
11 lag entry needed=1 reached=0
13 gone message=1
14 unknown message=9
15 not-open id=7
21 miss absent
23 ok source=2 from=replica:0 put=whole lagged=0 bytes=55
<!DOCTYPE html>
<title>A</title>
<h1>A</h1>
<p>one</p>
24 ok source=2 from=hit lagged=0 bytes=55
<!DOCTYPE html>
<title>A</title>
<h1>A</h1>
<p>one</p>
end answers=15 entries=2
";

#[test]
fn every_answer(rt: HostRuntime) -> Result<(), Fail> {
    assert_report(&rt, rt.alloc(), EVERY_ANSWER_SCRIPT, EVERY_ANSWER_REPORT)
}

#[test]
fn skew_inside_the_bounds(rt: HostRuntime) -> Result<(), Fail> {
    let script = "\
edit 1 t1 A 0 one
apply west 0 1
at 20000 19001
open 1 edit 1 t2 A 1 two
begin 1
carry 3
at 23000 22001
beat
apply west 0 1
commit 1
at 23999 23000
open 2 view west 2 - 0 A
wait 2
look 2
snap 2
at 30999 30000
store 2
end
";
    let report = "\
1 saved entry=1 revision=1 cookie=1@0
10 saved entry=3 revision=2 cookie=2@23
14 miss purged:30001
17 ok source=2 from=replica:0 put=interim lagged=0 bytes=55
<!DOCTYPE html>
<title>A</title>
<h1>A</h1>
<p>one</p>
end answers=4 entries=3
";
    assert_report(&rt, rt.alloc(), script, report)
}

#[test]
fn skew_outside_the_bounds(rt: HostRuntime) -> Result<(), Fail> {
    let script = "\
edit 1 t1 A 0 one
apply west 0 1
at 20000 19000
open 1 edit 1 t2 A 1 two
begin 1
carry 3
at 23000 22001
beat
apply west 0 1
commit 1
at 23999 23000
open 2 view west 2 - 0 A
wait 2
look 2
snap 2
at 30999 30000
store 2
end
";
    let report = "\
1 saved entry=1 revision=1 cookie=1@0
10 saved entry=3 revision=2 cookie=2@23
14 miss purged:30000
17 ok source=2 from=replica:0 put=whole lagged=0 bytes=55
<!DOCTYPE html>
<title>A</title>
<h1>A</h1>
<p>one</p>
end answers=4 entries=3
";
    assert_report(&rt, rt.alloc(), script, report)
}

#[test]
fn the_end_of_the_hold_off(rt: HostRuntime) -> Result<(), Fail> {
    let script = "\
edit 1 t1 A 0 one
apply home 0 1
at 10999 10999
beat
apply home 0 1
view home 2 - 0 A
at 11000 11000
view home 2 - 0 A
at 12000 12000
view home 2 - 0 A
end
";
    let report = "\
1 saved entry=1 revision=1 cookie=1@0
6 ok source=2 from=replica:0 lagged=0 bytes=55
<!DOCTYPE html>
<title>A</title>
<h1>A</h1>
<p>one</p>
8 ok source=2 from=replica:0 lagged=0 bytes=55
<!DOCTYPE html>
<title>A</title>
<h1>A</h1>
<p>one</p>
10 ok source=2 from=hit lagged=0 bytes=55
<!DOCTYPE html>
<title>A</title>
<h1>A</h1>
<p>one</p>
end answers=4 entries=2
";
    assert_report(&rt, rt.alloc(), script, report)
}

const RACE_SCRIPT: &str = "\
edit 1 t1 A 0 one
at 20900 20900
beat
apply home 0 2
at 21000 21000
open 1 view home 2 - 0 A
wait 1
look 1
snap 1
at 22000 22000
open 2 edit 1 t2 A 1 two
begin 2
at 22500 22500
commit 2
at 23000 23000
store 1
at 24999 24999
view home 2 - 0 A
at 25000 25000
view home 2 - 0 A
end
";

const RACE_REPORT: &str = "\
1 saved entry=1 revision=1 cookie=1@0
8 miss absent
14 saved entry=3 revision=2 cookie=2@22
16 ok source=2 from=replica:0 put=interim lagged=0 bytes=55
<!DOCTYPE html>
<title>A</title>
<h1>A</h1>
<p>one</p>
18 ok source=2 from=interim lagged=0 bytes=55
<!DOCTYPE html>
<title>A</title>
<h1>A</h1>
<p>one</p>
20 ok source=2 from=replica:0 lagged=0 bytes=55
<!DOCTYPE html>
<title>A</title>
<h1>A</h1>
<p>one</p>
end answers=6 entries=3
";

#[test]
fn the_race_that_the_hold_off_is_for(rt: HostRuntime) -> Result<(), Fail> {
    assert_report(&rt, rt.alloc(), RACE_SCRIPT, RACE_REPORT)
}

const OVERLAPPING_PURGES_SCRIPT: &str = "\
edit 1 t1 A 0 one
at 20000 20000
open 1 edit 1 t2 A 1 two
begin 1
at 23000 23000
beat
apply home 0 2
commit 1
open 2 view home 2 - 0 A
wait 2
look 2
snap 2
at 25000 25000
open 3 edit 3 u1 A 2 six
begin 3
at 25500 25500
commit 3
at 30000 30000
store 2
at 31500 31500
view home 2 - 0 A
end
";

const OVERLAPPING_PURGES_REPORT: &str = "\
1 saved entry=1 revision=1 cookie=1@0
8 saved entry=3 revision=2 cookie=2@23
11 miss purged:31000
17 saved entry=4 revision=3 cookie=1@25
19 ok source=2 from=replica:0 put=interim lagged=0 bytes=55
<!DOCTYPE html>
<title>A</title>
<h1>A</h1>
<p>one</p>
21 ok source=2 from=interim lagged=0 bytes=55
<!DOCTYPE html>
<title>A</title>
<h1>A</h1>
<p>one</p>
end answers=6 entries=4
";

#[test]
fn two_overlapping_purges(rt: HostRuntime) -> Result<(), Fail> {
    assert_report(
        &rt,
        rt.alloc(),
        OVERLAPPING_PURGES_SCRIPT,
        OVERLAPPING_PURGES_REPORT,
    )
}
