// What a cache keeps and what it shows, at the edges of each rule.
use crate::setting::assert_report;
use std::test::Fail;

#[test]
fn a_template_holds_pages_off_through_its_last_moment(rt: HostRuntime) -> Result<(), Fail> {
    let script = "\
edit 1 t1 A 0 one
at 2000 2000
edit 1 t2 Template:X 0 x
apply home 0 2
at 13000 13000
beat
apply home 0 1
view home 2 - 0 A
at 13001 13001
view home 2 - 0 A
view home 2 - 0 A
end
";
    let report = "\
1 saved entry=1 revision=1 cookie=1@0
3 saved entry=2 revision=1 cookie=2@2
8 ok source=3 from=replica:0 lagged=0 bytes=55
<!DOCTYPE html>
<title>A</title>
<h1>A</h1>
<p>one</p>
10 ok source=3 from=replica:0 lagged=0 bytes=55
<!DOCTYPE html>
<title>A</title>
<h1>A</h1>
<p>one</p>
11 ok source=3 from=hit lagged=0 bytes=55
<!DOCTYPE html>
<title>A</title>
<h1>A</h1>
<p>one</p>
end answers=5 entries=3
";
    assert_report(&rt, rt.alloc(), script, report)
}

const LAST_MOMENT_SCRIPT: &str = "\
edit 1 t1 A 0 one
at 2000 2000
edit 1 t2 Template:X 0 x
apply home 0 2
at 13000 13000
beat
apply home 0 1
open 1 view home 2 - 0 A
wait 1
look 1
snap 1
store 1
view home 2 - 0 A
at 13001 13001
open 2 view home 2 - 0 A
wait 2
look 2
snap 2
store 2
view home 2 - 0 A
end
";

const LAST_MOMENT_REPORT: &str = "\
1 saved entry=1 revision=1 cookie=1@0
3 saved entry=2 revision=1 cookie=2@2
10 miss checked:13000
12 ok source=3 from=replica:0 put=interim lagged=0 bytes=55
<!DOCTYPE html>
<title>A</title>
<h1>A</h1>
<p>one</p>
13 ok source=3 from=interim lagged=0 bytes=55
<!DOCTYPE html>
<title>A</title>
<h1>A</h1>
<p>one</p>
17 miss absent
19 ok source=3 from=replica:0 put=whole lagged=0 bytes=55
<!DOCTYPE html>
<title>A</title>
<h1>A</h1>
<p>one</p>
20 ok source=3 from=hit lagged=0 bytes=55
<!DOCTYPE html>
<title>A</title>
<h1>A</h1>
<p>one</p>
end answers=8 entries=3
";

#[test]
fn the_last_moment_of_a_template(rt: HostRuntime) -> Result<(), Fail> {
    assert_report(&rt, rt.alloc(), LAST_MOMENT_SCRIPT, LAST_MOMENT_REPORT)
}

#[test]
fn an_interim_page_is_not_older_than_a_purge(rt: HostRuntime) -> Result<(), Fail> {
    let script = "\
edit 1 t1 A 0 one
apply home 0 1
view home 2 - 0 A
edit 1 t2 A 1 two
view home 2 - 0 A
at 1 1
edit 1 t3 A 2 six
view home 2 - 0 A
end
";
    let report = "\
1 saved entry=1 revision=1 cookie=1@0
3 ok source=1 from=replica:0 lagged=0 bytes=55
<!DOCTYPE html>
<title>A</title>
<h1>A</h1>
<p>one</p>
4 saved entry=2 revision=2 cookie=2@0
5 ok source=1 from=interim lagged=0 bytes=55
<!DOCTYPE html>
<title>A</title>
<h1>A</h1>
<p>one</p>
7 saved entry=3 revision=3 cookie=3@0
8 ok source=1 from=replica:0 lagged=0 bytes=55
<!DOCTYPE html>
<title>A</title>
<h1>A</h1>
<p>one</p>
end answers=6 entries=3
";
    assert_report(&rt, rt.alloc(), script, report)
}

const INTERIM_PAGE_SCRIPT: &str = "\
edit 1 t1 A 0 {{x}}
edit 1 t2 Template:X 0 one
apply home 0 2
at 1000 1000
view home 2 - 0 A
view home 2 - 0 A
edit 1 t3 Template:X 1 two
view home 2 - 0 A
at 1001 1001
edit 1 t4 Template:X 2 six
view home 2 - 0 A
view home 2 - 0 A
end
";

const INTERIM_PAGE_REPORT: &str = "\
1 saved entry=1 revision=1 cookie=1@0
2 saved entry=2 revision=1 cookie=2@0
5 ok source=2 from=replica:0 lagged=0 bytes=55
<!DOCTYPE html>
<title>A</title>
<h1>A</h1>
<p>one</p>
6 ok source=2 from=interim lagged=0 bytes=55
<!DOCTYPE html>
<title>A</title>
<h1>A</h1>
<p>one</p>
7 saved entry=3 revision=2 cookie=3@1
8 ok source=2 from=interim lagged=0 bytes=55
<!DOCTYPE html>
<title>A</title>
<h1>A</h1>
<p>one</p>
10 saved entry=4 revision=3 cookie=4@1
11 ok source=2 from=replica:0 lagged=0 bytes=55
<!DOCTYPE html>
<title>A</title>
<h1>A</h1>
<p>one</p>
12 ok source=2 from=interim lagged=0 bytes=55
<!DOCTYPE html>
<title>A</title>
<h1>A</h1>
<p>one</p>
end answers=9 entries=4
";

#[test]
fn an_interim_page_is_not_older_than_a_template(rt: HostRuntime) -> Result<(), Fail> {
    assert_report(&rt, rt.alloc(), INTERIM_PAGE_SCRIPT, INTERIM_PAGE_REPORT)
}

#[test]
fn bounds_that_are_set(rt: HostRuntime) -> Result<(), Fail> {
    let script = "\
bounds 1000 2000 500
edit 1 t1 A 0 one
apply home 0 1
at 3499 3499
beat
apply home 0 1
view home 2 - 0 A
at 3500 3500
view home 2 - 0 A
view home 2 - 0 A
end
";
    let report = "\
2 saved entry=1 revision=1 cookie=1@0
7 ok source=2 from=replica:0 lagged=0 bytes=55
<!DOCTYPE html>
<title>A</title>
<h1>A</h1>
<p>one</p>
9 ok source=2 from=replica:0 lagged=0 bytes=55
<!DOCTYPE html>
<title>A</title>
<h1>A</h1>
<p>one</p>
10 ok source=2 from=hit lagged=0 bytes=55
<!DOCTYPE html>
<title>A</title>
<h1>A</h1>
<p>one</p>
end answers=4 entries=2
";
    assert_report(&rt, rt.alloc(), script, report)
}

const COMMIT_IN_TIME_SCRIPT: &str = "\
edit 1 t1 A 0 one
apply home 0 1
at 20000 20000
open 1 edit 1 t2 A 1 two
begin 1
at 23000 23000
commit 1
at 34000 34000
beat
apply home 0 2
view home 2 - 0 A
at 34001 34001
view home 2 - 0 A
view home 2 - 0 A
carry 5
end
";

const COMMIT_IN_TIME_REPORT: &str = "\
1 saved entry=1 revision=1 cookie=1@0
7 saved entry=2 revision=2 cookie=2@23
11 ok source=3 from=replica:0 lagged=0 bytes=55
<!DOCTYPE html>
<title>A</title>
<h1>A</h1>
<p>two</p>
13 ok source=3 from=hit lagged=0 bytes=55
<!DOCTYPE html>
<title>A</title>
<h1>A</h1>
<p>two</p>
14 ok source=3 from=hit lagged=0 bytes=55
<!DOCTYPE html>
<title>A</title>
<h1>A</h1>
<p>two</p>
15 unknown message=5
end answers=6 entries=3
";

#[test]
fn a_commit_in_time_is_purged_once(rt: HostRuntime) -> Result<(), Fail> {
    assert_report(
        &rt,
        rt.alloc(),
        COMMIT_IN_TIME_SCRIPT,
        COMMIT_IN_TIME_REPORT,
    )
}

#[test]
fn how_a_page_is_kept_at_the_read_lag(rt: HostRuntime) -> Result<(), Fail> {
    let script = "\
edit 1 t1 A 0 one
at 20000 20000
beat
apply home 0 2
at 27000 27000
open 1 view home 2 - 0 A
wait 1
look 1
snap 1
at 27001 27001
store 1
end
";
    let report = "\
1 saved entry=1 revision=1 cookie=1@0
8 miss absent
11 ok source=2 from=replica:0 put=no-medium lagged=1 bytes=55
<!DOCTYPE html>
<title>A</title>
<h1>A</h1>
<p>one</p>
end answers=3 entries=2
";
    assert_report(&rt, rt.alloc(), script, report)
}

const HOW_KEPT_SCRIPT: &str = "\
edit 1 t1 A 0 one
edit 1 t2 B 0 one
edit 1 t3 C 0 one
edit 1 t4 D 0 one
edit 1 t5 E 0 one
edit 1 t6 F 0 one
edit 1 t7 G 0 one
at 20000 20000
beat
apply home 0 8
open 1 view home 2 - 0 A
wait 1
look 1
snap 1
open 5 view home 2 - 0 E
wait 5
look 5
snap 5
open 7 edit 2 u7 G 1 two
begin 7
open 8 view home 2 - 0 G
wait 8
look 8
snap 8
store 8
at 24000 24000
open 9 view home 2 - 0 C
wait 9
look 9
snap 9
at 27000 27000
store 1
open 10 view home 2 - 0 B
wait 10
look 10
snap 10
store 10
at 27001 27001
store 9
store 5
open 11 view home 2 - 0 D
wait 11
look 11
snap 11
store 11
open 12 view home 2 - 0 F
wait 12
look 12
snap 12
at 34002 34002
store 12
end
";

const HOW_KEPT_REPORT: &str = "\
1 saved entry=1 revision=1 cookie=1@0
2 saved entry=2 revision=1 cookie=2@0
3 saved entry=3 revision=1 cookie=3@0
4 saved entry=4 revision=1 cookie=4@0
5 saved entry=5 revision=1 cookie=5@0
6 saved entry=6 revision=1 cookie=6@0
7 saved entry=7 revision=1 cookie=7@0
13 miss absent
17 miss absent
23 miss purged:31000
25 ok source=8 from=replica:0 put=no-pending lagged=0 bytes=55
<!DOCTYPE html>
<title>G</title>
<h1>G</h1>
<p>one</p>
29 miss absent
32 ok source=8 from=replica:0 put=whole lagged=0 bytes=55
<!DOCTYPE html>
<title>A</title>
<h1>A</h1>
<p>one</p>
35 miss absent
37 ok source=8 from=replica:0 put=whole lagged=1 bytes=55
<!DOCTYPE html>
<title>B</title>
<h1>B</h1>
<p>one</p>
39 ok source=8 from=replica:0 put=no-medium lagged=0 bytes=55
<!DOCTYPE html>
<title>C</title>
<h1>C</h1>
<p>one</p>
40 ok source=8 from=replica:0 put=no-old lagged=0 bytes=55
<!DOCTYPE html>
<title>E</title>
<h1>E</h1>
<p>one</p>
43 miss absent
45 ok source=8 from=replica:0 put=lagged lagged=1 bytes=55
<!DOCTYPE html>
<title>D</title>
<h1>D</h1>
<p>one</p>
48 miss absent
51 ok source=8 from=replica:0 put=no-old lagged=1 bytes=55
<!DOCTYPE html>
<title>F</title>
<h1>F</h1>
<p>one</p>
end answers=21 entries=8
";

#[test]
fn how_a_page_is_kept(rt: HostRuntime) -> Result<(), Fail> {
    assert_report(&rt, rt.alloc(), HOW_KEPT_SCRIPT, HOW_KEPT_REPORT)
}
