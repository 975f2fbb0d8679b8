// Which prefix a page is of: its template, its notice, its markup, and the replica that has applied it.
use crate::setting::assert_report;
use std::test::Fail;

#[test]
fn a_template_is_that_of_the_prefix(rt: HostRuntime) -> Result<(), Fail> {
    let script = "\
edit 1 t1 Template:X 0 hi\\nthere
edit 1 t2 A 0 {{x}}
apply home 0 1
view home 2 - 0 A
apply home 0 1
view home 2 - 0 A
end
";
    let report = "\
1 saved entry=1 revision=1 cookie=1@0
2 saved entry=2 revision=1 cookie=2@0
4 no-page source=1
6 ok source=2 from=replica:0 lagged=0 bytes=60
<!DOCTYPE html>
<title>A</title>
<h1>A</h1>
<p>hi there</p>
end answers=4 entries=2
";
    assert_report(&rt, rt.alloc(), script, report)
}

#[test]
fn a_notice_is_that_of_the_prefix(rt: HostRuntime) -> Result<(), Fail> {
    let script = "\
edit 1 t1 A 0 one
edit 1 t2 MediaWiki:Sitenotice 0 news
apply home 0 1
view home 2 - 0 A
apply home 0 1
view home 2 - 0 A
end
";
    let report = "\
1 saved entry=1 revision=1 cookie=1@0
2 saved entry=2 revision=1 cookie=2@0
4 ok source=1 from=replica:0 lagged=0 bytes=55
<!DOCTYPE html>
<title>A</title>
<h1>A</h1>
<p>one</p>
6 ok source=1 from=interim lagged=0 bytes=55
<!DOCTYPE html>
<title>A</title>
<h1>A</h1>
<p>one</p>
end answers=4 entries=2
";
    assert_report(&rt, rt.alloc(), script, report)
}

#[test]
fn a_page_of_the_older_markup_is_passed_over(rt: HostRuntime) -> Result<(), Fail> {
    let script = "\
edit 1 t1 Template:Y 0 yes
edit 1 t2 Template:X 0 a {{y}} b
edit 1 t3 A 0 {{x}}
at 30000 30000
beat
apply home 0 4
view home 2 - 0 A
markup 2
view home 2 - 0 A
view home 2 - 0 A
end
";
    let report = "\
1 saved entry=1 revision=1 cookie=1@0
2 saved entry=2 revision=1 cookie=2@0
3 saved entry=3 revision=1 cookie=3@0
7 ok source=4 from=replica:0 lagged=0 bytes=61
<!DOCTYPE html>
<title>A</title>
<h1>A</h1>
<p>a {{y}} b</p>
9 ok source=4 from=replica:0 lagged=0 bytes=59
<!DOCTYPE html>
<title>A</title>
<h1>A</h1>
<p>a yes b</p>
10 ok source=4 from=hit lagged=0 bytes=59
<!DOCTYPE html>
<title>A</title>
<h1>A</h1>
<p>a yes b</p>
end answers=6 entries=4
";
    assert_report(&rt, rt.alloc(), script, report)
}

#[test]
fn a_views_word_draws_its_replica(rt: HostRuntime) -> Result<(), Fail> {
    let script = "\
farm 3,1 1 0
edit 1 t1 A 0 one
apply home 1 1
view home 2 - 2 A
view home 2 - 3 A
end
";
    let report = "\
2 saved entry=1 revision=1 cookie=1@0
4 no-page source=0
5 ok source=1 from=replica:1 lagged=0 bytes=55
<!DOCTYPE html>
<title>A</title>
<h1>A</h1>
<p>one</p>
end answers=3 entries=1
";
    assert_report(&rt, rt.alloc(), script, report)
}

const LAGGING_REPLICA_SCRIPT: &str = "\
farm 3,1 1 4000000000000000
edit 1 t1 A 0 one
apply home 0 1
apply home 1 1
view home 2 - 2 A
view home 2 - 3 A
view home 2 - 4 A
at 6000 6000
view home 2 - 3 A
at 6001 6001
view home 2 - 3 A
beat
apply home 1 1
view home 2 - 2 A
at 12002 12002
view home 2 - 0 A
end
";

const LAGGING_REPLICA_REPORT: &str = "\
2 saved entry=1 revision=1 cookie=1@0
5 ok source=1 from=replica:0 lagged=0 bytes=55
<!DOCTYPE html>
<title>A</title>
<h1>A</h1>
<p>one</p>
6 ok source=1 from=replica:1 lagged=0 bytes=55
<!DOCTYPE html>
<title>A</title>
<h1>A</h1>
<p>one</p>
7 ok source=1 from=replica:0 lagged=0 bytes=55
<!DOCTYPE html>
<title>A</title>
<h1>A</h1>
<p>one</p>
9 ok source=1 from=replica:1 lagged=0 bytes=55
<!DOCTYPE html>
<title>A</title>
<h1>A</h1>
<p>one</p>
11 ok source=1 from=replica:0 lagged=1 bytes=55
<!DOCTYPE html>
<title>A</title>
<h1>A</h1>
<p>one</p>
14 ok source=2 from=replica:1 lagged=0 bytes=55
<!DOCTYPE html>
<title>A</title>
<h1>A</h1>
<p>one</p>
16 ok source=2 from=replica:1 lagged=1 bytes=55
<!DOCTYPE html>
<title>A</title>
<h1>A</h1>
<p>one</p>
end answers=8 entries=2
";

#[test]
fn a_replica_that_lags_is_passed_over_if_another_does_not(rt: HostRuntime) -> Result<(), Fail> {
    assert_report(
        &rt,
        rt.alloc(),
        LAGGING_REPLICA_SCRIPT,
        LAGGING_REPLICA_REPORT,
    )
}
