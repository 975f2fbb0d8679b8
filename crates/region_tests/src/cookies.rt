// The cookies of a session, as they are read and written.
use farm_base::Moment;
use std::alloc::Global;
use std::test::Fail;
use sticky_routes::{CookieFault, PosCookie, live, position_value, read_cookies, write_cookies};
use wiki_titles::ClientId;

fn cookie(index: u64, seconds: u64) -> PosCookie {
    PosCookie {
        index,
        seconds,
        client: ClientId::number(1),
    }
}

const PLAIN: &str = "3@12#00000000000000000000000000000001";

const ESCAPED: [&str; 3] = [
    "3%4012%2300000000000000000000000000000001",
    "3@12%2300000000000000000000000000000001",
    "3%4012#00000000000000000000000000000001",
];

#[test]
fn a_position_cookie_is_its_text(rt: HostRuntime) -> Result<(), Fail> {
    assert_eq!(rt; PosCookie::parse(PLAIN), Ok(cookie(3, 12)));
    assert_eq!(rt; cookie(3, 12).text(rt.alloc())?.as_str(), PLAIN);
    Ok(())
}

#[test]
fn signs_of_a_position_cookie_may_be_escaped(rt: HostRuntime) {
    for text in ESCAPED {
        assert_eq!(rt; PosCookie::parse(text), Ok(cookie(3, 12)));
    }
}

#[test]
fn a_position_cookie_has_the_greatest_numbers(rt: HostRuntime) {
    let greatest = "9223372036854775807@0000000000000005#0123456789abcdef0123456789abcdef";
    assert!(rt; PosCookie::parse(greatest).is_ok());
}

const REFUSED: [(&str, CookieFault); 13] = [
    ("", CookieFault::Form),
    ("3@12", CookieFault::Form),
    ("3#12@1", CookieFault::Form),
    ("3@#00000000000000000000000000000001", CookieFault::Form),
    (
        "0@12345678901234567#00000000000000000000000000000001",
        CookieFault::Form,
    ),
    ("0@12#00000000000000000000000000000001", CookieFault::Index),
    ("03@12#00000000000000000000000000000001", CookieFault::Index),
    (
        "9223372036854775808@12#00000000000000000000000000000001",
        CookieFault::Index,
    ),
    (
        "%233@12#00000000000000000000000000000001",
        CookieFault::Index,
    ),
    ("0@12#XY", CookieFault::Index),
    ("3@12#XY", CookieFault::Client),
    (
        "3@12#0000000000000000000000000000000%40",
        CookieFault::Client,
    ),
    ("3@12#é", CookieFault::Client),
];

#[test]
fn a_faulty_position_cookie_is_refused_for_its_first_fault(rt: HostRuntime) {
    for (text, fault) in REFUSED {
        assert_eq!(rt; PosCookie::parse(text), Err(fault));
    }
}

// the field, and what is read of it: the position, `home` and `no edge` if they are asked for
const FIELDS: [(&str, &str); 12] = [
    ("", "-"),
    ("theme=dark", "-"),
    (
        "theme=dark; cpPosIndex=1%405%2300000000000000000000000000000001",
        "1@5#00000000000000000000000000000001",
    ),
    (
        "theme=dark; cpPosIndex=1@5#00000000000000000000000000000001; UseDC=master",
        "1@5#00000000000000000000000000000001 home",
    ),
    (" UseCDNCache=false ;UseDC=master", "- home no edge"),
    (
        "cpPosIndex=x; cpPosIndex=1@5#00000000000000000000000000000001",
        "-",
    ),
    (
        "cpPosIndex=1@5#00000000000000000000000000000001; cpPosIndex=x",
        "1@5#00000000000000000000000000000001",
    ),
    ("UseDC=Master; UseDC=master", "-"),
    ("UseDC; UseCDNCache; UseDC=master", "- home"),
    ("UseDC = master", "-"),
    ("usedc=master; UseDC=\"master\"", "-"),
    ("UseCDNCache=true; UseDC=master=", "-"),
];

fn printed(alloc: Global, field: &str) -> Result<String, Fail> {
    let cookies = read_cookies(field);
    let mut text = printed_position(alloc, cookies.position)?;
    if cookies.use_master {
        text.push_str(" home")?;
    }
    if cookies.no_edge {
        text.push_str(" no edge")?;
    }
    Ok(text)
}

fn printed_position(alloc: Global, position: Option<PosCookie>) -> Result<String, Fail> {
    match position {
        Some(position) => Ok(position.text(alloc)?),
        None => Ok(String::from_str(alloc, "-")?),
    }
}

#[test]
fn a_field_gives_the_first_cookie_of_each_name(rt: HostRuntime) -> Result<(), Fail> {
    for (field, wanted) in FIELDS {
        let found = printed(rt.alloc(), field)?;
        assert_eq!(rt; found.as_str(), wanted);
    }
    Ok(())
}

const WRITTEN: &str = "\
Set-Cookie: cpPosIndex=1@5#00000000000000000000000000000001; Max-Age=10; Path=/\r
Set-Cookie: UseDC=master; Max-Age=10; Path=/\r
Set-Cookie: UseCDNCache=false; Max-Age=10; Path=/\r
";

#[test]
fn the_value_of_the_position_stands_alone(rt: HostRuntime) -> Result<(), Fail> {
    let value = position_value(rt.alloc(), &cookie(1, 5))?;
    let wanted = "cpPosIndex=1@5#00000000000000000000000000000001; Max-Age=10; Path=/";
    assert_eq!(rt; value.as_str(), wanted);
    Ok(())
}

#[test]
fn the_cookies_of_an_answer_are_three_lines(rt: HostRuntime) -> Result<(), Fail> {
    let lines = write_cookies(rt.alloc(), &cookie(1, 5))?;
    assert_eq!(rt; lines.as_str(), WRITTEN);
    Ok(())
}

#[test]
fn a_position_cookie_lives_ten_seconds(rt: HostRuntime) {
    for (now, counts) in [(0, true), (15_999, true), (16_000, false)] {
        assert_eq!(rt; live(&cookie(1, 5), Moment(now)), counts);
    }
}
