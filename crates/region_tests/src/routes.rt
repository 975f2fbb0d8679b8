// Which region a request goes to.
use farm_base::Region;
use sticky_routes::{read_cookies, region_of_host, route};

const HOSTS: [(&str, Region); 7] = [
    ("west", Region::West),
    ("WeSt.wiki.example", Region::West),
    ("west:8080", Region::West),
    ("western.example", Region::Home),
    ("west-1.example", Region::Home),
    ("wiki.west", Region::Home),
    ("", Region::Home),
];

#[test]
fn a_host_names_its_region(rt: HostRuntime) {
    let plain = read_cookies("");
    for (host, region) in HOSTS {
        assert_eq!(rt; region_of_host(host), region);
        assert_eq!(rt; route(false, host, &plain), region);
    }
}

#[test]
fn an_edit_and_a_session_of_home_go_home(rt: HostRuntime) {
    let plain = read_cookies("");
    let master = read_cookies("UseDC=master");
    assert_eq!(rt; route(true, "west", &plain), Region::Home);
    assert_eq!(rt; route(false, "west", &master), Region::Home);
}
