// The region that a request goes to.
ghost use Rattle.std.specs.Prelude.{◌≡◌, ◌≤◌, ◌==◌, ◌||◌, not, length, codes};
ghost use Rattle.std.specs.List.{prefix_len};
ghost use Rattle.std.specs.Str.{str_eq_ignore_ascii_case};
ghost use Rattle.wiki_model.specs.Cookies.{host_name, region_of_host, route};
ghost use Rattle.sticky_routes.specs.AsModel.{cookies_of};

use crate::cookies::Cookies;
use farm_base::Region;

fn host_name(host: &[u8]) -> &[u8]
    ensures { result.now ≡ host_name host.now }
{
    let (name, _) = host.split_at(host_length(host));
    name
}

fn host_length(host: &[u8]) -> usize
    ensures place { result ≡ prefix_len (λ c. not ((c == 46) || (c == 58))) host.now }
    ensures within { result ≤ length host.now }
{
    for (i, byte) in host.iter().enumerate() {
        if *byte == b'.' || *byte == b':' {
            return i;
        }
    }
    host.len()
}

/// The region of a host: west if the text before the first `.` or `:` is `west` in any ASCII case, and else home. It
/// takes no memory.
pub fn region_of_host(host: &str) -> Region
    ensures { result ≡ region_of_host host.now }
{
    if is_west(host_name(host.as_bytes())) {
        Region::West
    } else {
        Region::Home
    }
}

fn is_west(name: &[u8]) -> bool
    ensures { result ≡ str_eq_ignore_ascii_case name.now (codes "west") }
{
    name.eq_ignore_ascii_case(b"west")
}

/// The region that a request goes to: home for a POST and for a client that stays with home, and else the host's.
/// It takes no memory.
pub fn route(post: bool, host: &str, cookies: &Cookies) -> Region
    ensures { result ≡ route post host.now (cookies_of cookies.now) }
{
    if post || cookies.use_master {
        Region::Home
    } else {
        region_of_host(host)
    }
}
