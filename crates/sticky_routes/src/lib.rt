//! What sticks a session to its region: the cookies of a request and of an answer, and the region that a request goes
//! to.
//!
//! A session that has just committed may not be answered by a region that has not heard of it. So the answer to a
//! commit sets three cookies for ten seconds ([`write_cookies`]): the session's position, the stay with home, and the
//! way past the edge caches. (1) The browser sends them back with each request ([`read_cookies`]). (2) While the
//! session stays with home, all its requests go there ([`route`]). (3) Whatever region a request comes to, the position
//! names the commit that the region must know of before it answers. (4) A browser may send a cookie for too long, so a
//! position carries its own seconds, and counts no longer than they say ([`live`]). Whatever is sent, a faulty cookie
//! is as if it were not there.
//!
//! What a position means, and how long a view waits for it, is left to the farm; where positions are kept, to
//! `chronology_store`.
//!
//! `route(false, "west.example", &cookies)` answers `Region::West`, and `Region::Home` if `cookies` says `use_master`.
#![tactic(auto)]

mod cookies;
mod escapes;
mod pos_cookie;
mod region;
mod set_cookies;

pub use cookies::{Cookies, read_cookies};
pub use farm_base::{COOKIE_SECONDS, Memory, Moment, Region};
pub use pos_cookie::{CookieFault, PosCookie, live, reads_its_text};
pub use region::{region_of_host, route};
pub use set_cookies::{no_edge_value, position_value, use_master_value, write_cookies};
