// Who asks: a request's region, its client, and its cookie if it is live.
ghost use Rattle.std.specs.Prelude.{◌≡◌, option_map};
ghost use Rattle.std.specs.String.{string_bytes};
ghost use Rattle.wiki_titles.specs.ClientId.{client_after};
ghost use Rattle.http_desk.specs.AsModel.{request_shown, call_shown};
ghost use Rattle.sticky_routes.specs.AsModel.{cookie_of, cookies_of};
ghost use Rattle.farm_steps.specs.Moments.{moment_of, moments_at};
ghost use Rattle.wiki_serve.specs.Callers.{is_edit, region_of, live_cookie, client_of_cookie, view_by};
ghost use Rattle.wiki_model.specs.Cookies.{region_of_host};
ghost use Rattle.wiki_model.specs.Sessions.{if_live};
ghost use Rattle.std.specs.Prelude.{option_and_then};

use farm_base::{Moment, Readings, Region};
use farm_core::{Farm, Page, ViewAsk};
use farm_steps::{moment_of, moments_at};
use http_desk::{Call, Request};
use revision_keeper::Keeper;
use slot_cache::SlotCache;
use sticky_routes::{PosCookie, live, region_of_host, route};
use wiki_titles::{ClientId, Title};

/// A request that was read, with the client that it has if no live cookie names one.
#[derive(Debug, Drop)]
pub struct Visit {
    pub request: Request,
    /// The client of the other end's address and the agent.
    pub stranger: ClientId,
}

/// Who asks, and how: a view but for its word and its title.
#[derive(Debug, Drop)]
pub struct Caller {
    /// The region of the host that was asked.
    pub host: Region,
    pub client: ClientId,
    /// The request's cookie, if it is live.
    pub cookie: Option<PosCookie>,
    /// Whether the client stays with home, whatever the host.
    pub use_master: bool,
}

/// Who asks by a request, at this moment of its region. The stranger is the client if no live cookie names one.
pub(crate) fn caller_of(request: &Request, stranger: ClientId, now: Moment) -> Caller
    ensures host { result.host ≡ region_of_host (request_shown request.now).host }
    ensures cookie { option_map cookie_of result.cookie ≡ live_cookie now (request_shown request.now) }
    ensures client { result.client ≡ client_of_cookie (option_map cookie_of result.cookie) stranger }
    ensures use_master { result.use_master ≡ (request_shown request.now).cookies.use_master }
{
    let cookie = live_cookie(request, now);
    let client = client_of(&cookie, stranger);
    Caller {
        host: region_of_host(&request.host),
        client,
        cookie,
        use_master: request.cookies.use_master,
    }
}

/// The caller's view of this title, with this word.
pub(crate) fn view_by(caller: Caller, word: u64, title: Title) -> ViewAsk
    ensures { result ≡ view_by caller word title }
{
    ViewAsk {
        host: caller.host,
        client: caller.client,
        cookie: caller.cookie,
        use_master: caller.use_master,
        word,
        title,
    }
}

/// The moment of the request's region after these readings.
pub(crate) fn moment_for<K: Keeper>(
    farm: &Farm<K, SlotCache<Page>>,
    at: &Readings,
    request: &Request,
) -> Moment
    ensures { result ≡ moment_of (region_of (request_shown request.now)) (moments_at at.now farm.now.moments) }
{
    let now = Readings {
        home: farm.moment(Region::Home),
        west: farm.moment(Region::West),
    };
    moment_of(moments_at(*at, now), region_of(request))
}

fn region_of(request: &Request) -> Region
    ensures { result ≡ region_of (request_shown request.now) }
{
    route(is_edit(&request.call), &request.host, &request.cookies)
}

fn is_edit(call: &Call) -> bool
    ensures { result ≡ is_edit (call_shown call.now) }
{
    match call {
        Call::Edit { .. } => true,
        Call::Page(_) | Call::Batch(_) => false,
    }
}

/// The request's cookie, if it is live at this moment.
fn live_cookie(request: &Request, now: Moment) -> Option<PosCookie>
    ensures { option_map cookie_of result ≡ live_cookie now (request_shown request.now) }
{
    if_live(request.cookies.position, now)
}

fn if_live(cookie: Option<PosCookie>, now: Moment) -> Option<PosCookie>
    ensures { option_map cookie_of result ≡ option_and_then (if_live now) (option_map cookie_of cookie) }
{
    match cookie {
        Some(cookie) if live(&cookie, now) => Some(cookie),
        _ => None,
    }
}

/// The client of a cookie, or else this one.
fn client_of(cookie: &Option<PosCookie>, stranger: ClientId) -> ClientId
    ensures { result ≡ client_of_cookie (option_map cookie_of cookie.now) stranger }
{
    match cookie {
        Some(cookie) => cookie.client,
        None => stranger,
    }
}
