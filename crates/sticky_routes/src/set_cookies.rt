// The cookies that an answer to a commit sets: the value of each, and the lines of all.
ghost use Rattle.std.specs.Prelude.{◌≡◌, IfOk};
ghost use Rattle.std.specs.String.{string_bytes};
ghost use Rattle.wiki_model.specs.World.{Cookie};
ghost use Rattle.sticky_routes.specs.AsModel.{cookie_of};
ghost use Rattle.sticky_routes.specs.SetCookies.{value_at, cookie_lines, position_value, three_lines};

use crate::pos_cookie::PosCookie;
use farm_base::Memory;
use std::alloc::Global;

/// The value of the field `Set-Cookie` that keeps the client's position, for ten seconds.
pub fn position_value(alloc: Global, cookie: &PosCookie) -> Result<String, Memory>
    ensures { IfOk result (λ text. string_bytes text ≡ value_at 0 (cookie_of cookie.now)) }
{
    let position = cookie.text(alloc)?;
    value_of(alloc, position.as_str())
}

/// The value of the field `Set-Cookie` that lets the client stay with home, for ten seconds. It is the same for each
/// cookie.
pub fn use_master_value() -> &'static str
    ensures { (cookie : Cookie) → result.now ≡ value_at 1 cookie }
{
    "UseDC=master; Max-Age=10; Path=/"
}

/// The value of the field `Set-Cookie` that leads the client past the edge caches, for ten seconds. It is the same for
/// each cookie.
pub fn no_edge_value() -> &'static str
    ensures { (cookie : Cookie) → result.now ≡ value_at 2 cookie }
{
    "UseCDNCache=false; Max-Age=10; Path=/"
}

/// The three lines `Set-Cookie` of an answer to a commit, each ended by CR LF: the values above in their order.
pub fn write_cookies(alloc: Global, cookie: &PosCookie) -> Result<String, Memory>
    ensures { IfOk result (λ text. string_bytes text ≡ cookie_lines (cookie_of cookie.now)) }
{
    let position = position_value(alloc, cookie)?;
    lines(
        alloc,
        position.as_str(),
        use_master_value(),
        no_edge_value(),
    )
}

fn value_of(alloc: Global, position: &str) -> Result<String, Memory>
    ensures { IfOk result (λ text. string_bytes text ≡ position_value position.now) }
{
    Ok(format!(in alloc; "cpPosIndex={position}; Max-Age=10; Path=/")?)
}

fn lines(alloc: Global, first: &str, second: &str, third: &str) -> Result<String, Memory>
    ensures { IfOk result (λ text. string_bytes text ≡ three_lines first.now second.now third.now) }
{
    Ok(format!(in alloc; "Set-Cookie: {first}\r\nSet-Cookie: {second}\r\nSet-Cookie: {third}\r\n")?)
}
