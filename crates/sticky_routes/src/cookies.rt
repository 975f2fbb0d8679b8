// What the field `Cookie` of a request says.
ghost use Rattle.std.specs.Prelude.{◌≡◌, option_map};
ghost use Rattle.wiki_model.specs.Cookies.{name_and_value, first_named, is_value, if_good, position_in, cookies_in};
ghost use Rattle.sticky_routes.specs.Cookies.{position_name, master_name, edge_name, value_of, pair_of, or_pair, or_piece, good_position};
ghost use Rattle.sticky_routes.specs.AsModel.{cookie_of, cookies_of};

use crate::pos_cookie::{PosCookie, cookie_in};
use farm_base::bytes;

/// What the cookies of a request say.
#[derive(Clone, Copy, Debug, PartialEq, Eq)]
pub struct Cookies {
    /// The client's position, if there is a cookie `cpPosIndex` and it is one.
    pub position: Option<PosCookie>,
    /// Whether the client stays with home: `UseDC` is `master`.
    pub use_master: bool,
    /// Whether the client passes by the edge caches: `UseCDNCache` is `false`.
    pub no_edge: bool,
}

/// The cookies of a field, whose pairs stand between semicolons with or without spaces. A name that comes twice
/// has its first value; a cookie that is faulty, or not ours, is as if it were not there. One pass; it takes no memory.
pub fn read_cookies(field: &str) -> Cookies
    ensures { cookies_of result ≡ cookies_in field.now }
{
    let values = values_in(field.as_bytes());
    Cookies {
        position: position(values.position),
        use_master: is_value(values.master, b"master"),
        no_edge: is_value(values.edge, b"false"),
    }
}

// The values of our cookies, of each name the first.
#[derive(Clone, Copy, Debug)]
struct Values<'a> {
    position: Option<&'a [u8]>,
    master: Option<&'a [u8]>,
    edge: Option<&'a [u8]>,
}

// The values of a field. One pass.
fn values_in(field: &[u8]) -> Values<'_>
    ensures position { value_of result.position ≡ first_named field.now position_name }
    ensures master { value_of result.master ≡ first_named field.now master_name }
    ensures edge { value_of result.edge ≡ first_named field.now edge_name }
{
    let mut values = Values {
        position: None,
        master: None,
        edge: None,
    };
    let mut at = 0;
    while at <= field.len() {
        let (_, rest) = field.split_at(at);
        let count = bytes::first_place(rest, b';');
        let (piece, _) = rest.split_at(count);
        values = with_piece(values, piece);
        at += count + 1;
    }
    values
}

// The values after one more piece of the field.
fn with_piece<'a>(old: Values<'a>, piece: &'a [u8]) -> Values<'a>
    ensures position { value_of result.position ≡ or_piece position_name old.entry.position piece.now }
    ensures master { value_of result.master ≡ or_piece master_name old.entry.master piece.now }
    ensures edge { value_of result.edge ≡ or_piece edge_name old.entry.edge piece.now }
{
    let pair = name_and_value(piece);
    Values {
        position: first_value(old.position, pair, b"cpPosIndex"),
        master: first_value(old.master, pair, b"UseDC"),
        edge: first_value(old.edge, pair, b"UseCDNCache"),
    }
}

fn name_and_value(piece: &[u8]) -> Option<(&[u8], &[u8])>
    ensures { pair_of result ≡ name_and_value piece.now }
{
    bytes::cut_at(bytes::trimmed(piece), b'=')
}

// The old value, or else that of the pair, if it has the name.
fn first_value<'a>(
    old: Option<&'a [u8]>,
    pair: Option<(&'a [u8], &'a [u8])>,
    name: &[u8],
) -> Option<&'a [u8]>
    ensures { value_of result ≡ or_pair name.now old.entry pair.entry }
{
    match (old, pair) {
        (Some(value), _) => Some(value),
        (None, Some((own, value))) if own == name => Some(value),
        (None, _) => None,
    }
}

fn position(value: Option<&[u8]>) -> Option<PosCookie>
    ensures { option_map cookie_of result ≡ good_position (value_of value.entry) }
{
    match value {
        Some(text) => good_cookie(text),
        None => None,
    }
}

fn good_cookie(text: &[u8]) -> Option<PosCookie>
    ensures { option_map cookie_of result ≡ if_good (position_in text.now) }
{
    match cookie_in(text) {
        Ok(cookie) => Some(cookie),
        Err(_) => None,
    }
}

fn is_value(value: Option<&[u8]>, wanted: &[u8]) -> bool
    ensures { result ≡ is_value wanted.now (value_of value.entry) }
{
    match value {
        Some(text) => text == wanted,
        None => false,
    }
}
