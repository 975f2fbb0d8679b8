// The cookie that carries a client's position: reading it, writing it, and whether it still counts.
ghost use Rattle.std.specs.Prelude.{◌≡◌, ◌<◌, ◌^◌, IfOk};
ghost use Rattle.std.specs.String.{string_bytes};
ghost use Rattle.wiki_model.specs.Cookies.{are_digits, is_index, cookie_of_parts, position_in, position_text, ReadsItsText};
ghost use Rattle.wiki_model.specs.Sessions.{is_live};
ghost use Rattle.wiki_titles.specs.ClientId.{client_of};
ghost use Rattle.sticky_routes.specs.AsModel.{cookie_of, reading_of};
ghost use Rattle.sticky_routes.specs.PosCookie.{joined};

use crate::escapes::cut_meant;
use farm_base::bytes::{DIGITS_MAX, are_digits, number_of};
use farm_base::{COOKIE_SECONDS, Memory, Moment};
use std::alloc::Global;
use std::{fmt, str};
use wiki_titles::ClientId;

// How many digits the seconds of a cookie have at most.
const SECONDS_DIGITS: usize = 16; // digits

/// The position of a client as its browser keeps it.
#[derive(Clone, Copy, Debug, PartialEq, Eq)]
pub struct PosCookie {
    /// The index of the client's last commit, counted from 1.
    pub index: u64,
    /// The moment of that commit in whole seconds.
    pub seconds: u64,
    /// The client.
    pub client: ClientId,
}

impl PosCookie {
    /// The cookie that the text is, or the first reason why it is none. The escapes `%40` and `%23` are read as `@`
    /// and `#`. It takes no memory.
    pub fn parse(text: &str) -> Result<PosCookie, CookieFault>
        ensures { reading_of result ≡ position_in text.now }
    {
        cookie_in(text.as_bytes())
    }

    /// The text of the cookie, without escapes.
    pub fn text(&self, alloc: Global) -> Result<String, Memory>
        ensures { IfOk result (λ text. string_bytes text ≡ position_text (cookie_of self.now)) }
    {
        let digits = self.client.digits();
        // The digits are ASCII, so they are a text.
        let Ok(client) = str::from_utf8(&digits) else {
            return Err(Memory);
        };
        joined(alloc, self.index, self.seconds, client)
    }
}

/// Whether the cookie still counts at a moment of its region. It takes no memory.
pub fn live(cookie: &PosCookie, now: Moment) -> bool
    ensures { result ≡ is_live now (cookie_of cookie.now) }
{
    (now.0 / 1_000).saturating_sub(COOKIE_SECONDS) <= cookie.seconds
}

/// The text of a cookie is read as that cookie, if its index is from 1 to 2^63 - 1 and its seconds have at most 16
/// digits.
pub fn reads_its_text()
    ensures { ReadsItsText }
{}

/// Why a text is no position cookie, in the order of the tests.
#[derive(Clone, Copy, Debug, PartialEq, Eq)]
pub enum CookieFault {
    /// It has not the three parts, or its seconds are not 1 to 16 digits.
    Form,
    /// Its index is not from 1 to 2^63 - 1, or has a leading zero.
    Index,
    /// Its client is not 32 digits of `0-9a-f`.
    Client,
}

impl fmt::Display for CookieFault {
    ghost use Rattle.std.specs.Prelude.{Some};
    ghost use Rattle.sticky_routes.specs.PosCookie.{fault_text};

    ghost output = { λ fault. Some (fault_text fault) };

    fn fmt<W: fmt::Write>(&self, f: &mut fmt::Formatter<W>) -> fmt::Result {
        match self {
            CookieFault::Form => f.write_str("the cookie is not INDEX@SECONDS#CLIENT"),
            CookieFault::Index => f.write_str("the cookie's index is no number of a commit"),
            CookieFault::Client => f.write_str("the cookie's client is not 32 digits of 0-9a-f"),
        }
    }
}

pub(crate) fn cookie_in(text: &[u8]) -> Result<PosCookie, CookieFault>
    ensures { reading_of result ≡ position_in text.now }
{
    let Some((index, rest)) = cut_meant(text, b'@') else {
        return Err(CookieFault::Form);
    };
    let Some((seconds, client)) = cut_meant(rest, b'#') else {
        return Err(CookieFault::Form);
    };
    cookie_of(index, seconds, client)
}

fn cookie_of(index: &[u8], seconds: &[u8], client: &[u8]) -> Result<PosCookie, CookieFault>
    ensures { reading_of result ≡ cookie_of_parts (Some (index.now, seconds.now, client.now)) }
{
    if !are_few_digits(seconds, SECONDS_DIGITS) {
        return Err(CookieFault::Form);
    }
    if !is_index(index) {
        return Err(CookieFault::Index);
    }
    let Some(client) = client_of(client) else {
        return Err(CookieFault::Client);
    };
    Ok(PosCookie {
        index: number_of(index),
        seconds: number_of(seconds),
        client,
    })
}

// One digit or more, and at most so many.
fn are_few_digits(text: &[u8], most: usize) -> bool
    ensures { result ≡ are_digits most text.now }
{
    0 < text.len() && text.len() <= most && are_digits(text)
}

fn is_index(text: &[u8]) -> bool
    ensures { result ≡ is_index text.now }
{
    are_few_digits(text, DIGITS_MAX) && text[0] != b'0' && number_of(text) < 1 << 63
}

#[tactic(auto, using(crate::proofs::Clients::no_client))]
fn client_of(text: &[u8]) -> Option<ClientId>
    ensures { result ≡ client_of text.now }
{
    match str::from_utf8(text) {
        Ok(text) => ClientId::parse(text),
        Err(_) => None,
    }
}

fn joined(alloc: Global, index: u64, seconds: u64, client: &str) -> Result<String, Memory>
    ensures { IfOk result (λ text. string_bytes text ≡ joined index seconds client.now) }
{
    Ok(format!(in alloc; "{index}@{seconds}#{client}")?)
}
