// What the fields of a head say, over the spans where they lie in its bytes. Each reader passes over the spans by
// `next_value`.
ghost use Rattle.std.specs.Prelude.{◌≡◌, ◌≤◌, ◌<◌, ◌∷◌, ◌++◌, OnOk, ◌||◌, ◌==◌, [], Some, length, option_map, MatchOption, IfOk, codes, string_bytes};
ghost use Rattle.std.specs.List.{list_all};
ghost use Rattle.httparse.specs.Spans.{IsHeaderWithin, header_bytes};
ghost use Rattle.wiki_model.specs.Cookies.{cookies_in};
ghost use Rattle.http_desk.specs.Heads.{value_if, values, values_from, AreWithin, fields_of, has_field, are_text, are_texts, has_good_host, length_name, is_length, declared_length, length_fault, fault_in, closes, first_value, joined};
ghost use Rattle.http_desk.specs.AsModel.{fault_found};
ghost use Rattle.sticky_routes.specs.AsModel.{cookies_of};

use crate::texts::{is_text, number_in, owned};
use farm_base::Memory;
use http_reply::Fault;
use httparse::spans::HeaderSpan;
use std::alloc::Global;
use std::str;
use sticky_routes::{Cookies, read_cookies};

/// A body has at most this many bytes.
pub const BODY_MAX: u64 = 262_144; // bytes

/// A length is written with at most this many digits.
pub const LENGTH_DIGITS: usize = 15; // digits

/// The length of the body that a head declares, or the first refusal that the head alone gives.
pub(crate) fn body_length(buf: &[u8], fields: &[HeaderSpan], minor: u8) -> Result<u64, Fault>
    requires { AreWithin buf.now fields.now }
    ensures fault { fault_found result ≡ fault_in minor (fields_of buf.now fields.now) }
    ensures length { IfOk result
        (λ n. declared_length (values length_name (fields_of buf.now fields.now)) ≡ Some n) }
    ensures small { IfOk result (λ n. n ≤ BODY_MAX) }
{
    if has_field(buf, fields, b"transfer-encoding") {
        return Err(Fault::Transfer);
    }
    if !has_good_host(buf, fields, minor) {
        return Err(Fault::BadHost);
    }
    if !are_texts(buf, fields) {
        return Err(Fault::BadHost);
    }
    length_within(declared_length(buf, fields))
}

/// Whether the request asks to close the connection: it is of HTTP/1.0, or a `Connection` is `close`.
pub(crate) fn asks_to_close(buf: &[u8], fields: &[HeaderSpan], minor: u8) -> bool
    requires { AreWithin buf.now fields.now }
    ensures { result ≡ ((minor == 0) || closes (values (codes "connection") (fields_of buf.now fields.now))) }
{
    minor == 0 || closes(buf, fields)
}

/// The first value of the name as a text, or the empty text.
pub(crate) fn first_value(
    alloc: Global,
    buf: &[u8],
    fields: &[HeaderSpan],
    name: &[u8],
) -> Result<String, Memory>
    requires { AreWithin buf.now fields.now }
    ensures { IfOk result (λ text. string_bytes text ≡ first_value name.now (fields_of buf.now fields.now)) }
{
    owned(alloc, first_of(buf, fields, name))
}

/// What the cookies of the head say.
pub(crate) fn cookies_in(
    alloc: Global,
    buf: &[u8],
    fields: &[HeaderSpan],
) -> Result<Cookies, Memory>
    requires { AreWithin buf.now fields.now }
    ensures { IfOk result (λ c. cookies_of c
        ≡ cookies_in (joined (values (codes "cookie") (fields_of buf.now fields.now)))) }
{
    let field = joined(alloc, buf, fields)?;
    Ok(read_cookies(field.as_str()))
}

/// A value of a name, and the place after its field.
#[derive(Clone, Copy, Debug)]
pub struct FieldValue<'a> {
    /// The place from which its next value is looked for.
    pub next: usize,
    /// The bytes of the value.
    pub value: &'a [u8],
}

// The value of the field, if it has the name.
fn value_if<'a>(buf: &'a [u8], field: HeaderSpan, name: &[u8]) -> Option<&'a [u8]>
    requires { IsHeaderWithin (length buf.now) field }
    ensures { option_map (λ value. value.now) result ≡ value_if name.now (header_bytes buf.now field) }
{
    if field.name.of(buf).eq_ignore_ascii_case(name) {
        Some(field.value.of(buf))
    } else {
        None
    }
}

fn has_field(buf: &[u8], fields: &[HeaderSpan], name: &[u8]) -> bool
    requires { AreWithin buf.now fields.now }
    ensures { result ≡ has_field name.now (fields_of buf.now fields.now) }
{
    next_value(buf, fields, 0, name).is_some()
}

// The next value of the name, from this place on.
#[tactic(auto, using(crate::proofs::FieldValues::value_none, crate::proofs::FieldValues::value_some, crate::proofs::FieldValues::value_end))]
fn next_value<'a>(
    buf: &'a [u8],
    fields: &[HeaderSpan],
    from: usize,
    name: &[u8],
) -> Option<FieldValue<'a>>
    requires within { AreWithin buf.now fields.now }
    requires place { from ≤ length fields.now }
    ensures found { MatchOption result (values_from buf.now fields.now from name.now ≡ [])
        (λ v. values_from buf.now fields.now from name.now
        ≡ v.value.now ∷ values_from buf.now fields.now v.next name.now) }
    ensures next { MatchOption result (0 ≤ 0) (λ v. (from < v.next) × (v.next ≤ length fields.now)) }
{
    let mut at = from;
    while at < fields.len() {
        if let Some(value) = value_if(buf, fields[at], name) {
            return Some(FieldValue {
                next: at + 1,
                value,
            });
        }
        at += 1;
    }
    None
}

fn has_good_host(buf: &[u8], fields: &[HeaderSpan], minor: u8) -> bool
    requires { AreWithin buf.now fields.now }
    ensures { result ≡ has_good_host minor (fields_of buf.now fields.now) }
{
    count(buf, fields, b"host") <= 1 && (minor < 1 || has_field(buf, fields, b"host"))
}

// How many values the name has.
fn count(buf: &[u8], fields: &[HeaderSpan], name: &[u8]) -> usize
    requires { AreWithin buf.now fields.now }
    ensures { result ≡ length (values name.now (fields_of buf.now fields.now)) }
{
    let mut at = 0;
    let mut count = 0;
    while let Some(found) = next_value(buf, fields, at, name) {
        count += 1;
        at = found.next;
    }
    count
}

fn are_texts(buf: &[u8], fields: &[HeaderSpan]) -> bool
    requires { AreWithin buf.now fields.now }
    ensures { result ≡ are_texts (fields_of buf.now fields.now) }
{
    are_text(buf, fields, b"host")
        && are_text(buf, fields, b"cookie")
        && are_text(buf, fields, b"user-agent")
}

fn are_text(buf: &[u8], fields: &[HeaderSpan], name: &[u8]) -> bool
    requires { AreWithin buf.now fields.now }
    ensures { result ≡ are_text name.now (fields_of buf.now fields.now) }
{
    let mut at = 0;
    while let Some(found) = next_value(buf, fields, at, name) {
        if !is_text(found.value) {
            return false;
        }
        at = found.next;
    }
    true
}

// The number that all values of `Content-Length` write; 0 if there is none.
fn declared_length(buf: &[u8], fields: &[HeaderSpan]) -> Option<u64>
    requires { AreWithin buf.now fields.now }
    ensures { result ≡ declared_length (values length_name (fields_of buf.now fields.now)) }
{
    let Some(first) = next_value(buf, fields, 0, b"content-length") else {
        return Some(0);
    };
    let Some(number) = number_in(first.value, LENGTH_DIGITS) else {
        return None;
    };
    if are_length(buf, fields, number) {
        Some(number)
    } else {
        None
    }
}

fn are_length(buf: &[u8], fields: &[HeaderSpan], number: u64) -> bool
    requires { AreWithin buf.now fields.now }
    ensures { result ≡ list_all (is_length number) (values length_name (fields_of buf.now fields.now)) }
{
    let mut at = 0;
    while let Some(found) = next_value(buf, fields, at, b"content-length") {
        if !is_length(number, found.value) {
            return false;
        }
        at = found.next;
    }
    true
}

fn is_length(number: u64, value: &[u8]) -> bool
    ensures { result ≡ is_length number value.now }
{
    match number_in(value, LENGTH_DIGITS) {
        Some(own) => own == number,
        None => false,
    }
}

fn length_within(length: Option<u64>) -> Result<u64, Fault>
    ensures fault { fault_found result ≡ length_fault length }
    ensures length { IfOk result (λ n. length ≡ Some n) }
    ensures small { IfOk result (λ n. n ≤ BODY_MAX) }
{
    match length {
        None => Err(Fault::BadLength),
        Some(bytes) if BODY_MAX < bytes => Err(Fault::LargeBody { bytes }),
        Some(bytes) => Ok(bytes),
    }
}

fn closes(buf: &[u8], fields: &[HeaderSpan]) -> bool
    requires { AreWithin buf.now fields.now }
    ensures { result ≡ closes (values (codes "connection") (fields_of buf.now fields.now)) }
{
    let mut at = 0;
    while let Some(found) = next_value(buf, fields, at, b"connection") {
        if found.value.eq_ignore_ascii_case(b"close") {
            return true;
        }
        at = found.next;
    }
    false
}

// The first value of the name, or nothing.
fn first_of<'a>(buf: &'a [u8], fields: &[HeaderSpan], name: &[u8]) -> &'a [u8]
    requires { AreWithin buf.now fields.now }
    ensures { result.now ≡ first_value name.now (fields_of buf.now fields.now) }
{
    match next_value(buf, fields, 0, name) {
        Some(found) => found.value,
        None => &[],
    }
}

// The fields of cookies as one, with `; ` between them.
fn joined(alloc: Global, buf: &[u8], fields: &[HeaderSpan]) -> Result<String, Memory>
    requires { AreWithin buf.now fields.now }
    ensures { IfOk result (λ text. string_bytes text
        ≡ joined (values (codes "cookie") (fields_of buf.now fields.now))) }
{
    let Some(first) = next_value(buf, fields, 0, b"cookie") else {
        return Ok(String::new(alloc));
    };
    let mut text = owned(alloc, first.value)?;
    let mut at = first.next;
    while let Some(found) = next_value(buf, fields, at, b"cookie") {
        add_cookie(&mut text, found.value)?;
        at = found.next;
    }
    Ok(text)
}

fn add_cookie(text: &mut String, value: &[u8]) -> Result<(), Memory>
    ensures { OnOk result (string_bytes text.new ≡ string_bytes text.old ++ (codes "; " ++ value.now)) }
{
    // Heads with other values were refused before.
    let Ok(value) = str::from_utf8(value) else {
        return Err(Memory);
    };
    text.push_str("; ")?;
    text.push_str(value)?;
    Ok(())
}
