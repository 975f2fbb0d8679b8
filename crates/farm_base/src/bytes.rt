//! Small work on bytes for whoever reads or writes them: classes of bytes, decimal numbers, the first place of a
//! byte, cutting there, and trimming. Each call is the definition that its contract names. But for [`decimal`] none
//! takes memory, and each goes over its bytes once.
ghost use Rattle.std.specs.Prelude.{◌≡◌, ◌≤◌, true, [], ◌∷◌, length, take, drop, reverse, option_map, decimal, IfOk};
ghost use Rattle.std.specs.List.{list_all};
ghost use Rattle.std.specs.Str.Parse.{digits_value};
ghost use Rattle.std.specs.String.{string_bytes};
ghost use Rattle.wiki_model.specs.Bytes.{cut_at, skip_spaces, trimmed};
ghost use Rattle.wiki_model.specs.Titles.{is_digit, is_letter};
ghost use Rattle.farm_base.specs.Bytes.{first_place};

use crate::Memory;
use std::alloc::Global;

/// How many digits [`number_of`] reads: as many as always fit.
pub const DIGITS_MAX: usize = 19; // digits

/// Whether the byte is one of `0` to `9`.
pub fn is_digit(byte: u8) -> bool
    ensures { result ≡ is_digit byte }
{
    b'0' <= byte && byte <= b'9'
}

/// Whether the byte is an ASCII letter.
pub fn is_letter(byte: u8) -> bool
    ensures { result ≡ is_letter byte }
{
    b'A' <= byte && byte <= b'Z' || b'a' <= byte && byte <= b'z'
}

/// Whether all of the bytes are digits; it is so if there is none.
pub fn are_digits(bytes: &[u8]) -> bool
    ensures { result ≡ list_all is_digit bytes.now }
{
    bytes.iter().all(|byte| is_digit(*byte))
}

/// The number that decimal digits write, and 0 for none.
pub fn number_of(digits: &[u8]) -> u64
    requires few { length digits.now ≤ DIGITS_MAX }
    requires digits { list_all is_digit digits.now ≡ true }
    ensures { result ≡ digits_value 10 digits.now }
{
    let mut number: u64 = 0;
    for (i, byte) in digits.iter().enumerate() {
        number = number * 10 + u64::from(*byte - b'0');
    }
    number
}

/// The number's decimal digits, without leading zeros.
pub fn decimal(alloc: Global, number: u64) -> Result<String, Memory>
    ensures { IfOk result (λ text. string_bytes text ≡ decimal number) }
{
    Ok(format!(in alloc; "{number}")?)
}

/// The first place at which the byte stands, or the length if it stands nowhere.
pub fn first_place(bytes: &[u8], byte: u8) -> usize
    ensures place { result ≡ first_place byte bytes.now }
    ensures within { result ≤ length bytes.now }
{
    for (i, other) in bytes.iter().enumerate() {
        if *other == byte {
            return i;
        }
    }
    bytes.len()
}

/// The bytes before the first place at which the byte stands, and those after it.
#[tactic(auto, using(crate::proofs::Places::cut_none, crate::proofs::Places::cut_some))]
pub fn cut_at(bytes: &[u8], byte: u8) -> Option<(&[u8], &[u8])>
    ensures { option_map (λ parts. (parts.0.now, parts.1.now)) result ≡ cut_at (byte ∷ []) bytes.now }
{
    let place = first_place(bytes, byte);
    if place == bytes.len() {
        return None;
    }
    let (before, rest) = bytes.split_at(place);
    let (_, after) = rest.split_at(1);
    Some((before, after))
}

/// The bytes without the spaces at both ends.
pub fn trimmed(bytes: &[u8]) -> &[u8]
    ensures { result.now ≡ trimmed bytes.now }
{
    let (_, rest) = bytes.split_at(leading_spaces(bytes));
    let (prefix, _) = rest.split_at(length_without_spaces(rest));
    prefix
}

// How many spaces stand at the start.
fn leading_spaces(bytes: &[u8]) -> usize
    ensures place { skip_spaces bytes.now ≡ drop result bytes.now }
    ensures within { result ≤ length bytes.now }
{
    for (i, byte) in bytes.iter().enumerate() {
        if *byte != b' ' {
            return i;
        }
    }
    bytes.len()
}

// How many bytes there are without the spaces at the end.
fn length_without_spaces(bytes: &[u8]) -> usize
    ensures place { reverse (skip_spaces (reverse bytes.now)) ≡ take result bytes.now }
    ensures within { result ≤ length bytes.now }
{
    let mut end = bytes.len();
    while 0 < end {
        if bytes[end - 1] != b' ' {
            return end;
        }
        end -= 1;
    }
    0
}
