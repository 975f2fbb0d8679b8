// Bytes as texts and numbers.
ghost use Rattle.std.specs.Prelude.{◌≡◌, ◌≤◌, Some, None, if◌then◌else◌, IfOk, string_bytes};
ghost use Rattle.std.specs.Str.{is_utf8};
ghost use Rattle.wiki_model.specs.Cookies.{are_digits, number_in};

use farm_base::Memory;
use farm_base::bytes::{self, DIGITS_MAX};
use std::alloc::Global;
use std::str;

/// The number that 1 to `most` digits write; any other bytes are none.
pub(crate) fn number_in(text: &[u8], most: usize) -> Option<u64>
    requires { most ≤ DIGITS_MAX }
    ensures { result ≡ (if are_digits most text.now then Some (number_in text.now) else None) }
{
    if 0 < text.len() && text.len() <= most && bytes::are_digits(text) {
        Some(bytes::number_of(text))
    } else {
        None
    }
}

/// Whether the bytes are UTF-8.
#[tactic(auto, using(crate::proofs::Utf8::is_text, farm_base::proofs::Pieces::not_utf8))]
pub(crate) fn is_text(bytes: &[u8]) -> bool
    ensures { result ≡ is_utf8 bytes.now }
{
    match str::from_utf8(bytes) {
        Ok(_) => true,
        Err(_) => false,
    }
}

/// The text of bytes that were found to be UTF-8; of others the answer is out of memory.
pub(crate) fn owned(alloc: Global, bytes: &[u8]) -> Result<String, Memory>
    ensures { IfOk result (λ text. string_bytes text ≡ bytes.now) }
{
    match str::from_utf8(bytes) {
        Ok(text) => Ok(String::from_str(alloc, text)?),
        Err(_) => Err(Memory),
    }
}
