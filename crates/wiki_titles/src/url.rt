// Titles in paths.
ghost use Rattle.std.specs.Prelude.{◌≡◌, ◌<◌, ◌++◌, IsTrue, IfOk, OnOk};
ghost use Rattle.std.specs.String.{string_bytes};
ghost use Rattle.wiki_model.specs.Titles.{hex_digit, in_path, url_of};
ghost use Rattle.wiki_titles.specs.Title.{stays_in_path};

use farm_base::bytes::{is_digit, is_letter};
use std::alloc::{AllocError, Global};

pub(crate) fn url_of(alloc: Global, title: &str) -> Result<String, AllocError>
    ensures { IfOk result (λ url. string_bytes url ≡ url_of title.now) }
{
    let mut url = String::with_capacity(alloc, title.len())?;
    push_url(&mut url, title)?;
    Ok(url)
}

pub(crate) fn push_url(url: &mut String, title: &str) -> Result<(), AllocError>
    ensures { OnOk result (string_bytes url.new ≡ string_bytes url.old ++ url_of title.now) }
{
    let bytes = title.as_bytes();
    for byte in bytes {
        push_escaped(url, *byte)?;
    }
    Ok(())
}

fn push_escaped(url: &mut String, byte: u8) -> Result<(), AllocError>
    ensures { OnOk result (string_bytes url.new ≡ string_bytes url.old ++ in_path byte) }
{
    if byte == b' ' {
        url.push('_')
    } else if is_plain(byte) {
        url.push(char::from(byte))
    } else {
        url.push('%')?;
        url.push(hex_digit(byte / 16))?;
        url.push(hex_digit(byte % 16))
    }
}

// Whether this byte stands unescaped in a path.
fn is_plain(byte: u8) -> bool
    ensures value { result ≡ stays_in_path byte }
    ensures ascii { IsTrue result → byte < 128 }
{
    byte < 128 && (is_letter(byte) || is_digit(byte) || b"-._~/:".contains(&byte))
}

// The digit in upper case.
fn hex_digit(digit: u8) -> char
    requires { digit < 16 }
    ensures value { result ≡ hex_digit digit }
    ensures ascii { result < 128 }
{
    char::from(if digit < 10 {
        b'0' + digit
    } else {
        b'A' - 10 + digit
    })
}
