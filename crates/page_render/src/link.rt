// A link: the title's path, and what is shown for it.
ghost use Rattle.std.specs.Prelude.{◌≡◌, ◌≤◌, ◌<◌, ◌++◌, ℕ, List, IfOk, length, drop, take};
ghost use Rattle.wiki_model.specs.Titles.{hex_digit, in_path, url_of};
ghost use Rattle.page_render.specs.Link.{is_plain, label_html, link_html, link_opening};

use crate::escape::write_escaped;
use std::alloc::AllocError;
use wiki_titles::Title;

/// Writes a link to the page of this title, which has this text between its brackets.
#[tactic(auto, using(crate::proofs::Labels::three_joined))]
pub fn write_link(out: &mut Vec<u8>, title: &Title, inner: &[u8]) -> Result<(), AllocError>
    ensures { IfOk result (λ _. out.new.items ≡ out.old.items ++ link_html title.now inner.now) }
{
    open_link(out, title)?;
    write_label(out, inner)?;
    out.extend_from_slice(b"</a>")
}

fn open_link(out: &mut Vec<u8>, title: &Title) -> Result<(), AllocError>
    ensures { IfOk result (λ _. out.new.items ≡ out.old.items ++ link_opening title.now) }
{
    out.extend_from_slice(b"<a href=\"/wiki/")?;
    write_url(out, title.text().as_bytes())?;
    out.extend_from_slice(b"\">")?;
    Ok(())
}

/// Writes a title as it stands in a path.
fn write_url(out: &mut Vec<u8>, title: &[u8]) -> Result<(), AllocError>
    ensures { IfOk result (λ _. out.new.items ≡ out.old.items ++ url_of title.now) }
{
    for byte in title {
        write_in_path(out, *byte)?;
    }
    Ok(())
}

/// Writes a byte of a title: a space as `_`, and one that may not stand in a path by its number.
fn write_in_path(out: &mut Vec<u8>, byte: u8) -> Result<(), AllocError>
    ensures { IfOk result (λ _. out.new.items ≡ out.old.items ++ in_path byte) }
{
    if byte == b' ' {
        out.push(b'_')?;
    } else if is_plain(byte) {
        out.push(byte)?;
    } else {
        out.extend_from_slice(&[b'%', hex_digit(byte / 16), hex_digit(byte % 16)])?;
    }
    Ok(())
}

/// Whether this byte stands in a path as it is.
fn is_plain(byte: u8) -> bool
    ensures { result ≡ is_plain byte }
{
    b'A' <= byte && byte <= b'Z'
        || b'a' <= byte && byte <= b'z'
        || b'0' <= byte && byte <= b'9'
        || b"-._~/:".contains(&byte)
}

fn hex_digit(digit: u8) -> u8
    requires { digit < 16 }
    ensures { result ≡ hex_digit digit }
{
    if digit < 10 { b'0' + digit } else { 55 + digit }
}

/// Writes what a link shows: what stands after its first bar, or else its target.
#[tactic(auto, using(crate::proofs::Labels::label_short, crate::proofs::Labels::label_long))]
fn write_label(out: &mut Vec<u8>, inner: &[u8]) -> Result<(), AllocError>
    ensures { IfOk result (λ _. out.new.items ≡ out.old.items ++ label_html inner.now) }
{
    let bar = page_markup::find_in(inner, b'|', 0);
    let (target, rest) = inner.split_at(bar);
    if rest.len() < 2 {
        write_escaped(out, target)
    } else {
        let (_, label) = rest.split_at(1);
        write_escaped(out, label)
    }
}
