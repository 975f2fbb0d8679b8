// Text between tags.
ghost use Rattle.std.specs.Prelude.{◌≡◌, ◌≤◌, ◌<◌, ◌++◌, ℕ, List, IfOk, length, drop};
ghost use Rattle.wiki_model.specs.Html.{escaped, escaped_byte};

use std::alloc::AllocError;

/// Writes a byte of a text; one that a tag or an entity could begin with, or that could end an attribute, as its
/// entity.
pub fn write_byte(out: &mut Vec<u8>, byte: u8) -> Result<(), AllocError>
    ensures { IfOk result (λ _. out.new.items ≡ out.old.items ++ escaped_byte byte) }
{
    if byte == b'&' {
        out.extend_from_slice(b"&amp;")
    } else if byte == b'<' {
        out.extend_from_slice(b"&lt;")
    } else if byte == b'>' {
        out.extend_from_slice(b"&gt;")
    } else if byte == b'"' {
        out.extend_from_slice(b"&quot;")
    } else {
        out.push(byte)?;
        Ok(())
    }
}

/// Writes a text, byte by byte.
pub fn write_escaped(out: &mut Vec<u8>, text: &[u8]) -> Result<(), AllocError>
    ensures { IfOk result (λ _. out.new.items ≡ out.old.items ++ escaped text.now) }
{
    for byte in text {
        write_byte(out, *byte)?;
    }
    Ok(())
}
