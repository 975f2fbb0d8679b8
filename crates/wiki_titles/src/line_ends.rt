// Ends of lines: a carriage return, with or without a line feed, is a line feed.
ghost use Rattle.std.specs.Prelude.{◌≡◌, ◌++◌, length, IfOk, OnOk};
ghost use Rattle.std.specs.String.{string_bytes};
ghost use Rattle.wiki_model.specs.Titles.{with_line_feeds};
ghost use Rattle.wiki_titles.specs.Cleaning.{ended};

use std::alloc::{AllocError, Global};

// How long the text is once its lines end with line feeds.
pub(crate) fn length_with_line_feeds(bytes: &[u8]) -> usize
    ensures { result ≡ length (with_line_feeds bytes.now) }
{
    let mut length = 0;
    let mut previous = 0;
    for byte in bytes {
        if *byte != b'\n' || previous != b'\r' {
            length += 1;
        }
        previous = *byte;
    }
    length
}

// The text with line feeds at the ends of its lines; it has this many bytes.
pub(crate) fn with_line_feeds(
    alloc: Global,
    text: &str,
    length: usize,
) -> Result<String, AllocError>
    ensures { IfOk result (λ made. string_bytes made ≡ with_line_feeds text.now) }
{
    let mut made = String::with_capacity(alloc, length)?;
    let mut returned = false;
    for character in text.chars() {
        push_ended(&mut made, returned, character)?;
        returned = character == '\r';
    }
    Ok(made)
}

// A character after what there is; `returned` says that a carriage return stands right before it.
fn push_ended(made: &mut String, returned: bool, character: char) -> Result<(), AllocError>
    ensures { OnOk result (string_bytes made.new ≡ string_bytes made.old ++ ended returned character) }
{
    if character == '\r' {
        made.push('\n')
    } else if character == '\n' && returned {
        Ok(())
    } else {
        made.push(character)
    }
}
