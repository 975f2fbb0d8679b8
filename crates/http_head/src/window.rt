// How much of an input is looked at for a head: the window.
ghost use Rattle.std.specs.Prelude.{◌≡◌, ◌≤◌, ◌<◌, ◌||◌, length, take, nat_le};
ghost use Rattle.http_head.specs.Window.{is_end, lines_of, has_lines, left_after, first_lines, has_first_lines};
ghost use Rattle.wiki_model.specs.Limits.{head_max};
ghost use Rattle.http_head.specs.Input.{window, is_full};

/// A head has at most this many bytes, with the empty lines before it and the one at its end.
pub const HEAD_MAX: usize = 16_384; // bytes

/// A head has at most this many fields.
pub const FIELDS_MAX: usize = 64; // fields

// The first line, those of one field too many, and none for the empty line: the field too many is the last line.
const LINES_MAX: usize = FIELDS_MAX + 2; // lines

/// How many bytes are looked at, and whether no byte after them would be.
#[derive(Clone, Copy, Debug, PartialEq, Eq)]
pub struct Extent {
    /// How many bytes are looked at.
    pub length: usize,
    /// Whether no byte after them would be.
    pub full: bool,
}

/// The part of the bytes that is looked at for a head. One pass over at most [`HEAD_MAX`] bytes; it takes no memory.
#[tactic(auto, using(crate::proofs::Windows::seen_is, crate::proofs::Windows::limit_within), unfolding(crate::specs::Input::window, crate::specs::Input::is_full))]
pub(crate) fn window(bytes: &[u8]) -> Extent
    ensures within { result.length ≤ length bytes.now }
    ensures bytes { take result.length bytes.now ≡ window bytes.now }
    ensures full { result.full ≡ is_full bytes.now }
{
    let seen = limited(bytes);
    let lines = first_lines(seen, LINES_MAX);
    Extent {
        length: lines.length,
        full: is_full(bytes.len(), lines.full),
    }
}

#[tactic(auto, using(crate::proofs::Windows::limit_take))]
fn limited(bytes: &[u8]) -> &[u8]
    ensures { result.now ≡ take head_max bytes.now }
{
    let (prefix, _) = bytes.split_at(bytes.len().min(HEAD_MAX));
    prefix
}

fn is_full(length: usize, full: bool) -> bool
    ensures { result ≡ (nat_le head_max length || full) }
{
    HEAD_MAX <= length || full
}

// The empty lines at the start, and after them `count` lines.
#[tactic(auto, using(crate::proofs::Windows::skipped_lines, crate::proofs::Windows::take_both))]
fn first_lines(bytes: &[u8], count: usize) -> Extent
    ensures within { result.length ≤ length bytes.now }
    ensures bytes { take result.length bytes.now ≡ first_lines count bytes.now }
    ensures full { result.full ≡ has_first_lines count bytes.now }
{
    for (i, byte) in bytes.iter().enumerate() {
        if !is_end(*byte) {
            let (_, rest) = bytes.split_at(i);
            let lines = lines_of(rest, count);
            return Extent {
                length: i + lines.length,
                full: lines.full,
            };
        }
    }
    Extent {
        length: bytes.len(),
        full: false,
    }
}

fn is_end(byte: u8) -> bool
    ensures { result ≡ is_end byte }
{
    byte == b'\r' || byte == b'\n'
}

// The first `count` lines, or all bytes.
#[tactic(auto, using(crate::proofs::Windows::passed_turn, crate::proofs::Windows::passed_none, crate::proofs::Windows::passed_all, crate::proofs::Windows::lines_wanting))]
fn lines_of(bytes: &[u8], count: usize) -> Extent
    ensures within { result.length ≤ length bytes.now }
    ensures bytes { take result.length bytes.now ≡ lines_of count bytes.now }
    ensures full { result.full ≡ has_lines count bytes.now }
{
    let mut left = count;
    for (i, byte) in bytes.iter().enumerate() {
        if left == 0 {
            return Extent {
                length: i,
                full: true,
            };
        }
        left = left_after(left, *byte);
    }
    if left == 0 {
        return Extent {
            length: bytes.len(),
            full: true,
        };
    }
    Extent {
        length: bytes.len(),
        full: false,
    }
}

// How many lines are to come after this byte.
fn left_after(left: usize, byte: u8) -> usize
    requires { 0 < left }
    ensures { result ≡ left_after left byte }
{
    if byte == b'\n' { left - 1 } else { left }
}
