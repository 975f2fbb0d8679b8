// The next place of a mark.
ghost use Rattle.std.specs.Prelude.{◌≡◌, ◌≤◌, ◌<◌, ◌+◌, ◌∷◌, [], length, drop, IsTrue, false};
ghost use Rattle.wiki_model.specs.Bytes.{begins};
ghost use Rattle.page_markup.specs.Mark.{next_place, Remembers};

use farm_base::bytes::first_place;

/// The first place at or after `from` where the byte stands, or the end.
#[tactic(auto, using(crate::proofs::Singles::first_is_next))]
pub fn find_in(bytes: &[u8], byte: u8, from: usize) -> usize
    requires within { from ≤ length bytes.now }
    ensures place { result ≡ next_place (byte ∷ []) from bytes.now }
    ensures end { result ≤ length bytes.now }
{
    let (_, rest) = bytes.split_at(from);
    from + first_place(rest, byte)
}

/// The same in a text.
pub fn find_byte(text: &str, byte: u8, from: usize) -> usize
    requires within { from ≤ length text.now }
    ensures place { result ≡ next_place (byte ∷ []) from text.now }
    ensures end { result ≤ length text.now }
{
    find_in(text.as_bytes(), byte, from)
}

/// The first place at or after `from` where the mark stands, or the text's end; `known` is such a place of an earlier
/// question.
pub fn next_place(text: &str, mark: &[u8], known: usize, from: usize) -> usize
    requires within { from ≤ length text.now }
    requires remembered { Remembers mark.now text.now from known }
    ensures place { result ≡ next_place mark.now from text.now }
    ensures end { result ≤ length text.now }
    ensures remembers { Remembers mark.now text.now from result }
{
    if from <= known {
        known
    } else {
        find_from(text, mark, from)
    }
}

/// The same, by a look at each place.
#[tactic(auto, using(crate::proofs::Places::place_on, crate::proofs::Places::distance_here))]
pub fn find_from(text: &str, mark: &[u8], from: usize) -> usize
    requires within { from ≤ length text.now }
    ensures place { result ≡ next_place mark.now from text.now }
    ensures end { result ≤ length text.now }
{
    let mut at = from;
    while at < text.len() {
        if stands_at(text, mark, at) {
            return at;
        }
        at += 1;
    }
    at
}

/// Whether the mark stands at the place.
pub fn stands_at(text: &str, mark: &[u8], at: usize) -> bool
    requires { at ≤ length text.now }
    ensures value { result ≡ begins mark.now (drop at text.now) }
{
    let (_, rest) = text.as_bytes().split_at(at);
    if differs_at_once(rest, mark) {
        return false;
    }
    rest.starts_with(mark)
}

/// Whether the first bytes differ.
#[tactic(auto, using(crate::proofs::Singles::first_differs))]
fn differs_at_once(rest: &[u8], mark: &[u8]) -> bool
    ensures { IsTrue result → begins mark.now rest.now ≡ false }
{
    !rest.is_empty() && !mark.is_empty() && rest[0] != mark[0]
}
