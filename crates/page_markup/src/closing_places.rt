// Where the marks of a text close, and what is known of the places of closing marks.
ghost use Rattle.std.specs.Prelude.{◌≡◌, ◌≤◌, ◌<◌, ◌+◌, length, IfSome};
ghost use Rattle.std.specs.Str.{IsCharBoundary};
ghost use Rattle.wiki_model.specs.Html.{enclosed, bracketed};
ghost use Rattle.page_markup.specs.ClosingPlaces.{between, cut_within};
ghost use Rattle.wiki_model.specs.Limits.{brackets_max};
ghost use Rattle.page_markup.specs.Mark.{Remembers, opening_of, closing_of};

use crate::brackets::Names;
use crate::find_mark;

/// The bytes that may stand between two brackets or braces: no title has more than 255, and a label fits beside it. A
/// longer text between them is no link and no template.
pub const BRACKET_MAX: usize = 512;

/// What is known of the closing marks of a text at one of its places: for each kind the next place where it stands, or
/// the text's length if it stands nowhere any more. A place that lies before the one at hand says nothing, and is
/// searched anew. So all calls for the places of a text, from left to right, look at each byte once for each kind.
#[derive(Clone, Copy, Debug)]
pub struct ClosingPlaces {
    /// Five quotes, after at least one byte.
    pub five: usize,
    /// Three quotes, after at least one byte.
    pub three: usize,
    /// Two quotes, after at least one byte.
    pub two: usize,
    /// `]]`.
    pub brackets: usize,
    /// `}}`.
    pub braces: usize,
}

impl ClosingPlaces {
    ghost use Rattle.std.specs.Prelude.{ℕ, List};
    ghost use Rattle.page_markup.specs.Mark.{IsKnown};

    /// Nothing is known at a text's first place.
    pub fn nothing() -> ClosingPlaces
        ensures { (text : List ℕ) → IsKnown text 0 result }
    {
        ClosingPlaces {
            five: 0,
            three: 0,
            two: 0,
            brackets: 0,
            braces: 0,
        }
    }
}

/// Where a mark closes that begins at a place, if it can be used there, and the next place of its closing mark.
#[derive(Clone, Copy, Debug)]
pub struct Closing {
    /// The place of the closing mark; none if the mark can't be used.
    pub close: Option<usize>,
    /// The next place of the closing mark, for the next call.
    pub known: usize,
}

/// The closing place of the quotes that begin at `at`, in the text that ends at `to`. `known` is the next place of such
/// quotes, as an earlier call gave it.
#[tactic(auto, using(crate::proofs::Closes::quotes_short, crate::proofs::Closes::quotes_absent, crate::proofs::Closes::quotes_open, crate::proofs::Closes::quotes_closed))]
pub fn quotes_within(text: &str, quotes: &[u8], at: usize, to: usize, known: usize) -> Closing
    requires order { at ≤ to }
    requires within { to ≤ length text.now }
    requires some { 0 < length quotes.now }
    requires few { length quotes.now < 6 }
    requires remembered { Remembers quotes.now text.now (at + (length quotes.now + 1)) known }
    ensures found { cut_within (length quotes.now) at to text.now result.close
        ≡ enclosed quotes.now (between at to text.now) }
    ensures after { IfSome result.close (λ close. at + length quotes.now < close) }
    ensures before { IfSome result.close (λ close. close + length quotes.now ≤ to) }
    ensures remembers { Remembers quotes.now text.now (at + (length quotes.now + 1)) result.known }
{
    let width = quotes.len();
    let inner = at + width;
    if to < inner + width {
        return Closing { close: None, known };
    }
    if !find_mark::stands_at(text, quotes, at) {
        return Closing { close: None, known };
    }
    let close = find_mark::next_place(text, quotes, known, at + (width + 1));
    if to < close + width {
        return Closing {
            close: None,
            known: close,
        };
    }
    Closing {
        close: Some(close),
        known: close,
    }
}

/// The closing place of the brackets that begin at `at`, in the text that ends at `to`, if at most [`BRACKET_MAX`]
/// bytes stand between them. `known` is the next place of the closing brackets, as for quotes.
#[tactic(auto, using(crate::proofs::Closes::brackets_short, crate::proofs::Closes::brackets_absent, crate::proofs::Closes::brackets_open, crate::proofs::Closes::brackets_long, crate::proofs::Closes::brackets_closed))]
pub fn brackets_within(text: &str, names: Names, at: usize, to: usize, known: usize) -> Closing
    requires order { at ≤ to }
    requires within { to ≤ length text.now }
    requires remembered { Remembers (closing_of names) text.now (at + 2) known }
    ensures found { cut_within 2 at to text.now result.close
        ≡ bracketed (opening_of names) (closing_of names) (between at to text.now) }
    ensures after { IfSome result.close (λ close. at + 2 ≤ close) }
    ensures before { IfSome result.close (λ close. close + 2 ≤ to) }
    ensures near { IfSome result.close (λ close. close ≤ at + 2 + brackets_max) }
    ensures cuts { IfSome result.close (λ close. IsCharBoundary text.now (at + 2) × IsCharBoundary text.now close) }
    ensures remembers { Remembers (closing_of names) text.now (at + 2) result.known }
{
    let start = at + 2;
    if to < start + 2 {
        return Closing { close: None, known };
    }
    if !find_mark::stands_at(text, names.opening(), at) {
        return Closing { close: None, known };
    }
    let close = find_mark::next_place(text, names.closing(), known, start);
    if to < close + 2 {
        return Closing {
            close: None,
            known: close,
        };
    }
    if BRACKET_MAX < close - start {
        return Closing {
            close: None,
            known: close,
        };
    }
    Closing {
        close: Some(close),
        known: close,
    }
}
