// Whether what is kept of the input begins with a head.
ghost use Rattle.std.specs.Prelude.{◌≡◌, ◌≤◌, ◌<◌, true, false, length};
ghost use Rattle.httparse.specs.Grammar.{RequestHead, NeverHasRequest};
ghost use Rattle.httparse.specs.Spans.{IsRequestOf, IsRequestWithin};
ghost use Rattle.wiki_model.specs.Limits.{head_max};
ghost use Rattle.http_head.specs.Input.{window, is_full, line_limit, IsOpen, IsHeadIn};
ghost use Rattle.http_head.specs.Window.{later_feeds};

use crate::window::{FIELDS_MAX, window};
use httparse::Status;
use httparse::spans::{HeaderSpan, RequestSpans, parse_request};

/// Room for the spans of one field too many: more lines are not looked at.
pub const ROOM: usize = FIELDS_MAX + 1; // fields

/// Where a head lies: its spans, in the first bytes of what is kept.
#[derive(Clone, Copy, Debug)]
pub struct HeadPlace {
    /// Where its parts lie in the bytes that are looked at.
    pub spans: RequestSpans,
    /// How many bytes are looked at.
    pub seen: usize,
}

/// What is kept, as far as a head goes.
#[derive(Clone, Copy, Debug)]
pub enum KeptBytes {
    /// They begin with a head.
    Whole(HeadPlace),
    /// They may become a head, and more bytes are looked at.
    Open,
    /// No more bytes are looked at, and those that are have no head.
    Full,
    /// No continuation makes them a head.
    Never,
}

/// Looks for a head at the start of what is kept. One pass; it takes no memory.
#[tactic(auto, using(crate::proofs::Heads::unfilled))]
pub fn find_head(kept: &[u8], fields: &mut [HeaderSpan; ROOM]) -> KeptBytes
    ensures within { (at : HeadPlace) → result ≡ KeptBytes.Whole at → at.seen ≤ length kept.now }
    ensures whole { (at : HeadPlace) → result ≡ KeptBytes.Whole at
        → (h : RequestHead) × IsHeadIn kept.now at.seen fields.new at.spans h }
    ensures open { result ≡ KeptBytes.Open → (is_full kept.now ≡ false) × IsOpen kept.now }
    ensures short { result ≡ KeptBytes.Open → length kept.now < head_max }
    ensures full { result ≡ KeptBytes.Full → (is_full kept.now ≡ true) × IsOpen (window kept.now) }
    ensures never { result ≡ KeptBytes.Never → NeverHasRequest (window kept.now) }
{
    let seen = window(kept);
    let (looked_at, _) = kept.split_at(seen.length);
    match parse_window(looked_at, fields) {
        Parse::Whole(spans) => KeptBytes::Whole(HeadPlace {
            spans,
            seen: seen.length,
        }),
        Parse::Open if seen.full => KeptBytes::Full,
        Parse::Open => KeptBytes::Open,
        Parse::Never => KeptBytes::Never,
    }
}

/// What a window is.
#[derive(Clone, Copy, Debug)]
pub enum Parse {
    Whole(RequestSpans),
    Open,
    Never,
}

// A window has too few lines for more fields than there is room for, so the parser never answers that.
fn parse_window(buf: &[u8], fields: &mut [HeaderSpan; ROOM]) -> Parse
    requires { later_feeds buf.now ≤ line_limit }
    ensures within { (r : RequestSpans) → result ≡ Parse.Whole r → IsRequestWithin buf.now fields.new r }
    ensures whole { (r : RequestSpans) → result ≡ Parse.Whole r → IsRequestOf buf.now fields.new r }
    ensures open { result ≡ Parse.Open → IsOpen buf.now }
    ensures never { result ≡ Parse.Never → NeverHasRequest buf.now }
{
    match parse_request(buf, fields) {
        Ok(Status::Complete(spans)) => Parse::Whole(spans),
        Ok(Status::Partial) => Parse::Open,
        Err(_) => Parse::Never,
    }
}
