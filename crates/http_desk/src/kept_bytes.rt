// Bytes of a source that are kept until they are used: reading more of them, and dropping those that were.
ghost use Rattle.std.specs.Prelude.{◌≡◌, ◌≢◌, ◌≤◌, ◌<◌, length, drop};
ghost use Rattle.std.specs.Io.KnownBytes.{IsAtEnd};
ghost use Rattle.wiki_model.specs.Steps.{Rose};
ghost use Rattle.http_desk.specs.Incoming.{Grows};

use farm_base::Source;

// How many bytes one read asks for.
const PIECE: usize = 4_096; // bytes

/// How a read for more bytes ended.
#[derive(Clone, Copy, Debug, PartialEq, Eq)]
pub enum More {
    Some,
    End,
    Failed,
    Memory,
}

/// Reads once, and keeps what came.
pub(crate) fn read_more<X: Source>(conn: &mut X, kept: &mut Vec<u8>) -> More
    ensures grows { result ≢ More.Failed → result ≢ More.Memory
        → Grows kept.old.items (X.left conn.old) kept.new.items (X.left conn.new) }
    ensures some { result ≡ More.Some → length kept.old.items < length kept.new.items }
    ensures end { result ≡ More.End → (kept.new.items ≡ kept.old.items) × IsAtEnd (X.left conn.new) }
    ensures later { X.faults conn.old ≤ X.faults conn.new }
    ensures failed { result ≡ More.Failed → Rose (X.faults conn.old) (X.faults conn.new) }
    ensures other { X.writing_half conn.new ≡ X.writing_half conn.old }
{
    let mut piece = [0u8; PIECE];
    let Ok(count) = conn.read(&mut piece) else {
        return More::Failed;
    };
    if count == 0 {
        return More::End;
    }
    let (read, _) = piece.split_at(count);
    if kept.extend_from_slice(read).is_err() {
        return More::Memory;
    }
    More::Some
}

/// How the reading of a number of bytes ended.
#[derive(Clone, Copy, Debug, PartialEq, Eq)]
pub enum FillEnd {
    Full,
    End,
    Failed,
    Memory,
}

/// Reads until `wanted` bytes are kept, or the input ends.
#[tactic(auto, using(crate::proofs::Inputs::grows_start, crate::proofs::Inputs::grows_then))]
pub(crate) fn fill<X: Source>(conn: &mut X, kept: &mut Vec<u8>, wanted: usize) -> FillEnd
    ensures grows { result ≢ FillEnd.Failed → result ≢ FillEnd.Memory
        → Grows kept.old.items (X.left conn.old) kept.new.items (X.left conn.new) }
    ensures full { result ≡ FillEnd.Full → wanted ≤ length kept.new.items }
    ensures end { result ≡ FillEnd.End → (length kept.new.items < wanted) × IsAtEnd (X.left conn.new) }
    ensures later { X.faults conn.old ≤ X.faults conn.new }
    ensures failed { result ≡ FillEnd.Failed → Rose (X.faults conn.old) (X.faults conn.new) }
    ensures other { X.writing_half conn.new ≡ X.writing_half conn.old }
{
    'reads: while kept.len() < wanted {
        match read_more(conn, kept) {
            More::Some => {}
            More::End => return FillEnd::End,
            More::Failed => return FillEnd::Failed,
            More::Memory => return FillEnd::Memory,
        }
    }
    FillEnd::Full
}

/// Takes the first bytes away.
pub(crate) fn drop_prefix(kept: &mut Vec<u8>, count: usize)
    requires { count ≤ length kept.old.items }
    ensures { kept.new.items ≡ drop count kept.old.items }
{
    let left = kept.len() - count;
    kept.copy_within(count.., 0);
    kept.truncate(left);
}
