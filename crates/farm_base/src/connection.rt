// A connection: a source and a sink at once, each of which shows the other's half; and writing two pieces to it.
ghost use Rattle.std.specs.Prelude.{◌≡◌, ◌<◌, ◌≤◌, ℕ, List, ◌++◌, length, drop, IfOk, OnOk};
ghost use Rattle.farm_base.specs.Causes.{HasCause};
ghost use Rattle.farm_base.specs.Exposed.{Adds, AddsPrefix, WriteAdds};

use crate::{OutFault, Sink, Source, write_all};

/// Bytes in both directions, and who is at the other end. Its count of faults for reads is that of the source, and
/// its count for writes that of the sink. So a read leaves what was written, the count for writes and the peer as
/// they were, and a write what is left, the count for reads and the peer: [`Conn::shows_halves`] ties them.
pub trait Conn: Source + Sink {
    /// Who is at the other end.
    ghost peer: { Self → List ℕ };

    /// Who is at the other end: an address without a port. It never changes.
    fn peer(&self) -> &str
        ensures { result.now ≡ peer self.now };

    /// Writes a prefix of two pieces, one behind the other, of one byte at least, and answers its length. A connection
    /// that can hands both to the system at once, so that they leave together.
    fn write_two(&mut self, first: &[u8], second: &[u8]) -> Result<usize, OutFault>
        requires { 0 < length first.now }
        ensures some { IfOk result (λ n. 0 < n) }
        ensures bound { IfOk result (λ n. n ≤ length (first.now ++ second.now)) }
        ensures bytes { WriteAdds (Self.written self.old) (Self.written self.new) result (first.now ++ second.now) }
        ensures cause { HasCause (Self.Sink.faults self.old) (Self.Sink.faults self.new) result }
        ensures other { Self.reading_half self.new ≡ Self.reading_half self.old };

    /// Does nothing. A call before a read or a write and one after it tell what that left as it was.
    fn shows_halves(&self)
        ensures writing_bytes { (Self.writing_half self.now).bytes ≡ Self.written self.now }
        ensures writing_faults { (Self.writing_half self.now).faults ≡ Self.Sink.faults self.now }
        ensures writing_peer { (Self.writing_half self.now).peer ≡ peer self.now }
        ensures reading_bytes { (Self.reading_half self.now).bytes ≡ Self.left self.now }
        ensures reading_faults { (Self.reading_half self.now).faults ≡ Self.Source.faults self.now }
        ensures reading_peer { (Self.reading_half self.now).peer ≡ peer self.now };
}

/// Writes all of two pieces, the second after the first, in one call if the connection takes both at once. If a write
/// fails, a prefix of them was written.
pub fn write_both<X: Conn>(conn: &mut X, first: &[u8], second: &[u8]) -> Result<(), OutFault>
    ensures ok { OnOk result (Adds (X.written conn.old) (X.written conn.new) (first.now ++ second.now)) }
    ensures prefix { AddsPrefix (X.written conn.old) (X.written conn.new) (first.now ++ second.now) }
    ensures cause { HasCause (X.Sink.faults conn.old) (X.Sink.faults conn.new) result }
    ensures other { X.reading_half conn.new ≡ X.reading_half conn.old }
{
    if first.is_empty() {
        return write_all(conn, second);
    }
    let done = conn.write_two(first, second)?;
    write_rest(conn, first, second, done)
}

/// Writes what is left of two pieces after so many bytes.
fn write_rest<X: Conn>(
    conn: &mut X,
    first: &[u8],
    second: &[u8],
    done: usize,
) -> Result<(), OutFault>
    requires { done ≤ length (first.now ++ second.now) }
    ensures ok { OnOk result (Adds (X.written conn.old) (X.written conn.new) (drop done (first.now ++ second.now))) }
    ensures prefix { AddsPrefix (X.written conn.old) (X.written conn.new) (drop done (first.now ++ second.now)) }
    ensures cause { HasCause (X.Sink.faults conn.old) (X.Sink.faults conn.new) result }
    ensures other { X.reading_half conn.new ≡ X.reading_half conn.old }
{
    if first.len() <= done {
        let (_, rest) = second.split_at(done - first.len());
        return write_all(conn, rest);
    }
    let (_, rest) = first.split_at(done);
    write_all(conn, rest)?;
    write_all(conn, second)
}
