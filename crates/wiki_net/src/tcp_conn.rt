// A connection over TCP, with a limit of time.
ghost use Rattle.std.specs.Prelude.{◌≡◌, ◌<◌, ◌≤◌, ◌++◌, length, IfSome, Ok};

use farm_base::{Conn, OutFault, Sink, Source};
use std::io::{self, IoSlice, Read, Write};
use std::net::TcpStream;
use std::time::{self, Duration, Instant};

/// How long a client may keep the wiki waiting in a request and its response.
pub const TIME_LIMIT: u64 = 800; // milliseconds

// The system is told how long to wait in whole steps, so that a quick client costs no call for that.
const STEP: u64 = 100; // milliseconds

const STEPS: u64 = TIME_LIMIT / STEP;

/// A connection over TCP. It exposes none of its bytes. Each error of the system is a counted fault, and so is a call
/// that would go past the limit of time: [`TIME_LIMIT`] in reads and writes since the connection's begin, or since its
/// last write that was taken whole, and less than a tenth of a second more. What is done between them does not count.
#[derive(Drop)]
pub struct TcpConn<'a, R> {
    rt: &'a R,
    stream: TcpStream,
    peer: String,
    /// How long its reads and writes may still wait.
    left: Duration,
    /// How long the system was told to wait in a read, and in a write; 0 before the first.
    read_wait: Duration,
    write_wait: Duration,
    read_faults: u64,
    write_faults: u64,
}

impl<'a, R: time::Clock> TcpConn<'a, R> {
    /// A connection over this stream, which begins; no fault is counted.
    pub(crate) fn new(rt: &'a R, stream: TcpStream, peer: String) -> Self {
        TcpConn {
            rt,
            stream,
            peer,
            left: Duration::from_millis(TIME_LIMIT),
            read_wait: Duration::from_millis(0),
            write_wait: Duration::from_millis(0),
            read_faults: 0,
            write_faults: 0,
        }
    }
}

impl<R: time::Clock> Source for TcpConn<'_, R> {
    ghost use Rattle.std.specs.Prelude.{None};
    ghost use Rattle.std.specs.String.{string_bytes};

    ghost left = { λ _. None };

    ghost faults = { λ c. c.read_faults };

    ghost writing_half = { λ c. record { bytes = None; faults = c.write_faults; peer = string_bytes c.peer } };

    fn read(&mut self, buf: &mut [u8]) -> Result<usize, OutFault> {
        let begun = Instant::now(self.rt);
        let read = read_within(&mut self.stream, &mut self.read_wait, buf, self.left);
        self.left = left_after(self.rt, begun, self.left);
        match read {
            Some(count) => Ok(count),
            None => {
                self.read_faults = self.read_faults.saturating_add(1);
                Err(OutFault::Failed)
            }
        }
    }
}

impl<R: time::Clock> Sink for TcpConn<'_, R> {
    ghost use Rattle.std.specs.Prelude.{None};
    ghost use Rattle.std.specs.String.{string_bytes};

    ghost written = { λ _. None };

    ghost faults = { λ c. c.write_faults };

    ghost reading_half = { λ c. record { bytes = None; faults = c.read_faults; peer = string_bytes c.peer } };

    fn write(&mut self, piece: &[u8]) -> Result<usize, OutFault> {
        let begun = Instant::now(self.rt);
        let wrote = write_within(&mut self.stream, &mut self.write_wait, piece, self.left);
        self.left = left_after(self.rt, begun, self.left);
        match wrote {
            Some(count) => {
                if count == piece.len() {
                    self.left = Duration::from_millis(TIME_LIMIT);
                }
                Ok(count)
            }
            None => {
                self.write_faults = self.write_faults.saturating_add(1);
                Err(OutFault::Failed)
            }
        }
    }
}

impl<R: time::Clock> Conn for TcpConn<'_, R> {
    ghost use Rattle.std.specs.String.{string_bytes};

    ghost peer = { λ c. string_bytes c.peer };

    fn peer(&self) -> &str {
        self.peer.as_str()
    }

    /// Both leave in one call of the system.
    fn write_two(&mut self, first: &[u8], second: &[u8]) -> Result<usize, OutFault> {
        let begun = Instant::now(self.rt);
        let wrote = write_two_within(&self.stream, &mut self.write_wait, first, second, self.left);
        self.left = left_after(self.rt, begun, self.left);
        match wrote {
            Some(count) => {
                if first.len() <= count && count - first.len() == second.len() {
                    self.left = Duration::from_millis(TIME_LIMIT);
                }
                Ok(count)
            }
            None => {
                self.write_faults = self.write_faults.saturating_add(1);
                Err(OutFault::Failed)
            }
        }
    }

    fn shows_halves(&self) {}
}

// What is left of the limit after a call that began then; nothing if the clock does not tell.
fn left_after<R: time::Clock>(rt: &R, begun: io::Result<Instant>, left: Duration) -> Duration {
    match begun.and_then(|begun| begun.elapsed(rt)) {
        Ok(passed) => left.saturating_sub(passed),
        Err(_) => Duration::from_millis(0),
    }
}

// Reads within the time; none if the system fails or the time passes.
fn read_within(
    stream: &mut TcpStream,
    told: &mut Duration,
    buf: &mut [u8],
    left: Duration,
) -> Option<usize>
    requires { 0 < length buf.old }
    ensures { IfSome result (λ n. n ≤ length buf.new) }
{
    let_read(stream, told, left)?;
    stream.read(buf).ok()
}

// Lets reads wait for as long as is left; none if no time is left or the system fails.
fn let_read(stream: &TcpStream, told: &mut Duration, left: Duration) -> Option<()> {
    if left.is_zero() {
        return None;
    }
    let wait = wait_for(left);
    if wait != *told {
        stream.set_read_timeout(Some(wait)).ok()?;
        *told = wait;
    }
    Some(())
}

// How long the system is told to wait if so much is left: the next whole step.
fn wait_for(left: Duration) -> Duration {
    for steps in 1..STEPS {
        let wait = Duration::from_millis(steps * STEP);
        if left <= wait {
            return wait;
        }
    }
    Duration::from_millis(TIME_LIMIT)
}

// Writes within the time. A write that takes nothing has failed.
fn write_within(
    stream: &mut TcpStream,
    told: &mut Duration,
    piece: &[u8],
    left: Duration,
) -> Option<usize>
    ensures some { IfSome result (λ n. 0 < n) }
    ensures bound { IfSome result (λ n. n ≤ length piece.now) }
{
    let_write(stream, told, left)?;
    taken(stream.write(piece))
}

// The same of writes.
fn let_write(stream: &TcpStream, told: &mut Duration, left: Duration) -> Option<()> {
    if left.is_zero() {
        return None;
    }
    let wait = wait_for(left);
    if wait != *told {
        stream.set_write_timeout(Some(wait)).ok()?;
        *told = wait;
    }
    Some(())
}

// Writes two pieces within the time, in one call.
fn write_two_within(
    stream: &TcpStream,
    told: &mut Duration,
    first: &[u8],
    second: &[u8],
    left: Duration,
) -> Option<usize>
    ensures some { IfSome result (λ n. 0 < n) }
    ensures bound { IfSome result (λ n. n ≤ length (first.now ++ second.now)) }
{
    let_write(stream, told, left)?;
    let pieces = [IoSlice::new(first), IoSlice::new(second)];
    taken(stream.write_vectored(&pieces))
}

// How much a write took. One that took nothing has failed.
fn taken(wrote: io::Result<usize>) -> Option<usize>
    ensures some { IfSome result (λ n. 0 < n) }
    ensures is { IfSome result (λ n. wrote ≡ Ok n) }
{
    match wrote {
        Ok(count) if 0 < count => Some(count),
        _ => None,
    }
}
