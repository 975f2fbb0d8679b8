// What a reader may lean on, each as the contract of a function that does nothing, so that its proof is asked for.
ghost use Rattle.http_head.specs.Laws.{HeadsAreFound, RefusalsStay, RefusalsAreOne, MalformedLinesAreSeen, WindowsAreLimited};

/// An input that begins with a head within the limits is refused neither as too large nor as malformed.
pub fn heads_are_found()
    ensures { HeadsAreFound }
{}

/// A prefix of the input that shows that it begins with no head decides: whatever comes after it, the input is refused
/// for the same reason. So the shortest such prefix tells the refusal, and the sizes of the reads are no matter.
pub fn refusals_stay()
    ensures { RefusalsStay }
{}

/// No input is refused as too large and as malformed, unless what is looked at ends inside a target: a target is tested
/// when it has ended, so one that is no UTF-8 is both malformed and still open.
pub fn refusals_are_one()
    ensures { RefusalsAreOne }
{}

/// A prefix within the limits that no continuation makes a head is seen, and the input refused as malformed.
pub fn malformed_lines_are_seen()
    ensures { MalformedLinesAreSeen }
{}

/// No more is looked at than a head may have: 16,384 bytes, and 66 lines after the empty ones at the start.
pub fn windows_are_limited()
    ensures { WindowsAreLimited }
{}
