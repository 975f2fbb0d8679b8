// What is known of a script's earlier lines, and reading the next one.
ghost use Rattle.std.specs.Prelude.{◌≡◌, [], ℕ};
ghost use Rattle.wiki_model.specs.Script.{Line};
ghost use Rattle.drill_script.specs.AsModel.{line_of};
ghost use Rattle.drill_script.specs.ScriptState.{is_end, is_farm, opened_id, replicas_by, noted, replicas_in, in_place, fits, next_line, IsStateOf, ReadsLine};
ghost use Rattle.drill_script.specs.Words.{Gives};

use crate::ScriptLine;
use crate::read_forms::line_of;
use crate::words::LineFault;
use farm_base::Region;
use std::alloc::Global;

/// What is known of the earlier lines of a script: enough to say whether a further line may follow them.
#[derive(Clone, Copy, Debug, PartialEq, Eq)]
pub struct ScriptState {
    // Whether there is no line yet.
    empty: bool,
    // Whether the line `farm` is the only one.
    farm_alone: bool,
    // How many replicas each region has; 1 without a line `farm`.
    home: usize,
    west: usize,
    // The greatest id of an `open` line, or 0.
    greatest_id: u64,
    // Whether `end` was read.
    ended: bool,
}

impl ScriptState {
    /// The state before the first line.
    pub fn new() -> ScriptState
        ensures { IsStateOf result [] }
    {
        ScriptState {
            empty: true,
            farm_alone: false,
            home: 1,
            west: 1,
            greatest_id: 0,
            ended: false,
        }
    }
}

/// Whether `end` was read, so that no line may follow.
pub fn has_ended(state: &ScriptState) -> bool
    ensures { result ≡ state.now.ended }
{
    state.ended
}

/// The next line of a script. The bytes are those of the line without its line feed. On an error the state is as
/// before. The cost is linear in the bytes.
#[tactic(auto, using(crate::proofs::NextLine::none_read, crate::proofs::NextLine::line_read_so))]
pub fn read_line(
    alloc: Global,
    state: &mut ScriptState,
    line: &[u8],
) -> Result<ScriptLine, LineFault>
    ensures { ReadsLine state.old line.now result state.new }
{
    let read = next_line(alloc, state, line)?;
    *state = noted(*state, &read);
    Ok(read)
}

// What the bytes say, if it may stand after the earlier lines.
#[tactic(auto, unfolding(crate::specs::ScriptState::next_line))]
fn next_line(alloc: Global, state: &ScriptState, line: &[u8]) -> Result<ScriptLine, LineFault>
    ensures { Gives line_of result (next_line state.now line.now) }
{
    let read = line_of(alloc, line)?;
    if fits(state, &read) {
        Ok(read)
    } else {
        Err(LineFault::Form)
    }
}

fn fits(state: &ScriptState, line: &ScriptLine) -> bool
    ensures { result ≡ fits state.now (line_of line.now) }
{
    !state.ended && is_in_place(state, line)
}

fn is_in_place(state: &ScriptState, line: &ScriptLine) -> bool
    ensures { result ≡ in_place state.now (line_of line.now) }
{
    match line {
        ScriptLine::Farm { .. } => state.empty,
        ScriptLine::Bounds(_) => state.empty || state.farm_alone,
        ScriptLine::Apply {
            region,
            replica,
            ..
        } => usize::from(*replica) < replicas_in(*region, state),
        ScriptLine::Arrive { id, .. } => state.greatest_id < *id,
        _ => true,
    }
}

fn replicas_in(region: Region, state: &ScriptState) -> usize
    ensures { result ≡ replicas_in region state.now }
{
    match region {
        Region::Home => state.home,
        Region::West => state.west,
    }
}

// The state after one more line.
fn noted(state: ScriptState, line: &ScriptLine) -> ScriptState
    ensures { result ≡ noted state (line_of line.now) }
{
    let (home, west) = if state.empty {
        (
            replicas_by(Region::Home, line),
            replicas_by(Region::West, line),
        )
    } else {
        (state.home, state.west)
    };
    ScriptState {
        empty: false,
        farm_alone: state.empty && is_farm(line),
        home,
        west,
        greatest_id: state.greatest_id.max(opened_id(line)),
        ended: state.ended || is_end(line),
    }
}

/// Whether it is the line `farm`.
pub fn is_farm(line: &ScriptLine) -> bool
    ensures { result ≡ is_farm (line_of line.now) }
{
    matches!(line, ScriptLine::Farm { .. })
}

fn is_end(line: &ScriptLine) -> bool
    ensures { result ≡ is_end (line_of line.now) }
{
    matches!(line, ScriptLine::End)
}

fn opened_id(line: &ScriptLine) -> u64
    ensures { result ≡ opened_id (line_of line.now) }
{
    match line {
        ScriptLine::Arrive { id, .. } => *id,
        _ => 0,
    }
}

// How many replicas the region has, if this is the first line.
fn replicas_by(region: Region, line: &ScriptLine) -> usize
    ensures { result ≡ replicas_by region (line_of line.now) }
{
    match line {
        ScriptLine::Farm { home, west, .. } => match region {
            Region::Home => home.as_slice().len(),
            Region::West => west.as_slice().len(),
        },
        _ => 1,
    }
}
