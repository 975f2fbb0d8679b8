// A whole script: its lines, or the first line that is none.
ghost use Rattle.std.specs.Prelude.{◌≡◌, ◌≤◌, ◌<◌, ◌+◌, ◌++◌, ◌∷◌, [], length, option_map, IfSome, IfOk, OnOk};
ghost use Rattle.wiki_model.specs.Limits.{script_max};
ghost use Rattle.drill_script.specs.AsModel.{line_of};
ghost use Rattle.drill_script.specs.declared.whole_script.ScriptFault.TheVariants.{Line};
ghost use Rattle.drill_script.specs.ReadScript.{lines_of, HasRoom, IsPlan, ReadsScript, ReadsLines};
ghost use Rattle.drill_script.specs.ReadSoFar.{IsLineCut};

use crate::ScriptLine;
use crate::plan::plan_of;
use crate::script_state::{ScriptState, has_ended, read_line};
use crate::words::LineFault;
use farm_base::bytes::cut_at;
use farm_base::{Listed, Memory};
use region_state::FarmPlan;
use std::alloc::{AllocError, Global};

/// The greatest length of a script.
pub const SCRIPT_MAX: usize = 16_777_216; // bytes

/// A script.
#[derive(Debug, Drop)]
pub struct Script {
    /// The layout that its first lines give, with room in the caches for 65,536 pages.
    pub plan: FarmPlan,
    /// Its lines in order; item n of this list is line n, counted from 1.
    pub lines: Listed<ScriptLine>,
}

/// Why a script was not read.
#[derive(Clone, Copy, Debug, PartialEq, Eq)]
pub enum ScriptFault {
    /// This line, counted from 1, is the first that is none: it is none of the forms, may not stand there, is no
    /// UTF-8, is not ended, or goes past the greatest length; or the input ends before `end`.
    Line { line: u64 },
    /// Out of memory.
    Memory,
}

impl From<Memory> for ScriptFault {
    ghost use Rattle.std.specs.Prelude.{◌≡◌};
    ghost use Rattle.drill_script.specs.declared.whole_script.ScriptFault.TheVariants.{Memory};

    ghost from_gives = { λ _ fault. fault ≡ Memory };

    fn from(_memory: Memory) -> ScriptFault {
        ScriptFault::Memory
    }
}

/// The script that the bytes are. One pass, with no more memory than the lines.
pub fn read_script(alloc: Global, bytes: &[u8]) -> Result<Script, ScriptFault>
    ensures read { ReadsScript result bytes.now }
    ensures room { IfOk result (λ script. HasRoom script.plan) }
{
    let lines = read_lines(alloc, bytes)?;
    let plan = plan_of(alloc, lines.as_slice())?;
    Ok(Script {
        plan,
        lines: Listed::new(lines),
    })
}

fn read_lines(alloc: Global, bytes: &[u8]) -> Result<Vec<ScriptLine>, ScriptFault>
    ensures { ReadsLines (λ v. v.items) result bytes.now }
{
    let mut lines: Vec<ScriptLine> = Vec::new(alloc);
    let mut state = ScriptState::new();
    let mut rest = bytes;
    let mut room = SCRIPT_MAX;
    while let Some((line, after)) = cut_line(rest) {
        if room <= line.len() {
            return Err(fault_at(&lines));
        }
        match read_line(alloc, &mut state, line) {
            Ok(read) => push_line(&mut lines, read)?,
            Err(LineFault::Form) => return Err(fault_at(&lines)),
            Err(LineFault::Memory) => return Err(ScriptFault::Memory),
        }
        room -= line.len() + 1;
        rest = after;
    }
    if rest.is_empty() && has_ended(&state) {
        return Ok(lines);
    }
    Err(fault_at(&lines))
}

// The first line without its line feed, and what stands after it.
#[tactic(auto, using(crate::proofs::Faults::line_cut))]
fn cut_line(bytes: &[u8]) -> Option<(&[u8], &[u8])>
    ensures cut { IsLineCut bytes.now (option_map (λ x. (x.0.now, x.1.now)) result) }
{
    cut_at(bytes, b'\n')
}

// The line after these is the faulty one.
fn fault_at(lines: &Vec<ScriptLine>) -> ScriptFault
    ensures { result ≡ Line (length (lines_of lines.now.items) + 1) }
{
    ScriptFault::Line {
        line: lines.len() as u64 + 1,
    }
}

fn push_line(lines: &mut Vec<ScriptLine>, line: ScriptLine) -> Result<(), Memory>
    ensures { OnOk result (lines_of lines.new.items ≡ lines_of lines.old.items ++ line_of line ∷ []) }
{
    match lines.push(line) {
        Ok(()) => Ok(()),
        Err(_) => Err(Memory),
    }
}
