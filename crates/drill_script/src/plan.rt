// The layout of the farm that a script's first lines give.
ghost use Rattle.std.specs.Prelude.{◌≡◌, [], ◌∷◌, IfOk, option_map, slice_get};
ghost use Rattle.wiki_model.specs.Limits.{script_slots};
ghost use Rattle.farm_base.specs.AsModel.{bounds_of};
ghost use Rattle.drill_script.specs.AsModel.{line_of};
ghost use Rattle.drill_script.specs.Plan.{weights_by, epoch_by, bounds_by, weights_told, epoch_told, bounds_at, bounds_told};
ghost use Rattle.drill_script.specs.ReadScript.{lines_of, HasRoom, IsPlan};

use crate::ScriptLine;
use crate::script_state::is_farm;
use farm_base::{Bounds, Listed, Memory, Moment, Region};
use region_state::{FarmPlan, RegionPlan};
use std::alloc::Global;

/// How many slots each cache of a script's farm has.
pub const SLOTS: u32 = 65_536; // pages

/// The layout that the first lines give: the weights and the epoch of the line `farm`, if it is the first, and the
/// bounds of the line `bounds`, if it is the first or follows that one. Replicas apply nothing of themselves.
#[tactic(auto, using(crate::proofs::Plans::plan_is))]
pub fn plan_of(alloc: Global, lines: &[ScriptLine]) -> Result<FarmPlan, Memory>
    ensures plan { IfOk result (λ plan. IsPlan lines.now plan) }
    ensures room { IfOk result (λ plan. HasRoom plan) }
{
    let first = line_at(lines, 0);
    let second = line_at(lines, 1);
    let home = weights_told(alloc, Region::Home, first)?;
    let west = weights_told(alloc, Region::West, first)?;
    Ok(FarmPlan {
        home: region_plan(home),
        west: region_plan(west),
        epoch: epoch_told(first),
        workers: 1,
        bounds: bounds_told(first, second),
        pace: 0,
    })
}

fn region_plan(weights: Listed<u16>) -> RegionPlan
    ensures weights { result.weights ≡ weights }
    ensures slots { result.slots ≡ script_slots }
{
    RegionPlan {
        weights,
        slots: SLOTS,
    }
}

#[tactic(auto, using(crate::proofs::Plans::got))]
fn line_at(lines: &[ScriptLine], place: usize) -> Option<&ScriptLine>
    ensures { option_map (λ l. line_of l.now) result ≡ slice_get (lines_of lines.now) place }
{
    lines.get(place)
}

fn weights_told(
    alloc: Global,
    region: Region,
    first: Option<&ScriptLine>,
) -> Result<Listed<u16>, Memory>
    ensures { IfOk result (λ w. w ≡ weights_told region (option_map (λ l. line_of l.now) first.entry)) }
{
    match first {
        None => one_replica(alloc),
        Some(line) => weights_by(alloc, region, line),
    }
}

fn weights_by(alloc: Global, region: Region, line: &ScriptLine) -> Result<Listed<u16>, Memory>
    ensures { IfOk result (λ w. w ≡ weights_by region (line_of line.now)) }
{
    match line {
        ScriptLine::Farm { home, west, .. } => match region {
            Region::Home => copied(alloc, home),
            Region::West => copied(alloc, west),
        },
        _ => one_replica(alloc),
    }
}

fn copied(alloc: Global, weights: &Listed<u16>) -> Result<Listed<u16>, Memory>
    ensures { IfOk result (λ w. w ≡ weights.now) }
{
    let mut copy = Vec::new(alloc);
    copy.extend_from_slice(weights.as_slice())?;
    Ok(Listed::new(copy))
}

fn one_replica(alloc: Global) -> Result<Listed<u16>, Memory>
    ensures { IfOk result (λ w. w ≡ 1 ∷ []) }
{
    let mut weights: Vec<u16> = Vec::new(alloc);
    weights.push(1)?;
    Ok(Listed::new(weights))
}

fn epoch_told(first: Option<&ScriptLine>) -> Moment
    ensures { result ≡ epoch_told (option_map (λ l. line_of l.now) first.entry) }
{
    match first {
        None => Moment(0),
        Some(line) => epoch_by(line),
    }
}

fn epoch_by(line: &ScriptLine) -> Moment
    ensures { result ≡ epoch_by (line_of line.now) }
{
    match line {
        ScriptLine::Farm { epoch, .. } => *epoch,
        _ => Moment(0),
    }
}

fn bounds_told(first: Option<&ScriptLine>, second: Option<&ScriptLine>) -> Bounds
    ensures { bounds_of result ≡ bounds_told (option_map (λ l. line_of l.now) first.entry)
        (option_map (λ l. line_of l.now) second.entry) }
{
    match first {
        None => Bounds::default(),
        Some(line) if is_farm(line) => bounds_at(second),
        Some(line) => bounds_by(line),
    }
}

fn bounds_at(line: Option<&ScriptLine>) -> Bounds
    ensures { bounds_of result ≡ bounds_at (option_map (λ l. line_of l.now) line.entry) }
{
    match line {
        None => Bounds::default(),
        Some(line) => bounds_by(line),
    }
}

fn bounds_by(line: &ScriptLine) -> Bounds
    ensures { bounds_of result ≡ bounds_by (line_of line.now) }
{
    match line {
        ScriptLine::Bounds(bounds) => *bounds,
        _ => Bounds::default(),
    }
}
