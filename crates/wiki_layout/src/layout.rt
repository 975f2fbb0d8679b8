// Reads a layout: its document, the rules one after another, and the plan of what keeps them.
ghost use Rattle.std.specs.Prelude.{◌≡◌, ◌≤◌, ◌<◌, true, IfOk, Some, None, if◌then◌else◌, option_map, codes};
ghost use Rattle.std.specs.Str.{is_utf8};
ghost use Rattle.toml.specs.Parse.{parse_document};
ghost use Rattle.toml.specs.View.{table_view};
ghost use Rattle.wiki_model.specs.Limits.{bound_max, slots_min, slots_max};
ghost use Rattle.farm_base.specs.AsModel.{bounds_of, are_allowed};
ghost use Rattle.wiki_layout.specs.Layout.{layout_of, layout_of_document, document_in, plan_in, bounds_in, keeps, kind_at, Number, Weights, weights_at, slots_at};
ghost use Rattle.wiki_layout.specs.AsModel.{plan_of};
ghost use Rattle.wiki_layout.specs.ReadLayout.{Reads, ReadsDocument, IsPlan, IsAllowed, IsAllowedRegion};

use crate::layout_values::{number_at, weights_at};
use crate::rules::{COMMIT_DELAY, EPOCH, PACE, READ_LAG, Rule, SKEW, SLOTS, WORKERS, keeps};
use farm_base::{Bounds, Memory, Moment};
use region_state::{FarmPlan, RegionPlan};
use std::alloc::{AllocError, Global};
use toml::Table;

/// How long a layout may be.
pub const LAYOUT_MAX: usize = 65_536; // bytes

/// Why a text is no layout.
#[derive(Clone, Copy, Debug, PartialEq, Eq)]
pub enum LayoutFault {
    /// It breaks this rule, from 1 to 4, and none before it: it is no document, it has a name that is not known, a
    /// value is not of its kind, a number is out of its range or a list has a length that is not allowed.
    Rule(u8),
    /// Out of memory.
    Memory,
}

impl From<AllocError> for LayoutFault {
    ghost use Rattle.std.specs.Prelude.{◌≡◌};
    ghost use Rattle.wiki_layout.specs.declared.layout.LayoutFault.TheVariants.{Memory};

    ghost from_gives = { λ _ fault. fault ≡ Memory };

    fn from(_error: AllocError) -> LayoutFault {
        LayoutFault::Memory
    }
}

impl From<Memory> for LayoutFault {
    ghost use Rattle.std.specs.Prelude.{◌≡◌};
    ghost use Rattle.wiki_layout.specs.declared.layout.LayoutFault.TheVariants.{Memory};

    ghost from_gives = { λ _ fault. fault ≡ Memory };

    fn from(_error: Memory) -> LayoutFault {
        LayoutFault::Memory
    }
}

/// The plan of the farm that the text lays out. A key that is absent has its default, and the empty text is the default
/// layout. It goes over the text once and over its document three times.
pub fn layout_of(alloc: Global, bytes: &[u8]) -> Result<FarmPlan, LayoutFault>
    // It is what the text says, or the first rule that the text breaks.
    ensures reads { Reads result (layout_of bytes.now) }
    // It is the plan of a farm with the text's setting.
    ensures setting { IfOk result (λ plan. IsPlan bytes.now plan) }
    // A farm may be opened with it, and its caches made with its slots and its bounds.
    ensures allowed { IfOk result (λ plan. IsAllowed plan) }
{
    read_layout(alloc, bytes)
}

// As `layout_of`, without what follows of the plan for a farm.
fn read_layout(alloc: Global, bytes: &[u8]) -> Result<FarmPlan, LayoutFault>
    ensures reads { Reads result (layout_of bytes.now) }
    ensures allowed { IfOk result (λ plan. IsAllowed plan) }
{
    match document_in(alloc, bytes) {
        Ok(document) => layout_in(alloc, &document),
        Err(fault) => Err(fault),
    }
}

// The document, or rule 1.
fn document_in(alloc: Global, bytes: &[u8]) -> Result<Table, LayoutFault>
    ensures { ReadsDocument result (document_in bytes.now) }
{
    if LAYOUT_MAX < bytes.len() {
        return Err(LayoutFault::Rule(1));
    }
    match text_in(bytes) {
        Some(text) => read_text(alloc, text),
        None => Err(LayoutFault::Rule(1)),
    }
}

fn text_in(bytes: &[u8]) -> Option<&str>
    ensures { option_map (λ text. text.now) result ≡ (if is_utf8 bytes.now then Some bytes.now else None) }
{
    match std::str::from_utf8(bytes) {
        Ok(text) => Some(text),
        Err(_) => None,
    }
}

fn read_text(alloc: Global, text: &str) -> Result<Table, LayoutFault>
    ensures { ReadsDocument result (parse_document text.now) }
{
    match toml::table_from_str(alloc, text) {
        Ok(table) => Ok(table),
        Err(error) => if error.is_memory() {
            Err(LayoutFault::Memory)
        } else {
            Err(LayoutFault::Rule(1))
        },
    }
}

// Rules 2 to 4, each over the whole document before the next.
fn layout_in(alloc: Global, document: &Table) -> Result<FarmPlan, LayoutFault>
    ensures reads { Reads result (layout_of_document (Some (table_view document.now))) }
    ensures allowed { IfOk result (λ plan. IsAllowed plan) }
{
    if !keeps(Rule::Names, document) {
        return Err(LayoutFault::Rule(2));
    }
    if !keeps(Rule::Kinds, document) {
        return Err(LayoutFault::Rule(3));
    }
    if !keeps(Rule::Ranges, document) {
        return Err(LayoutFault::Rule(4));
    }
    Ok(plan_in(alloc, document)?)
}

fn plan_in(alloc: Global, document: &Table) -> Result<FarmPlan, Memory>
    requires { keeps Rule.Ranges (table_view document.now) ≡ true }
    ensures says { IfOk result (λ plan. plan_of plan ≡ plan_in (table_view document.now)) }
    ensures allowed { IfOk result (λ plan. IsAllowed plan) }
{
    let home = region_plan_in(alloc, document, "home")?;
    let west = region_plan_in(alloc, document, "west")?;
    Ok(FarmPlan {
        home,
        west,
        epoch: Moment(number_at(document, "farm", "epoch", EPOCH)),
        workers: number_at(document, "farm", "workers", WORKERS) as u8,
        bounds: bounds_in(document),
        pace: number_at(document, "farm", "pace", PACE) as u32,
    })
}

fn region_plan_in(alloc: Global, document: &Table, name: &str) -> Result<RegionPlan, Memory>
    requires kept { keeps Rule.Ranges (table_view document.now) ≡ true }
    requires weights { kind_at name.now (codes "weights") ≡ Some Weights }
    requires slots { kind_at name.now (codes "slots") ≡ Some (Number slots_min slots_max) }
    ensures weights { IfOk result (λ p. p.weights ≡ weights_at name.now (table_view document.now)) }
    ensures slots { IfOk result (λ p. p.slots ≡ slots_at name.now (table_view document.now)) }
    ensures allowed { IfOk result (λ p. IsAllowedRegion p) }
{
    let weights = weights_at(alloc, document, name)?;
    Ok(RegionPlan {
        weights,
        slots: number_at(document, name, "slots", SLOTS) as u32,
    })
}

fn bounds_in(document: &Table) -> Bounds
    requires { keeps Rule.Ranges (table_view document.now) ≡ true }
    ensures says { bounds_of result ≡ bounds_in (table_view document.now) }
    ensures allowed { are_allowed (bounds_of result) ≡ true }
    ensures delay { result.commit_delay ≤ bound_max }
    ensures skew { 0 < result.skew }
{
    Bounds {
        commit_delay: number_at(document, "farm", "commit_delay", COMMIT_DELAY) as u32,
        read_lag: number_at(document, "farm", "read_lag", READ_LAG) as u32,
        skew: number_at(document, "farm", "skew", SKEW) as u32,
    }
}
