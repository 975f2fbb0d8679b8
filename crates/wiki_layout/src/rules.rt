// What may stand where in a layout, and the rules on it: one walk over the document, with a test for each rule.
ghost use Rattle.std.specs.Prelude.{◌≡◌, ◌&&◌, ◌||◌, ◌≤◌, option_map, Some};
ghost use Rattle.toml.specs.View.{view, table_view, items_view};
ghost use Rattle.wiki_layout.specs.Layout.{kind_at, region_kind, farm_kind, is_region, is_table_name, all_members, all_items, inside, is_whole_number, is_list_of_numbers, is_of_kind, lies_between, is_between, are_weights, are_allowed_weights, is_in_range, is_weight, passes, key_passes, table_passes, member_passes, keeps};
ghost use Rattle.wiki_layout.specs.AsModel.{kind_of};

use farm_base::{BOUND_MAX, MOMENT_MAX};
use toml::{Table, Value};

/// The numbers that may stand at a key, and the one that is meant if it is absent.
#[derive(Clone, Copy, Debug, PartialEq, Eq)]
pub(crate) struct Range {
    /// The least number that is taken.
    pub least: u64,
    /// The greatest number that is taken.
    pub greatest: u64,
    /// What is meant if the key is absent.
    pub default: u64,
}

/// How many pages a cache has room for.
pub(crate) const SLOTS: Range = Range {
    least: 256,
    greatest: 65_536,
    default: 4_096,
};

/// The moment before which no cached page counts, in milliseconds.
pub(crate) const EPOCH: Range = Range {
    least: 0,
    greatest: MOMENT_MAX,
    default: 0,
};

/// The workers of a round.
pub(crate) const WORKERS: Range = Range {
    least: 1,
    greatest: 8,
    default: 1,
};

/// How many entries each replica applies before a request.
pub(crate) const PACE: Range = Range {
    least: 1,
    greatest: 1_000,
    default: 1_000,
};

/// How late a commit may follow its purge, in milliseconds.
pub(crate) const COMMIT_DELAY: Range = Range {
    least: 0,
    greatest: BOUND_MAX as u64,
    default: 3_000,
};

/// How far a replica may lag for its page to be kept whole, in milliseconds.
pub(crate) const READ_LAG: Range = Range {
    least: 0,
    greatest: BOUND_MAX as u64,
    default: 7_000,
};

/// By how much the clocks of the two regions may differ, in milliseconds: always by something.
pub(crate) const SKEW: Range = Range {
    least: 1,
    greatest: BOUND_MAX as u64,
    default: 1_000,
};

// The most replicas of a region.
const WEIGHTS_MAX: usize = 8; // weights

// The greatest weight of a replica.
const WEIGHT_MAX: u64 = 1_000;

/// A rule on what stands in a document, in the order in which they are tested.
#[derive(Clone, Copy, Debug, PartialEq, Eq)]
pub(crate) enum Rule {
    /// Each table and each key in it has a name that is known.
    Names,
    /// Each value is a table, a whole number or a list of whole numbers, as its name wants.
    Kinds,
    /// Each number is in its range, and each list has a length that is allowed.
    Ranges,
}

/// What may stand at a key.
#[derive(Clone, Copy, Debug, PartialEq, Eq)]
pub(crate) enum Kind {
    Number(Range),
    /// One to eight weights of replicas.
    Weights,
}

/// Whether the document keeps the rule. It takes no memory and goes over the document once.
pub(crate) fn keeps(rule: Rule, document: &Table) -> bool
    ensures { result ≡ keeps rule (table_view document.now) }
{
    for (name, value) in document.iter() {
        if !member_passes(rule, name.as_str(), value) {
            return false;
        }
    }
    true
}

fn member_passes(rule: Rule, name: &str, value: &Value) -> bool
    ensures { result ≡ member_passes rule name.now (view value.now) }
{
    table_passes(rule, name, value) && inside_passes(rule, name, value)
}

fn table_passes(rule: Rule, name: &str, value: &Value) -> bool
    ensures { result ≡ table_passes rule name.now (view value.now) }
{
    match rule {
        Rule::Names => is_table_name(name),
        Rule::Kinds => value.as_table().is_some(),
        Rule::Ranges => true,
    }
}

fn is_table_name(name: &str) -> bool
    ensures { result ≡ is_table_name name.now }
{
    name == "home" || name == "west" || name == "farm"
}

// A value that is no table has nothing inside that could break a rule.
fn inside_passes(rule: Rule, name: &str, value: &Value) -> bool
    ensures { result ≡ inside (key_passes rule name.now) (view value.now) }
{
    match value.as_table() {
        Some(table) => keys_pass(rule, name, table),
        None => true,
    }
}

fn keys_pass(rule: Rule, name: &str, table: &Table) -> bool
    ensures { result ≡ all_members (key_passes rule name.now) (table_view table.now) }
{
    for (key, value) in table.iter() {
        if !key_passes(rule, name, key.as_str(), value) {
            return false;
        }
    }
    true
}

fn key_passes(rule: Rule, name: &str, key: &str, value: &Value) -> bool
    ensures { result ≡ key_passes rule name.now key.now (view value.now) }
{
    passes(rule, kind_at(name, key), value)
}

fn passes(rule: Rule, kind: Option<Kind>, value: &Value) -> bool
    ensures { result ≡ passes rule (option_map kind_of kind) (view value.now) }
{
    match rule {
        Rule::Names => kind.is_some(),
        Rule::Kinds => is_of_kind(kind, value),
        Rule::Ranges => is_in_range(kind, value),
    }
}

fn kind_at(name: &str, key: &str) -> Option<Kind>
    ensures { option_map kind_of result ≡ kind_at name.now key.now }
{
    if is_region(name) {
        return region_kind(key);
    }
    if name == "farm" {
        return farm_kind(key);
    }
    None
}

fn is_region(name: &str) -> bool
    ensures { result ≡ is_region name.now }
{
    name == "home" || name == "west"
}

fn region_kind(key: &str) -> Option<Kind>
    ensures { option_map kind_of result ≡ region_kind key.now }
{
    if key == "weights" {
        return Some(Kind::Weights);
    }
    if key == "slots" {
        return Some(Kind::Number(SLOTS));
    }
    None
}

fn farm_kind(key: &str) -> Option<Kind>
    ensures { option_map kind_of result ≡ farm_kind key.now }
{
    if key == "epoch" {
        return Some(Kind::Number(EPOCH));
    }
    if key == "workers" {
        return Some(Kind::Number(WORKERS));
    }
    if key == "pace" {
        return Some(Kind::Number(PACE));
    }
    if key == "commit_delay" {
        return Some(Kind::Number(COMMIT_DELAY));
    }
    if key == "read_lag" {
        return Some(Kind::Number(READ_LAG));
    }
    if key == "skew" {
        return Some(Kind::Number(SKEW));
    }
    None
}

fn is_of_kind(kind: Option<Kind>, value: &Value) -> bool
    ensures { result ≡ is_of_kind (option_map kind_of kind) (view value.now) }
{
    match kind {
        Some(Kind::Number(_)) => is_whole_number(value),
        Some(Kind::Weights) => is_list_of_numbers(value),
        None => false,
    }
}

fn is_whole_number(value: &Value) -> bool
    ensures { result ≡ is_whole_number (view value.now) }
{
    value.as_integer().is_some()
}

fn is_list_of_numbers(value: &Value) -> bool
    ensures { result ≡ is_list_of_numbers (view value.now) }
{
    match value.as_array() {
        Some(items) => are_numbers(items),
        None => false,
    }
}

fn are_numbers(items: &[Value]) -> bool
    ensures { result ≡ all_items is_whole_number (items_view items.now) }
{
    for item in items {
        if !is_whole_number(item) {
            return false;
        }
    }
    true
}

fn is_in_range(kind: Option<Kind>, value: &Value) -> bool
    ensures { result ≡ is_in_range (option_map kind_of kind) (view value.now) }
{
    match kind {
        Some(Kind::Number(range)) => is_between(range.least, range.greatest, value),
        Some(Kind::Weights) => are_weights(value),
        None => false,
    }
}

fn is_between(least: u64, greatest: u64, value: &Value) -> bool
    ensures { result ≡ is_between least greatest (view value.now) }
{
    match value.as_integer() {
        Some(n) => lies_between(least, greatest, n),
        None => false,
    }
}

fn lies_between(least: u64, greatest: u64, n: i64) -> bool
    ensures { result ≡ lies_between least greatest n }
{
    if n < 0 {
        return false;
    }
    least <= n.cast_unsigned() && n.cast_unsigned() <= greatest
}

fn are_weights(value: &Value) -> bool
    ensures { result ≡ are_weights (view value.now) }
{
    match value.as_array() {
        Some(items) => are_allowed(items),
        None => false,
    }
}

#[tactic(auto, using(crate::proofs::Weights::counted))]
fn are_allowed(items: &[Value]) -> bool
    ensures { result ≡ are_allowed_weights (Some (items_view items.now)) }
{
    0 < items.len() && items.len() <= WEIGHTS_MAX && are_small(items)
}

fn are_small(items: &[Value]) -> bool
    ensures { result ≡ all_items is_weight (items_view items.now) }
{
    for item in items {
        if !is_between(0, WEIGHT_MAX, item) {
            return false;
        }
    }
    true
}
