// The values of a document that keeps all ranges: its numbers fit their fields, so each cast is exact.
ghost use Rattle.std.specs.Prelude.{◌≡◌, ◌≤◌, ◌<◌, IfOk, IfSome, Some, None, length, codes, true};
ghost use Rattle.toml.specs.Data.{get_member};
ghost use Rattle.toml.specs.View.{view, table_view, items_view};
ghost use Rattle.wiki_model.specs.Limits.{replicas_max};
ghost use Rattle.wiki_layout.specs.Layout.{value_at, natural, number_of, numbers_of_items, numbers_of, number_or, weights_or_one, weights_at, keeps, kind_at, Number, Weights, is_weight, are_weights, all_items};
ghost use Rattle.wiki_layout.specs.AsModel.{data_of};

use crate::rules::{Range, Rule};
use farm_base::{Listed, Memory};
use std::alloc::Global;
use toml::{Table, Value};

/// The number at a key of a table, or the range's default if it is absent.
pub(crate) fn number_at(document: &Table, name: &str, key: &str, range: Range) -> u64
    requires kept { keeps Rule.Ranges (table_view document.now) ≡ true }
    requires kind { kind_at name.now key.now ≡ Some (Number range.least range.greatest) }
    requires least { range.least ≤ range.default }
    requires greatest { range.default ≤ range.greatest }
    ensures value { result ≡ number_or range.default (value_at name.now key.now (table_view document.now)) }
    ensures least { range.least ≤ result }
    ensures greatest { result ≤ range.greatest }
{
    number_or(range.default, value_at(document, name, key))
}

fn value_at<'a>(document: &'a Table, name: &str, key: &str) -> Option<&'a Value>
    ensures { data_of result ≡ value_at name.now key.now (table_view document.now) }
{
    match at_key(document, name) {
        Some(value) => value.get(key),
        None => None,
    }
}

fn at_key<'a>(table: &'a Table, key: &str) -> Option<&'a Value>
    ensures { data_of result ≡ get_member key.now (table_view table.now) }
{
    table.get(key)
}

fn number_or(default: u64, value: Option<&Value>) -> u64
    ensures { result ≡ number_or default (data_of value.entry) }
{
    match value {
        Some(value) => number_of(value),
        None => default,
    }
}

fn number_of(value: &Value) -> u64
    ensures { result ≡ number_of (view value.now) }
{
    match value.as_integer() {
        Some(n) => natural(n),
        None => 0,
    }
}

fn natural(n: i64) -> u64
    ensures { result ≡ natural n }
{
    if n < 0 { 0 } else { n.cast_unsigned() }
}

/// The weights of a region, or a single 1 if there are none.
pub(crate) fn weights_at(alloc: Global, document: &Table, name: &str) -> Result<Listed<u16>, Memory>
    requires kept { keeps Rule.Ranges (table_view document.now) ≡ true }
    requires kind { kind_at name.now (codes "weights") ≡ Some Weights }
    ensures value { IfOk result (λ w. w ≡ weights_at name.now (table_view document.now)) }
    ensures some { IfOk result (λ w. 0 < length w) }
    ensures few { IfOk result (λ w. length w ≤ replicas_max) }
{
    let weights = weights_or_one(alloc, value_at(document, name, "weights"))?;
    Ok(Listed::new(weights))
}

fn weights_or_one(alloc: Global, value: Option<&Value>) -> Result<Vec<u16>, Memory>
    requires { IfSome (data_of value) (λ v. are_weights v ≡ true) }
    ensures { IfOk result (λ w. w.items ≡ weights_or_one (data_of value.entry)) }
{
    match value {
        Some(value) => weights_of(alloc, value),
        None => one_replica(alloc),
    }
}

fn one_replica(alloc: Global) -> Result<Vec<u16>, Memory>
    ensures { IfOk result (λ w. w.items ≡ weights_or_one None) }
{
    let mut weights = Vec::new(alloc);
    weights.push(1)?;
    Ok(weights)
}

fn weights_of(alloc: Global, value: &Value) -> Result<Vec<u16>, Memory>
    requires { are_weights (view value.now) ≡ true }
    ensures { IfOk result (λ w. w.items ≡ numbers_of (view value.now)) }
{
    match value.as_array() {
        Some(items) => weights_of_items(alloc, items),
        None => Ok(Vec::new(alloc)),
    }
}

fn weights_of_items(alloc: Global, items: &[Value]) -> Result<Vec<u16>, Memory>
    requires { all_items is_weight (items_view items.now) ≡ true }
    ensures { IfOk result (λ w. w.items ≡ numbers_of_items (items_view items.now)) }
{
    let mut weights = Vec::new(alloc);
    for item in items {
        weights.push(weight_of(item))?;
    }
    Ok(weights)
}

fn weight_of(value: &Value) -> u16
    requires { is_weight (view value.now) ≡ true }
    ensures { result ≡ number_of (view value.now) }
{
    number_of(value) as u16
}
