// Gives a key a row with the newest use, for which the key of the oldest use may have to go.
ghost use Rattle.std.specs.Prelude.{◌≡◌, ◌≢◌, ◌⊎◌, ◌+◌, ◌<◌, ◌≤◌, ℕ, List, None, Some, IsSome, IfNone, IfSome, IfOk, OnOk, OnErr, is_ok, if◌then◌else◌};
ghost use Rattle.std.specs.BTreeMap.{btree_map_len};
ghost use Rattle.wan_cache.specs.CacheRow.{IsRenewed, Goes, floor_under};
ghost use Rattle.wan_cache.specs.RecentUses.{key_in, HasSameUses, AddsUse, ForgetsUse, IsFirstUse, HasNoUse, IsInOrder};
ghost use Rattle.wan_cache.specs.MapCache.{row_at, used_at, Claims, MakesRoom};

use crate::cache_row::CacheRow;
use crate::recent_uses::RecentUses;
use std::alloc::AllocError;
use std::collections::BTreeMap;
use wiki_model::Moment;
use wiki_titles::Title;

/// Gives the key the newest use, with an empty row if it has none. If there is no room for that, the key goes
/// whose use is oldest; its floor is the answer, and 0 if none goes. A refusal leaves the rows as they were.
pub(crate) fn claim<P: Drop>(
    rows: &mut BTreeMap<Title, CacheRow<P>>,
    uses: &mut RecentUses,
    key: &Title,
    capacity: usize,
) -> Result<Moment, AllocError>
    requires known { IsInOrder (used_at rows.old) (key_in uses.old.keys) }
    requires room { 0 < capacity }
    requires fits { btree_map_len rows.old ≤ capacity }
    ensures known { IsInOrder (used_at rows.new) (key_in uses.new.keys) }
    ensures fits { btree_map_len rows.new ≤ capacity }
    ensures ok { IfOk result (λ gone. Claims (row_at rows.old) (row_at rows.new) key.now uses.old.next gone) }
    ensures oldest { let count = btree_map_len rows.old in
        OnOk result (MakesRoom (used_at rows.old) (used_at rows.new) key.now count capacity) }
    ensures err { OnErr result (rows.new.entries ≡ rows.old.entries) }
{
    match last_use(rows, key) {
        Some(before) => {
            claim_old(rows, uses, key, before)?;
            Ok(Moment(0))
        }
        None => claim_new(rows, uses, key, capacity),
    }
}

// The number of the key's last use.
fn last_use<P>(rows: &BTreeMap<Title, CacheRow<P>>, key: &Title) -> Option<u64>
    ensures { result ≡ used_at rows.now key.now }
{
    match rows.get(key) {
        Some(row) => Some(row.used),
        None => None,
    }
}

// Makes the use of a kept key the newest.
fn claim_old<P: Drop>(
    rows: &mut BTreeMap<Title, CacheRow<P>>,
    uses: &mut RecentUses,
    key: &Title,
    before: u64,
) -> Result<(), AllocError>
    requires known { IsInOrder (used_at rows.old) (key_in uses.old.keys) }
    requires there { used_at rows.old key.now ≡ Some before }
    ensures known { IsInOrder (used_at rows.new) (key_in uses.new.keys) }
    ensures len { btree_map_len rows.new ≡ btree_map_len rows.old }
    ensures ok { OnOk result (Claims (row_at rows.old) (row_at rows.new) key.now uses.old.next 0) }
    ensures oldest { let uses = used_at rows.old in
        let new_uses = used_at rows.new in
        OnOk result ((count capacity : ℕ) → MakesRoom uses new_uses key.now count capacity) }
    ensures err { OnErr result (rows.new.entries ≡ rows.old.entries) }
{
    let used = uses.claim(key)?;
    uses.forget(before);
    renew(rows, key, used);
    Ok(())
}

// Gives the key's row this use.
#[tactic(auto, using(crate::proofs::Keys::found_other))]
fn renew<P: Drop>(rows: &mut BTreeMap<Title, CacheRow<P>>, key: &Title, used: u64)
    requires there { IsSome (used_at rows.old key.now) }
    ensures len { btree_map_len rows.new ≡ btree_map_len rows.old }
    ensures key { IsRenewed (row_at rows.old key.now) (row_at rows.new key.now) used }
    ensures others { (q : List ℕ) → q ≢ key.now → row_at rows.new q ≡ row_at rows.old q }
{
    if let Some(row) = rows.get_mut(key) {
        row.used = used;
    }
}

// Gives a new key an empty row with the newest use. If there is no room, the key goes whose use is oldest.
fn claim_new<P: Drop>(
    rows: &mut BTreeMap<Title, CacheRow<P>>,
    uses: &mut RecentUses,
    key: &Title,
    capacity: usize,
) -> Result<Moment, AllocError>
    requires known { IsInOrder (used_at rows.old) (key_in uses.old.keys) }
    requires absent { used_at rows.old key.now ≡ None }
    requires room { 0 < capacity }
    requires fits { btree_map_len rows.old ≤ capacity }
    ensures known { IsInOrder (used_at rows.new) (key_in uses.new.keys) }
    ensures fits { btree_map_len rows.new ≤ capacity }
    ensures ok { IfOk result (λ gone. Claims (row_at rows.old) (row_at rows.new) key.now uses.old.next gone) }
    ensures oldest { let count = btree_map_len rows.old in
        OnOk result (MakesRoom (used_at rows.old) (used_at rows.new) key.now count capacity) }
    ensures err { OnErr result (rows.new.entries ≡ rows.old.entries) }
{
    let first = victim(uses, rows.len(), capacity);
    add(rows, uses, key)?;
    match first {
        Some(number) => Ok(evict(rows, uses, number)),
        None => Ok(Moment(0)),
    }
}

// The use that has to go for another key, if this many keys are kept.
fn victim(uses: &RecentUses, count: usize, capacity: usize) -> Option<u64>
    ensures first { IfSome result (λ number. IsFirstUse uses.now.keys number) }
    ensures there { IfSome result (λ number. IsSome (key_in uses.now.keys number)) }
    ensures full { IfSome result (λ number. capacity ≤ count) }
    ensures none { IfNone result ((count < capacity) ⊎ HasNoUse uses.now.keys) }
{
    if count < capacity {
        None
    } else {
        uses.oldest()
    }
}

// Adds an empty row with the newest use, or nothing.
#[tactic(auto, using(crate::proofs::Keys::found_other))]
fn add<P: Drop>(
    rows: &mut BTreeMap<Title, CacheRow<P>>,
    uses: &mut RecentUses,
    key: &Title,
) -> Result<(), AllocError>
    requires absent { used_at rows.old key.now ≡ None }
    ensures len { btree_map_len rows.new ≡ btree_map_len rows.old + (if is_ok result then 1 else 0) }
    ensures key { OnOk result (IsRenewed (row_at rows.old key.now) (row_at rows.new key.now) uses.old.next) }
    ensures others { (q : List ℕ) → q ≢ key.now → row_at rows.new q ≡ row_at rows.old q }
    ensures uses { OnOk result (AddsUse uses.old uses.new key.now) }
    ensures err { OnErr result (rows.new.entries ≡ rows.old.entries) }
    ensures err_uses { OnErr result (HasSameUses uses.old.keys uses.new.keys) }
{
    let title = key.clone()?;
    let used = uses.claim(key)?;
    match rows.insert(title, CacheRow::new(used)) {
        Ok(_) => {}
        Err(_) => {
            uses.forget(used);
            return Err(AllocError);
        }
    }
    Ok(())
}

// Lets the key go that has this use, and answers its floor.
#[tactic(auto, using(crate::proofs::Keys::found_other))]
fn evict<P: Drop>(
    rows: &mut BTreeMap<Title, CacheRow<P>>,
    uses: &mut RecentUses,
    number: u64,
) -> Moment
    ensures rows { Goes (row_at rows.old) (row_at rows.new) (key_in uses.old.keys number) }
    ensures floor { result ≡ floor_under (row_at rows.old) (key_in uses.old.keys number) }
    ensures len { (key : List ℕ) → key_in uses.old.keys number ≡ Some key → IsSome (used_at rows.old key)
        → btree_map_len rows.new + 1 ≡ btree_map_len rows.old }
    ensures uses { ForgetsUse uses.old uses.new number }
{
    match uses.forget(number) {
        Some(title) => match rows.remove(&title) {
            Some(row) => row.floor,
            None => Moment(0),
        },
        None => Moment(0),
    }
}
