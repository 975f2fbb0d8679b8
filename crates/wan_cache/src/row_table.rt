// The rows of a cache by key: put a value, purge a key.
ghost use Rattle.std.specs.Prelude.{◌≡◌, ◌≢◌, ℕ, List, IsSome, OnOk, OnErr, ◌<◌, ◌≤◌};
ghost use Rattle.std.specs.BTreeMap.{btree_map_len};
ghost use Rattle.wan_value.specs.AsModel.{value_of};
ghost use Rattle.wan_cache.specs.CacheRow.{StoresAt, RaisesAt, DropsMain};
ghost use Rattle.wan_cache.specs.MapCache.{row_at};
ghost use Rattle.wan_cache.specs.RowTable.{IsTableOf, MakesRoomIn, UsesIn, PutsIn, PurgesIn};

use crate::cache_row::CacheRow;
use crate::claim_row::claim;
use crate::recent_uses::RecentUses;
use std::alloc::AllocError;
use std::collections::BTreeMap;
use wan_value::Value;
use wiki_model::{Moment, Put};
use wiki_titles::Title;

/// A row for each kept key, and the order in which the keys were last used.
#[derive(Drop)]
pub(crate) struct RowTable<P> {
    pub(crate) rows: BTreeMap<Title, CacheRow<P>>,
    /// It has each key of `rows` once.
    pub(crate) uses: RecentUses,
    /// How many keys may be kept, at least 1.
    pub(crate) capacity: usize,
    /// No key's floor is below this, also that of a key without a row.
    pub(crate) base: Moment,
}

impl<P: Drop> RowTable<P> {
    /// Puts a value, with the newest use for its key. Nothing has changed if memory is refused.
    pub(crate) fn put_value(&mut self, key: &Title, check: Moment, value: Value<P>) -> Put
        requires known { IsTableOf self.old }
        ensures known { IsTableOf self.new }
        ensures does { PutsIn self.old self.new key.now check (value_of value) result }
        ensures oldest { result ≢ Put.Memory → MakesRoomIn self.old self.new key.now }
        ensures capacity { self.new.capacity ≡ self.old.capacity }
    {
        match self.make_newest(key, value.set_at) {
            Ok(()) => store_at(&mut self.rows, key, self.base, check, value),
            Err(_) => Put::Memory,
        }
    }

    /// Purges a key, with the newest use for it; if memory is refused, it holds off all keys. It is called at
    /// `now`, and the floor is `until`.
    pub(crate) fn purge_key(&mut self, key: &Title, now: Moment, until: Moment)
        requires known { IsTableOf self.old }
        ensures known { IsTableOf self.new }
        ensures does { PurgesIn self.old self.new key.now now until }
        ensures capacity { self.new.capacity ≡ self.old.capacity }
    {
        match self.make_newest(key, now) {
            Ok(()) => raise_at(&mut self.rows, key, until),
            Err(_) => {
                drop_main_at(&mut self.rows, key);
                self.base = self.base.later(until);
            }
        }
    }

    // Gives the key the newest use. If that let a key go whose floor is still to come, the floor under all keys
    // is raised to it.
    fn make_newest(&mut self, key: &Title, now: Moment) -> Result<(), AllocError>
        requires known { IsTableOf self.old }
        ensures known { IsTableOf self.new }
        ensures used { OnOk result (UsesIn self.old self.new key.now now) }
        ensures oldest { OnOk result (MakesRoomIn self.old self.new key.now) }
        ensures capacity { self.new.capacity ≡ self.old.capacity }
        ensures err { OnErr result (self.new.rows.entries ≡ self.old.rows.entries) }
        ensures err_base { OnErr result (self.new.base ≡ self.old.base) }
    {
        let gone = claim(&mut self.rows, &mut self.uses, key, self.capacity)?;
        if now < gone {
            self.base = self.base.later(gone);
        }
        Ok(())
    }
}

// Puts the value into the key's row.
#[tactic(auto, using(crate::proofs::Keys::found_other))]
fn store_at<P: Drop>(
    rows: &mut BTreeMap<Title, CacheRow<P>>,
    key: &Title,
    base: Moment,
    check: Moment,
    value: Value<P>,
) -> Put
    requires { IsSome (row_at rows.old key.now) }
    ensures key { StoresAt (row_at rows.old key.now) (row_at rows.new key.now) base check (value_of value) result }
    ensures others { (q : List ℕ) → q ≢ key.now → row_at rows.new q ≡ row_at rows.old q }
    ensures len { btree_map_len rows.new ≡ btree_map_len rows.old }
{
    match rows.get_mut(key) {
        Some(row) => row.store(base, check, value),
        None => Put::Memory,
    }
}

// Raises the floor of the key's row, and drops its main value.
#[tactic(auto, using(crate::proofs::Keys::found_other))]
fn raise_at<P: Drop>(rows: &mut BTreeMap<Title, CacheRow<P>>, key: &Title, until: Moment)
    requires { IsSome (row_at rows.old key.now) }
    ensures key { RaisesAt (row_at rows.old key.now) (row_at rows.new key.now) until }
    ensures others { (q : List ℕ) → q ≢ key.now → row_at rows.new q ≡ row_at rows.old q }
    ensures len { btree_map_len rows.new ≡ btree_map_len rows.old }
{
    if let Some(row) = rows.get_mut(key) {
        row.raise(until);
    }
}

// Drops the key's main value, if it has one.
#[tactic(auto, using(crate::proofs::Keys::found_other))]
fn drop_main_at<P: Drop>(rows: &mut BTreeMap<Title, CacheRow<P>>, key: &Title)
    ensures key { DropsMain (row_at rows.old key.now) (row_at rows.new key.now) }
    ensures others { (q : List ℕ) → q ≢ key.now → row_at rows.new q ≡ row_at rows.old q }
    ensures len { btree_map_len rows.new ≡ btree_map_len rows.old }
{
    if let Some(row) = rows.get_mut(key) {
        row.main = None;
    }
}
