// The numbers of each title's commits.
ghost use Rattle.std.specs.Prelude.{◌≡◌, ℕ, ◌-◌, List, [], take, length, if◌then◌else◌, bytes_eq, OnOk, OnErr, IsSome};
ghost use Rattle.std.specs.BTreeMap.{get};
ghost use Rattle.wiki_titles.specs.Order.{bytes_cmp};
ghost use Rattle.wiki_model.specs.Titles.{Title as TitleText};
ghost use Rattle.revision_keeper.specs.Indexes.{RiseFrom, last_up_to, numbers_on, AreSameNumbers, AddsNumber, DropsNumber};

use crate::entry_numbers::EntryNumbers;
use std::alloc::{AllocError, Global};
use std::collections::BTreeMap;
use wiki_titles::Title;

/// The numbers of each title's commits. A title without commits may have an empty row.
#[derive(Debug, Drop)]
pub struct TitleIndex {
    rows: BTreeMap<Title, EntryNumbers>,
}

impl TitleIndex {
    /// No title yet. It takes no memory.
    pub fn new(alloc: Global) -> Self
        ensures { (title : TitleText) → numbers_on result title ≡ [] }
    {
        TitleIndex {
            rows: BTreeMap::new(alloc),
        }
    }

    /// The last of the title's numbers that is at most the bound.
    pub fn latest(&self, title: &Title, bound: u64) -> Option<u64>
        requires { RiseFrom 1 (numbers_on self.now title.now) }
        ensures { result ≡ last_up_to bound (numbers_on self.now title.now) }
    {
        match self.rows.get(title) {
            Some(numbers) => numbers.last_up_to(bound),
            None => None,
        }
    }

    /// Makes a row for the title if it has none. If memory is refused nothing has changed.
    pub fn open(&mut self, alloc: Global, title: &Title) -> Result<(), AllocError>
        ensures same { AreSameNumbers self.old self.new }
        ensures open { OnOk result (IsSome (get bytes_cmp self.new.rows title.now)) }
    {
        if !self.rows.contains_key(title) {
            self.rows.insert(title.clone()?, EntryNumbers::new(alloc))?;
        }
        Ok(())
    }

    /// Adds a number at the end of the title's row. If memory is refused nothing has changed.
    pub fn push(&mut self, title: &Title, number: u64) -> Result<(), AllocError>
        requires { IsSome (get bytes_cmp self.old.rows title.now) }
        ensures ok { OnOk result (AddsNumber self.old self.new title.now number) }
        ensures err { OnErr result (AreSameNumbers self.old self.new) }
    {
        match self.rows.get_mut(title) {
            Some(numbers) => numbers.push(number),
            None => Ok(()),
        }
    }

    /// Takes the last number of the title away.
    pub fn pop(&mut self, title: &Title)
        ensures { DropsNumber self.old self.new title.now }
    {
        if let Some(numbers) = self.rows.get_mut(title) {
            numbers.pop();
        }
    }
}
