// Finding commits in a list of entries, by going over it.
ghost use Rattle.std.specs.Prelude.{◌≡◌, ◌<◌, ◌-◌, map, count_by, slice_get};
ghost use Rattle.std.specs.Option.{option_copied};
ghost use Rattle.commit_feed.specs.AsModel.{entry_of};
ghost use Rattle.commit_feed.specs.Feed.{passes, last_number, first_number, number_passing};
ghost use Rattle.commit_feed.specs.Wanted.{test_of};

use crate::Entry;
use wiki_titles::{ClientId, Title, Token};

// The entry at a place counted from 1.
pub(crate) fn entry_at(entries: &[Entry], n: u64) -> Option<&Entry>
    requires { 0 < n }
    ensures { option_copied result ≡ slice_get entries.now (n - 1) }
{
    entries.get(n as usize - 1)
}

// Which commits are looked for.
#[derive(Clone, Copy, Drop)]
pub(crate) enum Wanted<'a> {
    // Those on the title.
    On(&'a Title),
    // Those of the client.
    By(&'a ClientId),
    // Those of the client with the token.
    Of(&'a ClientId, &'a Token),
}

// The number of the last commit that is looked for.
pub(crate) fn last_of(entries: &[Entry], wanted: Wanted<'_>) -> Option<u64>
    ensures { result ≡ last_number (test_of wanted.entry) 1 (map entry_of entries.now) }
{
    let mut last = None;
    for (i, entry) in entries.iter().enumerate() {
        if is_wanted(entry, wanted) {
            last = Some(i as u64 + 1);
        }
    }
    last
}

// The number of the first commit that is looked for.
#[tactic(auto, using(crate::proofs::Turns::first_here, crate::proofs::Turns::first_later))]
pub(crate) fn first_of(entries: &[Entry], wanted: Wanted<'_>) -> Option<u64>
    ensures { result ≡ first_number (test_of wanted.entry) 1 (map entry_of entries.now) }
{
    for (i, entry) in entries.iter().enumerate() {
        if is_wanted(entry, wanted) {
            return Some(i as u64 + 1);
        }
    }
    None
}

// How many commits are looked for.
pub(crate) fn count_of(entries: &[Entry], wanted: Wanted<'_>) -> u64
    ensures { result ≡ number_passing (test_of wanted.entry) 1 (map entry_of entries.now) }
{
    count_wanted(entries, wanted) as u64
}

// The same, as a test of each entry.
fn count_wanted(entries: &[Entry], wanted: Wanted<'_>) -> usize
    ensures { result ≡ count_by (λ entry. passes (test_of wanted.entry) (entry_of entry)) entries.now }
{
    entries
        .iter()
        .filter(|entry| is_wanted(entry, wanted))
        .count()
}

fn is_wanted(entry: &Entry, wanted: Wanted<'_>) -> bool
    ensures { result ≡ passes (test_of wanted.entry) (entry_of entry.now) }
{
    match entry {
        Entry::Beat { .. } => false,
        Entry::Commit {
            title,
            client,
            token,
            ..
        } => match wanted {
            Wanted::On(name) => title.text() == name.text(),
            Wanted::By(id) => client == id,
            Wanted::Of(id, mark) => client == id && token.text() == mark.text(),
        },
    }
}
