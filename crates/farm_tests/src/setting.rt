// What must hold, and titles, edits and entries for all tests of this crate.
ghost use Rattle.std.specs.Prelude.{◌≡◌, length, IfOk};

use commit_feed::Entry;
use edit_core::EditAsk;
use farm_base::{Listed, Moment};
use region_state::RegionPlan;
use std::alloc::Global;
use std::test::Fail;
use wiki_titles::{ClientId, Text, Title, Token};

/// Fails with these words where it does not hold.
pub fn must(holds: bool, words: &str) -> Result<(), Fail> {
    if holds { Ok(()) } else { Err(Fail::new(words)) }
}

/// The title that is typed so.
pub fn title_of(alloc: Global, typed: &str) -> Result<Title, Fail> {
    Ok(Title::parse(alloc, typed)?)
}

/// An edit of the page `A`, made from this revision.
pub fn edit_of(
    alloc: Global,
    client: u64,
    token: &str,
    base: u64,
    text: &str,
) -> Result<EditAsk, Fail> {
    Ok(EditAsk {
        client: ClientId::number(client),
        token: Token::parse(alloc, token)?,
        title: Title::parse(alloc, "A")?,
        base,
        text: Text::parse(alloc, text)?,
    })
}

/// The first commit of client 1, on the page `A`, at this stamp.
pub fn first_commit(alloc: Global, stamp: u64, text: &str) -> Result<Entry, Fail> {
    Ok(Entry::Commit {
        stamp: Moment(stamp),
        purge: 1,
        title: Title::parse(alloc, "A")?,
        revision: 1,
        client: ClientId::number(1),
        index: 1,
        token: Token::parse(alloc, "t1")?,
        base: 0,
        text: Text::parse(alloc, text)?,
    })
}

/// A beat with this stamp.
pub fn beat(stamp: u64) -> Entry {
    Entry::Beat {
        stamp: Moment(stamp),
    }
}

/// A region of two replicas of equal weight.
pub fn two_replicas(alloc: Global) -> Result<RegionPlan, Fail>
    ensures { IfOk result (λ plan. length plan.weights ≡ 2) }
{
    Ok(RegionPlan {
        weights: Listed::new([1u16, 1].to_vec(alloc)?),
        slots: 16,
    })
}
