// Edits, and the entries that may follow a history, for all tests of this crate.
ghost use Rattle.std.specs.Prelude.{◌≡◌, [], ◌∷◌, ◌++◌, length, IfSome};
ghost use Rattle.wiki_model.specs.History.{IsHistory, commits_on, entry_at, stamp_at};
ghost use Rattle.base_tests.specs.Keeper.{revision_in};
ghost use Rattle.commit_feed.specs.AsModel.{entry_of};

use commit_feed::{Entry, Feed, Writes};
use farm_base::{MOMENT_MAX, Moment};
use std::alloc::Global;
use std::test::Fail;
use wiki_titles::{ClientId, Text, Title, Token};

/// What a client has written whose one commit is entry 2, at two seconds.
pub const ONE_COMMIT: Writes = Writes {
    count: 1,
    last: 2,
    stamp: Moment(2_000),
};

/// What a client has written that has no commit.
pub const NO_COMMITS: Writes = Writes {
    count: 0,
    last: 0,
    stamp: Moment(0),
};

/// Who edits which page, and the token.
#[derive(Drop)]
pub struct Edit {
    pub title: Title,
    pub client: ClientId,
    pub token: Token,
    pub text: Text,
}

/// An edit of the page with this number by the client with this number; the text is `text`.
pub fn edit_of(alloc: Global, page: u32, client: u32, token: u32) -> Result<Edit, Fail> {
    let title = format!(in alloc; "Page {page}")?;
    let sign = format!(in alloc; "t{token}")?;
    Ok(Edit {
        title: Title::parse(alloc, title.as_str())?,
        client: ClientId::number(u64::from(client)),
        token: Token::parse(alloc, sign.as_str())?,
        text: Text::parse(alloc, "text")?,
    })
}

/// A beat, so many milliseconds after the last entry; none after the greatest moment.
#[tactic(auto, using(crate::proofs::KeeperNext::beat_follows))]
pub fn next_beat(feed: &Feed, after: u32) -> Option<Entry>
    ensures { IfSome result (λ entry. IsHistory (feed.now ++ entry_of entry ∷ [])) }
{
    let stamp = Moment(last_stamp(feed).0.checked_add(u64::from(after))?);
    if MOMENT_MAX < stamp.0 {
        return None;
    }
    Some(Entry::Beat { stamp })
}

/// The edit as the client's next commit, so many milliseconds after the last entry; none if the
/// token was used before.
#[tactic(auto, using(crate::proofs::KeeperNext::commit_follows))]
pub fn next_commit(feed: &Feed, after: u32, edit: Edit) -> Option<Entry>
    ensures { IfSome result (λ entry. IsHistory (feed.now ++ entry_of entry ∷ [])) }
{
    let stamp = Moment(last_stamp(feed).0.checked_add(u64::from(after))?);
    if MOMENT_MAX < stamp.0 || feed.by_token(&edit.client, &edit.token).is_some() {
        return None;
    }
    let revision = commits_of(feed, &edit.title).checked_add(1)?;
    let index = feed.writes_of(&edit.client).count.checked_add(1)?;
    Some(Entry::Commit {
        stamp,
        purge: 1,
        title: edit.title,
        revision,
        client: edit.client,
        index,
        token: edit.token,
        base: revision - 1,
        text: edit.text,
    })
}

/// Whether the entry is the first commit of its title and of its client.
pub fn is_first_commit(entry: Option<&Entry>) -> bool {
    let Some(
        Entry::Commit {
            revision,
            index,
            ..
        },
    ) = entry
    else {
        return false;
    };
    *revision == 1 && *index == 1
}

fn last_stamp(feed: &Feed) -> Moment
    ensures value { result ≡ stamp_at feed.now (length feed.now) }
    ensures history { IsHistory feed.now }
{
    match feed.entry(feed.len()) {
        Some(entry) => entry.stamp(),
        None => Moment(0),
    }
}

// How many commits the title has: the revision of the last, or 0.
#[tactic(auto, using(crate::proofs::KeeperNext::no_commits, crate::proofs::KeeperNext::last_commit))]
fn commits_of(feed: &Feed, title: &Title) -> u64
    ensures { result ≡ length (commits_on feed.now title.now) }
{
    match feed.latest(title, feed.len()) {
        Some(n) => revision_at(feed, n),
        None => 0,
    }
}

fn revision_at(feed: &Feed, n: u64) -> u64
    ensures { result ≡ revision_in (entry_at feed.now n) }
{
    match feed.entry(n) {
        Some(Entry::Commit { revision, .. }) => *revision,
        _ => 0,
    }
}
