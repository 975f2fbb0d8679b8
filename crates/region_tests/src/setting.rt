// Titles and entries for all tests of this crate.
use farm_base::Moment;
use replica_apply::{Entry, Replica};
use std::alloc::Global;
use std::test::Fail;
use wiki_titles::{ClientId, Text, Title, Token};

/// The title that is typed so.
pub fn title_of(alloc: Global, typed: &str) -> Result<Title, Fail> {
    Ok(Title::parse(alloc, typed)?)
}

/// A beat with this stamp.
pub fn beat(stamp: u64) -> Entry {
    Entry::Beat {
        stamp: Moment(stamp),
    }
}

/// A commit at one second: the title and the text are told.
pub fn commit(alloc: Global, title: &str, text: &str) -> Result<Entry, Fail> {
    Ok(Entry::Commit {
        stamp: Moment(1_000),
        purge: 0,
        title: Title::parse(alloc, title)?,
        revision: 1,
        client: ClientId::number(1),
        index: 1,
        token: Token::parse(alloc, "t1")?,
        base: 0,
        text: Text::parse(alloc, text)?,
    })
}

/// A replica that has applied commits of these titles and texts.
pub fn replica_of(alloc: Global, pages: &[(&str, &str)]) -> Result<Replica, Fail> {
    let mut replica = Replica::new(alloc);
    for (i, (title, text)) in pages.iter().enumerate() {
        let entry = commit(alloc, title, text)?;
        replica.apply(i as u64 + 1, &entry)?;
    }
    Ok(replica)
}
