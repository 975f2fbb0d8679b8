// Keepers over a new database, the entries that may follow a history, and answers as text, for all tests.
ghost use Rattle.std.specs.Prelude.{◌≡◌, [], ◌∷◌, ◌++◌, length, IfSome};
ghost use Rattle.wiki_model.specs.History.{IsHistory, commits_on, entry_at, stamp_at};
ghost use Rattle.commit_feed.specs.AsModel.{entry_of};
ghost use Rattle.stored_tests.specs.Keeper.{revision_in};

use commit_feed::{Entry, Feed};
use farm_base::{MOMENT_MAX, Moment};
use revision_keeper::Keeper;
use sqlite::{Connection, MemStore};
use sqlite_keeper::SqliteKeeper;
use std::alloc::Global;
use std::test::Fail;
use wiki_titles::{ClientId, Text, Title, Token};

/// Who edits which page, and how.
#[derive(Drop)]
pub struct Edit {
    pub title: Title,
    pub client: ClientId,
    pub token: Token,
    pub purge: u64,
    pub text: Text,
}

/// An edit by the client with this number.
pub fn edit_of(
    alloc: Global,
    client: u64,
    token: &str,
    title: &str,
    purge: u64,
    text: &str,
) -> Result<Edit, Fail> {
    Ok(Edit {
        title: Title::parse(alloc, title)?,
        client: ClientId::number(client),
        token: Token::parse(alloc, token)?,
        purge,
        text: Text::parse(alloc, text)?,
    })
}

/// A keeper over a new database in memory, made ready.
pub fn new_keeper(alloc: Global) -> Result<SqliteKeeper<MemStore>, Fail> {
    started(alloc, Connection::open_in_memory(alloc)?)
}

/// A keeper over this database, made ready.
pub fn started(alloc: Global, conn: Connection<MemStore>) -> Result<SqliteKeeper<MemStore>, Fail> {
    let mut keeper = SqliteKeeper::new(alloc, Ok(conn));
    keeper.start()?;
    Ok(keeper)
}

/// A beat, so many milliseconds after the last entry; none after the greatest moment.
#[tactic(auto, using(crate::proofs::KeeperNext::beat_follows))]
pub fn next_beat(feed: &Feed, after: u32) -> Option<Entry>
    ensures { IfSome result (λ entry. IsHistory (feed.now ++ entry_of entry ∷ [])) }
{
    let stamp = Moment(last_stamp(feed).0.checked_add(u64::from(after))?);
    if MOMENT_MAX < stamp.0 {
        return None;
    }
    Some(Entry::Beat { stamp })
}

/// The edit as the client's next commit, so many milliseconds after the last entry; none if the token was used before.
#[tactic(auto, using(crate::proofs::KeeperNext::commit_follows))]
pub fn next_commit(feed: &Feed, after: u32, edit: Edit) -> Option<Entry>
    ensures { IfSome result (λ entry. IsHistory (feed.now ++ entry_of entry ∷ [])) }
{
    let stamp = Moment(last_stamp(feed).0.checked_add(u64::from(after))?);
    if MOMENT_MAX < stamp.0 || feed.by_token(&edit.client, &edit.token).is_some() {
        return None;
    }
    let revision = commits_of(feed, &edit.title).checked_add(1)?;
    let index = feed.writes_of(&edit.client).count.checked_add(1)?;
    Some(Entry::Commit {
        stamp,
        purge: edit.purge,
        title: edit.title,
        revision,
        client: edit.client,
        index,
        token: edit.token,
        base: revision - 1,
        text: edit.text,
    })
}

fn last_stamp(feed: &Feed) -> Moment
    ensures value { result ≡ stamp_at feed.now (length feed.now) }
    ensures history { IsHistory feed.now }
{
    match feed.entry(feed.len()) {
        Some(entry) => entry.stamp(),
        None => Moment(0),
    }
}

// How many commits the title has: the revision of the last, or 0.
#[tactic(auto, using(crate::proofs::KeeperNext::no_commits, crate::proofs::KeeperNext::last_commit))]
fn commits_of(feed: &Feed, title: &Title) -> u64
    ensures { result ≡ length (commits_on feed.now title.now) }
{
    match feed.latest(title, feed.len()) {
        Some(n) => revision_at(feed, n),
        None => 0,
    }
}

fn revision_at(feed: &Feed, n: u64) -> u64
    ensures { result ≡ revision_in (entry_at feed.now n) }
{
    match feed.entry(n) {
        Some(Entry::Commit { revision, .. }) => *revision,
        _ => 0,
    }
}

/// What is asked of a keeper: each entry up to one past `upto`, each title in each of these prefixes, each client with
/// each token, and what each client has written.
#[derive(Clone, Copy, Drop)]
pub struct Questions<'a> {
    pub upto: u64,
    pub titles: &'a [&'a str],
    pub clients: &'a [u64],
    pub tokens: &'a [&'a str],
}

/// All answers of a keeper to these questions, a line for each.
pub fn answers<K: Keeper>(
    alloc: Global,
    keeper: &mut K,
    asked: &Questions<'_>,
) -> Result<String, Fail> {
    let length = keeper.len()?;
    let mut made = format!(in alloc; "len {length}\n")?;
    push_entries(alloc, &mut made, keeper, asked)?;
    push_latest(alloc, &mut made, keeper, asked)?;
    push_clients(alloc, &mut made, keeper, asked)?;
    Ok(made)
}

fn push_entries<K: Keeper>(
    alloc: Global,
    made: &mut String,
    keeper: &mut K,
    asked: &Questions<'_>,
) -> Result<(), Fail> {
    for n in 0..asked.upto.saturating_add(2) {
        made.push_str(entry_line(alloc, keeper, n)?.as_str())?;
    }
    Ok(())
}

fn push_latest<K: Keeper>(
    alloc: Global,
    made: &mut String,
    keeper: &mut K,
    asked: &Questions<'_>,
) -> Result<(), Fail> {
    for title in asked.titles {
        for upto in 0..asked.upto.saturating_add(2) {
            made.push_str(latest_line(alloc, keeper, title, upto)?.as_str())?;
        }
    }
    Ok(())
}

fn push_clients<K: Keeper>(
    alloc: Global,
    made: &mut String,
    keeper: &mut K,
    asked: &Questions<'_>,
) -> Result<(), Fail> {
    for client in asked.clients {
        for token in asked.tokens {
            made.push_str(token_line(alloc, keeper, *client, token)?.as_str())?;
        }
        made.push_str(writes_line(alloc, keeper, *client)?.as_str())?;
    }
    Ok(())
}

fn entry_line<K: Keeper>(alloc: Global, keeper: &mut K, n: u64) -> Result<String, Fail> {
    let found = keeper.entry(n)?;
    let text = entry_text(alloc, &found)?;
    Ok(format!(in alloc; "entry {n}: {text}\n")?)
}

/// An entry as a line of answers has it.
pub fn entry_text(alloc: Global, found: &Option<Entry>) -> Result<String, Fail> {
    match found {
        None => Ok(String::from_str(alloc, "none")?),
        Some(Entry::Beat { stamp }) => {
            let at = stamp.0;
            Ok(format!(in alloc; "beat at {at}")?)
        }
        Some(
            Entry::Commit {
                stamp,
                purge,
                title,
                revision,
                client,
                index,
                token,
                base,
                text,
            },
        ) => {
            let at = stamp.0;
            let digits = client.digits();
            let client = std::str::from_utf8(&digits)?;
            let page = format!(in alloc; "{} revision {revision} from {base}", title.text())?;
            let edit = format!(in alloc; "client {client} index {index} token {}", token.text())?;
            Ok(format!(in alloc; "{page}, {edit}, purge {purge} at {at}: {}", text.text())?)
        }
    }
}

fn latest_line<K: Keeper>(
    alloc: Global,
    keeper: &mut K,
    title: &str,
    upto: u64,
) -> Result<String, Fail> {
    let found = keeper.latest(&Title::parse(alloc, title)?, upto)?;
    let number = number_text(alloc, found)?;
    Ok(format!(in alloc; "latest {title} in {upto}: {number}\n")?)
}

fn token_line<K: Keeper>(
    alloc: Global,
    keeper: &mut K,
    client: u64,
    token: &str,
) -> Result<String, Fail> {
    let found = keeper.by_token(&ClientId::number(client), &Token::parse(alloc, token)?)?;
    let number = number_text(alloc, found)?;
    Ok(format!(in alloc; "client {client} token {token}: {number}\n")?)
}

/// A number as a line of answers has it.
pub fn number_text(alloc: Global, found: Option<u64>) -> Result<String, Fail> {
    match found {
        Some(n) => Ok(format!(in alloc; "{n}")?),
        None => Ok(String::from_str(alloc, "none")?),
    }
}

fn writes_line<K: Keeper>(alloc: Global, keeper: &mut K, client: u64) -> Result<String, Fail> {
    let writes = keeper.writes_of(&ClientId::number(client))?;
    let (count, last, at) = (writes.count, writes.last, writes.stamp.0);
    Ok(format!(in alloc; "client {client} wrote {count}, last {last} at {at}\n")?)
}
