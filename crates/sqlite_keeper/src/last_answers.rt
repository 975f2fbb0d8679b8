// What was answered last. An edit asks the same before it begins and when it is committed, and each replica asks for
// the entry that was appended last, so that the database need be asked once.
ghost use Rattle.std.specs.Prelude.{◌≡◌, Some, None, IfOk, IfSome, option_map};
ghost use Rattle.commit_feed.specs.AsModel.{entry_of};
ghost use Rattle.revision_keeper.specs.Bounds.{IsSmall};
ghost use Rattle.sqlite_keeper.specs.LastAnswers.{IsRenewed};

use crate::rows::checked_entry;
use crate::table_fault::TableFault;
use commit_feed::{Entry, Writes};
use wiki_titles::{ClientId, Title, Token};

/// The last answer of each kind.
///
/// The tables have one writer, so an answer stands: that on an entry for ever, and those on a title, a client's token
/// and a client until a commit of the same is appended, whose answers then take their place. After an append that
/// failed nothing is remembered. What is answered again is tested as if it had been read of a row.
#[derive(Drop)]
pub(crate) struct LastAnswers {
    entry: Option<KnownEntry>,
    title: Option<KnownTitle>,
    token: Option<KnownToken>,
    writes: Option<KnownWrites>,
}

/// The entry of this number.
#[derive(Drop)]
struct KnownEntry {
    n: u64,
    entry: Entry,
}

/// The last commit on a title; None if it has none.
#[derive(Drop)]
struct KnownTitle {
    title: Title,
    last: Option<LastCommit>,
}

/// The last commit on a title, as the columns have it.
#[derive(Clone, Copy, Debug, PartialEq, Eq)]
pub(crate) struct LastCommit {
    /// The row of the title.
    pub title: i64,
    /// The number of the commit's entry.
    pub n: i64,
    pub revision: i64,
}

/// The number of a client's commit with a token; None if there is none.
#[derive(Drop)]
struct KnownToken {
    client: ClientId,
    token: Token,
    n: Option<u64>,
}

/// What a client has committed.
#[derive(Drop)]
struct KnownWrites {
    client: ClientId,
    writes: Writes,
}

impl LastAnswers {
    pub(crate) fn new() -> Self
        ensures { result ≡ record { entry = None; title = None; token = None; writes = None } }
    {
        LastAnswers {
            entry: None,
            title: None,
            token: None,
            writes: None,
        }
    }

    /// Entry `n`, if it is remembered.
    pub(crate) fn entry(&self, n: u64) -> Result<Option<Entry>, TableFault>
        ensures small { IfOk result (λ found. IfSome (option_map entry_of found) IsSmall) }
        ensures known { IfOk result (λ found. IfSome found (λ e. self.now.entry ≡ Some (record { n = n; entry = e }))) }
    {
        match &self.entry {
            Some(known) if known.n == n => Ok(Some(checked_entry(known.entry.clone()?)?)),
            _ => Ok(None),
        }
    }

    /// The last commit on the title, or that it has none; None if neither is remembered.
    pub(crate) fn last_on(&self, title: &Title) -> Option<Option<LastCommit>>
        ensures { IfSome result (λ last. self.now.title ≡ Some (record { title = title.now; last = last })) }
    {
        match &self.title {
            Some(known) if known.title == *title => Some(known.last),
            _ => None,
        }
    }

    /// The number of the client's commit with the token, or that there is none; None if neither is remembered.
    pub(crate) fn by_token(&self, client: &ClientId, token: &Token) -> Option<Option<u64>>
        ensures { IfSome result (λ n.
            self.now.token ≡ Some (record { client = client.now; token = token.now; n = n })) }
    {
        match &self.token {
            Some(known) if known.client == *client && known.token.text() == token.text() => Some(
                known.n,
            ),
            _ => None,
        }
    }

    /// What the client has committed, if it is remembered.
    pub(crate) fn writes_of(&self, client: &ClientId) -> Option<Writes>
        ensures { IfSome result (λ writes. self.now.writes ≡ Some (record { client = client.now; writes = writes })) }
    {
        match &self.writes {
            Some(known) if known.client == *client => Some(known.writes),
            _ => None,
        }
    }

    /// Remembers entry `n`.
    pub(crate) fn keep_entry(&mut self, n: u64, entry: Entry)
        ensures entry { self.new.entry ≡ Some (record { n = n; entry = entry }) }
        ensures title { self.new.title ≡ self.old.title }
        ensures token { self.new.token ≡ self.old.token }
        ensures writes { self.new.writes ≡ self.old.writes }
    {
        self.entry = Some(KnownEntry { n, entry });
    }

    /// Remembers the last commit on the title, or that it has none.
    pub(crate) fn keep_last_on(&mut self, title: Title, last: Option<LastCommit>)
        ensures entry { self.new.entry ≡ self.old.entry }
        ensures title { self.new.title ≡ Some (record { title = title; last = last }) }
        ensures token { self.new.token ≡ self.old.token }
        ensures writes { self.new.writes ≡ self.old.writes }
    {
        self.title = Some(KnownTitle { title, last });
    }

    /// Remembers the number of the client's commit with the token, or that there is none.
    pub(crate) fn keep_token(&mut self, client: ClientId, token: Token, n: Option<u64>)
        ensures entry { self.new.entry ≡ self.old.entry }
        ensures title { self.new.title ≡ self.old.title }
        ensures token { self.new.token ≡ Some (record { client = client; token = token; n = n }) }
        ensures writes { self.new.writes ≡ self.old.writes }
    {
        self.token = Some(KnownToken { client, token, n });
    }

    /// Remembers what the client has committed.
    pub(crate) fn keep_writes(&mut self, client: ClientId, writes: &Writes)
        ensures entry { self.new.entry ≡ self.old.entry }
        ensures title { self.new.title ≡ self.old.title }
        ensures token { self.new.token ≡ self.old.token }
        ensures writes { self.new.writes ≡ Some (record { client = client; writes = writes.now }) }
    {
        self.writes = Some(KnownWrites {
            client,
            writes: *writes,
        });
    }

    /// Remembers entry `n`, which was appended, and if it is a commit what is answered from now on of its title, whose
    /// row is given, of its token and of its client.
    pub(crate) fn keep_appended(&mut self, n: i64, entry: Entry, title: Option<i64>)
        ensures renewed { IfSome title (λ _. IsRenewed (entry_of entry) self.new) }
        ensures entry { IfSome self.new.entry (λ known. known.entry ≡ entry) }
    {
        if let Some(title) = title {
            self.keep_commit(n, &entry, title);
        }
        self.keep_entry(n.cast_unsigned(), entry);
    }

    fn keep_commit(&mut self, n: i64, entry: &Entry, row: i64)
        ensures { IsRenewed (entry_of entry.now) self.new }
    {
        // Where memory is wanting, nothing older may stay.
        self.title = None;
        self.token = None;
        if let Entry::Commit {
            stamp,
            title,
            revision,
            client,
            index,
            token,
            ..
        } = entry
        {
            let revision = revision.cast_signed();
            if let Ok(title) = title.clone() {
                self.keep_last_on(
                    title,
                    Some(LastCommit {
                        title: row,
                        n,
                        revision,
                    }),
                );
            }
            if let Ok(token) = token.clone() {
                self.keep_token(*client, token, Some(n.cast_unsigned()));
            }
            // A client's commits are counted from 1 and each has its index, so the last index is their count.
            let (count, last, stamp) = (*index, n.cast_unsigned(), *stamp);
            self.keep_writes(*client, &Writes { count, last, stamp });
        }
    }
}
