// An open database, and what is remembered of it.
ghost use Rattle.std.specs.Prelude.{◌<◌, ◌^◌, IfOk, IfSome, option_map};
ghost use Rattle.commit_feed.specs.AsModel.{entry_of};
ghost use Rattle.revision_keeper.specs.Bounds.{IsSmall, AreSmall};

use crate::last_answers::{LastAnswers, LastCommit};
use crate::rows::{checked_number, checked_writes, number_of, stored};
use crate::table_fault::TableFault;
use crate::{appends, questions, schema};
use commit_feed::{Entry, Writes};
use sqlite::{Alter, Connection};
use std::alloc::Global;
use wiki_titles::{ClientId, Title, Token};

/// The tables of a history. They have one writer, which owns the connection, so the length and what was answered last
/// may be remembered.
#[derive(Drop)]
pub(crate) struct Tables<S: Alter + Drop> {
    alloc: Global,
    conn: Connection<S>,
    /// Whether the tables are those of version 2. Nothing is asked of them before.
    ready: bool,
    /// The number of entries, from 0; None if it has to be asked again.
    length: Option<i64>,
    answers: LastAnswers,
}

impl<S: Alter + Drop> Tables<S> {
    pub(crate) fn new(alloc: Global, conn: Connection<S>) -> Self {
        Tables {
            alloc,
            conn,
            ready: false,
            length: None,
            answers: LastAnswers::new(),
        }
    }

    pub(crate) fn into_connection(self) -> Connection<S> {
        let Tables { conn, .. } = self;
        conn
    }

    pub(crate) fn start(&mut self) -> Result<(), TableFault> {
        schema::make_ready(self.alloc, &mut self.conn)?;
        self.ready = true;
        self.length()?;
        Ok(())
    }

    pub(crate) fn length(&mut self) -> Result<u64, TableFault>
        ensures { IfOk result (λ n. n < 2 ^ 63) }
    {
        if let Some(n) = self.length {
            return number_of(n);
        }
        self.check_ready()?;
        let n = questions::last_number(&mut self.conn)?;
        self.length = Some(n);
        number_of(n)
    }

    pub(crate) fn entry(&mut self, n: u64) -> Result<Option<Entry>, TableFault>
        ensures { IfOk result (λ found. IfSome (option_map entry_of found) IsSmall) }
    {
        if n == 0 || self.length()? < n {
            return Ok(None);
        }
        if let Some(entry) = self.answers.entry(n)? {
            return Ok(Some(entry));
        }
        let entry = questions::entry(self.alloc, &mut self.conn, n)?;
        if let Ok(again) = entry.clone() {
            self.answers.keep_entry(n, again);
        }
        Ok(Some(entry))
    }

    pub(crate) fn latest(&mut self, title: &Title, upto: u64) -> Result<Option<u64>, TableFault>
        ensures { IfOk result (λ found. IfSome found (λ n. n < 2 ^ 63)) }
    {
        self.check_ready()?;
        match self.last_on(title)? {
            Some(last) => questions::latest(&mut self.conn, last, upto),
            None => Ok(None),
        }
    }

    // The last commit on the title; None if it has none.
    fn last_on(&mut self, title: &Title) -> Result<Option<LastCommit>, TableFault> {
        if let Some(last) = self.answers.last_on(title) {
            return Ok(last);
        }
        let last = questions::last_on(&mut self.conn, title)?;
        if let Ok(title) = title.clone() {
            self.answers.keep_last_on(title, last);
        }
        Ok(last)
    }

    pub(crate) fn by_token(
        &mut self,
        client: &ClientId,
        token: &Token,
    ) -> Result<Option<u64>, TableFault>
        ensures { IfOk result (λ found. IfSome found (λ n. n < 2 ^ 63)) }
    {
        self.check_ready()?;
        if let Some(found) = self.answers.by_token(client, token) {
            return checked_number(found);
        }
        let found = questions::by_token(&mut self.conn, client, token)?;
        if let Ok(token) = token.clone() {
            self.answers.keep_token(*client, token, found);
        }
        Ok(found)
    }

    pub(crate) fn writes_of(&mut self, client: &ClientId) -> Result<Writes, TableFault>
        ensures { IfOk result AreSmall }
    {
        self.check_ready()?;
        if let Some(writes) = self.answers.writes_of(client) {
            return checked_writes(writes);
        }
        let writes = questions::writes_of(&mut self.conn, client)?;
        self.answers.keep_writes(*client, &writes);
        Ok(writes)
    }

    pub(crate) fn append(&mut self, entry: Entry) -> Result<u64, TableFault>
        ensures { IfOk result (λ n. n < 2 ^ 63) }
    {
        let n = stored(self.length()?.saturating_add(1))?;
        let known = self.title_row(&entry);
        match appends::append(&mut self.conn, n, &entry, known) {
            Ok(title) => {
                self.length = Some(n);
                self.answers.keep_appended(n, entry, title);
                number_of(n)
            }
            Err(fault) => {
                // Should the database fail in the middle, nobody knows whether the entry is there.
                self.length = None;
                self.answers = LastAnswers::new();
                Err(fault)
            }
        }
    }

    // The row of the commit's title, if it is remembered.
    fn title_row(&self, entry: &Entry) -> Option<i64> {
        match entry {
            Entry::Commit { title, .. } => Some(self.answers.last_on(title)??.title),
            Entry::Beat { .. } => None,
        }
    }

    fn check_ready(&self) -> Result<(), TableFault> {
        if self.ready {
            Ok(())
        } else {
            Err(TableFault::Refused)
        }
    }
}
