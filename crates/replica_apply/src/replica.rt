// A replica of the history, and its laws.
ghost use Rattle.std.specs.Prelude.{◌≡◌, IfOk, OnErr, OnOk, Some, bytes_eq, if◌then◌else◌};
ghost use Rattle.wiki_model.specs.Html.{notice_title};
ghost use Rattle.wiki_model.specs.Titles.{Title as TitleText};
ghost use Rattle.commit_feed.specs.AsModel.{entry_of};
ghost use Rattle.replica_apply.specs.Replica.{page_at, Puts};
ghost use Rattle.replica_apply.specs.Applied.{page_after, IsCommit};
ghost use Rattle.replica_apply.specs.Snapshot.{SnapshotsLast};

use crate::page_map::put;
use crate::snapshot::{self, Point, Snapshot};
use commit_feed::Entry;
use farm_base::{Memory, Moment};
use std::alloc::{AllocError, Global};
use std::collections::BTreeMap;
use std::marker::Model;
use wiki_titles::{Text, Title};

/// What a replica does with an entry that is handed to it.
#[derive(Clone, Copy, Debug, PartialEq, Eq)]
pub enum Applied {
    /// It was the next one, and is applied.
    Applied,
    /// It is applied already, as `have` entries are.
    Repeat { have: u64 },
    /// Entries before it are missing: `have` are applied, and it was entry `got`.
    Gap { have: u64, got: u64 },
}

/// A replica that has applied the first entries of the history. Contracts see their number, the stamp of
/// the last of them, and each title's page.
///
/// It keeps the last text of each title, and no entries. The notice is kept ready beside them.
#[derive(Drop)]
pub struct Replica {
    /// How many entries are applied.
    applied: u64,
    /// When home appended the last of them; 0 if there is none.
    stamp: Moment,
    /// The last text of each title that has one.
    pages: BTreeMap<Title, Text>,
    /// The last text of `MediaWiki:Sitenotice`, as `pages` has it.
    notice: Option<Text>,
}

impl Model for Replica {
    ghost use Rattle.std.specs.Prelude.{◌≡◌};
    ghost use Rattle.wiki_model.specs.Html.{notice_title};
    ghost use Rattle.replica_apply.specs.Replica.{ReplicaState, page_at};

    ghost Value = { ReplicaState };

    ghost view = { λ r. record { applied = r.applied; stamp = r.stamp; pages = r.pages.entries } };

    ghost invariant = { λ r. r.notice ≡ page_at r.pages notice_title };
}

impl Replica {
    ghost use Rattle.std.specs.Prelude.{◌≡◌, [], IfOk};
    ghost use Rattle.commit_feed.specs.AsModel.{entry_of};
    ghost use Rattle.replica_apply.specs.Replica.{IsPrefix};
    ghost use Rattle.replica_apply.specs.Applied.{Applies, Follows, GoesOn};
    ghost use Rattle.replica_apply.specs.Snapshot.{IsSnapshot, IsOfEach};

    /// A replica that has applied nothing. It takes no memory.
    pub fn new(alloc: Global) -> Self
        ensures { IsPrefix [] result }
    {
        Replica {
            applied: 0,
            stamp: Moment(0),
            pages: BTreeMap::new(alloc),
            notice: None,
        }
    }

    /// How many entries are applied.
    pub fn applied(&self) -> u64
        ensures { result ≡ self.now.applied }
    {
        self.applied
    }

    /// When home appended the last entry that is applied; 0 if there is none.
    pub fn stamp(&self) -> Moment
        ensures { result ≡ self.now.stamp }
    {
        self.stamp
    }

    /// Applies entry `n` if it is the next one. Any other answer, out of memory too, leaves the replica
    /// as it was; a beat takes no memory. It costs a logarithm of the titles.
    #[tactic(auto, using(crate::proofs::Prefixes::follows, crate::proofs::Prefixes::goes_on))]
    pub fn apply(&mut self, n: u64, entry: &Entry) -> Result<Applied, Memory>
        ensures applies { Applies self.old self.new n (entry_of entry.now) result }
        ensures follows { Follows self.old self.new (entry_of entry.now) result }
        ensures goes_on { GoesOn self.old self.new n (entry_of entry.now) result }
    {
        self.take(n, entry)
    }

    /// The page of the title with its templates and the notice, as this prefix has them: what is rendered
    /// from them is the prefix's page, in every markup. `reading` is what the clock reads.
    ///
    /// The page's text and each template's text are read for names once; each title that they name costs a
    /// logarithm of the titles. No other page is looked at. Texts are shared.
    pub fn snapshot(
        &self,
        alloc: Global,
        title: &Title,
        reading: Moment,
    ) -> Result<Snapshot, Memory>
        ensures exact { IfOk result (λ s. IsSnapshot self.now title.now reading s) }
        ensures of { IfOk result (λ s. IsOfEach self.now title.now reading s) }
    {
        let point = Point {
            upto: self.applied,
            stamp: self.stamp,
            reading,
        };
        let made = snapshot::take(alloc, point, &self.pages, &self.notice, title)?;
        Ok(made)
    }

    // What `apply` does.
    fn take(&mut self, n: u64, entry: &Entry) -> Result<Applied, Memory>
        ensures { Applies self.old self.new n (entry_of entry.now) result }
    {
        let have = self.applied;
        if n <= have {
            return Ok(Applied::Repeat { have });
        }
        if 1 < n - have {
            return Ok(Applied::Gap { have, got: n });
        }
        match bind(&mut self.pages, &mut self.notice, entry) {
            Ok(()) => {
                self.applied = n;
                self.stamp = entry.stamp();
                Ok(Applied::Applied)
            }
            Err(_) => Err(Memory),
        }
    }
}

/// Makes the pages those after the entry, and the notice that of them. Its text is shared.
fn bind(
    pages: &mut BTreeMap<Title, Text>,
    notice: &mut Option<Text>,
    entry: &Entry,
) -> Result<(), AllocError>
    requires { notice.old ≡ page_at pages.old notice_title }
    ensures ready { notice.new ≡ page_at pages.new notice_title }
    ensures ok { OnOk result ((name : TitleText) → page_at pages.new name
        ≡ page_after (entry_of entry.now) name (page_at pages.old name)) }
    ensures err { OnErr result (pages.new.entries ≡ pages.old.entries) }
    ensures memory { OnErr result (IsCommit (entry_of entry.now)) }
{
    match entry {
        Entry::Beat { .. } => Ok(()),
        Entry::Commit { title, text, .. } => {
            bind_text(pages, notice, title, text)?;
            Ok(())
        }
    }
}

/// Gives the title this text. Both copies are made first, so that all stays if memory is refused.
#[tactic(auto, using(crate::proofs::Prefixes::notice_after, crate::proofs::Prefixes::notice_stays))]
fn bind_text(
    pages: &mut BTreeMap<Title, Text>,
    notice: &mut Option<Text>,
    title: &Title,
    text: &Text,
) -> Result<(), AllocError>
    requires { notice.old ≡ page_at pages.old notice_title }
    ensures ready { notice.new ≡ page_at pages.new notice_title }
    ensures ok { OnOk result (Puts pages.old pages.new title.now text.now) }
    ensures err { OnErr result (pages.new.entries ≡ pages.old.entries) }
{
    let shared = text.clone()?;
    put(pages, title, text)?;
    renew(notice, title, shared);
    Ok(())
}

/// The notice after a commit of this title and text.
fn renew(notice: &mut Option<Text>, title: &Title, text: Text)
    ensures { notice.new ≡ (if bytes_eq title.now notice_title then Some text else notice.old) }
{
    if is_notice(title) {
        *notice = Some(text);
    }
}

fn is_notice(title: &Title) -> bool
    ensures { result ≡ bytes_eq title.now notice_title }
{
    title.text() == "MediaWiki:Sitenotice"
}

/// A snapshot of a prefix of a history stays one when the history has grown.
pub fn snapshots_last()
    ensures { SnapshotsLast }
{}
