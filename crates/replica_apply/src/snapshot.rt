// A page of a prefix, with all that its rendering needs.
ghost use Rattle.std.specs.Prelude.{◌≡◌, ◌-◌, IfOk};
ghost use Rattle.wiki_model.specs.Html.{notice_title};
ghost use Rattle.replica_apply.specs.Replica.{page_at};
ghost use Rattle.replica_apply.specs.Reached.{AreTemplatesOf};
ghost use Rattle.replica_apply.specs.Snapshot.{IsSnapshot};

use crate::gather::templates_of;
use crate::page_map::{page_of, shared};
use farm_base::{Listed, Memory, Moment};
use std::alloc::Global;
use std::collections::BTreeMap;
use wiki_titles::{Text, Title};

/// A page of a replica's prefix, with all that its rendering needs.
#[derive(Debug, Drop)]
pub struct Snapshot {
    /// How many entries the prefix has.
    pub upto: u64,
    /// When home appended the last of them; 0 if there is none.
    pub stamp: Moment,
    /// When the snapshot was taken.
    pub since: Moment,
    /// By how many milliseconds the stamp is before that; 0 if it is after it.
    pub lag: u64,
    /// The page's text; none if the prefix has no such page.
    pub page: Option<Text>,
    /// The template pages that the page's text reaches as deep as templates nest, in title order.
    pub templates: Listed<(Title, Text)>,
    /// The text of `MediaWiki:Sitenotice`.
    pub notice: Option<Text>,
}

/// Which prefix a snapshot is of, and when it is taken.
#[derive(Clone, Copy, Debug)]
pub(crate) struct Point {
    /// How many entries the prefix has.
    pub upto: u64,
    /// When home appended the last of them; 0 if there is none.
    pub stamp: Moment,
    /// What the clock reads.
    pub reading: Moment,
}

/// The snapshot of a title's page in this prefix, which has this notice.
pub(crate) fn take(
    alloc: Global,
    point: Point,
    pages: &BTreeMap<Title, Text>,
    notice: &Option<Text>,
    title: &Title,
) -> Result<Snapshot, Memory>
    requires { notice.now ≡ page_at pages.now notice_title }
    ensures { IfOk result (λ s. IsSnapshot
        (record { applied = point.upto; stamp = point.stamp; pages = pages.now.entries }) title.now point.reading s) }
{
    let page = page_of(pages, title)?;
    let templates = templates_for(alloc, pages, &page)?;
    let notice = shared(notice)?;
    Ok(Snapshot {
        upto: point.upto,
        stamp: point.stamp,
        since: point.reading,
        lag: lag_at(point.reading, point.stamp),
        page,
        templates: Listed::new(templates),
        notice,
    })
}

/// The templates of a page, if it is there.
fn templates_for(
    alloc: Global,
    pages: &BTreeMap<Title, Text>,
    page: &Option<Text>,
) -> Result<Vec<(Title, Text)>, Memory>
    ensures { IfOk result (λ list. AreTemplatesOf (page_at pages.now) page.now list.items) }
{
    match page {
        Some(text) => templates_of(alloc, pages, text),
        None => Ok(Vec::new(alloc)),
    }
}

/// By how much the stamp is before the reading; 0 if it is after it.
fn lag_at(reading: Moment, stamp: Moment) -> u64
    ensures { result ≡ reading - stamp }
{
    reading.0.saturating_sub(stamp.0)
}
