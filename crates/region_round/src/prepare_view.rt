// What a view that misses is answered from: a snapshot of a replica, with its page.
ghost use Rattle.std.specs.Prelude.{◌≡◌, IfOk, IfSome};
ghost use Rattle.wan_value.specs.AsModel.{ask_of as model_ask};
ghost use Rattle.region_round.specs.Prepared.{IsMade, IsPrepared, IsPreparedFor};
ghost use Rattle.region_round.specs.Views.{ask_by};

use crate::job::ViewJob;
use farm_base::{Memory, Moment};
use page_render::Page;
use region_state::{PageRules, RegionState, SnapTerms, Snapped, rendered};
use replica_apply::Snapshot;
use std::alloc::Global;
use std::sync::Arc;
use wan_cache::{Ask, RegionStore};
use wiki_titles::Title;

/// What a view goes by, beside its job.
#[derive(Clone, Copy, Debug)]
pub(crate) struct ViewTerms {
    /// The round's moment at its region.
    pub at: Moment,
    /// No page counts that was cached before this moment.
    pub epoch: Moment,
    pub rules: PageRules,
    /// Whether an edit of the title is begun.
    pub pending: bool,
}

/// What a view goes by, with what was prepared for it.
#[derive(Drop)]
pub(crate) struct ViewWork {
    pub terms: ViewTerms,
    pub ready: Option<Prepared>,
}

/// A snapshot that a region took for a view, with its page.
#[derive(Drop)]
pub(crate) struct Prepared {
    pub snapped: Snapped,
    /// None: the title has no page in the snapshot.
    pub pages: Option<Pages>,
}

/// A rendered page with a copy of its title.
#[derive(Drop)]
pub(crate) struct Pages {
    pub name: Title,
    pub page: Arc<Page>,
    /// The same page, for the cache.
    pub shared: Arc<Page>,
}

/// What a view asks of a cached page.
pub(crate) fn ask_of(view: &ViewJob, terms: &ViewTerms) -> Ask
    ensures { model_ask result ≡ ask_by terms.now view.now.need }
{
    Ask {
        epoch: terms.epoch,
        version: terms.rules.markup,
        need: view.need,
    }
}

/// What was prepared for the view, unless an edit was begun or ended since; else it is prepared now.
pub(crate) fn prepared_or_made<S: RegionStore<Page>>(
    alloc: Global,
    region: &RegionState<S>,
    view: &ViewJob,
    terms: &ViewTerms,
    ready: Option<Prepared>,
) -> Result<Prepared, Memory>
    requires ready { IfSome ready (IsPreparedFor region.now view.now terms.now) }
    ensures { IfOk result (IsPrepared region.now view.now terms.now) }
{
    if let Some(ready) = ready {
        if ready.snapped.pending == terms.pending {
            return Ok(ready);
        }
    }
    prepare(alloc, region, view, terms)
}

/// Takes a snapshot for the view, and renders its page.
pub(crate) fn prepare<S: RegionStore<Page>>(
    alloc: Global,
    region: &RegionState<S>,
    view: &ViewJob,
    terms: &ViewTerms,
) -> Result<Prepared, Memory>
    ensures { IfOk result (IsPrepared region.now view.now terms.now) }
{
    let snap = SnapTerms {
        need: view.need,
        word: view.word,
        pending: terms.pending,
    };
    let snapped = region.snap(alloc, &view.title, snap, terms.at)?;
    let pages = pages_of(alloc, &view.title, &snapped.snapshot, terms.rules.markup)?;
    Ok(Prepared { snapped, pages })
}

/// The page of a snapshot, if it has one.
fn pages_of(
    alloc: Global,
    title: &Title,
    snapshot: &Snapshot,
    markup: u8,
) -> Result<Option<Pages>, Memory>
    ensures { IfOk result (IsMade markup title.now snapshot.now) }
{
    let Some(text) = &snapshot.page else {
        return Ok(None);
    };
    let (name, page, shared) = rendered(alloc, title, text, snapshot, markup)?;
    Ok(Some(Pages { name, page, shared }))
}
