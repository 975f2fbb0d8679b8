// A region's cache that was lent, and what its round goes by.
ghost use Rattle.std.specs.Prelude.{◌≡◌};
ghost use Rattle.region_round.specs.Jobs.{terms_at, terms_of};

use crate::prepare_view::ViewTerms;
use farm_base::{Moment, Region};
use farm_core::Farm;
use page_render::Page;
use region_state::PageRules;
use revision_keeper::Keeper;
use slot_cache::SlotCache;

/// What all jobs of a round go by.
#[derive(Clone, Copy, Debug)]
pub(crate) struct RoundTerms {
    /// The region's moment.
    pub at: Moment,
    /// No page counts that was cached before this moment.
    pub epoch: Moment,
    pub rules: PageRules,
}

/// What the jobs of a round at this moment go by.
pub(crate) fn terms_at<K: Keeper>(farm: &Farm<K, SlotCache<Page>>, now: Moment) -> RoundTerms
    ensures { result ≡ terms_at now farm.now }
{
    let plan = farm.plan();
    RoundTerms {
        at: now,
        epoch: plan.epoch,
        rules: PageRules {
            read_lag: plan.bounds.read_lag,
            markup: farm.markup(),
        },
    }
}

/// What a view goes by.
pub(crate) fn view_terms(terms: RoundTerms, pending: bool) -> ViewTerms
    ensures { result ≡ terms_of terms pending }
{
    ViewTerms {
        at: terms.at,
        epoch: terms.epoch,
        rules: terms.rules,
        pending,
    }
}

/// A region's cache that was lent, with where it is from.
#[derive(Drop)]
pub(crate) struct LentCache {
    pub region: Region,
    pub cache: SlotCache<Page>,
    pub terms: RoundTerms,
}
