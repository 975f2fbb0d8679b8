// Whether jobs may be asked of a round, which a caller has to know first.
ghost use Rattle.std.specs.Prelude.{◌≡◌, IsTrue};
ghost use Rattle.std.specs.List.{list_all};
ghost use Rattle.wiki_model.specs.Titles.{Title};
ghost use Rattle.purge_relay.specs.Ledger.{row_at};
ghost use Rattle.region_round.specs.Jobs.{AreProper, IsPurgeAt, is_open_purge, is_proper_job};

use crate::job::Job;
use farm_base::Region;
use farm_core::Farm;
use page_render::Page;
use purge_relay::Body;
use revision_keeper::Keeper;
use slot_cache::SlotCache;

/// Whether a round in this region may have these jobs: if there is a receipt the region is west, and each is of a purge
/// that was issued and not dropped.
pub fn are_proper<K: Keeper>(farm: &Farm<K, SlotCache<Page>>, region: Region, jobs: &[Job]) -> bool
    ensures { IsTrue result → AreProper region farm.now.ledger.rows jobs.now }
{
    all_proper(farm, region, jobs)
}

fn all_proper<K: Keeper>(farm: &Farm<K, SlotCache<Page>>, region: Region, jobs: &[Job]) -> bool
    ensures { result ≡ list_all (is_proper_job region farm.now.ledger.rows) jobs.now }
{
    for job in jobs.iter() {
        if !is_proper(farm, region, job) {
            return false;
        }
    }
    true
}

fn is_proper<K: Keeper>(farm: &Farm<K, SlotCache<Page>>, region: Region, job: &Job) -> bool
    ensures { result ≡ is_proper_job region farm.now.ledger.rows job.now }
{
    match job {
        Job::View(_) => true,
        Job::Receipt(number) => match region {
            Region::Home => false,
            Region::West => is_open(farm, *number),
        },
    }
}

/// Whether this is the number of a purge that was issued and not dropped, so that a round of west may receive it.
pub fn can_receive<K: Keeper>(farm: &Farm<K, SlotCache<Page>>, number: u64) -> bool
    ensures { IsTrue result → (title : Title) × IsPurgeAt farm.now.ledger.rows number title }
{
    is_open(farm, number)
}

fn is_open<K: Keeper>(farm: &Farm<K, SlotCache<Page>>, number: u64) -> bool
    ensures { result ≡ is_open_purge (row_at farm.now.ledger.rows number) }
{
    let Some(message) = farm.message(number) else {
        return false;
    };
    match &message.body {
        Body::Purge { .. } => !farm.is_dropped(number),
        Body::Position { .. } => false,
    }
}
