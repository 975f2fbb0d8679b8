// A region's cache takes a purge.
ghost use Rattle.std.specs.Prelude.{◌≡◌, ◌≤◌, false};
ghost use Rattle.wiki_model.specs.Cache.{IsCache};
ghost use Rattle.wiki_model.specs.CacheCalls.{TakesPurge};
ghost use Rattle.wiki_model.specs.Limits.{greatest_moment};

use farm_base::Moment;
use page_render::Page;
use wan_cache::RegionStore;
use wiki_model::Class;
use wiki_titles::Title;

/// The title is purged. A template or the notice stands on pages of other titles, so its class is touched as well.
pub fn take_purge<S: RegionStore<Page>>(cache: &mut S, title: &Title, now: Moment)
    requires open { (S.cache cache.old).shared ≡ false }
    requires later { (S.cache cache.old).greatest ≤ now }
    requires small { now ≤ greatest_moment }
    ensures takes { TakesPurge (S.cache cache.old) (S.cache cache.new) title.now now }
    ensures known { IsCache (S.cache cache.new) }
    ensures last { (S.cache cache.new).greatest ≤ now }
{
    cache.purge(title, now);
    match title.class() {
        Class::Plain => {}
        class => cache.touch(class, now),
    }
    cache.known();
}
