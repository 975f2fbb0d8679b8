// Titles of one slot share its floor and its places, and titles of two slots nothing.
use crate::setting::title_named;
use crate::timed::{Seen, Timed};
use farm_base::Moment;
use slot_cache::{SLOTS_MIN, SlotCache};
use std::alloc::Global;
use std::process::Abort;
use std::test::Fail;
use wan_cache::{Cause, Class, Put};
use wiki_titles::Title;

const FLOOR: Moment = Moment(13_000);

// It has the slot 168 of 256.
const FIRST: &str = "A";

// It has the slot of `FIRST`, as the first of the titles `Page 1`, `Page 2` and so on.
const NEIGHBOR: &str = "Page 972";

// It has the slot 202 of 256.
const STRANGER: &str = "B";

// An empty cache of 256 slots at the moment 0, with a hold-off of 11,000 milliseconds.
fn small_cache(alloc: Global) -> Result<Timed<SlotCache<u64>>, Fail> {
    let cache = SlotCache::new(alloc, SLOTS_MIN, 11_000)?;
    Ok(Timed::new(cache))
}

#[test]
fn a_purge_holds_off_the_titles_of_its_slot(rt: HostRuntime) -> Result<(), Fail> {
    let alloc = rt.alloc();
    let first = title_named(alloc, FIRST)?;
    let neighbor = title_named(alloc, NEIGHBOR)?;
    let stranger = title_named(alloc, STRANGER)?;
    let mut cache = small_cache(alloc)?;
    cache.pass(2_000);
    cache.purge(&first);
    cache.pass(10_999);
    assert_eq!(rt;
        cache.look(&first, 0),
        Seen::Miss(Cause::Purged { floor: FLOOR })
    );
    assert_eq!(rt;
        cache.look(&neighbor, 0),
        Seen::Miss(Cause::Purged { floor: FLOOR })
    );
    assert_eq!(rt; cache.look(&stranger, 0), Seen::Miss(Cause::Absent));
    Ok(())
}

#[test]
fn a_value_is_shown_for_its_own_title_alone(rt: HostRuntime) -> Result<(), Fail> {
    let first = title_named(rt.alloc(), FIRST)?;
    let neighbor = title_named(rt.alloc(), NEIGHBOR)?;
    let mut cache = small_cache(rt.alloc())?;
    shows_each_alone(&rt, rt.alloc(), &mut cache, &first, &neighbor)
}

fn shows_each_alone(
    rt: &impl Abort,
    alloc: Global,
    cache: &mut Timed<SlotCache<u64>>,
    first: &Title,
    neighbor: &Title,
) -> Result<(), Fail> {
    assert_eq!(rt; cache.put(alloc, first, 1, false)?, Put::Main);
    assert_eq!(rt; cache.look(first, 1), Seen::Hit(1));
    assert_eq!(rt; cache.look(neighbor, 0), Seen::Miss(Cause::Absent));
    assert_eq!(rt; cache.put(alloc, neighbor, 2, false)?, Put::Main);
    assert_eq!(rt; cache.look(neighbor, 0), Seen::Hit(2));
    assert_eq!(rt; cache.look(first, 0), Seen::Miss(Cause::Absent));
    Ok(())
}

#[test]
fn an_interim_value_is_shown_for_its_own_title_alone(rt: HostRuntime) -> Result<(), Fail> {
    let alloc = rt.alloc();
    let first = title_named(alloc, FIRST)?;
    let neighbor = title_named(alloc, NEIGHBOR)?;
    let mut cache = small_cache(alloc)?;
    shows_interim_alone(&rt, alloc, &mut cache, &first, &neighbor)
}

fn shows_interim_alone(
    rt: &impl Abort,
    alloc: Global,
    cache: &mut Timed<SlotCache<u64>>,
    first: &Title,
    neighbor: &Title,
) -> Result<(), Fail> {
    cache.pass(2_000);
    cache.purge(first);
    assert_eq!(rt; cache.put(alloc, first, 1, false)?, Put::Interim);
    assert_eq!(rt; cache.look(first, 0), Seen::Interim(1));
    assert_eq!(rt;
        cache.look(neighbor, 0),
        Seen::Miss(Cause::Purged { floor: FLOOR })
    );
    Ok(())
}

#[test]
fn a_touch_holds_off_every_title(rt: HostRuntime) -> Result<(), Fail> {
    let alloc = rt.alloc();
    let first = title_named(alloc, FIRST)?;
    let stranger = title_named(alloc, STRANGER)?;
    let mut cache = small_cache(alloc)?;
    cache.pass(2_000);
    cache.touch(Class::Message);
    assert_eq!(rt;
        cache.put(alloc, &first, 1, true)?,
        Put::Held { until: FLOOR }
    );
    assert_eq!(rt;
        cache.look(&stranger, 0),
        Seen::Miss(Cause::Checked { check: FLOOR })
    );
    assert_eq!(rt; cache.hold_off(), 11_000);
    Ok(())
}
