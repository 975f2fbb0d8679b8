// What several seats of one cache see of each other, and what is left when they are done.
use crate::crew::Crew;
use crate::setting::title_named;
use crate::timed::Seen;
use farm_base::Moment;
use std::alloc::Global;
use std::process::Abort;
use std::test::Fail;
use wan_cache::{Cause, Put};
use wiki_titles::Title;

const FLOOR: Moment = Moment(13_000);

// They have the slot 168 of 256, and the slot 202.
const FIRST: &str = "A";

const NEIGHBOR: &str = "Page 972";

const STRANGER: &str = "B";

#[test]
fn a_purge_of_a_seat_is_there_when_the_share_is_closed(rt: HostRuntime) -> Result<(), Fail> {
    let alloc = rt.alloc();
    let first = title_named(alloc, FIRST)?;
    let stranger = title_named(alloc, STRANGER)?;
    let mut crew = Crew::new(alloc, 2)?;
    crew.pass(2_000);
    crew.purge(0, &first);
    let mut cache = crew.close();
    cache.pass(10_999);
    assert_eq!(rt;
        cache.look(&first, 0),
        Seen::Miss(Cause::Purged { floor: FLOOR })
    );
    assert_eq!(rt; cache.look(&stranger, 0), Seen::Miss(Cause::Absent));
    Ok(())
}

#[test]
fn titles_of_one_slot_share_their_floor_among_seats(rt: HostRuntime) -> Result<(), Fail> {
    let alloc = rt.alloc();
    let first = title_named(alloc, FIRST)?;
    let neighbor = title_named(alloc, NEIGHBOR)?;
    let stranger = title_named(alloc, STRANGER)?;
    let mut crew = Crew::new(alloc, 2)?;
    crew.pass(2_000);
    crew.purge(0, &first);
    let held = Seen::Miss(Cause::Purged { floor: FLOOR });
    assert_eq!(rt; crew.look(1, &first), held);
    assert_eq!(rt; crew.look(1, &neighbor), held);
    assert_eq!(rt; crew.look(1, &stranger), Seen::Miss(Cause::Absent));
    Ok(())
}

#[test]
fn what_a_seat_put_another_finds(rt: HostRuntime) -> Result<(), Fail> {
    let first = title_named(rt.alloc(), FIRST)?;
    let neighbor = title_named(rt.alloc(), NEIGHBOR)?;
    finds(&rt, rt.alloc(), &first, &neighbor)
}

fn finds(rt: &impl Abort, alloc: Global, first: &Title, neighbor: &Title) -> Result<(), Fail> {
    let mut crew = Crew::new(alloc, 3)?;
    crew.pass(2_000);
    puts(rt, alloc, &mut crew, 0, first, Put::Main)?;
    assert_eq!(rt; crew.look(1, first), Seen::Hit(7));
    assert_eq!(rt; crew.look(2, neighbor), Seen::Miss(Cause::Absent));
    let cache = crew.close();
    assert_eq!(rt; cache.look(first, 0), Seen::Hit(7));
    assert_eq!(rt; cache.look(neighbor, 0), Seen::Miss(Cause::Absent));
    Ok(())
}

// A seat puts a page of seven entries there, with this answer.
fn puts(
    rt: &impl Abort,
    alloc: Global,
    crew: &mut Crew,
    seat: usize,
    title: &Title,
    wanted: Put,
) -> Result<(), Fail> {
    assert_eq!(rt; crew.put(alloc, seat, title, 7, false)?, wanted);
    Ok(())
}

#[test]
fn a_purge_ends_the_value_that_another_seat_put(rt: HostRuntime) -> Result<(), Fail> {
    let first = title_named(rt.alloc(), FIRST)?;
    let mut crew = Crew::new(rt.alloc(), 2)?;
    puts_around_a_purge(&rt, rt.alloc(), &mut crew, &first)?;
    let mut cache = crew.close();
    assert_eq!(rt; cache.look(&first, 0), Seen::Interim(8));
    // When the hold-off is over, the main value from before the purge is gone.
    cache.pass(11_000);
    assert_eq!(rt; cache.look(&first, 0), Seen::Miss(Cause::Absent));
    Ok(())
}

fn puts_around_a_purge(
    rt: &impl Abort,
    alloc: Global,
    crew: &mut Crew,
    first: &Title,
) -> Result<(), Fail> {
    puts(rt, alloc, crew, 0, first, Put::Main)?;
    crew.pass(2_000);
    crew.purge(1, first);
    assert_eq!(rt;
        crew.look(0, first),
        Seen::Miss(Cause::Purged { floor: FLOOR })
    );
    assert_eq!(rt; crew.put(alloc, 0, first, 8, false)?, Put::Interim);
    assert_eq!(rt;
        crew.put(alloc, 1, first, 9, true)?,
        Put::Held { until: FLOOR }
    );
    assert_eq!(rt; crew.look(1, first), Seen::Interim(8));
    Ok(())
}

#[test]
fn a_cache_that_was_shared_is_shared_again(rt: HostRuntime) -> Result<(), Fail> {
    let alloc = rt.alloc();
    let first = title_named(alloc, FIRST)?;
    let mut crew = Crew::new(alloc, 1)?;
    assert_eq!(rt; crew.put(alloc, 0, &first, 7, false)?, Put::Main);
    let cache = crew.close();
    let mut crew = Crew::again(alloc, cache, 8)?;
    assert_eq!(rt; crew.look(7, &first), Seen::Hit(7));
    crew.pass(2_000);
    crew.purge(3, &first);
    let cache = crew.close();
    assert_eq!(rt;
        cache.look(&first, 0),
        Seen::Miss(Cause::Purged { floor: FLOOR })
    );
    Ok(())
}
