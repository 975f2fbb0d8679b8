// What a round leaves in the cache for later rounds.
use crate::setting::{farm_of_three, heads_at, lines_at};
use farm_core::{Farm, Page};
use region_round::OpenGate;
use revision_keeper::Keeper;
use slot_cache::SlotCache;
use std::alloc::Global;
use std::process::Abort;
use std::test::Fail;
use std::thread::Threads;

#[test]
fn a_page_that_a_round_kept_is_a_hit_of_the_next(rt: HostRuntime) -> Result<(), Fail> {
    let alloc = rt.alloc();
    let mut farm = farm_of_three(alloc, 1)?;
    hits(&rt, alloc, &mut farm)
}

#[test]
fn several_workers_share_the_hits_of_an_earlier_round(rt: HostRuntime) -> Result<(), Fail> {
    let alloc = rt.alloc();
    let mut farm = farm_of_three(alloc, 2)?;
    hits(&rt, alloc, &mut farm)
}

fn hits<K: Keeper, R: Threads + Sync + Abort>(
    rt: &R,
    alloc: Global,
    farm: &mut Farm<K, SlotCache<Page>>,
) -> Result<(), Fail> {
    heads_at(rt, alloc, farm, &["A"], 21_000, &OpenGate)?;
    let lines = lines_at(rt, alloc, farm, &["A", "B"], 22_000)?;
    assert_eq!(rt;
        lines.as_str(),
        "\
1 ok source=3 from=hit lagged=0 bytes=55
<!DOCTYPE html>
<title>A</title>
<h1>A</h1>
<p>one</p>
2 ok source=3 from=replica:0 put=whole lagged=0 bytes=55
<!DOCTYPE html>
<title>B</title>
<h1>B</h1>
<p>two</p>
"
    );
    Ok(())
}

#[test]
fn a_receipt_of_a_round_holds_its_title_off_for_eleven_seconds(
    rt: HostRuntime,
) -> Result<(), Fail> {
    let alloc = rt.alloc();
    let mut farm = farm_of_three(alloc, 2)?;
    holds_off(&rt, alloc, &mut farm)
}

fn holds_off<K: Keeper, R: Threads + Sync + Abort>(
    rt: &R,
    alloc: Global,
    farm: &mut Farm<K, SlotCache<Page>>,
) -> Result<(), Fail> {
    heads_at(rt, alloc, farm, &["1"], 21_000, &OpenGate)?;
    let held = heads_at(rt, alloc, farm, &["A"], 31_999, &OpenGate)?;
    assert_eq!(rt;
        held.as_str(),
        "A 1 ok source=3 from=replica:0 put=held lagged=1 bytes=55\n"
    );
    let free = heads_at(rt, alloc, farm, &["A"], 32_000, &OpenGate)?;
    assert_eq!(rt;
        free.as_str(),
        "A 1 ok source=3 from=replica:0 put=lagged lagged=1 bytes=55\n"
    );
    Ok(())
}
