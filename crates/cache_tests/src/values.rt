// The rule that stores a page, and the rule that keeps it fresh.
use crate::setting::value_at;
use farm_base::Moment;
use std::test::Fail;
use wan_value::{Ask, SetRule, Stale, decide_set, fresh};

// lag, age, whether entries were waiting, the rule
const RULES: [(u64, u64, bool, SetRule); 8] = [
    (0, 7_000, false, SetRule::Whole),
    (7_000, 0, false, SetRule::Whole),
    (4_000, 3_000, false, SetRule::Whole),
    (4_000, 3_001, false, SetRule::NoMedium),
    (7_001, 0, false, SetRule::Lagged),
    (0, 7_001, false, SetRule::NoOld),
    (7_001, 7_001, false, SetRule::NoOld),
    (0, 0, true, SetRule::NoPending),
];

#[test]
fn a_page_is_stored_by_the_lag_and_the_age_together(rt: HostRuntime) {
    for (lag, age, pending, rule) in RULES {
        assert_eq!(rt; decide_set(lag, age, pending, 7_000), rule);
    }
}

/// Three moments: now, the floor of the title and the check of the class.
type Moments = (u64, u64, u64);

/// The epoch, the version and the entries that a view asks for.
type Asked = (u64, u8, u64);

const FLOOR: Moment = Moment(13_001);

const CHECK: Moment = Moment(13_000);

const END: Moment = Moment(86_413_000);

// of a value of three entries, set at 13,000: the moments, what is asked, and what speaks against it
const ASKS: [(Moments, Asked, Result<(), Stale>); 9] = [
    ((13_000, 13_000, 0), (13_000, 1, 3), Ok(())),
    ((13_000, 0, 12_999), (0, 1, 0), Ok(())),
    ((86_412_999, 0, 0), (0, 1, 0), Ok(())),
    (
        (13_000, 13_001, 13_000),
        (0, 1, 0),
        Err(Stale::Purged { floor: FLOOR }),
    ),
    (
        (86_413_000, 0, 13_000),
        (0, 1, 0),
        Err(Stale::Checked { check: CHECK }),
    ),
    (
        (86_413_000, 0, 0),
        (13_001, 1, 0),
        Err(Stale::Expired { at: END }),
    ),
    ((86_412_999, 0, 0), (13_001, 2, 0), Err(Stale::Epoch)),
    ((86_412_999, 0, 0), (13_000, 2, 4), Err(Stale::Version)),
    ((13_000, 0, 0), (0, 1, 4), Err(Stale::Position { have: 3 })),
];

#[test]
fn a_value_is_refused_for_the_first_reason(rt: HostRuntime) -> Result<(), Fail> {
    let value = value_at(rt.alloc(), 3, Moment(13_000), false)?;
    for ((now, floor, check), (epoch, version, need), answer) in ASKS {
        let ask = Ask {
            epoch: Moment(epoch),
            version,
            need,
        };
        let found = fresh(&value, Moment(now), Moment(floor), Moment(check), &ask);
        assert_eq!(rt; found, answer);
    }
    Ok(())
}

#[test]
fn a_copy_of_a_value_is_its_equal(rt: HostRuntime) -> Result<(), Fail> {
    let value = value_at(rt.alloc(), 3, Moment(13_000), true)?;
    let copy = value.clone()?;
    assert_eq!(rt; (*copy.page, copy.upto, copy.version), (3, 3, 1));
    assert_eq!(rt; (copy.stamp, copy.set_at), (Moment(13_000), Moment(13_000)));
    assert_eq!(rt; (copy.life, copy.lagged), (30_000, true));
    Ok(())
}
