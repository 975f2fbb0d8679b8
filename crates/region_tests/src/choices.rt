// Which replica answers a read.
use load_balancer::{Choice, Row, choose};

/// Two replicas: the weight, the lag and the entries applied of each.
type Pair = [(u16, u64, u64); 2];

fn rows_of(pair: Pair) -> [Row; 2] {
    pair.map(|(weight, lag, applied)| Row {
        weight,
        lag,
        applied,
    })
}

const NEAR: Pair = [(3, 0, 5), (1, 0, 5)];

// the need, the word, the choice
const DRAWN: [(u64, u64, Choice); 7] = [
    (0, 0, Choice::At(0)),
    (0, 1, Choice::At(0)),
    (0, 2, Choice::At(0)),
    (0, 3, Choice::At(1)),
    (0, 4, Choice::At(0)),
    (5, 3, Choice::At(1)),
    (5, 7, Choice::At(1)),
];

#[test]
fn a_word_draws_by_weight_among_the_near(rt: HostRuntime) {
    let near = rows_of(NEAR);
    for (need, word, expected) in DRAWN {
        assert_eq!(rt; choose(&near, need, word), expected);
    }
}

const ONE_FAR: Pair = [(3, 6_001, 5), (1, 0, 5)];

#[test]
fn a_replica_that_lags_too_far_is_never_drawn(rt: HostRuntime) {
    let one_far = rows_of(ONE_FAR);
    for word in [0, 1, 2, 3, 4, u64::MAX] {
        assert_eq!(rt; choose(&one_far, 0, word), Choice::At(1));
    }
}

const FAR: Pair = [(3, 6_001, 5), (1, 6_001, 5)];

const AHEAD: Pair = [(3, 6_001, 5), (1, 6_001, 7)];

const NO_WEIGHT: Pair = [(0, 0, 5), (0, 0, 9)];

const AT_THE_EDGE: Pair = [(0, 0, 9), (1, 6_000, 5)];

// the replicas, the need, the choice
const NONE_NEAR: [(Pair, u64, Choice); 8] = [
    (FAR, 0, Choice::Lagged(0)),
    (AHEAD, 0, Choice::Lagged(1)),
    (AHEAD, 7, Choice::Lagged(1)),
    (AHEAD, 8, Choice::Behind { need: 8, best: 7 }),
    (NO_WEIGHT, 9, Choice::Lagged(1)),
    (NO_WEIGHT, 10, Choice::Behind { need: 10, best: 9 }),
    (AT_THE_EDGE, 5, Choice::At(1)),
    (AT_THE_EDGE, 6, Choice::Lagged(0)),
];

#[test]
fn the_most_applied_answers_if_none_is_near(rt: HostRuntime) {
    for (pair, need, expected) in NONE_NEAR {
        assert_eq!(rt; choose(&rows_of(pair), need, 2), expected);
    }
}
