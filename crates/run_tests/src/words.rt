// Words that are no command, scripts that are made, and the number of each status.
use crate::setting::{outcome_of, words_of};
use revision_keeper::Keeper;
use std::test::Fail;
use wiki_cli::Status;

const USAGE: &str =
    "usage: wiki drill | wiki stir SEED STEPS | wiki serve [--connections N] [--store PATH]\n";

const NO_COMMANDS: [&[&str]; 15] = [
    &[],
    &[""],
    &["drill", "now"],
    &["Drill"],
    &["stir"],
    &["stir", "7"],
    &["stir", "7", "0", "0"],
    &["stir", "07", "1"],
    &["stir", "7", ""],
    &["stir", "+7", "1"],
    &["stir", "1", "100001"],
    &["stir", "10000000000000000000", "1"],
    &["drill", "7", "0"],
    &["serve", "now"],
    &["--help"],
];

#[test]
fn other_words_get_the_usage_line(rt: HostRuntime) -> Result<(), Fail> {
    for words in NO_COMMANDS {
        let found = outcome_of(&rt, rt.alloc(), words_of(words))?;
        assert_eq!(rt; found.text.as_str(), USAGE);
        assert_eq!(rt; found.status, Status::Usage);
    }
    Ok(())
}

// the seed and the steps, what is written, and how many entries the history then has
const STIRRED: [(&str, &str, &str, u64); 4] = [
    (
        "7",
        "0",
        "stir steps=0 entries=0 saved=0 ok=0 hit=0 interim=0 no-page=0 lag=0\n",
        0,
    ),
    (
        "7",
        "50",
        "stir steps=50 entries=22 saved=10 ok=2 hit=1 interim=0 no-page=9 lag=1\n",
        22,
    ),
    (
        "0",
        "1",
        "stir steps=1 entries=1 saved=1 ok=0 hit=0 interim=0 no-page=0 lag=0\n",
        1,
    ),
    (
        "9999999999999999999",
        "1",
        "stir steps=1 entries=0 saved=0 ok=0 hit=0 interim=0 no-page=1 lag=0\n",
        0,
    ),
];

#[test]
fn the_answers_of_a_made_script_are_counted(rt: HostRuntime) -> Result<(), Fail> {
    for (seed, steps, text, entries) in STIRRED {
        let words = ["stir", seed, steps];
        let mut found = outcome_of(&rt, rt.alloc(), words_of(&words))?;
        assert_eq!(rt; found.text.as_str(), text);
        assert_eq!(rt; found.status, Status::Ok);
        assert_eq!(rt; found.keeper.len()?, entries);
    }
    Ok(())
}

const NUMBERS: [(Status, u8); 10] = [
    (Status::Ok, 0),
    (Status::Usage, 2),
    (Status::Script { line: 7 }, 3),
    (Status::ReadFault, 4),
    (Status::WriteFault, 5),
    (Status::StoreFault, 6),
    (Status::Memory, 7),
    (Status::DoorFault, 8),
    (Status::NotEmpty { entries: 7 }, 9),
    (Status::Layout { rule: 7 }, 10),
];

#[test]
fn each_end_has_its_number(rt: HostRuntime) {
    for (status, number) in NUMBERS {
        assert_eq!(rt; status.number(), number);
    }
}
