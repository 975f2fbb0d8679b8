// What a text lays out, and the first rule that it breaks.
use std::alloc::Global;
use std::test::Fail;
use wiki_layout::{FarmPlan, LAYOUT_MAX, LayoutFault, RegionPlan, layout_of};

const EXAMPLE: &str = "[home]
weights = [3, 1]
slots = 4096

[west]
weights = [1]
slots = 4096

[farm]
epoch = 0
workers = 2
pace = 1000
";

const DEFAULT: &str =
    "home [1] 4096, west [1] 4096, epoch 0, workers 1, pace 1000, bounds 3000 7000 1000";

// the text, and its plan
const LAYOUTS: [(&str, &str); 8] = [
    (
        EXAMPLE,
        "home [3, 1] 4096, west [1] 4096, epoch 0, workers 2, pace 1000, bounds 3000 7000 1000",
    ),
    ("", DEFAULT),
    ("# nothing\n[farm]\n", DEFAULT),
    (
        "[home]\nweights = [0, 1000, 1, 1, 1, 1, 1, 1]\nslots = 256\n",
        "home [0, 1000, 1, 1, 1, 1, 1, 1] 256, west [1] 4096, epoch 0, workers 1, pace 1000, bounds 3000 7000 1000",
    ),
    (
        "west.slots = 65536\nwest.weights = [5]",
        "home [1] 4096, west [5] 65536, epoch 0, workers 1, pace 1000, bounds 3000 7000 1000",
    ),
    (
        "farm = { epoch = 4000000000000000, workers = 8, pace = 1 }\n",
        "home [1] 4096, west [1] 4096, epoch 4000000000000000, workers 8, pace 1, bounds 3000 7000 1000",
    ),
    (
        "[farm]\ncommit_delay = 0\nread_lag = 0\nskew = 1\n",
        "home [1] 4096, west [1] 4096, epoch 0, workers 1, pace 1000, bounds 0 0 1",
    ),
    (
        "[farm]\ncommit_delay = 60000\nread_lag = 0x10\nskew = 60_000\n",
        "home [1] 4096, west [1] 4096, epoch 0, workers 1, pace 1000, bounds 60000 16 60000",
    ),
];

#[test]
fn a_layout_says_its_plan(rt: HostRuntime) -> Result<(), Fail> {
    for (text, wanted) in LAYOUTS {
        let plan = layout_of(rt.alloc(), text.as_bytes())?;
        let found = plan_text(rt.alloc(), &plan)?;
        assert_eq!(rt; found.as_str(), wanted);
    }
    Ok(())
}

fn plan_text(alloc: Global, plan: &FarmPlan) -> Result<String, Fail> {
    let home = region_text(alloc, &plan.home)?;
    let west = region_text(alloc, &plan.west)?;
    let farm = farm_text(alloc, plan)?;
    Ok(format!(in alloc; "home {home}, west {west}, {farm}")?)
}

fn region_text(alloc: Global, plan: &RegionPlan) -> Result<String, Fail> {
    let (weights, slots) = (plan.weights.as_slice(), plan.slots);
    Ok(format!(in alloc; "{weights:?} {slots}")?)
}

fn farm_text(alloc: Global, plan: &FarmPlan) -> Result<String, Fail> {
    let (epoch, workers, pace) = (plan.epoch.0, plan.workers, plan.pace);
    let bounds = bounds_text(alloc, plan)?;
    Ok(format!(in alloc; "epoch {epoch}, workers {workers}, pace {pace}, bounds {bounds}")?)
}

fn bounds_text(alloc: Global, plan: &FarmPlan) -> Result<String, Fail> {
    let (delay, lag, skew) = (
        plan.bounds.commit_delay,
        plan.bounds.read_lag,
        plan.bounds.skew,
    );
    Ok(format!(in alloc; "{delay} {lag} {skew}")?)
}

// the text, and the first rule that it breaks
const BROKEN: [(&str, u8); 24] = [
    ("[home", 1),
    ("[farm]\npace = 1\npace = 2\n", 1),
    ("[farm]\nepoch = 9223372036854775808\n", 1),
    ("[farm]\npace = 01\n", 1),
    ("[edge]\n", 2),
    ("pace = 1\n", 2),
    ("[Home]\n", 2),
    ("[home]\npace = 1\n", 2),
    ("[farm]\nslots = 256\n", 2),
    ("[farm]\nskews = 0\n[home]\nslots = 1.0\n", 2),
    ("home = 4096\n", 3),
    ("[[home]]\nslots = 4096\n", 3),
    ("[home.weights]\nx = 1\n", 3),
    ("[farm]\npace = \"1\"\n", 3),
    ("[west]\nweights = [1, 2.0]\n", 3),
    ("[west]\nweights = 1\n", 3),
    ("[farm]\npace = 0\nepoch = 1979-05-27\n", 3),
    ("[farm]\nepoch = -1\n", 4),
    ("[farm]\nskew = 0\n", 4),
    ("[farm]\nworkers = 9\n", 4),
    ("[home]\nslots = 255\n", 4),
    ("[west]\nweights = []\n", 4),
    ("[west]\nweights = [1, 1, 1, 1, 1, 1, 1, 1, 1]\n", 4),
    ("[west]\nweights = [1001]\n", 4),
];

#[test]
fn the_first_broken_rule_is_answered(rt: HostRuntime) -> Result<(), Fail> {
    for (text, rule) in BROKEN {
        let found = rule_of(rt.alloc(), text.as_bytes())?;
        assert_eq!(rt; found, rule);
    }
    Ok(())
}

// The rule that the bytes break first; 0 if they are a layout.
fn rule_of(alloc: Global, bytes: &[u8]) -> Result<u8, Fail> {
    match layout_of(alloc, bytes) {
        Ok(_) => Ok(0),
        Err(LayoutFault::Rule(rule)) => Ok(rule),
        Err(LayoutFault::Memory) => Err(LayoutFault::Memory.into()),
    }
}

#[test]
fn bytes_that_are_no_utf8_are_no_document(rt: HostRuntime) -> Result<(), Fail> {
    let rule = rule_of(rt.alloc(), b"# caf\xe9\n")?;
    assert_eq!(rt; rule, 1);
    Ok(())
}

#[test]
fn a_layout_may_have_65536_bytes(rt: HostRuntime) -> Result<(), Fail> {
    let mut text = Vec::new(rt.alloc());
    for _ in 0..LAYOUT_MAX {
        text.push(b'\n')?;
    }
    let rule = rule_of(rt.alloc(), &text)?;
    assert_eq!(rt; rule, 0);
    text.push(b'\n')?;
    let rule = rule_of(rt.alloc(), &text)?;
    assert_eq!(rt; rule, 1);
    Ok(())
}
