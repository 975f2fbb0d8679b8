// Which slot a title has.
use crate::setting::title_named;
use slot_cache::{SLOTS_MAX, SLOTS_MIN, slot_of};
use std::test::Fail;

// title, its slot of 256, its slot of 65,536: by `int(md5(title).hexdigest()[:16], 16) % slots` of Python
const SLOTS: [(&str, u32, u32); 8] = [
    ("A", 168, 4_008),
    ("B", 202, 48_330),
    ("C", 65, 7_489),
    ("D", 187, 25_275),
    ("E", 44, 13_100),
    ("F", 95, 12_639),
    ("G", 166, 27_046),
    ("H", 26, 23_066),
];

#[test]
fn the_titles_a_to_h_have_known_slots(rt: HostRuntime) -> Result<(), Fail> {
    for (text, of_256, of_65_536) in SLOTS {
        let title = title_named(rt.alloc(), text)?;
        assert_eq!(rt; slot_of(&title, SLOTS_MIN), of_256);
        assert_eq!(rt; slot_of(&title, SLOTS_MAX), of_65_536);
    }
    Ok(())
}
