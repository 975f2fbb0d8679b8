// Bounds of time, and the lists for public fields.
use farm_base::{Bounds, Listed, ListedText};
use std::test::Fail;

#[test]
fn the_default_hold_off_is_eleven_seconds(rt: HostRuntime) {
    assert_eq!(rt; Bounds::default().hold_off(), 11_000);
    assert!(rt; Bounds::DEFAULT.are_allowed());
}

#[test]
fn clocks_that_never_differ_are_not_allowed(rt: HostRuntime) {
    let still = Bounds {
        skew: 0,
        ..Bounds::DEFAULT
    };
    assert!(rt; !still.are_allowed());
}

#[test]
fn lists_give_back_what_they_were_made_from(rt: HostRuntime) -> Result<(), Fail> {
    let list = Listed::new([3u8, 5].to_vec(rt.alloc())?);
    assert_eq!(rt; list.as_slice(), [3u8, 5].as_slice());
    assert_eq!(rt; list.into_vec().as_slice(), [3u8, 5].as_slice());
    let text = ListedText::new(String::from_str(rt.alloc(), "wiki")?);
    assert_eq!(rt; text.as_str(), "wiki");
    assert_eq!(rt; text.into_string().as_str(), "wiki");
    Ok(())
}
