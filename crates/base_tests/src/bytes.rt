// Small work on bytes.
use farm_base::bytes::decimal;
use std::test::Fail;

const NUMBERS: [(u64, &str); 4] = [
    (0, "0"),
    (7, "7"),
    (1_000_000, "1000000"),
    (u64::MAX, "18446744073709551615"),
];

#[test]
fn a_number_is_written_without_leading_zeros(rt: HostRuntime) -> Result<(), Fail> {
    for (number, wanted) in NUMBERS {
        let text = decimal(rt.alloc(), number)?;
        assert_eq!(rt; text.as_str(), wanted);
    }
    Ok(())
}
