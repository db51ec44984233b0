//! Ranges that meet, and ranges that only touch.

use range_index::RangeIndex;
use std::test::Fail;

// From a number on and before another one, and whether one of the ranges has a number there.
const ASKED: [(u64, u64, bool); 7] = [
    (5, 10, false),
    (4, 6, true),
    (9, 11, true),
    (19, 20, true),
    (21, 30, false),
    (20, 20, false),
    (0, u64::MAX, true),
];

#[test]
fn ranges_meet_where_they_share_a_number(rt: HostRuntime) -> Result<(), Fail> {
    let mut index = RangeIndex::new(rt.alloc());
    assert!(rt; !index.meets(0, u64::MAX));
    for (start, end) in [(10, 20), (0, 5), (20, 21), (30, u64::MAX)] {
        assert!(rt; !index.meets(start, end), "before {start} to {end}");
        index.add(start, end)?;
        assert!(rt; index.meets(start, end), "behind {start} to {end}");
    }
    for (start, end, wanted) in ASKED {
        assert_eq!(rt; index.meets(start, end), wanted, "{start} to {end}");
    }
    Ok(())
}
