//! How long what a kernel finds would be, before anything is made, where 64 bits do not hold it.

use memory_map::Map;
use multiboot_image::info_length;
use std::test::Fail;

// With and without rows that have no room in the zero page.
#[test]
fn a_length_is_that_of_the_parameters(rt: HostRuntime) -> Result<(), Fail> {
    let table = [
        (0, 0, 4097),
        (128, 1, 4098),
        (130, 1, 4160),
        (129, 7, 4140),
        (129, 8, 4148),
        (1152, 0, 24_600),
        (1153, 0, 24_620),
        (0, usize::MAX - 4098, u64::MAX - 1),
        (0, usize::MAX - 4097, u64::MAX),
        (0, usize::MAX, u64::MAX),
        (usize::MAX, 0, u64::MAX),
        (usize::MAX, usize::MAX, u64::MAX),
    ];
    for (rows, command, wanted) in table {
        assert_eq!(rt;
            boot_params::length(rows, command),
            wanted,
            "{rows} rows, {command} bytes"
        );
    }
    Ok(())
}

#[test]
fn a_length_of_headers_has_an_end(rt: HostRuntime) -> Result<(), Fail> {
    let map = Map::read(rt.alloc(), b"0-fff : System RAM\n4000-4fff : System RAM\n")?;
    for (notes, wanted) in [(0, 176), (1023, 57_464), (usize::MAX, u64::MAX)] {
        assert_eq!(rt; crash_headers::length(&map, notes), wanted, "{notes} notes");
    }
    Ok(())
}

// How many rows and how long a command, and the bytes of the information.
#[test]
fn a_length_of_information_has_an_end(rt: HostRuntime) {
    for (rows, command, wanted) in [
        (1, 1, 120),
        (0, usize::MAX, u64::MAX),
        (usize::MAX, 0, u64::MAX),
    ] {
        assert_eq!(rt;
            info_length(rows, command, &[]),
            wanted,
            "{rows} rows, {command} bytes"
        );
    }
}
