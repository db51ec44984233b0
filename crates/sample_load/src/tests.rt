use crate::drawn_segments::{bytes_of, draw_shape};
use crate::draws::Generator;
use std::test::Fail;

/// A number, and what is drawn of its first, second and last segment: the pages before it, its pages, and the bytes that
/// are missing (by a program in another language).
const DRAWS: [(u64, [u64; 3], [u64; 3], [u64; 3]); 3] = [
    (0, [63, 265, 3089], [52, 110, 3995], [8, 440, 747]),
    (1, [22, 346, 204], [38, 347, 243], [22, 245, 3845]),
    (
        999999999999999999,
        [18, 503, 2587],
        [28, 165, 2985],
        [0, 267, 2523],
    ),
];

/// Bytes of segment 3: their places, and what they are.
const BYTES: [(usize, u8); 6] = [(0, 93), (1, 100), (23, 254), (24, 5), (255, 86), (256, 94)];

#[test]
fn three_draws_make_a_segment(rt: HostRuntime) -> Result<(), Fail> {
    for (number, first, second, last) in DRAWS {
        let mut generator = Generator { state: number };
        for i in 0..16 {
            let shape = draw_shape(&mut generator);
            let drawn = [shape.gap, shape.count, shape.short];
            let is_wanted = match i {
                0 => drawn == first,
                1 => drawn == second,
                15 => drawn == last,
                _ => true,
            };
            assert!(rt; is_wanted, "segment {i} of {number}");
        }
    }
    Ok(())
}

#[test]
fn bytes_are_told_by_segment_and_place(rt: HostRuntime) -> Result<(), Fail> {
    let bytes = bytes_of(rt.alloc(), 3, 257)?;
    assert_eq!(rt; bytes.len(), 257);
    for (place, byte) in BYTES {
        assert!(rt; bytes.get(place) == Some(&byte), "byte {place}");
    }
    Ok(())
}
