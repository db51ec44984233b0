//! The greatest core file. Its rows and its notes are shown by crates/scenes/data/core-rows.scenes and core-notes.scenes.

use crate::bytes::{first_other, put_page, spell};
use page_memory::Memory;
use std::test::Fail;
use vmcore_file::make;

// The headers of a core file for x86-64 with two loads (ELF gABI, chapters 4 and 5): 384 MiB from 0 on, and 128 MiB from
// 0x102003 on.
const HEADERS: [u64; 22] = [
    0x0001_0102_464c_457f,
    0,
    0x0000_0001_003e_0004,
    0,
    64,
    0,
    0x0038_0040_0000_0000,
    2,
    1,
    0,
    0,
    0,
    0x1800_0000,
    0x1800_0000,
    0,
    1,
    0x10_2003,
    0,
    0x10_2003,
    0x800_0000,
    0x800_0000,
    0,
];

// All bytes of the loads together may be 512 MiB. The page stands in both: 0x102000 bytes behind the start of the first one,
// and its third byte at the start of the second.
#[test]
fn the_greatest_file_is_made(rt: HostRuntime) -> Result<(), Fail> {
    let alloc = rt.alloc();
    let mut memory = Memory::empty(alloc);
    put_page(&mut memory, 0x101, &spell(alloc, &HEADERS)?)?;
    put_page(&mut memory, 0x102, b"the last page")?;
    let core = make(alloc, &memory, 0x10_1000)?;
    assert_eq!(rt;
        (core.bytes.len(), core.loads, core.notes),
        (0x2000_1003, 2, 0)
    );
    let places: [(usize, &[u8]); 2] = [(0x10_3000, b"the last page"), (0x1800_1003, b" last page")];
    assert_eq!(rt; first_other(&core.bytes, &places), None);
    Ok(())
}
