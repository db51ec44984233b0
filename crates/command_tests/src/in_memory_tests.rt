//! The first boot over files in memory alone, on the shelf that never fails.

use crate::first_example::{BOOT, BOOT_TEXT, FILES, RUN};
use crate::scene::{join, make_files, words};
use kexec_main::kexec_in_memory;
use kx_edge::{CalmShelf, MemorySink, Shelf};
use std::test::Fail;

#[test]
fn the_first_boot_is_done_in_memory(rt: HostRuntime) -> Result<(), Fail> {
    let alloc = rt.alloc();
    let mut shelf = CalmShelf::new(alloc, make_files(alloc, FILES)?);
    shelf.reserve("o", 20000)?;
    let mut sink = MemorySink::new(alloc, Vec::new(alloc));
    sink.reserve(400)?;
    let status = kexec_in_memory(alloc, &words(alloc, BOOT.line)?, &mut shelf, &mut sink);
    assert_eq!(rt; status.code(), 0);
    assert_eq!(rt; sink.said(), BOOT_TEXT.as_bytes());
    assert!(rt; shelf.take(alloc, "o", 20000)? == join(alloc, RUN)?);
    Ok(())
}
