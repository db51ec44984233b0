//! What a caller of a memory does: pages are held, set and copied, files are handed in; and each prefix of a file. What
//! commands read and write is shown by crates/scenes/data/memories.scenes.

use kx_pages::Page;
use page_memory::{MemFault, Memory};
use std::test::*;

fn page(number: u64) -> Result<Page, &'static str> {
    Page::new(number).ok_or("a page")
}

#[test]
fn reads_what_it_writes(rt: HostRuntime) -> Result<(), Fail> {
    let mut memory = Memory::empty(rt.alloc());
    let first = page(2)?;
    let second = page(3)?;
    memory.hold(first)?;
    memory.hold_all(&[first, second])?;
    if memory.held(first) && memory.held(second) {
        memory.set(first, b"abc");
        memory.copy(second, first);
    }
    assert_eq!(rt; memory.sets(), 1);
    let file = memory.write().ok().ok_or("a file")?;
    assert_eq!(rt; file.len(), 16 + 2 * 4104);
    let again = Memory::read(rt.alloc(), &file).ok().ok_or("a memory")?;
    let found = (again.byte(0x3001), again.word(0x2000), again.sets());
    assert_eq!(rt; found, (98, 0x63_6261, 0));
    let same = (again.equals(second, b"abc"), again.agrees(&memory, first));
    assert_eq!(rt; same, (true, true));
    Ok(())
}

#[test]
fn a_file_that_is_handed_in_is_the_memory(rt: HostRuntime) -> Result<(), Fail> {
    let file = file_of_one_page(&rt, &[98; 4096])?;
    let mut memory = Memory::from_file(rt.alloc(), file).ok().ok_or("a memory")?;
    let first = page(0)?;
    let later = page(7)?;
    memory.hold(later)?;
    if memory.held(first) && memory.held(later) {
        memory.copy(later, first);
        memory.set(first, b"abc");
    }
    let same = (
        memory.equals(later, &[98; 4096]),
        memory.equals(first, b"abc"),
    );
    assert_eq!(rt; same, (true, true));
    assert_eq!(rt;
        Memory::from_file(rt.alloc(), Vec::new(rt.alloc())).err(),
        Some(MemFault::BadMagic)
    );
    Ok(())
}

#[test]
fn a_held_page_is_zeros(rt: HostRuntime) -> Result<(), Fail> {
    let mut memory = Memory::empty(rt.alloc());
    memory.hold(page(5)?)?;
    assert_eq!(rt; memory.page(page(5)?), Some(&[0; 4096][..]));
    assert_eq!(rt; memory.page(page(6)?), None);
    Ok(())
}

fn fault(rt: &HostRuntime, file: &[u8]) -> Option<MemFault> {
    Memory::read(rt.alloc(), file).err()
}

// A file of one page, number 0.
fn file_of_one_page(rt: &HostRuntime, page: &[u8; 4096]) -> Result<Vec<u8>, Fail> {
    let mut file = Vec::new(rt.alloc());
    file.extend_from_slice(b"KXMEM001\x01\0\0\0\0\0\0\0")?;
    file.extend_from_slice(&[0; 8])?;
    file.extend_from_slice(page)?;
    Ok(file)
}

#[test]
fn each_prefix_of_a_file_is_refused(rt: HostRuntime) -> Result<(), Fail> {
    let file = file_of_one_page(&rt, &[98; 4096])?;
    assert_eq!(rt; file.len(), 4120);
    for at in 0..file.len() {
        let wanted = if at < 8 {
            MemFault::BadMagic
        } else {
            MemFault::Truncated { at: at as u64 }
        };
        assert_eq!(rt; fault(&rt, &file[..at]), Some(wanted), "{at} bytes");
    }
    assert_eq!(rt; fault(&rt, &file), None);
    Ok(())
}
