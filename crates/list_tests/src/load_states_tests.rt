//! What a caller of the states does and has back: a write between two runs, and what a refusal gives back. What loads and
//! runs leave is shown by crates/scenes/data.

use kx_pages::{Image, Mode, Page};
use list_checker::Why;
use load_states::{Accepted, AcceptedKept, CrashLoaded, Loaded, NotAccepted, load_crash};
use page_memory::Memory;
use page_pool::Pool;
use segments::{Segment, Segments};
use std::alloc::Global;
use std::test::*;

// The page of this number.
fn page(number: u64) -> Result<Page, &'static str> {
    Page::new(number).ok_or("a page")
}

// The mode in which context is preserved, with this swap page.
fn kept_by(swap: u64) -> Result<Mode, &'static str> {
    Ok(Mode::Kept { swap: page(swap)? })
}

// A list with this head, this mode and this control page.
fn image(head: u64, mode: Mode, control: u64) -> Result<Image, &'static str> {
    let control = page(control)?;
    Ok(Image {
        head,
        mode,
        control,
    })
}

// The page becomes these bytes, then zeros.
fn put(memory: &mut Memory, number: u64, bytes: &[u8]) -> Result<(), Fail> {
    let page = page(number)?;
    if bytes.len() > 4096 {
        return Err("too many bytes".into());
    }
    memory.hold(page)?;
    memory.set(page, bytes);
    Ok(())
}

// A memory whose pages of these numbers are these bytes, then zeros.
fn memory_of(alloc: Global, pages: &[(u64, &[u8])]) -> Result<Memory, Fail> {
    let mut memory = Memory::empty(alloc);
    for (number, bytes) in pages {
        put(&mut memory, *number, bytes)?;
    }
    Ok(memory)
}

// One segment: these bytes, then zeros, in so much memory at this address.
fn one_segment(alloc: Global, bytes: Vec<u8>, mem: u64, memsz: u64) -> Result<Segments, Fail> {
    match Segments::bare(alloc, vec![in alloc; Segment { bytes, mem, memsz }]?) {
        Ok(segments) => Ok(segments),
        Err(_) => Err("segments".into()),
    }
}

// Two pages from this address on are to be b and c.
fn b_and_c(alloc: Global, mem: u64) -> Result<Segments, Fail> {
    let mut bytes = vec![in alloc; 0; 4097]?;
    bytes[0] = b'b';
    bytes[4096] = b'c';
    one_segment(alloc, bytes, mem, 0x2000)
}

fn load(alloc: Global, memory: Memory, image: Image, mem: u64) -> Result<Loaded, Fail> {
    let pool = Pool::new(alloc, Vec::new(alloc)).ok().ok_or("a pool")?;
    Ok(Loaded::from_parts(memory, pool, image, b_and_c(alloc, mem)?))
}

// The list 0x2001, 0x2008, 0x13008, 4: page 2 is its own source, page 0x13 is the source of page 3.
const KEPT_LIST: &[u8] = b"\x01\x20\0\0\0\0\0\0\x08\x20\0\0\0\0\0\0\x08\x30\x01\0\0\0\0\0\x04";

const KEPT: [(u64, &[u8]); 4] = [(2, b"b"), (3, b"old"), (0x13, b"c"), (0x12, KEPT_LIST)];

fn kept(alloc: Global) -> Result<AcceptedKept, Fail> {
    let memory = memory_of(alloc, &KEPT)?;
    let image = image(0x12002, kept_by(0x11)?, 0x10)?;
    match load(alloc, memory, image, 0x2000)?.accept(alloc) {
        Ok(Accepted::Kept(accepted)) => Ok(accepted),
        _ => Err("accepted".into()),
    }
}

// The first bytes of pages 2, 3 and 13 (hexadecimal).
fn first_bytes(memory: &Memory) -> [u8; 3] {
    [
        memory.byte(0x2000),
        memory.byte(0x3000),
        memory.byte(0x13000),
    ]
}

#[test]
fn a_write_to_an_own_source_stays(rt: HostRuntime) -> Result<(), Fail> {
    let two = page(2)?;
    let accepted = kept(rt.alloc())?;
    if accepted.segments().wanted(two).is_none() {
        return Err("wanted".into());
    }
    let mut ran = accepted.exec();
    ran.touch(two, b"z");
    let back = ran.back();
    assert_eq!(rt; first_bytes(back.memory()), [b'z', b'o', b'c']);
    Ok(())
}

// The head links to a page of zeros, whose first word has no flag.
fn refused(alloc: Global) -> Result<NotAccepted, Fail> {
    let loaded = load(
        alloc,
        Memory::empty(alloc),
        image(0x20002, Mode::Plain, 0x21)?,
        0x3000,
    )?;
    match loaded.accept(alloc) {
        Ok(_) => Err("refused".into()),
        Err(refused) => Ok(refused),
    }
}

#[test]
fn a_refused_list_comes_back(rt: HostRuntime) -> Result<(), Fail> {
    let NotAccepted { loaded, .. } = refused(rt.alloc())?;
    let (_, pool, image, segments) = loaded.parts();
    assert_eq!(rt;
        (pool.left(), image.head, segments.count()),
        (0, 0x20002, 1)
    );
    Ok(())
}

// The crash kernel b and c.
fn crash(alloc: Global) -> Result<CrashLoaded, Fail> {
    let segments = b_and_c(alloc, 0x2000)?;
    Ok(
        load_crash(alloc, Memory::empty(alloc), segments)
            .ok()
            .ok_or("memory")?,
    )
}

#[test]
fn a_refused_crash_kernel_comes_back(rt: HostRuntime) -> Result<(), Fail> {
    let ran = crash(rt.alloc())?.accept().ok().ok_or("accepted")?.exec();
    let segments = b_and_c(rt.alloc(), 0x2000)?;
    let again = CrashLoaded::from_parts(ran.into_memory(), 0x20002, segments);
    let Err((given_back, fault)) = again.accept() else {
        return Err("refused".into());
    };
    assert_eq!(rt; fault.why, Why::HeadKind);
    let (memory, head, segments) = given_back.parts();
    assert_eq!(rt;
        (memory.byte(0x2000), head, segments.count()),
        (b'b', 0x20002, 1)
    );
    Ok(())
}
