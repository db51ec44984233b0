//! What a caller of segments asks for: the bytes of a page, how many pages a load takes, and the number of an error.
//! The rules of segments are shown by crates/scenes/data/records.scenes and requests.scenes.

use kx_pages::{Page, Wish};
use segments::{SegFault, Segment, Segments};
use std::test::*;

// The numbers of Linux's errors: ENOMEM, EINVAL and EADDRNOTAVAIL; 0 where kexec_load(2) does not refuse so.
const ERRNOS: [(SegFault, u8); 10] = [
    (SegFault::Memory, 12),
    (SegFault::NoSegments, 0),
    (SegFault::TooMany, 22),
    (SegFault::BadAddress { i: 0 }, 99),
    (SegFault::Overlap { i: 1, j: 0 }, 22),
    (SegFault::TooFull { i: 0 }, 22),
    (SegFault::HalfOfMemory, 22),
    (SegFault::OutsideReserved { i: 0 }, 99),
    (SegFault::NotRam { i: 0 }, 0),
    (SegFault::TooLarge { pages: 65_537 }, 0),
];

#[test]
fn each_fault_has_its_errno(rt: HostRuntime) {
    for (fault, errno) in ERRNOS {
        assert_eq!(rt; fault.errno(), errno, "{fault}");
    }
}

#[test]
fn a_page_has_its_bytes(rt: HostRuntime) -> Result<(), Fail> {
    let a = rt.alloc();
    let mut bytes = Vec::new(a);
    bytes.extend_from_slice(b"abc")?;
    let mut one = Vec::new(a);
    one.push(Segment {
        bytes,
        mem: 0x2000,
        memsz: 0x2000,
    })?;
    let mut segments = Segments::bare(a, one).ok().ok_or("segments")?;
    assert_eq!(rt; (segments.count(), segments.pages()), (1, 2));
    let need = (segments.need(Wish::Plain), segments.need(Wish::Kept));
    assert_eq!(rt; need, (4, 5));
    if segments.count() == 1 && segments.segment(0).bytes.len() == 3 {
        let span = segments.span(0);
        assert_eq!(rt; (span.first(), span.count()), (2, 2));
        segments.replace(0, b"abd");
    }
    let rows: [(u64, Option<&[u8]>); 3] = [(2, Some(b"abd")), (3, Some(b"")), (4, None)];
    for (number, wanted) in rows {
        let page = Page::new(number).ok_or("a page")?;
        assert!(rt; segments.wanted(page) == wanted, "page {number}");
    }
    Ok(())
}
