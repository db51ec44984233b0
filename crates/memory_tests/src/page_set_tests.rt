//! Sets of pages by their spans, at the limit of pages too, and the room that a buffer is given.

use kx_pages::{PAGE_LIMIT, Page, PageSet, Span, room_for};
use std::test::Fail;

fn page(number: u64) -> Result<Page, &'static str> {
    Page::new(number).ok_or("a page")
}

fn span(first: u64, count: u64) -> Result<Span, &'static str> {
    Span::new(first, count).ok_or("a span")
}

#[test]
fn spans_join_and_part(rt: HostRuntime) -> Result<(), Fail> {
    let mut set = PageSet::new(rt.alloc());
    set.add(span(2, 3)?)?;
    set.add(span(5, 2)?)?;
    assert_eq!(rt; (set.spans(), set.total()), (1, 5));
    set.cut(span(4, 1)?)?;
    assert_eq!(rt; set.spans(), 2);
    let held = (set.holds(page(4)?), set.holds(page(6)?));
    assert_eq!(rt; held, (false, true));
    let met = (set.meets(span(4, 1)?), set.meets(span(4, 2)?));
    assert_eq!(rt; met, (false, true));
    let copy = set.try_copy()?;
    assert_eq!(rt; copy.total(), 4);
    Ok(())
}

#[test]
fn sets_are_made_of_spans_and_parted(rt: HostRuntime) -> Result<(), Fail> {
    let alloc = rt.alloc();
    let set = PageSet::from_spans(
        alloc,
        vec![in alloc; span(8, 2)?, span(0, 3)?, span(3, 0)?, span(2, 4)?]?,
    )?;
    assert_eq!(rt; (set.spans(), set.total()), (2, 8));
    let other = PageSet::from_spans(alloc, vec![in alloc; span(9, 100)?, span(4, 1)?]?)?;
    let rest = set.difference(&other)?;
    assert_eq!(rt; (rest.spans(), rest.total()), (3, 6));
    let held = (rest.holds(page(8)?), rest.holds(page(9)?));
    assert_eq!(rt; held, (true, false));
    Ok(())
}

#[test]
fn pages_end_at_the_limit(rt: HostRuntime) -> Result<(), Fail> {
    assert!(rt; Page::new(PAGE_LIMIT).is_none());
    assert!(rt; Span::new(PAGE_LIMIT - 1, 2).is_none());
    assert_eq!(rt; page(PAGE_LIMIT - 1)?.address(), 0x3fff_ffff_f000);
    let mut set = PageSet::new(rt.alloc());
    set.add(span(PAGE_LIMIT, 0)?)?;
    assert_eq!(rt; set.spans(), 0);
    set.add(span(PAGE_LIMIT - 1, 1)?)?;
    assert!(rt; set.holds(page(PAGE_LIMIT - 1)?));
    assert_eq!(rt; set.span(0).first(), PAGE_LIMIT - 1);
    Ok(())
}

#[test]
fn large_buffers_get_whole_huge_pages_but_for_one_page(rt: HostRuntime) -> Result<(), Fail> {
    let rows = [
        (3, 3),
        (0x1f_ffff, 0x1f_ffff),
        (0x20_0000, 0x3f_f000),
        (0x3f_f000, 0x3f_f000),
        (0x3f_f001, 0x5f_f000),
        (usize::MAX, usize::MAX),
    ];
    for (bytes, wanted) in rows {
        assert_eq!(rt; room_for(bytes), wanted, "{bytes} bytes");
    }
    Ok(())
}
