//! The first page of a kernel that is not System RAM. The fault of the segments names the segment alone, so that the
//! sentence can name the page, the map and the kernel are read once more.

use command_parts::Status;
use elf_image::{image_pages, read_exec};
use kexec_usage::{Given, text_of};
use kx_pages::{PageSet, Span};
use memory_map::Map;
use multiboot_image::{find_header, load_parts};
use plan_faults::PlanFault;
use segments::{SegFault, Segment};
use std::alloc::Global;
use std::fs;
use std::rt::Files;
use text_lines::number;

// The bytes of a regular file: what is none, as a pipe, gives them once.
fn read_again<R: Files + AllocGlobal>(rt: &R, name: &str) -> Option<Vec<u8>> {
    let about = fs::metadata(rt, name).ok()?;
    if !about.is_file() {
        return None;
    }
    fs::read(rt, name).ok()
}

fn multiboot_segments(alloc: Global, file: &[u8]) -> Option<Vec<Segment>> {
    let header = find_header(file).ok()?;
    let parts = load_parts(alloc, &header, file).ok()?;
    Some(parts.list)
}

fn elf_segments(alloc: Global, file: &[u8]) -> Option<Vec<Segment>> {
    let exec = read_exec(alloc, file).ok()?;
    image_pages(alloc, exec, file).ok()
}

// The segments of a kernel whose file says where it lies. A Multiboot kernel may be an ELF executable besides.
fn placed_segments(alloc: Global, given: &[Given<'_>], file: &[u8]) -> Option<Vec<Segment>> {
    if text_of(given, "--type") == Some("elf") {
        return elf_segments(alloc, file);
    }
    match multiboot_segments(alloc, file) {
        Some(list) => Some(list),
        None => elf_segments(alloc, file),
    }
}

// The pages of segment i of the kernel: a raw one is its first.
fn span_of(alloc: Global, given: &[Given<'_>], file: &[u8], i: usize) -> Option<Span> {
    if text_of(given, "--type") == Some("raw") {
        let at = number(text_of(given, "--at")?.as_bytes())?;
        return Some(Span::meeting(at, at.saturating_add(file.len() as u64)));
    }
    let list = placed_segments(alloc, given, file)?;
    let segment = list.get(i)?;
    Some(Span::meeting(segment.mem, segment.mem.saturating_add(segment.memsz)))
}

// The first page of the span that is not in the set.
fn first_outside(alloc: Global, span: Span, set: &PageSet) -> Option<u64> {
    let mut pages = PageSet::new(alloc);
    pages.add(span).ok()?;
    let outside = pages.difference(set).ok()?;
    if outside.spans() == 0 {
        return None;
    }
    Some(outside.span(0).first())
}

// The pages of segment i of the kernel that is given.
fn kernel_span<R: Files + AllocGlobal>(rt: &R, given: &[Given<'_>], i: usize) -> Option<Span> {
    let file = read_again(rt, text_of(given, "KERNEL")?)?;
    span_of(rt.alloc(), given, &file, i)
}

// The first of them that is not RAM of the map.
fn first_page<R: Files + AllocGlobal>(rt: &R, given: &[Given<'_>], i: usize) -> Option<u64> {
    let span = kernel_span(rt, given, i)?;
    let text = read_again(rt, text_of(given, "--map")?)?;
    let map = Map::read(rt.alloc(), &text).ok()?;
    first_outside(rt.alloc(), span, map.ram())
}

/// The number of the first page that is not System RAM of the segment that was refused for it, where the system gives both
/// files once more.
pub(crate) fn page_outside_ram<R: Files + AllocGlobal>(
    rt: &R,
    given: &[Given<'_>],
    status: &Status,
) -> Option<u64> {
    match status {
        Status::Plan {
            fault: PlanFault::Segments {
                fault: SegFault::NotRam { i },
            },
        } => first_page(rt, given, *i),
        _ => None,
    }
}
