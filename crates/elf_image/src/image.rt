//! The segments that an executable is loaded as.

ghost use Rattle.kx_laws.specs.inner.Results.{Gives};
ghost use Rattle.elf_image.specs.declared.fault.ElfFault.TheVariants.{Memory};
ghost use Rattle.std.specs.Prelude.{Ok, map, ◌≡◌, ℕ, List, ◌+◌, ◌-◌, ◌*◌, ◌/◌, ◌++◌, ◌∷◌, ◌<◌, ◌≤◌, ◌^◌, ◌==◌, [], take, drop, replicate, length, OnOk, IfOk};
ghost use Rattle.std.specs.List.{slice_get};
ghost use Rattle.std.specs.List.Sorted.{IsPermutation, IsNonDecreasingBy};
ghost use Rattle.kx_pages.specs.Spans.{Run, in_span, in_spans};
ghost use Rattle.elf_image.specs.declared.load.Load.{Load};
ghost use Rattle.elf_image.specs.Loads.{load_stop, exec_reading};
ghost use Rattle.elf_image.specs.Image.{load_meets_page, is_met, segments_of, image};
ghost use Rattle.elf_image.specs.inner.Image.{run_of, AreRuns};
ghost use Rattle.elf_image.specs.inner.Joined.{IsLoad, AreLoads, AreSound, first_of, end_of, grown, part, joined_to, join};

use crate::exec::Exec;
use crate::fault::ElfFault;
use crate::load::Load;
use kx_pages::{PAGE_SIZE, PageSet, SEGMENT_PAGE_LIMIT, Span, room_for, whole_pages};
use segments::Segment;
use std::alloc::{AllocError, Global};

/// A segment that grows: its bytes, its address, and the address behind its pages.
#[derive(Drop)]
struct Open {
    bytes: Vec<u8>,
    mem: u64,
    stop: u64,
}

// The pages that a load meets.
fn met_pages(load: &Load) -> Span
    requires { load_stop load.now ≤ 2 ^ 46 }
    ensures { (p : ℕ) → in_span result p ≡ load_meets_page p load.now }
{
    Span::meeting(load.paddr, load.paddr + load.memsz)
}

fn met_spans(alloc: Global, loads: &[Load]) -> Result<Vec<Span>, AllocError>
    requires { (n : ℕ) × AreLoads n loads.now }
    ensures { IfOk result (λ v. (p : ℕ) → in_spans v.items p ≡ is_met loads.now p) }
{
    let mut spans = Vec::new(alloc);
    for load in loads {
        spans.push(met_pages(load))?;
    }
    Ok(spans)
}

// The pages that the loads meet.
fn pages_of(alloc: Global, loads: &[Load]) -> Result<PageSet, AllocError>
    requires { (n : ℕ) × AreLoads n loads.now }
    ensures { IfOk result (λ s. (p : ℕ) → in_spans s p ≡ is_met loads.now p) }
{
    let spans = met_spans(alloc, loads)?;
    let pages = PageSet::from_spans(alloc, spans)?;
    Ok(pages)
}

// The room for the bytes of the run of pages number `k`.
fn room_of(pages: &PageSet, k: usize) -> usize
    ensures enough { (r : Run) → slice_get pages.now k ≡ Some r → 4096 * r.count ≤ result }
{
    if k >= pages.spans() {
        return 0;
    }
    room_for((pages.span(k).count() * PAGE_SIZE) as usize)
}

impl Load {
    // The address of its first page.
    fn first_page(&self) -> u64
        ensures { result ≡ first_of self.now }
    {
        self.paddr / PAGE_SIZE * PAGE_SIZE
    }

    // The address behind its last page.
    fn end_page(&self) -> u64
        requires { load_stop self.now ≤ 2 ^ 46 }
        ensures { result ≡ end_of self.now }
    {
        whole_pages(self.paddr + self.memsz)
    }

    // Its bytes in the file.
    fn file_part<'a>(&self, file: &'a [u8]) -> &'a [u8]
        requires { self.now.offset + self.now.filesz ≤ length file.now }
        ensures { result.now ≡ take self.now.filesz (drop self.now.offset file.now) }
    {
        let (_, behind) = file.split_at(self.offset as usize);
        let (part, _) = behind.split_at(self.filesz as usize);
        part
    }
}

// Puts these bytes behind the others, at the place `at` or behind them, with zeros between.
fn put_at(out: &mut Vec<u8>, at: usize, bytes: &[u8]) -> Result<(), AllocError>
    ensures { OnOk result (out.new.items
        ≡ out.old.items ++ (replicate (at - length out.old.items) 0 ++ bytes.now)) }
{
    let behind = at.max(out.len());
    out.resize(behind, 0)?;
    out.extend_from_slice(bytes)?;
    Ok(())
}

// The bytes of a segment at `mem` get the file part of a load.
fn put_load(out: &mut Vec<u8>, mem: u64, load: &Load, file: &[u8]) -> Result<(), AllocError>
    requires { IsLoad (length file.now) load.now }
    ensures { OnOk result (out.new.items ≡ grown file.now load.now out.old.items mem) }
{
    if load.filesz == 0 {
        return Ok(());
    }
    put_at(
        out,
        load.paddr.saturating_sub(mem) as usize,
        load.file_part(file),
    )?;
    Ok(())
}

// The segment that begins with a load, with room for so many bytes.
fn begin(alloc: Global, room: usize, load: &Load, file: &[u8]) -> Result<Open, AllocError>
    requires { IsLoad (length file.now) load.now }
    ensures bytes { IfOk result (λ s. s.bytes.items
        ≡ grown file.now load.now [] (first_of load.now)) }
    ensures mem { IfOk result (λ s. s.mem ≡ first_of load.now) }
    ensures stop { IfOk result (λ s. s.stop ≡ end_of load.now) }
{
    let mem = load.first_page();
    let mut bytes = Vec::new(alloc);
    bytes.reserve_exact(room)?;
    put_load(&mut bytes, mem, load, file)?;
    Ok(Open {
        bytes,
        mem,
        stop: load.end_page(),
    })
}

impl Open {
    // The segment that it has become.
    fn segment(self) -> Segment
        ensures { result ≡ part self.bytes.items self.mem self.stop }
    {
        Segment {
            bytes: self.bytes,
            mem: self.mem,
            memsz: self.stop.saturating_sub(self.mem),
        }
    }

    // It gets a load that begins on its pages or right behind them.
    fn grow(mut self, load: &Load, file: &[u8]) -> Result<Open, AllocError>
        requires { IsLoad (length file.now) load.now }
        ensures bytes { IfOk result (λ s. s.bytes.items
            ≡ grown file.now load.now self.bytes.items self.mem) }
        ensures mem { IfOk result (λ s. s.mem ≡ self.mem) }
        ensures stop { IfOk result (λ s. s.stop ≡ end_of load.now) }
    {
        put_load(&mut self.bytes, self.mem, load, file)?;
        self.stop = load.end_page();
        Ok(self)
    }
}

// Takes in a load behind the segment so far, which is put behind the others where the load does not touch it.
fn take_in(
    alloc: Global,
    pages: &PageSet,
    list: &mut Vec<Segment>,
    here: Open,
    load: &Load,
    file: &[u8],
) -> Result<Open, AllocError>
    requires { IsLoad (length file.now) load.now }
    ensures { IfOk result (λ s. (ls : List Load)
        → list.new.items ++ joined_to file.now s.bytes.items s.mem s.stop ls
        ≡ list.old.items
        ++ joined_to file.now here.bytes.items here.mem here.stop (load.now ∷ ls)) }
{
    if load.first_page() <= here.stop {
        let more = here.grow(load, file)?;
        return Ok(more);
    }
    list.push(here.segment())?;
    let next = begin(alloc, room_of(pages, list.len()), load, file)?;
    Ok(next)
}

// The segments of loads that rise and meet these pages.
fn join(
    alloc: Global,
    pages: &PageSet,
    loads: &[Load],
    file: &[u8],
) -> Result<Vec<Segment>, AllocError>
    requires { AreLoads (length file.now) loads.now }
    ensures { IfOk result (λ v. v.items ≡ join file.now loads.now) }
{
    let mut list = Vec::new(alloc);
    if loads.is_empty() {
        return Ok(list);
    }
    let mut here = begin(alloc, room_of(pages, 0), &loads[0], file)?;
    for i in 1..loads.len() {
        here = take_in(alloc, pages, &mut list, here, &loads[i], file)?;
    }
    list.push(here.segment())?;
    Ok(list)
}

// The loads in the order of their addresses.
fn sort(mut loads: Vec<Load>) -> Vec<Load>
    ensures same { IsPermutation loads.items result.items }
    ensures rising { IsNonDecreasingBy (λ (l : Load). l.paddr) result.items }
{
    loads.sort_unstable_by_key(|l| l.paddr);
    loads
}

// The segments of the loads of a file, which meet these pages.
fn make_segments(
    alloc: Global,
    pages: &PageSet,
    loads: Vec<Load>,
    file: &[u8],
) -> Result<Vec<Segment>, AllocError>
    requires { AreSound (length file.now) loads.items }
    ensures { IfOk result (λ v. v.items ≡ segments_of file.now loads.items) }
{
    let list = sort(loads);
    let segments = join(alloc, pages, &list, file)?;
    Ok(segments)
}

/// The segments that an executable is loaded as, which was read from these bytes. Its loads are sorted where they lie.
pub fn image_pages(alloc: Global, exec: Exec, bytes: &[u8]) -> Result<Vec<Segment>, ElfFault>
    requires { exec_reading bytes.now ≡ Ok exec }
    // The segments, or that they have too many pages.
    ensures exact { Gives Memory (λ v. v.items) result (image bytes.now exec.loads) }
    // They are the maximal runs of the pages that loads meet, in rising order.
    ensures maximal { IfOk result (λ v. AreRuns (is_met exec.loads) (map run_of v.items)) }
{
    let loads = exec.loads;
    let pages = pages_of(alloc, &loads)?;
    let total = pages.total();
    if total > SEGMENT_PAGE_LIMIT {
        return Err(ElfFault::TooLarge { pages: total });
    }
    let list = make_segments(alloc, &pages, loads, bytes)?;
    Ok(list)
}
