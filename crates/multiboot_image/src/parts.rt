//! The segments that a Multiboot kernel is loaded as.

ghost use Rattle.std.specs.Prelude.{◌≡◌, ◌+◌, ◌++◌, ◌≤◌, ◌<◌, ◌^◌, false, length, replicate, ℕ, IfOk};
ghost use Rattle.kx_laws.specs.inner.Results.{Gives};
ghost use Rattle.segments.specs.Values.{is_destination};
ghost use Rattle.multiboot_image.specs.declared.fault.MbFault.TheVariants.{Memory};
ghost use Rattle.multiboot_image.specs.Parts.{place, loaded_length, load_stop, memory_stop, is_bad, page_count, segment, kludge_parts, elf_parts, parts};
ghost use Rattle.multiboot_image.specs.inner.Parts.{memory_meets_page, HasPagesMet};

use crate::fault::MbFault;
use crate::header::{Header, Kludge};
use elf_image::{ElfFault, image_pages, read_exec};
use kx_pages::{PAGE_SIZE, SEGMENT_PAGE_LIMIT, Span, room_for};
use segments::Segment;
use std::alloc::{AllocError, Global};
use std::marker::Model;

/// The first address behind the memory that 32 bits reach.
const MEMORY_LIMIT: u128 = 0x1_0000_0000;

/// What a kernel is loaded as, and where it is entered.
#[derive(Drop)]
pub struct Parts {
    /// The segments, in rising order of address.
    pub list: Vec<Segment>,
    /// The address that the kernel is entered at.
    pub entry: u64,
}

impl Model for Parts {
    ghost use Rattle.multiboot_image.specs.Parts.{Loaded};

    ghost Value = { Loaded };

    ghost view = { λ p. record { list = p.list.items; entry = p.entry } };
}

/// The addresses of the header at the place `at` of a file of `total` bytes.
#[derive(Clone, Copy)]
pub(crate) struct Site {
    pub(crate) kludge: Kludge,
    pub(crate) at: usize,
    pub(crate) total: usize,
}

impl Site {
    /// The place in the file of the first byte that is loaded, or 0 where it would be negative.
    fn place(self) -> u128
        ensures { result ≡ place self }
    {
        (self.at as u128 + u128::from(self.kludge.load_addr)).saturating_sub(u128::from(
            self.kludge.header_addr,
        ))
    }

    /// How many bytes are loaded, or 0 where that would be negative.
    fn loaded_length(self) -> u128
        ensures value { result ≡ loaded_length self }
        ensures small { result < 2 ^ 64 }
    {
        if self.kludge.load_end_addr == 0 {
            return (self.total as u128).saturating_sub(self.place());
        }
        u128::from(self.kludge.load_end_addr).saturating_sub(u128::from(self.kludge.load_addr))
    }

    /// The address behind the loaded bytes.
    fn load_stop(self) -> u128
        ensures value { result ≡ load_stop self }
        ensures small { result < 2 ^ 65 }
    {
        u128::from(self.kludge.load_addr) + self.loaded_length()
    }

    /// The address behind the memory.
    fn memory_stop(self) -> u128
        ensures value { result ≡ memory_stop self }
        ensures small { result < 2 ^ 65 }
    {
        if self.kludge.bss_end_addr == 0 {
            return self.load_stop();
        }
        u128::from(self.kludge.bss_end_addr)
    }

    /// The addresses do not fit the file or one another.
    fn is_bad(self) -> bool
        ensures { result ≡ is_bad self }
    {
        let k = self.kludge;
        k.load_addr > k.header_addr
            || self.at as u128 + u128::from(k.load_addr) < u128::from(k.header_addr)
            || k.load_end_addr != 0 && k.load_end_addr < k.load_addr
            || self.place() + self.loaded_length() > self.total as u128
            || self.memory_stop() > MEMORY_LIMIT
            || k.bss_end_addr != 0 && u128::from(k.bss_end_addr) < self.load_stop()
    }

    /// How many pages the memory meets.
    fn page_count(self) -> u64
        requires { is_bad self ≡ false }
        ensures { result ≡ page_count self }
    {
        let start = u64::from(self.kludge.load_addr);
        Span::meeting(start, self.memory_stop() as u64).count()
    }

    /// Its segment, with so many pages.
    fn segment(self, alloc: Global, file: &[u8], pages: u64) -> Result<Segment, AllocError>
        requires fits { is_bad self ≡ false }
        requires file { length file.now ≡ self.total }
        requires pages { pages ≡ page_count self }
        requires few { pages ≤ 65536 }
        ensures { IfOk result (λ s. s ≡ segment file.now self) }
    {
        let start = u64::from(self.kludge.load_addr);
        let front = (start % PAGE_SIZE) as usize;
        let (_, behind) = file.split_at(self.place() as usize);
        let (part, _) = behind.split_at(self.loaded_length() as usize);
        let bytes = with_zeros_before(alloc, front, part)?;
        Ok(Segment {
            bytes,
            mem: start / PAGE_SIZE * PAGE_SIZE,
            memsz: pages * PAGE_SIZE,
        })
    }
}

/// So many zeros, and these bytes behind them.
fn with_zeros_before(alloc: Global, front: usize, part: &[u8]) -> Result<Vec<u8>, AllocError>
    requires { front < 4096 }
    ensures { IfOk result (λ v. v.items ≡ replicate front 0 ++ part.now) }
{
    let mut bytes = Vec::with_capacity(alloc, room_for(part.len().saturating_add(front)))?;
    bytes.resize(front, 0)?;
    bytes.extend_from_slice(part)?;
    Ok(bytes)
}

/// What the addresses of a header say, or why they do not fit.
#[tactic(auto, unfolding(crate::specs::Parts::kludge_parts))]
fn kludge_parts(alloc: Global, site: Site, file: &[u8]) -> Result<Parts, MbFault>
    requires { length file.now ≡ site.total }
    ensures exact { Gives Memory (λ p. p) result (kludge_parts file.now site) }
    ensures pages { IfOk result (λ r. (p : ℕ)
        → is_destination r.list p ≡ memory_meets_page p site) }
{
    if site.is_bad() {
        return Err(MbFault::BadKludge);
    }
    let pages = site.page_count();
    if pages > SEGMENT_PAGE_LIMIT {
        return Err(MbFault::TooLarge { pages });
    }
    let mut list = Vec::new(alloc);
    if pages > 0 {
        list.push(site.segment(alloc, file, pages)?)?;
    }
    Ok(Parts {
        list,
        entry: u64::from(site.kludge.entry_addr),
    })
}

/// What a file says that is an ELF32 executable, or why it is none.
#[tactic(auto, unfolding(crate::specs::Parts::elf_parts))]
fn elf_parts(alloc: Global, file: &[u8]) -> Result<Parts, MbFault>
    ensures { Gives Memory (λ p. p) result (elf_parts file.now) }
{
    let exec = match read_exec(alloc, file) {
        Ok(exec) => exec,
        Err(fault) => return Err(MbFault::of_elf(fault)),
    };
    if exec.wide {
        return Err(MbFault::Elf {
            fault: ElfFault::Class,
        });
    }
    let entry = exec.entry;
    match image_pages(alloc, exec, file) {
        Ok(list) => Ok(Parts { list, entry }),
        Err(fault) => Err(MbFault::of_elf(fault)),
    }
}

/// What the file with this header is loaded as, and where it is entered, or why it is not loaded.
///
/// With addresses in the header these count (Multiboot Specification 0.6.96, section 3.1.3), and BadKludge or TooLarge
/// comes; without, the file is an ELF32 executable, and Elf comes.
pub fn load_parts(alloc: Global, header: &Header, bytes: &[u8]) -> Result<Parts, MbFault>
    // What it is loaded as, or the first fault.
    ensures exact { Gives Memory (λ p. p) result (parts header.now bytes.now) }
    // With addresses in the header the pages are those that some byte of the memory from load_addr on is in.
    ensures pages { IfOk result (HasPagesMet bytes.now header.now) }
{
    match header.kludge {
        Some(kludge) => {
            let site = Site {
                kludge,
                at: header.at,
                total: bytes.len(),
            };
            kludge_parts(alloc, site, bytes)
        }
        None => elf_parts(alloc, bytes),
    }
}
