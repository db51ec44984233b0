//! The PT_LOADs of a file, one after another.

ghost use Rattle.std.specs.Prelude.{◌≡◌, ◌+◌, ◌++◌, ◌∷◌, ◌<◌, ◌≤◌, ◌^◌, [], false, filter, length, OnOk};
ghost use Rattle.std.specs.List as lists;
ghost use Rattle.elf_image.specs.declared.load.Load.{Load};
ghost use Rattle.kx_laws.specs.Results.{unless};
ghost use Rattle.kx_laws.specs.inner.Results.{Gives};
ghost use Rattle.elf_image.specs.declared.fault.ElfFault.TheVariants.{Memory};
ghost use Rattle.elf_image.specs.inner.FileHeader.{HasTable};
ghost use Rattle.elf_image.specs.ProgramHeader.{loads_of};
ghost use Rattle.elf_image.specs.Loads.{load_stop, loads_meet, has_memory, load_fault, load_onto, loads_onto, read_loads};
ghost use Rattle.elf_image.specs.inner.Loads.{meets_any, entry_onto};
ghost use Rattle.elf_image.specs.inner.Index.{HasMore};
ghost use Rattle.range_index.specs.inner.Ranges.{meets_any as meets_range};

use crate::fault::{ElfFault, ElfPart};
use crate::file_header::Header;
use crate::load::Load;
use range_index::RangeIndex;
use std::alloc::{AllocError, Global};

/// The PT_LOADs so far in the file's order, and the memory of those that have some.
#[derive(Drop)]
pub(crate) struct Loads {
    pub(crate) list: Vec<Load>,
    pub(crate) memory: RangeIndex,
}

// Puts the memory of a load, if it has some, to these ranges, none of which it meets.
fn add_memory(memory: &mut RangeIndex, load: Load) -> Result<(), AllocError>
    requires low { load_stop load ≤ 2 ^ 46 }
    requires apart { meets_range (load.paddr, load_stop load) memory.old ≡ false }
    ensures { OnOk result (HasMore load memory.old memory.new) }
{
    if load.memsz == 0 {
        return Ok(());
    }
    memory.add(load.paddr, load.paddr + load.memsz)?;
    Ok(())
}

// The first of some loads that this one meets, found one by one.
fn position_of_meeting(earlier: &[Load], load: Load) -> Option<usize>
    ensures { result ≡ lists.position (loads_meet load) earlier.now }
{
    earlier.iter().position(|l| load.meets(l))
}

impl Loads {
    ghost use Rattle.elf_image.specs.inner.Index.{AreIndexed};

    fn new(alloc: Global) -> Loads
        ensures value { result.list.items ≡ [] }
        ensures valid { AreIndexed result }
    {
        Loads {
            list: Vec::new(alloc),
            memory: RangeIndex::new(alloc),
        }
    }

    /// Whether the load has a byte of memory of an earlier one.
    fn meets_any(&self, load: Load) -> bool
        requires loads { AreIndexed self.now }
        requires load { load_stop load ≤ 2 ^ 46 }
        ensures { result ≡ meets_any load self.now.list.items }
    {
        self.memory.meets(load.paddr, load.paddr + load.memsz)
    }

    /// The first of the loads so far that this one meets. They are gone through only where it meets one.
    fn first_meeting(&self, load: Load) -> Option<usize>
        requires loads { AreIndexed self.now }
        requires load { load_stop load ≤ 2 ^ 46 }
        ensures { result ≡ lists.position (loads_meet load) self.now.list.items }
    {
        if self.meets_any(load) {
            position_of_meeting(&self.list, load)
        } else {
            None
        }
    }

    /// Tests the load behind the others, in a file of `total` bytes.
    #[tactic(auto, unfolding(crate::specs::Loads::load_fault))]
    fn test(&self, load: Load, total: usize) -> Result<(), ElfFault>
        requires { AreIndexed self.now }
        ensures { result ≡ unless (load_fault total self.now.list.items load) }
    {
        let i = self.list.len();
        if load.is_bad() {
            return Err(ElfFault::BadLoad { i });
        }
        if load.is_cut(total) {
            return Err(ElfFault::Truncated {
                part: ElfPart::Load { i },
            });
        }
        match self.first_meeting(load) {
            Some(j) => Err(ElfFault::LoadsOverlap { i, j }),
            None => Ok(()),
        }
    }

    /// Puts a load behind the others, which it does not meet.
    fn push(&mut self, load: Load) -> Result<(), AllocError>
        requires loads { AreIndexed self.old }
        requires low { load_stop load ≤ 2 ^ 46 }
        requires apart { meets_any load self.old.list.items ≡ false }
        ensures value { OnOk result (self.new.list.items ≡ self.old.list.items ++ load ∷ []) }
        ensures valid { OnOk result (AreIndexed self.new) }
    {
        add_memory(&mut self.memory, load)?;
        self.list.push(load)?;
        Ok(())
    }

    /// Tests the load, in a file of `total` bytes, and puts it behind the others.
    fn add(&mut self, load: Load, total: usize) -> Result<(), ElfFault>
        requires { AreIndexed self.old }
        ensures exact { Gives Memory (λ _. self.new.list.items) result
            (load_onto total self.old.list.items load) }
        ensures valid { OnOk result (AreIndexed self.new) }
    {
        match self.test(load, total) {
            Ok(()) => {
                self.push(load)?;
                Ok(())
            }
            Err(fault) => Err(fault),
        }
    }

    /// The same of what a program header is.
    fn add_some(&mut self, entry: Option<Load>, total: usize) -> Result<(), ElfFault>
        requires { AreIndexed self.old }
        ensures exact { Gives Memory (λ _. self.new.list.items) result
            (entry_onto total self.old.list.items entry) }
        ensures valid { OnOk result (AreIndexed self.new) }
    {
        match entry {
            Some(load) => self.add(load, total),
            None => Ok(()),
        }
    }

    /// The PT_LOADs of a file, or the first fault of one.
    fn read(alloc: Global, header: &Header, bytes: &[u8]) -> Result<Loads, ElfFault>
        requires { HasTable (length bytes.now) header.now }
        ensures { Gives Memory (λ r. r.list.items) result
            (loads_onto (length bytes.now) [] (loads_of header.now bytes.now)) }
    {
        let mut loads = Loads::new(alloc);
        for k in 0..header.file.phnum {
            match loads.add_some(header.load(bytes, k), bytes.len()) {
                Ok(()) => (),
                Err(fault) => return Err(fault),
            }
        }
        Ok(loads)
    }
}

// The loads that have memory.
fn with_memory(mut loads: Vec<Load>) -> Vec<Load>
    ensures { result.items ≡ filter has_memory loads.items }
{
    loads.retain(|load| load.memsz > 0);
    loads
}

/// The PT_LOADs of a file that have memory, or the first fault of one.
pub(crate) fn read_loads(
    alloc: Global,
    header: &Header,
    bytes: &[u8],
) -> Result<Vec<Load>, ElfFault>
    requires { HasTable (length bytes.now) header.now }
    ensures { Gives Memory (λ v. v.items) result (read_loads header.now bytes.now) }
{
    match Loads::read(alloc, header, bytes) {
        Ok(loads) => Ok(with_memory(loads.list)),
        Err(fault) => Err(fault),
    }
}
