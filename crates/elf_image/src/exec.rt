//! Executables.

ghost use Rattle.std.specs.Prelude.{length, IfOk};
ghost use Rattle.kx_laws.specs.inner.Results.{Gives};
ghost use Rattle.elf_image.specs.declared.fault.ElfFault.TheVariants.{Memory};
ghost use Rattle.elf_image.specs.Loads.{exec_reading};
ghost use Rattle.elf_image.specs.inner.Joined.{AreSound};

use crate::fault::ElfFault;
use crate::file_header::Header;
use crate::load::Load;
use crate::loads::read_loads;
use std::alloc::Global;
use std::marker::Model;

/// An ELF executable: its entry, and the PT_LOADs that take memory, in the file's order.
#[derive(Drop)]
pub struct Exec {
    /// It is ELF64 for x86-64, and not ELF32 for i386.
    pub wide: bool,
    /// The address that it is entered at (`e_entry`).
    pub entry: u64,
    /// The PT_LOADs that take memory, in the file's order.
    pub loads: Vec<Load>,
}

impl Model for Exec {
    ghost use Rattle.elf_image.specs.Loads.{Executable};

    ghost Value = { Executable };

    ghost view = { λ e. record { wide = e.wide; entry = e.entry; loads = e.loads.items } };
}

/// What an ELF executable says: ELF64 for x86-64 or ELF32 for i386.
pub fn read_exec(alloc: Global, bytes: &[u8]) -> Result<Exec, ElfFault>
    // What it is, or the first fault.
    ensures exact { Gives Memory (λ e. e) result (exec_reading bytes.now) }
    // Each load keeps to the file and to the limit of addresses, and no address is in the memory of two.
    ensures sound { IfOk result (λ e. AreSound (length bytes.now) e.loads) }
{
    let header = match Header::read_exec(bytes) {
        Ok(header) => header,
        Err(fault) => return Err(fault),
    };
    let loads = match read_loads(alloc, &header, bytes) {
        Ok(loads) => loads,
        Err(fault) => return Err(fault),
    };
    Ok(Exec {
        wide: header.wide,
        entry: header.file.entry,
        loads,
    })
}
