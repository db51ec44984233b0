//! Why a file is not loaded by Multiboot.

ghost use Rattle.std.specs.Prelude.{◌≡◌};
ghost use Rattle.multiboot_image.specs.Parts.{of_elf};

use elf_image::ElfFault;
use std::alloc::{AllocError, AllocFailed};
use thiserror::Error;

/// Why a file is not loaded by Multiboot: the first reason, in the order of the variants (Multiboot Specification 0.6.96,
/// section 3.1; the order and the limit of pages are this project's own).
#[derive(Clone, Copy, Debug, PartialEq, Eq, Error)]
pub enum MbFault {
    /// Memory ran out.
    #[error("out of memory")]
    Memory,
    /// The file's first 8,192 bytes have no Multiboot header.
    #[error("the kernel file has no Multiboot header: it needs 0x1badb002 with its flags and checksum at a multiple of 4 in its first 8192 bytes")]
    NoHeader,
    /// The header asks, by this bit of its flags, for what is not served; it is the lowest such bit.
    #[error("the Multiboot header of the kernel file sets bit {bit} of its flags, and of the bits 2 to 15 none is served")]
    UnknownFlag { bit: u64 },
    /// The addresses of the header are not inside the file's first 8,192 bytes, or do not fit the file or one another.
    #[error("the addresses in the Multiboot header of the kernel file are cut off, or do not fit the file or one another")]
    BadKludge,
    /// The file has no addresses in its header, and is no ELF32 executable.
    #[error("the Multiboot header of the kernel file has no addresses, and the file is not an ELF32 executable: {fault}")]
    Elf { fault: ElfFault },
    /// The file takes so many pages, more than 65,536.
    #[error("the Multiboot kernel takes {pages} pages, and can take 65536 or fewer")]
    TooLarge { pages: u64 },
}

impl MbFault {
    /// What a fault of the ELF file is here: want of memory stays want of memory.
    pub(crate) fn of_elf(fault: ElfFault) -> MbFault
        ensures { result ≡ of_elf fault }
    {
        match fault {
            ElfFault::Memory => MbFault::Memory,
            _ => MbFault::Elf { fault },
        }
    }
}

impl From<AllocError> for MbFault {
    ghost use Rattle.multiboot_image.specs.declared.fault.MbFault.TheVariants.{Memory};

    ghost from_gives = { λ _ e. e ≡ Memory };

    fn from(_: AllocError) -> MbFault {
        MbFault::Memory
    }
}

impl<T: Drop> From<AllocFailed<T>> for MbFault {
    ghost use Rattle.multiboot_image.specs.declared.fault.MbFault.TheVariants.{Memory};

    ghost from_gives = { λ _ e. e ≡ Memory };

    fn from(_: AllocFailed<T>) -> MbFault {
        MbFault::Memory
    }
}
