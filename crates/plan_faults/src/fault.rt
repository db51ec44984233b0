//! Why a request has no plan.

ghost use Rattle.std.specs.Prelude.{◌≡◌};
ghost use Rattle.plan_faults.specs.declared.fault.PlanFault.TheVariants.{Memory};
ghost use Rattle.plan_faults.specs.Faults.{of_elf, of_object, of_multiboot, of_bzimage, of_crash, of_link, of_params};

use boot_params::ParamsFault;
use bzimage::BzFault;
use crash_headers::CrashFault;
use elf_image::ElfFault;
use multiboot_image::MbFault;
use purgatory_link::LinkFault;
use segments::SegFault;
use std::alloc::{AllocError, AllocFailed};
use std::fmt::{self, Display, Formatter, Write};
use thiserror::Error;

/// A part of a request, or one that the plan makes for the kernel.
#[derive(Clone, Copy, Debug, PartialEq, Eq)]
pub enum Part {
    /// The kernel.
    Kernel,
    /// The initrd.
    Initrd,
    /// A module.
    Module,
    /// The headers by which a crash kernel finds the memory of its predecessor.
    Headers,
    /// The boot parameters of a bzImage.
    Parameters,
    /// The information of a Multiboot kernel.
    Information,
    /// The purgatory.
    Purgatory,
    /// The kernel's command.
    Command,
}

impl Display for Part {
    fn fmt<W: Write>(&self, f: &mut Formatter<W>) -> fmt::Result {
        f.write_str(match self {
            Part::Kernel => "the kernel",
            Part::Initrd => "an initrd",
            Part::Module => "a module",
            Part::Headers => "the crash headers",
            Part::Parameters => "the boot parameters",
            Part::Information => "the Multiboot information",
            Part::Purgatory => "the purgatory",
            Part::Command => "a command line",
        })
    }
}

/// Why a request has no plan: the first reason.
#[derive(Clone, Copy, Debug, PartialEq, Eq, Error)]
pub enum PlanFault {
    /// Want of memory.
    #[error("out of memory")]
    Memory,
    /// The kernel's file is of no known type.
    #[error("the kernel file is not a bzImage, a Multiboot kernel or an ELF file: give its type, as --type raw and --at")]
    UnknownImage,
    /// There is no place for a part.
    #[error("there is no place for {part}: the memory map has no free run of pages where it may lie")]
    NoHole { part: Part },
    /// The kernel is no ELF executable that can be loaded.
    #[error(transparent)]
    Elf { fault: ElfFault },
    /// The purgatory is no ELF object that can be linked.
    #[error(transparent)]
    Object { fault: ElfFault },
    /// The kernel is no Multiboot kernel that can be loaded.
    #[error(transparent)]
    Multiboot { fault: MbFault },
    /// The kernel is no bzImage that can be loaded.
    #[error(transparent)]
    Bzimage { fault: BzFault },
    /// The boot parameters cannot be made.
    #[error(transparent)]
    Params { fault: ParamsFault },
    /// The purgatory cannot be linked, or has not the symbols of one.
    #[error("the purgatory cannot be used: {fault}")]
    Link { fault: LinkFault },
    /// The crash headers cannot be made.
    #[error(transparent)]
    Crash { fault: CrashFault },
    /// The segments are refused.
    #[error("the kernel cannot be placed: {fault}")]
    Segments { fault: SegFault },
    /// The memory map has no area for a crash kernel.
    #[error("the memory map has no line Crash kernel with a whole page: boot this kernel with crashkernel=")]
    NoReserved,
    /// A part is given that kernels of this type take none of.
    #[error("{part} is given, and a kernel of this type takes none")]
    Unused { part: Part },
    /// A crash kernel of another type than bzImage.
    #[error("a crash kernel must be a bzImage")]
    CrashNeedsBzimage,
}

impl PlanFault {
    /// What a fault of an ELF kernel is here.
    pub fn of_elf(fault: ElfFault) -> PlanFault
        ensures { result ≡ of_elf fault }
    {
        match fault {
            ElfFault::Memory => PlanFault::Memory,
            _ => PlanFault::Elf { fault },
        }
    }

    /// What a fault of the purgatory's object is here.
    pub fn of_object(fault: ElfFault) -> PlanFault
        ensures { result ≡ of_object fault }
    {
        match fault {
            ElfFault::Memory => PlanFault::Memory,
            _ => PlanFault::Object { fault },
        }
    }
}

impl From<AllocError> for PlanFault {
    ghost from_gives = { λ _ e. e ≡ Memory };

    fn from(_: AllocError) -> PlanFault {
        PlanFault::Memory
    }
}

impl<T: Drop> From<AllocFailed<T>> for PlanFault {
    ghost from_gives = { λ _ e. e ≡ Memory };

    fn from(_: AllocFailed<T>) -> PlanFault {
        PlanFault::Memory
    }
}

impl From<MbFault> for PlanFault {
    ghost from_gives = { λ fault e. e ≡ of_multiboot fault };

    fn from(fault: MbFault) -> PlanFault {
        match fault {
            MbFault::Memory => PlanFault::Memory,
            _ => PlanFault::Multiboot { fault },
        }
    }
}

impl From<BzFault> for PlanFault {
    ghost from_gives = { λ fault e. e ≡ of_bzimage fault };

    fn from(fault: BzFault) -> PlanFault {
        match fault {
            BzFault::Memory => PlanFault::Memory,
            _ => PlanFault::Bzimage { fault },
        }
    }
}

impl From<CrashFault> for PlanFault {
    ghost from_gives = { λ fault e. e ≡ of_crash fault };

    fn from(fault: CrashFault) -> PlanFault {
        match fault {
            CrashFault::Memory => PlanFault::Memory,
            _ => PlanFault::Crash { fault },
        }
    }
}

impl From<LinkFault> for PlanFault {
    ghost from_gives = { λ fault e. e ≡ of_link fault };

    fn from(fault: LinkFault) -> PlanFault {
        match fault {
            LinkFault::Memory => PlanFault::Memory,
            _ => PlanFault::Link { fault },
        }
    }
}

impl From<ParamsFault> for PlanFault {
    ghost from_gives = { λ fault e. e ≡ of_params fault };

    fn from(fault: ParamsFault) -> PlanFault {
        match fault {
            ParamsFault::Memory => PlanFault::Memory,
            _ => PlanFault::Params { fault },
        }
    }
}
