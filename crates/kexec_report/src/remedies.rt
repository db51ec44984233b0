//! What helps where a kernel, a purgatory, a load record, a pool, a pair of resident pages or crash headers were refused.

use boot_params::ParamsFault;
use bzimage::BzFault;
use command_parts::{InputFault, Status};
use command_table::Role;
use elf_image::ElfFault;
use load_record::RecFault;
use page_pool::PoolFault;
use plan_faults::PlanFault;
use purgatory_link::LinkFault;
use resident_planner::ResidentFault;
use segments::SegFault;
use vmcore_file::CoreFault;

// An ELF file of another kind than the one that is wanted.
fn elf_remedy(fault: &ElfFault, wanted: &'static str) -> Option<&'static str> {
    match fault {
        ElfFault::Class | ElfFault::Machine | ElfFault::Kind => Some(wanted),
        _ => None,
    }
}

fn bzimage_remedy(fault: &BzFault) -> Option<&'static str> {
    match fault {
        BzFault::OldVersion { .. } | BzFault::No64Entry | BzFault::NotRelocatable => {
            Some("use a kernel for x86-64, Linux 3.8 or later, built with CONFIG_RELOCATABLE")
        }
        _ => None,
    }
}

fn link_remedy(fault: &LinkFault) -> Option<&'static str> {
    match fault {
        LinkFault::NoSymbol { .. } => Some(
            "it must define entry64_regs, purgatory_sha_regions, purgatory_sha256_digest and purgatory_start",
        ),
        LinkFault::WrongSize { .. } => Some(
            "entry64_regs must have 136 bytes, purgatory_sha_regions 256 and purgatory_sha256_digest 32",
        ),
        LinkFault::UnknownReloc { .. } | LinkFault::DoesNotFit { .. } => {
            Some("compile it with -fno-pic -mcmodel=large")
        }
        LinkFault::Undefined { .. } => Some("link all its objects into one with ld -r"),
        LinkFault::Common { .. } => Some("compile it with -fno-common"),
        _ => None,
    }
}

fn params_remedy(fault: &ParamsFault, is_crash: bool) -> Option<&'static str> {
    match fault {
        ParamsFault::TooManyRanges { .. } if is_crash => {
            Some("leave small ranges out of the map that are not System RAM")
        }
        ParamsFault::TooManyRanges { .. } => {
            Some("join adjacent ranges of the map, or leave small ones out")
        }
        ParamsFault::CommandTooLong { .. } if is_crash => {
            Some("the parameter elfcorehdr=, which is added to it, counts too")
        }
        _ => None,
    }
}

fn plan_remedy(fault: &PlanFault, is_crash: bool) -> Option<&'static str> {
    match fault {
        PlanFault::Elf { fault } => elf_remedy(
            fault,
            "a kernel must be an ELF64 executable (ET_EXEC) for x86-64",
        ),
        PlanFault::Object { fault } => elf_remedy(
            fault,
            "a purgatory must be an ELF64 object (ET_REL) for x86-64",
        ),
        PlanFault::Bzimage { fault } => bzimage_remedy(fault),
        PlanFault::Link { fault } => link_remedy(fault),
        PlanFault::Params { fault } => params_remedy(fault, is_crash),
        PlanFault::NoHole { .. }
        | PlanFault::Segments {
            fault: SegFault::HalfOfMemory,
        } => Some("for a Linux kernel, kernelyet plan prints the sizes and the largest holes"),
        _ => None,
    }
}

fn input_remedy(fault: &InputFault) -> Option<&'static str> {
    match fault {
        InputFault::Rec {
            fault: RecFault::WrongDigest { .. },
        } => Some("load the kernel again, or copy the load record again"),
        InputFault::Pool {
            fault: PoolFault::PastLimit { .. } | PoolFault::TooMany { .. },
        } => Some(
            "a pool lists page numbers, not addresses: leave out the last three digits of an address",
        ),
        _ => None,
    }
}

fn resident_remedy(fault: &ResidentFault) -> Option<&'static str> {
    match fault {
        ResidentFault::NotWanted { .. } | ResidentFault::Stale { .. } => Some("leave the pair out"),
        ResidentFault::Repeats { .. } => Some("keep one of them"),
        _ => None,
    }
}

fn core_remedy(fault: &CoreFault) -> Option<&'static str> {
    match fault {
        CoreFault::NotHeaders => Some(
            "load-panic puts them at N times 1024, where the kernel's command line ends with elfcorehdr=NK; ADDRESS is hexadecimal",
        ),
        CoreFault::TooLarge { .. } => {
            Some("load the crash kernel with a memory map that has less System RAM")
        }
        _ => None,
    }
}

/// What is said of a file of this role that is too long: the rest of what several files have together may be less than the
/// file's own limit.
pub(crate) fn budget_remedy(role: Role) -> Option<&'static str> {
    match role {
        Role::Kernel | Role::Initrd | Role::Module => Some(
            "the kernel, the initrd and the modules may have 268435456 bytes together",
        ),
        _ => None,
    }
}

/// What the user can do about a refusal, where its sentence does not say so yet.
pub(crate) fn remedy_of(status: &Status, is_crash: bool) -> Option<&'static str> {
    match status {
        Status::Plan { fault } => plan_remedy(fault, is_crash),
        Status::Input { fault } => input_remedy(fault),
        Status::Resident { fault } => resident_remedy(fault),
        Status::Slots { .. } => Some("take it out of the pool, or reserve another area"),
        Status::Core { fault } => core_remedy(fault),
        _ => None,
    }
}
