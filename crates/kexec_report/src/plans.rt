//! The sentences about a request that has no plan, told by what was given.

use boot_params::ParamsFault;
use kexec_usage::{Given, text_of};
use plan_faults::{Part, PlanFault};
use segments::SegFault;
use std::fmt::{self, Formatter, Write};

// The address of a raw kernel, as it is given: such a kernel is the first segment. The command with resident pages takes no
// other.
fn raw_address<'a>(given: &[Given<'a>]) -> Option<&'a str> {
    match (text_of(given, "--type"), text_of(given, "PAIRS")) {
        (Some("raw"), _) | (_, Some(_)) => text_of(given, "--at"),
        _ => None,
    }
}

// The memory map that was given.
fn map_of<'a>(given: &[Given<'a>]) -> &'a str {
    text_of(given, "--map").unwrap_or("")
}

// The first page that is not System RAM, where it is known.
fn write_first<W: Write>(page: Option<u64>, f: &mut Formatter<W>) -> fmt::Result {
    match page {
        Some(page) => write!(f, ": page 0x{page:x} is the first"),
        None => Ok(()),
    }
}

// A fault of the segments where the kernel is raw, told by the options that place it.
fn write_raw<W: Write>(
    fault: &SegFault,
    at: &str,
    page: Option<u64>,
    given: &[Given<'_>],
    f: &mut Formatter<W>,
) -> fmt::Result {
    match fault {
        SegFault::BadAddress { i: 0 } => write!(
            f,
            "--at {at}: a raw kernel must begin at a multiple of 0x1000 and end below 0x400000000000"
        ),
        SegFault::NotRam { i: 0 } => {
            let map = map_of(given);
            write!(
                f,
                "--at {at}: the kernel has a page there that is not System RAM in the memory map {map:?}"
            )?;
            write_first(page, f)
        }
        fault => write!(f, "--at {at}: the kernel cannot be placed there: {fault}"),
    }
}

// A fault of the segments where the kernel's file says where it lies. A segment that is not RAM is one of the kernel's own:
// every other part of a load is put on whole pages of RAM that nothing else takes.
fn write_placed<W: Write>(
    fault: &SegFault,
    page: Option<u64>,
    given: &[Given<'_>],
    f: &mut Formatter<W>,
) -> fmt::Result {
    match fault {
        SegFault::TooMany => f.write_str(
            "the kernel and the parts loaded with it have more than 16 segments",
        ),
        // segments have whole pages, and none passes this address
        SegFault::BadAddress { i } => write!(
            f,
            "segment {i} of the load ends at 0x400000000000, and must end below it: link the kernel lower, or leave the last page out of the memory map"
        ),
        SegFault::NotRam { i } => {
            let map = map_of(given);
            write!(
                f,
                "segment {i} of the kernel has a page that is not System RAM in the memory map {map:?}"
            )?;
            write_first(page, f)
        }
        SegFault::TooLarge { pages } => write!(
            f,
            "the kernel and the parts loaded with it have {pages} pages together, and at most 65536 are allowed"
        ),
        fault => write!(f, "the kernel cannot be placed: {fault}"),
    }
}

// What one option or word of this name gives, and kernels of this type do not take.
fn write_none_taken<W: Write>(
    name: &str,
    what: &str,
    given: &[Given<'_>],
    f: &mut Formatter<W>,
) -> fmt::Result {
    if let Some(text) = text_of(given, name) {
        write!(f, "{name} {text:?}: ")?;
    }
    match text_of(given, "--type") {
        Some(kind) if kind != "auto" => write!(f, "a kernel of type {kind} takes no {what}"),
        _ => write!(
            f,
            "the kernel {:?} is of a type that takes no {what}",
            text_of(given, "KERNEL").unwrap_or("")
        ),
    }
}

// A part that kernels of this type do not take.
fn write_unused<W: Write>(part: &Part, given: &[Given<'_>], f: &mut Formatter<W>) -> fmt::Result {
    match part {
        Part::Initrd => write_none_taken("--initrd", "initrd", given, f),
        Part::Module => write_none_taken("MODULES", "module", given, f),
        Part::Command => write_none_taken("--command", "command line", given, f),
        part => write!(f, "{part} is given, but a kernel of this type takes none"),
    }
}

/// Why a request has no plan. Where it is known what the kernel's file is, no type is asked for.
pub(crate) fn write_plan<W: Write>(
    fault: &PlanFault,
    is_crash: bool,
    is_known: bool,
    page: Option<u64>,
    given: &[Given<'_>],
    f: &mut Formatter<W>,
) -> fmt::Result {
    match fault {
        PlanFault::Segments { fault } => match raw_address(given) {
            Some(at) => write_raw(fault, at, page, given, f),
            None => write_placed(fault, page, given, f),
        },
        PlanFault::NoHole { part } if is_crash => write!(
            f,
            "there is no place for {part} in the reserved area of the memory map where the kernel's header lets it lie: boot the running kernel with a larger crashkernel=, or with one below 4 GiB"
        ),
        PlanFault::UnknownImage if is_crash => {
            f.write_str("the kernel file is not a bzImage, and a crash kernel must be one")
        }
        PlanFault::UnknownImage if is_known => {
            f.write_str("the kernel file is not a bzImage, a Multiboot kernel or an ELF file")
        }
        PlanFault::Params {
            fault: ParamsFault::TooManyRanges { rows },
        } if is_crash => write!(
            f,
            "the memory map gives {rows} rows for the crash kernel, its reserved area and what is not System RAM, and it is handed 1152 or fewer"
        ),
        PlanFault::Unused { part } => write_unused(part, given, f),
        PlanFault::NoReserved => f.write_str(
            "the memory map has no line Crash kernel, or its last one has no whole page: boot the running kernel, whose map this is, with crashkernel=",
        ),
        fault => write!(f, "{fault}"),
    }
}
