//! What the front of a refused file shows that it is, where its reader cannot say it: a file of another kind.

use bzimage::{BzFault, is_bzimage};
use command_parts::{InputFault, Status};
use command_table::Role;
use crash_headers::NoteFault;
use elf_image::ElfFault;
use image_slots::EventsFault;
use kexec_usage::Given;
use memory_map::MapFault;
use multiboot_image::MbFault;
use page_pool::PoolFault;
use plan_faults::PlanFault;
use resident_planner::PairsFault;
use std::fmt::{self, Display, Formatter, Write};
use std::fs;
use std::io::Read;
use std::rt::Files;

/// How many bytes of a file are looked at.
const FRONT: usize = 4096;

/// What a memory file begins with.
const MEMORY_MAGIC: &[u8] = b"KXMEM001";

/// Where the header of an arm64 Image has its magic number: Linux, Documentation/arch/arm64/booting.rst.
const ARM_PLACE: usize = 0x38;

/// What a file seems to be, and what helps.
#[derive(Clone, Copy)]
pub(crate) enum Front {
    /// Compressed, by a program of this name.
    Compressed { tool: &'static str },
    /// The same, where a kernel is wanted: it may be a compressed initrd as well.
    CompressedKernel { tool: &'static str },
    /// A memory file.
    Memory,
    /// A load record.
    Record,
    /// A Linux kernel.
    Bzimage,
    /// An archive of cpio, as an initrd is.
    Initrd,
    /// A kernel for arm64.
    ArmKernel,
    /// An ELF file, as a core dump is.
    Dump,
    /// Bytes that are no text.
    RawDump,
    /// A text.
    Text,
    /// A text whose lines end with carriage returns.
    CarriageReturns,
    /// A text in which numbers have 0x in front.
    Prefixed,
}

impl Display for Front {
    fn fmt<W: Write>(&self, f: &mut Formatter<W>) -> fmt::Result {
        let text = match self {
            Front::Compressed { tool } => {
                return write!(f, "it is compressed: decompress it first, with {tool} -dc");
            }
            Front::CompressedKernel { tool } => {
                return write!(
                    f,
                    "it is compressed: a kernel is decompressed first, with {tool} -dc, and an initrd is given by --initrd"
                );
            }
            Front::Memory => "it is a memory file",
            Front::Record => "it is a load record",
            Front::Bzimage => "it is a bzImage, which is a kernel",
            Front::Initrd =>
                "it looks like an initrd, since it is a cpio archive: --initrd gives one",
            Front::ArmKernel => "it is a kernel for arm64, and one for x86-64 is wanted",
            Front::Dump =>
                "it is an ELF file: of the dump of a machine's memory, kernelyet machine --core makes a memory file",
            Front::RawDump => "a raw dump of memory is not a memory file",
            Front::Text => "it looks like a text, as a pool and a memory map are",
            Front::CarriageReturns =>
                "its lines end with carriage returns: remove these with tr -d '\\r'",
            Front::Prefixed => "leave out 0x",
        };
        f.write_str(text)
    }
}

// The program that decompresses a file, by the magic number in front: RFC 1952, section 2.3.1; the .xz file format, section
// 2.1.1.1; RFC 8878, section 3.1.1.
fn tool_for(front: &[u8]) -> Option<&'static str> {
    if front.starts_with(&[0x1f, 0x8b]) {
        return Some("gzip");
    }
    if front.starts_with(b"\xfd7zXZ\0") {
        return Some("xz");
    }
    if front.starts_with(&[0x28, 0xb5, 0x2f, 0xfd]) {
        return Some("zstd");
    }
    None
}

// A file of this program.
fn own_kind(front: &[u8]) -> Option<Front> {
    if front.starts_with(MEMORY_MAGIC) {
        return Some(Front::Memory);
    }
    front.starts_with(b"KXREC00").then_some(Front::Record)
}

// The same, or a Linux kernel.
fn known_kind(front: &[u8]) -> Option<Front> {
    if is_bzimage(front) {
        return Some(Front::Bzimage);
    }
    own_kind(front)
}

// A file that stands beside kernels: an archive of cpio, by its magic number in initramfs(5) form (Linux,
// Documentation/driver-api/early-userspace/buffer-format.rst), or a kernel for arm64.
fn kernel_kind(front: &[u8]) -> Option<Front> {
    if front.starts_with(b"070701") || front.starts_with(b"070702") {
        return Some(Front::Initrd);
    }
    let rest = front.get(ARM_PLACE..)?;
    rest.starts_with(b"ARM\x64").then_some(Front::ArmKernel)
}

// Whether a byte may stand in a text.
fn is_text_byte(byte: u8) -> bool {
    matches!(byte, b'\t' | b'\n' | b'\r' | b' '..=b'~')
}

fn is_text(front: &[u8]) -> bool {
    !front.is_empty() && front.iter().all(|byte| is_text_byte(*byte))
}

// What is given as a kernel, or as a purgatory.
fn kernel_front(is_kernel: bool, front: &[u8]) -> Option<Front> {
    match tool_for(front) {
        Some(tool) if is_kernel => Some(Front::CompressedKernel { tool }),
        Some(tool) => Some(Front::Compressed { tool }),
        None => own_kind(front).or(kernel_kind(front)),
    }
}

// What is given as a memory file. Fewer bytes than the magic number has may be the front of one, as none are, which is what
// a pipe shows.
fn memory_front(front: &[u8]) -> Option<Front> {
    if MEMORY_MAGIC.starts_with(front) || front.starts_with(MEMORY_MAGIC) {
        return None;
    }
    if front.starts_with(b"\x7fELF") {
        return Some(Front::Dump);
    }
    if is_text(front) {
        return Some(Front::Text);
    }
    known_kind(front).or(Some(Front::RawDump))
}

// What is given as a load record.
fn record_front(front: &[u8]) -> Option<Front> {
    match known_kind(front) {
        Some(Front::Record) => None,
        Some(kind) => Some(kind),
        None if is_text(front) => Some(Front::Text),
        None => None,
    }
}

// What the front of a file that was taken in this role shows. That it is compressed is asked first: its bytes may look like
// anything. An initrd and modules may be compressed.
fn file_front(role: Role, front: &[u8]) -> Option<Front> {
    if matches!(
        role,
        Role::Kernel | Role::Initrd | Role::Purgatory | Role::Module
    ) {
        return own_kind(front);
    }
    if let Some(tool) = tool_for(front) {
        return Some(Front::Compressed { tool });
    }
    match role {
        Role::Memory => memory_front(front),
        Role::Record => record_front(front),
        _ => known_kind(front),
    }
}

// The kernel's or the purgatory's file has not the mark of its type, or of any.
fn is_unmarked(fault: &PlanFault) -> bool {
    match fault {
        PlanFault::UnknownImage | PlanFault::CrashNeedsBzimage => true,
        PlanFault::Elf { fault } | PlanFault::Object { fault } => matches!(fault, ElfFault::NotElf),
        PlanFault::Bzimage { fault } => matches!(fault, BzFault::NotKernel),
        PlanFault::Multiboot { fault } => matches!(fault, MbFault::NoHeader),
        _ => false,
    }
}

// The line that has not the form of a line of its file.
fn line_of(fault: &InputFault) -> Option<u64> {
    match fault {
        InputFault::Pool {
            fault: PoolFault::BadLine { line },
        }
        | InputFault::Map {
            fault: MapFault::BadLine { line },
        }
        | InputFault::Notes {
            fault: NoteFault::BadLine { line },
        }
        | InputFault::Pairs {
            fault: PairsFault::BadLine { line },
        }
        | InputFault::Events {
            fault: EventsFault::BadLine { line },
        } => Some(*line),
        _ => None,
    }
}

// This line of the front.
fn line_at(front: &[u8], line: u64) -> Option<&[u8]> {
    let mut lines = front.split(|byte| *byte == b'\n');
    lines.nth((line as usize).saturating_sub(1))
}

// What a refused line shows: a carriage return at its end, or 0x before a number. What has a 0 is no text.
fn line_front(line: &[u8]) -> Option<Front> {
    if line.ends_with(b"\r") && !line.contains(&0) {
        return Some(Front::CarriageReturns);
    }
    let has_prefix = line.windows(2).any(|pair| pair.eq_ignore_ascii_case(b"0x"));
    has_prefix.then_some(Front::Prefixed)
}

// What a memory map shows in which no line counts: a carriage return at the end of a line belongs to the name there.
fn map_front(front: &[u8]) -> Option<Front> {
    let mut lines = front.split(|byte| *byte == b'\n');
    let has_such_a_line = lines.any(|line| line.ends_with(b"\r"));
    (has_such_a_line && !front.contains(&0)).then_some(Front::CarriageReturns)
}

// What the front of a file shows that its reader refused.
fn refused_front(fault: &InputFault, role: Role, front: &[u8]) -> Option<Front> {
    if let Some(kind) = file_front(role, front) {
        return Some(kind);
    }
    match fault {
        InputFault::Map {
            fault: MapFault::NoRam,
        } => map_front(front),
        fault => line_front(line_at(front, line_of(fault)?)?),
    }
}

// What these first bytes of the refused file of this role show.
fn front_of(status: &Status, role: Role, front: &[u8]) -> Option<Front> {
    match status {
        Status::Plan { fault } if is_unmarked(fault) => {
            kernel_front(role == Role::Kernel, front)
        }
        Status::Plan {
            fault: PlanFault::NoReserved,
        } => map_front(front),
        Status::Input { fault } => refused_front(fault, role, front),
        Status::TooLong { .. } => file_front(role, front),
        _ => None,
    }
}

// Reads the first bytes of a regular file, as many as one read gives, and says how many.
fn read_front<R: Files>(rt: &R, name: &str, front: &mut [u8; FRONT]) -> Option<usize> {
    let about = fs::metadata(rt, name).ok()?;
    if !about.is_file() {
        return None;
    }
    let mut file = fs::open(rt, name).ok()?;
    file.read(front).ok()
}

/// What the front of the refused file shows, where the system gives it once more.
pub(crate) fn hint_of<R: Files>(rt: &R, status: &Status, file: Option<Given<'_>>) -> Option<Front> {
    let file = file?;
    let mut room = [0u8; FRONT];
    let count = read_front(rt, file.text, &mut room)?;
    front_of(status, file.argument.role?, room.get(..count)?)
}
