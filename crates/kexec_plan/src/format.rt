//! The form of the kernel's file, and what a kernel of this form takes.

ghost use Rattle.std.specs.Prelude.{◌≡◌};
ghost use Rattle.kexec_plan.specs.inner.Requests.{request_of};
ghost use Rattle.kexec_plan.specs.Formats.{shown_format, format_of, unused_part};

use crate::request::Request;
use bzimage::is_bzimage;
use kx_pages::ImageType;
use multiboot_image::{MbFault, find_header};
use plan_faults::{Part, PlanFault};

/// The first bytes of an ELF file (ELFMAG).
const ELF_MAGIC: &[u8; 4] = b"\x7fELF";

/// The form of a kernel's file.
#[derive(Clone, Copy)]
pub(crate) enum Format {
    /// Bytes for the address `at`, entered at the address `entry`.
    Raw { at: u64, entry: u64 },
    /// An ELF executable.
    Elf,
    /// A Linux/x86 bzImage.
    Bzimage,
    /// A Multiboot kernel.
    Multiboot,
}

// The form that the file shows.
#[tactic(auto, unfolding(crate::specs::Formats::shown_format))]
fn shown_format(file: &[u8]) -> Result<Format, PlanFault>
    ensures { result ≡ shown_format file.now }
{
    if is_bzimage(file) {
        Ok(Format::Bzimage)
    } else if !matches!(find_header(file), Err(MbFault::NoHeader)) {
        // also with a header that asks for what is not served
        Ok(Format::Multiboot)
    } else if file.starts_with(ELF_MAGIC) {
        Ok(Format::Elf)
    } else {
        Err(PlanFault::UnknownImage)
    }
}

/// The form of the request's kernel: the one that is given, or the one that its file shows.
pub(crate) fn format_of(request: &Request) -> Result<Format, PlanFault>
    ensures { result ≡ format_of (request_of request.now) }
{
    match request.image {
        ImageType::Raw { at, entry } => Ok(Format::Raw { at, entry }),
        ImageType::Elf => Ok(Format::Elf),
        ImageType::Bzimage => Ok(Format::Bzimage),
        ImageType::Multiboot => Ok(Format::Multiboot),
        ImageType::Auto => shown_format(&request.kernel),
    }
}

/// The first part that is given and that a kernel of this form has no use for.
pub(crate) fn unused_part(request: &Request, format: Format) -> Option<Part>
    ensures { result ≡ unused_part (request_of request.now) format }
{
    let takes_initrd = matches!(format, Format::Bzimage);
    let takes_modules = matches!(format, Format::Multiboot);
    if request.initrd.is_some() && !takes_initrd {
        Some(Part::Initrd)
    } else if !request.modules.is_empty() && !takes_modules {
        Some(Part::Module)
    } else if request.command.is_some() && !takes_initrd && !takes_modules {
        Some(Part::Command)
    } else {
        None
    }
}
