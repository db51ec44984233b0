//! What a kernel's file gives a plan: segments whose place the file gives, and parts that need one.

ghost use Rattle.std.specs.Prelude.{◌≡◌, ◌++◌, map, option_map, Ok, IfOk, OnOk};
ghost use Rattle.kx_laws.specs.inner.Results.{Gives};
ghost use Rattle.kexec_plan.specs.Laying.{Module as ModulePart};
ghost use Rattle.kexec_plan.specs.Kernels.{raw_kernel, elf_kernel, initrd_part, linux_kernel, multiboot_kernel, read_kernel};

use crate::format::Format;
use crate::ground::Ground;
use crate::parts::{Parts, PlanPart};
use crate::request::Module;
use crate::table::{initrd_rule, kernel_rule};
use bzimage::BzImage;
use crash_headers::Note;
use elf_image::{ElfFault, image_pages, read_exec};
use kx_pages::PAGE_SIZE;
use multiboot_image::{find_header, load_parts};
use plan_faults::PlanFault;
use segments::Segment;
use std::alloc::{AllocError, Global};
use std::marker::Model;

/// A kernel that was read.
#[derive(Drop)]
pub(crate) struct Kernel<'a> {
    /// The segments whose place the file gives.
    pub(crate) list: Vec<Segment>,
    /// The address that the kernel is entered at, where the file gives it.
    pub(crate) entry: u64,
    /// The parts that need a place.
    pub(crate) parts: Parts<'a>,
    /// They may lie above 4 GiB.
    pub(crate) above4g: bool,
}

impl<'a> Model for Kernel<'a> {
    ghost use Rattle.kexec_plan.specs.Kernels.{Kernel as KernelValue};

    ghost Value = { KernelValue };

    ghost view = { λ k. record {
      list = k.list.items;
      entry = k.entry;
      parts = k.parts;
      above4g = k.above4g;
    } };
}

// A raw kernel: its bytes at this address, entered at that one.
fn raw_kernel<'a>(
    alloc: Global,
    at: u64,
    entry: u64,
    bytes: Vec<u8>,
) -> Result<Kernel<'a>, PlanFault>
    ensures { Gives PlanFault.Memory (λ k. k) result (Ok (raw_kernel at entry bytes.items)) }
{
    let pages = (bytes.len() as u64 + (PAGE_SIZE - 1)) / PAGE_SIZE;
    let mut list = Vec::new(alloc);
    list.push(Segment {
        bytes,
        mem: at,
        memsz: PAGE_SIZE * pages,
    })?;
    Ok(Kernel {
        list,
        entry,
        parts: Parts::new(alloc),
        above4g: false,
    })
}

// The ELF executable of this file, which must be ELF64. The file is let go when its segments are there.
#[tactic(auto, unfolding(crate::specs::Kernels::elf_kernel))]
fn read_elf<'a>(alloc: Global, file: Vec<u8>) -> Result<Kernel<'a>, PlanFault>
    ensures { Gives PlanFault.Memory (λ k. k) result (elf_kernel file.items) }
{
    let exec = read_exec(alloc, &file).map_err(PlanFault::of_elf)?;
    if !exec.wide {
        return Err(PlanFault::Elf {
            fault: ElfFault::Class,
        });
    }
    let entry = exec.entry;
    let list = image_pages(alloc, exec, &file).map_err(PlanFault::of_elf)?;
    Ok(Kernel {
        list,
        entry,
        parts: Parts::new(alloc),
        above4g: false,
    })
}

// The initrd behind other parts, if there is one.
fn push_initrd(
    parts: &mut Parts<'_>,
    image: &BzImage,
    initrd: Option<Vec<u8>>,
) -> Result<(), AllocError>
    ensures { OnOk result
        (parts.new
        ≡ parts.old ++ initrd_part image.now (option_map (λ v. v.items) initrd)) }
{
    if let Some(bytes) = initrd {
        let rule = initrd_rule(image, &bytes);
        parts.push(PlanPart::Initrd { rule, bytes })?;
    }
    Ok(())
}

// A bzImage; its address gives the entry.
#[tactic(auto, unfolding(crate::specs::Kernels::linux_kernel))]
fn read_linux<'a>(
    alloc: Global,
    ground: &Ground<'a>,
    mut file: Vec<u8>,
    initrd: Option<Vec<u8>>,
    notes: Vec<Note>,
) -> Result<Kernel<'a>, PlanFault>
    ensures { Gives PlanFault.Memory (λ k. k) result
        (linux_kernel ground.now file.items (option_map (λ v. v.items) initrd) notes.items) }
{
    let image = bzimage::read(alloc, &file)?;
    let above4g = image.above4g;
    let rule = kernel_rule(&image, file.len());
    file.drain(..image.start);
    let mut parts = Parts::new(alloc);
    parts.push(PlanPart::Image { rule, bytes: file })?;
    push_initrd(&mut parts, &image, initrd)?;
    ground.push_headers(&mut parts, &image, notes)?;
    let rows = ground.rows();
    parts.push(PlanPart::Parameters { image, rows })?;
    Ok(Kernel {
        list: Vec::new(alloc),
        entry: 0,
        parts,
        above4g,
    })
}

// Modules, one behind another.
fn module_parts<'a>(alloc: Global, modules: Vec<Module>) -> Result<Parts<'a>, AllocError>
    ensures { IfOk result (λ parts. parts ≡ map ModulePart modules.items) }
{
    let mut parts = Parts::new(alloc);
    for module in modules {
        parts.push(PlanPart::Module { module })?;
    }
    Ok(parts)
}

// A Multiboot kernel, with its modules and its information.
#[tactic(auto, unfolding(crate::specs::Kernels::multiboot_kernel))]
fn read_multiboot<'a>(
    alloc: Global,
    ground: &Ground<'a>,
    file: &[u8],
    modules: Vec<Module>,
) -> Result<Kernel<'a>, PlanFault>
    ensures { Gives PlanFault.Memory (λ k. k) result
        (multiboot_kernel ground.now file.now modules.items) }
{
    let header = find_header(file)?;
    let loaded = load_parts(alloc, &header, file)?;
    let mut parts = module_parts(alloc, modules)?;
    let rows = ground.rows();
    parts.push(PlanPart::Information { rows })?;
    Ok(Kernel {
        list: loaded.list,
        entry: loaded.entry,
        parts,
        above4g: false,
    })
}

/// The kernel of this form, with what belongs to it. The bytes of its files are moved.
#[tactic(auto, unfolding(crate::specs::Kernels::read_kernel))]
pub(crate) fn read_kernel<'a>(
    alloc: Global,
    ground: &Ground<'a>,
    format: Format,
    file: Vec<u8>,
    initrd: Option<Vec<u8>>,
    modules: Vec<Module>,
    notes: Vec<Note>,
) -> Result<Kernel<'a>, PlanFault>
    ensures { Gives PlanFault.Memory (λ k. k) result
        (read_kernel ground.now format file.items (option_map (λ v. v.items) initrd)
        modules.items notes.items) }
{
    match format {
        Format::Raw { at, entry } => raw_kernel(alloc, at, entry, file),
        Format::Elf => read_elf(alloc, file),
        Format::Bzimage => read_linux(alloc, ground, file, initrd, notes),
        Format::Multiboot => read_multiboot(alloc, ground, &file, modules),
    }
}
