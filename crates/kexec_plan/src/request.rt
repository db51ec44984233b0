//! What is to be loaded, and the plan of it.

use crash_headers::Note;
use kx_pages::{ImageType, Start};
use segments::Segments;
use std::marker::Model;

/// A file that a Multiboot kernel gets beside its own, and the text that it gets with it.
#[derive(Drop)]
pub struct Module {
    /// The file's bytes.
    pub bytes: Vec<u8>,
    /// The text, which is the name of the file.
    pub text: Vec<u8>,
}

impl Model for Module {
    ghost use Rattle.kexec_plan.specs.Modules.{AskedModule};

    ghost Value = { AskedModule };

    ghost view = { λ m. record { bytes = m.bytes.items; text = m.text.items } };
}

/// A kernel to be loaded, and what belongs to it.
#[derive(Drop)]
pub struct Request {
    /// It is to start when this kernel crashes, from memory that is reserved for it.
    pub crash: bool,
    /// The type of the kernel's file.
    pub image: ImageType,
    /// The kernel's file.
    pub kernel: Vec<u8>,
    /// The initrd of a bzImage.
    pub initrd: Option<Vec<u8>>,
    /// The kernel's command.
    pub command: Option<Vec<u8>>,
    /// The modules of a Multiboot kernel, in order.
    pub modules: Vec<Module>,
    /// The purgatory's file: a relocatable object that runs before the new kernel.
    pub purgatory: Option<Vec<u8>>,
    /// Where the processors of this kernel leave their notes, for a crash kernel.
    pub notes: Vec<Note>,
}

/// The segments of a load, and how the new kernel starts.
#[derive(Drop)]
pub struct Planned {
    /// The segments, in the order of the plan.
    pub segments: Segments,
    /// How the new kernel starts.
    pub start: Start,
    /// The address of the purgatory's table of regions, or 0.
    pub regions: u64,
    /// The address of the purgatory's digest, or 0.
    pub digest: u64,
}
