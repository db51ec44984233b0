//! What a load asks for, what a run takes, and where the new kernel starts.

ghost use Rattle.std.specs.Prelude.{◌≡◌};
ghost use Rattle.kx_pages.specs.Types.{needs_map};

use crate::page::Page;

/// The type of a kernel's file.
#[derive(Clone, Copy)]
pub enum ImageType {
    /// The file itself tells.
    Auto,
    /// Bytes for the address `at`, entered at the address `entry`.
    Raw { at: u64, entry: u64 },
    /// An ELF executable (ELF gABI, `ET_EXEC`).
    Elf,
    /// A Linux/x86 bzImage (Linux/x86 boot protocol).
    Bzimage,
    /// A Multiboot kernel (Multiboot Specification, version 0.6.96).
    Multiboot,
}

impl ImageType {
    /// Whether a memory map must be known for a kernel of this type, with a purgatory or without one: the place of a raw
    /// kernel is given, that of any other part is found in the map.
    pub fn needs_map(self, has_purgatory: bool) -> bool
        ensures { result ≡ needs_map self has_purgatory }
    {
        match self {
            ImageType::Raw { .. } => has_purgatory,
            _ => true,
        }
    }
}

/// What a load asks for: plain, or with context preserved (`KEXEC_PRESERVE_CONTEXT` of kexec_load(2)).
#[derive(Clone, Copy)]
pub enum Wish {
    /// The list is to be run by plain moves.
    Plain,
    /// The list is to be run by kept moves, by way of a swap page that the load takes from the pool.
    Kept,
}

/// How a list is run: plain moves copy a page, kept moves exchange two pages by way of the swap page.
#[derive(Clone, Copy)]
pub enum Mode {
    /// A move copies the source page to the destination page.
    Plain,
    /// A move exchanges the source page and the destination page, by way of the page `swap`.
    Kept { swap: Page },
}

/// What running a list takes: the head word, the mode, and the control page, where the kernel would put the code
/// that runs the list.
#[derive(Clone, Copy)]
pub struct Image {
    /// The head word, which a run handles first.
    pub head: u64,
    /// How the list's moves are run.
    pub mode: Mode,
    /// The control page.
    pub control: Page,
}

/// The entry address and the registers at the start of the new kernel. All other registers are 0.
#[derive(Clone, Copy, Debug, PartialEq, Eq)]
pub struct Start {
    pub entry: u64,
    pub rax: u64,
    pub rbx: u64,
    pub rsi: u64,
}
