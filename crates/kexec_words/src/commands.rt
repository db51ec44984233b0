//! The commands, as their words say.

use kx_pages::{ImageType, Page};

/// How often the list is run in kept mode: once, into the new kernel, or twice, and back into the old one.
#[derive(Clone, Copy)]
pub enum Runs {
    /// Into the new kernel.
    Once,
    /// Into the new kernel and back.
    Twice,
}

/// What `boot` and `load` read: the names of the files, and the kernel's command line.
#[derive(Drop)]
pub struct Inputs {
    /// The memory file.
    pub memory: String,
    /// The pool file.
    pub pool: String,
    /// The first page past the limit of the pool: neither it nor a page above it is used. None is a pool without a limit.
    pub below: Option<Page>,
    /// The text of the memory map.
    pub map: Option<String>,
    /// The kernel.
    pub kernel: String,
    /// The initial RAM disk.
    pub initrd: Option<String>,
    /// The purgatory, an ELF64 object.
    pub purgatory: Option<String>,
    /// The Multiboot modules, at most 12.
    pub modules: Vec<String>,
    /// The kernel's command line; a text, and not the name of a file.
    pub command: Option<String>,
}

/// `boot`: load a kernel and run it.
#[derive(Drop)]
pub struct Boot {
    /// What is read.
    pub inputs: Inputs,
    /// The file of the memory after the last run.
    pub out: String,
    /// The runs in kept mode; none is one run in plain mode.
    pub kept: Option<Runs>,
    /// The type of the kernel.
    pub image: ImageType,
}

/// `load`: load a kernel and write its load record.
#[derive(Drop)]
pub struct Load {
    /// What is read.
    pub inputs: Inputs,
    /// The file of the memory after the load.
    pub out: String,
    /// The file of the load record.
    pub load_record: String,
    /// Whether the load is in kept mode.
    pub kept: bool,
    /// The type of the kernel.
    pub image: ImageType,
}

/// What `load-panic` reads beside the memory map.
#[derive(Drop)]
pub struct CrashInputs {
    /// The memory file.
    pub memory: String,
    /// The places of the ELF notes.
    pub notes: Option<String>,
    /// The crash kernel.
    pub kernel: String,
    /// The initial RAM disk.
    pub initrd: Option<String>,
    /// The purgatory, an ELF64 object.
    pub purgatory: Option<String>,
    /// The kernel's command line; a text, and not the name of a file.
    pub command: Option<String>,
}

/// `load-panic`: load a crash kernel into the reserved area and write its load record.
#[derive(Drop)]
pub struct LoadPanic {
    /// What is read, but for the memory map.
    pub inputs: CrashInputs,
    /// The file of the memory map.
    pub map: String,
    /// The file of the memory after the load.
    pub out: String,
    /// The file of the load record.
    pub load_record: String,
}

/// The files of `check` and `dump`: a memory, and a load record of it.
#[derive(Drop)]
pub struct LoadNames {
    /// The memory file.
    pub memory: String,
    /// The file of the load record.
    pub load_record: String,
}

/// `exec`: check a load record and run it.
#[derive(Drop)]
pub struct Exec {
    /// The memory file.
    pub memory: String,
    /// The file of the load record.
    pub load_record: String,
    /// The file of the memory after the last run.
    pub out: String,
    /// Whether the list is run a second time, back into the old kernel.
    pub twice: bool,
}

/// `trace`: run a list from its head word on, whether it is accepted or not.
#[derive(Drop)]
pub struct Trace {
    /// The memory file.
    pub memory: String,
    /// The file of the memory after the steps.
    pub out: String,
    /// The head word of the list.
    pub head: u64,
    /// The most steps; at most 100,000,000.
    pub limit: u64,
    /// The address of the swap page, a multiple of 4,096 below 2^46: moves are those of kept mode. None is plain mode.
    pub swap: Option<u64>,
}

/// `migrate`: write a load record anew, in the version of today.
#[derive(Drop)]
pub struct Migrate {
    /// The file of the load record.
    pub load_record: String,
    /// The file of the load record that is written.
    pub out: String,
}

/// `boot-resident`: load a raw kernel of which pages stand in memory already, and run it.
#[derive(Drop)]
pub struct BootResident {
    /// The memory file.
    pub memory: String,
    /// The pool file.
    pub pool: String,
    /// The file of the memory after the run.
    pub out: String,
    /// The kernel.
    pub kernel: String,
    /// The pairs of a page and the page where its bytes stand.
    pub pairs: String,
    /// The address of the kernel, where it is entered.
    pub at: u64,
}

/// `drill`: apply events of several callers one after another.
#[derive(Drop)]
pub struct Drill {
    /// The memory file.
    pub memory: String,
    /// The pool file.
    pub pool: String,
    /// The file of the memory after the last event.
    pub out: String,
    /// The events.
    pub events: String,
    /// The text of the memory map.
    pub map: String,
}

/// `core`: write the core file of a memory, by the crash headers that stand in it.
#[derive(Drop)]
pub struct Core {
    /// The memory file.
    pub memory: String,
    /// The core file.
    pub out: String,
    /// The address of the crash headers, a multiple of 8 below 2^46.
    pub address: u64,
}

/// A command with all that its words say.
#[derive(Drop)]
pub enum Command {
    /// Load a kernel and run it.
    Boot(Boot),
    /// Load a kernel and write its load record.
    Load(Load),
    /// Load a crash kernel and write its load record.
    LoadPanic(LoadPanic),
    /// Say whether a list is accepted, or its first fault.
    Check(LoadNames),
    /// Print a list and its segments.
    Dump(LoadNames),
    /// Check a list and run it.
    Exec(Exec),
    /// Run a list for some steps.
    Trace(Trace),
    /// Write a load record anew, in the version of today.
    Migrate(Migrate),
    /// Load and run a sample that is made from a number below 10^18.
    Sample { number: u64 },
    /// Load a raw kernel of which pages stand in memory already, and run it.
    BootResident(BootResident),
    /// Apply events of several callers one after another.
    Drill(Drill),
    /// Write the core file of a memory.
    Core(Core),
}
