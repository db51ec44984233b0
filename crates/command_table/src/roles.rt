//! The files that commands take and put, each by its role.

/// What the help calls a memory file.
pub(crate) const MEMORY_FILE: &str = "memory file";

/// What the help calls a pool file.
pub(crate) const POOL_FILE: &str = "pool file";

/// What the help calls a load record.
pub(crate) const LOAD_RECORD: &str = "load record";

/// The role of a file in a command. The files that are read stand first, in the order in which every command takes those that
/// it has; behind them those that are written.
#[derive(Clone, Copy, Debug, PartialEq, Eq)]
pub enum Role {
    /// MEMORY: the memory that the command begins with.
    Memory,
    /// RECORD, where it is read: a load.
    Record,
    /// POOL: the free pages.
    Pool,
    /// `--map`: the memory map.
    Map,
    /// `--notes`: the places of the ELF notes.
    Notes,
    /// KERNEL: the kernel.
    Kernel,
    /// `--initrd`: the initial RAM disk.
    Initrd,
    /// `--purgatory`: the purgatory.
    Purgatory,
    /// MODULES: a Multiboot module.
    Module,
    /// PAIRS: the pages of the kernel that lie in memory.
    Pairs,
    /// EVENTS: the events of several callers.
    Events,
    /// OUT: the memory that the command ends with.
    MemoryOut,
    /// RECORD, where it is written, and OUT of `migrate`: a load.
    RecordOut,
    /// OUT of `core`: the core file.
    CoreOut,
}

impl Role {
    // What the help calls such a file.
    pub(crate) fn file(self) -> &'static str {
        match self {
            Role::Memory | Role::MemoryOut => MEMORY_FILE,
            Role::Pool => POOL_FILE,
            Role::Record | Role::RecordOut => LOAD_RECORD,
            Role::CoreOut => "core file",
            Role::Module => "files",
            Role::Map
            | Role::Notes
            | Role::Kernel
            | Role::Initrd
            | Role::Purgatory
            | Role::Pairs
            | Role::Events => "file",
        }
    }
}
