//! A part of an executable that is loaded.

ghost use Rattle.std.specs.Prelude.{◌≡◌};
ghost use Rattle.elf_image.specs.Loads.{load_stop, is_bad, is_cut, loads_meet};

use kx_pages::ADDRESS_LIMIT;

/// A part of an executable that is loaded: a program header of type PT_LOAD.
#[derive(Clone, Copy)]
pub struct Load {
    /// Where its bytes stand in the file (`p_offset`).
    pub offset: u64,
    /// How many bytes of the file it has (`p_filesz`).
    pub filesz: u64,
    /// The address that they go to (`p_paddr`).
    pub paddr: u64,
    /// How many bytes of memory it takes from there on (`p_memsz`). What lies behind its bytes is filled with zeros.
    pub memsz: u64,
}

impl Load {
    /// It has more bytes in the file than in memory, or ends above the limit of addresses.
    pub(crate) fn is_bad(&self) -> bool
        ensures { result ≡ is_bad self.now }
    {
        self.filesz > self.memsz || self.stop() > u128::from(ADDRESS_LIMIT)
    }

    /// Its bytes do not lie in a file of `total` bytes.
    pub(crate) fn is_cut(&self, total: usize) -> bool
        ensures { result ≡ is_cut total self.now }
    {
        u128::from(self.offset) + u128::from(self.filesz) > total as u128
    }

    // The address behind it.
    fn stop(&self) -> u128
        ensures { result ≡ load_stop self.now }
    {
        u128::from(self.paddr) + u128::from(self.memsz)
    }

    /// Some byte of memory is in both.
    pub(crate) fn meets(&self, other: &Load) -> bool
        ensures { result ≡ loads_meet self.now other.now }
    {
        u128::from(self.paddr.max(other.paddr)) < self.stop().min(other.stop())
    }
}
