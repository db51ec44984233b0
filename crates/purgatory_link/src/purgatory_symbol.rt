//! The symbols that a purgatory must define: by three of them it finds what it is given, and at the fourth it starts. Their
//! names are those of Linux's own purgatory (arch/x86/purgatory).

ghost use Rattle.std.specs.Prelude.{◌≡◌};
ghost use Rattle.purgatory_link.specs.PurgatorySymbols.{symbol_called};

use thiserror::Error;

/// The name of the registers of the new kernel.
pub const REGISTERS: &[u8; 12] = b"entry64_regs";

/// The name of the table of the regions that the purgatory tests.
pub const REGIONS: &[u8; 21] = b"purgatory_sha_regions";

/// The name of their digest.
pub const DIGEST: &[u8; 23] = b"purgatory_sha256_digest";

/// The name of the place where the purgatory starts.
pub const START: &[u8; 15] = b"purgatory_start";

/// A symbol that was looked up, by its name.
#[derive(Clone, Copy, Debug, PartialEq, Eq, Error)]
pub enum PurgatorySymbol {
    /// The registers of the new kernel.
    #[error("entry64_regs")]
    Registers,
    /// The table of the regions that the purgatory tests.
    #[error("purgatory_sha_regions")]
    Regions,
    /// Their digest.
    #[error("purgatory_sha256_digest")]
    Digest,
    /// Where the purgatory starts.
    #[error("purgatory_start")]
    Start,
    /// None of these four.
    #[error("the symbol")]
    Other,
}

impl PurgatorySymbol {
    /// The symbol of this name.
    pub fn called(name: &[u8]) -> PurgatorySymbol
        ensures { result ≡ symbol_called name.now }
    {
        if name == REGISTERS.as_slice() {
            PurgatorySymbol::Registers
        } else if name == REGIONS.as_slice() {
            PurgatorySymbol::Regions
        } else if name == DIGEST.as_slice() {
            PurgatorySymbol::Digest
        } else if name == START.as_slice() {
            PurgatorySymbol::Start
        } else {
            PurgatorySymbol::Other
        }
    }
}
