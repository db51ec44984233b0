//! Links a purgatory: the code that runs between the old kernel and the new one, a relocatable object (ELF64 for x86-64)
//! that `elf_image` reads.
//!
//! The loaded sections stand one after another from a base on, each at the next multiple of its alignment, zeros between
//! and behind them, in whole pages. Each relocation's field holds the value of its formula (x86-64 psABI), computed over
//! whole numbers; a value that does not fit, a field outside its section or over another one, and a symbol without a
//! value are refused, the first in the order of the sections and then of the relocations. Layout and order of refusals
//! are this project's own, as is R_X86_64_PLT32 without a procedure linkage table.
//!
//! Before it jumps, a purgatory tests what was loaded: [`regions_of`] makes the table of the regions that it reads, and
//! [`digest_of`] the SHA-256 (FIPS 180-4) of what they are to have. [`test_regions`] does the same over a memory, and
//! [`loaded_regions_are_same`] says that a load passes this test.
#![tactic(auto)]

mod digests;
mod fault;
mod form;
mod layout;
mod linked;
mod names;
mod purgatory_symbol;
mod put;
mod region_test;
mod reloc;
mod relocate;
mod symbols;
mod taken;

pub use digests::{digest_of, regions_of};
pub use fault::LinkFault;
pub use linked::{Linked, link, size, write_at};
pub use names::Names;
pub use purgatory_symbol::{DIGEST, PurgatorySymbol, REGIONS, REGISTERS, START};
pub use region_test::{
    RegionTest, digested_regions_are_same, loaded_regions_are_same, test_regions,
};
