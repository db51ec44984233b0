//! Tests of the files of kernels, purgatories and crashes that no scene can have: structs by themselves, each prefix of
//! a file, and the greatest core file. All other refusals, and what is made of files, are shown by crates/scenes/data.
//!
//! Tests that call only what their crates export stand in crates of their own: a build of tests proves their crate once
//! more, and so the crates are proved once.
//!
//! | Module | What it has |
//! |---|---|
//! | `bytes` | files, byte by byte |
//! | `fields_tests`, `range_index_tests` | blocks of fields, and ranges that meet |
//! | `elf_headers_tests` | ELF64's headers |
//! | `executable_tests`, `object_tests`, `multiboot_tests`, `bzimage_tests` | each prefix of a file |
//! | `length_tests` | lengths that 64 bits do not hold |
//! | `region_tests` | the regions that a purgatory tests |
//! | `vmcore_tests` | the greatest core file |
#![tactic(auto)]

#[cfg(test)]
mod bytes;
#[cfg(test)]
mod bzimage_tests;
#[cfg(test)]
mod elf_headers_tests;
#[cfg(test)]
mod executable_tests;
#[cfg(test)]
mod fields_tests;
#[cfg(test)]
mod length_tests;
#[cfg(test)]
mod multiboot_tests;
#[cfg(test)]
mod object_tests;
#[cfg(test)]
mod range_index_tests;
#[cfg(test)]
mod region_tests;
#[cfg(test)]
mod vmcore_tests;
