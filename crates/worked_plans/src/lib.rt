//! The definitions of a plan, and some of samples, resident pages, slots and loads, tried on worked examples.
//!
//! Nothing here is called. Each function has the name of an example, and its clauses say what the definitions give for
//! it, mostly by computing; the places of parts are shown to be the least or the greatest that fit. Addresses are
//! hexadecimal.
#![tactic(auto)]

mod commands;
mod faults;
mod formats;
mod grounds;
mod kernels;
mod laying;
mod places;
mod plans;
mod purgatories;
mod refusals;
mod residents;
mod rules;
mod samples;
mod slots;

pub use commands::command_of_a_crash_kernel;
pub use faults::{faults_of_parts, want_of_memory};
pub use formats::{forms_of_files, forms_that_are_given, parts_without_use};
pub use grounds::{
    grounds_of_requests, pages_for_parts, rows_and_limits, rules_of_segments, runs_of_memory,
};
pub use kernels::{
    elf_kernels, linux_kernels, multiboot_kernels, parts_of_a_linux_kernel, raw_kernels,
};
pub use laying::{bytes_of_parts, rules_by_what_is_laid, segments_of_parts, what_is_told};
pub use places::{
    addresses_that_are_free, addresses_that_fit, holes_of_parts, numbers_that_pass,
    pages_that_are_taken, places_of_parts,
};
pub use plans::{
    beginning_of_a_plan, crash_kernel, kernels_with_a_place, linux_kernel_behind_a_purgatory,
    linux_kernel_with_an_initrd, multiboot_kernel_with_a_module, tables_that_are_apart,
};
pub use purgatories::{
    places_of_symbols, purgatory_that_is_read, regions_of_a_plan, symbols_of_a_purgatory,
    what_a_purgatory_finds,
};
pub use refusals::{parts_without_a_place, refusals_behind_the_places, refusals_of_files};
pub use residents::{
    order_of_pairs, pages_in_rising_order, planned_pairs, pool_with_too_few_pages,
};
pub use rules::{rule_of_a_linux_kernel, rules_of_other_parts, sizes_of_parts};
pub use samples::{
    digest_of_a_memory, memory_of_a_sample, segment_of_a_shape, segments_of_a_sample,
};
pub use slots::{calls_that_are_busy, pages_of_the_pool, states_of_a_load};
