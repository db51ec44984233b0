//! Boot parameters of a Linux kernel: the zero page of the Linux/x86 boot protocol with a memory map, and the kernel's
//! command behind it. Rows of the map that the zero page has no room for follow in a record of the protocol's list
//! `setup_data` (Linux, Documentation/x86/zero-page.rst and SETUP_E820_EXT).
#![tactic(auto)]

mod fault;
mod parameters;
mod setup_data;
mod zero_page;

pub use fault::ParamsFault;
pub use parameters::make;
pub use setup_data::length;
