//! Linux kernels in the bzImage format, as far as a loader of the 64-bit entry reads them: the setup header of the
//! Linux/x86 boot protocol from version 2.12 on ("The Real-Mode Kernel Header").
//!
//! A file begins with the boot sector and the setup sectors, in which the header stands at 0x1f1; the protected-mode part
//! follows. Only the header is read: the real-mode code and what is in the protected-mode part are not looked at.
#![tactic(auto)]

mod fault;
mod image;
mod setup_header;
mod signature;

pub use fault::BzFault;
pub use image::{BzImage, read};
pub use signature::is_bzimage;
