//! The headers of an ELF64 file: where the numbers of its file header and of its program headers stand.
//!
//! Each of the two is one format, for those who read files and those who write them (System V ABI, gABI, chapter 4,
//! "ELF Header", and chapter 5, "Program Header"). What was written reads back. The numbers that stand for something
//! have the standard's own names.
#![tactic(auto)]

mod file_header;
mod numbers;
mod program_header;

pub use file_header::FileHeader;
pub use numbers::{
    ELF64_IDENT, EM_386, EM_X86_64, ET_CORE, ET_EXEC, ET_REL, FILE_HEADER_SIZE, PF_R, PF_W, PF_X,
    PN_XNUM, PROGRAM_HEADER_SIZE, PT_LOAD, PT_NOTE,
};
pub use program_header::ProgramHeader;
