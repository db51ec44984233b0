//! Tests of pages, texts, memories, pools and segments that no scene can have: calls of the library, and each prefix of a
//! file. What commands make of their files, and of a memory map, is shown by crates/scenes/data.
//!
//! Tests that call only what their crates export stand in crates of their own: a build of tests proves their crate once
//! more, and so the crates are proved once.
//!
//! | Module | What it has |
//! |---|---|
//! | `page_set_tests`, `text_lines_tests` | sets of pages, and the lines and numbers of a text |
//! | `page_memory_tests`, `page_pool_tests` | the pages of a memory, and those of a pool |
//! | `segments_tests` | what each page is to have |
#![tactic(auto)]

#[cfg(test)]
mod page_memory_tests;
#[cfg(test)]
mod page_pool_tests;
#[cfg(test)]
mod page_set_tests;
#[cfg(test)]
mod segments_tests;
#[cfg(test)]
mod text_lines_tests;
