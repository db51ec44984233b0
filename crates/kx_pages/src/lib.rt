//! Page numbers, sets of pages, and the small values that loads and runs pass on.
//!
//! A page has 4,096 bytes. Page `p` starts at address `4096 * p`. Addresses lie below 2^46, so page numbers lie
//! below 2^34 (this project's own limit). The words of a list of page copies are those of the Linux kernel's kexec
//! core (`kimage_entry_t`).
#![tactic(auto)]

mod copy;
mod image;
mod item;
mod limits;
mod needs;
mod page;
mod page_set;
mod room;
mod rounding;
mod search;
mod span;

pub use copy::copy_of;
pub use image::{Image, ImageType, Mode, Start, Wish};
pub use item::{DONE_WORD, Item, LINK_PAGE_ENTRIES, WordFault};
pub use limits::{KERNEL_LIMIT, SEGMENT_LIMIT, SEGMENT_PAGE_LIMIT};
pub use needs::{first_pages, link_pages_for, pages_needed};
pub use page::{ADDRESS_LIMIT, PAGE_LIMIT, PAGE_SIZE, Page, ZERO_PAGE, is_page_address};
pub use page_set::{PageSet, have_one_form};
pub use room::room_for;
pub use rounding::{pages_for, whole_pages};
pub use span::Span;
