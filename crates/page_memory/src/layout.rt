//! The sizes of the memory file, and so of the buffer in which the frames lie.

/// The bytes of a frame: a page, as a length.
pub(crate) const FRAME_SIZE: usize = 4096;

/// The bytes of the file's head: eight that tell the format, and the number of pages.
pub(crate) const HEAD: usize = 16;

/// The bytes of a page in the file: eight for its number, and its frame.
pub(crate) const SLOT: usize = 4104;

/// Where the first page's frame begins: behind the head and the page's number.
pub(crate) const FIRST_FRAME: usize = 24;

/// How many pages a memory file may have (this project's own limit).
pub(crate) const FILE_PAGE_LIMIT: u64 = 131_072;
