//! What a load may have at most. The limits but for that of segments are this project's own.

/// How many segments a load can have: `KEXEC_SEGMENT_MAX` of kexec_load(2).
pub const SEGMENT_LIMIT: usize = 16;

/// How many pages the segments of a load may have together.
pub const SEGMENT_PAGE_LIMIT: u64 = 65_536;

/// How many bytes a kernel, its initrd and its modules may have together: those of all pages of a load, 256 MiB.
pub const KERNEL_LIMIT: usize = 268_435_456;
