//! The room of large buffers.

ghost use Rattle.std.specs.Prelude.{◌≡◌, ◌+◌, ◌%◌, ◌<◌, ◌≤◌, ◌^◌};

/// The bytes of a huge page: what an entry of a page directory can map (Intel SDM, volume 3A, 4-level paging).
const HUGE_PAGE_SIZE: usize = 2_097_152;

/// What the allocator may keep in front of a buffer: it takes one page at most.
const BESIDE: usize = 4096;

/// How many bytes of room a buffer is to have that gets so many bytes: from 2 MiB on whole huge pages, less the page that
/// is left to the allocator. The system lays a mapping of such a length at the boundary of a huge page, and moves it
/// whole when it grows, where it else splits its huge pages. This project's own.
pub fn room_for(bytes: usize) -> usize
    ensures enough { bytes ≤ result }
    ensures near { result < bytes + 2 ^ 21 }
    ensures whole { 2 ^ 21 ≤ bytes → bytes < 2 ^ 63 → (result + 4096) % 2 ^ 21 ≡ 0 }
{
    if bytes < HUGE_PAGE_SIZE {
        return bytes;
    }
    let behind = bytes.saturating_add(BESIDE + HUGE_PAGE_SIZE - 1);
    (behind - behind % HUGE_PAGE_SIZE - BESIDE).max(bytes)
}
