//! Bytes in whole pages.

ghost use Rattle.std.specs.Prelude.{◌≡◌, ◌-◌, ◌≤◌, ◌^◌};
ghost use Rattle.kx_pages.specs.Ranges.{pages_for, whole_pages};

use crate::page::PAGE_SIZE;

/// How many pages so many bytes take. This project's own.
pub fn pages_for(bytes: u64) -> u64
    ensures { result ≡ pages_for bytes }
{
    bytes.div_ceil(PAGE_SIZE)
}

/// So many bytes in whole pages: the least multiple of 4,096 that is no less. This project's own.
pub fn whole_pages(bytes: u64) -> u64
    requires { bytes ≤ 2 ^ 64 - 4096 }
    ensures { result ≡ whole_pages bytes }
{
    pages_for(bytes) * PAGE_SIZE
}
