//! Bytes of memory by address.

ghost use Rattle.std.specs.Prelude.{◌≡◌, ◌+◌, ◌^◌, ◌<◌, ◌≤◌, length};
ghost use Rattle.page_memory.specs.Contents.{at};
ghost use Rattle.page_memory.specs.Addresses.{bytes_in};

use crate::memory::Memory;
use kx_fields::Block;
use kx_pages::{PAGE_SIZE, Page};

impl Memory {
    /// The bytes from an address on, up to the end of its page or to `end`, lent and not copied. This project's own.
    pub fn piece(&self, address: u64, end: u64) -> &[u8]
        requires before { address < end }
        requires inside { end ≤ 2 ^ 46 }
        ensures value { result.now ≡ bytes_in (at self.now) address (length result.now) }
        ensures some { 0 < length result.now }
        ensures within { address + length result.now ≤ end }
    {
        let page = self.bytes(Page::from_address(address));
        let (_, rest) = page.split_at((address % PAGE_SIZE) as usize);
        let left = end - address;
        if left >= rest.len() as u64 {
            return rest;
        }
        let (front, _) = rest.split_at(left as usize);
        front
    }

    /// The `N` bytes from an address on. This project's own.
    pub fn block<const N: usize>(&self, start: u64) -> Block<N>
        requires small { N ≤ 4096 }
        requires inside { start + N ≤ 2 ^ 46 }
        ensures { result ≡ bytes_in (at self.now) start N }
    {
        let end = start + N as u64;
        let mut block = Block::zeros();
        let mut address = start;
        while address < end {
            let bytes = self.piece(address, end);
            block.put_bytes((address - start) as usize, bytes);
            address += bytes.len() as u64;
        }
        block
    }
}
