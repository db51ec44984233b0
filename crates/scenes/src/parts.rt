//! The pages of a memory file and the segments of a load record (docs/FORMATS.md).

use sha2::{Digest, Sha256};
use std::alloc::AllocError;

const PAGE: usize = 4096;

/// A page of a memory file has its number before its bytes.
const ROW: usize = 8 + PAGE;

fn push_page(file: &mut Vec<u8>, number: u64, bytes: &[u8]) -> Result<(), AllocError> {
    file.extend_from_slice(&number.to_le_bytes())?;
    file.extend_from_slice(bytes)?;
    let end = file.len().saturating_add(PAGE.saturating_sub(bytes.len()));
    file.resize(end, 0)
}

/// Adds the pages that these bytes fill from this one on, and gives how many they are: one at least.
pub(crate) fn push_pages(file: &mut Vec<u8>, first: u64, bytes: &[u8]) -> Result<u64, AllocError> {
    if bytes.is_empty() {
        push_page(file, first, bytes)?;
        return Ok(1);
    }
    let mut count: u64 = 0;
    for page in bytes.chunks(PAGE) {
        push_page(file, first.wrapping_add(count), page)?;
        count = count.saturating_add(1);
    }
    Ok(count)
}

/// Adds a segment with these bytes; in version 2 their SHA-256 goes before them, if no other digest is given.
pub(crate) fn push_segment(
    file: &mut Vec<u8>,
    version: u64,
    mem: u64,
    memsz: u64,
    digest: Option<[u8; 32]>,
    bytes: &[u8],
) -> Result<(), AllocError> {
    file.extend_from_slice(&mem.to_le_bytes())?;
    file.extend_from_slice(&memsz.to_le_bytes())?;
    file.extend_from_slice(&(bytes.len() as u64).to_le_bytes())?;
    if version != 1 {
        let digest = match digest {
            Some(digest) => digest,
            None => Sha256::digest(bytes),
        };
        file.extend_from_slice(&digest)?;
    }
    file.extend_from_slice(bytes)
}

/// What a file gives to a page: of a memory file the bytes of the page of this number, of another all of its bytes.
pub(crate) fn page_of(file: &[u8], number: u64) -> &[u8] {
    if !file.starts_with(b"KXMEM001") {
        return file;
    }
    let number = number.to_le_bytes();
    for row in file.get(16..).unwrap_or(&[]).chunks(ROW) {
        if row.starts_with(&number) {
            return row.get(8..).unwrap_or(&[]);
        }
    }
    &[]
}
