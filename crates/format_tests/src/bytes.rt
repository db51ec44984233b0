//! Files, byte by byte.

use kx_pages::Page;
use page_memory::Memory;
use std::alloc::{AllocError, Global};
use std::test::Fail;

/// Puts these bytes into the file at this place, if it has room for all of them.
pub(crate) fn put(file: &mut [u8], at: usize, bytes: &[u8]) {
    if at <= file.len() && bytes.len() <= file.len() - at {
        file[at..at + bytes.len()].copy_from_slice(bytes);
    }
}

/// Holds these bytes in the page of this number, and zeros behind them.
pub(crate) fn put_page(memory: &mut Memory, number: u64, bytes: &[u8]) -> Result<(), Fail> {
    let page = Page::new(number).ok_or("a page")?;
    memory.hold(page)?;
    if memory.held(page) && bytes.len() <= 4096 {
        memory.set(page, bytes);
    }
    Ok(())
}

/// A file of so many bytes: zeros, and these bytes at their places.
pub(crate) fn file_of(
    alloc: Global,
    length: usize,
    fields: &[(usize, &[u8])],
) -> Result<Vec<u8>, Fail> {
    let mut file = vec![in alloc; 0u8; length]?;
    for (at, bytes) in fields {
        put(&mut file, *at, bytes);
    }
    Ok(file)
}

fn stand(file: &[u8], at: usize, wanted: &[u8]) -> bool {
    match file.get(at..) {
        Some(behind) => behind.starts_with(wanted),
        None => false,
    }
}

/// The first of these places of a file where other bytes stand.
pub(crate) fn first_other(file: &[u8], places: &[(usize, &[u8])]) -> Option<usize> {
    for (at, wanted) in places {
        if !stand(file, *at, wanted) {
            return Some(*at);
        }
    }
    None
}

/// The numbers as bytes, the lowest first.
pub(crate) fn spell(alloc: Global, numbers: &[u64]) -> Result<Vec<u8>, AllocError> {
    let mut bytes = Vec::new(alloc);
    for number in numbers {
        bytes.extend_from_slice(&number.to_le_bytes())?;
    }
    Ok(bytes)
}
