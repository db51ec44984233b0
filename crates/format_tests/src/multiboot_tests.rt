//! Each prefix of a Multiboot kernel, and each place of its header. Its flags and addresses are shown by
//! crates/scenes/data/multiboot-files.scenes.

use crate::bytes::put;
use multiboot_image::{MbFault, Parts, find_header, load_parts};
use std::alloc::Global;
use std::test::Fail;

const MAGIC: u32 = 0x1bad_b002;

// a header with addresses, and 32 bytes of zeros.
const KERNEL: [u32; 8] = [
    MAGIC,
    0x0001_0000,
    0xe451_4ffe,
    0x10_0000,
    0x10_0000,
    0,
    0,
    0x10_0020,
];

// Puts numbers of four bytes into a file, as far as it has room for them.
fn put_numbers(file: &mut [u8], at: usize, numbers: &[u32]) {
    let mut place = at;
    for number in numbers {
        put(file, place, &number.to_le_bytes());
        place = place.saturating_add(4);
    }
}

// A file of so many bytes: zeros, and these numbers at their places.
fn file(alloc: Global, total: usize, rows: &[(usize, &[u32])]) -> Result<Vec<u8>, Fail> {
    let mut file = vec![in alloc; 0u8; total]?;
    for (at, numbers) in rows {
        put_numbers(&mut file, *at, numbers);
    }
    Ok(file)
}

// Where the header of a file begins.
fn place(file: &[u8]) -> Result<usize, MbFault> {
    Ok(find_header(file)?.at)
}

fn parts(alloc: Global, file: &[u8]) -> Result<Parts, MbFault> {
    let header = find_header(file)?;
    load_parts(alloc, &header, file)
}

// The address and the size of the first segment, and how many bytes it has.
type Loaded = Result<Option<(u64, u64, usize)>, MbFault>;

fn loaded_length(alloc: Global, file: &[u8]) -> Loaded {
    match parts(alloc, file)?.list.first() {
        Some(segment) => Ok(Some((segment.mem, segment.memsz, segment.bytes.len()))),
        None => Ok(None),
    }
}

// Where a header without flags is found, in a file of 8,300 bytes where it stands at this place.
fn found(alloc: Global, at: usize) -> Result<Result<usize, MbFault>, Fail> {
    let file = file(alloc, 8300, &[(at, &[MAGIC, 0, 0xe452_4ffe])])?;
    Ok(place(&file))
}

// The first 12 bytes tell a header, and the first 32 have its addresses; what is loaded ends with the file.
fn loaded_front(length: usize) -> Loaded {
    match length {
        0..12 => Err(MbFault::NoHeader),
        12..32 => Err(MbFault::BadKludge),
        _ => Ok(Some((0x10_0000, 0x1000, length))),
    }
}

#[test]
fn each_prefix_of_a_file_is_read_as_far_as_it_goes(rt: HostRuntime) -> Result<(), Fail> {
    let kernel = file(rt.alloc(), 64, &[(0, &KERNEL)])?;
    for length in 0..65 {
        let front = kernel.get(..length).ok_or("a prefix")?;
        let found = loaded_length(rt.alloc(), front);
        assert_eq!(rt; found, loaded_front(length), "{length} bytes");
    }
    Ok(())
}

// A header anywhere in the first 8,192 bytes is found where its 12 bytes end there.
#[test]
fn headers_at_each_place_around_the_end_of_the_search(rt: HostRuntime) -> Result<(), Fail> {
    for at in 8160..8200 {
        let wanted = if at % 4 == 0 && at <= 8180 {
            Ok(at)
        } else {
            Err(MbFault::NoHeader)
        };
        assert_eq!(rt; found(rt.alloc(), at)?, wanted, "at {at}");
    }
    Ok(())
}
