//! Each prefix of a record, and the buffer of its first segment. What a record says, and why it is refused, is shown by
//! crates/scenes/data/records.scenes.

ghost use Rattle.std.specs.Prelude.{IfOk};
ghost use Rattle.kx_laws.specs.inner.Cuts.{IsCutAt};

use load_record::{FIRST_BYTES, LoadRecord, RecFault};
use segments::{Segment, Segments};
use std::test::Fail;

// The versions of a record's file: the second has a digest before the bytes of each segment.
#[derive(Clone, Copy, PartialEq, Eq)]
enum Version {
    First,
    Second,
}

// The numbers behind the magic: kind and mode, head, control, swap, entry, rax, rbx, rsi, regions and digest; the number of
// segments follows.
const NUMBERS: [u64; 10] = [0, 0x11002, 0x10000, 0, 0x2000, 0, 0, 0, 0, 0];

// Of the first segment its address, its bytes of memory and the number of its bytes.
const FIRST_SEGMENT: [u64; 3] = [0x2000, 0x1000, 3];

// The SHA-256 of `abc`, from FIPS 180-4's examples.
const DIGEST_OF_ABC: [u8; 32] = [
    0xba, 0x78, 0x16, 0xbf, 0x8f, 0x01, 0xcf, 0xea, 0x41, 0x41, 0x40, 0xde, 0x5d, 0xae, 0x22, 0x23,
    0xb0, 0x03, 0x61, 0xa3, 0x96, 0x17, 0x7a, 0x9c, 0xb4, 0x10, 0xff, 0x61, 0xf2, 0x00, 0x15, 0xad,
];

// The bytes of a second segment, and their SHA-256, from the same examples.
const LONGER: &[u8; 56] = b"abcdbcdecdefdefgefghfghighijhijkijkljklmklmnlmnomnopnopq";

const DIGEST_OF_LONGER: [u8; 32] = [
    0x24, 0x8d, 0x6a, 0x61, 0xd2, 0x06, 0x38, 0xb8, 0xe5, 0xc0, 0x26, 0x93, 0x0c, 0x3e, 0x60, 0x39,
    0xa3, 0x3c, 0xe4, 0x59, 0x64, 0xff, 0x21, 0x67, 0xf6, 0xec, 0xed, 0xd4, 0x19, 0xdb, 0x06, 0xc1,
];

fn push_numbers(file: &mut Vec<u8>, numbers: &[u64]) -> Result<(), Fail> {
    for number in numbers {
        file.extend_from_slice(&number.to_le_bytes())?;
    }
    Ok(())
}

// Puts the bytes of a segment, and in the second version their digest before them.
fn push_bytes(
    file: &mut Vec<u8>,
    version: Version,
    digest: &[u8],
    bytes: &[u8],
) -> Result<(), Fail> {
    if version == Version::Second {
        file.extend_from_slice(digest)?;
    }
    file.extend_from_slice(bytes)?;
    Ok(())
}

// The file of a record of so many segments, as far as its first one, `abc` at 2000 (hexadecimal).
fn file_of(rt: &HostRuntime, version: Version, segments: u64) -> Result<Vec<u8>, Fail> {
    let mut file = Vec::new(rt.alloc());
    match version {
        Version::First => file.extend_from_slice(b"KXREC001")?,
        Version::Second => file.extend_from_slice(b"KXREC002")?,
    }
    push_numbers(&mut file, &NUMBERS)?;
    push_numbers(&mut file, &[segments])?;
    push_numbers(&mut file, &FIRST_SEGMENT)?;
    push_bytes(&mut file, version, &DIGEST_OF_ABC, b"abc")?;
    Ok(file)
}

// The file of a record with this segment, and a second one at 3000 (hexadecimal) behind it.
fn file_of_two(rt: &HostRuntime, version: Version) -> Result<Vec<u8>, Fail> {
    let mut file = file_of(rt, version, 2)?;
    push_numbers(&mut file, &[0x3000, 0x1000, 56])?;
    push_bytes(&mut file, version, &DIGEST_OF_LONGER, LONGER)?;
    Ok(file)
}

// The file as it is handed in, its first bytes apart from the others.
fn in_two<'a>(rt: &HostRuntime, file: &'a [u8]) -> Result<(&'a [u8], Vec<u8>), Fail>
    ensures { IfOk result (λ x. IsCutAt 152 x.0.now x.1.items) }
{
    if file.len() < FIRST_BYTES {
        return Ok((file, Vec::new(rt.alloc())));
    }
    let (front, rest) = file.split_at(FIRST_BYTES);
    Ok((front, rest.to_vec(rt.alloc())?))
}

// Why `read` refuses a file, and why `from_file` does.
fn faults(rt: &HostRuntime, file: &[u8]) -> Result<[Option<RecFault>; 2], Fail> {
    let whole = LoadRecord::read(rt.alloc(), file).err();
    let (front, rest) = in_two(rt, file)?;
    let handed_in = LoadRecord::from_file(rt.alloc(), front, rest).err();
    Ok([whole, handed_in])
}

// What is told of a file that has so many bytes and goes on: in its head or in either segment, the number of its bytes.
fn cut_after(bytes: usize) -> RecFault {
    if bytes < 8 {
        RecFault::BadMagic
    } else {
        RecFault::Truncated { at: bytes as u64 }
    }
}

// The length of the first prefix of a file that is not refused as cut off, if there is one.
fn odd_prefix(rt: &HostRuntime, file: &[u8]) -> Result<Option<usize>, Fail> {
    for bytes in 0..file.len() {
        if faults(rt, &file[..bytes])? != [Some(cut_after(bytes)); 2] {
            return Ok(Some(bytes));
        }
    }
    Ok(None)
}

// Whether the file is read, and a byte more is refused where it stands.
fn ends_there(rt: &HostRuntime, mut file: Vec<u8>) -> Result<bool, Fail> {
    let whole = faults(rt, &file)?;
    let trailing = RecFault::Trailing {
        at: file.len() as u64,
    };
    file.push(0)?;
    Ok(whole == [None; 2] && faults(rt, &file)? == [Some(trailing); 2])
}

#[test]
fn each_prefix_of_a_file_is_refused(rt: HostRuntime) -> Result<(), Fail> {
    for (version, lengths) in [(Version::First, (123, 203)), (Version::Second, (155, 267))] {
        let one = file_of(&rt, version, 1)?;
        let two = file_of_two(&rt, version)?;
        assert_eq!(rt; (one.len(), two.len()), lengths);
        let odd = (odd_prefix(&rt, &one)?, odd_prefix(&rt, &two)?);
        assert_eq!(rt; odd, (None, None), "{} bytes", lengths.0);
        let ends = (ends_there(&rt, one)?, ends_there(&rt, two)?);
        assert_eq!(rt; ends, (true, true), "{} bytes", lengths.0);
    }
    Ok(())
}

// Whether a segment has these bytes, and a page of memory at this address.
fn is_segment(segment: &Segment, bytes: &[u8], mem: u64) -> bool {
    segment.bytes.as_slice() == bytes && (segment.mem, segment.memsz) == (mem, 0x1000)
}

// The room of the first segment's buffer, where these are the two segments of the file.
fn room_of_two(segments: &Segments) -> Option<usize> {
    if segments.count() != 2 {
        return None;
    }
    let (first, second) = (segments.segment(0), segments.segment(1));
    if is_segment(first, b"abc", 0x2000) && is_segment(second, LONGER, 0x3000) {
        Some(first.bytes.capacity())
    } else {
        None
    }
}

#[test]
fn the_first_segment_keeps_the_buffer_of_its_file(rt: HostRuntime) -> Result<(), Fail> {
    let written = file_of_two(&rt, Version::Second)?;
    for (version, name) in [(Version::First, "first"), (Version::Second, "second")] {
        let file = file_of_two(&rt, version)?;
        let (front, rest) = in_two(&rt, &file)?;
        let room = rest.capacity();
        let record = LoadRecord::from_file(rt.alloc(), front, rest)
            .ok()
            .ok_or("a record")?;
        let found = room_of_two(&record.segments).ok_or("two segments")?;
        let is_kept = version == Version::First || found == room;
        let is_written = record.write(rt.alloc())? == written;
        assert_eq!(rt; (is_kept, is_written), (true, true), "{name}");
    }
    Ok(())
}
