//! The segments in a record's file.

ghost use Rattle.std.specs.Prelude.{◌≡◌, ◌↔◌, ◌+◌, ◌-◌, ◌<◌, ◌≤◌, ◌∷◌, ◌++◌, take, drop, length, option_map, IfOk, OnOk, IsSome, IfSome, Some, None, if◌then◌else◌};
ghost use Rattle.std.specs.List.{flat_map};
ghost use Rattle.std.specs.Option.{option_or, option_to_list};
ghost use Rattle.sha2.specs.Sha256.{sha256};
ghost use Rattle.kx_fields.specs.Fields.{zeros};
ghost use Rattle.kx_fields.specs.Formats.{read, written};
ghost use Rattle.kx_laws.specs.inner.Results.{Gives};
ghost use Rattle.load_record.specs.declared.version.Version.TheVariants.{Second};
ghost use Rattle.load_record.specs.File.{digest_size, file_segment, head_of_segment, is_wrong, record_file, segment_at, segment_format, segment_of, segment_text, tested_segments, without_wrong};
ghost use Rattle.load_record.specs.inner.File.{made_digest, made_digests, digests_of, keep_segments};
ghost use Rattle.kx_laws.specs.inner.Cuts.{IsCutAt};

use crate::fault::RecFault;
use crate::load::LoadRecord;
use crate::version::{Tested, Version};
use kx_fields::Block;
use kx_pages::copy_of;
use segments::{Segment, Segments};
use sha2::{Digest, Sha256};
use std::alloc::{AllocError, Global};

/// The head of a segment, before its bytes.
#[derive(Clone, Copy)]
struct SegmentHead {
    mem: u64,
    memsz: u64,
    bufsz: u64,
}

// The places of its numbers.
macro_rules! segment_table {
    ($($use:tt)*) => {
        kx_fields::fields!($($use)* {
            mem: u64 @ 0,
            memsz: u64 @ 8,
            bufsz: u64 @ 16,
        })
    };
}

impl SegmentHead {
    // The numbers in these 24 bytes.
    fn numbers(block: &Block<24>) -> SegmentHead
        ensures { result ≡ read segment_format block.now }
    {
        segment_table!(get block, SegmentHead)
    }

    // Its 24 bytes.
    fn block(&self) -> Block<24>
        ensures value { result ≡ written segment_format self.now (zeros 24) }
        ensures length { length result ≡ 24 }
    {
        let head = *self;
        let mut block = Block::zeros();
        segment_table!(put block, head);
        block
    }

    // The segment with this head and these bytes.
    fn segment(self, bytes: Vec<u8>) -> Segment
        ensures { result ≡ segment_of self bytes.items }
    {
        Segment {
            bytes,
            mem: self.mem,
            memsz: self.memsz,
        }
    }
}

// The head of a segment, where it and the digest behind it are whole.
fn head_in(version: Version, own: &[u8]) -> Option<SegmentHead>
    ensures found { IsSome result ↔ (24 + digest_size version ≤ length own.now) }
    ensures value { IfSome result (λ h. h ≡ read segment_format (take 24 own.now)) }
{
    if own.len() < version.front_size() {
        return None;
    }
    let block = Block::<24>::cut(own, 0)?;
    Some(SegmentHead::numbers(&block))
}

// The head of a segment, the test of its digest, its bytes, and what follows it. Its own head and digest stand apart from
// the bytes behind them, and the file has `total` bytes.
fn cut_segment<'a>(
    version: Version,
    total: u64,
    own: &[u8],
    behind: &'a [u8],
) -> Result<(SegmentHead, Tested, &'a [u8], &'a [u8]), RecFault>
    requires apart { IsCutAt (24 + digest_size version) own.now behind.now }
    ensures exact { Gives RecFault.Memory
        (λ x. (file_segment x.0 (drop 24 own.now) x.2.now, x.3.now)) result
        (segment_at version total (own.now ++ behind.now)) }
    ensures made { IfOk result (λ x. x.1.made ≡ made_digest version x.2.now) }
    ensures digest { IfOk result (λ x. x.1.is_wrong ≡ is_wrong version (drop 24 own.now) x.2.now) }
    ensures place { IfOk result (λ x. x.2.now ≡ take x.0.bufsz behind.now) }
    ensures inside { IfOk result (λ x. x.0.bufsz + length x.3.now ≡ length behind.now) }
{
    let head = match head_in(version, own) {
        Some(head) => head,
        None => return Err(RecFault::Truncated { at: total }),
    };
    if head.bufsz > behind.len() as u64 {
        return Err(RecFault::Truncated { at: total });
    }
    let (_, digest) = own.split_at(24);
    let (bytes, after) = behind.split_at(head.bufsz as usize);
    Ok((head, version.test(digest, bytes), bytes, after))
}

// The least number of a segment with a wrong digest, once segment `number` was looked at too.
fn least_wrong(before: Option<u64>, number: u64, is_wrong: bool) -> Option<u64>
    ensures { result ≡ option_or before (if is_wrong then Some number else None) }
{
    match before {
        Some(least) => Some(least),
        None if is_wrong => Some(number),
        None => None,
    }
}

// Keeps the digest that was made of a segment's bytes, if one was.
fn push_digest(digests: &mut Vec<[u8; 32]>, made: Option<[u8; 32]>) -> Result<(), AllocError>
    ensures { OnOk result (digests.new.items ≡ digests.old.items ++ option_to_list made) }
{
    if let Some(digest) = made {
        digests.push(digest)?;
    }
    Ok(())
}

// The segments that the bytes spell, from number `first` on to `count`, and nothing after them: the last bytes of a file
// that has `total`. Beside them the digests that were made of their bytes, and the least number of a segment with a wrong
// digest: `before`, where a segment before them has one.
fn copied_segments(
    alloc: Global,
    version: Version,
    total: u64,
    before: Option<u64>,
    first: u64,
    count: u64,
    bytes: &[u8],
) -> Result<(Vec<Segment>, Vec<[u8; 32]>, Option<u64>), RecFault>
    requires last { length bytes.now ≤ total }
    requires order { first ≤ count }
    requires few { count ≤ 16 }
    ensures exact { Gives RecFault.Memory (λ x. (x.0.items, x.2)) result
        (keep_segments version total first before (count - first) bytes.now) }
    ensures digests { IfOk result (λ x. x.1.items ≡ made_digests version x.0.items) }
{
    let mut rest = bytes;
    let mut wrong = before;
    let mut digests = Vec::new(alloc);
    let mut list = Vec::new(alloc);
    list.reserve_exact((count - first) as usize)?;
    for number in first..count {
        let (own, behind) = rest.split_at(rest.len().min(version.front_size()));
        let (head, tested, bytes, after) = match cut_segment(version, total, own, behind) {
            Ok(cut) => cut,
            Err(fault) => return Err(fault),
        };
        wrong = least_wrong(wrong, number, tested.is_wrong);
        push_digest(&mut digests, tested.made)?;
        list.push(head.segment(copy_of(alloc, bytes)?))?;
        rest = after;
    }
    if !rest.is_empty() {
        return Err(RecFault::Trailing {
            at: total - rest.len() as u64,
        });
    }
    Ok((list, digests, wrong))
}

// The segments, if none of them has a wrong digest.
fn without_wrong(list: Vec<Segment>, wrong: Option<u64>) -> Result<Vec<Segment>, RecFault>
    ensures { Gives RecFault.Memory (λ v. v.items) result (without_wrong list.items wrong) }
{
    match wrong {
        None => Ok(list),
        Some(number) => Err(RecFault::WrongDigest {
            segment: number as usize,
        }),
    }
}

/// The segments that follow the head of a whole file, so many, with nothing after them and no wrong digest.
pub(crate) fn read_segments(
    alloc: Global,
    version: Version,
    count: u64,
    file: &[u8],
) -> Result<Vec<Segment>, RecFault>
    requires whole { 96 ≤ length file.now }
    requires few { count ≤ 16 }
    ensures { Gives RecFault.Memory (λ v. v.items) result
        (tested_segments version (length file.now) count (drop 96 file.now)) }
{
    let (_, body) = file.split_at(96);
    match copied_segments(alloc, version, file.len() as u64, None, 0, count, body) {
        Ok((list, _, wrong)) => without_wrong(list, wrong),
        Err(fault) => Err(fault),
    }
}

// The digests of segments, if one was made of the first.
fn with_first(
    first: Option<[u8; 32]>,
    mut others: Vec<[u8; 32]>,
) -> Result<Option<Vec<[u8; 32]>>, AllocError>
    ensures { IfOk result (λ d. option_map (λ v. v.items) d
        ≡ option_map (λ f. f ∷ others.items) first) }
{
    match first {
        Some(digest) => {
            others.insert(0, digest)?;
            Ok(Some(others))
        }
        None => Ok(None),
    }
}

/// The segments that the bytes spell, so many, with nothing after them and no wrong digest: the last bytes of a file that
/// has `total`. Those behind the first segment's own head and digest are handed in: the first segment, mostly by far the
/// largest, keeps their buffer. Beside them their digests, where the version has them.
pub(crate) fn take_segments(
    alloc: Global,
    version: Version,
    total: u64,
    count: u64,
    own: &[u8],
    mut rest: Vec<u8>,
) -> Result<(Vec<Segment>, Option<Vec<[u8; 32]>>), RecFault>
    requires apart { IsCutAt (24 + digest_size version) own.now rest.items }
    requires last { length own.now + length rest.items ≤ total }
    requires some { 0 < count }
    requires few { count ≤ 16 }
    ensures exact { Gives RecFault.Memory (λ x. x.0.items) result
        (tested_segments version total count (own.now ++ rest.items)) }
    ensures digests { IfOk result (λ x. IfSome x.1 (λ d. d.items ≡ digests_of x.0.items)) }
{
    let (head, tested, _, after) = match cut_segment(version, total, own, &rest) {
        Ok(cut) => cut,
        Err(fault) => return Err(fault),
    };
    let before = least_wrong(None, 0, tested.is_wrong);
    let (mut list, others, wrong) = match copied_segments(
        alloc, version, total, before, 1, count, after,
    ) {
        Ok(read) => read,
        Err(fault) => return Err(fault),
    };
    rest.truncate(head.bufsz as usize);
    list.insert(0, head.segment(rest))?;
    let digests = with_first(tested.made, others)?;
    match without_wrong(list, wrong) {
        Ok(list) => Ok((list, digests)),
        Err(fault) => Err(fault),
    }
}

// The three numbers that stand before the bytes of a segment.
fn head_of(segment: &Segment) -> Block<24>
    ensures value { result ≡ written segment_format (head_of_segment segment.now) (zeros 24) }
    ensures length { length result ≡ 24 }
{
    let head = SegmentHead {
        mem: segment.mem,
        memsz: segment.memsz,
        bufsz: segment.bytes.len() as u64,
    };
    head.block()
}

// Puts one segment and its digest behind the bytes.
fn put_segment(out: &mut Vec<u8>, segment: &Segment, digest: &[u8; 32]) -> Result<(), AllocError>
    requires { digest.now ≡ sha256 segment.now.bytes }
    ensures { OnOk result
        (out.new.items ≡ out.old.items ++ segment_text Second segment.now) }
{
    out.extend_from_slice(head_of(segment).bytes())?;
    out.extend_from_slice(digest)?;
    out.extend_from_slice(&segment.bytes)?;
    Ok(())
}

/// Puts the segments behind the bytes.
pub(crate) fn put_segments(out: &mut Vec<u8>, segments: &Segments) -> Result<(), AllocError>
    ensures { OnOk result
        (out.new.items ≡ out.old.items ++ flat_map (segment_text Second) segments.now) }
{
    for i in 0..segments.count() {
        let segment = segments.segment(i);
        put_segment(out, segment, &Sha256::digest(&segment.bytes))?;
    }
    Ok(())
}

/// The first bytes and then the others, in the buffer of the others. These are moved once, and not at all where there
/// are no first bytes.
pub(crate) fn put_in_front(first: &[u8], mut others: Vec<u8>) -> Result<Vec<u8>, AllocError>
    ensures { IfOk result (λ v. v.items ≡ first.now ++ others.items) }
{
    if first.is_empty() {
        return Ok(others);
    }
    others.reserve_exact(first.len())?;
    others.extend_from_slice(first)?;
    others.rotate_right(first.len());
    Ok(others)
}

// The bytes and then the segment with its digest, in the segment's buffer, which gets room for `room` bytes.
fn put_before(
    bytes: &[u8],
    segment: Segment,
    digest: &[u8; 32],
    room: usize,
) -> Result<Vec<u8>, AllocError>
    requires { digest.now ≡ sha256 segment.bytes }
    ensures { IfOk result (λ v. v.items ≡ bytes.now ++ segment_text Second segment) }
{
    let head = head_of(&segment);
    let mut out = segment.bytes;
    out.reserve_exact(room.saturating_sub(out.len()))?;
    out.extend_from_slice(bytes)?;
    out.extend_from_slice(head.bytes())?;
    out.extend_from_slice(digest)?;
    out.rotate_right(bytes.len() + Version::Second.front_size());
    Ok(out)
}

/// The bytes and then the segments with their digests, in the first segment's buffer, which gets room for `room` bytes.
pub(crate) fn give_segments(
    bytes: &[u8],
    mut list: Vec<Segment>,
    digests: &[[u8; 32]],
    room: usize,
) -> Result<Vec<u8>, AllocError>
    requires some { 0 < length list.items }
    requires digests { digests.now ≡ digests_of list.items }
    ensures { IfOk result (λ v. v.items ≡ bytes.now ++ flat_map (segment_text Second) list.items) }
{
    let first = list.remove(0);
    let mut out = put_before(bytes, first, &digests[0], room)?;
    for (i, segment) in list.iter().enumerate() {
        put_segment(&mut out, segment, &digests[i + 1])?;
    }
    Ok(out)
}

/// How many bytes the file of a record has.
pub(crate) fn room_of(of: &LoadRecord) -> usize
    ensures { result ≡ length (record_file of.now) }
{
    let segments = &of.segments;
    let mut room = 96;
    for i in 0..segments.count() {
        room += Version::Second.front_size() + segments.segment(i).bytes.len();
    }
    room
}
