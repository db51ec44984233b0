//! A load record, and how it is read and written.

ghost use Rattle.std.specs.Prelude.{◌≡◌, ◌<◌, ◌≤◌, ◌++◌, length, None, Ok, IfOk, IfSome};
ghost use Rattle.kx_fields.specs.Fields.{AreBytes};
ghost use Rattle.kx_laws.specs.inner.Results.{Gives};
ghost use Rattle.segments.specs.Rules.{bare_refusal};
ghost use Rattle.load_record.specs.Head.{head_fault, version_of};
ghost use Rattle.load_record.specs.File.{record_reading, record_file, record_text, record_by};
ghost use Rattle.load_record.specs.inner.File.{IsWritable, digests_of};
ghost use Rattle.kx_laws.specs.inner.Cuts.{IsCutAt};

use crate::body::{put_in_front, put_segments, read_segments, room_of, take_segments};
use crate::digested::DigestedRecord;
use crate::fault::RecFault;
use crate::head::Head;
use crate::version::Version;
use kx_pages::{Image, Start};
use segments::{Segment, Segments};
use std::alloc::{AllocError, Global};

/// How many bytes of a record's file of version 2 stand before those of its first segment: the head's 96, the 24 of the
/// segment's own head, and the 32 of its digest. A file of version 1 has no digest, so that its segment's bytes begin 32
/// bytes earlier. Both are cut here, since the version is not known before a file is read.
pub const FIRST_BYTES: usize = 152;

/// A load record. This project's own.
#[derive(Drop)]
pub struct LoadRecord {
    /// A crash kernel, which starts when this one crashes (`KEXEC_ON_CRASH` of kexec_load(2)). Its list is empty.
    pub crash: bool,
    /// The head word, the mode and the control page, which is page 0 for a crash kernel.
    pub image: Image,
    /// The entry address and the registers at the start.
    pub start: Start,
    /// The address of the purgatory's region table, 0 without a purgatory.
    pub regions: u64,
    /// The address of the purgatory's digest, 0 without a purgatory.
    pub digest: u64,
    /// The segments of the new kernel.
    pub segments: Segments,
}

impl LoadRecord {
    /// The record that a file of either version spells, or the first fault of the bytes.
    pub fn read(alloc: Global, bytes: &[u8]) -> Result<LoadRecord, RecFault>
        // What it is, or the first fault.
        ensures exact { Gives RecFault.Memory (λ r. r) result (record_reading bytes.now) }
        // The bytes are how their version spells what was read.
        ensures found { IfOk result (λ r. record_text (version_of bytes.now) r ≡ bytes.now) }
        ensures writable { IfOk result IsWritable }
    {
        let head = match Head::tested(bytes) {
            Ok(head) => head,
            Err(fault) => return Err(fault),
        };
        let list = match read_segments(alloc, Version::of(bytes), head.segments, bytes) {
            Ok(list) => list,
            Err(fault) => return Err(fault),
        };
        record_with(alloc, head, list)
    }

    /// As `read`, of a file that is handed in, its first `FIRST_BYTES` bytes apart from the others: the buffer of the
    /// others becomes that of the first segment's bytes. Of a file of version 2 these are neither copied nor moved. Of
    /// one of version 1 they are moved once inside that buffer, which grows by the 32 bytes of them that stand among the
    /// first ones. A file that is shorter has no others.
    pub fn from_file(alloc: Global, front: &[u8], rest: Vec<u8>) -> Result<LoadRecord, RecFault>
        requires apart { IsCutAt 152 front.now rest.items }
        ensures exact { Gives RecFault.Memory (λ r. r) result
            (record_reading (front.now ++ rest.items)) }
        ensures found { IfOk result
            (λ r. record_text (version_of (front.now ++ rest.items)) r ≡ front.now ++ rest.items) }
        ensures writable { IfOk result IsWritable }
    {
        match record_in_two(alloc, front, rest) {
            Ok((record, _)) => Ok(record),
            Err(fault) => Err(fault),
        }
    }

    /// The file of the record, of version 2. A crash record is plain, and its control page is page 0, as in each record
    /// that was read.
    pub fn write(&self, alloc: Global) -> Result<Vec<u8>, AllocError>
        requires { IsWritable self.now }
        ensures file { IfOk result (λ v. v.items ≡ record_file self.now) }
        // The file is read as this record.
        ensures read_back { IfOk result (λ v. record_reading v.items ≡ Ok self.now) }
    {
        let mut out = Vec::new(alloc);
        out.reserve_exact(room_of(self))?;
        out.extend_from_slice(Head::of(self).block().bytes())?;
        put_segments(&mut out, &self.segments)?;
        Ok(out)
    }
}

impl LoadRecord {
    /// As `write`, of a record that is given up: its file is made in the buffer of the first segment's bytes, so that
    /// these never lie in memory twice.
    pub fn into_file(self, alloc: Global) -> Result<Vec<u8>, AllocError>
        requires { IsWritable self }
        ensures file { IfOk result (λ v. v.items ≡ record_file self) }
        ensures read_back { IfOk result (λ v. record_reading v.items ≡ Ok self) }
    {
        let digested = DigestedRecord::of(alloc, self)?;
        digested.into_file()
    }
}

/// The record that a file in two parts spells, as `LoadRecord::from_file` says, and the digests of its segments where the
/// file has them.
pub(crate) fn record_in_two(
    alloc: Global,
    front: &[u8],
    rest: Vec<u8>,
) -> Result<(LoadRecord, Option<Vec<[u8; 32]>>), RecFault>
    requires apart { IsCutAt 152 front.now rest.items }
    ensures exact { Gives RecFault.Memory (λ x. x.0) result
        (record_reading (front.now ++ rest.items)) }
    ensures found { IfOk result
        (λ x. record_text (version_of (front.now ++ rest.items)) x.0 ≡ front.now ++ rest.items) }
    ensures writable { IfOk result (λ x. IsWritable x.0) }
    ensures digests { IfOk result (λ x. IfSome x.1 (λ d. d.items ≡ digests_of x.0.segments)) }
{
    let head = match Head::tested(front) {
        Ok(head) => head,
        Err(fault) => return Err(fault),
    };
    let version = Version::of(front);
    let total = total_of(front, &rest);
    let (_, body) = front.split_at(96);
    let (own, first) = body.split_at(body.len().min(version.front_size()));
    let behind = put_in_front(first, rest)?;
    let (list, digests) = match take_segments(alloc, version, total, head.segments, own, behind) {
        Ok(taken) => taken,
        Err(fault) => return Err(fault),
    };
    match record_with(alloc, head, list) {
        Ok(record) => Ok((record, digests)),
        Err(fault) => Err(fault),
    }
}

// How many bytes a file has that is handed in in two parts.
fn total_of(front: &[u8], rest: &[u8]) -> u64
    requires { length front.now ≤ 152 }
    ensures value { result ≡ length (front.now ++ rest.now) }
    // As their type says. A caller that has handed them on knows it no more.
    ensures bytes { AreBytes (front.now ++ rest.now) }
{
    (front.len() + rest.len()) as u64
}

// The record of a tested head and these segments, which are tested by the rules.
fn record_with(alloc: Global, head: Head, list: Vec<Segment>) -> Result<LoadRecord, RecFault>
    requires { head_fault head ≡ None }
    ensures exact { Gives RecFault.Memory (λ r. r) result
        (record_by head list.items (bare_refusal list.items)) }
    ensures segments { IfOk result (λ r. r.segments ≡ list.items) }
{
    match Segments::bare(alloc, list) {
        Ok(segments) => Ok(head.record(segments)),
        Err(fault) => Err(RecFault::from(fault)),
    }
}
