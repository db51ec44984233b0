//! A load record with the digests of its segments.

ghost use Rattle.std.specs.Prelude.{◌≡◌, ◌<◌, ◌++◌, length, Some, Ok, IfOk, IfSome};
ghost use Rattle.kx_laws.specs.inner.Cuts.{IsCutAt};
ghost use Rattle.kx_laws.specs.inner.Results.{Gives};
ghost use Rattle.load_record.specs.Head.{version_of};
ghost use Rattle.load_record.specs.File.{record_file, record_reading, record_text};
ghost use Rattle.load_record.specs.inner.File.{IsWritable, digest_at, digests_of};

use crate::body::{give_segments, room_of};
use crate::fault::RecFault;
use crate::head::Head;
use crate::load::{LoadRecord, record_in_two};
use segments::Segments;
use sha2::{Digest, Sha256};
use std::alloc::{AllocError, Global};
use std::marker::Model;

/// A load record with the SHA-256 (FIPS 180-4) of the bytes of each of its segments, for callers that need the digests:
/// each is made once, when the record is read. Contracts see it as the record. This project's own.
#[derive(Drop)]
pub struct DigestedRecord {
    load_record: LoadRecord,
    digests: Vec<[u8; 32]>,
}

impl Model for DigestedRecord {
    ghost use Rattle.std.specs.Prelude.{◌≡◌};
    ghost use Rattle.load_record.specs.File.{Record};
    ghost use Rattle.load_record.specs.inner.File.{digests_of};

    ghost Value = { Record };

    ghost view = { λ d. d.load_record };

    ghost invariant = { λ d. d.digests.items ≡ digests_of d.load_record.segments };
}

// The digest of the bytes of each segment.
fn digests_of(alloc: Global, segments: &Segments) -> Result<Vec<[u8; 32]>, AllocError>
    ensures { IfOk result (λ v. v.items ≡ digests_of segments.now) }
{
    let mut digests = Vec::new(alloc);
    digests.reserve_exact(segments.count())?;
    for i in 0..segments.count() {
        let segment = segments.segment(i);
        digests.push(Sha256::digest(&segment.bytes))?;
    }
    Ok(digests)
}

// The record with these digests, or with those that are made of its bytes.
fn with_digests(
    alloc: Global,
    load_record: LoadRecord,
    digests: Option<Vec<[u8; 32]>>,
) -> Result<DigestedRecord, AllocError>
    requires { IfSome digests (λ d. d.items ≡ digests_of load_record.segments) }
    ensures { IfOk result (λ d. d ≡ load_record) }
{
    match digests {
        Some(digests) => Ok(DigestedRecord {
            load_record,
            digests,
        }),
        None => DigestedRecord::of(alloc, load_record),
    }
}

impl DigestedRecord {
    /// The record with its digests, which are made of its bytes.
    pub(crate) fn of(alloc: Global, load_record: LoadRecord) -> Result<DigestedRecord, AllocError>
        ensures { IfOk result (λ d. d ≡ load_record) }
    {
        let digests = digests_of(alloc, &load_record.segments)?;
        Ok(DigestedRecord {
            load_record,
            digests,
        })
    }

    /// As `LoadRecord::from_file`. The digests are those that a file of version 2 is tested by; of a file of version 1 they
    /// are made.
    pub fn from_file(alloc: Global, front: &[u8], rest: Vec<u8>) -> Result<DigestedRecord, RecFault>
        requires apart { IsCutAt 152 front.now rest.items }
        ensures exact { Gives RecFault.Memory (λ r. r) result
            (record_reading (front.now ++ rest.items)) }
        ensures found { IfOk result
            (λ r. record_text (version_of (front.now ++ rest.items)) r ≡ front.now ++ rest.items) }
        ensures writable { IfOk result IsWritable }
    {
        match record_in_two(alloc, front, rest) {
            Ok((load_record, digests)) => Ok(with_digests(alloc, load_record, digests)?),
            Err(fault) => Err(fault),
        }
    }

    /// The record.
    pub fn record(&self) -> &LoadRecord
        ensures { result.now ≡ self.now }
    {
        &self.load_record
    }

    /// The digest of the bytes of segment number `i`, from 0.
    pub fn digest(&self, i: usize) -> &[u8; 32]
        requires { i < length self.now.segments }
        ensures { digest_at self.now.segments i ≡ Some result.now }
    {
        &self.digests[i]
    }

    /// As `LoadRecord::into_file`; no digest is made.
    pub fn into_file(self) -> Result<Vec<u8>, AllocError>
        requires { IsWritable self }
        ensures file { IfOk result (λ v. v.items ≡ record_file self) }
        ensures read_back { IfOk result (λ v. record_reading v.items ≡ Ok self) }
    {
        let DigestedRecord {
            load_record,
            digests,
        } = self;
        let room = room_of(&load_record);
        let head = Head::of(&load_record).block();
        let list = load_record.segments.into_list();
        let file = give_segments(head.bytes(), list, &digests, room)?;
        Ok(file)
    }
}
