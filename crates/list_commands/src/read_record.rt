//! A load record that was read, which can be written again.

ghost use Rattle.load_record.specs.inner.File.{IsWritable};

use load_record::DigestedRecord;

/// A load record as it was read, with the digests of its segments.
#[derive(Drop)]
pub(crate) struct ReadRecord {
    pub(crate) load_record: DigestedRecord,
    /// A record that was read has a file.
    pub(crate) ghost writable: { IsWritable load_record },
}
