//! How a new kernel starts: one value from a plan or a load record to what is said of the run.

ghost use Rattle.std.specs.Prelude.{◌≡◌};
ghost use Rattle.command_parts.specs.Startup.{purgatory_places, recorded_startup};
ghost use Rattle.command_parts.specs.inner.Startups.{place_addresses, record_with};

use kx_pages::{Image, Start};
use load_record::LoadRecord;
use segments::Segments;

/// Where a purgatory's region table and digest lie.
#[derive(Clone, Copy)]
pub struct PurgatoryPlaces {
    /// The address of the region table.
    pub regions: u64,
    /// The address of the digest.
    pub digest: u64,
}

/// How a new kernel starts, and what its purgatory tests there.
#[derive(Clone, Copy)]
pub struct Startup {
    pub start: Start,
    /// Without a purgatory there are none.
    pub purgatory: Option<PurgatoryPlaces>,
}

/// The places at these addresses, of which a plan and a record have 0 and 0 without a purgatory.
pub fn purgatory_places(regions: u64, digest: u64) -> Option<PurgatoryPlaces>
    ensures { result ≡ purgatory_places regions digest }
{
    if regions == 0 && digest == 0 {
        return None;
    }
    Some(PurgatoryPlaces { regions, digest })
}

// The addresses of the places.
fn place_addresses(purgatory: Option<PurgatoryPlaces>) -> (u64, u64)
    ensures { result ≡ place_addresses purgatory }
{
    match purgatory {
        Some(places) => (places.regions, places.digest),
        None => (0, 0),
    }
}

impl Startup {
    /// As the record says.
    pub fn of_record(load_record: &LoadRecord) -> Startup
        ensures { result ≡ recorded_startup load_record.now }
    {
        Startup {
            start: load_record.start,
            purgatory: purgatory_places(load_record.regions, load_record.digest),
        }
    }

    /// The record that says it, of a load with this list and these segments.
    pub fn into_record(self, crash: bool, image: Image, segments: Segments) -> LoadRecord
        ensures { result ≡ record_with self crash image segments }
    {
        let (regions, digest) = place_addresses(self.purgatory);
        LoadRecord {
            crash,
            image,
            start: self.start,
            regions,
            digest,
            segments,
        }
    }
}
