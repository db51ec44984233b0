//! What is known of the memory that a kernel is loaded into.

ghost use Rattle.std.specs.Prelude.{◌≡◌, ◌<◌, ◌-◌, ◌^◌, ◌++◌, IfOk, OnOk};
ghost use Rattle.kx_laws.specs.inner.Results.{Gives};
ghost use Rattle.kx_pages.specs.Spans.{in_spans};
ghost use Rattle.segments.specs.Rules.{refusal};
ghost use Rattle.segments.specs.inner.Rules.{Answers};
ghost use Rattle.kexec_plan.specs.Ground.{ram, rows, most, Reserved};
ghost use Rattle.kexec_plan.specs.Kernels.{headers_part};
ghost use Rattle.kexec_plan.specs.Formats.{open_ground};
ghost use Rattle.kexec_plan.specs.inner.Requests.{lent};
ghost use Rattle.kexec_plan.specs.Rules.{first_refusal, ram_runs, test_segments};

use crate::parts::{Parts, PlanPart};
use crate::table::headers_rule;
use bzimage::BzImage;
use crash_headers::{Note, length};
use kx_pages::{ADDRESS_LIMIT, PAGE_SIZE, PageSet, Span};
use memory_map::{Map, Row};
use plan_faults::PlanFault;
use segments::{Kind, SegFault, Segment, Segments};
use std::alloc::{AllocError, Global};
use std::marker::Model;

/// How much is known.
#[derive(Clone, Copy)]
enum Known<'a> {
    /// Nothing.
    Unknown,
    /// The memory map of a machine.
    Machine { map: &'a Map },
    /// The same, and the area that is reserved for a crash kernel.
    Reserved { map: &'a Map, area: Span },
}

/// What is known of the memory that a kernel is loaded into.
#[derive(Drop)]
pub(crate) struct Ground<'a> {
    known: Known<'a>,
    reserved: PageSet,
}

impl<'a> Model for Ground<'a> {
    ghost use Rattle.std.specs.Prelude.{◌≡◌, ℕ};
    ghost use Rattle.kx_pages.specs.Spans.{in_spans};
    ghost use Rattle.kexec_plan.specs.Ground.{Ground as GroundValue};
    ghost use Rattle.kexec_plan.specs.inner.Ground.{ground_of, reserved_pages};

    ghost Value = { GroundValue };

    ghost view = { λ g. ground_of g.known };

    ghost invariant = { λ g. (q : ℕ)
        → in_spans g.reserved q ≡ reserved_pages (ground_of g.known) q };
}

impl<'a> Ground<'a> {
    /// The memory of a machine, or without a map nothing.
    pub(crate) fn open(alloc: Global, map: Option<&'a Map>) -> Ground<'a>
        ensures { result ≡ open_ground (lent map.entry) }
    {
        let known = match map {
            Some(map) => Known::Machine { map },
            None => Known::Unknown,
        };
        Ground {
            known,
            reserved: PageSet::new(alloc),
        }
    }

    /// The reserved area of a machine.
    pub(crate) fn with_reserved(
        alloc: Global,
        map: &'a Map,
        area: Span,
    ) -> Result<Ground<'a>, AllocError>
        ensures { IfOk result (λ g. g ≡ Reserved map.now area) }
    {
        let mut reserved = PageSet::new(alloc);
        reserved.add(area)?;
        Ok(Ground {
            known: Known::Reserved { map, area },
            reserved,
        })
    }

    /// The pages where parts may lie.
    #[tactic(auto, unfolding(crate::specs::Ground::ram))]
    pub(crate) fn ram(&self) -> &PageSet
        ensures { in_spans result.now ≡ ram self.now }
    {
        match self.known {
            Known::Machine { map } => map.ram(),
            _ => &self.reserved,
        }
    }

    /// The rows of the memory map for the kernel.
    pub(crate) fn rows(&self) -> &'a [Row]
        ensures { result.now ≡ rows self.now }
    {
        match self.known {
            Known::Unknown => &[],
            Known::Machine { map } => map.rows(),
            Known::Reserved { map, .. } => map.crash_rows(),
        }
    }

    /// The greatest address of a purgatory's last byte, for a kernel that may or may not lie above 4 GiB.
    pub(crate) fn most(&self, above4g: bool) -> u64
        ensures value { result ≡ most self.now above4g }
        ensures low { result < 2 ^ 46 - 4096 }
    {
        match self.known {
            Known::Reserved { .. } if above4g => ADDRESS_LIMIT - PAGE_SIZE - 1,
            Known::Reserved { .. } => (1 << 32) - 1,
            _ => (1 << 31) - 1,
        }
    }

    /// Puts the crash headers behind other parts, where they are needed.
    pub(crate) fn push_headers(
        &self,
        parts: &mut Parts<'a>,
        image: &BzImage,
        notes: Vec<Note>,
    ) -> Result<(), AllocError>
        ensures { OnOk result
            (parts.new ≡ parts.old ++ headers_part self.now image.now notes.items) }
    {
        if let Known::Reserved { map, .. } = self.known {
            let rule = headers_rule(image, length(map, notes.len()));
            parts.push(PlanPart::Headers { rule, map, notes })?;
        }
        Ok(())
    }

    /// The segments of this list, or their first refusal.
    #[tactic(auto, unfolding(crate::specs::Rules::first_refusal))]
    fn test(&self, alloc: Global, list: Vec<Segment>) -> Result<Segments, SegFault>
        ensures { Answers list.items (first_refusal self.now list.items) result }
    {
        match self.known {
            Known::Unknown => Segments::bare(alloc, list),
            Known::Machine { map } => test_over(alloc, map, Kind::Normal, list),
            Known::Reserved { map, area } => test_over(alloc, map, Kind::Crash { area }, list),
        }
    }
}

// Tests the segments over the map's RAM.
fn test_over(alloc: Global, map: &Map, kind: Kind, list: Vec<Segment>) -> Result<Segments, SegFault>
    ensures { Answers list.items (refusal (ram_runs map.now) kind list.items) result }
{
    let ram = map.ram();
    // for its clause: what every value of the type keeps
    let _spans = ram.spans();
    Segments::new(alloc, list, ram, kind)
}

/// The segments of the list, or that they are refused.
#[tactic(auto, unfolding(crate::specs::Rules::test_segments))]
pub(crate) fn test_segments(
    alloc: Global,
    ground: &Ground<'_>,
    list: Vec<Segment>,
) -> Result<Segments, PlanFault>
    ensures same { IfOk result (λ s. s ≡ list.items) }
    ensures exact { Gives PlanFault.Memory (λ s. s) result
        (test_segments ground.now list.items) }
{
    match ground.test(alloc, list) {
        Ok(segments) => Ok(segments),
        Err(SegFault::Memory) => Err(PlanFault::Memory),
        Err(fault) => Err(PlanFault::Segments { fault }),
    }
}
