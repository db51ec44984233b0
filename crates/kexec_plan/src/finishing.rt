//! The end of every plan: the purgatory is linked, the segments are tested, and the purgatory gets what it is to find.

ghost use Rattle.std.specs.Prelude.{◌≡◌, ◌<◌, length, Some, IfOk, OnOk};
ghost use Rattle.std.specs.List.{slice_set};
ghost use Rattle.kx_laws.specs.inner.Results.{Gives};
ghost use Rattle.kexec_plan.specs.inner.Requests.{planned_of};
ghost use Rattle.kexec_plan.specs.Parts.{segment_at};
ghost use Rattle.kexec_plan.specs.Rules.{test_segments};
ghost use Rattle.kexec_plan.specs.inner.Purgatory.{IsLinkable, HasSymbols};
ghost use Rattle.kexec_plan.specs.Finish.{plain_plan, armed_plan, finish};
ghost use Rattle.kexec_plan.specs.inner.Finish.{OfSegment, armed_of};

use crate::ground::{Ground, test_segments};
use crate::places::{Site, segment_at, start_at};
use crate::purgatory::{Linkage, Purgatory, arm};
use crate::request::Planned;
use crate::symbols::Symbols;
use kx_pages::Start;
use plan_faults::PlanFault;
use purgatory_link::{digest_of, regions_of};
use segments::{Segment, Segments};
use std::alloc::{AllocError, Global};

// The bytes of the purgatory, segment number `purgatory`, with what it is to find.
fn armed_bytes(
    alloc: Global,
    segments: &Segments,
    purgatory: usize,
    base: u64,
    symbols: Symbols,
    start: Start,
) -> Result<Vec<u8>, AllocError>
    requires inside { purgatory < length segments.now }
    requires symbols { OfSegment segments.now purgatory
        (λ s. HasSymbols base (length s.bytes) symbols) }
    ensures length { IfOk result
        (λ v. OfSegment segments.now purgatory (λ s. length v.items ≡ length s.bytes)) }
    ensures exact { IfOk result
        (λ v. OfSegment segments.now purgatory
        (λ s. v.items ≡ armed_of segments.now purgatory base symbols start s)) }
{
    let table = regions_of(segments, purgatory);
    let digest = digest_of(segments, purgatory);
    let mut bytes = Vec::from_slice(alloc, &segments.segment(purgatory).bytes)?;
    arm(
        &mut bytes,
        base,
        symbols,
        start,
        table.bytes(),
        digest.bytes(),
    );
    Ok(bytes)
}

// The purgatory, segment number `purgatory`, gets what it is to find.
fn arm_segment(
    alloc: Global,
    segments: &mut Segments,
    purgatory: usize,
    base: u64,
    symbols: Symbols,
    start: Start,
) -> Result<(), AllocError>
    requires inside { purgatory < length segments.old }
    requires symbols { OfSegment segments.old purgatory
        (λ s. HasSymbols base (length s.bytes) symbols) }
    ensures { OnOk result
        (OfSegment segments.old purgatory
        (λ s. segments.new ≡ slice_set segments.old purgatory
        (record s { bytes = armed_of segments.old purgatory base symbols start s }))) }
{
    let bytes = armed_bytes(alloc, segments, purgatory, base, symbols, start)?;
    segments.replace(purgatory, &bytes);
    Ok(())
}

// The plan of these segments and of a linked purgatory behind them.
#[tactic(auto, unfolding(crate::specs::Finish::armed_plan))]
fn armed_plan(
    alloc: Global,
    ground: &Ground<'_>,
    mut list: Vec<Segment>,
    start: Start,
    linkage: Linkage,
    site: Site,
) -> Result<Planned, PlanFault>
    requires { HasSymbols linkage.base (length linkage.bytes) linkage.symbols }
    ensures { Gives PlanFault.Memory planned_of result
        (armed_plan ground.now list.items start linkage site) }
{
    let Linkage {
        base,
        bytes,
        symbols,
    } = linkage;
    let purgatory = list.len();
    list.push(segment_at(site, bytes))?;
    let mut segments = test_segments(alloc, ground, list)?;
    arm_segment(alloc, &mut segments, purgatory, base, symbols, start)?;
    Ok(Planned {
        segments,
        start: start_at(symbols.start),
        regions: symbols.regions,
        digest: symbols.digest,
    })
}

/// The plan of these segments, and of the purgatory at its place behind them.
#[tactic(auto, unfolding(crate::specs::Finish::finish, crate::specs::Finish::plain_plan))]
pub(crate) fn finish(
    alloc: Global,
    ground: &Ground<'_>,
    list: Vec<Segment>,
    start: Start,
    purgatory: &Option<Purgatory>,
    site: Option<Site>,
) -> Result<Planned, PlanFault>
    requires { IsLinkable purgatory.now site }
    ensures { Gives PlanFault.Memory planned_of result
        (finish ground.now list.items start purgatory.now site) }
{
    match (purgatory, site) {
        (Some(purgatory), Some(site)) => {
            let linkage = purgatory.link_at(alloc, site)?;
            armed_plan(alloc, ground, list, start, linkage, site)
        }
        _ => Ok(Planned {
            segments: test_segments(alloc, ground, list)?,
            start,
            regions: 0,
            digest: 0,
        }),
    }
}
