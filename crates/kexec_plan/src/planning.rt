//! The plan of a request.

ghost use Rattle.std.specs.Prelude.{◌≡◌, ◌⊎◌, [], option_map, Err, IfOk, IfErr};
ghost use Rattle.kx_laws.specs.inner.Results.{Gives};
ghost use Rattle.kexec_plan.specs.inner.Requests.{request_of, planned_of, lent, IsMapped};
ghost use Rattle.kexec_plan.specs.Formats.{ground_for};
ghost use Rattle.kexec_plan.specs.inner.Laying.{laid_of};
ghost use Rattle.kexec_plan.specs.Plan.{begin, plan_as, plan};
ghost use Rattle.kexec_plan.specs.inner.Plan.{plan_read};

use crate::finishing::finish;
use crate::format::{Format, format_of, unused_part};
use crate::ground::Ground;
use crate::kernels::{Kernel, read_kernel};
use crate::laying::Laying;
use crate::places::{place_some, start_at, taken_by};
use crate::purgatory::{Purgatory, some_purgatory, some_purgatory_rule};
use crate::request::{Planned, Request};
use memory_map::Map;
use plan_faults::PlanFault;
use segments::Segment;
use std::alloc::{AllocError, Global};

// What is known of the memory that the kernel is loaded into.
fn ground_for<'a>(
    alloc: Global,
    request: &Request,
    map: Option<&'a Map>,
    format: Format,
) -> Result<Ground<'a>, PlanFault>
    ensures { Gives PlanFault.Memory (λ g. g) result
        (ground_for (request_of request.now) (lent map.entry) format) }
{
    if !request.crash {
        return Ok(Ground::open(alloc, map));
    }
    if !matches!(format, Format::Bzimage) {
        return Err(PlanFault::CrashNeedsBzimage);
    }
    let Some(map) = map else {
        return Err(PlanFault::NoReserved);
    };
    let area = map.reserved_area().ok_or(PlanFault::NoReserved)?;
    Ok(Ground::with_reserved(alloc, map, area)?)
}

// The form of the kernel and the memory that it is loaded into, where nothing is given that it has no use for: what the
// plan is then made of.
#[tactic(auto, unfolding(crate::specs::Plan::plan))]
fn form_and_ground<'a>(
    alloc: Global,
    request: &Request,
    map: Option<&'a Map>,
) -> Result<(Format, Ground<'a>), PlanFault>
    ensures form { IfOk result
        (λ f. plan (request_of request.now) (lent map.entry)
        ≡ plan_as (request_of request.now) f.1 f.0) }
    ensures refused { IfErr result
        (λ e. (plan (request_of request.now) (lent map.entry) ≡ Err e) ⊎ (e ≡ PlanFault.Memory)) }
{
    let format = format_of(request)?;
    let ground = ground_for(alloc, request, map, format)?;
    match unused_part(request, format) {
        Some(part) => Err(PlanFault::Unused { part }),
        None => Ok((format, ground)),
    }
}

// Before any part is placed: the segments that have their place.
fn begin(
    alloc: Global,
    list: Vec<Segment>,
    entry: u64,
    command: Option<Vec<u8>>,
) -> Result<Laying, AllocError>
    ensures exact { IfOk result
        (λ l. laid_of l ≡ begin list.items entry (option_map (λ v. v.items) command)) }
    ensures slots { IfOk result (λ l. l.slots.items ≡ []) }
{
    Ok(Laying {
        taken: taken_by(alloc, &list)?,
        list,
        fault: None,
        command: command.unwrap_or(Vec::new(alloc)),
        initrd: None,
        slots: Vec::new(alloc),
        start: start_at(entry),
    })
}

// The plan of a kernel and a purgatory that were read.
#[tactic(auto, unfolding(crate::specs::inner::Plan::plan_read))]
fn plan_read(
    alloc: Global,
    ground: &Ground<'_>,
    kernel: Kernel<'_>,
    command: Option<Vec<u8>>,
    purgatory: &Option<Purgatory>,
) -> Result<Planned, PlanFault>
    ensures { Gives PlanFault.Memory planned_of result
        (plan_read ground.now kernel.entry (option_map (λ v. v.items) command) purgatory.now) }
{
    let Kernel {
        list,
        entry,
        parts,
        above4g,
    } = kernel;
    let mut laying = begin(alloc, list, entry, command)?;
    laying.place_parts(alloc, ground.ram(), parts)?;
    let rule = some_purgatory_rule(purgatory, ground.most(above4g));
    let site = place_some(ground.ram(), &laying.taken, rule)?;
    if let Some(fault) = laying.fault {
        return Err(fault);
    }
    finish(alloc, ground, laying.list, laying.start, purgatory, site)
}

// The plan of a kernel of this form.
#[tactic(auto, unfolding(crate::specs::Plan::plan_as, crate::specs::inner::Plan::plan_read))]
fn plan_as(
    alloc: Global,
    request: Request,
    ground: &Ground<'_>,
    format: Format,
) -> Result<Planned, PlanFault>
    ensures { Gives PlanFault.Memory planned_of result
        (plan_as (request_of request) ground.now format) }
{
    let Request {
        kernel: file,
        initrd,
        command,
        modules,
        purgatory,
        notes,
        ..
    } = request;
    let kernel = read_kernel(alloc, ground, format, file, initrd, modules, notes)?;
    let purgatory = some_purgatory(alloc, purgatory)?;
    plan_read(alloc, ground, kernel, command, &purgatory)
}

/// The plan of a request over a memory map, or the first refusal.
///
/// The map may be left out for a raw kernel without a purgatory that is no crash kernel: then nothing is known of memory,
/// and the rules that speak of it are not tested.
pub fn plan(alloc: Global, request: Request, map: Option<&Map>) -> Result<Planned, PlanFault>
    requires mapped { IsMapped (request_of request) (lent map) }
    ensures exact { Gives PlanFault.Memory planned_of result
        (plan (request_of request) (lent map.entry)) }
{
    let (format, ground) = form_and_ground(alloc, &request, map)?;
    plan_as(alloc, request, &ground, format)
}
