//! A request is planned, and its segments are loaded.

ghost use Rattle.std.specs.Prelude.{◌≡◌, ◌≤◌, ℕ, length, false, Ok};
ghost use Rattle.page_memory.specs.Contents.{at};
ghost use Rattle.page_pool.specs.Pages.{is_filed, usable_of};
ghost use Rattle.segments.specs.Values.{need};
ghost use Rattle.load_states.specs.Fillings.{IsSealed};
ghost use Rattle.file_commands.specs.inner.Calls.{MakesOr};
ghost use Rattle.kexec_plan.specs.Plan.{plan};
ghost use Rattle.kexec_plan.specs.inner.Requests.{IsMapped, planned_of, request_of};
ghost use Rattle.load_commands.specs.inner.Views.{IsLoadedKernel, inputs_of};
ghost use Rattle.load_commands.specs.Startup.{planned_startup};
ghost use Rattle.load_commands.specs.Loading.{HasNoPlan, IsTooFew, RefusesLoad};

use crate::load_inputs::LoadInputs;
use command_parts::{MakeResult, Reason, Startup, purgatory_places};
use file_commands::MakeFault;
use kexec_plan::{PlanFault, Planned, Request, plan};
use kimage_list::BeginFault;
use kx_pages::Wish;
use load_states::{Filling, Loaded};
use memory_map::Map;
use page_memory::Memory;
use page_pool::Pool;
use segments::Segments;
use std::alloc::Global;

/// The plan of a request. The memory map is used no more after it.
pub(crate) fn plan_request(alloc: Global, request: Request, map: Option<Map>) -> MakeResult<Planned>
    requires { IsMapped (request_of request) map }
    ensures { MakesOr (λ p. plan (request_of request) map ≡ Ok (planned_of p))
        (HasNoPlan (request_of request) map) result }
{
    match plan(alloc, request, map.as_ref()) {
        Ok(planned) => Ok(planned),
        Err(fault) => Err(match fault {
            PlanFault::Memory => MakeFault::Memory,
            _ => MakeFault::refused(Reason::Plan { fault }),
        }),
    }
}

/// How the kernel of a plan starts.
pub(crate) fn planned_startup(planned: &Planned) -> Startup
    ensures { result ≡ planned_startup (planned_of planned.now) }
{
    Startup {
        start: planned.start,
        purgatory: purgatory_places(planned.regions, planned.digest),
    }
}

// Loads the segments: lays their list and their bytes in pages of the pool.
fn load_segments(
    alloc: Global,
    memory: Memory,
    pool: Pool,
    segments: Segments,
    wish: Wish,
) -> MakeResult<Loaded>
    requires { (q : ℕ) → is_filed pool q ≡ false }
    ensures { MakesOr
        (λ load. (need wish segments ≤ length (usable_of pool))
        × IsSealed (at memory) (usable_of pool) wish segments load)
        (IsTooFew (usable_of pool) wish segments) result }
{
    match Filling::begin(alloc, memory, pool, segments, wish) {
        Ok(filling) => Ok(filling.finish()),
        Err(refused) => Err(match refused.why {
            BeginFault::NoPages { pool, need } => MakeFault::Refused {
                why: Reason::NoPages { pool, need },
            },
            BeginFault::Memory => MakeFault::Memory,
        }),
    }
}

/// A load of a new kernel, and how the kernel starts.
#[derive(Drop)]
pub(crate) struct LoadedKernel {
    pub(crate) loaded: Loaded,
    pub(crate) startup: Startup,
}

/// Plans the request and loads the segments of the plan.
pub(crate) fn load_request(
    alloc: Global,
    inputs: LoadInputs,
    wish: Wish,
) -> MakeResult<LoadedKernel>
    ensures { MakesOr (IsLoadedKernel wish (inputs_of inputs))
        (RefusesLoad wish (inputs_of inputs)) result }
{
    let planned = plan_request(alloc, inputs.request, inputs.map)?;
    let startup = planned_startup(&planned);
    let loaded = load_segments(alloc, inputs.memory, inputs.pool, planned.segments, wish)?;
    Ok(LoadedKernel { loaded, startup })
}
