//! The request of a crash kernel is planned, and its segments are put in their place.

ghost use Rattle.std.specs.Prelude.{Some};
ghost use Rattle.file_commands.specs.inner.Calls.{MakesOr};
ghost use Rattle.load_commands.specs.inner.Views.{IsCrashKernel, crash_inputs_of};
ghost use Rattle.load_commands.specs.Loading.{HasNoPlan};

use crate::load_inputs::CrashInputs;
use crate::loading::{plan_request, planned_startup};
use command_parts::{MakeResult, Startup};
use file_commands::MakeFault;
use load_states::{CrashLoaded, load_crash};
use std::alloc::Global;

/// A crash kernel in its place, and how it starts.
#[derive(Drop)]
pub(crate) struct CrashKernel {
    pub(crate) loaded: CrashLoaded,
    pub(crate) startup: Startup,
}

/// Plans the request and puts the segments of the plan in their place.
pub(crate) fn load_in_place(alloc: Global, inputs: CrashInputs) -> MakeResult<CrashKernel>
    ensures { MakesOr (IsCrashKernel (crash_inputs_of inputs))
        (HasNoPlan (crash_inputs_of inputs).request (Some inputs.map)) result }
{
    let planned = plan_request(alloc, inputs.request, Some(inputs.map))?;
    let startup = planned_startup(&planned);
    match load_crash(alloc, inputs.memory, planned.segments) {
        Ok(loaded) => Ok(CrashKernel { loaded, startup }),
        Err(_) => Err(MakeFault::Memory),
    }
}
