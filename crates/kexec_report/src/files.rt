//! Which file a refusal speaks of.

use boot_params::ParamsFault;
use command_parts::{InputFault, Status};
use command_table::Role;
use crash_headers::CrashFault;
use kexec_usage::Given;
use plan_faults::PlanFault;
use resident_planner::ResidentFault;

// The file that its reader refused.
fn input_role(fault: &InputFault) -> Role {
    match fault {
        InputFault::Mem { .. } => Role::Memory,
        InputFault::Pool { .. } => Role::Pool,
        InputFault::Map { .. } => Role::Map,
        InputFault::Rec { .. } => Role::Record,
        InputFault::Notes { .. } => Role::Notes,
        InputFault::Pairs { .. } => Role::Pairs,
        InputFault::Events { .. } => Role::Events,
    }
}

// The file that has no plan.
fn plan_role(fault: &PlanFault) -> Option<Role> {
    match fault {
        PlanFault::UnknownImage
        | PlanFault::CrashNeedsBzimage
        | PlanFault::Elf { .. }
        | PlanFault::Bzimage { .. }
        | PlanFault::Multiboot { .. } => Some(Role::Kernel),
        PlanFault::Object { .. } | PlanFault::Link { .. } => Some(Role::Purgatory),
        PlanFault::NoReserved
        | PlanFault::Params {
            fault: ParamsFault::TooManyRanges { .. },
        } => Some(Role::Map),
        PlanFault::Crash {
            fault: CrashFault::NotesOutside { .. },
        } => Some(Role::Notes),
        _ => None,
    }
}

// The file for which no list is made.
fn resident_role(fault: &ResidentFault) -> Role {
    match fault {
        ResidentFault::NoPages { .. } => Role::Pool,
        _ => Role::Pairs,
    }
}

// The file that was refused for what it holds, where it is one file's fault and the status tells which.
fn role_of(status: &Status) -> Option<Role> {
    match status {
        Status::Input { fault } => Some(input_role(fault)),
        Status::Plan { fault } => plan_role(fault),
        Status::NoPages { .. } | Status::Slots { .. } => Some(Role::Pool),
        Status::NotKept => Some(Role::Record),
        Status::Resident { fault } => Some(resident_role(fault)),
        Status::Core { .. } => Some(Role::Memory),
        _ => None,
    }
}

// The first file of this role.
fn file_for<'a>(given: &[Given<'a>], role: Role) -> Option<Given<'a>> {
    given
        .iter()
        .copied()
        .find(|one| one.argument.role == Some(role))
}

// The first file of this role that has this name: of the modules there may be several.
fn file_named<'a>(given: &[Given<'a>], role: Role, name: &str) -> Option<Given<'a>> {
    given
        .iter()
        .copied()
        .find(|one| one.argument.role == Some(role) && one.text == name)
}

/// The file that was refused, with its word or option, where it is one file's fault.
pub(crate) fn file_of<'a>(status: &Status, given: &[Given<'a>]) -> Option<Given<'a>> {
    match status {
        Status::Unread { role, name }
        | Status::Unwritten { role, name }
        | Status::TooLong { role, name, .. } => file_named(given, *role, name),
        status => file_for(given, role_of(status)?),
    }
}
