//! The answer of each status, and its exit status.

ghost use Rattle.std.specs.Prelude.{◌≡◌, codes, string_bytes};
ghost use Rattle.plan_faults.specs.declared.fault.PlanFault.TheVariants as plans;
ghost use Rattle.command_table.specs.declared.faults.UsageWhy.TheVariants as words;
ghost use Rattle.list_checker.specs.declared.fault.Why.TheVariants as whys;
ghost use Rattle.page_memory.specs.declared.fault.MemFault.TheVariants as mem_faults;
ghost use Rattle.page_pool.specs.declared.fault.PoolFault.TheVariants as pool_faults;
ghost use Rattle.image_slots.specs.declared.fault.SlotsFault.TheVariants as slots;
ghost use Rattle.resident_planner.specs.declared.fault.ResidentFault.TheVariants as residents;
ghost use Rattle.vmcore_file.specs.declared.fault.CoreFault.TheVariants as cores;
ghost use Rattle.file_commands.specs.Answers.{done, memory, not_accepted, refused, unread, unsaid, unwritten};
ghost use Rattle.file_commands.specs.Taking.{by, too_long};
ghost use Rattle.command_parts.specs.ExitStatuses.{code_of};
ghost use Rattle.command_parts.specs.Statuses.{answer_of};
ghost use Rattle.command_parts.specs.declared.reason.InputFault.TheVariants as inputs;
ghost use Rattle.command_parts.specs.declared.reason.Reason.TheVariants as reasons;
ghost use Rattle.command_parts.specs.declared.status.Status.TheVariants as status;

use command_table::Role;

/// How a command ended, and with which exit status.
pub fn commands_that_ended()
    ensures done { answer_of status.Done ≡ done }
    ensures done_code { code_of status.Done ≡ 0 }
    ensures not_accepted { answer_of (status.NotAccepted (record { word = 3; why = whys.RunsOff }))
        ≡ not_accepted (record { word = 3; why = whys.RunsOff }) }
    ensures not_accepted_code { code_of
        (status.NotAccepted (record { word = 3; why = whys.RunsOff })) ≡ 1 }
    ensures unsaid { answer_of status.Unsaid ≡ unsaid }
    ensures unsaid_code { code_of status.Unsaid ≡ 5 }
    ensures memory { answer_of status.Memory ≡ memory }
    ensures memory_code { code_of status.Memory ≡ 12 }
{}

/// A status that names a file, whatever its role: it could not be read, or written, or is too long.
pub fn statuses_with_a_name(role: Role, name: &String)
    ensures unread { string_bytes name.now ≡ codes "m"
        → answer_of (status.Unread role name.now) ≡ unread (codes "m") }
    ensures unread_code { code_of (status.Unread role name.now) ≡ 3 }
    ensures unwritten { string_bytes name.now ≡ codes "o"
        → answer_of (status.Unwritten role name.now) ≡ unwritten (codes "o") }
    ensures unwritten_code { code_of (status.Unwritten role name.now) ≡ 4 }
    ensures too_long { string_bytes name.now ≡ codes "k"
        → answer_of (status.TooLong role name.now 77) ≡ refused (too_long (codes "k") 77) }
    ensures too_long_code { code_of (status.TooLong role name.now 77) ≡ 6 }
{}

/// The refusals of commands.
pub fn refusals_of_commands()
    ensures words { answer_of (status.Usage words.TooManyModules)
        ≡ refused (by (reasons.Usage words.TooManyModules)) }
    ensures words_code { code_of (status.Usage words.TooManyModules) ≡ 2 }
    ensures input { answer_of (status.Input (inputs.Mem (mem_faults.ZeroPage 16)))
        ≡ refused (by (reasons.Input (inputs.Mem (mem_faults.ZeroPage 16)))) }
    ensures input_code { code_of (status.Input (inputs.Pool (pool_faults.BadLine 2))) ≡ 7 }
    ensures plan { answer_of (status.Plan plans.UnknownImage)
        ≡ refused (by (reasons.Plan plans.UnknownImage)) }
    ensures plan_code { code_of (status.Plan plans.UnknownImage) ≡ 8 }
    ensures pages { answer_of (status.NoPages 2 3) ≡ refused (by (reasons.NoPages 2 3)) }
    ensures pages_code { code_of (status.NoPages 2 3) ≡ 9 }
    ensures heavy { answer_of (status.Heavy 131073) ≡ refused (by (reasons.Heavy 131073)) }
    ensures heavy_code { code_of (status.Heavy 131073) ≡ 10 }
    ensures not_kept { answer_of status.NotKept ≡ refused (by reasons.NotKept) }
    ensures not_kept_code { code_of status.NotKept ≡ 11 }
    ensures resident { answer_of (status.Resident (residents.Stale 3))
        ≡ refused (by (reasons.Resident (residents.Stale 3))) }
    ensures resident_code { code_of (status.Resident (residents.Stale 3)) ≡ 13 }
    ensures slots { answer_of (status.Slots (slots.PoolMeets 9))
        ≡ refused (by (reasons.Slots (slots.PoolMeets 9))) }
    ensures slots_code { code_of (status.Slots (slots.PoolMeets 9)) ≡ 14 }
    ensures core { answer_of (status.Core (cores.PastLimit 0x3fff_ffff_fff8))
        ≡ refused (by (reasons.Core (cores.PastLimit 0x3fff_ffff_fff8))) }
    ensures core_code { code_of (status.Core cores.NotHeaders) ≡ 15 }
{}
