//! What `load-panic` makes of a crash kernel whose plan is `abc` at page 2, over a memory in which pages 11 and 12 have
//! something.

ghost use Rattle.std.specs.Prelude.{◌≡◌, ◌∷◌, [], Some, None, Ok, Err, codes};
ghost use Rattle.kexec_plan.specs.Plan.{plan};
ghost use Rattle.plan_faults.specs.declared.fault.PlanFault.TheVariants as plans;
ghost use Rattle.file_commands.specs.Taking.{by, too_long};
ghost use Rattle.load_commands.specs.CrashInputs.{CrashInputs};
ghost use Rattle.load_commands.specs.CrashLoading.{IsCrashLoaded};
ghost use Rattle.load_commands.specs.LoadPanic.{CanLoadPanic, HasLoadedPanic, PanicLoad};
ghost use Rattle.command_parts.specs.Outputs.{Made};
ghost use Rattle.command_parts.specs.declared.reason.Reason.TheVariants as reasons;
ghost use Rattle.memory_map.specs.Maps.{reserved_area};
ghost use Rattle.worked_commands.specs.Inputs.{three_bytes};
ghost use Rattle.worked_commands.specs.Lists.{Gives};
ghost use Rattle.worked_commands.specs.Loads.{few_plan};
ghost use Rattle.worked_commands.specs.Memories.{loaded, run_file};
ghost use Rattle.worked_commands.specs.Names.{load_panic_of};
ghost use Rattle.worked_commands.specs.Panics.{crash_file, crash_load, panic_goods, panic_makes, panic_text};

use kx_edge::{Shelf, Sink};

/// The kernel is put in its place: the outputs are the memory with it and its record, and nothing else is made.
pub fn crash_kernel_is_loaded()
    ensures load { (i : CrashInputs) → i.memory ≡ loaded
        → plan i.request (Some i.map) ≡ Ok few_plan → IsCrashLoaded i few_plan crash_load }
    ensures made { (i : CrashInputs) → i.memory ≡ loaded
        → plan i.request (Some i.map) ≡ Ok few_plan → panic_makes i (Ok panic_goods) }
    ensures nothing_else { (i : CrashInputs) (goods : Made) → i.memory ≡ loaded
        → plan i.request (Some i.map) ≡ Ok few_plan → panic_makes i (Ok goods)
        → goods ≡ panic_goods }
    ensures not_refused { (i : CrashInputs) → plan i.request (Some i.map) ≡ Ok few_plan
        → panic_makes i (Err (by (reasons.Plan plans.UnknownImage))) → ⊥ }
    ensures never_too_long { (i : CrashInputs) → panic_makes i
        (Err (too_long (codes "k") 9)) → ⊥ }
{}

/// A request without a plan is refused, for its fault alone.
pub fn crash_kernel_has_no_plan()
    ensures refused { (i : CrashInputs) → plan i.request (Some i.map) ≡ Err plans.UnknownImage
        → panic_makes i (Err (by (reasons.Plan plans.UnknownImage))) }
    ensures other_fault { (i : CrashInputs) → plan i.request (Some i.map) ≡ Err plans.UnknownImage
        → panic_makes i (Err (by (reasons.Plan plans.Memory))) → ⊥ }
    ensures other_reason { (i : CrashInputs) → panic_makes i (Err (by reasons.NotKept))
        → ⊥ }
    ensures not_made { (i : CrashInputs) (goods : Made)
        → plan i.request (Some i.map) ≡ Err plans.UnknownImage
        → panic_makes i (Ok goods) → ⊥ }
{}

/// What is promised of the load: page 2 alone has changed, and lies in the reserved area.
pub fn load_of_a_crash_kernel()
    ensures promised { (i : CrashInputs) → i.memory ≡ loaded
        → plan i.request (Some i.map) ≡ Ok few_plan
        → reserved_area i.map ≡ Some (record { first = 2; count = 3 })
        → PanicLoad i few_plan crash_load }
    ensures can { (i : CrashInputs) → i.memory ≡ loaded
        → plan i.request (Some i.map) ≡ Ok few_plan → CanLoadPanic i }
    ensures cannot { (i : CrashInputs) → plan i.request (Some i.map) ≡ Err plans.UnknownImage
        → CanLoadPanic i → ⊥ }
    ensures other_head { (i : CrashInputs) → PanicLoad i few_plan
        (record { memory = loaded; head = 0x11002; segments = three_bytes }) → ⊥ }
    ensures nothing_there { (i : CrashInputs) → PanicLoad i few_plan
        (record { memory = loaded; head = 4; segments = three_bytes }) → ⊥ }
{}

/// What stands after `load-panic`.
pub fn crash_loads_that_were_done<S: Shelf, O: Sink>()
    ensures crash { (i : CrashInputs) → i.memory ≡ loaded
        → plan i.request (Some i.map) ≡ Ok few_plan → Gives S.Shelf O.Sink
        (λ s o t p. HasLoadedPanic S.Shelf O.Sink s o t p (load_panic_of None) i)
        ((codes "o", run_file) ∷ (codes "r", crash_file) ∷ []) panic_text }
    ensures with_notes { (i : CrashInputs) → i.memory ≡ loaded
        → plan i.request (Some i.map) ≡ Ok few_plan → Gives S.Shelf O.Sink
        (λ s o t p. HasLoadedPanic S.Shelf O.Sink s o t p (load_panic_of (Some (codes "n"))) i)
        ((codes "o", run_file) ∷ (codes "r", crash_file) ∷ []) panic_text }
{}
