//! Loads of a crash kernel of which all that is promised is so but one field; and which fields follow from the others.

ghost use Rattle.std.specs.Prelude.{◌≡◌, ℕ, true, false, Some, None, Ok, Err};
ghost use Rattle.kx_pages.specs.Spans.{Run, in_span};
ghost use Rattle.page_memory.specs.Contents.{at};
ghost use Rattle.memory_map.specs.Maps.{reserved_area};
ghost use Rattle.segments.specs.Values.{want};
ghost use Rattle.load_states.specs.States.{CrashLoad};
ghost use Rattle.kexec_plan.specs.Plan.{plan};
ghost use Rattle.kexec_plan.specs.Requests.{Plan};
ghost use Rattle.plan_faults.specs.declared.fault.PlanFault.TheVariants as plans;
ghost use Rattle.load_commands.specs.CrashInputs.{CrashInputs};
ghost use Rattle.worked_commands.specs.Memories.{loaded};
ghost use Rattle.worked_commands.specs.Panics.{IsAsked, crash_load};
ghost use Rattle.worked_commands.specs.Wrong.{PanicNeeds, no_segments, nothing_in_place, one_page_more, other_head};

/// The request has no plan; nothing was put in its place; a further page of the area was written; the head is no done word;
/// there are no segments.
pub fn fields_that_a_crash_load_needs()
    ensures planned { (i : CrashInputs) → i.memory ≡ loaded
        → plan i.request (Some i.map) ≡ Err plans.UnknownImage
        → reserved_area i.map ≡ Some (record { first = 2; count = 3 })
        → PanicNeeds 0 i crash_load }
    ensures arrives { (i : CrashInputs) → IsAsked i → PanicNeeds 3 i nothing_in_place }
    ensures only_its_pages { (i : CrashInputs) → IsAsked i → PanicNeeds 4 i one_page_more }
    ensures head { (i : CrashInputs) → IsAsked i → PanicNeeds 5 i other_head }
    ensures segments { (i : CrashInputs) → IsAsked i → PanicNeeds 6 i no_segments }
{}

/// That the map has a reserved area, and that no page outside it has changed, follows: a plan lays each segment in it.
pub fn fields_that_follow_from_a_crash_plan()
    ensures { (i : CrashInputs) (p : Plan) (load : CrashLoad) → i.request.crash ≡ true
        → plan i.request (Some i.map) ≡ Ok p
        → ((q : ℕ) → want p.segments q ≡ None → at load.memory q ≡ at i.memory q)
        → (area : Run) × (reserved_area i.map ≡ Some area)
        × ((q : ℕ) → in_span area q ≡ false → at load.memory q ≡ at i.memory q) }
{}
