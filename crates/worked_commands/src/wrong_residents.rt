//! Runs of `boot-resident` of which all that is promised is so but one field; and which fields follow from the others.

ghost use Rattle.std.specs.Prelude.{◌≡◌, [], None};
ghost use Rattle.std.specs.FinMap.{empty};
ghost use Rattle.load_states.specs.Runs.{EndsAfter};
ghost use Rattle.load_states.specs.States.{Checked};
ghost use Rattle.resident_planner.specs.Cycles.{deviating};
ghost use Rattle.resident_planner.specs.Made.{DeviatesAtLeast};
ghost use Rattle.resident_planner.specs.Refusals.{resident_of};
ghost use Rattle.resident_planner.specs.declared.plan.Made.{Made as ResidentList};
ghost use Rattle.kexec_plan.specs.Requests.{Plan};
ghost use Rattle.load_commands.specs.BootResident.{BootsResident, ResidentInputs, resident_text};
ghost use Rattle.command_parts.specs.Runs.{Leaves, MachineLeaves, after_runs};
ghost use Rattle.worked_commands.specs.Drawn.{found, told_wrongly};
ghost use Rattle.worked_commands.specs.Loads.{few_plan};
ghost use Rattle.worked_commands.specs.Memories.{run_file};
ghost use Rattle.worked_commands.specs.Wrong.{ResidentNeeds, ResidentTo, elsewhere_file, made_text, none_resident, run_elsewhere, with_o, without_a_pool};

/// The right boot: OUT is the file of the run.
pub fn right_resident_boot()
    ensures { ResidentTo none_resident (with_o run_file) made_text }
{}

/// The list lies in pages that are not in the pool; it was run in another memory than it was made in; it is told with two
/// link pages; OUT is empty; there is no OUT; nothing was said.
pub fn fields_that_a_resident_boot_needs()
    ensures resident { ResidentNeeds 0 without_a_pool found run_file (with_o run_file) made_text }
    ensures of_list { ResidentNeeds 1 none_resident run_elsewhere elsewhere_file
        (with_o elsewhere_file) made_text }
    ensures accepted { ResidentNeeds 2 none_resident told_wrongly run_file (with_o run_file)
        (resident_text told_wrongly few_plan.start 0) }
    ensures is_memory { ResidentNeeds 8 none_resident found [] (with_o []) made_text }
    ensures put { ResidentNeeds 9 none_resident found run_file empty made_text }
    ensures said { ResidentNeeds 10 none_resident found run_file (with_o run_file) [] }
{}

/// The other fields follow from the list that was made and accepted, of each kernel.
pub fn fields_that_follow_from_a_resident_list()
    ensures copies { (i : ResidentInputs) (p : Plan) (m : ResidentList) (c : Checked)
        → BootsResident i p m c → deviating (resident_of i.pairs) c.pairs ≡ m.copied }
    ensures least { (i : ResidentInputs) (p : Plan) (m : ResidentList) (c : Checked)
        → BootsResident i p m c → DeviatesAtLeast p.segments i.pairs m.copied }
    ensures ends { (i : ResidentInputs) (p : Plan) (m : ResidentList) (c : Checked)
        → BootsResident i p m c → EndsAfter c.load c.words }
    ensures runs { (i : ResidentInputs) (p : Plan) (m : ResidentList) (c : Checked)
        → BootsResident i p m c → MachineLeaves None c }
    ensures leaves { (i : ResidentInputs) (p : Plan) (m : ResidentList) (c : Checked)
        → BootsResident i p m c → Leaves None c (after_runs None c) }
{}
