//! Boots of which all that is promised is so but one field; and which fields follow from the others.

ghost use Rattle.std.specs.Prelude.{◌≡◌, []};
ghost use Rattle.std.specs.FinMap.{empty};
ghost use Rattle.load_states.specs.States.{Checked};
ghost use Rattle.kexec_words.specs.Values.{BootValue};
ghost use Rattle.kexec_plan.specs.Finish.{HasTableApart};
ghost use Rattle.kexec_plan.specs.Requests.{Plan};
ghost use Rattle.load_commands.specs.Inputs.{LoadInputs};
ghost use Rattle.load_commands.specs.NormalLoad.{NormalLoad};
ghost use Rattle.command_parts.specs.Runs.{EndsAgain, IsOnce, Leaves, MachineLeaves, after_runs, wish_of};
ghost use Rattle.purgatory_link.specs.declared.region_test.RegionTest.TheVariants.{Same};
ghost use Rattle.purgatory_link.specs.RegionTest.{test};
ghost use Rattle.worked_commands.specs.Drawn.{found};
ghost use Rattle.worked_commands.specs.Inputs.{no_pages_file};
ghost use Rattle.worked_commands.specs.Loads.{boot_text, nothing_loaded};
ghost use Rattle.worked_commands.specs.Memories.{run_file};
ghost use Rattle.worked_commands.specs.Wrong.{BootNeeds, BootsTo, nothing_text, with_o};

/// The right boot: OUT is the file of the run.
pub fn right_boot()
    ensures { BootsTo (with_o run_file) boot_text }
{}

/// Nothing was loaded, and OUT is the memory as it was; OUT is empty; there is no OUT; nothing was said.
pub fn fields_that_a_boot_needs()
    ensures load { BootNeeds 0 nothing_loaded no_pages_file (with_o no_pages_file) nothing_text }
    ensures is_memory { BootNeeds 5 found [] (with_o []) boot_text }
    ensures put { BootNeeds 6 found run_file empty boot_text }
    ensures said { BootNeeds 7 found run_file (with_o run_file) [] }
{}

/// The other fields follow from the load, of each kernel: they say what it is for.
pub fn fields_that_follow_from_a_load()
    ensures ends_again { (b : BootValue) (i : LoadInputs) (p : Plan) (c : Checked)
        → NormalLoad (wish_of b.kept) i p c → EndsAgain b.kept c }
    ensures runs { (b : BootValue) (i : LoadInputs) (p : Plan) (c : Checked)
        → NormalLoad (wish_of b.kept) i p c → MachineLeaves b.kept c }
    ensures leaves { (b : BootValue) (i : LoadInputs) (p : Plan) (c : Checked)
        → NormalLoad (wish_of b.kept) i p c → Leaves b.kept c (after_runs b.kept c) }
    ensures proves_itself { (b : BootValue) (i : LoadInputs) (p : Plan) (c : Checked)
        → NormalLoad (wish_of b.kept) i p c → HasTableApart p → IsOnce b.kept
        → test (after_runs b.kept c) p.regions p.digest ≡ Same }
{}
