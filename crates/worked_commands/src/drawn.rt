//! Which pages a load uses, and that each field of what is promised of a load is needed.

ghost use Rattle.std.specs.Prelude.{◌∷◌, []};
ghost use Rattle.kx_pages.specs.declared.image.Wish.{Wish};
ghost use Rattle.kx_pages.specs.declared.image.Wish.TheVariants.{Kept, Plain};
ghost use Rattle.load_states.specs.Ready.{Told};
ghost use Rattle.load_states.specs.States.{Checked};
ghost use Rattle.kexec_plan.specs.Requests.{Plan};
ghost use Rattle.load_commands.specs.Inputs.{LoadInputs};
ghost use Rattle.load_commands.specs.NormalLoad.{NormalLoad};
ghost use Rattle.worked_commands.specs.Drawn.{Each, IsNeeded, IsNeededBy, fields_of, found, found_kept, found_with, found_without_plan, kept_with, told_wrongly, with_a_page, zeros_found, zeros_move, zeros_plan, zeros_with};
ghost use Rattle.worked_commands.specs.Inputs.{few_read};
ghost use Rattle.worked_commands.specs.Kept.{one_exchange};
ghost use Rattle.worked_commands.specs.Lists.{one_move};
ghost use Rattle.worked_commands.specs.Loads.{few_plan, nothing_loaded};

/// A load whose pages all come from the pool is one, in both modes.
pub fn drawn_pages_are_a_load()
    ensures plain { NormalLoad Plain (found_with (0x10 ∷ 0x11 ∷ 0x12 ∷ [])) few_plan found }
    ensures kept { NormalLoad Kept (kept_with (0x10 ∷ 0x11 ∷ 0x12 ∷ 0x13 ∷ [])) few_plan
        found_kept }
    // And the fields below are all fields.
    ensures fields { (wish : Wish) (i : LoadInputs) (p : Plan) (c : Checked)
        → (t : Told c.load c.words c.links c.pairs) → Each (fields_of wish i p c t.items)
        → NormalLoad wish i p c }
{}

/// A load with context preserved that swaps by way of a page that is in no pool, a live page of the old kernel, is none,
/// though all else is as it has to be: its list is accepted, ends, and its other pages were drawn.
pub fn swap_through_a_live_page_is_no_load()
    ensures { IsNeeded 8 Kept (kept_with (0x10 ∷ 0x12 ∷ 0x13 ∷ 0x30 ∷ []))
        found_kept one_exchange }
{}

/// For each other field, a load of which all but this field holds, and which is none. *ends* is left out: it follows from
/// the others. That of *enough* takes two pages of zeros from one.
pub fn each_field_of_a_load_is_needed()
    ensures planned { IsNeeded 0 Plain found_without_plan found one_move }
    ensures enough { IsNeededBy zeros_plan 1 Plain zeros_with zeros_found zeros_move }
    ensures segments { IsNeeded 2 Plain few_read nothing_loaded [] }
    ensures mode { IsNeeded 3 Kept (found_with (0x10 ∷ 0x11 ∷ 0x12 ∷ 0x13 ∷ [])) found one_move }
    ensures only_pool_pages { IsNeeded 4 Plain (record few_read { memory = with_a_page }) found
        one_move }
    ensures accepted { IsNeeded 5 Plain (found_with (0x10 ∷ 0x11 ∷ 0x12 ∷ [])) told_wrongly
        one_move }
    ensures control_is_drawn { IsNeeded 7 Plain (found_with (0x30 ∷ 0x11 ∷ 0x12 ∷ [])) found
        one_move }
    ensures list_is_drawn { IsNeeded 9 Plain (found_with (0x10 ∷ 0x30 ∷ 0x12 ∷ [])) found
        one_move }
    ensures sources_are_drawn { IsNeeded 10 Plain (found_with (0x10 ∷ 0x11 ∷ 0x30 ∷ [])) found
        one_move }
{}
