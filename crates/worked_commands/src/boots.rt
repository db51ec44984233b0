//! What `boot` and `load` make of the kernel `abc` at page 2, over a memory without pages and a pool of pages 10, 11
//! and 12.

ghost use Rattle.std.specs.Prelude.{◌≡◌, ◌∷◌, [], false, None, Ok, Err, codes};
ghost use Rattle.kx_pages.specs.declared.image.Wish.TheVariants.{Plain};
ghost use Rattle.load_states.specs.Ready.{Told};
ghost use Rattle.load_states.specs.Runs.{EndsAfter};
ghost use Rattle.kexec_plan.specs.Plan.{plan};
ghost use Rattle.plan_faults.specs.declared.fault.PlanFault.TheVariants as plans;
ghost use Rattle.file_commands.specs.Taking.{by, too_long};
ghost use Rattle.kexec_words.specs.Values as words;
ghost use Rattle.load_commands.specs.ByRules.{HasLaid};
ghost use Rattle.load_commands.specs.NormalLoad.{NormalLoad};
ghost use Rattle.command_parts.specs.Outputs.{Made};
ghost use Rattle.command_parts.specs.declared.reason.Reason.TheVariants as reasons;
ghost use Rattle.worked_commands.specs.Inputs.{each_file, few_asked, few_read, three_bytes_file};
ghost use Rattle.worked_commands.specs.Lists.{GivenBy, Gives};
ghost use Rattle.worked_commands.specs.Loads.{boot_goods, boot_makes, boot_text, few_plan, load_goods, load_makes, load_text, nothing_loaded, unknown_makes};
ghost use Rattle.worked_commands.specs.Memories.{loaded_file, run_file};
ghost use Rattle.worked_commands.specs.Names.{boot_raw, load_raw};

use kx_edge::{Shelf, Sink};

/// The kernel's plan, and the goods of its boot: the memory after the run, and a text. Nothing else is made.
pub fn kernel_is_booted()
    ensures plan { plan few_asked None ≡ Ok few_plan }
    ensures made { boot_makes (0x10 ∷ 0x11 ∷ 0x12 ∷ []) (Ok boot_goods) }
    ensures nothing_else { (goods : Made) → boot_makes (0x10 ∷ 0x11 ∷ 0x12 ∷ []) (Ok goods)
        → goods ≡ boot_goods }
    ensures not_refused_for_pages { boot_makes (0x10 ∷ 0x11 ∷ 0x12 ∷ [])
        (Err (by (reasons.NoPages 3 3))) → ⊥ }
    ensures not_refused_for_its_plan { boot_makes (0x10 ∷ 0x11 ∷ 0x12 ∷ [])
        (Err (by (reasons.Plan plans.UnknownImage))) → ⊥ }
    ensures never_too_long { boot_makes (0x10 ∷ 0x11 ∷ 0x12 ∷ [])
        (Err (too_long (codes "k") 9)) → ⊥ }
{}

/// The goods of its load: the memory after the load, the record, and a text. Nothing else is made.
pub fn kernel_is_loaded()
    ensures made { load_makes (0x10 ∷ 0x11 ∷ 0x12 ∷ []) (Ok load_goods) }
    ensures nothing_else { (goods : Made) → load_makes (0x10 ∷ 0x11 ∷ 0x12 ∷ []) (Ok goods)
        → goods ≡ load_goods }
    ensures not_refused { load_makes (0x10 ∷ 0x11 ∷ 0x12 ∷ [])
        (Err (by (reasons.NoPages 3 3))) → ⊥ }
    ensures never_too_long { load_makes (0x10 ∷ 0x11 ∷ 0x12 ∷ [])
        (Err (too_long (codes "k") 9)) → ⊥ }
{}

/// A pool of two pages is a page short: the refusal has both numbers, the pool's first.
pub fn pool_is_too_small()
    ensures boot { boot_makes (0x10 ∷ 0x11 ∷ []) (Err (by (reasons.NoPages 2 3))) }
    ensures load { load_makes (0x10 ∷ 0x11 ∷ []) (Err (by (reasons.NoPages 2 3))) }
    ensures exchanged { boot_makes (0x10 ∷ 0x11 ∷ []) (Err (by (reasons.NoPages 3 2))) → ⊥ }
    ensures other_need { boot_makes (0x10 ∷ 0x11 ∷ []) (Err (by (reasons.NoPages 2 4))) → ⊥ }
    ensures other_pool { load_makes (0x10 ∷ 0x11 ∷ []) (Err (by (reasons.NoPages 1 3)))
        → ⊥ }
    ensures not_made { (goods : Made) → boot_makes (0x10 ∷ 0x11 ∷ []) (Ok goods) → ⊥ }
    ensures not_loaded { (goods : Made) → load_makes (0x10 ∷ 0x11 ∷ []) (Ok goods) → ⊥ }
{}

/// A kernel whose file does not tell its type has no plan.
pub fn kernel_has_no_plan()
    ensures refused { unknown_makes (Err (by (reasons.Plan plans.UnknownImage))) }
    ensures other_fault { unknown_makes (Err (by (reasons.Plan plans.Memory))) → ⊥ }
    ensures other_reason { unknown_makes (Err (by reasons.NotKept)) → ⊥ }
    ensures not_made { (goods : Made) → unknown_makes (Ok goods) → ⊥ }
{}

/// A list of the done word alone is accepted for no segments, and its run ends. But it is not a load of the kernel, whose
/// plan has a segment.
pub fn nothing_is_loaded()
    ensures accepted { Told nothing_loaded.load 1 0 [] }
    ensures ends { EndsAfter nothing_loaded.load 1 }
    ensures not_the_plan { NormalLoad Plain few_read few_plan nothing_loaded → ⊥ }
{}

/// What stands after `boot` and `load` of the files, each laid by the rules.
pub fn loads_that_were_done<S: Shelf, O: Sink>()
    ensures boot { Gives S.Shelf O.Sink
        (λ s o t p. HasLaid S.Shelf O.Sink each_file s o t p (words.boot (boot_raw None)))
        ((codes "o", run_file) ∷ []) boot_text }
    ensures load { Gives S.Shelf O.Sink
        (λ s o t p. HasLaid S.Shelf O.Sink each_file s o t p (words.load (load_raw false)))
        ((codes "o", loaded_file) ∷ (codes "r", three_bytes_file) ∷ []) load_text }
    ensures boot_by { GivenBy S.Shelf O.Sink
        (λ s o t p. HasLaid S.Shelf O.Sink each_file s o t p (words.boot (boot_raw None)))
        ((codes "o", run_file) ∷ []) boot_text }
    ensures load_by { GivenBy S.Shelf O.Sink
        (λ s o t p. HasLaid S.Shelf O.Sink each_file s o t p (words.load (load_raw false)))
        ((codes "o", loaded_file) ∷ (codes "r", three_bytes_file) ∷ []) load_text }
{}
