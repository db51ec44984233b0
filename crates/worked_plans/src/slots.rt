//! Several callers: where the pages of the pool are, and who is busy. Parts of the states of a load.

ghost use Rattle.std.specs.Prelude.{◌≡◌, ◌∷◌, ℕ, [], Some, None, true, false, map};
ghost use Rattle.image_slots.specs.Events.{Panic, Write};
ghost use Rattle.image_slots.specs.Pages.{all_pages, in_area, load_pages};
ghost use Rattle.image_slots.specs.Soundness.{IsBusy, Meets, WhereSome};
ghost use Rattle.image_slots.specs.States.{Draft, Placed, Written};
ghost use Rattle.image_slots.specs.declared.event.LoadKind.TheVariants as kinds;
ghost use Rattle.image_slots.specs.declared.fault.SlotsFault.TheVariants as faults;
ghost use Rattle.kx_pages.specs.declared.image.Mode.TheVariants as modes;
ghost use Rattle.load_states.specs.States.{no_pages, swap_of, with_memory};
ghost use Rattle.worked_plans.specs.Slots.{load_of, normal_image, state_of, a_memory};

/// The pages left come first, then those of the load under way, then those of the installed image. A crash load has none of
/// them.
pub fn pages_of_the_pool()
    ensures all { all_pages state_of ≡ 0x10 ∷ 0x11 ∷ 0x12 ∷ 0x13 ∷ 0x14 ∷ 0x15 ∷ [] }
    ensures no_load { load_pages None ≡ [] }
    ensures written { load_pages
        (Some (record { caller = 7; stage = Written (normal_image (0x12 ∷ 0x13 ∷ [])) }))
        ≡ 0x12 ∷ 0x13 ∷ [] }
    ensures draft { load_pages (Some (record { caller = 7; stage = Draft kinds.Crash [] })) ≡ [] }
    ensures placed { load_pages
        (Some (record { caller = 7; stage = Placed (record { head = 4; segments = [] }) })) ≡ [] }
    ensures area { map (in_area (Some (record { first = 0x100; count = 0x10 })))
        (0xff ∷ 0x100 ∷ 0x10f ∷ 0x110 ∷ [])
        ≡ false ∷ true ∷ true ∷ false ∷ [] }
    ensures no_area { map (in_area None) (0 ∷ 0x100 ∷ []) ≡ false ∷ false ∷ [] }
{}

/// Caller 7 has a load under way: an event of another caller is told so, and an event of its own or without a caller is not.
pub fn calls_that_are_busy()
    ensures other_caller { IsBusy state_of (Write 8) 7 }
    ensures own { IsBusy state_of (Write 7) 7 → ⊥ }
    ensures wrong_name { IsBusy state_of (Write 8) 8 → ⊥ }
    ensures no_caller { IsBusy state_of Panic 7 → ⊥ }
    ensures after_a_run { IsBusy (record state_of { gone = true }) (Write 8) 7 → ⊥ }
    ensures no_load { IsBusy (record state_of { load = None }) (Write 8) 7 → ⊥ }
    ensures meets { Meets (Some 0x100) (faults.PoolMeets 0x100) }
    ensures meets_another { Meets (Some 0x101) (faults.PoolMeets 0x100) → ⊥ }
    ensures meets_none { Meets None (faults.PoolMeets 0x100) → ⊥ }
    ensures where_none { WhereSome (λ (n : ℕ). n ≡ 7) None }
    ensures where_some { WhereSome (λ (n : ℕ). n ≡ 7) (Some 7) }
    ensures where_another { WhereSome (λ (n : ℕ). n ≡ 7) (Some 8) → ⊥ }
{}

/// The swap page of a load is 0 without context preserved; another memory leaves the rest of a load.
pub fn states_of_a_load()
    ensures swap { map (λ mode. swap_of (load_of mode)) (modes.Plain ∷ modes.Kept 0x13 ∷ [])
        ≡ 0 ∷ 0x13 ∷ [] }
    ensures memory { (with_memory (load_of modes.Plain) a_memory).memory ≡ a_memory }
    ensures image { (with_memory (load_of modes.Plain) a_memory).image
        ≡ (load_of modes.Plain).image }
    ensures made { no_pages.made ≡ [] }
    ensures drawn { no_pages.drawn ≡ [] }
    ensures limit { no_pages.limit ≡ 0x4000_0000_0000 }
{}
