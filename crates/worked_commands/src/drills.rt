//! What `drill` makes of events: the line of each reply, and its refusal of a pool that meets the reserved area.

ghost use Rattle.std.specs.Prelude.{◌≡◌, ◌∷◌, [], Some, None, Ok, Err, codes};
ghost use Rattle.kx_pages.specs.Bytes.{page_of};
ghost use Rattle.image_slots.specs.declared.fault.SlotsFault.TheVariants as slots;
ghost use Rattle.file_commands.specs.Taking.{by, too_long};
ghost use Rattle.load_commands.specs.Drill.{AreRam, CanDrill, HasDrilled, Meets, drill_text, first_meeting, memory_after};
ghost use Rattle.command_parts.specs.Outputs.{Made};
ghost use Rattle.command_parts.specs.declared.reason.Reason.TheVariants as reasons;
ghost use Rattle.worked_commands.specs.Events.{drill_makes, drill_of, first_events, first_replies, reserved_ram, small_ram, small_runs};
ghost use Rattle.worked_commands.specs.Inputs.{no_pages_file};
ghost use Rattle.worked_commands.specs.Lists.{Gives, Never, Says};
ghost use Rattle.worked_commands.specs.Names.{drill_events};

use kx_edge::{Shelf, Sink};

/// A load that caller 1 opens, writes and runs: the replies, and the memory after them.
pub fn events_have_replies()
    ensures replies { drill_text (drill_of (0x10 ∷ 0x11 ∷ 0x12 ∷ 0x13 ∷ []) small_ram first_events)
        small_runs ≡ first_replies }
    ensures no_events { drill_text (drill_of (0x10 ∷ []) small_ram []) small_runs ≡ [] }
    ensures memory { memory_after
        (drill_of (0x10 ∷ 0x11 ∷ 0x12 ∷ 0x13 ∷ []) small_ram first_events) small_runs 2
        ≡ page_of (codes "a") }
    ensures ram { AreRam small_ram small_runs }
    ensures less_ram { AreRam small_ram (record { first = 0; count = 0xff } ∷ []) → ⊥ }
{}

/// A pool with a page of the reserved area: the first such page is named, and nothing is made.
pub fn pool_meets_the_area()
    ensures meets { first_meeting (drill_of (0x10 ∷ 0x12 ∷ 0x11 ∷ []) reserved_ram []) ≡ Some 0x12 }
    ensures apart { first_meeting (drill_of (0x10 ∷ 0x13 ∷ []) reserved_ram []) ≡ None }
    ensures no_area { first_meeting (drill_of (0x10 ∷ 0x11 ∷ []) small_ram []) ≡ None }
    ensures refused { drill_makes (0x10 ∷ 0x12 ∷ 0x11 ∷ []) reserved_ram
        (Err (by (reasons.Slots (slots.PoolMeets 0x12)))) }
    ensures other_page { drill_makes (0x10 ∷ 0x12 ∷ 0x11 ∷ []) reserved_ram
        (Err (by (reasons.Slots (slots.PoolMeets 0x11)))) → ⊥ }
    ensures other_reason { Meets (Some 0x12) reasons.NotKept → ⊥ }
    ensures not_made { (goods : Made)
        → drill_makes (0x10 ∷ 0x12 ∷ []) reserved_ram (Ok goods) → ⊥ }
    ensures never_too_long { drill_makes (0x10 ∷ []) small_ram
        (Err (too_long (codes "e") 9)) → ⊥ }
{}

/// What stands after `drill`: the replies are said, and without events memory stays as it was.
pub fn events_that_were_done<S: Shelf, O: Sink>()
    ensures replies { Says S.Shelf O.Sink
        (λ s o t p. HasDrilled S.Shelf O.Sink s o t p drill_events
        (drill_of (0x10 ∷ 0x11 ∷ 0x12 ∷ 0x13 ∷ []) small_ram first_events)) first_replies }
    ensures no_events { Gives S.Shelf O.Sink
        (λ s o t p. HasDrilled S.Shelf O.Sink s o t p drill_events
        (drill_of (0x10 ∷ []) small_ram [])) ((codes "o", no_pages_file) ∷ []) [] }
    ensures meets_the_area { Never S.Shelf O.Sink
        (λ s o t p. HasDrilled S.Shelf O.Sink s o t p drill_events
        (drill_of (0x12 ∷ []) reserved_ram [])) }
    ensures can { CanDrill (drill_of (0x10 ∷ []) small_ram []) }
    ensures cannot { CanDrill (drill_of (0x12 ∷ []) reserved_ram []) → ⊥ }
{}
