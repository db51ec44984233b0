//! Events of several callers: their text, the reply to each, and the memory after them.

ghost use Rattle.std.specs.Prelude.{◌≡◌, ◌++◌, ◌∷◌, [], true, Ok, Err, codes};
ghost use Rattle.kx_pages.specs.Bytes.{page_of};
ghost use Rattle.kx_pages.specs.declared.image.Wish.TheVariants as wishes;
ghost use Rattle.kimage_list.specs.Laying.{in_bytes};
ghost use Rattle.image_slots.specs.declared.fault.EventsFault.TheVariants as faults;
ghost use Rattle.image_slots.specs.declared.reply.Reply.TheVariants as replies;
ghost use Rattle.image_slots.specs.Events.{Panic, Unload};
ghost use Rattle.image_slots.specs.Sequences.{after_events, replies_to};
ghost use Rattle.image_slots.specs.Texts.{events_reading};
ghost use Rattle.worked_examples.specs.Events.{first_events, first_text, loading, machine};

/// The text of events, and lines that are none.
pub fn texts_of_events()
    ensures read { events_reading first_text ≡ Ok first_events }
    ensures calls { events_reading (codes "unload 7 crash\npanic")
        ≡ Ok (Unload 7 true ∷ Panic ∷ []) }
    ensures no_kind { events_reading (codes "panic\nopen 1 other\n") ≡ Err (faults.BadLine 2) }
    ensures half_a_byte { events_reading (codes "store 12 f\n") ≡ Err (faults.BadLine 1) }
    ensures long_caller { events_reading (codes "write 1234567890\n") ≡ Err (faults.BadLine 1) }
{}

/// A load of one caller: another caller is told that it is busy, no store touches a page of the list, and after the run
/// all is gone.
pub fn load_that_is_run()
    ensures replies { replies_to (machine (0x10 ∷ 0x11 ∷ 0x12 ∷ 0x13 ∷ [])) first_events
        ≡ replies.Done ∷ replies.Busy 1 ∷ replies.Done ∷ replies.Done ∷ replies.Touched 0x12
        ∷ replies.Done ∷ replies.Done ∷ replies.NoArea ∷ replies.Done ∷ replies.Gone ∷ [] }
    ensures left { (after_events (machine (0x10 ∷ 0x11 ∷ 0x12 ∷ 0x13 ∷ [])) first_events).left
        ≡ 0x13 ∷ [] }
    ensures destination { (after_events (machine (0x10 ∷ 0x11 ∷ 0x12 ∷ 0x13 ∷ []))
        first_events).memory 2 ≡ page_of (codes "a") }
    ensures list { (after_events (machine (0x10 ∷ 0x11 ∷ 0x12 ∷ 0x13 ∷ [])) first_events).memory
        0x11 ≡ page_of (in_bytes (0x2001 ∷ 0x12008 ∷ 4 ∷ [])) }
{}

/// A second image replaces the first, whose pages go back to the pool; a third load finds too few, and no crash image
/// is there to run.
pub fn image_that_is_replaced()
    ensures replies { replies_to (machine (0x10 ∷ 0x11 ∷ 0x12 ∷ 0x13 ∷ 0x14 ∷ 0x15 ∷ []))
        (loading wishes.Plain 0x2000 (codes "a")
        ++ (loading wishes.Plain 0x3000 (codes "b")
        ++ (loading wishes.Kept 0x4000 (codes "c") ++ Panic ∷ [])))
        ≡ replies.Done ∷ replies.Done ∷ replies.Done ∷ replies.Done ∷ replies.Done ∷ replies.Done
        ∷ replies.Done ∷ replies.Done ∷ replies.Done ∷ replies.Done ∷ replies.NoPages 3 4
        ∷ replies.NotOpen ∷ replies.NoImage ∷ [] }
    ensures left { (after_events (machine (0x10 ∷ 0x11 ∷ 0x12 ∷ 0x13 ∷ 0x14 ∷ 0x15 ∷ []))
        (loading wishes.Plain 0x2000 (codes "a")
        ++ loading wishes.Plain 0x3000 (codes "b"))).left
        ≡ 0x10 ∷ 0x11 ∷ 0x12 ∷ [] }
{}
