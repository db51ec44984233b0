//! `drill`: applies the events of several callers one after another.

ghost use Rattle.std.specs.Prelude.{◌≡◌, List, None, map, string_bytes, IfOk};
ghost use Rattle.std.specs.List.{AllByRecursion, find};
ghost use Rattle.kx_pages.specs.Spans.{Run};
ghost use Rattle.page_memory.specs.Contents.{at};
ghost use Rattle.page_pool.specs.Pages.{usable_of};
ghost use Rattle.memory_map.specs.Maps.{reserved_area};
ghost use Rattle.image_slots.specs.Pages.{all_pages, in_area};
ghost use Rattle.image_slots.specs.Sequences.{AreKept, after_events, fresh, replies_to};
ghost use Rattle.image_slots.specs.inner.Events.{HasFewBytes, event_of};
ghost use Rattle.image_slots.specs.inner.States.{state_of};
ghost use Rattle.file_commands.specs.Answers.{Meets as MeetsCommand};
ghost use Rattle.file_commands.specs.inner.Calls.{MakesOr, call_answer};
ghost use Rattle.kexec_words.specs.inner.Values.{drill_value};
ghost use Rattle.load_commands.specs.Drill.{AreRam, DrillInputs as Inputs, Meets, drill_files, drills, drill_entry};
ghost use Rattle.load_commands.specs.Replies.{reply_lines};
ghost use Rattle.load_commands.specs.inner.Views.{drill_inputs};

use crate::drill_inputs::{DrillInputs, DrillNames};
use crate::files::{take_events, take_map_file, take_pool};
use crate::replies::reply_lines;
use command_parts::{MakeResult, Reason, TakeResult, memory_output, take_memory};
use file_commands::{Command, Goods, MakeFault, Stop, run};
use image_slots::{Event, Slots};
use kexec_words::Drill;
use kx_edge::{Shelf, Sink};
use list_checker::ListFault;
use memory_map::Map;
use page_memory::Memory;
use page_pool::Pool;
use std::alloc::{AllocError, Global};

/// How `drill` is done: the name of the output.
#[derive(Drop)]
pub(crate) struct ApplyEvents {
    pub(crate) out: String,
}

// The slots over a memory, a pool and a memory map.
fn slots_over(alloc: Global, memory: Memory, pool: Pool, map: Map) -> MakeResult<Slots>
    ensures { MakesOr
        (λ s. (ram : List Run) × AreRam map ram
        × (find (in_area (reserved_area map)) (usable_of pool) ≡ None)
        × (state_of s ≡ fresh (at memory) (usable_of pool) ram (reserved_area map)))
        (Meets (find (in_area (reserved_area map)) (usable_of pool))) result }
{
    let pages = map.ram();
    // for its clause: what every value of the type keeps
    let _spans = pages.spans();
    let ram = pages.try_copy()?;
    match Slots::new(alloc, memory, pool, ram, map.reserved_area()) {
        Ok(slots) => Ok(slots),
        Err(refused) => Err(MakeFault::refused(Reason::Slots { fault: refused.why })),
    }
}

// Applies the events, and makes the lines of the replies.
fn event_lines(alloc: Global, slots: &mut Slots, events: Vec<Event>) -> Result<String, AllocError>
    requires { AllByRecursion (λ e. HasFewBytes (event_of e)) events.items }
    ensures text { IfOk result (λ s. string_bytes s
        ≡ reply_lines 1 (replies_to (state_of slots.old) (map event_of events.items))) }
    ensures after { IfOk result (λ _. state_of slots.new
        ≡ after_events (state_of slots.old) (map event_of events.items)) }
    ensures kept { AreKept (all_pages (state_of slots.old)) (state_of slots.old)
        (map event_of events.items) }
{
    let replies = slots.apply_each(alloc, events)?;
    reply_lines(alloc, &replies)
}

impl Command<ListFault, Reason> for ApplyEvents {
    type Names = DrillNames;

    type Taken = DrillInputs;

    ghost Inputs = { Inputs };

    ghost inputs = { drill_inputs };

    ghost takes = { λ n. drill_files (string_bytes n.memory) (string_bytes n.pool)
        (string_bytes n.map) (string_bytes n.events) };

    ghost makes = { λ d. drills (string_bytes d.out) };

    // Takes the memory, the pool, the memory map and the events.
    #[tactic(auto, using(crate::proofs::EventFile::all_short))]
    fn take<S: Shelf>(alloc: Global, names: DrillNames, shelf: &mut S) -> TakeResult<DrillInputs> {
        let memory = take_memory(alloc, names.memory, shelf)?;
        let pool = take_pool(alloc, names.pool, None, shelf)?;
        let map = take_map_file(alloc, names.map, shelf)?;
        let events = take_events(alloc, names.events, shelf)?;
        Ok(DrillInputs {
            memory,
            pool,
            map,
            events,
        })
    }

    // Applies the events, and makes the file of the memory after them and the lines of the replies.
    #[tactic(auto, using(crate::proofs::EventFile::all_few))]
    fn make(self, alloc: Global, taken: DrillInputs) -> MakeResult<Goods<ListFault>> {
        let mut slots = slots_over(alloc, taken.memory, taken.pool, taken.map)?;
        let lines = event_lines(alloc, &mut slots, taken.events);
        let memory = slots.into_memory();
        let text = lines?;
        let outputs = memory_output(alloc, memory, self.out)?;
        Ok(Goods::done(outputs, text))
    }
}

/// Runs `drill`: applies the events of several callers one after another.
pub fn run_drill<S: Shelf, O: Sink>(
    alloc: Global,
    words: Drill,
    shelf: &mut S,
    out: &mut O,
) -> Result<(), Stop<ListFault, Reason>>
    ensures { MeetsCommand S.Shelf O.Sink (drill_entry (drill_value words)).command shelf.old
        out.old
        (call_answer result) shelf.new out.new }
{
    let names = DrillNames {
        memory: words.memory,
        pool: words.pool,
        map: words.map,
        events: words.events,
    };
    run(alloc, names, ApplyEvents { out: words.out }, shelf, out)
}
