//! The files beside the memory are taken, each with its limit, and read: the pool, the memory map, the notes, the pairs and the
//! events.

ghost use Rattle.std.specs.Prelude.{◌≡◌, ℕ, ◌^◌, [], None, false, is_some, map, option_map, string_bytes, IfOk};
ghost use Rattle.std.specs.List.{AllByRecursion};
ghost use Rattle.file_commands.specs.inner.Calls.{Takes};
ghost use Rattle.file_commands.specs.Files.{optional_file};
ghost use Rattle.load_commands.specs.Files.{map_file, notes_file, pages_file, pool_file, some_notes, usable_below};
ghost use Rattle.load_commands.specs.BootResident.{pairs_file};
ghost use Rattle.load_commands.specs.EventFile.{events_file};
ghost use Rattle.image_slots.specs.inner.Events.{HasFewBytes, event_of};
ghost use Rattle.page_pool.specs.Pages.{is_filed, usable_of};

use command_parts::{InputFault, TEXT_LIMIT, TakeResult};
use command_table::Role;
use crash_headers::{Note, read_notes};
use file_commands::take_file;
use image_slots::{Event, read_events};
use kx_edge::Shelf;
use kx_pages::Page;
use list_checker::Pair;
use memory_map::Map;
use page_pool::Pool;
use resident_planner::read_pairs;
use std::alloc::Global;

// Takes a pool file and reads it. No page of the pool is drawn, and each is usable.
fn take_pages<S: Shelf>(alloc: Global, name: String, shelf: &mut S) -> TakeResult<Pool>
    ensures takes { Takes S.Shelf (pages_file (string_bytes name)) (λ p. p.made) shelf.old
        result shelf.new }
    ensures undrawn { IfOk result (λ p. p.drawn ≡ []) }
    ensures limit { IfOk result (λ p. p.limit ≡ 2 ^ 46) }
    ensures unfiled { IfOk result (λ p. (q : ℕ) → is_filed p q ≡ false) }
{
    let bytes = take_file(alloc, Role::Pool, name, TEXT_LIMIT, shelf)?;
    Pool::read(alloc, &bytes).map_err(|fault| InputFault::Pool { fault }.stop())
}

// The pool with a limit, where this is the first page past it.
fn with_limit(pool: Pool, below: Option<Page>) -> Pool
    requires undrawn { pool.drawn ≡ [] }
    requires limit { pool.limit ≡ 2 ^ 46 }
    requires unfiled { (q : ℕ) → is_filed pool q ≡ false }
    ensures usable { usable_of result ≡ usable_below below pool.made }
    ensures unfiled { (q : ℕ) → is_filed result q ≡ false }
    ensures limit { below ≡ None → result.limit ≡ 2 ^ 46 }
{
    match below {
        Some(page) => pool.below(page.address()),
        None => pool,
    }
}

/// Takes a pool file and reads it. The pool has a limit where `below` is there, the first page past it.
pub(crate) fn take_pool<S: Shelf>(
    alloc: Global,
    name: String,
    below: Option<Page>,
    shelf: &mut S,
) -> TakeResult<Pool>
    ensures takes { Takes S.Shelf (pool_file (string_bytes name) below) (λ p. usable_of p)
        shelf.old result shelf.new }
    ensures unfiled { IfOk result (λ p. (q : ℕ) → is_filed p q ≡ false) }
    ensures limit { IfOk result (λ p. below ≡ None → p.limit ≡ 2 ^ 46) }
{
    let pool = take_pages(alloc, name, shelf)?;
    Ok(with_limit(pool, below))
}

/// Takes a memory map and reads it.
pub(crate) fn take_map_file<S: Shelf>(alloc: Global, name: String, shelf: &mut S) -> TakeResult<Map>
    ensures { Takes S.Shelf (map_file (string_bytes name)) (λ m. m) shelf.old result shelf.new }
{
    let bytes = take_file(alloc, Role::Map, name, TEXT_LIMIT, shelf)?;
    Map::read(alloc, &bytes).map_err(|fault| InputFault::Map { fault }.stop())
}

/// Takes the memory map, where one is named, and reads it.
#[tactic(auto, unfolding(file_commands::specs::Taking::and_then, file_commands::specs::Taking::Took, file_commands::specs::Taking::FailedAt, file_commands::specs::Taking::WantedAt, file_commands::specs::inner::Calls::TakesNot))]
pub(crate) fn take_map<S: Shelf>(
    alloc: Global,
    name: Option<String>,
    shelf: &mut S,
) -> TakeResult<Option<Map>>
    ensures takes { Takes S.Shelf (optional_file map_file (option_map string_bytes name)) (λ m. m)
        shelf.old result shelf.new }
    ensures named { IfOk result (λ m. is_some m ≡ is_some name) }
{
    match name {
        Some(name) => Ok(Some(take_map_file(alloc, name, shelf)?)),
        None => Ok(None),
    }
}

// Takes a file of notes and reads it.
fn take_notes_file<S: Shelf>(alloc: Global, name: String, shelf: &mut S) -> TakeResult<Vec<Note>>
    ensures { Takes S.Shelf (notes_file (string_bytes name)) (λ v. v.items) shelf.old result
        shelf.new }
{
    let bytes = take_file(alloc, Role::Notes, name, TEXT_LIMIT, shelf)?;
    read_notes(alloc, &bytes).map_err(|fault| InputFault::Notes { fault }.stop())
}

/// Takes the file of notes, where one is named, and reads it. Without one there are none.
#[tactic(auto, unfolding(file_commands::specs::Taking::Took))]
pub(crate) fn take_notes<S: Shelf>(
    alloc: Global,
    name: Option<String>,
    shelf: &mut S,
) -> TakeResult<Vec<Note>>
    ensures { Takes S.Shelf (some_notes (option_map string_bytes name)) (λ v. v.items) shelf.old
        result shelf.new }
{
    match name {
        Some(name) => take_notes_file(alloc, name, shelf),
        None => Ok(Vec::new(alloc)),
    }
}

/// Takes a file of pairs and reads it.
pub(crate) fn take_pairs<S: Shelf>(
    alloc: Global,
    name: String,
    shelf: &mut S,
) -> TakeResult<Vec<Pair>>
    ensures { Takes S.Shelf (pairs_file (string_bytes name)) (λ v. v.items) shelf.old result
        shelf.new }
{
    let bytes = take_file(alloc, Role::Pairs, name, TEXT_LIMIT, shelf)?;
    read_pairs(alloc, &bytes).map_err(|fault| InputFault::Pairs { fault }.stop())
}

/// Takes a file of events and reads it.
pub(crate) fn take_events<S: Shelf>(
    alloc: Global,
    name: String,
    shelf: &mut S,
) -> TakeResult<Vec<Event>>
    ensures takes { Takes S.Shelf (events_file (string_bytes name)) (λ v. map event_of v.items)
        shelf.old result shelf.new }
    ensures few { IfOk result (λ v. AllByRecursion (λ e. HasFewBytes (event_of e)) v.items) }
{
    let bytes = take_file(alloc, Role::Events, name, TEXT_LIMIT, shelf)?;
    read_events(alloc, &bytes).map_err(|fault| InputFault::Events { fault }.stop())
}
