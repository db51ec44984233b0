//! What `drill` takes, and the names of it.

ghost use Rattle.std.specs.Prelude.{◌≡◌, true};
ghost use Rattle.load_commands.specs.inner.ShortStores.{are_short};

use image_slots::Event;
use memory_map::Map;
use page_memory::Memory;
use page_pool::Pool;

/// The names of what `drill` takes.
#[derive(Drop)]
pub(crate) struct DrillNames {
    pub(crate) memory: String,
    pub(crate) pool: String,
    pub(crate) map: String,
    pub(crate) events: String,
}

/// What `drill` took.
#[derive(Drop)]
pub(crate) struct DrillInputs {
    pub(crate) memory: Memory,
    pub(crate) pool: Pool,
    pub(crate) map: Map,
    pub(crate) events: Vec<Event>,
    /// Each store has at most a page.
    pub(crate) ghost short: { are_short events.items ≡ true },
}
