//! What a load is made of, and the names of it.

ghost use Rattle.std.specs.Prelude.{◌≡◌, ℕ, false};
ghost use Rattle.kexec_words.specs.inner.Limits.{HasParts};
ghost use Rattle.kexec_words.specs.inner.Values.{inputs_value};
ghost use Rattle.page_pool.specs.Pages.{is_filed};
ghost use Rattle.kexec_plan.specs.inner.Requests.{IsMapped, request_of};

use kexec_plan::Request;
use kexec_words::{CrashInputs as CrashWords, Inputs};
use kx_pages::ImageType;
use memory_map::Map;
use page_memory::Memory;
use page_pool::Pool;

/// The names of what `boot` and `load` take, and the type of the kernel.
#[derive(Drop)]
pub(crate) struct InputNames {
    pub(crate) image: ImageType,
    pub(crate) inputs: Inputs,
    /// A memory map is named where the kernel's type or a purgatory needs one.
    pub(crate) ghost parts: { HasParts (inputs_value inputs) image },
}

/// What `boot` and `load` took: the memory, the pool with its limit, the memory map, and the request for a plan.
#[derive(Drop)]
pub(crate) struct LoadInputs {
    pub(crate) memory: Memory,
    pub(crate) pool: Pool,
    pub(crate) map: Option<Map>,
    pub(crate) request: Request,
    /// No page of a pool that was read is filed.
    pub(crate) ghost unfiled: { (q : ℕ) → is_filed pool q ≡ false },
    /// A memory map is there where the request needs one.
    pub(crate) ghost mapped: { IsMapped (request_of request) map },
}

/// The names of what `load-panic` takes.
#[derive(Drop)]
pub(crate) struct CrashNames {
    pub(crate) inputs: CrashWords,
    pub(crate) map: String,
}

/// What `load-panic` took: the memory, the memory map, and the request for a plan of a crash kernel.
#[derive(Drop)]
pub(crate) struct CrashInputs {
    pub(crate) memory: Memory,
    pub(crate) map: Map,
    pub(crate) request: Request,
}
