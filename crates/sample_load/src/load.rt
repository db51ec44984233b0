//! The load of a sample.

ghost use Rattle.std.specs.Prelude.{◌≡◌, ◌^◌, IfOk};
ghost use Rattle.kimage_list.specs.Tracking.{whole_pool};
ghost use Rattle.load_states.specs.Fillings.{IsSealed};
ghost use Rattle.sample_load.specs.Samples.{sample_memory, sample_pool, sample_segments, start_of};

use crate::drawn_segments::sample_segments;
use crate::memory::sample_memory;
use crate::pool::sample_pool;
use kimage_list::BeginFault;
use kx_pages::{Start, Wish};
use load_states::{Filling, Loaded};
use segments::Segments;
use std::alloc::{AllocError, Global};

/// Loads the sample of this number in plain mode: its segments, into its memory, with pages of its
/// pool. Want of memory is the only refusal.
pub fn load_sample(alloc: Global, number: u64) -> Result<Loaded, AllocError>
    ensures sealed { IfOk result (λ load.
        IsSealed sample_memory sample_pool Wish.Plain (sample_segments number) load) }
    // Its pool has the same pages as the pool of every sample, and no limit.
    ensures pool { IfOk result (λ load.
        whole_pool load.pool ≡ (sample_pool, sample_pool, 2 ^ 46)) }
{
    let segments = sample_segments(alloc, number)?;
    let memory = sample_memory(alloc)?;
    let pool = sample_pool(alloc)?;
    match Filling::begin(alloc, memory, pool, segments, Wish::Plain) {
        Ok(filling) => Ok(filling.finish()),
        Err(refused) => match refused.why {
            BeginFault::Memory => Err(AllocError),
            BeginFault::NoPages { .. } => unreachable!(),
        },
    }
}

/// How the kernel of these segments starts: at the first of them, with zeros in the registers.
pub fn start_of(segments: &Segments) -> Start
    ensures { result ≡ start_of segments.now }
{
    // for its clause: there is a first one
    let _count = segments.count();
    Start {
        entry: segments.segment(0).mem,
        rax: 0,
        rbx: 0,
        rsi: 0,
    }
}
