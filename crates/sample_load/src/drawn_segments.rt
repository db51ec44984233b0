//! The segments that are drawn.

ghost use Rattle.std.specs.Prelude.{◌≡◌, ◌+◌, ◌*◌, ◌<◌, ◌≤◌, ◌^◌, IfOk};
ghost use Rattle.sample_load.specs.DrawnSegments.{byte_of, bytes_of, segment_of, shape_of, third_state};
ghost use Rattle.sample_load.specs.Samples.{sample_segments};

use crate::FIRST_PAGE;
use crate::draws::Generator;
use kx_pages::{PAGE_SIZE, SEGMENT_LIMIT};
use segments::{SegFault, Segment, Segments};
use std::alloc::{AllocError, Global};

/// What is drawn of a segment.
#[derive(Clone, Copy)]
pub(crate) struct Shape {
    /// How many pages lie between the segment before and this one, 0 to 63.
    pub(crate) gap: u64,
    /// How many pages it has, 1 to 512.
    pub(crate) count: u64,
    /// How many bytes its memory has more than it has bytes, 0 to 4,095.
    pub(crate) short: u64,
}

// Draws a segment's shape: three draws, in this order.
pub(crate) fn draw_shape(generator: &mut Generator) -> Shape
    ensures value { result ≡ shape_of generator.old.state }
    ensures state { generator.new.state ≡ third_state generator.old.state }
    ensures gap { result.gap < 64 }
    ensures some { 0 < result.count }
    ensures count { result.count ≤ 512 }
    ensures short { result.short < 4096 }
{
    let gap = generator.draw() % 64;
    let count = 1 + generator.draw() % 512;
    let short = generator.draw() % 4096;
    Shape { gap, count, short }
}

// Byte j of segment i.
fn byte_of(i: u64, j: u64) -> u8
    requires i { i < 16 }
    requires j { j < 2 ^ 21 }
    ensures { result ≡ byte_of i j }
{
    ((31 * i + 7 * j + j / 256) % 256) as u8
}

// The bytes of segment i, so many.
pub(crate) fn bytes_of(alloc: Global, i: u64, length: u64) -> Result<Vec<u8>, AllocError>
    requires i { i < 16 }
    requires length { length ≤ 2 ^ 21 }
    ensures { IfOk result (λ v. v.items ≡ bytes_of i length) }
{
    let mut bytes = Vec::new(alloc);
    bytes.reserve_exact(length as usize)?;
    for j in 0..length {
        bytes.push(byte_of(i, j))?;
    }
    Ok(bytes)
}

// Segment i of this shape, behind the pages before `next`.
fn segment_of(alloc: Global, i: u64, next: u64, shape: Shape) -> Result<Segment, AllocError>
    requires i { i < 16 }
    requires next { next < 2 ^ 32 }
    requires gap { shape.gap < 64 }
    requires some { 0 < shape.count }
    requires count { shape.count ≤ 512 }
    requires short { shape.short < 4096 }
    ensures { IfOk result (λ s. s ≡ segment_of i next shape) }
{
    let memsz = PAGE_SIZE * shape.count;
    Ok(Segment {
        bytes: bytes_of(alloc, i, memsz - shape.short)?,
        mem: PAGE_SIZE * (next + shape.gap),
        memsz,
    })
}

// Draws the segments. After i of them `next` is the page behind the last one, so it is at most
// 575 * i pages on.
fn draw_list(alloc: Global, number: u64) -> Result<Vec<Segment>, AllocError>
    ensures { IfOk result (λ v. v.items ≡ sample_segments number) }
{
    let mut generator = Generator { state: number };
    let mut next = FIRST_PAGE;
    let mut list = Vec::new(alloc);
    list.reserve_exact(SEGMENT_LIMIT)?;
    for i in 0..SEGMENT_LIMIT as u64 {
        let shape = draw_shape(&mut generator);
        list.push(segment_of(alloc, i, next, shape)?)?;
        next += shape.gap + shape.count;
    }
    Ok(list)
}

/// The sixteen segments that are drawn from the number. No rule refuses them.
pub(crate) fn sample_segments(alloc: Global, number: u64) -> Result<Segments, AllocError>
    ensures { IfOk result (λ s. s ≡ sample_segments number) }
{
    let list = draw_list(alloc, number)?;
    match Segments::bare(alloc, list) {
        Ok(segments) => Ok(segments),
        Err(fault) => match fault {
            SegFault::Memory => Err(AllocError),
            _ => unreachable!(),
        },
    }
}
