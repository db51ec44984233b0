//! The memory map, and how much memory it tells below and above 1 MiB.

ghost use Rattle.std.specs.Prelude.{◌≡◌, ◌++◌, OnOk};
ghost use Rattle.multiboot_image.specs.MapRows.{is_low, is_high, kib, mem_lower, mem_upper, map_row_of, row_text, map_text};

use kx_fields::Block;
use memory_map::Row;
use std::alloc::AllocError;

/// 1 MiB, where upper memory begins.
const UPPER: u64 = 0x10_0000;

/// A row of the map. Its size does not count itself.
#[derive(Clone, Copy)]
pub(crate) struct MapRow {
    pub(crate) size: u32,
    pub(crate) base_addr: u64,
    pub(crate) length: u64,
    pub(crate) kind: u32,
}

macro_rules! map_row {
    ($($use:tt)*) => {
        kx_fields::fields!($($use)* {
            size: u32 @ 0,
            base_addr: u64 @ 4,
            length: u64 @ 12,
            kind: u32 @ 20,
        })
    };
}

impl MapRow {
    /// The row of the map that a row is.
    fn of_row(row: Row) -> MapRow
        ensures { result ≡ map_row_of row }
    {
        MapRow {
            size: 20,
            base_addr: row.start,
            length: row.size,
            kind: row.kind,
        }
    }

    #[tactic(auto, unfolding(crate::specs::MapRows::row_text))]
    fn block(self) -> Block<24>
        ensures { result ≡ row_text self }
    {
        let mut block = Block::zeros();
        map_row!(put block, self);
        block
    }
}

/// It is RAM that begins below 1 MiB.
fn is_low(row: &Row) -> bool
    ensures { result ≡ is_low row.now }
{
    row.kind == 1 && row.start < UPPER
}

/// It is RAM that holds the byte at 1 MiB.
fn is_high(row: &Row) -> bool
    ensures { result ≡ is_high row.now }
{
    row.kind == 1
        && row.start <= UPPER
        && u128::from(UPPER) < u128::from(row.start) + u128::from(row.size)
}

/// How many KiB a row reaches above `base`, at most so many.
fn kib(row: Row, base: u64, most: u32) -> u32
    ensures { result ≡ kib row base most }
{
    let end = u128::from(row.start) + u128::from(row.size);
    (end.saturating_sub(u128::from(base)) / 1024).min(u128::from(most)) as u32
}

/// How many KiB of lower memory there are.
pub(crate) fn mem_lower(rows: &[Row]) -> u32
    ensures { result ≡ mem_lower rows.now }
{
    for row in rows {
        if is_low(row) {
            return kib(*row, 0, 640);
        }
    }
    0
}

/// How many KiB of upper memory there are.
pub(crate) fn mem_upper(rows: &[Row]) -> u32
    ensures { result ≡ mem_upper rows.now }
{
    for row in rows {
        if is_high(row) {
            return kib(*row, UPPER, u32::MAX);
        }
    }
    0
}

/// Puts the rows of the map behind the others.
pub(crate) fn put_rows(out: &mut Vec<u8>, rows: &[Row]) -> Result<(), AllocError>
    ensures { OnOk result (out.new.items ≡ out.old.items ++ map_text rows.now) }
{
    for row in rows {
        out.extend_from_slice(MapRow::of_row(*row).block().bytes())?;
    }
    Ok(())
}
