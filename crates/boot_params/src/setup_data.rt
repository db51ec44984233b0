//! The setup_data record of the rows that the zero page has no room for.

ghost use Rattle.std.specs.Prelude.{◌≡◌, ◌≤◌, ◌-◌, ◌^◌, ◌++◌, length, min, OnOk};
ghost use Rattle.std.specs.List.{flat_map};
ghost use Rattle.kx_fields.specs.Fields.{zeros};
ghost use Rattle.boot_params.specs.ZeroPage.{row_text};
ghost use Rattle.boot_params.specs.SetupData.{head_text, head_of, nul_end, record_place, extension};
ghost use Rattle.boot_params.specs.Params.{params_length};

use crate::zero_page::{ROW_SIZE, ROWS_IN_PAGE, SIZE, row_block};
use kx_fields::Block;
use memory_map::Row;
use std::alloc::AllocError;

/// The type of a record that extends the memory map.
const SETUP_E820_EXT: u32 = 1;

/// How many bytes a record's head has.
const HEAD_SIZE: usize = 16;

/// What a record's place is a multiple of.
const ALIGN: usize = 8;

/// The head of a record, with the protocol's names; `kind` is its `type`.
#[derive(Clone, Copy)]
pub(crate) struct SetupHead {
    pub(crate) next: u64,
    pub(crate) kind: u32,
    pub(crate) len: u32,
}

// The places in the head.
macro_rules! setup_head {
    ($($use:tt)*) => {
        kx_fields::fields!($($use)* {
            next: u64 @ 0,
            kind: u32 @ 8,
            len: u32 @ 12,
        })
    };
}

impl SetupHead {
    // The head of the only record, with so many rows.
    fn new(rows: usize) -> SetupHead
        requires { rows ≤ 1024 }
        ensures { result ≡ head_of rows }
    {
        SetupHead {
            next: 0,
            kind: SETUP_E820_EXT,
            len: (ROW_SIZE * rows) as u32,
        }
    }

    // The bytes of the head.
    #[tactic(auto, unfolding(crate::specs::SetupData::head_text))]
    fn block(self) -> Block<16>
        ensures { result ≡ head_text self }
    {
        let mut block = Block::zeros();
        setup_head!(put block, self);
        block
    }
}

// Where a command of so many bytes behind the zero page, and its NUL, end.
fn nul_end(command: usize) -> u128
    ensures { result ≡ nul_end command }
{
    SIZE as u128 + command as u128 + 1
}

/// Where the record stands behind a command of so many bytes: at the first multiple of 8 behind the NUL.
pub(crate) fn record_place(command: usize) -> u128
    ensures { result ≡ record_place command }
{
    let align = ALIGN as u128;
    (nul_end(command) + (align - 1)) / align * align
}

/// How many bytes the boot parameters have with so many rows and a command of so many bytes, also where [`make`](crate::make)
/// refuses, or 2^64 - 1 where this is more. It takes no memory.
#[tactic(auto, unfolding(crate::specs::Params::params_length))]
pub fn length(rows: usize, command: usize) -> u64
    ensures { result ≡ min (2 ^ 64 - 1) (params_length rows command) }
{
    let all = if rows > ROWS_IN_PAGE {
        let more = (rows - ROWS_IN_PAGE) as u128;
        record_place(command) + HEAD_SIZE as u128 + ROW_SIZE as u128 * more
    } else {
        nul_end(command)
    };
    all.min(u128::from(u64::MAX)) as u64
}

// Puts these rows behind the others.
fn put_rows(out: &mut Vec<u8>, rows: &[Row]) -> Result<(), AllocError>
    ensures { OnOk result (out.new.items ≡ out.old.items ++ flat_map row_text rows.now) }
{
    for row in rows {
        out.extend_from_slice(row_block(*row).bytes())?;
    }
    Ok(())
}

// Puts zeros behind the NUL, up to the record's place.
#[tactic(auto, using(crate::proofs::Behind::fill_taken))]
fn put_fill(out: &mut Vec<u8>, command: usize) -> Result<(), AllocError>
    ensures { OnOk result
        (out.new.items ≡ out.old.items ++ zeros (record_place command - nul_end command)) }
{
    let fill = (record_place(command) - nul_end(command)) as usize;
    out.extend_from_slice(&[0; ALIGN][..fill])?;
    Ok(())
}

/// Puts zeros and the record of these rows behind zero page, command and NUL, where there are rows.
pub(crate) fn put_extension(
    out: &mut Vec<u8>,
    command: usize,
    rows: &[Row],
) -> Result<(), AllocError>
    requires few { length rows.now ≤ 1024 }
    ensures { OnOk result (out.new.items ≡ out.old.items ++ extension command rows.now) }
{
    if rows.is_empty() {
        return Ok(());
    }
    put_fill(out, command)?;
    out.extend_from_slice(SetupHead::new(rows.len()).block().bytes())?;
    put_rows(out, rows)?;
    Ok(())
}
