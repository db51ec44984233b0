//! The parameter segment: the zero page, the command and a NUL, and behind them the rows that the page has no room for.

ghost use Rattle.std.specs.Prelude.{◌≡◌, ◌≤◌, ◌<◌, ◌+◌, ◌^◌, ◌==◌, ◌∷◌, ◌++◌, length, take, drop, position, IfOk};
ghost use Rattle.kx_laws.specs.Results.{unless};
ghost use Rattle.kx_laws.specs.inner.Results.{Gives};
ghost use Rattle.boot_params.specs.declared.fault.ParamsFault.TheVariants.{Memory};
ghost use Rattle.boot_params.specs.SetupData.{extension};
ghost use Rattle.boot_params.specs.Params.{params_fault, params, params_length};
ghost use Rattle.boot_params.specs.inner.Params.{HasNumbers, HasRows, HasHeader, IsZeroElsewhere, HasCommand, HasFill, HasRecord, HasMoreRows};

use crate::fault::ParamsFault;
use crate::setup_data::{length, put_extension};
use crate::zero_page::{ROWS_IN_PAGE, ZeroPage};
use bzimage::BzImage;
use memory_map::Row;
use std::alloc::{AllocError, Global};

/// How many rows are handed on (`E820_MAX_ENTRIES_ZEROPAGE`, and this project's own limit of 1,024 behind them).
const MOST_ROWS: usize = 1152;

// The place of the first NUL.
fn first_nul(command: &[u8]) -> Option<usize>
    ensures { result ≡ position (λ b. b == 0) command.now }
{
    command.iter().position(|b| *b == 0)
}

// Tests rows and command.
#[tactic(auto, unfolding(crate::specs::Params::params_fault))]
fn test(image: &BzImage, rows: &[Row], command: &[u8]) -> Result<(), ParamsFault>
    ensures { result ≡ unless (params_fault image.now rows.now command.now) }
{
    if rows.len() > MOST_ROWS {
        return Err(ParamsFault::TooManyRanges {
            rows: rows.len() as u64,
        });
    }
    if command.len() as u64 > image.command_most {
        return Err(ParamsFault::CommandTooLong {
            length: command.len() as u64,
            most: image.command_most,
        });
    }
    match first_nul(command) {
        Some(at) => Err(ParamsFault::NulInCommand { at: at as u64 }),
        None => Ok(()),
    }
}

// The rows that the zero page has room for.
#[tactic(auto, using(std::proofs::lemmas::List::take_min))]
fn rows_in_page(rows: &[Row]) -> &[Row]
    ensures { result.now ≡ take 128 rows.now }
{
    rows.split_at(ROWS_IN_PAGE.min(rows.len())).0
}

// The rows that are left.
#[tactic(auto, using(std::proofs::lemmas::List::drop_min))]
fn rows_behind(rows: &[Row]) -> &[Row]
    ensures { result.now ≡ drop 128 rows.now }
{
    rows.split_at(ROWS_IN_PAGE.min(rows.len())).1
}

// The zero page, the command and a NUL, and the rows that are left, in a buffer of just this length.
fn behind_one_another(
    alloc: Global,
    page: &[u8],
    command: &[u8],
    rows: &[Row],
) -> Result<Vec<u8>, AllocError>
    requires few { length rows.now ≤ 1152 }
    ensures { IfOk result (λ v. v.items
        ≡ page.now ++ (command.now ++ 0 ∷ extension (length command.now) (drop 128 rows.now))) }
{
    let mut out = Vec::with_capacity(alloc, length(rows.len(), command.len()) as usize)?;
    out.extend_from_slice(page)?;
    out.extend_from_slice(command)?;
    out.push(0)?;
    put_extension(&mut out, command.len(), rows_behind(rows))?;
    Ok(out)
}

/// The boot parameters of a kernel that was read: the zero page for the address `at`, with the first 128 of these rows as
/// the memory map, and behind it the command and a NUL. An initrd is told by its address and its length. Where there are
/// more rows, zeros follow up to a multiple of 8, and then the others in a record that extends the memory map (Linux/x86
/// boot protocol, `setup_data`; SETUP_E820_EXT).
///
/// It is TooManyRanges where there are more than 1,152 rows, CommandTooLong where the command has more bytes than the kernel
/// takes, and NulInCommand where it has a NUL, in this order. Memory comes only where memory ran out.
pub fn make(
    alloc: Global,
    image: &BzImage,
    rows: &[Row],
    command: &[u8],
    at: u64,
    initrd: Option<(u64, u64)>,
) -> Result<Vec<u8>, ParamsFault>
    requires header { length image.now.header ≤ 159 }
    requires place { at + 4096 < 2 ^ 46 }
    // The zero page, the command and a NUL, and the rows that are left, or the first fault.
    ensures exact { Gives Memory (λ v. v.items) result
        (params image.now rows.now command.now at initrd) }
    ensures length { IfOk result
        (λ v. length v.items ≡ params_length (length rows.now) (length command.now)) }
    // Field by field.
    ensures numbers { IfOk result (λ v. HasNumbers rows.now command.now at initrd v.items) }
    ensures rows { IfOk result (λ v. HasRows rows.now v.items) }
    ensures header { IfOk result (λ v. HasHeader image.now.header v.items) }
    // All else in the zero page is zero.
    ensures zeros { IfOk result (λ v. IsZeroElsewhere image.now.header rows.now v.items) }
    ensures command { IfOk result (λ v. HasCommand command.now v.items) }
    // What follows where the zero page has no room for all rows.
    ensures fill { IfOk result (λ v. HasFill rows.now command.now v.items) }
    ensures record_head { IfOk result (λ v. HasRecord rows.now command.now v.items) }
    ensures more_rows { IfOk result (λ v. HasMoreRows rows.now command.now v.items) }
{
    match test(image, rows, command) {
        Ok(()) => {}
        Err(fault) => return Err(fault),
    }
    let numbers = ZeroPage::new(rows.len(), command.len(), at, initrd);
    let page = numbers.page(&image.header, rows_in_page(rows));
    let segment = behind_one_another(alloc, page.bytes(), command, rows)?;
    Ok(segment)
}
