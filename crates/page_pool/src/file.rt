//! The pool file: a page number, or the first and the last page of a range, a line.

ghost use Rattle.std.specs.Prelude.{◌≡◌, ◌<◌, ◌≤◌, ◌+◌, ◌++◌, ◌^◌, length, OnOk, IfOk, []};
ghost use Rattle.std.specs.List.{range_with_len};
ghost use Rattle.kx_laws.specs.inner.Results.{Gives};
ghost use Rattle.text_lines.specs.Lines.{lines};
ghost use Rattle.page_pool.specs.declared.fault.PoolFault.TheVariants as faults;
ghost use Rattle.page_pool.specs.Pages.{pool_page_limit};
ghost use Rattle.page_pool.specs.File.{range_of, checked_range, line_onto, pages_onto};

use crate::POOL_PAGE_LIMIT;
use crate::fault::PoolFault;
use kx_pages::{PAGE_LIMIT, Page};
use std::alloc::{AllocError, Global};
use text_lines::{both, cut, next_line, number};

/// The first and the last page that a line names. None where it has not the form of a pool line.
#[tactic(auto, unfolding(crate::specs::File::range_of))]
fn range_of(line: &[u8]) -> Option<(u64, u64)>
    ensures { result ≡ range_of line.now }
{
    match cut(line, b'-') {
        Some((first, last)) => both(number(first), number(last)),
        None => {
            let page = number(line);
            both(page, page)
        }
    }
}

/// The first and the last page of the line of this number, or its first fault.
#[tactic(auto, unfolding(crate::specs::File::checked_range))]
fn checked_range(line: u64, text: &[u8]) -> Result<(u64, u64), PoolFault>
    ensures exact { result ≡ checked_range line text.now }
    ensures order { IfOk result (λ r. r.0 ≤ r.1) }
    ensures limit { IfOk result (λ r. r.1 < 2 ^ 34) }
{
    match range_of(text) {
        None => Err(PoolFault::BadLine { line }),
        Some((first, last)) => {
            if last < first {
                Err(PoolFault::Backwards { line })
            } else if last >= PAGE_LIMIT {
                Err(PoolFault::PastLimit { line })
            } else {
                Ok((first, last))
            }
        }
    }
}

/// Adds `count` pages from page `first` on.
fn add_range(pages: &mut Vec<Page>, first: u64, count: u64) -> Result<(), AllocError>
    requires { first + count ≤ 2 ^ 34 }
    ensures { OnOk result (pages.new.items
        ≡ pages.old.items ++ range_with_len first count) }
{
    pages.reserve(count as usize)?;
    for i in 0..count {
        pages.push(Page::from_number(first + i))?;
    }
    Ok(())
}

/// Adds the pages of the line of this number.
#[tactic(auto, unfolding(crate::specs::File::line_onto))]
fn add_line(pages: &mut Vec<Page>, line: u64, text: &[u8]) -> Result<(), PoolFault>
    requires { length pages.old.items ≤ pool_page_limit }
    ensures exact { Gives faults.Memory (λ _. pages.new.items) result
        (line_onto line pages.old.items text.now) }
    ensures few { OnOk result (length pages.new.items ≤ pool_page_limit) }
{
    let (first, last) = match checked_range(line, text) {
        Ok(range) => range,
        Err(e) => return Err(e),
    };
    let count = last + 1 - first;
    if pages.len() as u64 + count > POOL_PAGE_LIMIT {
        return Err(PoolFault::TooMany { line });
    }
    add_range(pages, first, count)?;
    Ok(())
}

/// The pages of all lines in their order, or the fault of the first line that has one.
pub(crate) fn pages_of(alloc: Global, text: &[u8]) -> Result<Vec<Page>, PoolFault>
    ensures exact { Gives faults.Memory (λ v. v.items) result (pages_onto 1 [] (lines text.now)) }
    ensures few { IfOk result (λ v. length v.items ≤ pool_page_limit) }
{
    let mut pages = Vec::new(alloc);
    let mut rest = text;
    let mut line = 1;
    while let Some((here, after)) = next_line(rest) {
        match add_line(&mut pages, line, here) {
            Ok(()) => (),
            Err(e) => return Err(e),
        }
        rest = after;
        line += 1;
    }
    Ok(pages)
}
