//! The memory map of a running kernel, as `/proc/iomem` shows it.
//!
//! A line is any number of spaces, the first and the last byte of a range in hexadecimal with `-` between, ` : `, and
//! a name. System RAM is what a new kernel can be put into; firmware's ranges and a crash kernel's area are taken out
//! of it. The names are those that Linux writes, and the kinds of rows are the E820 types of the Linux/x86 boot
//! protocol. Bytes at 2^46 and above are passed over (this project's own limit).
#![tactic(auto)]

ghost use Rattle.std.specs.Prelude.{◌≡◌, ◌↔◌, ℕ, ◌/◌, ◌&&◌, not, filter, IsTrue, List, Some, Ok};
ghost use Rattle.kx_laws.specs.inner.Results.{Gives};
ghost use Rattle.kx_pages.specs.Spans.{in_spans};
ghost use Rattle.memory_map.specs.declared.row.Row.{Row};
ghost use Rattle.memory_map.specs.Rows.{is_inside, rows_meet, holds_page, meets_page, is_ram_row};
ghost use Rattle.memory_map.specs.inner.Rows.{covers, AreBelow, AreListed};
ghost use Rattle.memory_map.specs.Maps.{MapValue, is_ram, reserved_area, crash_rows, core_ranges};
ghost use Rattle.memory_map.specs.Text.{map_reading, entry_of};
ghost use Rattle.memory_map.specs.inner.Grammar.{IsEntry};
ghost use Rattle.memory_map.specs.declared.row.Class.{Class};
ghost use Rattle.memory_map.specs.declared.fault.MapFault.TheVariants as faults;

mod fault;
mod line;
mod pages;
mod ranges;
mod reader;
mod row;

pub use fault::MapFault;
use kx_pages::{PageSet, Span};
use reader::Reader;
pub use row::Row;
use std::alloc::Global;
use std::marker::Model;

/// A memory map that has RAM. Contracts see its rows and its crash areas, in the text's order.
#[derive(Drop)]
pub struct Map {
    rows: Vec<Row>,
    areas: Vec<Row>,
    ram: PageSet,
    crash_rows: Vec<Row>,
    core_ranges: Vec<Row>,
}

impl Model for Map {
    ghost use Rattle.memory_map.specs.Maps.{MapValue};
    ghost use Rattle.memory_map.specs.inner.Maps.{IsMap};

    ghost Value = { MapValue };

    ghost view = { λ m. record { rows = m.rows.items; areas = m.areas.items } };

    ghost invariant = { λ m. IsMap (record { rows = m.rows.items; areas = m.areas.items })
        m.ram m.crash_rows.items m.core_ranges.items };
}

impl Map {
    /// The map of a text, or its first fault.
    ///
    /// Line after line it is BadLine where the line has not the form of a map line, Backwards where its last byte is
    /// below its first, RamOverlaps where its System RAM meets that of an earlier line; after all lines NoRam where
    /// no page is RAM. Memory comes only where memory ran out.
    #[tactic(auto, unfolding(crate::specs::Text::map_reading))]
    pub fn read(alloc: Global, text: &[u8]) -> Result<Map, MapFault>
        ensures { Gives faults.Memory (λ m. m) result (map_reading text.now) }
    {
        let Reader { rows, areas, .. } = match Reader::read(alloc, text) {
            Ok(reader) => reader,
            Err(fault) => return Err(fault),
        };
        let ram = pages::ram_pages(alloc, &rows, &areas)?;
        if ram.total() == 0 {
            return Err(MapFault::NoRam);
        }
        let crash_rows = ranges::crash_rows(alloc, pages::reserved_area(&areas), &rows)?;
        let core_ranges = ranges::core_ranges(alloc, &rows, &areas)?;
        Ok(Map {
            rows,
            areas,
            ram,
            crash_rows,
            core_ranges,
        })
    }

    /// The pages that a new kernel can use: they lie wholly in one System RAM range and meet no range of kind 2, 3 or
    /// 4 nor a crash area.
    pub fn ram(&self) -> &PageSet
        ensures { (p : ℕ) → in_spans result.now p ≡ is_ram self.now p }
    {
        &self.ram
    }

    /// The whole pages inside the last `Crash kernel` line. None exactly where there is no such line or no whole page
    /// in it.
    pub fn reserved_area(&self) -> Option<Span>
        ensures { result ≡ reserved_area self.now }
    {
        pages::reserved_area(&self.areas)
    }

    /// The rows of a normal load: one a line with a kind, in the text's order.
    pub fn rows(&self) -> &[Row]
        ensures value { result.now ≡ self.now.rows }
        ensures below { AreBelow result.now }
    {
        &self.rows
    }

    /// The rows of a crash load: the reserved area as RAM where there is one, then the rows of kinds 2, 3 and 4.
    pub fn crash_rows(&self) -> &[Row]
        ensures value { result.now ≡ crash_rows self.now }
        ensures below { AreBelow result.now }
    {
        &self.crash_rows
    }

    /// The System RAM outside all crash areas, as ranges that are as long as they can be within one line, in the
    /// text's order.
    pub fn core_ranges(&self) -> &[Row]
        ensures value { result.now ≡ core_ranges self.now }
        ensures bytes { (b : ℕ) → covers b result.now
            ≡ (covers b (filter (λ r. is_ram_row r) self.now.rows)
            && not (covers b self.now.areas)) }
        ensures below { AreBelow result.now }
    {
        &self.core_ranges
    }
}

/// What the tests of rows and pages in the contracts say of single bytes, where page `p` has the bytes `b` with
/// `b / 4096` equal to `p`.
pub fn tests_speak_of_bytes()
    ensures holds { (r : Row) (p : ℕ) → IsTrue (holds_page p r)
        ↔ ((b : ℕ) → b / 4096 ≡ p → IsTrue (is_inside b r)) }
    ensures meets { (r : Row) (p : ℕ) → IsTrue (meets_page p r)
        ↔ ((b : ℕ) × (b / 4096 ≡ p) × IsTrue (is_inside b r)) }
    ensures rows { (r s : Row) → IsTrue (rows_meet r s)
        ↔ ((b : ℕ) × IsTrue (is_inside b r) × IsTrue (is_inside b s)) }
{}

/// A line reads as a first and a last byte and what its name says exactly where it has the form of a map line: spaces, a
/// number, `-`, a number, ` : ` and the name.
pub fn entries_are_map_lines()
    ensures { (line : List ℕ) (first last : ℕ) (class : Class)
        → (entry_of line ≡ Some (first, last, class)) ↔ IsEntry line first last class }
{}

/// Each row of a map that was read ends at 2^46 or before, and is of a kind that a name gives: so its numbers fit a struct
/// boot_e820_entry of the Linux/x86 boot protocol.
pub fn rows_are_listed()
    ensures { (text : List ℕ) (m : MapValue) → map_reading text ≡ Ok m → AreListed m.rows }
{}
