//! The rows and crash areas of a text, line by line.

ghost use Rattle.std.specs.Prelude.{◌≡◌, List, ◌+◌, ◌++◌, ◌∷◌, ◌<◌, [], true, false, OnOk, IfOk};
ghost use Rattle.kx_laws.specs.inner.Results.{Gives};
ghost use Rattle.text_lines.specs.Lines.{lines};
ghost use Rattle.range_index.specs.inner.Ranges.{meets_any};
ghost use Rattle.memory_map.specs.declared.fault.MapFault.TheVariants as faults;
ghost use Rattle.memory_map.specs.declared.row.Row.{Row};
ghost use Rattle.memory_map.specs.inner.Index.{range_of, IsIndex};
ghost use Rattle.memory_map.specs.Rows.{is_ram_row};
ghost use Rattle.memory_map.specs.inner.Rows.{IsBelow};
ghost use Rattle.memory_map.specs.Text.{meets_ram, row_onto, line_onto, lines_onto};

use crate::fault::MapFault;
use crate::line::checked_entry;
use crate::row::{Class, Row, below_limit};
use range_index::RangeIndex;
use std::alloc::{AllocError, Global};
use text_lines::next_line;

/// The rows and the crash areas so far in the text's order, and an index of the System RAM rows.
#[derive(Drop)]
pub(crate) struct Reader {
    pub(crate) rows: Vec<Row>,
    pub(crate) areas: Vec<Row>,
    pub(crate) ram: RangeIndex,
}

/// Puts a row of System RAM into the index.
fn index_row(ram: &mut RangeIndex, row: Row) -> Result<(), AllocError>
    requires some { 0 < row.size }
    requires below { IsBelow row }
    requires apart { is_ram_row row ≡ true → meets_any (range_of row) ram.old ≡ false }
    ensures { OnOk result ((rows : List Row) → IsIndex rows ram.old
        → IsIndex (rows ++ row ∷ []) ram.new) }
{
    if row.kind != 1 {
        return Ok(());
    }
    ram.add(row.start, row.start + row.size)?;
    Ok(())
}

impl Reader {
    ghost use Rattle.memory_map.specs.Maps.{nothing, with_row};
    ghost use Rattle.memory_map.specs.inner.Reader.{IsReader, map_value_of};

    fn new(alloc: Global) -> Reader
        ensures value { map_value_of result ≡ nothing }
        ensures valid { IsReader result }
    {
        Reader {
            rows: Vec::new(alloc),
            areas: Vec::new(alloc),
            ram: RangeIndex::new(alloc),
        }
    }

    /// Whether the row has a byte of an earlier System RAM row.
    fn meets_ram(&self, row: Row) -> bool
        requires reader { IsReader self.now }
        requires row { IsBelow row }
        ensures { result ≡ meets_ram row self.now.rows.items }
    {
        self.ram.meets(row.start, row.start + row.size)
    }

    /// Puts a row behind the others. A row of System RAM meets no earlier one.
    fn push_row(&mut self, row: Row) -> Result<(), AllocError>
        requires reader { IsReader self.old }
        requires some { 0 < row.size }
        requires row { IsBelow row }
        requires apart { is_ram_row row ≡ true → meets_ram row self.old.rows.items ≡ false }
        ensures value { OnOk result (map_value_of self.new ≡ with_row row (map_value_of self.old)) }
        ensures valid { OnOk result (IsReader self.new) }
    {
        index_row(&mut self.ram, row)?;
        self.rows.push(row)?;
        Ok(())
    }

    /// Puts the row of the line of this number behind the others, where it has bytes.
    fn add_row(&mut self, line: u64, row: Row) -> Result<(), MapFault>
        requires reader { IsReader self.old }
        requires row { IsBelow row }
        ensures exact { Gives faults.Memory (λ _. map_value_of self.new) result
            (row_onto line (map_value_of self.old) row) }
        ensures valid { OnOk result (IsReader self.new) }
    {
        if row.size == 0 {
            return Ok(());
        }
        if row.kind == 1 && self.meets_ram(row) {
            return Err(MapFault::RamOverlaps { line });
        }
        self.push_row(row)?;
        Ok(())
    }

    /// Takes in the line of this number.
    #[tactic(auto, unfolding(crate::specs::Text::line_onto))]
    fn add_line(&mut self, line: u64, text: &[u8]) -> Result<(), MapFault>
        requires { IsReader self.old }
        ensures exact { Gives faults.Memory (λ _. map_value_of self.new) result
            (line_onto line (map_value_of self.old) text.now) }
        ensures valid { OnOk result (IsReader self.new) }
    {
        let (first, last, class) = match checked_entry(line, text) {
            Ok(entry) => entry,
            Err(fault) => return Err(fault),
        };
        match class {
            Class::Other => Ok(()),
            Class::CrashArea => {
                self.areas.push(below_limit(first, last, 0))?;
                Ok(())
            }
            Class::Listed { kind } => self.add_row(line, below_limit(first, last, kind)),
        }
    }

    /// What the lines of a text say, or the first fault of a line.
    pub(crate) fn read(alloc: Global, text: &[u8]) -> Result<Reader, MapFault>
        ensures exact { Gives faults.Memory (λ r. map_value_of r) result
            (lines_onto 1 nothing (lines text.now)) }
        ensures valid { IfOk result (λ r. IsReader r) }
    {
        let mut reader = Reader::new(alloc);
        let mut rest = text;
        let mut line = 1;
        while let Some((here, after)) = next_line(rest) {
            match reader.add_line(line, here) {
                Ok(()) => (),
                Err(fault) => return Err(fault),
            }
            rest = after;
            line += 1;
        }
        Ok(reader)
    }
}
