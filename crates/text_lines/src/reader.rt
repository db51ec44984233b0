//! Readers of texts that take one line after another.

ghost use Rattle.std.specs.Prelude.{ℕ, List, Result, ◌+◌};
ghost use Rattle.kx_laws.specs.inner.Results.{Gives};
ghost use Rattle.text_lines.specs.Lines.{lines, lines_onto};

use crate::next_line;

/// What a text is read into, line by line.
pub trait LineReader {
    /// Why a line is refused, or that memory ran out.
    type Fault;

    /// What contracts see of what was read so far.
    ghost Value: { Type 0 };

    ghost value: { Self → Value };

    /// What the line of this number makes of it, or why the line is refused.
    ghost adds: { ℕ → Value → List ℕ → Result Value Self.Fault };

    /// The fault that says that memory ran out.
    ghost memory: { Self.Fault };

    /// Takes a line. Lines are numbered from 1.
    fn take_line(&mut self, line: u64, text: &[u8]) -> Result<(), Self::Fault>
        ensures { Gives memory (λ _. value self.new) result (adds line (value self.old) text.now) };
}

/// Reads the lines of a text, or as far as the first that is refused.
pub fn read_lines<R: LineReader>(text: &[u8], reader: &mut R) -> Result<(), R::Fault>
    ensures { Gives R.memory (λ _. R.value reader.new) result
        (lines_onto R.adds 1 (R.value reader.old) (lines text.now)) }
{
    let mut rest = text;
    let mut line = 1;
    while let Some((here, after)) = next_line(rest) {
        match reader.take_line(line, here) {
            Ok(()) => (),
            Err(fault) => return Err(fault),
        }
        rest = after;
        line += 1;
    }
    Ok(())
}
