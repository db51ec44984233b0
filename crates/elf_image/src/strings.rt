//! String tables.

ghost use Rattle.std.specs.Prelude.{◌≡◌, ◌<◌, ◌==◌, length, drop, position, IfOk, IfSome};
ghost use Rattle.std.specs.Str.{bytes_eq};
ghost use Rattle.elf_image.specs.inner.Symbol.{up_to_nul, text_at, IsToLastNul};

use std::alloc::{AllocError, Global};
use std::marker::Model;

/// A string table (ELF gABI, chapter 4, "String Table"): texts, a NUL behind each. A text is told by the place of its
/// first byte, and stays in the table: texts may share their bytes, and those of a table of n bytes may have n * n bytes
/// when each is written out.
#[derive(Drop)]
pub struct StringTable {
    bytes: Vec<u8>,
}

impl Model for StringTable {
    ghost use Rattle.std.specs.Prelude.{ℕ, List};

    ghost Value = { List ℕ };

    ghost view = { λ t. t.bytes.items };
}

// The place of the first NUL. It is looked for up to there, and no further.
fn first_nul(bytes: &[u8]) -> Option<usize>
    ensures value { result ≡ position (λ b. b == 0) bytes.now }
    ensures within { IfSome result (λ n. n < length bytes.now) }
{
    bytes.iter().position(|b| *b == 0)
}

// The bytes up to the first NUL, or all where there is none.
fn up_to_nul(bytes: &[u8]) -> &[u8]
    ensures { result.now ≡ up_to_nul bytes.now }
{
    match first_nul(bytes) {
        Some(length) => bytes.split_at(length).0,
        None => bytes,
    }
}

// The bytes from this place on, none where it lies behind them.
fn from_place(bytes: &[u8], start: u32) -> &[u8]
    ensures { result.now ≡ drop start bytes.now }
{
    bytes.split_at((start as usize).min(bytes.len())).1
}

impl StringTable {
    /// The table that has these bytes.
    pub fn new(bytes: Vec<u8>) -> StringTable
        ensures { result ≡ bytes.items }
    {
        StringTable { bytes }
    }

    /// The same table once more.
    pub fn copy(&self, alloc: Global) -> Result<StringTable, AllocError>
        ensures { IfOk result (λ t. t ≡ self.now) }
    {
        Ok(StringTable::new(self.bytes.to_vec(alloc)?))
    }

    /// The text that starts at this place: the bytes up to the next NUL, or up to the end of the table.
    pub fn text(&self, start: u32) -> &[u8]
        ensures { result.now ≡ text_at self.now start }
    {
        up_to_nul(from_place(&self.bytes, start))
    }

    /// Whether this is the text that starts at this place. No more bytes of the table are read than the text has, and one
    /// behind them.
    pub fn has_text(&self, start: u32, text: &[u8]) -> bool
        ensures { result ≡ bytes_eq (text_at self.now start) text.now }
    {
        let behind = from_place(&self.bytes, start);
        let (front, _) = behind.split_at(behind.len().min(text.len() + 1));
        up_to_nul(front) == text
    }
}

/// How many bytes of a string table there are up to its last NUL, this one among them: the texts that start there have an
/// end, and no others have.
pub(crate) fn length_to_last_nul(bytes: &[u8]) -> usize
    ensures { IsToLastNul bytes.now result }
{
    let mut length = bytes.len();
    while length > 0 && bytes[length - 1] != 0 {
        length -= 1;
    }
    length
}
