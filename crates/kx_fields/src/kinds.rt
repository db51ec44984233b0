//! A field of each kind that a table can have, none at the front of its block: the lines of [`fields!`](crate::fields)
//! are proved here to read and to write the numbers of their kind at their place.

ghost use Rattle.std.specs.Prelude.{◌≡◌, ◌<◌, ◌^◌};
ghost use Rattle.kx_fields.specs.Formats.{read, written};
ghost use Rattle.kx_fields.specs.inner.Kinds.{kinds};

use crate::{Block, fields};

/// A number of each kind.
#[derive(Clone, Copy)]
pub struct Kinds {
    pub one: u8,
    pub two: u16,
    pub four: u32,
    pub eight: u64,
    pub signed: i64,
    pub two_of_four: u32,
    pub four_of_eight: u64,
}

macro_rules! kinds {
    ($($use:tt)*) => {
        fields!($($use)* {
            one: u8 @ 1,
            two: u16 @ 2,
            four: u32 @ 4,
            eight: u64 @ 8,
            signed: i64 @ 16,
            two_of_four: u16 as u32 @ 24,
            four_of_eight: u32 as u64 @ 28,
        })
    };
}

impl Kinds {
    /// The numbers that a block has.
    pub fn read(block: &Block<32>) -> Kinds
        ensures { result ≡ read kinds block.now }
    {
        kinds!(get block, Kinds)
    }

    /// Puts the numbers into a block.
    pub fn write(self, block: &mut Block<32>)
        requires two { self.two_of_four < 2 ^ 16 }
        requires four { self.four_of_eight < 2 ^ 32 }
        ensures { block.new ≡ written kinds self block.old }
    {
        kinds!(put block, self);
    }
}
