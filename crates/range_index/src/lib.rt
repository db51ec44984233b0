//! Ranges of numbers of which no two meet, found by their starts: whether a further range meets one of them is told in
//! the time of a look-up in an ordered map, however many there are.
//!
//! A [`RangeIndex`] is seen as the list of its ranges, each a pair of its first number and the number behind its last.
//! All of this is this project's own.
#![tactic(auto)]

mod index;

pub use index::RangeIndex;
