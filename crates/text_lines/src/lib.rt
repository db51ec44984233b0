//! Lines of a text of bytes, a cut at a byte, and numbers.
//!
//! These serve the small text files of this project (the pool file, the file of notes) and the memory map that
//! the kernel shows as `/proc/iomem`. A text is bytes, which need not be UTF-8. It is a list of lines, each ended by a
//! newline; the last newline may be missing, and an empty text has no lines. A hexadecimal number is 1 to 16 digits
//! `0` to `9`, `a` to `f`, `A` to `F`, so that it always fits 64 bits; a decimal number is 1 to 9 digits `0` to `9`, so
//! that it always fits 32 bits (all this project's own rules). No call here takes memory, and each reads a byte once.
#![tactic(auto)]

ghost use Rattle.std.specs.Prelude.{◌≡◌, ◌+◌, ◌<◌, ◌≤◌, ◌^◌, ◌∷◌, [], drop, length, IfSome, IfNone, option_map, ◌==◌};
ghost use Rattle.std.specs.List.{position_or_len};
ghost use Rattle.text_lines.specs.Lines.{lines, cut, number, decimal, two_numbers, both, number_in, number_of};

mod reader;

pub use reader::{LineReader, read_lines};

/// The most digits of a hexadecimal number: 16 fit 64 bits.
const MOST_DIGITS: usize = 16;

/// The most digits of a decimal number: 9 fit 32 bits.
const MOST_DECIMAL_DIGITS: usize = 9;

/// The place of the first byte `at`, or the length where there is none.
fn place_of(bytes: &[u8], at: u8) -> usize
    ensures value { result ≡ position_or_len (λ b. b == at) bytes.now }
    ensures within { result ≤ length bytes.now }
{
    for (i, byte) in bytes.iter().enumerate() {
        if *byte == at {
            return i;
        }
    }
    bytes.len()
}

/// What stands before the first byte `at`, and what stands after it. None exactly where there is no such byte.
#[tactic(auto, unfolding(crate::specs::Lines::cut))]
pub fn cut(bytes: &[u8], at: u8) -> Option<(&[u8], &[u8])>
    ensures { option_map (λ r. (r.0.now, r.1.now)) result ≡ cut at bytes.now }
{
    let place = place_of(bytes, at);
    if place < bytes.len() {
        let (front, rest) = bytes.split_at(place);
        let (_, after) = rest.split_at(1);
        Some((front, after))
    } else {
        None
    }
}

/// The first line without its newline, and the text after that line. None exactly where the text has no line, that is
/// where it is empty.
pub fn next_line(text: &[u8]) -> Option<(&[u8], &[u8])>
    ensures none { IfNone result (lines text.now ≡ []) }
    ensures some { IfSome result (λ r. lines text.now ≡ r.0.now ∷ lines r.1.now) }
    ensures rest { IfSome result (λ r. r.1.now ≡ drop (length r.0.now + 1) text.now) }
    ensures shorter { IfSome result (λ r. length r.1.now < length text.now) }
{
    if text.is_empty() {
        return None;
    }
    let place = place_of(text, b'\n');
    let (line, rest) = text.split_at(place);
    if rest.is_empty() {
        return Some((line, rest));
    }
    let (_, after) = rest.split_at(1);
    Some((line, after))
}

/// The number that these 1 to 16 hexadecimal digits spell. None exactly where the text is anything else: empty,
/// longer, or with a byte that is no digit.
#[tactic(auto, unfolding(crate::specs::Lines::number))]
pub fn number(text: &[u8]) -> Option<u64>
    ensures { result ≡ number text.now }
{
    number_in(text, 16, MOST_DIGITS)
}

/// The number that these 1 to 9 decimal digits spell. None exactly where the text is anything else.
#[tactic(auto, unfolding(crate::specs::Lines::decimal))]
pub fn decimal(text: &[u8]) -> Option<u32>
    ensures { result ≡ decimal text.now }
{
    match number_in(text, 10, MOST_DECIMAL_DIGITS) {
        Some(value) => Some(value as u32),
        None => None,
    }
}

/// The two hexadecimal numbers of a line with one space between. None exactly where the line has another form.
#[tactic(auto, unfolding(crate::specs::Lines::two_numbers))]
pub fn two_numbers(line: &[u8]) -> Option<(u64, u64)>
    ensures { result ≡ two_numbers line.now }
{
    let (first, second) = cut(line, b' ')?;
    both(number(first), number(second))
}

/// Both numbers, where each is one.
pub fn both(first: Option<u64>, second: Option<u64>) -> Option<(u64, u64)>
    ensures { result ≡ both first second }
{
    match (first, second) {
        (Some(first), Some(second)) => Some((first, second)),
        _ => None,
    }
}

/// The number of 1 to `most` digits in this base. None exactly where the text is anything else.
fn number_in(text: &[u8], base: u32, most: usize) -> Option<u64>
    requires base { (2 ≤ base) × (base ≤ 36) }
    requires fits { base ^ most ≤ 2 ^ 64 }
    ensures value { result ≡ number_in base most text.now }
    ensures below { IfSome result (λ n. n < base ^ most) }
{
    if text.is_empty() || text.len() > most {
        None
    } else {
        digits(text, base, most)
    }
}

/// The number of at most `most` digits in this base. None exactly where a byte is no digit.
#[tactic(auto, unfolding(crate::specs::Lines::number_of))]
fn digits(text: &[u8], base: u32, most: usize) -> Option<u64>
    requires base { (2 ≤ base) × (base ≤ 36) }
    requires length { length text.now ≤ most }
    requires fits { base ^ most ≤ 2 ^ 64 }
    ensures value { result ≡ number_of base text.now }
    ensures below { IfSome result (λ n. n < base ^ most) }
{
    let mut value: u64 = 0;
    for b in text {
        match (*b as char).to_digit(base) {
            Some(digit) => value = value * base as u64 + digit as u64,
            None => return None,
        }
    }
    Some(value)
}
