//! The numbers of a line.

/// What the numbers of a line are: of so many bytes, behind the number that was laid last.
#[derive(Clone, Copy)]
pub(crate) enum Width {
    Unsaid,
    Hex,
    Bytes(usize, Option<u64>),
}

pub(crate) fn width_of(word: &str) -> Option<Width> {
    match word {
        "hex" => Some(Width::Hex),
        "u8" => Some(Width::Bytes(1, None)),
        "u16" => Some(Width::Bytes(2, None)),
        "u32" => Some(Width::Bytes(4, None)),
        "u64" => Some(Width::Bytes(8, None)),
        _ => None,
    }
}

/// Whether a number fits so many bytes.
pub(crate) fn fits(number: u64, width: usize) -> bool {
    number
        .to_le_bytes()
        .iter()
        .skip(width)
        .all(|byte| *byte == 0)
}

/// How many numbers of a run stand behind its first: the last of them is this one at most. A run without a step has none.
pub(crate) fn count_of(first: u64, last: u64, step: u64) -> u64 {
    last.saturating_sub(first).checked_div(step).unwrap_or(0)
}
