//! Which linked bytes are those of a field: a row of bits, one for each byte.
//!
//! A word of the row has the bits of 64 bytes, the first byte's lowest. The bytes of a field have theirs in one word or in
//! two: whether a field meets one of the earlier ones is told in the same few steps, however many there are.

ghost use Rattle.std.specs.Prelude.{◌≡◌, ℕ, List, [], ◌∷◌, ◌++◌, ◌+◌, ◌^◌, ◌<◌, ◌≤◌, ◌||◌, true, false, IfOk};
ghost use Rattle.purgatory_link.specs.declared.put.Put.{Put};
ghost use Rattle.purgatory_link.specs.Relocs.{meets};
ghost use Rattle.purgatory_link.specs.inner.Taken.{is_set, is_taken, is_among, room, AreTaken};

use crate::put::Put;
use std::alloc::{AllocError, Global};
use std::marker::Model;

/// Which linked bytes are taken, so that no later field may have them. Contracts see the list of the row's words.
#[derive(Drop)]
pub(crate) struct Taken {
    words: Vec<u64>,
}

impl Model for Taken {
    ghost use Rattle.std.specs.Prelude.{ℕ, List};

    ghost Value = { List ℕ };

    ghost view = { λ t. t.words.items };
}

// The bits of the `wide` bytes at this place, in the word whose lowest bit is that of the byte `first`.
fn mask(first: usize, at: usize, wide: usize) -> u64
    requires { at + wide < 2 ^ 64 }
    ensures { (i : ℕ) → i < 64 → is_set result i ≡ is_among at wide (first + i) }
{
    let low = at.saturating_sub(first).min(64);
    let high = (at + wide).saturating_sub(first).min(64);
    ((1_u128 << high) - (1_u128 << low)) as u64
}

// Whether one of the `wide` bytes at this place is taken.
fn any_is_taken(words: &[u64], at: usize, wide: usize) -> bool
    requires { at + wide < 2 ^ 64 }
    ensures some { result ≡ true
        → (k : ℕ) × (is_among at wide k ≡ true) × (is_taken words.now k ≡ true) }
    ensures none { result ≡ false
        → (k : ℕ) → is_among at wide k ≡ true → is_taken words.now k ≡ false }
{
    for index in at / 64..(at + wide).div_ceil(64) {
        if let Some(word) = words.get(index) {
            if word & mask(64 * index, at, wide) != 0 {
                return true;
            }
        }
    }
    false
}

// Marks the `wide` bytes at this place as taken.
fn mark(words: &mut [u64], at: usize, wide: usize)
    requires small { at + wide < 2 ^ 64 }
    requires within { at + wide ≤ room words.old }
    ensures { (k : ℕ) → is_taken words.new k ≡ (is_taken words.old k || is_among at wide k) }
{
    for index in at / 64..(at + wide).div_ceil(64) {
        words[index] |= mask(64 * index, at, wide);
    }
}

impl Taken {
    /// Room for `count` bytes, of which none is taken.
    pub(crate) fn new(alloc: Global, count: usize) -> Result<Taken, AllocError>
        ensures none { IfOk result (λ t. AreTaken [] t) }
        ensures room { IfOk result (λ t. count ≤ room t) }
    {
        Ok(Taken {
            words: vec![in alloc; 0; count.div_ceil(64)]?,
        })
    }

    /// Whether one of the `wide` bytes at this place is taken. Bytes past the room are not.
    pub(crate) fn meets(&self, at: usize, wide: usize) -> bool
        requires { at + wide < 2 ^ 64 }
        ensures { (puts : List Put) → AreTaken puts self.now → result ≡ meets at wide puts }
    {
        any_is_taken(&self.words, at, wide)
    }

    /// Takes the bytes of a field.
    pub(crate) fn add(&mut self, put: &Put)
        requires small { put.now.at + put.now.wide < 2 ^ 64 }
        requires within { put.now.at + put.now.wide ≤ room self.old }
        ensures taken { (puts : List Put) → AreTaken puts self.old
            → AreTaken (puts ++ put.now ∷ []) self.new }
        ensures room { room self.new ≡ room self.old }
    {
        mark(&mut self.words, put.at, put.wide);
    }
}
