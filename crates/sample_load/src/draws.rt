//! Draws from a number.

ghost use Rattle.std.specs.Prelude.{◌≡◌, ◌<◌, ◌^◌};
ghost use Rattle.sample_load.specs.Draws.{draw_from, next_state};

/// The multiplier of Knuth's MMIX.
const MULTIPLIER: u64 = 6364136223846793005;

/// The increment of Knuth's MMIX.
const INCREMENT: u64 = 1442695040888963407;

/// A linear congruential generator: its state is a number of 64 bits.
#[derive(Drop)]
pub(crate) struct Generator {
    pub(crate) state: u64,
}

impl Generator {
    /// Goes to the next state, and gives its upper 31 bits: the lower ones of such a generator
    /// repeat soon.
    pub(crate) fn draw(&mut self) -> u64
        ensures state { self.new.state ≡ next_state self.old.state }
        ensures value { result ≡ draw_from self.new.state }
        ensures small { result < 2 ^ 31 }
    {
        self.state = self.state.wrapping_mul(MULTIPLIER).wrapping_add(INCREMENT);
        self.state >> 33
    }
}
