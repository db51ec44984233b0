//! The draws of a sample.

ghost use Rattle.std.specs.Prelude.{◌≡◌, ◌∷◌, [], map};
ghost use Rattle.sample_load.specs.Draws.{draw_from, next_state};
ghost use Rattle.sample_load.specs.DrawnSegments.{byte_of, shape_of};
ghost use Rattle.sample_load.specs.Samples.{pool_pages};

/// The first draws of the sample 1 (the generator is Knuth's MMIX), and what they give.
pub fn draws_of_a_sample()
    ensures state { next_state 1 ≡ 7806831264735756412 }
    ensures next { next_state 7806831264735756412 ≡ 9396908728118811419 }
    ensures draw { draw_from 7806831264735756412 ≡ 908834774 }
    ensures shape { shape_of 1 ≡ record { gap = 22; count = 346; short = 204 } }
    ensures bytes { map (byte_of 2) (0 ∷ 1 ∷ 256 ∷ []) ≡ 62 ∷ 69 ∷ 63 ∷ [] }
    ensures pool { pool_pages 3 ≡ 0x1000 ∷ 0x2e37 ∷ 0x4c6e ∷ [] }
{}
