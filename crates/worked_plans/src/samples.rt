//! A sample: its segments, its memory, its pool, and how its kernel starts.

ghost use Rattle.std.specs.Prelude.{◌≡◌, ◌∷◌, [], map, replicate, take};
ghost use Rattle.page_memory.specs.Contents.{zero_page};
ghost use Rattle.sample_load.specs.DrawnSegments.{bytes_of, segment_of, page_behind};
ghost use Rattle.sample_load.specs.Samples.{sample_segments, page_full_of, filled_before, sample_memory, sample_pool, pages_of, memory_digest, start_of};
ghost use Rattle.worked_plans.specs.Samples.{text_at, digest_of_abc, digest_of_nothing};

/// A segment lies behind a gap, and has less bytes than memory.
pub fn segment_of_a_shape()
    ensures bytes { bytes_of 2 3 ≡ 62 ∷ 69 ∷ 76 ∷ [] }
    ensures segment { segment_of 2 0x1000 (record { gap = 3; count = 2; short = 8189 })
        ≡ record { bytes = 62 ∷ 69 ∷ 76 ∷ []; mem = 0x100_3000; memsz = 0x2000 } }
    ensures behind { page_behind 0x1000 (record { gap = 3; count = 2; short = 8189 }) ≡ 0x1005 }
    ensures start { map start_of
        ([] ∷ (record { bytes = []; mem = 0x100_3000; memsz = 0x2000 } ∷ []) ∷ [])
        ≡ record { entry = 0; rax = 0; rbx = 0; rsi = 0 }
        ∷ record { entry = 0x100_3000; rax = 0; rbx = 0; rsi = 0 } ∷ [] }
{}

/// The sixteen segments of the sample 1: their addresses, and how much memory they take.
pub fn segments_of_a_sample()
    ensures addresses { map (λ s. s.mem) (sample_segments 1)
        ≡ 0x101_6000 ∷ 0x119_6000 ∷ 0x130_b000 ∷ 0x143_c000 ∷ 0x167_4000 ∷ 0x17a_1000 ∷ 0x18d_0000
        ∷ 0x191_3000 ∷ 0x1b2_f000 ∷ 0x1d0_0000
        ∷ 0x1e7_1000 ∷ 0x1f8_9000 ∷ 0x202_2000 ∷ 0x21a_a000 ∷ 0x22b_4000 ∷ 0x248_3000 ∷ [] }
    ensures sizes { map (λ s. s.memsz) (sample_segments 1)
        ≡ 0x15_a000 ∷ 0x15_b000 ∷ 0xf_7000 ∷ 0x1f_c000 ∷ 0x12_1000 ∷ 0x11_b000 ∷ 0x3_6000
        ∷ 0x1d_f000 ∷ 0x1b_1000 ∷ 0x15_2000
        ∷ 0x11_3000 ∷ 0x8_f000 ∷ 0x16_b000 ∷ 0x10_0000 ∷ 0x1b_9000 ∷ 0xf_5000 ∷ [] }
{}

/// Pages 1000 to 4fff are full of a byte each, and the pool draws from them.
pub fn memory_of_a_sample()
    ensures page { page_full_of 7 ≡ replicate 4096 7 }
    ensures filled { map (filled_before 0x1002) (0xfff ∷ 0x1000 ∷ 0x1001 ∷ 0x1002 ∷ [])
        ≡ zero_page ∷ page_full_of 81 ∷ page_full_of 82 ∷ zero_page ∷ [] }
    ensures memory { map sample_memory (0xfff ∷ 0x1000 ∷ 0x4fff ∷ 0x5000 ∷ [])
        ≡ zero_page ∷ page_full_of 81 ∷ page_full_of 149 ∷ zero_page ∷ [] }
    ensures pool { take 3 sample_pool ≡ 0x1000 ∷ 0x2e37 ∷ 0x4c6e ∷ [] }
    ensures pages { pages_of (λ p. p ∷ []) 5 3 ≡ 5 ∷ 6 ∷ 7 ∷ [] }
{}

/// The digest is that of pages 1000 to 4fff.
pub fn digest_of_a_memory()
    ensures first_page { memory_digest (text_at 0x1000) ≡ digest_of_abc }
    ensures last_page { memory_digest (text_at 0x4fff) ≡ digest_of_abc }
    ensures page_in_front { memory_digest (text_at 0xfff) ≡ digest_of_nothing }
    ensures page_behind { memory_digest (text_at 0x5000) ≡ digest_of_nothing }
{}
