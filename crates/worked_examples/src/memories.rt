//! Memories: what pages read as, copies of pages, blocks of bytes, and memory files at their limits.

ghost use Rattle.std.specs.Prelude.{◌≡◌, ◌++◌, ◌∷◌, [], Ok, Err, codes, false, map, replicate, take, true};
ghost use Rattle.std.specs.FinMap as finite;
ghost use Rattle.byteorder.specs.Endian.{little_bytes};
ghost use Rattle.kx_fields.specs.Fields.{IsBlock};
ghost use Rattle.kx_pages.specs.Bytes.{page_of};
ghost use Rattle.page_memory.specs.Addresses.{bytes_in};
ghost use Rattle.page_memory.specs.Contents.{Contents, at, copy_page, swap_pages};
ghost use Rattle.page_memory.specs.File.{file, is_stored, read_pages, stored_pages, text_of};
ghost use Rattle.page_memory.specs.Memory.{Agree, put};
ghost use Rattle.page_memory.specs.declared.fault.MemFault.TheVariants as faults;
ghost use Rattle.worked_examples.specs.Memories.{three_held};

/// A page that a memory does not hold reads as zeros. A copy goes one way, and an exchange leaves in the swap page what the
/// source had.
pub fn pages_of_a_memory()
    ensures not_held { at (record { pages = finite.empty; sets = 0 }) 5 ≡ replicate 4096 0 }
    ensures copied { (m : Contents) → at (copy_page m 3 2) 3 ≡ at m 2 }
    ensures source { (m : Contents) → at (copy_page m 3 2) 2 ≡ at m 2 }
    ensures exchanged { (m : Contents) → at (swap_pages m 2 3 4) 2 ≡ at m 3 }
    ensures source_exchanged { (m : Contents) → at (swap_pages m 2 3 4) 3 ≡ at m 2 }
    ensures swap_page { (m : Contents) → at (swap_pages m 2 3 4) 4 ≡ at m 3 }
{}

/// The bytes around the border of two pages, and which pages a file has: not those of zeros.
pub fn bytes_of_pages()
    ensures border { bytes_in (λ p. replicate 4096 p) 0x2fff 3 ≡ 2 ∷ 3 ∷ 3 ∷ [] }
    ensures stored { map is_stored
        ((5, replicate 4096 0) ∷ (5, page_of (codes "a")) ∷ (5, replicate 4095 0 ++ 1 ∷ []) ∷ [])
        ≡ false ∷ true ∷ true ∷ [] }
{}

/// A memory in which page 3 was set before page 2, and page 5 has zeros: its file has pages 2 and 3, in this order.
pub fn file_of_a_memory()
    ensures stored { stored_pages three_held
        ≡ (2, page_of (codes "a")) ∷ (3, page_of (codes "b")) ∷ [] }
    ensures bytes { file three_held
        ≡ codes "KXMEM001"
        ++ (little_bytes 8 2
        ++ ((little_bytes 8 2 ++ page_of (codes "a")) ++ (little_bytes 8 3 ++ page_of (codes "b")))) }
{}

/// Two memories agree where they have the same bytes in every page: one page that differs is enough.
pub fn memories_that_agree()
    ensures same { Agree (λ p. replicate 4096 p)
        (put (λ p. replicate 4096 p) 7 (replicate 4096 7)) }
    ensures one_page { Agree (λ p. replicate 4096 0) (put (λ p. replicate 4096 0) 7 []) → ⊥ }
{}

/// Memory files at their limits: a file that is a byte short, the greatest count, the last page of all, and two pages of
/// one number.
pub fn memory_files_at_their_limits()
    ensures a_byte_short { read_pages (take 4119 (text_of ((2, page_of (codes "a")) ∷ [])))
        ≡ Err (faults.Truncated 4119) }
    ensures greatest_count { read_pages (codes "KXMEM001" ++ little_bytes 8 131072)
        ≡ Err (faults.Truncated 16) }
    ensures last_page { read_pages (text_of ((0x3_ffff_ffff, page_of (codes "a")) ∷ []))
        ≡ Ok (finite.insert finite.empty 0x3_ffff_ffff (page_of (codes "a"))) }
    ensures same_page { read_pages
        (text_of ((2, page_of (codes "a")) ∷ (2, page_of (codes "b")) ∷ []))
        ≡ Err (faults.NotRising 4120) }
    ensures next_page { read_pages
        (text_of ((2, page_of (codes "a")) ∷ (3, page_of (codes "b")) ∷ []))
        ≡ Ok
        (finite.insert (finite.insert finite.empty 2 (page_of (codes "a"))) 3
        (page_of (codes "b"))) }
{}

/// A block has as many bytes as it says, and each is less than 256.
pub fn blocks_of_bytes()
    ensures two { IsBlock 2 (1 ∷ 255 ∷ []) }
    ensures no_byte { IsBlock 2 (1 ∷ 256 ∷ []) → ⊥ }
    ensures short { IsBlock 2 (1 ∷ []) → ⊥ }
{}
