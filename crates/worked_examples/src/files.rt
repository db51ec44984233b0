//! Memory files and pool texts.

ghost use Rattle.std.specs.Prelude.{◌≡◌, ◌++◌, ◌^◌, ◌∷◌, [], Ok, Err, length, codes, replicate};
ghost use Rattle.std.specs.FinMap as finite;
ghost use Rattle.byteorder.specs.Endian.{little_bytes};
ghost use Rattle.kx_pages.specs.Bytes.{page_of};
ghost use Rattle.page_memory.specs.File.{read_pages, text_of};
ghost use Rattle.page_memory.specs.declared.fault.MemFault.TheVariants as mem_faults;
ghost use Rattle.page_pool.specs.File.{pool_reading};
ghost use Rattle.page_pool.specs.declared.fault.PoolFault.TheVariants as pool_faults;

/// The memory file without pages is sixteen bytes, and the file of three pages is three times 4,104 bytes longer. A file
/// of one page is read as it was written.
pub fn empty_memory_file()
    ensures bytes { text_of [] ≡ codes "KXMEM001" ++ (0 ∷ 0 ∷ 0 ∷ 0 ∷ 0 ∷ 0 ∷ 0 ∷ 0 ∷ []) }
    ensures read { read_pages (codes "KXMEM001" ++ (0 ∷ 0 ∷ 0 ∷ 0 ∷ 0 ∷ 0 ∷ 0 ∷ 0 ∷ []))
        ≡ Ok finite.empty }
    ensures one_page { read_pages (text_of ((2, page_of (codes "abc")) ∷ []))
        ≡ Ok (finite.insert finite.empty 2 (page_of (codes "abc"))) }
    ensures three_pages { length
        (text_of
        ((2, page_of (codes "abc")) ∷ (17, page_of (codes "x")) ∷ (18, page_of (codes "abc"))
        ∷ [])) ≡ 12328 }
{}

/// The first refusal of a memory file: its magic, its count, or its first page.
pub fn spoiled_memory_files()
    ensures no_magic { read_pages (codes "KXMEM002") ≡ Err mem_faults.BadMagic }
    ensures no_count { read_pages (codes "KXMEM001") ≡ Err (mem_faults.Truncated 8) }
    ensures too_many { read_pages (codes "KXMEM001" ++ little_bytes 8 131073)
        ≡ Err (mem_faults.TooMany 131073) }
    ensures no_page { read_pages (codes "KXMEM001" ++ little_bytes 8 1)
        ≡ Err (mem_faults.Truncated 16) }
    ensures page_of_zeros { read_pages (text_of ((2, replicate 4096 0) ∷ []))
        ≡ Err (mem_faults.ZeroPage 16) }
    ensures not_rising { read_pages
        (text_of ((3, page_of (codes "x")) ∷ (2, page_of (codes "y")) ∷ []))
        ≡ Err (mem_faults.NotRising 4120) }
    ensures past_the_limit { read_pages (text_of ((2 ^ 34, page_of (codes "x")) ∷ []))
        ≡ Err (mem_faults.PastLimit 16) }
    ensures more { read_pages (codes "KXMEM001" ++ (little_bytes 8 0 ++ (7 ∷ [])))
        ≡ Err (mem_faults.Trailing 16) }
{}

/// Pool texts: a range, single pages in an order of their own, the last page of all, and an empty text.
pub fn pool_texts()
    ensures range { pool_reading (codes "10-12\n") ≡ Ok (0x10 ∷ 0x11 ∷ 0x12 ∷ []) }
    ensures lines { pool_reading (codes "10\n11") ≡ Ok (0x10 ∷ 0x11 ∷ []) }
    ensures in_the_order_of_the_text { pool_reading (codes "12\n2-3\n10\n")
        ≡ Ok (0x12 ∷ 2 ∷ 3 ∷ 0x10 ∷ []) }
    ensures last_page { pool_reading (codes "3FFFFFFff") ≡ Ok (0x3_ffff_ffff ∷ []) }
    ensures empty { pool_reading [] ≡ Ok [] }
{}

/// The first refusal of a pool text.
pub fn spoiled_pool_texts()
    ensures repeats { pool_reading (codes "2-4\n3\n") ≡ Err (pool_faults.Repeats 3) }
    ensures backwards { pool_reading (codes "4-2") ≡ Err (pool_faults.Backwards 1) }
    ensures past_the_limit { pool_reading (codes "2\n400000000") ≡ Err (pool_faults.PastLimit 2) }
    ensures too_many { pool_reading (codes "0-40000") ≡ Err (pool_faults.TooMany 1) }
    ensures no_number { pool_reading (codes "2\n\n3") ≡ Err (pool_faults.BadLine 2) }
    ensures too_many_digits { pool_reading (codes "00000000000000010")
        ≡ Err (pool_faults.BadLine 1) }
{}
