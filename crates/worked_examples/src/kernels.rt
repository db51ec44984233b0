//! What segments need and want, and which rule refuses them first.

ghost use Rattle.std.specs.Prelude.{◌≡◌, ◌++◌, ◌∷◌, [], Some, None, codes, replicate};
ghost use Rattle.kx_pages.specs.declared.image.Wish.TheVariants.{Plain, Kept};
ghost use Rattle.kx_pages.specs.Bytes.{Mem};
ghost use Rattle.segments.specs.Values.{need, want, overlay, pages};
ghost use Rattle.segments.specs.Rules.{bare_refusal, refusal};
ghost use Rattle.segments.specs.inner.Rules.{errno};
ghost use Rattle.segments.specs.declared.fault.SegFault.TheVariants as faults;
ghost use Rattle.segments.specs.declared.fault.Kind.TheVariants as kinds;
ghost use Rattle.worked_examples.specs.Kernels.{three_bytes, two_pages, no_bytes, zeros, pages_at};

/// A kernel of three bytes: its page is to have them and then zeros, and no other page changes. The same of a page higher up.
pub fn one_page_is_wanted()
    ensures page { want three_bytes 2 ≡ Some (codes "abc" ++ replicate 4093 0) }
    ensures before { want three_bytes 1 ≡ None }
    ensures behind { want three_bytes 3 ≡ None }
    ensures high { want (pages_at 0x1000 1 ∷ []) 0x1000 ≡ Some (replicate 4096 0) }
    ensures changed { (M : Mem) → overlay M (want three_bytes) 2 ≡ codes "abc" ++ replicate 4093 0 }
    ensures unchanged { (M : Mem) → overlay M (want three_bytes) 3 ≡ M 3 }
    ensures passes { bare_refusal three_bytes ≡ None }
{}

/// A kernel of 4,097 bytes: its second page is to have the last byte and then zeros.
pub fn two_pages_are_wanted()
    ensures pages { pages (two_pages 2) ≡ 2 ∷ 3 ∷ [] }
    ensures first { want (two_pages 2) 2 ≡ Some (codes "b" ++ replicate 4095 0) }
    ensures second { want (two_pages 2) 3 ≡ Some (codes "c" ++ replicate 4095 0) }
    ensures behind { want (two_pages 2) 4 ≡ None }
    ensures behind_another_segment { pages (pages_at 0x100 1 ∷ two_pages 2) ≡ 0x100 ∷ 2 ∷ 3 ∷ [] }
{}

/// How many pages a load takes: one for each page of the kernel, a link page for each 511 entries, a control page, and
/// a swap page where context is preserved. Of 510 pages the 511 entries fit one link page, and of 511 pages they do
/// not, nor of 510 pages in two segments.
pub fn pages_needed()
    ensures one { need Plain three_bytes ≡ 3 }
    ensures two { need Plain (two_pages 2) ≡ 4 }
    ensures two_kept { need Kept (two_pages 2) ≡ 5 }
    ensures none { need Plain no_bytes ≡ 2 }
    ensures one_link_page { need Plain (zeros 510) ≡ 512 }
    ensures two_link_pages { need Plain (zeros 511) ≡ 514 }
    ensures two_segments { need Plain (pages_at 0x1000 1 ∷ zeros 509) ≡ 513 }
{}

/// Segments that touch pass, segments that share a page overlap, and an empty segment overlaps a segment that it lies in,
/// but not one that it begins with.
pub fn segments_that_overlap()
    ensures touching { bare_refusal (pages_at 0x100 2 ∷ pages_at 0x102 2 ∷ []) ≡ None }
    ensures shared { bare_refusal (pages_at 0x100 3 ∷ pages_at 0x102 2 ∷ [])
        ≡ Some (faults.Overlap 1 0) }
    ensures empty_inside { bare_refusal (pages_at 0x100 4 ∷ pages_at 0x102 0 ∷ [])
        ≡ Some (faults.Overlap 1 0) }
    ensures empty_at_the_start { bare_refusal (pages_at 0x100 0 ∷ pages_at 0x100 4 ∷ []) ≡ None }
    ensures empty_at_the_start_behind { bare_refusal (pages_at 0x100 4 ∷ pages_at 0x100 0 ∷ [])
        ≡ None }
{}

/// An address that is no page's, a segment that ends at 2^46 and one that ends a page below, and a list without segments.
pub fn bad_addresses()
    ensures inside_a_page { bare_refusal (record { bytes = []; mem = 0x800; memsz = 0x1000 } ∷ [])
        ≡ Some (faults.BadAddress 0) }
    ensures at_the_limit { bare_refusal (pages_at 0x3_ffff_ffff 1 ∷ [])
        ≡ Some (faults.BadAddress 0) }
    ensures below_the_limit { bare_refusal (pages_at 0x3_ffff_fffe 1 ∷ []) ≡ None }
    ensures errno { errno (faults.BadAddress 0) ≡ 99 }
    ensures none { bare_refusal [] ≡ Some faults.NoSegments }
{}

/// More bytes than memory, more segments than sixteen, and more pages than 65,536.
pub fn too_much()
    ensures bytes { bare_refusal (record { bytes = 1 ∷ []; mem = 0x2000; memsz = 0 } ∷ [])
        ≡ Some (faults.TooFull 0) }
    ensures sixteen { bare_refusal (replicate 16 (pages_at 0x100 0)) ≡ None }
    ensures seventeen { bare_refusal (replicate 17 (pages_at 0x100 0)) ≡ Some faults.TooMany }
    ensures most_pages { bare_refusal (pages_at 0x100 65536 ∷ []) ≡ None }
    ensures pages { bare_refusal (pages_at 0x100 65537 ∷ []) ≡ Some (faults.TooLarge 65537) }
{}

/// Pages that are no memory, and a crash kernel that leaves its area.
pub fn misplaced_segments()
    ensures no_memory { refusal (record { first = 0; count = 2 } ∷ []) kinds.Normal three_bytes
        ≡ Some (faults.NotRam 0) }
    ensures inside { refusal (record { first = 0; count = 0x200 } ∷ [])
        (kinds.Crash (record { first = 0x100; count = 0x10 })) (pages_at 0x10c 4 ∷ []) ≡ None }
    ensures behind { refusal (record { first = 0; count = 0x200 } ∷ [])
        (kinds.Crash (record { first = 0x100; count = 0x10 })) (pages_at 0x10d 4 ∷ [])
        ≡ Some (faults.OutsideReserved 0) }
    ensures before { refusal (record { first = 0; count = 0x200 } ∷ [])
        (kinds.Crash (record { first = 0x100; count = 0x10 })) (pages_at 0xff 4 ∷ [])
        ≡ Some (faults.OutsideReserved 0) }
    ensures behind_a_high_area { refusal (record { first = 0; count = 0x2000 } ∷ [])
        (kinds.Crash (record { first = 0x1000; count = 1 })) (pages_at 0x1000 2 ∷ [])
        ≡ Some (faults.OutsideReserved 0) }
    ensures errno { errno (faults.OutsideReserved 0) ≡ 99 }
{}

/// Memory of eight pages: a segment of four passes, and one of five takes more than half of memory, as do one of three
/// and one of two together.
pub fn half_of_memory()
    ensures four { refusal (record { first = 0x100; count = 8 } ∷ []) kinds.Normal
        (pages_at 0x100 4 ∷ []) ≡ None }
    ensures five { refusal (record { first = 0x100; count = 8 } ∷ []) kinds.Normal
        (pages_at 0x100 5 ∷ []) ≡ Some faults.HalfOfMemory }
    ensures together { refusal (record { first = 0x100; count = 8 } ∷ []) kinds.Normal
        (pages_at 0x100 3 ∷ pages_at 0x103 2 ∷ []) ≡ Some faults.HalfOfMemory }
    ensures errno { errno faults.HalfOfMemory ≡ 22 }
{}
