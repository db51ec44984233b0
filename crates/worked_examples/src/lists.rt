//! Which lists are accepted, and the first faults of others.

ghost use Rattle.std.specs.Prelude.{◌≡◌, ◌∷◌, [], Some, None, List, codes};
ghost use Rattle.kx_pages.specs.Items.{decode};
ghost use Rattle.kx_pages.specs.declared.image.Wish.TheVariants.{Plain};
ghost use Rattle.kx_pages.specs.declared.item.Item.{Item};
ghost use Rattle.kx_pages.specs.Bytes.{page_of, Mem};
ghost use Rattle.segments.specs.Values.{want, pages};
ghost use Rattle.kimage_list.specs.Laying.{list_of, head_of, control_of};
ghost use Rattle.list_checker.specs.Walk.{Walk, Accepted, AcceptedKept, InOrder, PairsApart, links, pairs};
ghost use Rattle.list_checker.specs.Crash.{AcceptedCrash, crash_reason};
ghost use Rattle.list_checker.specs.declared.fault.Why.TheVariants.{Flags, HeadKind, LinkAgain, SourceSpoiled, PairsMeet, Missing, PastLimit};
ghost use Rattle.load_states.specs.Loads.{entries_of, memory_of};
ghost use Rattle.worked_examples.specs.Kernels.{three_bytes, two_pages, no_bytes};
ghost use Rattle.worked_examples.specs.Loads.{three_bytes_loaded};
ghost use Rattle.worked_examples.specs.Lists.{HasWords, FirstFault, NoneAccepted, one_move, one_exchanged, no_move, one_at_home, over_two_pages, last_page_first, first_page_first};

/// The list of a kernel of three bytes: page 2 comes from page 12.
pub fn one_page_list()
    ensures pairs { pairs one_move ≡ (2, 0x12) ∷ [] }
    ensures accepted { (M : Mem) → HasWords M 0x11000 (0x2001 ∷ 0x12008 ∷ 4 ∷ [])
        → M 0x12 ≡ page_of (codes "abc") → Accepted M (want three_bytes) 0x11002 0x10 one_move }
{}

/// A list that goes on in a second page, with the page behind the last destination.
pub fn list_over_two_pages()
    ensures pairs { pairs over_two_pages ≡ (2, 0x12) ∷ (3, 0x14) ∷ [] }
    ensures links { links over_two_pages ≡ 0x11 ∷ 0x13 ∷ [] }
    ensures walk { (M : Mem) → HasWords M 0x11000 (0x2001 ∷ 0x12008 ∷ 0x13002 ∷ [])
        → HasWords M 0x13000 (0x14008 ∷ 4 ∷ []) → Walk M 0x11002 over_two_pages }
{}

/// What the load of that kernel lays is that list, whatever memory held.
pub fn loaded_list_is_accepted()
    ensures list { list_of Plain (entries_of three_bytes) three_bytes_loaded ≡ one_move }
    ensures words { (M : Mem)
        → HasWords (memory_of M Plain three_bytes three_bytes_loaded) 0x11000
        (0x2001 ∷ 0x12008 ∷ 4 ∷ []) }
    ensures accepted { (M : Mem)
        → Accepted (memory_of M Plain three_bytes three_bytes_loaded) (want three_bytes)
        (head_of Plain three_bytes_loaded) (control_of three_bytes_loaded) one_move }
{}

/// A list in which page 2 is its own source, after an exchange.
pub fn exchanged_list_is_accepted()
    ensures pairs { pairs one_exchanged ≡ (2, 2) ∷ (3, 0x12) ∷ [] }
    ensures accepted { (M : Mem) → HasWords M 0x11000 (0x2001 ∷ 0x2008 ∷ 0x12008 ∷ 4 ∷ [])
        → M 2 ≡ page_of (codes "b") → M 0x12 ≡ page_of (codes "c")
        → Accepted M (want (two_pages 2)) 0x11002 0x10 one_exchanged }
{}

/// The list of a kernel without bytes.
pub fn list_without_a_source_is_accepted()
    ensures pairs { pairs no_move ≡ [] }
    ensures accepted { (M : Mem) → HasWords M 0x11000 (0x2001 ∷ 4 ∷ [])
        → Accepted M (want no_bytes) 0x11002 0x10 no_move }
{}

/// The list of a crash kernel of three bytes: its head is the done word, and page 2 has the bytes already.
pub fn crash_list()
    ensures accepted { (M : Mem) → M 2 ≡ page_of (codes "abc")
        → AcceptedCrash M (want three_bytes) 4 }
    ensures missing { crash_reason (λ p. page_of []) (want three_bytes) (pages three_bytes)
        (decode 4) ≡ Some (Missing 2) }
    ensures link { (M : Mem)
        → crash_reason M (want three_bytes) (pages three_bytes) (decode 0x11002) ≡ Some HeadKind }
    ensures past_the_limit { (M : Mem)
        → crash_reason M (want three_bytes) (pages three_bytes) (decode 0x4000_0000_0002)
        ≡ Some PastLimit }
    ensures two_flags { (M : Mem)
        → crash_reason M (want three_bytes) (pages three_bytes) (decode 6) ≡ Some Flags }
{}

/// A list with context preserved in which page 2 is its own source.
pub fn own_source_is_accepted()
    ensures pairs { pairs one_at_home ≡ (2, 2) ∷ (3, 0x13) ∷ [] }
    ensures accepted { (M : Mem) → HasWords M 0x12000 (0x2001 ∷ 0x2008 ∷ 0x13008 ∷ 4 ∷ [])
        → M 2 ≡ page_of (codes "b") → M 0x13 ≡ page_of (codes "c")
        → AcceptedKept M (want (two_pages 2)) 0x12002 0x10 0x11 one_at_home }
{}

/// A kernel that lies one page below its destination: its last page goes first, and the list is accepted.
pub fn source_is_overwritten_after_its_copy()
    ensures pairs { pairs last_page_first ≡ (4, 3) ∷ (3, 2) ∷ [] }
    ensures accepted { (M : Mem) → HasWords M 0x20000 (0x4001 ∷ 0x3008 ∷ 0x3001 ∷ 0x2008 ∷ 4 ∷ [])
        → M 2 ≡ page_of (codes "b") → M 3 ≡ page_of (codes "c")
        → Accepted M (want (two_pages 3)) 0x20002 0x21 last_page_first }
{}

/// The same with context preserved: page 3 stands in two pairs.
pub fn exchanged_page_stands_in_two_pairs()
    ensures meet { PairsApart (pairs last_page_first) → ⊥ }
    ensures fault { (M : Mem) → HasWords M 0x20000 (0x4001 ∷ 0x3008 ∷ 0x3001 ∷ 0x2008 ∷ 4 ∷ [])
        → M 3 ≡ page_of (codes "c")
        → FirstFault M (two_pages 3) 0x20002 0x21 (Some 0x22) 4 PairsMeet }
    ensures refused { (M : Mem) → HasWords M 0x20000 (0x4001 ∷ 0x3008 ∷ 0x3001 ∷ 0x2008 ∷ 4 ∷ [])
        → M 3 ≡ page_of (codes "c") → NoneAccepted M (two_pages 3) 0x20002 0x21 (Some 0x22) }
{}

/// The first page of the same kernel goes first: its destination is the last page's source.
pub fn source_is_overwritten_before_its_copy()
    ensures walk { (M : Mem) → HasWords M 0x20000 (0x3001 ∷ 0x2008 ∷ 0x3008 ∷ 4 ∷ [])
        → Walk M 0x20002 first_page_first }
    ensures pairs { pairs first_page_first ≡ (3, 2) ∷ (4, 3) ∷ [] }
    ensures disorder { InOrder (pairs first_page_first) → ⊥ }
    ensures fault { (M : Mem) → HasWords M 0x20000 (0x3001 ∷ 0x2008 ∷ 0x3008 ∷ 4 ∷ [])
        → M 2 ≡ page_of (codes "b") → FirstFault M (two_pages 3) 0x20002 0x21 None 3 SourceSpoiled }
    ensures refused { (M : Mem) → HasWords M 0x20000 (0x3001 ∷ 0x2008 ∷ 0x3008 ∷ 4 ∷ [])
        → M 2 ≡ page_of (codes "b") → NoneAccepted M (two_pages 3) 0x20002 0x21 None }
{}

/// A link page that links to itself.
pub fn list_that_goes_round()
    ensures endless { (M : Mem) → HasWords M 0x20000 (0x20002 ∷ []) → (is : List Item)
        → Walk M 0x20002 is → ⊥ }
    ensures fault { (M : Mem) → HasWords M 0x20000 (0x20002 ∷ [])
        → FirstFault M three_bytes 0x20002 0x21 None 1 LinkAgain }
    ensures refused { (M : Mem) → HasWords M 0x20000 (0x20002 ∷ [])
        → NoneAccepted M three_bytes 0x20002 0x21 None }
{}

/// A word with the flags of a destination and of a source.
pub fn word_with_two_flags()
    ensures nothing { decode 0x2009 ≡ None }
    ensures fault { (M : Mem) → HasWords M 0x20000 (0x2009 ∷ 0x30008 ∷ 4 ∷ [])
        → FirstFault M three_bytes 0x20002 0x21 None 1 Flags }
    ensures refused { (M : Mem) → HasWords M 0x20000 (0x2009 ∷ 0x30008 ∷ 4 ∷ [])
        → NoneAccepted M three_bytes 0x20002 0x21 None }
{}

/// A head that links to the first address past the limit.
pub fn head_past_the_limit()
    ensures fault { (M : Mem) → FirstFault M three_bytes 0x4000_0000_0002 0x21 None 0 PastLimit }
    ensures refused { (M : Mem) → NoneAccepted M three_bytes 0x4000_0000_0002 0x21 None }
{}
