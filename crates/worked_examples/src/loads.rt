//! Which pages a load takes from its pool, and the list that it lays.

ghost use Rattle.std.specs.Prelude.{◌≡◌, ◌+◌, ◌*◌, ◌++◌, ◌∷◌, [], Some, None, length, map, codes, replicate};
ghost use Rattle.std.specs.List.{range_with_len};
ghost use Rattle.std.specs.Option.{option_map};
ghost use Rattle.kx_pages.specs.declared.image.Wish.TheVariants.{Plain, Kept};
ghost use Rattle.kx_pages.specs.declared.image.Mode.TheVariants as mode;
ghost use Rattle.kx_pages.specs.Bytes.{Mem};
ghost use Rattle.page_pool.specs.Pages.{left_among, usable_among};
ghost use Rattle.segments.specs.Values.{is_destination};
ghost use Rattle.kimage_list.specs.Load.{Start, Move, begun, requests, take_page};
ghost use Rattle.load_states.specs.Loads.{entries_of, loading_of};
ghost use Rattle.worked_examples.specs.Kernels.{three_bytes, two_pages, no_bytes, pages_at, zeros};
ghost use Rattle.worked_examples.specs.Loads.{words_of, image_laid, page_laid};

/// A kernel of three bytes at page 2, with a pool of pages 10, 11 and 12: the control page, the link page, the source.
pub fn one_page_kernel()
    ensures entries { entries_of three_bytes ≡ Start 2 ∷ Move 2 ∷ [] }
    ensures loading { loading_of Plain three_bytes (0x10 ∷ 0x11 ∷ 0x12 ∷ [])
        ≡ Some (record {
          left = [];
          filed = [];
          pairs = (2, 0x12) ∷ [];
          spare = 0x10 ∷ 0x11 ∷ [];
        }) }
    ensures words { words_of Plain three_bytes (0x10 ∷ 0x11 ∷ 0x12 ∷ [])
        ≡ Some (0x11002 ∷ 0x2001 ∷ 0x12008 ∷ 4 ∷ []) }
    ensures image { image_laid Plain three_bytes (0x10 ∷ 0x11 ∷ 0x12 ∷ [])
        ≡ Some (record { head = 0x11002; mode = mode.Plain; control = 0x10 }) }
    ensures link_page { (M : Mem)
        → page_laid M Plain three_bytes (0x10 ∷ 0x11 ∷ 0x12 ∷ []) 0x11
        ≡ Some (0x01 ∷ 0x20 ∷ 0 ∷ 0 ∷ 0 ∷ 0 ∷ 0 ∷ 0 ∷ 0x08 ∷ 0x20 ∷ 0x01 ∷ 0 ∷ 0 ∷ 0 ∷ 0 ∷ 0 ∷ 0x04
        ∷ replicate 4079 0) }
    ensures source { (M : Mem)
        → page_laid M Plain three_bytes (0x10 ∷ 0x11 ∷ 0x12 ∷ []) 0x12
        ≡ Some (codes "abc" ++ replicate 4093 0) }
    ensures destination { (M : Mem)
        → page_laid M Plain three_bytes (0x10 ∷ 0x11 ∷ 0x12 ∷ []) 2 ≡ Some (M 2) }
    ensures control_page { (M : Mem)
        → page_laid M Plain three_bytes (0x10 ∷ 0x11 ∷ 0x12 ∷ []) 0x10 ≡ Some (M 0x10) }
{}

/// Pages 2 and 3 are wanted and come first in the pool: they are filed for their own requests, and each is its own
/// source.
pub fn pool_pages_are_their_own_destinations()
    ensures requests { requests Plain (entries_of (two_pages 2))
        ≡ None ∷ None ∷ Some 2 ∷ Some 3 ∷ [] }
    ensures control_page { take_page (is_destination (two_pages 2)) None
        (begun (2 ∷ 3 ∷ 0x10 ∷ 0x11 ∷ []))
        ≡ Some (0x10, record { left = 0x11 ∷ []; filed = 3 ∷ 2 ∷ []; pairs = []; spare = [] }) }
    ensures filed_page { take_page (is_destination (two_pages 2)) (Some 2)
        (record { left = []; filed = 3 ∷ 2 ∷ []; pairs = []; spare = 0x10 ∷ 0x11 ∷ [] })
        ≡ Some (2, record { left = []; filed = 3 ∷ []; pairs = []; spare = 0x10 ∷ 0x11 ∷ [] }) }
    ensures loading { loading_of Plain (two_pages 2) (2 ∷ 3 ∷ 0x10 ∷ 0x11 ∷ [])
        ≡ Some (record {
          left = [];
          filed = [];
          pairs = (2, 2) ∷ (3, 3) ∷ [];
          spare = 0x10 ∷ 0x11 ∷ [];
        }) }
    ensures words { words_of Plain (two_pages 2) (2 ∷ 3 ∷ 0x10 ∷ 0x11 ∷ [])
        ≡ Some (0x11002 ∷ 0x2001 ∷ 0x2008 ∷ 0x3008 ∷ 4 ∷ []) }
    ensures image { image_laid Plain (two_pages 2) (2 ∷ 3 ∷ 0x10 ∷ 0x11 ∷ [])
        ≡ Some (record { head = 0x11002; mode = mode.Plain; control = 0x10 }) }
{}

/// Page 2 is drawn for page 3 when page 2 is already loaded from page 12: the bytes of page 12 move into page 2, whose
/// entry becomes its own, and page 12 is used for page 3.
pub fn loaded_page_is_exchanged()
    ensures exchanged { take_page (is_destination (two_pages 2)) (Some 3)
        (record { left = 2 ∷ []; filed = []; pairs = (2, 0x12) ∷ []; spare = 0x10 ∷ 0x11 ∷ [] })
        ≡ Some (
          0x12,
          record { left = []; filed = []; pairs = (2, 2) ∷ []; spare = 0x10 ∷ 0x11 ∷ [] },
        ) }
    ensures loading { loading_of Plain (two_pages 2) (0x10 ∷ 0x11 ∷ 0x12 ∷ 2 ∷ [])
        ≡ Some (record {
          left = [];
          filed = [];
          pairs = (2, 2) ∷ (3, 0x12) ∷ [];
          spare = 0x10 ∷ 0x11 ∷ [];
        }) }
    ensures words { words_of Plain (two_pages 2) (0x10 ∷ 0x11 ∷ 0x12 ∷ 2 ∷ [])
        ≡ Some (0x11002 ∷ 0x2001 ∷ 0x2008 ∷ 0x12008 ∷ 4 ∷ []) }
    ensures own_source { (M : Mem)
        → page_laid M Plain (two_pages 2) (0x10 ∷ 0x11 ∷ 0x12 ∷ 2 ∷ []) 2
        ≡ Some (codes "b" ++ replicate 4095 0) }
    ensures other_source { (M : Mem)
        → page_laid M Plain (two_pages 2) (0x10 ∷ 0x11 ∷ 0x12 ∷ 2 ∷ []) 0x12
        ≡ Some (codes "c" ++ replicate 4095 0) }
    ensures destination { (M : Mem)
        → page_laid M Plain (two_pages 2) (0x10 ∷ 0x11 ∷ 0x12 ∷ 2 ∷ []) 3 ≡ Some (M 3) }
{}

/// A pool of three pages runs out where four are needed.
pub fn pool_is_a_page_short()
    ensures short { loading_of Plain (two_pages 2) (0x10 ∷ 0x11 ∷ 0x12 ∷ []) ≡ None }
    ensures short_kept { loading_of Kept (two_pages 2) (0x10 ∷ 0x11 ∷ 0x12 ∷ 0x13 ∷ []) ≡ None }
{}

/// Pages are usable whose address is below 100000, and that of page 200 is not: the load over the pool 10, 200, 11, 12, 2
/// is that over the other pages, and page 200 is left. Page 300 is passed over too, though it is the destination.
pub fn pages_past_the_limit_are_passed_over()
    ensures usable { usable_among 0x10_0000 (0x10 ∷ 0x200 ∷ 0x11 ∷ 0x12 ∷ 2 ∷ []) []
        ≡ 0x10 ∷ 0x11 ∷ 0x12 ∷ 2 ∷ [] }
    ensures words { words_of Plain (two_pages 2)
        (usable_among 0x10_0000 (0x10 ∷ 0x200 ∷ 0x11 ∷ 0x12 ∷ 2 ∷ []) [])
        ≡ Some (0x11002 ∷ 0x2001 ∷ 0x2008 ∷ 0x12008 ∷ 4 ∷ []) }
    ensures left { left_among (0x10 ∷ 0x200 ∷ 0x11 ∷ 0x12 ∷ 2 ∷ [])
        (0x10 ∷ 0x11 ∷ 0x12 ∷ 2 ∷ []) ≡ 0x200 ∷ [] }
    ensures short { loading_of Plain (two_pages 2)
        (usable_among 0x10_0000 (0x10 ∷ 0x200 ∷ 0x11 ∷ 0x12 ∷ []) []) ≡ None }
    ensures destination { loading_of Plain (pages_at 0x300 1 ∷ [])
        (usable_among 0x10_0000 (0x300 ∷ 0x10 ∷ 0x11 ∷ 0x12 ∷ []) [])
        ≡ Some (record {
          left = [];
          filed = [];
          pairs = (0x300, 0x12) ∷ [];
          spare = 0x10 ∷ 0x11 ∷ [];
        }) }
{}

/// With context preserved the swap page is drawn after the control page. Page 2 is drawn last, and is exchanged.
pub fn two_pages_with_context_preserved()
    ensures loading { loading_of Kept (two_pages 2) (0x10 ∷ 0x11 ∷ 0x12 ∷ 0x13 ∷ 2 ∷ [])
        ≡ Some (record {
          left = [];
          filed = [];
          pairs = (2, 2) ∷ (3, 0x13) ∷ [];
          spare = 0x10 ∷ 0x11 ∷ 0x12 ∷ [];
        }) }
    ensures words { words_of Kept (two_pages 2) (0x10 ∷ 0x11 ∷ 0x12 ∷ 0x13 ∷ 2 ∷ [])
        ≡ Some (0x12002 ∷ 0x2001 ∷ 0x2008 ∷ 0x13008 ∷ 4 ∷ []) }
    ensures image { image_laid Kept (two_pages 2) (0x10 ∷ 0x11 ∷ 0x12 ∷ 0x13 ∷ 2 ∷ [])
        ≡ Some (record { head = 0x12002; mode = mode.Kept 0x11; control = 0x10 }) }
{}

/// A kernel without bytes has one destination entry and no source.
pub fn kernel_without_bytes()
    ensures loading { loading_of Plain no_bytes (0x10 ∷ 0x11 ∷ [])
        ≡ Some (record { left = []; filed = []; pairs = []; spare = 0x10 ∷ 0x11 ∷ [] }) }
    ensures words { words_of Plain no_bytes (0x10 ∷ 0x11 ∷ []) ≡ Some (0x11002 ∷ 0x2001 ∷ 4 ∷ []) }
{}

/// A kernel of 510 pages has 511 entries, which fill the one link page up to its last slot, where the done word stands:
/// 513 words with the head.
pub fn list_fills_its_link_page()
    ensures count { option_map (λ ws. length ws)
        (words_of Plain (zeros 510) (range_with_len 0x1000 512)) ≡ Some 513 }
    ensures words { words_of Plain (zeros 510) (range_with_len 0x1000 512)
        ≡ Some (0x1001002 ∷ 0x2001 ∷ map (λ p. 4096 * p + 8) (range_with_len 0x1002 510)
        ++ 4 ∷ []) }
{}

/// A kernel of 511 pages has one entry more, and takes a second link page, to which the last slot of the first links:
/// 515 words.
pub fn last_slot_links_on()
    ensures count { option_map (λ ws. length ws)
        (words_of Plain (zeros 511) (range_with_len 0x1000 514)) ≡ Some 515 }
    ensures words { words_of Plain (zeros 511) (range_with_len 0x1000 514)
        ≡ Some (0x1001002 ∷ 0x2001 ∷ map (λ p. 4096 * p + 8) (range_with_len 0x1002 510)
        ++ 0x1200002 ∷ 0x1201008 ∷ 4 ∷ []) }
{}
