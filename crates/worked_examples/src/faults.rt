//! Why single words are refused, and which reason comes first. The control page is 21, and the swap page, where there is
//! one, is 22. The kernel's pages are 2 and 3.

ghost use Rattle.std.specs.Prelude.{◌≡◌, ◌^◌, ◌∷◌, [], Some, None, codes};
ghost use Rattle.kx_pages.specs.declared.item.Item.TheVariants.{Link, Destination, Source, Done};
ghost use Rattle.kx_pages.specs.Bytes.{page_of, Mem};
ghost use Rattle.list_checker.specs.Faults.{nothing_earlier};
ghost use Rattle.list_checker.specs.declared.fault.Why.TheVariants.{HeadKind, LinkAgain, RunsOff, NoDestination, NotWanted, TwiceWritten, SourceSpoiled, LinkSpoiled, ControlTouched, PairsMeet, SwapTouched, WrongBytes, Missing, PastLimit};
ghost use Rattle.worked_examples.specs.Kernels.{two_pages, no_bytes};
ghost use Rattle.worked_examples.specs.Lists.{why_refused, no_pair_yet, one_pair_yet};

/// A head is a link or done word. An address past the limit is told before that.
pub fn words_at_the_head()
    ensures link { (M : Mem)
        → why_refused M (two_pages 2) 0x21 None None nothing_earlier (Link 0x20) ≡ None }
    ensures destination { (M : Mem)
        → why_refused M (two_pages 2) 0x21 None None nothing_earlier (Destination 2)
        ≡ Some HeadKind }
    ensures source { (M : Mem)
        → why_refused M (two_pages 2) 0x21 None None nothing_earlier (Source 0x30) ≡ Some HeadKind }
    ensures past_the_limit { (M : Mem)
        → why_refused M (two_pages 2) 0x21 None None nothing_earlier (Source (2 ^ 34))
        ≡ Some PastLimit }
    ensures done { (M : Mem)
        → why_refused M (two_pages 2) 0x21 None None nothing_earlier (Done 0) ≡ Some (Missing 2) }
    ensures done_without_pages { (M : Mem)
        → why_refused M no_bytes 0x21 None None nothing_earlier (Done 0) ≡ None }
    ensures swap_is_control { (M : Mem)
        → why_refused M (two_pages 2) 0x21 (Some 0x21) None nothing_earlier (Link 0x20)
        ≡ Some SwapTouched }
{}

/// A link goes to a page that is no link page yet, no destination, and neither control nor swap page; with context
/// preserved to no source either. It may stand in the last slot.
pub fn words_that_link()
    ensures again { (M : Mem)
        → why_refused M (two_pages 2) 0x21 None (Some 0x20010) (one_pair_yet 3) (Link 0x20)
        ≡ Some LinkAgain }
    ensures destination { (M : Mem)
        → why_refused M (two_pages 2) 0x21 None (Some 0x20010) (one_pair_yet 3) (Link 2)
        ≡ Some LinkSpoiled }
    ensures source { (M : Mem)
        → why_refused M (two_pages 2) 0x21 None (Some 0x20010) (one_pair_yet 3) (Link 0x30) ≡ None }
    ensures source_kept { (M : Mem)
        → why_refused M (two_pages 2) 0x21 (Some 0x22) (Some 0x20010) (one_pair_yet 3) (Link 0x30)
        ≡ Some LinkSpoiled }
    ensures control { (M : Mem)
        → why_refused M (two_pages 2) 0x21 None (Some 0x20010) (one_pair_yet 3) (Link 0x21)
        ≡ Some ControlTouched }
    ensures swap { (M : Mem)
        → why_refused M (two_pages 2) 0x21 (Some 0x22) (Some 0x20010) (one_pair_yet 3) (Link 0x22)
        ≡ Some SwapTouched }
    ensures last_slot { (M : Mem)
        → why_refused M (two_pages 2) 0x21 None (Some 0x20ff8) (one_pair_yet 3) (Link 0x40) ≡ None }
    ensures past_the_limit { (M : Mem)
        → why_refused M (two_pages 2) 0x21 None (Some 0x20010) (one_pair_yet 3) (Link (2 ^ 34))
        ≡ Some PastLimit }
{}

/// Where a source word goes: to a page that is wanted, was not written yet and is no link page.
pub fn destinations_of_source_words()
    ensures last_slot { (M : Mem)
        → why_refused M (two_pages 2) 0x21 None (Some 0x20ff8) (no_pair_yet (Some 2)) (Source 0x30)
        ≡ Some RunsOff }
    ensures destination_in_the_last_slot { (M : Mem)
        → why_refused M (two_pages 2) 0x21 None (Some 0x20ff8) (no_pair_yet None) (Destination 2)
        ≡ Some RunsOff }
    ensures none { (M : Mem)
        → why_refused M (two_pages 2) 0x21 None (Some 0x20010) (no_pair_yet None) (Source 0x30)
        ≡ Some NoDestination }
    ensures unwanted { (M : Mem)
        → why_refused M (two_pages 2) 0x21 None (Some 0x20010) (no_pair_yet (Some 4)) (Source 0x30)
        ≡ Some NotWanted }
    ensures twice { (M : Mem)
        → why_refused M (two_pages 2) 0x21 None (Some 0x20010) (one_pair_yet 2) (Source 0x31)
        ≡ Some TwiceWritten }
    ensures link_page { (M : Mem)
        → why_refused M (two_pages 0x20) 0x21 None (Some 0x20010) (no_pair_yet (Some 0x20))
        (Source 0x30) ≡ Some LinkSpoiled }
    ensures control { (M : Mem)
        → why_refused M (two_pages 0x20) 0x21 None (Some 0x20010) (no_pair_yet (Some 0x21))
        (Source 0x30) ≡ Some ControlTouched }
    ensures swap { (M : Mem)
        → why_refused M (two_pages 0x22) 0x21 (Some 0x22) (Some 0x20010) (no_pair_yet (Some 0x22))
        (Source 0x30) ≡ Some SwapTouched }
    ensures earlier_source { (M : Mem)
        → why_refused M (two_pages 0x30) 0x21 (Some 0x22) (Some 0x20010) (one_pair_yet 0x30)
        (Source 0x40) ≡ Some PairsMeet }
{}

/// Where a source word's bytes come from: from a page that was not written, that is neither control nor swap page, and that
/// holds what its destination is to have; with context preserved from no link page and no earlier source either.
pub fn sources_of_source_words()
    ensures spoiled { (M : Mem)
        → why_refused M (two_pages 2) 0x21 None (Some 0x20010) (one_pair_yet 3) (Source 2)
        ≡ Some SourceSpoiled }
    ensures control { (M : Mem)
        → why_refused M (two_pages 2) 0x21 None (Some 0x20010) (one_pair_yet 3) (Source 0x21)
        ≡ Some ControlTouched }
    ensures link_page_kept { (M : Mem)
        → why_refused M (two_pages 2) 0x21 (Some 0x22) (Some 0x20010) (one_pair_yet 3) (Source 0x20)
        ≡ Some LinkSpoiled }
    ensures earlier_source_kept { (M : Mem)
        → why_refused M (two_pages 2) 0x21 (Some 0x22) (Some 0x20010) (one_pair_yet 3) (Source 0x30)
        ≡ Some PairsMeet }
    ensures swap { (M : Mem)
        → why_refused M (two_pages 2) 0x21 (Some 0x22) (Some 0x20010) (one_pair_yet 3) (Source 0x22)
        ≡ Some SwapTouched }
    ensures wrong_bytes { why_refused (λ p. page_of (codes "b")) (two_pages 2) 0x21 None
        (Some 0x20010) (one_pair_yet 3) (Source 0x31) ≡ Some WrongBytes }
    ensures right_bytes { why_refused (λ p. page_of (codes "c")) (two_pages 2) 0x21 None
        (Some 0x20010) (one_pair_yet 3) (Source 0x31) ≡ None }
    ensures own_source { why_refused (λ p. page_of (codes "c")) (two_pages 2) 0x21 None
        (Some 0x20010) (one_pair_yet 3) (Source 3) ≡ None }
    ensures own_source_kept { why_refused (λ p. page_of (codes "c")) (two_pages 2) 0x21 (Some 0x22)
        (Some 0x20010) (one_pair_yet 3) (Source 3) ≡ None }
    ensures link_page { why_refused (λ p. page_of (codes "c")) (two_pages 2) 0x21 None
        (Some 0x20010) (one_pair_yet 3) (Source 0x20) ≡ None }
    ensures earlier_source { why_refused (λ p. page_of (codes "c")) (two_pages 2) 0x21 None
        (Some 0x20010) (one_pair_yet 3) (Source 0x30) ≡ None }
    ensures past_the_limit { (M : Mem)
        → why_refused M (two_pages 2) 0x21 None (Some 0x20010) (one_pair_yet 3) (Source (2 ^ 34))
        ≡ Some PastLimit }
{}

/// The done word comes when each page of the kernel has a pair, and names the first that has none.
pub fn done_words()
    ensures none_yet { (M : Mem)
        → why_refused M (two_pages 2) 0x21 None (Some 0x20010) (no_pair_yet (Some 2)) (Done 0)
        ≡ Some (Missing 2) }
    ensures one_yet { (M : Mem)
        → why_refused M (two_pages 2) 0x21 None (Some 0x20010) (one_pair_yet 3) (Done 0)
        ≡ Some (Missing 3) }
    ensures all { (M : Mem)
        → why_refused M (two_pages 2) 0x21 None (Some 0x20010)
        (record { links = 0x20 ∷ []; pairs = (3, 0x31) ∷ (2, 0x30) ∷ []; next = Some 4 }) (Done 0)
        ≡ None }
    ensures last_slot { (M : Mem)
        → why_refused M (two_pages 2) 0x21 None (Some 0x20ff8)
        (record { links = 0x20 ∷ []; pairs = (3, 0x31) ∷ (2, 0x30) ∷ []; next = Some 4 }) (Done 0)
        ≡ None }
{}
