//! Each condition of acceptance: a list that breaks it is not accepted.

ghost use Rattle.std.specs.Prelude.{None, Some};
ghost use Rattle.kx_pages.specs.Bytes.{Mem, Wants};
ghost use Rattle.segments.specs.Values.{want};
ghost use Rattle.list_checker.specs.Walk.{Accepted, IsAccepted};
ghost use Rattle.worked_examples.specs.Kernels.{two_pages, no_bytes};
ghost use Rattle.worked_examples.specs.Lists.{one_move, last_page_first, first_page_first};
ghost use Rattle.worked_examples.specs.Conditions.{NeverAccepted, NeverKept, linked_twice, source_alone, written_twice, over_itself, from_itself};

/// Another head, a link page or a destination that comes twice, a source without a destination, a source that was written
/// before, a page that is wanted and not written, or written and not wanted, a link page that is written, and a control
/// page of the list's own pages.
pub fn conditions_of_plain_lists()
    ensures walk { NeverAccepted 4 0x10 one_move }
    ensures once { NeverAccepted 0x11002 0x10 linked_twice }
    ensures destination_first { NeverAccepted 0x11002 0x10 source_alone }
    ensures written_once { NeverAccepted 0x11002 0x10 written_twice }
    ensures in_order { NeverAccepted 0x20002 0x21 first_page_first }
    ensures whole { (M : Mem) → Accepted M (want (two_pages 2)) 0x11002 0x10 one_move → ⊥ }
    ensures only { (M : Mem) → Accepted M (want no_bytes) 0x11002 0x10 one_move → ⊥ }
    ensures links_unwritten { NeverAccepted 0x2002 0x10 over_itself }
    ensures control_is_link { NeverAccepted 0x11002 0x11 one_move }
    ensures control_is_destination { NeverAccepted 0x11002 2 one_move }
    ensures control_is_source { NeverAccepted 0x11002 0x12 one_move }
{}

/// With context preserved also a page in two pairs, a link page that is a source, and a swap page of the list's own pages.
pub fn conditions_of_kept_lists()
    ensures plain { NeverKept 4 0x10 0x13 one_move }
    ensures apart { NeverKept 0x20002 0x21 0x22 last_page_first }
    ensures links_no_sources { NeverKept 0x11002 0x10 0x13 from_itself }
    ensures swap_is_control { NeverKept 0x11002 0x10 0x10 one_move }
    ensures swap_is_link { NeverKept 0x11002 0x10 0x11 one_move }
    ensures swap_is_destination { NeverKept 0x11002 0x10 2 one_move }
    ensures swap_is_source { NeverKept 0x11002 0x10 0x12 one_move }
{}

/// A list is held to the conditions of plain lists where there is no swap page, and else to those of kept lists.
pub fn conditions_by_mode()
    ensures plain { (M : Mem) (W : Wants) → IsAccepted M W 4 0x10 None one_move → ⊥ }
    ensures kept { (M : Mem) (W : Wants) → IsAccepted M W 0x11002 0x10 (Some 0x10) one_move → ⊥ }
{}
