//! Laws of a load: what its pages are, and that each condition of the writer's calls can be met.

ghost use Rattle.std.specs.Prelude.{◌≡◌, ◌↔◌, ℕ, true};
ghost use Rattle.kx_pages.specs.Lists.{Has};
ghost use Rattle.kimage_list.specs.inner.Load.{pages_of};
ghost use Rattle.kimage_list.specs.inner.Writers.{IsAwaited, KeepsPages, History, StandsAt, Writer, is_wanted};
ghost use Rattle.kimage_list.specs.inner.Laws.{AlwaysTakes, OneMore, RoomIsThere, PageIsThere, StartIsThere};
ghost use Rattle.kimage_list.specs.inner.Laws.{AllDrawn, OpensUnderWay, FirstPages};

/// Taking never fails below the need.
pub fn taking_never_fails()
    ensures { AlwaysTakes }
{}

/// Each page that is taken serves one request more.
pub fn requests_are_served()
    ensures { OneMore }
{}

/// A draft under way can go on: there is room for each entry, and a page for each wanted page.
pub fn calls_can_be_made()
    ensures room { RoomIsThere }
    ensures page { PageIsThere }
    ensures start { StartIsThere }
{}

/// At the end exactly the need is drawn, and none is filed.
pub fn all_is_drawn()
    ensures { AllDrawn }
{}

/// A list that is begun is under way.
pub fn opens_under_way()
    ensures { OpensUnderWay }
{}

/// After each call the pages drawn are those filed and those in use, a filed page is a wanted page that is not loaded
/// yet, and a source is its own destination or no wanted page.
pub fn pages_are_kept()
    ensures { (h : History) (w : Writer) (s : StandsAt h w) → KeepsPages h s.loading }
{}

/// The control page is the first usable page of the pool that is not wanted, the swap page the second, and the first link
/// page the next one.
pub fn first_pages_are_not_wanted()
    ensures { FirstPages }
{}

/// A page is awaited exactly where it is wanted and has no source entry yet.
pub fn awaited_pages_have_no_entry()
    ensures { (h : History) (w : Writer) → StandsAt h w → (d : ℕ) →
        IsAwaited w d ↔ ((is_wanted h d ≡ true) × (Has d (pages_of h.entries) → ⊥)) }
{}
