//! Accepted lists, which can be run.

ghost use Rattle.std.specs.Prelude.{◌≡◌, ℕ, List, map, IsSome, Some};
ghost use Rattle.std.specs.List.{AllByRecursion};
ghost use Rattle.page_memory.specs.Contents.{at};
ghost use Rattle.relocate_machine.specs.inner.Writes.{AreHeld, move_writes};
ghost use Rattle.segments.specs.Values.{overlay, want};
ghost use Rattle.segments.specs.inner.Rules.{IsBare};
ghost use Rattle.kx_pages.specs.Modes.{swap_page};
ghost use Rattle.list_checker.specs.Checked.{as_pair};
ghost use Rattle.list_checker.specs.inner.Checked.{IsAccept};
ghost use Rattle.load_states.specs.Exchange.{exchange};
ghost use Rattle.load_states.specs.States.{swap_of, with_memory};
ghost use Rattle.load_states.specs.inner.States.{checked_of};
ghost use Rattle.load_states.specs.Ready.{Told};
ghost use Rattle.load_states.specs.inner.Ready.{HoldsPairs};
ghost use Rattle.load_states.specs.Runs.{EndsAfter};
ghost use Rattle.load_states.specs.inner.Runs.{RunsTo};
ghost use Rattle.load_states.specs.inner.Answers.{IsMadeOf};

use crate::loaded::Loaded;
use crate::ran::{RanKept, RanPlain};
use crate::run::run_to_end;
use kx_pages::{Image, Mode};
use list_checker::Accept;
use page_memory::Memory;
use segments::Segments;
use std::marker::Model;

/// An accepted list, by its mode.
#[derive(Drop)]
pub enum Accepted {
    /// The image's mode is plain.
    Plain(AcceptedPlain),
    /// Context is preserved.
    Kept(AcceptedKept),
}

// The state of an accepted list, by its mode. Each page that its run writes is held.
pub(crate) fn of_mode(loaded: Loaded, accept: Accept) -> Accepted
    requires told { IsAccept loaded.memory loaded.segments loaded.image accept }
    requires bare { IsBare loaded.segments }
    requires held { AllByRecursion (λ q.
        AreHeld loaded.memory (move_writes loaded.image.mode q.0 q.1))
        (map as_pair accept.pairs.items) }
    ensures { IsMadeOf loaded accept result }
{
    match loaded.image().mode {
        Mode::Plain => Accepted::Plain(AcceptedPlain { loaded, accept }),
        Mode::Kept { swap: _ } => Accepted::Kept(AcceptedKept { loaded, accept }),
    }
}

/// A plain list that is accepted in the memory that this owns. Each page that its run writes is held.
#[derive(Drop)]
pub struct AcceptedPlain {
    loaded: Loaded,
    accept: Accept,
}

impl Model for AcceptedPlain {
    ghost use Rattle.load_states.specs.States.{Checked};
    ghost use Rattle.load_states.specs.inner.States.{checked_code, checked_of};
    ghost use Rattle.load_states.specs.inner.Ready.{IsReadyPlain};

    ghost Value = { Checked };

    ghost coded = { checked_code };

    ghost view = { λ s. checked_of s.loaded s.accept };

    ghost invariant = { λ s. IsReadyPlain (checked_of s.loaded s.accept) };
}

impl AcceptedPlain {
    /// What the checker told of the list: the words of its walk, its link pages and its pairs. The list is accepted.
    pub fn accept_data(&self) -> &Accept
        ensures words { result.now.words ≡ self.now.words }
        ensures links { result.now.links ≡ self.now.links }
        ensures pairs { map as_pair result.now.pairs.items ≡ self.now.pairs }
        ensures accepted { Told self.now.load self.now.words self.now.links self.now.pairs }
        // The machine's run of it, from the memory that this owns, is done after as many steps as the walk has words.
        ensures ends { EndsAfter self.now.load self.now.words }
        // Each page that the run writes is held.
        ensures held { HoldsPairs self.now.load.memory self.now.load.image.mode self.now.pairs }
    {
        &self.accept
    }

    /// The memory.
    pub fn memory(&self) -> &Memory
        ensures { result.now ≡ self.now.load.memory }
    {
        self.loaded.memory()
    }

    /// What running the list takes. Its mode is plain.
    pub fn image(&self) -> Image
        ensures value { result ≡ self.now.load.image }
        ensures plain { self.now.load.image.mode ≡ Mode.Plain }
    {
        self.loaded.image()
    }

    /// The segments that the list is for.
    pub fn segments(&self) -> &Segments
        ensures { result.now ≡ self.now.load.segments }
    {
        self.loaded.segments()
    }

    // This is the point of no return: where it is reached, the old kernel is gone. So all that can fail comes before: the
    // list is accepted in this very memory, which nothing has touched since, as the state owns it; each page that is
    // written is held; and the walk's number of words bounds the run.
    /// Runs the list. It has no refusal and takes no memory. It takes exactly as many steps as the walk has words, leaves
    /// each page of the segments what it is to have, and every other page as it was.
    pub fn exec(self) -> RanPlain
        ensures steps { result.steps ≡ self.words }
        ensures run { RunsTo self.load self.words result.memory }
        ensures memory { (p : ℕ) →
            at result.memory p ≡ overlay (at self.load.memory) (want self.load.segments) p }
        ensures sets { result.memory.sets ≡ self.load.memory.sets }
    {
        let AcceptedPlain { loaded, accept } = self;
        let (mut memory, _, image, _) = loaded.parts();
        let steps = run_to_end(&mut memory, image.head, image.mode, accept.words);
        RanPlain::new(memory, steps)
    }
}

/// A list that is accepted with context preserved in the memory that this owns. Each page that its runs write is held.
#[derive(Drop)]
pub struct AcceptedKept {
    loaded: Loaded,
    accept: Accept,
}

impl Model for AcceptedKept {
    ghost use Rattle.load_states.specs.States.{Checked};
    ghost use Rattle.load_states.specs.inner.States.{checked_code, checked_of};
    ghost use Rattle.load_states.specs.inner.Ready.{IsReadyKept};

    ghost Value = { Checked };

    ghost coded = { checked_code };

    ghost view = { λ s. checked_of s.loaded s.accept };

    ghost invariant = { λ s. IsReadyKept (checked_of s.loaded s.accept) };
}

impl AcceptedKept {
    /// What the checker told of the list: the words of its walk, its link pages and its pairs. The list is accepted.
    pub fn accept_data(&self) -> &Accept
        ensures words { result.now.words ≡ self.now.words }
        ensures links { result.now.links ≡ self.now.links }
        ensures pairs { map as_pair result.now.pairs.items ≡ self.now.pairs }
        ensures accepted { Told self.now.load self.now.words self.now.links self.now.pairs }
        // The machine's run of it, from the memory that this owns, is done after as many steps as the walk has words.
        ensures ends { EndsAfter self.now.load self.now.words }
        // Each page that the run writes is held.
        ensures held { HoldsPairs self.now.load.memory self.now.load.image.mode self.now.pairs }
    {
        &self.accept
    }

    /// The memory.
    pub fn memory(&self) -> &Memory
        ensures { result.now ≡ self.now.load.memory }
    {
        self.loaded.memory()
    }

    /// What running the list takes. Its mode has a swap page.
    pub fn image(&self) -> Image
        ensures value { result ≡ self.now.load.image }
        ensures kept { IsSome (swap_page self.now.load.image.mode) }
    {
        self.loaded.image()
    }

    /// The segments that the list is for.
    pub fn segments(&self) -> &Segments
        ensures { result.now ≡ self.now.load.segments }
    {
        self.loaded.segments()
    }

    // An accepted list has each page in one pair at most, so its run is an exchange, page by page, that undoes itself: what
    // ran is kept with its list, for the way back. The words are as many after the run as before, since no link page was
    // moved.
    /// Runs the list. It has no refusal and takes no memory. It takes exactly as many steps as the walk has words, which
    /// `steps` tells of what ran, and exchanges the two pages of each pair, so that each page of the segments is what it
    /// is to be. All else stays.
    pub fn exec(self) -> RanKept
        ensures run { RunsTo self.load self.words result.load.memory }
        ensures memory { (p : ℕ) →
            at result.load.memory p ≡ exchange (at self.load.memory) self.pairs
            (swap_of self.load) p }
        ensures arrived { (p : ℕ) (bytes : List ℕ) → want self.load.segments p ≡ Some bytes →
            at result.load.memory p ≡ bytes }
        ensures sets { result.load.memory.sets ≡ self.load.memory.sets }
        ensures rest { result ≡ record self { load = with_memory self.load result.load.memory } }
    {
        let AcceptedKept { loaded, mut accept } = self;
        let (mut memory, pool, image, segments) = loaded.parts();
        accept.words = run_to_end(&mut memory, image.head, image.mode, accept.words);
        RanKept::new(Loaded::from_parts(memory, pool, image, segments), accept)
    }
}
