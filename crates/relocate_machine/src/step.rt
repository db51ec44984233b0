//! The machine, step by step.

ghost use Rattle.std.specs.Prelude.{◌≡◌, ◌+◌, ◌-◌, ◌/◌, ◌%◌, ◌<◌, ◌≤◌, ◌^◌, false, Some, IsNone, IfSome};
ghost use Rattle.relocate_machine.specs.Machine.{State, start_of, next_word, past_word, after_word, after_move, step_of};
ghost use Rattle.relocate_machine.specs.inner.Writes.{AreHeld, HoldsWrites, IsSameBut, move_writes, word_writes, writes_by, writes_of};
ghost use Rattle.relocate_machine.specs.inner.Reading.{GoesOn, IsPageAt};

use crate::reading::{PageReading, Place, read_page};
use crate::word::{WordKind, address, first_bit};
use kx_pages::{ADDRESS_LIMIT, Mode, PAGE_SIZE, Page};
use page_memory::Memory;
use std::marker::Model;

/// What a step did. This project's own.
#[derive(Clone, Copy, Debug, PartialEq, Eq)]
pub enum Step {
    /// A word was handled, and the run goes on.
    Went,
    /// The done word was handled.
    Ended,
    /// The cursor to read at, the source to move from or the destination to move to is `address`, which is 2^46 or
    /// more; they are looked at in this order. Nothing has changed.
    Off { address: u64 },
}

/// How a run came out. This project's own.
#[derive(Clone, Copy, Debug, PartialEq, Eq)]
pub enum Outcome {
    /// It ended after so many steps, that of the done word included.
    Done { steps: u64 },
    /// It goes on after `limit` steps.
    Running { limit: u64 },
    /// It was off at this address after so many steps.
    Off { address: u64, steps: u64 },
}

/// The pages that a step writes: in plain mode a destination, in kept mode also the source and the swap page. This
/// project's own.
#[derive(Clone, Copy)]
pub struct Writes {
    /// The page that the destination is.
    pub destination: Option<Page>,
    /// The page that is moved, where it is written too.
    pub source: Option<Page>,
    /// The swap page.
    pub swap: Option<Page>,
}

// Steps whose words only read, and the word to handle after them, or the address at which there is none.
#[derive(Drop)]
pub(crate) struct Reading {
    pub(crate) steps: u64,
    pub(crate) word: Result<u64, u64>,
}

const NO_WRITES: Writes = Writes {
    destination: None,
    source: None,
    swap: None,
};

/// The state of a run, but for the memory that it acts on.
#[derive(Drop)]
pub struct Machine {
    first: Option<u64>,
    cursor: u64,
    destination: u64,
    ended: bool,
    mode: Mode,
}

impl Model for Machine {
    ghost use Rattle.std.specs.Prelude.{◌≡◌, ◌%◌};
    ghost use Rattle.relocate_machine.specs.Machine.{Registers};

    ghost Value = { Registers };

    ghost view = { λ m. record {
      first = m.first;
      cursor = m.cursor;
      destination = m.destination;
      ended = m.ended;
      mode = m.mode;
    } };

    ghost invariant = { λ m. (m.cursor % 8 ≡ 0) × (m.destination % 4096 ≡ 0) };
}

impl Machine {
    /// The machine before its first step: the head word is the word to handle, cursor and destination are 0.
    pub fn start(head: u64, mode: Mode) -> Machine
        ensures { result ≡ start_of head mode }
    {
        Machine {
            first: Some(head),
            cursor: 0,
            destination: 0,
            ended: false,
            mode,
        }
    }

    /// The pages that the next step writes: `step` leaves every other page. None where it moves nothing or is off.
    #[tactic(auto, unfolding(crate::specs::inner::Writes::writes_of))]
    pub fn writes(&self, memory: &Memory) -> Writes
        ensures { result ≡ writes_of record { machine = self.now; memory = memory.now } }
    {
        self.writes_by(fetch(self.first, self.cursor, memory))
    }

    // The pages that the step writes which handles this word, or is off at this address.
    pub(crate) fn writes_by(&self, word: Result<u64, u64>) -> Writes
        ensures { result ≡ writes_by self.now word }
    {
        match word {
            Ok(word) => match first_bit(word) {
                WordKind::Source => self.move_writes(address(word)),
                _ => NO_WRITES,
            },
            Err(_) => NO_WRITES,
        }
    }

    fn move_writes(&self, from: u64) -> Writes
        ensures { result ≡ word_writes self.now WordKind.Source from }
    {
        if from >= ADDRESS_LIMIT || self.destination >= ADDRESS_LIMIT {
            return NO_WRITES;
        }
        let destination = Some(page_of(self.destination));
        match self.mode {
            Mode::Plain => Writes {
                destination,
                source: None,
                swap: None,
            },
            Mode::Kept { swap } => Writes {
                destination,
                source: Some(page_of(from)),
                swap: Some(swap),
            },
        }
    }

    /// One step: the word to handle is the head word at first, later the one that memory now has at the cursor, which
    /// then goes on by 8. The machine has not ended, and the pages that the step writes are held. After `Off` nothing
    /// has changed.
    pub fn step(&mut self, memory: &mut Memory) -> Step
        requires running { self.old.ended ≡ false }
        requires held { HoldsWrites record { machine = self.old; memory = memory.old } }
        ensures exact { let old : State = record { machine = self.old; memory = memory.old } in
            (record { machine = self.new; memory = memory.new }, result) ≡ step_of old }
        ensures others { let old : State = record { machine = self.old; memory = memory.old } in
            IsSameBut (writes_of old) memory.old memory.new }
    {
        let word = fetch(self.first, self.cursor, memory);
        self.take(memory, word)
    }

    // One step, of which the word to handle, or the address at which there is none, is known.
    //
    // The cursor goes on by a word whatever the word is, as in `relocate_kernel`, and a link word then sets it anew. The word
    // was read before: the page that it moves may be the one in which it stands. Nothing is changed before each address
    // of the step is known to lie below the limit, so that a step that is off has done nothing.
    #[tactic(auto, unfolding(crate::specs::Machine::step_of))]
    pub(crate) fn take(&mut self, memory: &mut Memory, word: Result<u64, u64>) -> Step
        requires running { self.old.ended ≡ false }
        requires word { word ≡ next_word self.old.first self.old.cursor memory.old }
        requires held { HoldsWrites record { machine = self.old; memory = memory.old } }
        ensures exact { let old : State = record { machine = self.old; memory = memory.old } in
            (record { machine = self.new; memory = memory.new }, result) ≡ step_of old }
        ensures others { let old : State = record { machine = self.old; memory = memory.old } in
            IsSameBut (writes_of old) memory.old memory.new }
    {
        let word = match word {
            Ok(word) => word,
            Err(address) => return Step::Off { address },
        };
        let to = address(word);
        match first_bit(word) {
            WordKind::Destination => {
                self.advance();
                self.destination = to;
                Step::Went
            }
            WordKind::Link => {
                self.advance();
                self.cursor = to;
                Step::Went
            }
            WordKind::Done => {
                self.advance();
                self.ended = true;
                Step::Ended
            }
            WordKind::Source => self.take_source(memory, to),
            WordKind::Nothing => {
                self.advance();
                Step::Went
            }
        }
    }

    // Handles a source word with this address: off where it or the destination is 2^46 or more, and nothing has changed
    // then; otherwise the page there is moved to the destination, which goes on by a page.
    fn take_source(&mut self, memory: &mut Memory, from: u64) -> Step
        requires cursor { IsNone self.old.first → self.old.cursor < 2 ^ 46 }
        requires held { AreHeld memory.old (word_writes self.old WordKind.Source from) }
        ensures { let old : State = record { machine = self.old; memory = memory.old } in
            (record { machine = self.new; memory = memory.new }, result)
            ≡ after_word old (past_word self.old.first self.old) WordKind.Source from }
    {
        if from >= ADDRESS_LIMIT {
            return Step::Off { address: from };
        }
        if self.destination >= ADDRESS_LIMIT {
            return Step::Off {
                address: self.destination,
            };
        }
        move_page(memory, self.mode, page_of(self.destination), page_of(from));
        self.advance();
        self.destination += PAGE_SIZE;
        Step::Went
    }

    // The word was taken.
    fn advance(&mut self)
        requires { IsNone self.old.first → self.old.cursor < 2 ^ 46 }
        ensures { self.new ≡ past_word self.old.first self.old }
    {
        match self.first {
            Some(_) => self.first = None,
            None => self.cursor += 8,
        }
    }

    // Takes at most `most` steps, whose words are of the page at the cursor and only read: the page is looked up once.
    // How many steps these were, and the word to handle after them.
    pub(crate) fn read_words(&mut self, memory: &Memory, most: u64) -> Reading
        ensures steps { result.steps ≤ most }
        ensures word { result.word ≡ next_word self.new.first self.new.cursor memory.now }
        ensures run { GoesOn result.steps record { machine = self.old; memory = memory.now }
            record { machine = self.new; memory = memory.now } }
    {
        let Some(page) = self.page(memory) else {
            let word = fetch(self.first, self.cursor, memory);
            return Reading { steps: 0, word };
        };
        let from = Place {
            cursor: self.cursor,
            destination: self.destination,
        };
        let PageReading { steps, at, word } = read_page(page, from, most);
        self.cursor = at.cursor;
        self.destination = at.destination;
        let word = match word {
            Some(word) => Ok(word),
            None => fetch(None, at.cursor, memory),
        };
        Reading { steps, word }
    }

    // The page at the cursor, where it is held and the word to handle is one of it.
    fn page<'a>(&self, memory: &'a Memory) -> Option<&'a [u8]>
        ensures { IfSome result (λ p. IsPageAt self.now memory.now p.now) }
    {
        if self.first.is_some() || self.cursor >= ADDRESS_LIMIT {
            return None;
        }
        memory.page(page_of(self.cursor))
    }
}

// The word to handle, or the address at which there is none.
fn fetch(first: Option<u64>, cursor: u64, memory: &Memory) -> Result<u64, u64>
    requires { cursor % 8 ≡ 0 }
    ensures { result ≡ next_word first cursor memory.now }
{
    match first {
        Some(word) => Ok(word),
        None if cursor >= ADDRESS_LIMIT => Err(cursor),
        None => Ok(memory.word(cursor)),
    }
}

// The page of an address.
fn page_of(address: u64) -> Page
    requires { address < 2 ^ 46 }
    ensures { result ≡ address / 4096 }
{
    Page::new(address / PAGE_SIZE).unwrap()
}

// Moves page s to page d. With context preserved the two are exchanged by three copies over the swap page, and the order
// counts: the source goes to the swap page first, since the second copy writes it. Where s is d, the page stays as it is.
fn move_page(memory: &mut Memory, mode: Mode, d: Page, s: Page)
    requires { AreHeld memory.old (move_writes mode d s) }
    ensures { memory.new ≡ after_move mode memory.old d s }
{
    match mode {
        Mode::Plain => memory.copy(d, s),
        Mode::Kept { swap } => memory.swap(d, s, swap),
    }
}
