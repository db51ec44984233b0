//! The texts that commands say: addresses and words in lower-case hexadecimal, counts in decimal, a newline after each
//! line.

ghost use Rattle.std.specs.Prelude.{◌≡◌, ◌++◌, IfOk, OnOk, string_bytes};
ghost use Rattle.command_parts.specs.inner.Ran.{ran_text};
ghost use Rattle.page_memory.specs.Contents.{at};
ghost use Rattle.command_parts.specs.Texts.{accepted_line, crash_line, crash_lines, crash_ran_text, head_line, load_lines, purgatory_line, ran_line, regions_line, start_line};

use crate::counts::ListCounts;
use crate::running::Ran;
use crate::startup::{PurgatoryPlaces, Startup};
use kx_pages::{Image, Mode, Start};
use load_states::RanPlain;
use page_memory::Memory;
use purgatory_link::{RegionTest, test_regions};
use std::alloc::{AllocError, Global};

/// What is told of an accepted list.
pub fn accepted_line(alloc: Global, counts: ListCounts) -> Result<String, AllocError>
    ensures { IfOk result
        (λ s. string_bytes s ≡ accepted_line counts.words counts.links counts.pairs) }
{
    format!(in alloc;
        "accepted words {} links {} pairs {}\n",
        counts.words, counts.links, counts.pairs
    )
}

// The head word, the control page and, with context preserved, the swap page.
fn head_line(alloc: Global, image: &Image) -> Result<String, AllocError>
    ensures { IfOk result (λ s. string_bytes s ≡ head_line image.now) }
{
    let control = image.control.address();
    match image.mode {
        Mode::Plain => format!(in alloc; "head {:x} control {:x}\n", image.head, control),
        Mode::Kept { swap } => {
            format!(in alloc;
                "head {:x} control {:x} swap {:x}\n",
                image.head,
                control,
                swap.address()
            )
        }
    }
}

// Where the new kernel starts, and with which registers.
fn start_line(alloc: Global, start: &Start) -> Result<String, AllocError>
    ensures { IfOk result (λ s. string_bytes s ≡ start_line start.now) }
{
    format!(in alloc;
        "start entry {:x} rax {:x} rbx {:x} rsi {:x}\n",
        start.entry, start.rax, start.rbx, start.rsi
    )
}

/// What a load says: of its list, of what running it takes, and of the new kernel's start.
pub fn load_lines(
    alloc: Global,
    counts: ListCounts,
    image: &Image,
    start: &Start,
) -> Result<String, AllocError>
    ensures { IfOk result (λ s. string_bytes s
        ≡ load_lines counts.words counts.links counts.pairs image.now start.now) }
{
    let mut text = accepted_line(alloc, counts)?;
    text.push_str(&head_line(alloc, image)?)?;
    text.push_str(&start_line(alloc, start)?)?;
    Ok(text)
}

/// Adds a run, and how many steps it took.
pub fn push_ran_line(alloc: Global, text: &mut String, steps: u64) -> Result<(), AllocError>
    ensures { OnOk result (string_bytes text.new ≡ string_bytes text.old ++ ran_line steps) }
{
    text.push_str(&format!(in alloc; "ran {steps}\n")?)?;
    Ok(())
}

// What the test of the purgatory's regions found.
fn regions_line(test: RegionTest) -> &'static str
    ensures { result.now ≡ regions_line test }
{
    match test {
        RegionTest::Same => "regions same\n",
        RegionTest::Differs { .. } => "regions differ\n",
        RegionTest::Wild { .. } => "regions wild\n",
    }
}

// Adds the test of the purgatory's regions in this memory, where there is a purgatory.
fn push_purgatory_line(
    text: &mut String,
    memory: &Memory,
    purgatory: Option<PurgatoryPlaces>,
) -> Result<(), AllocError>
    ensures { OnOk result (string_bytes text.new
        ≡ string_bytes text.old ++ purgatory_line (at memory.now) purgatory) }
{
    if let Some(PurgatoryPlaces { regions, digest }) = purgatory {
        text.push_str(regions_line(test_regions(memory, regions, digest)))?;
    }
    Ok(())
}

/// What is said of a list that ran, and of each run: the one text of a command that runs a list.
pub fn ran_text(alloc: Global, ran: &Ran, startup: Startup) -> Result<String, AllocError>
    ensures { IfOk result (λ s. string_bytes s ≡ ran_text ran.now startup) }
{
    let mut text = load_lines(alloc, ran.counts, &ran.image, &startup.start)?;
    push_ran_line(alloc, &mut text, ran.steps)?;
    match ran.back {
        Some(steps) => push_ran_line(alloc, &mut text, steps)?,
        None => push_purgatory_line(&mut text, &ran.memory, startup.purgatory)?,
    }
    Ok(text)
}

/// How many pages an accepted crash load has.
pub fn crash_line(alloc: Global, pages: u64) -> Result<String, AllocError>
    ensures { IfOk result (λ s. string_bytes s ≡ crash_line pages) }
{
    format!(in alloc; "accepted crash pages {pages}\n")
}

/// What a crash load says: how many pages it has, and how the new kernel starts.
pub fn crash_lines(alloc: Global, pages: u64, start: &Start) -> Result<String, AllocError>
    ensures { IfOk result (λ s. string_bytes s ≡ crash_lines pages start.now) }
{
    let mut text = crash_line(alloc, pages)?;
    text.push_str(&start_line(alloc, start)?)?;
    Ok(text)
}

/// What is said of a crash load of so many pages, and of its run.
pub fn crash_ran_text(
    alloc: Global,
    ran: &RanPlain,
    pages: u64,
    startup: Startup,
) -> Result<String, AllocError>
    ensures { IfOk result (λ s. string_bytes s ≡ crash_ran_text (at ran.now.memory) pages
        ran.now.steps startup) }
{
    let mut text = crash_lines(alloc, pages, &startup.start)?;
    push_ran_line(alloc, &mut text, ran.steps())?;
    push_purgatory_line(&mut text, ran.memory(), startup.purgatory)?;
    Ok(text)
}
