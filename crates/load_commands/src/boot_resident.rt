//! `boot-resident`: boots a raw kernel some of whose pages lie in memory already.

ghost use Rattle.std.specs.Prelude.{◌≡◌, ◌++◌, map, string_bytes, IfOk, OnOk};
ghost use Rattle.kx_pages.specs.Lists.{Distinct};
ghost use Rattle.kx_pages.specs.declared.image.ImageType.TheVariants.{Raw};
ghost use Rattle.page_memory.specs.Contents.{at};
ghost use Rattle.page_pool.specs.Pages.{usable_of};
ghost use Rattle.list_checker.specs.Checked.{as_pair};
ghost use Rattle.resident_planner.specs.Made.{IsMade};
ghost use Rattle.file_commands.specs.Answers.{Meets};
ghost use Rattle.file_commands.specs.inner.Calls.{MakesOr, call_answer};
ghost use Rattle.kexec_words.specs.inner.Values.{boot_resident_value, inputs_value};
ghost use Rattle.load_commands.specs.inner.Views.{inputs_of, IsKernel, resident_inputs};
ghost use Rattle.load_commands.specs.BootResident.{HasNoList, RefusesResident, ResidentInputs as Inputs, boots_resident, copied_line, inputs_with_pairs, raw_inputs, boot_resident_entry};
ghost use Rattle.load_commands.specs.inner.Told.{ran_resident};

use crate::files::take_pairs;
use crate::inputs::take_inputs;
use crate::load_inputs::{InputNames, LoadInputs};
use crate::loading::plan_request;
use command_parts::{
    MakeResult, Ran, Reason, TakeResult, load_lines, memory_output, push_ran_line, run_loaded,
};
use file_commands::{Command, Goods, MakeFault, Stop, run};
use kexec_words::{BootResident, Inputs};
use kx_edge::{Shelf, Sink};
use kx_pages::{ImageType, Page, Start};
use list_checker::{ListFault, Pair};
use load_states::Loaded;
use page_memory::Memory;
use page_pool::Pool;
use resident_planner::{Made, ResidentFault, plan_resident};
use segments::Segments;
use std::alloc::{AllocError, Global};

/// How `boot-resident` is done: the name of the output.
#[derive(Drop)]
pub(crate) struct BootByPairs {
    pub(crate) out: String,
}

/// The names of what `boot-resident` takes: of what the load of a raw kernel is made of, and of the pairs.
#[derive(Drop)]
pub(crate) struct ResidentNames {
    pub(crate) load: InputNames,
    pub(crate) pairs: String,
}

/// What `boot-resident` took: what the load of a raw kernel is made of, and the pairs of destination and resident page.
#[derive(Drop)]
pub(crate) struct ResidentInputs {
    pub(crate) load: LoadInputs,
    pub(crate) pairs: Vec<Pair>,
}

// The names of a raw kernel that starts where it lies, and of the files beside it.
fn raw_names(alloc: Global, memory: String, pool: String, kernel: String, at: u64) -> InputNames
    ensures image { result.image ≡ Raw at at }
    ensures inputs { inputs_value result.inputs
        ≡ raw_inputs (string_bytes memory) (string_bytes pool) (string_bytes kernel) }
{
    let inputs = Inputs {
        memory,
        pool,
        below: None,
        map: None,
        kernel,
        initrd: None,
        purgatory: None,
        modules: Vec::new(alloc),
        command: None,
    };
    InputNames {
        image: ImageType::Raw { at, entry: at },
        inputs,
    }
}

// The pages of a pool that can be drawn, in this order.
fn usable_pages(alloc: Global, pool: &Pool) -> Result<Vec<Page>, AllocError>
    ensures pages { IfOk result (λ v. v.items ≡ usable_of pool.now) }
    ensures once { IfOk result (λ v. Distinct v.items) }
{
    let count = pool.left();
    let mut pages = Vec::with_capacity(alloc, count as usize)?;
    for i in 0..count {
        pages.push(pool.page(i))?;
    }
    Ok(pages)
}

// The list of the segments over the pages of the pool.
fn make_list(
    alloc: Global,
    memory: Memory,
    pool: &Pool,
    segments: &Segments,
    pairs: &[Pair],
) -> MakeResult<Made>
    ensures { MakesOr (λ m. IsMade (at memory) segments.now (usable_of pool.now)
        (map as_pair pairs.now) m)
        (HasNoList (at memory) segments.now (usable_of pool.now) (map as_pair pairs.now)) result }
{
    let pages = usable_pages(alloc, pool)?;
    match plan_resident(alloc, memory, &pages, segments, pairs) {
        Ok(made) => Ok(made),
        Err(refused) => Err(match refused.why {
            ResidentFault::Memory => MakeFault::Memory,
            fault => MakeFault::refused(Reason::Resident { fault }),
        }),
    }
}

/// A kernel with its list: how it starts, and how many of its pages are copied that have a resident page.
#[derive(Drop)]
pub(crate) struct ResidentKernel {
    pub(crate) loaded: Loaded,
    pub(crate) start: Start,
    pub(crate) copied: u64,
}

// Plans the kernel, and makes the list of its segments.
fn load_resident(alloc: Global, load: LoadInputs, pairs: &[Pair]) -> MakeResult<ResidentKernel>
    ensures { MakesOr (IsKernel (inputs_of load) (map as_pair pairs.now))
        (RefusesResident (inputs_of load) (map as_pair pairs.now)) result }
{
    let planned = plan_request(alloc, load.request, load.map)?;
    let made = make_list(alloc, load.memory, &load.pool, &planned.segments, pairs)?;
    Ok(ResidentKernel {
        loaded: Loaded::from_files(alloc, made.memory, made.image, planned.segments),
        start: planned.start,
        copied: made.copied,
    })
}

// Adds how many pages have a resident page and another source.
fn push_copied_line(alloc: Global, text: &mut String, copied: u64) -> Result<(), AllocError>
    ensures { OnOk result (string_bytes text.new ≡ string_bytes text.old ++ copied_line copied) }
{
    text.push_str(&format!(in alloc; "copied {copied}\n")?)
}

// What is said of the list, of what it copies, and of its run.
fn resident_text(alloc: Global, ran: &Ran, start: &Start, copied: u64) -> Result<String, AllocError>
    ensures { IfOk result (λ s. string_bytes s ≡ ran_resident ran.now start.now copied) }
{
    let mut text = load_lines(alloc, ran.counts, &ran.image, start)?;
    push_copied_line(alloc, &mut text, copied)?;
    push_ran_line(alloc, &mut text, ran.steps)?;
    Ok(text)
}

impl Command<ListFault, Reason> for BootByPairs {
    type Names = ResidentNames;

    type Taken = ResidentInputs;

    ghost Inputs = { Inputs };

    ghost inputs = { resident_inputs };

    ghost takes = { λ n. inputs_with_pairs n.load.image (inputs_value n.load.inputs)
        (string_bytes n.pairs) };

    ghost makes = { λ b. boots_resident (string_bytes b.out) };

    // Takes what the load is made of, and then the pairs.
    fn take<S: Shelf>(
        alloc: Global,
        names: ResidentNames,
        shelf: &mut S,
    ) -> TakeResult<ResidentInputs> {
        let load = take_inputs(alloc, names.load, shelf)?;
        let pairs = take_pairs(alloc, names.pairs, shelf)?;
        Ok(ResidentInputs { load, pairs })
    }

    // Makes the list and runs it, and makes the file of the memory after the run.
    fn make(self, alloc: Global, taken: ResidentInputs) -> MakeResult<Goods<ListFault>> {
        let kernel = load_resident(alloc, taken.load, &taken.pairs)?;
        let ran = run_loaded(alloc, kernel.loaded, None)?;
        let text = resident_text(alloc, &ran, &kernel.start, kernel.copied)?;
        let outputs = memory_output(alloc, ran.memory, self.out)?;
        Ok(Goods::done(outputs, text))
    }
}

/// Runs `boot-resident`: boots a raw kernel some of whose pages lie in memory already.
pub fn run_boot_resident<S: Shelf, O: Sink>(
    alloc: Global,
    words: BootResident,
    shelf: &mut S,
    out: &mut O,
) -> Result<(), Stop<ListFault, Reason>>
    ensures { Meets S.Shelf O.Sink (boot_resident_entry (boot_resident_value words)).command
        shelf.old out.old
        (call_answer result) shelf.new out.new }
{
    let names = ResidentNames {
        load: raw_names(alloc, words.memory, words.pool, words.kernel, words.at),
        pairs: words.pairs,
    };
    run(alloc, names, BootByPairs { out: words.out }, shelf, out)
}
