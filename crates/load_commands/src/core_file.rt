//! `core`: writes the core file of a memory.

ghost use Rattle.std.specs.Prelude.{◌≡◌, ◌<◌, ◌^◌, Ok, IfOk, string_bytes};
ghost use Rattle.page_memory.specs.Contents.{Contents, at};
ghost use Rattle.vmcore_file.specs.File.{core_reading};
ghost use Rattle.vmcore_file.specs.inner.File.{value_of};
ghost use Rattle.file_commands.specs.Answers.{Meets};
ghost use Rattle.file_commands.specs.inner.Calls.{MakesOr, call_answer};
ghost use Rattle.kexec_words.specs.inner.Values.{core_value};
ghost use Rattle.command_parts.specs.Files.{memory_file};
ghost use Rattle.load_commands.specs.CoreFile.{RefusesCore, core_line, cores, core_entry};

use command_parts::{MakeResult, Reason, TakeResult, one_file, take_memory};
use command_table::Role;
use file_commands::{Command, Goods, MakeFault, Stop, run};
use kexec_words::Core as CoreWords;
use kx_edge::{Shelf, Sink};
use list_checker::ListFault;
use page_memory::Memory;
use std::alloc::{AllocError, Global};
use vmcore_file::{Core, CoreFault, make};

/// How `core` is done: the address of the crash headers, and the name of the output.
#[derive(Drop)]
pub(crate) struct WriteCore {
    pub(crate) address: u64,
    pub(crate) out: String,
    /// The headers' address is one.
    pub(crate) ghost inside: { address < 2 ^ 46 },
}

// How many load rows, bytes of notes and bytes a core file has.
fn core_line(alloc: Global, core: &Core) -> Result<String, AllocError>
    ensures { IfOk result (λ s. string_bytes s ≡ core_line (value_of core.now)) }
{
    format!(in alloc;
        "core loads {} notes {} bytes {}\n",
        core.loads,
        core.notes,
        core.bytes.len()
    )
}

// The core of a memory by the headers at an address. The memory is used no more after it.
fn core_of(alloc: Global, memory: Memory, address: u64) -> MakeResult<Core>
    requires { address < 2 ^ 46 }
    ensures { MakesOr (λ c. core_reading (at memory) address ≡ Ok (value_of c))
        (RefusesCore (at memory) address) result }
{
    match make(alloc, &memory, address) {
        Ok(core) => Ok(core),
        Err(fault) => Err(match fault {
            CoreFault::Memory => MakeFault::Memory,
            _ => MakeFault::refused(Reason::Core { fault }),
        }),
    }
}

impl Command<ListFault, Reason> for WriteCore {
    type Names = String;

    type Taken = Memory;

    ghost Inputs = { Contents };

    ghost inputs = { λ m. m };

    ghost takes = { λ n. memory_file (string_bytes n) };

    ghost makes = { λ c. cores c.address (string_bytes c.out) };

    fn take<S: Shelf>(alloc: Global, name: String, shelf: &mut S) -> TakeResult<Memory> {
        take_memory(alloc, name, shelf)
    }

    // Makes the core file, and the line that tells its size.
    fn make(self, alloc: Global, memory: Memory) -> MakeResult<Goods<ListFault>> {
        let core = core_of(alloc, memory, self.address)?;
        let text = core_line(alloc, &core)?;
        let outputs = one_file(alloc, Role::CoreOut, self.out, core.bytes)?;
        Ok(Goods::done(outputs, text))
    }
}

/// Runs `core`: writes the core file of a memory. The address of the headers is one.
pub fn run_core<S: Shelf, O: Sink>(
    alloc: Global,
    words: CoreWords,
    shelf: &mut S,
    out: &mut O,
) -> Result<(), Stop<ListFault, Reason>>
    requires { words.address < 2 ^ 46 }
    ensures { Meets S.Shelf O.Sink (core_entry (core_value words)).command shelf.old out.old
        (call_answer result) shelf.new out.new }
{
    let command = WriteCore {
        address: words.address,
        out: words.out,
    };
    run(alloc, words.memory, command, shelf, out)
}
