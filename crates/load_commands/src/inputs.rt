//! What `boot`, `load` and `load-panic` take: the memory, the pool or the notes, the memory map, and the files of the
//! kernel, which become the request for a plan.

ghost use Rattle.std.specs.Prelude.{◌≡◌, map, option_map, is_some, string_bytes, IfOk};
ghost use Rattle.file_commands.specs.inner.Calls.{Takes, file_of};
ghost use Rattle.kexec_words.specs.inner.Values.{crash_inputs_value, inputs_value};
ghost use Rattle.kexec_plan.specs.inner.Requests.{request_of};
ghost use Rattle.load_commands.specs.Inputs.{kernel_files, left_after, load_inputs, request_with};
ghost use Rattle.load_commands.specs.inner.Views.{file_in, inputs_of, kernel_bytes, crash_inputs_of};
ghost use Rattle.load_commands.specs.CrashInputs.{crash_inputs, crash_request};

use crate::files::{take_map, take_map_file, take_notes, take_pool};
use crate::load_inputs::{CrashInputs, CrashNames, InputNames, LoadInputs};
use command_parts::{TakeResult, take_memory};
use command_table::Role;
use crash_headers::Note;
use file_commands::{File, take_all, take_file, take_optional};
use kexec_plan::{Module, Request};
use kexec_words::Inputs;
use kx_edge::Shelf;
use kx_pages::{ImageType, KERNEL_LIMIT};
use std::alloc::{AllocError, Global};

/// The most bytes of a purgatory.
const PURGATORY_LIMIT: usize = 16_777_216;

/// The files of a kernel, as they were taken.
#[derive(Drop)]
pub(crate) struct KernelFiles {
    pub(crate) kernel: Vec<u8>,
    pub(crate) initrd: Option<Vec<u8>>,
    pub(crate) purgatory: Option<Vec<u8>>,
    pub(crate) modules: Vec<Module>,
}

// What is left of so many bytes after a file that may be named.
fn left_after(left: usize, bytes: &Option<Vec<u8>>) -> usize
    ensures { result ≡ left_after left (option_map (λ b. b.items) bytes.now) }
{
    match bytes {
        Some(bytes) => left.saturating_sub(bytes.len()),
        None => left,
    }
}

// The modules of a request: a module's text is its file's name.
fn modules_of(alloc: Global, files: Vec<File>) -> Result<Vec<Module>, AllocError>
    ensures { IfOk result (λ v. map file_in v.items ≡ map file_of files.items) }
{
    let mut modules = Vec::new(alloc);
    for file in files {
        modules.push(Module {
            bytes: file.bytes,
            text: file.name.into_bytes(),
        })?;
    }
    Ok(modules)
}

// Takes the files of a kernel in their order.
fn take_kernel<S: Shelf>(
    alloc: Global,
    kernel: String,
    initrd: Option<String>,
    purgatory: Option<String>,
    modules: Vec<String>,
    shelf: &mut S,
) -> TakeResult<KernelFiles>
    ensures takes { Takes S.Shelf
        (kernel_files (string_bytes kernel) (option_map string_bytes initrd)
        (option_map string_bytes purgatory) (map string_bytes modules.items)) kernel_bytes
        shelf.old result shelf.new }
    ensures named { IfOk result (λ f. is_some f.purgatory ≡ is_some purgatory) }
{
    let kernel = take_file(alloc, Role::Kernel, kernel, KERNEL_LIMIT, shelf)?;
    let left = KERNEL_LIMIT - kernel.len();
    let initrd = take_optional(alloc, Role::Initrd, initrd, left, shelf)?;
    let purgatory = take_optional(alloc, Role::Purgatory, purgatory, PURGATORY_LIMIT, shelf)?;
    let left = left_after(left, &initrd);
    let modules = take_all(alloc, Role::Module, modules, left, shelf)?;
    Ok(KernelFiles {
        kernel,
        initrd,
        purgatory,
        modules: modules_of(alloc, modules)?,
    })
}

// The request for the plan of these files.
#[tactic(auto, using(crate::proofs::Modules::modules_of_files))]
fn request_with(
    alloc: Global,
    image: ImageType,
    command: Option<String>,
    files: KernelFiles,
) -> Request
    ensures { request_of result
        ≡ request_with image (option_map string_bytes command) (kernel_bytes files) }
{
    let command = match command {
        Some(text) => Some(text.into_bytes()),
        None => None,
    };
    Request {
        crash: false,
        image,
        kernel: files.kernel,
        initrd: files.initrd,
        command,
        modules: files.modules,
        purgatory: files.purgatory,
        notes: Vec::new(alloc),
    }
}

/// Takes what `boot` and `load` take.
pub(crate) fn take_inputs<S: Shelf>(
    alloc: Global,
    names: InputNames,
    shelf: &mut S,
) -> TakeResult<LoadInputs>
    ensures { Takes S.Shelf (load_inputs names.image (inputs_value names.inputs)) inputs_of
        shelf.old result shelf.new }
{
    let Inputs {
        memory,
        pool,
        below,
        map,
        kernel,
        initrd,
        purgatory,
        modules,
        command,
    } = names.inputs;
    let memory = take_memory(alloc, memory, shelf)?;
    let pool = take_pool(alloc, pool, below, shelf)?;
    let map = take_map(alloc, map, shelf)?;
    let files = take_kernel(alloc, kernel, initrd, purgatory, modules, shelf)?;
    Ok(LoadInputs {
        memory,
        pool,
        map,
        request: request_with(alloc, names.image, command, files),
    })
}

// The request for the plan of a crash kernel of these files.
fn crash_request(
    alloc: Global,
    command: Option<String>,
    notes: Vec<Note>,
    files: KernelFiles,
) -> Request
    ensures { request_of result
        ≡ crash_request (option_map string_bytes command) notes.items (kernel_bytes files) }
{
    let mut request = request_with(alloc, ImageType::Auto, command, files);
    request.crash = true;
    request.notes = notes;
    request
}

/// Takes what `load-panic` takes.
pub(crate) fn take_crash_inputs<S: Shelf>(
    alloc: Global,
    names: CrashNames,
    shelf: &mut S,
) -> TakeResult<CrashInputs>
    ensures { Takes S.Shelf
        (crash_inputs (crash_inputs_value names.inputs) (string_bytes names.map))
        crash_inputs_of shelf.old result shelf.new }
{
    let words = names.inputs;
    let memory = take_memory(alloc, words.memory, shelf)?;
    let map = take_map_file(alloc, names.map, shelf)?;
    let notes = take_notes(alloc, words.notes, shelf)?;
    let modules = Vec::new(alloc);
    let files = take_kernel(
        alloc,
        words.kernel,
        words.initrd,
        words.purgatory,
        modules,
        shelf,
    )?;
    Ok(CrashInputs {
        memory,
        map,
        request: crash_request(alloc, words.command, notes, files),
    })
}
