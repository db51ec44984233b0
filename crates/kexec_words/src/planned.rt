//! The words of `boot` and `load`.

ghost use Rattle.std.specs.Prelude.{◌≡◌, IfOk};
ghost use Rattle.kexec_words.specs.Meaning.{inputs_of, image_from, image_where, boot_in, load_in};
ghost use Rattle.kexec_words.specs.inner.Meaning.{Answers};
ghost use Rattle.kexec_words.specs.inner.Given.{given_values};
ghost use Rattle.kexec_words.specs.inner.Values.{inputs_value, boot_value, load_value};

use crate::commands::{Boot, Inputs, Load};
use crate::faults::WordsFault;
use crate::given::{Given, flag_in, name_in, names_in, option_in, some_name_in};
use crate::naming::{is_input, is_repeated};
use crate::numbers::{PlanNumbers, TypeWord, plan_numbers};
use command_table::UsageWhy;
use kx_pages::{ImageType, Page};
use std::alloc::{AllocError, Global};

const MOST_MODULES: usize = 12;

fn inputs_in(alloc: Global, given: &[Given<'_>], below: Option<Page>) -> Result<Inputs, AllocError>
    ensures { IfOk result
        (λ i. inputs_value i ≡ inputs_of below (given_values given.now)) }
{
    Ok(Inputs {
        memory: name_in(alloc, given, "MEMORY")?,
        pool: name_in(alloc, given, "POOL")?,
        below,
        map: some_name_in(alloc, given, "map")?,
        kernel: name_in(alloc, given, "KERNEL")?,
        initrd: some_name_in(alloc, given, "initrd")?,
        purgatory: some_name_in(alloc, given, "purgatory")?,
        modules: names_in(alloc, given, "MODULES")?,
        command: some_name_in(alloc, given, "command")?,
    })
}

fn image_of(numbers: PlanNumbers) -> Option<ImageType>
    ensures { result ≡ image_from numbers.kind numbers.at numbers.entry }
{
    match numbers.kind {
        TypeWord::Auto => Some(ImageType::Auto),
        TypeWord::Raw => {
            let at = numbers.at?;
            let entry = numbers.entry.unwrap_or(at);
            Some(ImageType::Raw { at, entry })
        }
        TypeWord::Elf => Some(ImageType::Elf),
        TypeWord::Bzimage => Some(ImageType::Bzimage),
        TypeWord::Multiboot => Some(ImageType::Multiboot),
    }
}

fn image_for(inputs: &Inputs, is_same: bool, numbers: PlanNumbers) -> Result<ImageType, UsageWhy>
    ensures { result ≡ image_where (inputs_value inputs.now) is_same numbers }
{
    if inputs.modules.len() > MOST_MODULES {
        return Err(UsageWhy::TooManyModules);
    }
    if is_same {
        return Err(UsageWhy::SameName);
    }
    let image = image_of(numbers).ok_or(UsageWhy::NeedsAt)?;
    if image.needs_map(inputs.purgatory.is_some()) && inputs.map.is_none() {
        return Err(UsageWhy::NeedsMap);
    }
    Ok(image)
}

pub(crate) fn boot_in(alloc: Global, given: &[Given<'_>]) -> Result<Boot, WordsFault>
    ensures { Answers boot_value (boot_in (given_values given.now)) result }
{
    let numbers = plan_numbers(given, option_in(given, "kept"))?;
    let out = name_in(alloc, given, "OUT")?;
    let inputs = inputs_in(alloc, given, numbers.below)?;
    let kept = numbers.kept;
    let image = image_for(&inputs, is_input(&inputs, &out), numbers)?;
    Ok(Boot {
        inputs,
        out,
        kept,
        image,
    })
}

pub(crate) fn load_in(alloc: Global, given: &[Given<'_>]) -> Result<Load, WordsFault>
    ensures { Answers load_value (load_in (given_values given.now)) result }
{
    let numbers = plan_numbers(given, None)?;
    let out = name_in(alloc, given, "OUT")?;
    let load_record = name_in(alloc, given, "RECORD")?;
    let inputs = inputs_in(alloc, given, numbers.below)?;
    let image = image_for(&inputs, is_repeated(&inputs, &out, &load_record), numbers)?;
    Ok(Load {
        inputs,
        out,
        load_record,
        kept: flag_in(given, "kept"),
        image,
    })
}
