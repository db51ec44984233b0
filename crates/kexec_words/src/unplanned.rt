//! The words of each command but `boot` and `load`.

ghost use Rattle.std.specs.Prelude.{◌≡◌, IfOk, map, option_map, string_bytes};
ghost use Rattle.kexec_words.specs.Meaning.{crash_inputs_of, load_panic_with, load_panic_in, load_names_in, exec_in, trace_in, migrate_in, sample_in, boot_resident_in, drill_in, core_in};
ghost use Rattle.kexec_words.specs.inner.Given.{given_values};
ghost use Rattle.kexec_words.specs.inner.Meaning.{Answers};
ghost use Rattle.kexec_words.specs.inner.Values.{crash_inputs_value, load_panic_value, load_names_value, exec_value, trace_value, migrate_value, number_value, boot_resident_value, drill_value, core_value};

use crate::commands::{
    BootResident, Core, CrashInputs, Drill, Exec, LoadNames, LoadPanic, Migrate, Trace,
};
use crate::faults::WordsFault;
use crate::given::{Given, flag_in, name_in, option_in, some_name_in, word_in};
use crate::naming::{is_given, is_repeated_for_crash};
use crate::numbers::{address_in, core_address, sample_number, trace_numbers};
use command_table::{UsageWhy, Which};
use std::alloc::{AllocError, Global};

fn crash_inputs_in(alloc: Global, given: &[Given<'_>]) -> Result<CrashInputs, AllocError>
    ensures { IfOk result (λ i. crash_inputs_value i
        ≡ crash_inputs_of (given_values given.now)) }
{
    Ok(CrashInputs {
        memory: name_in(alloc, given, "MEMORY")?,
        notes: some_name_in(alloc, given, "notes")?,
        kernel: name_in(alloc, given, "KERNEL")?,
        initrd: some_name_in(alloc, given, "initrd")?,
        purgatory: some_name_in(alloc, given, "purgatory")?,
        command: some_name_in(alloc, given, "command")?,
    })
}

fn load_panic_from(
    inputs: CrashInputs,
    map: Option<String>,
    out: String,
    load_record: String,
) -> Result<LoadPanic, WordsFault>
    ensures { Answers load_panic_value
        (load_panic_with (crash_inputs_value inputs) (option_map string_bytes map)
        (string_bytes out) (string_bytes load_record)) result }
{
    if is_repeated_for_crash(&inputs, &map, &out, &load_record) {
        return Err(UsageWhy::SameName.into());
    }
    let map = map.ok_or(UsageWhy::NeedsMap)?;
    Ok(LoadPanic {
        inputs,
        map,
        out,
        load_record,
    })
}

pub(crate) fn load_panic_in(alloc: Global, given: &[Given<'_>]) -> Result<LoadPanic, WordsFault>
    ensures { Answers load_panic_value (load_panic_in (given_values given.now)) result }
{
    let out = name_in(alloc, given, "OUT")?;
    let load_record = name_in(alloc, given, "RECORD")?;
    let map = some_name_in(alloc, given, "map")?;
    let inputs = crash_inputs_in(alloc, given)?;
    load_panic_from(inputs, map, out, load_record)
}

pub(crate) fn loaded_in(alloc: Global, given: &[Given<'_>]) -> Result<LoadNames, WordsFault>
    ensures { Answers load_names_value (load_names_in (given_values given.now)) result }
{
    Ok(LoadNames {
        memory: name_in(alloc, given, "MEMORY")?,
        load_record: name_in(alloc, given, "RECORD")?,
    })
}

pub(crate) fn exec_in(alloc: Global, given: &[Given<'_>]) -> Result<Exec, WordsFault>
    ensures { Answers exec_value (exec_in (given_values given.now)) result }
{
    let memory = name_in(alloc, given, "MEMORY")?;
    let load_record = name_in(alloc, given, "RECORD")?;
    let out = name_in(alloc, given, "OUT")?;
    if memory == out || load_record == out {
        return Err(UsageWhy::SameName.into());
    }
    Ok(Exec {
        memory,
        load_record,
        out,
        twice: flag_in(given, "twice"),
    })
}

pub(crate) fn trace_in(alloc: Global, given: &[Given<'_>]) -> Result<Trace, WordsFault>
    ensures { Answers trace_value (trace_in (given_values given.now)) result }
{
    let numbers = trace_numbers(given)?;
    let memory = name_in(alloc, given, "MEMORY")?;
    let out = name_in(alloc, given, "OUT")?;
    if memory == out {
        return Err(UsageWhy::SameName.into());
    }
    Ok(Trace {
        memory,
        out,
        head: numbers.head,
        limit: numbers.limit,
        swap: numbers.swap,
    })
}

pub(crate) fn migrate_in(alloc: Global, given: &[Given<'_>]) -> Result<Migrate, WordsFault>
    ensures { Answers migrate_value (migrate_in (given_values given.now)) result }
{
    let load_record = name_in(alloc, given, "RECORD")?;
    let out = name_in(alloc, given, "OUT")?;
    if load_record == out {
        return Err(UsageWhy::SameName.into());
    }
    Ok(Migrate { load_record, out })
}

pub(crate) fn sample_in(given: &[Given<'_>]) -> Result<u64, WordsFault>
    ensures { Answers number_value (sample_in (given_values given.now)) result }
{
    Ok(sample_number(word_in(given, "NUMBER"))?)
}

pub(crate) fn boot_resident_in(
    alloc: Global,
    given: &[Given<'_>],
) -> Result<BootResident, WordsFault>
    ensures { Answers boot_resident_value
        (boot_resident_in (given_values given.now)) result }
{
    let at = address_in(option_in(given, "at"), Which::At)?;
    let memory = name_in(alloc, given, "MEMORY")?;
    let pool = name_in(alloc, given, "POOL")?;
    let out = name_in(alloc, given, "OUT")?;
    let kernel = name_in(alloc, given, "KERNEL")?;
    let pairs = name_in(alloc, given, "PAIRS")?;
    if memory == out || pool == out || kernel == out || pairs == out {
        return Err(UsageWhy::SameName.into());
    }
    let at = at.ok_or(UsageWhy::NeedsAt)?;
    Ok(BootResident {
        memory,
        pool,
        out,
        kernel,
        pairs,
        at,
    })
}

pub(crate) fn drill_in(alloc: Global, given: &[Given<'_>]) -> Result<Drill, WordsFault>
    ensures { Answers drill_value (drill_in (given_values given.now)) result }
{
    let memory = name_in(alloc, given, "MEMORY")?;
    let pool = name_in(alloc, given, "POOL")?;
    let out = name_in(alloc, given, "OUT")?;
    let events = name_in(alloc, given, "EVENTS")?;
    let map = some_name_in(alloc, given, "map")?;
    if memory == out || pool == out || is_given(&map, &out) || events == out {
        return Err(UsageWhy::SameName.into());
    }
    let map = map.ok_or(UsageWhy::NeedsMap)?;
    Ok(Drill {
        memory,
        pool,
        out,
        events,
        map,
    })
}

pub(crate) fn core_in(alloc: Global, given: &[Given<'_>]) -> Result<Core, WordsFault>
    ensures { Answers core_value (core_in (given_values given.now)) result }
{
    let address = core_address(word_in(given, "ADDRESS"))?;
    let memory = name_in(alloc, given, "MEMORY")?;
    let out = name_in(alloc, given, "OUT")?;
    if memory == out {
        return Err(UsageWhy::SameName.into());
    }
    Ok(Core {
        memory,
        out,
        address,
    })
}
