//! What the words of command lines mean, tried on worked examples.
//!
//! Nothing here is called. Each function has the name of an example, and its clauses say what the definitions of
//! command_table and kexec_words give for it, by computing. In the examples m is a memory, p a pool, k a kernel, o an
//! output, r a record, f a memory map, i an initrd, u a purgatory, n notes, q pairs, v events, c a kernel's command
//! line, and x and y are modules.
#![tactic(auto)]

mod answers;
mod apps;
mod arguments;
mod boot_lines;
mod forms;
mod images;
mod load_lines;
mod load_rows;
mod names;
mod numbers;
mod orders;
mod other_lines;
mod other_rows;
mod reasons;
mod refusals;
mod rows;

pub use answers::{
    answers_and_their_refusals, refusals_of_the_parser, words_behind_a_name, words_of_a_command,
};
pub use apps::{
    command_of_the_parser, commands_of_the_parser, commands_that_are_simple, rules_of_arguments,
    rules_of_forms,
};
pub use arguments::{
    arguments_of_commands, forms_of_arguments, kinds_of_arguments, names_for_the_parser,
    options_of_the_table, values_of_options, words_of_the_table,
};
pub use boot_lines::{
    boot_in_other_orders, boot_with_a_type, boot_with_all_options, boot_with_one_option,
    boot_within_its_limits,
};
pub use forms::{
    first_fault_of_a_plan, numbers_of_a_plan, numbers_of_a_trace, options_and_their_forms,
    words_of_addresses, words_of_limits, words_of_runs, words_of_swap_pages, words_of_types,
};
pub use images::{reasons_in_their_order, types_that_need_a_map, types_with_their_addresses};
pub use load_lines::{load_of_a_crash_kernel, load_with_all_options, load_with_one_option};
pub use load_rows::{
    boot_in_rows, crash_load_in_rows, inputs_in_rows, load_in_rows, plan_numbers_in_rows,
};
pub use names::{
    files_of_a_crash_load, files_that_are_read, name_before_others, names_among_others,
    names_of_commands, outputs_with_the_same_name,
};
pub use numbers::{
    addresses_of_crash_headers, characters_beside_the_digits, decimal_numbers, hexadecimal_numbers,
    limits_of_the_pool, numbers_of_samples, numbers_of_steps, page_addresses,
};
pub use orders::{two_numbers, two_reasons, two_reasons_of_other_commands};
pub use other_lines::{
    boots_of_a_resident_kernel, checks_and_dumps, drills_and_cores, migrations_and_samples,
    runs_of_a_record, traces_of_a_list,
};
pub use other_rows::{
    boot_resident_in_rows, core_in_rows, drill_in_rows, exec_in_rows, migrate_and_sample_in_rows,
    record_names_in_rows, trace_in_rows,
};
pub use reasons::{
    lines_with_a_wrong_number, lines_with_too_many_modules, lines_without_a_map,
    lines_without_an_address, output_of_boot_is_an_input, outputs_of_a_crash_load_are_inputs,
    outputs_of_load_are_inputs, outputs_of_other_commands_are_inputs,
};
pub use refusals::{
    lines_with_a_word_too_few, lines_with_a_word_too_many, lines_with_a_wrong_option,
    lines_with_an_option_of_another_command, lines_without_a_command,
};
pub use rows::{
    flags_in_rows, options_in_rows, rows_of_commands, several_words_in_rows, words_in_rows,
};
