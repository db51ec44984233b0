//! Tests of lists and loads that no scene can have: calls of the library, what a refusal gives back, each prefix of a
//! record, and the greatest load. What commands make of lists, records, events and pairs is shown by
//! crates/scenes/data.
//!
//! Tests that call only what their crates export stand in crates of their own: a build of tests proves their crate once
//! more, and so the crates are proved once.
//!
//! | Module | What it has |
//! |---|---|
//! | `item_tests` | a word by itself |
//! | `machine_tests` | a step by itself |
//! | `load_record_tests` | each prefix of a record, and its first segment's buffer |
//! | `load_states_tests`, `exchange_tests` | a load from its segments to its run, and the one with most exchanges |
#![tactic(auto)]

#[cfg(test)]
mod exchange_tests;
#[cfg(test)]
mod item_tests;
#[cfg(test)]
mod load_record_tests;
#[cfg(test)]
mod load_states_tests;
#[cfg(test)]
mod machine_tests;
