//! Tests of the edge between the program and the outside. What commands do over it is shown by scenes, each device that fails
//! by crates/scenes/data/devices.scenes.
//!
//! Tests that call only what their crates export stand in crates of their own: a build of tests proves their crate once
//! more, and so the crates are proved once.
//!
//! | Module | What it has |
//! |---|---|
//! | `device_tests` | shelves and sinks, in memory and of the host |
//! | `faulty_files` | files of a host that fail in mid-file |
#![tactic(auto)]

#[cfg(test)]
mod device_tests;
#[cfg(test)]
mod faulty_files;
