//! Tests of requests that no words can make, and of places among given spans. What commands make of places, starts and
//! refusals is shown by crates/scenes/data: places.scenes, requests.scenes, crash-areas.scenes, information.scenes.
//!
//! Tests that call only what their crates export stand in crates of their own: a build of tests proves their crate once
//! more, and so the crates are proved once.
//!
//! | Module | What it has |
//! |---|---|
//! | `request_tests` | requests that no words can make |
//! | `hole_tests` | searches from both ends, among given spans |
//! | `many_spans_tests` | searches over many spans, which bench/holes.py times |
#![tactic(auto)]

#[cfg(test)]
mod hole_tests;
#[cfg(test)]
mod many_spans_tests;
#[cfg(test)]
mod request_tests;
