//! A shelf and a sink that keep a log of their calls, over any other shelf and sink.
//!
//! Contracts of commands speak of files where a shelf tells them, and the host's shelf tells none. A [`Recorder`] stands
//! before any shelf, and a [`RecordingSink`] before any sink: each call is handed on, and kept in a [`Log`], which is data.
//! So what a command took, put and said is known over every shelf and sink, the host's too.
//!
//! A log that is off keeps nothing, and costs nothing: no byte is copied for it. `specs/Replays` says what a log tells of a
//! command, and `specs/Told` which files it tells. All of this is this project's own.
#![tactic(auto)]

mod log;
mod recorder;
mod recording_sink;

pub use log::{Call, Log, Logging};
pub use recorder::Recorder;
pub use recording_sink::RecordingSink;
