//! The table of the commands: the arguments of each, what the help says of them, and why words are refused.
#![tactic(auto)]

mod commands;
mod faults;
mod help;
mod layout;
mod names;
mod options;
mod positional;
mod roles;
mod table;

pub use faults::{UsageWhy, Which};
pub use help::{Help, Usage, arguments_of, help_of, usage_of};
pub use names::{Name, name_of};
pub use roles::Role;
pub use table::{Argument, Form, Kind};
