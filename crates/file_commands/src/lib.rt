//! A command over files: it takes files of a shelf, makes goods of them in memory, and delivers these.
//!
//! A [`Command`] says what it takes as one value, a chain of takes (`specs/Taking`): each take names a file and the most
//! bytes of it, and may refuse by what the file holds. From this one value follows all that its answers say: what is read
//! of files that are told, which takes were made, and which of them failed. What it makes of that is a relation
//! (`makes`), and a function that takes no shelf. [`run`] is the one way in which a command is run: all takes in their
//! order, then the goods in memory, then the puts in their order, then one say.
//!
//! So over every shelf and sink, also those that tell nothing:
//!
//! | Answer | What it says |
//! |---|---|
//! | done | all takes were made, goods were made of what they gave, each output was put once, and the text was said once |
//! | not accepted | the same, and the goods had this fault |
//! | unread | the take of exactly this file failed, after those before it; nothing was put or said |
//! | unwritten | the put of exactly this output failed, after those before it; nothing was said |
//! | unsaid | all outputs were put, and the say of the text failed |
//! | too long, refused | the takes, or the goods, refuse for exactly this; nothing was put or said |
//! | memory | some of the takes were made, in their order; nothing was put or said |
//!
//! A take is told the role of its file (`Role` of command_table), and an output has one: it stands in each fault that names
//! the file, for people, who know the file by its word. No definition of what a command takes or makes speaks of it.
//!
//! The crate knows no command and no file format: `kexec_main` has them. All of this is this project's own.
#![tactic(auto)]

mod command;
mod goods;
mod stop;
mod take;

pub use command::{Command, run};
pub use goods::{File, Goods, deliver};
pub use stop::{MakeFault, Stop, TakeFault};
pub use take::{FileParts, take_all, take_apart, take_file, take_optional};
