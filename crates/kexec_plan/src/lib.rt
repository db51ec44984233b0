//! The plan of a load: which segments a request gives, and how the new kernel starts.
//!
//! A request is a kernel with what belongs to it: an initrd, a command, modules, a purgatory. The plan reads the kernel by
//! its type, finds a place for each part, makes the parts that the kernel finds at its start, and tests the segments. The
//! first refusal in this order is the answer. Places, ends and order are this project's own.
#![tactic(auto)]

mod command;
mod finishing;
mod format;
mod ground;
mod kernels;
mod laying;
mod parts;
mod places;
mod planning;
mod promise;
mod purgatory;
mod request;
mod symbols;
mod table;

pub use plan_faults::{Part, PlanFault};
pub use planning::plan;
pub use promise::{places_are_holes, planned_regions_are_same};
pub use request::{Module, Planned, Request};
