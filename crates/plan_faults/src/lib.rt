//! Why a request to load a kernel has no plan: the faults of formats, of places and of segments as one fault, with its
//! sentence.
//!
//! It stands below the plan, so that what only tells of a fault, as the reasons and the sentences of commands, does not wait
//! for the plan.
#![tactic(auto)]

mod fault;

pub use fault::{Part, PlanFault};
