//! The steps that make the diagrams of a netlist's signals.
#![tactic(auto)]

mod covers;
mod fault;
mod laws;
mod plan;
mod planner;
mod steps;

pub use fault::PlanFault;
pub use laws::{steps_go_on, values_are_unique, values_exist};
pub use plan::NetPlan;
pub use planner::{Planner, plan_signals};
pub use steps::{MOST_STEPS, NOT_BOTH};
