//! The plan of each control request: its small steps, fixed where the request begins.
#![tactic(auto)]

mod addresses;
mod blocks;
mod features;
mod half;
mod memory;
mod others;
mod places;
mod planning;
mod requests;
mod rings;
mod session;
mod steps;
mod wired;

pub use features::known_at;
pub use half::{Due, Half, Head, Stage, Turn};
pub use places::has_bit;
pub use planning::plan;
pub use steps::PlanSteps;
pub use wired::Wired;
