//! A trace: a line for each turn of a run, with its party and its step; and a program over a source, a sink and a place
//! for what it has to say where there is no run.
#![tactic(auto)]

mod kind;
mod past;
mod program;
mod text;
mod words;

pub use program::{Traced, trace_script};
pub use text::print_trace;
