//! The threads of a daemon as threads of std.
#![tactic(auto)]

mod start;

pub use start::start_daemon_job;
