//! The daemon: workers and a control thread over parts under locks (`VhostUserDaemon` of the Rust crate
//! `vhost-user-backend`).
#![tactic(auto)]

mod connecting;
mod connection;
mod daemon;
mod duties;
mod ends;
mod error;
mod objects;
mod opening;
mod starting;
mod tasks;
mod verdicts;

pub use connection::ShutdownHandle;
pub use daemon::VhostUserDaemon;
pub use duties::{Control, DaemonEnd, DaemonJob, Duty, WorkerEnd};
pub use ends::Report;
pub use error::Error;
pub use verdicts::{serve_verdict, wait_verdict};
