//! A device behind a lock, so that several threads may call it: a `VhostUserBackend` that forwards to a
//! `VhostUserBackendMut`.
#![tactic(auto)]

mod mutex;
mod rw_lock;

pub use mutex::MutexBackend;
pub use rw_lock::RwLockBackend;
