//! Event counters over a host, timers over moments that are handed in, and messages that carry objects of a host beside
//! their bytes: the part of the Rust crate `vmm-sys-util` that needs no interest list.
#![tactic(auto)]

mod event_fd;
mod event_flag;
mod event_pair;
mod eventfd_flags;
mod message;
mod messages;
mod timer;

pub use event_fd::EventFd;
pub use event_flag::EventFlag;
pub use event_pair::{EventConsumer, EventNotifier, new_event_consumer_and_notifier};
pub use eventfd_flags::{EFD_CLOEXEC, EFD_NONBLOCK, EFD_SEMAPHORE};
pub use message::Message;
pub use messages::{IntoIovec, MemSocket, ScmSocket};
pub use timer::TimerFd;
