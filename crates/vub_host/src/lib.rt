//! Interest lists and poll contexts over a host. With the counters, timers and messages of `vub_counter` and the error
//! numbers of `vub_util`, which are given out again here, this is the surface that a user of the Rust crate
//! `vmm-sys-util` calls. The host itself stands in `vub_event`, whose items are given out again too.
#![tactic(auto)]

mod epoll;
mod poll_context;
mod poll_events;
mod poll_token;
mod refusal;

pub use epoll::{ControlOperation, Epoll, EpollEvent};
pub use poll_context::{EpollContext, PollContext, WatchingEvents, timeout_millis};
pub use poll_events::{EpollEvents, PollEvent, PollEventIter, PollEvents, PollEventsOwned};
pub use poll_token::PollToken;
pub use refusal::errno_of;
pub use vub_counter::{
    EFD_CLOEXEC, EFD_NONBLOCK, EFD_SEMAPHORE, EventConsumer, EventFd, EventFlag, EventNotifier,
    IntoIovec, MemSocket, Message, ScmSocket, TimerFd, new_event_consumer_and_notifier,
};
pub use vub_event::{Event, EventSet, Host, HostError, MemHost, Member, Ready, laws};
pub use vub_util::errno;
