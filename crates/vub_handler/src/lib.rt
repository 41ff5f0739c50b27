//! The session that plays control requests, one small step at a time.
#![tactic(auto)]

mod acted;
mod acting;
mod asking;
mod changing;
mod copies;
mod due;
mod error;
mod handler;
mod hosting;
mod known;
mod pending;
mod played;
mod ringing;
mod turns;
mod workers;

pub use acted::Acted;
pub use copies::copied_call;
pub use error::VhostUserHandlerError;
pub use handler::VhostUserHandler;
pub use played::{Played, Progress};
pub use vub_loop::EpollHandle;
pub use vub_plan::{Half, Wired};
