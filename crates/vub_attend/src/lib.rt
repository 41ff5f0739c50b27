//! The loop of a control thread: it takes the requests of a link, plays each over the parts, and gives its answer.
#![tactic(auto)]

mod attending;
mod link;
mod mem_link;
mod naming;
mod objects;
mod playing;

pub use attending::attend;
pub use link::{Closer, Link, LinkFailed};
pub use mem_link::{MemLink, NoCloser};
pub use naming::Named;
pub use objects::ObjectParts;
