//! What the call of the host is asked, and what the calls of host and memory say.
use vub_base::Listed;
use vub_event::{EventSet, HostError, Ready};
use vub_mem::{LogError, MemError, Region};

/// A call of the host, with the arguments of the call of its name.
#[derive(Clone, Copy, Debug, PartialEq, Eq)]
pub enum HostOp {
    CreateEvent(u32),
    CreateList,
    Signal(u32, u64),
    Consume(u32),
    Add(u32, u32, EventSet, u64),
    Delete(u32, u32),
    Listen(u32, u32, u64),
    Unlisten(u32, u32, u64),
    ConsumeAs(u32, u32, u64),
    Ready(u32),
    Claim(u32, u32),
    Release(u32),
}

/// What `host` says.
#[derive(Clone, Copy, Debug, PartialEq, Eq)]
pub enum HostSaid {
    Done,
    /// The number of the new object or list.
    Number(u32),
    /// What a counter gave.
    Count(u64),
    /// Whether the object is a member with this token.
    Member(bool),
    /// A ready member, if there is one.
    Ready(Option<Ready>),
    /// The host refused the call, and nothing changed. Neither a fault nor want of memory stands here.
    Refused(HostError),
}

/// What `table` says.
#[derive(Debug, Drop)]
pub enum TableSaid {
    /// All regions of guest memory, after the change.
    Regions(Listed<Region>),
    /// Guest memory refused the change, and nothing changed. Want of memory does not stand here.
    Memory(MemError),
}

/// What `set_log` says.
#[derive(Clone, Copy, Debug, PartialEq, Eq)]
pub enum LogSaid {
    /// Each region has the log.
    Done,
    /// The log was refused, and nothing changed. Neither want of memory nor a spent generation stands here.
    Log(LogError),
}
