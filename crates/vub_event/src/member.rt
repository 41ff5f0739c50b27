use crate::event_set::EventSet;

/// A member of an interest list.
#[derive(Clone, Copy, Debug, PartialEq, Eq)]
pub struct Member {
    /// The number of the object.
    pub object: u32,
    /// The events that are asked for.
    pub set: EventSet,
    /// What its reports carry.
    pub token: u64,
}
