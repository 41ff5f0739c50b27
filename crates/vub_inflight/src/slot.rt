/// What a record says of one descriptor (vhost-user: DescStateSplit).
#[derive(Clone, Copy, Debug, PartialEq, Eq)]
pub struct Slot {
    /// Whether the entry whose chain begins at it is in flight: taken, and its use not cleared.
    pub in_flight: bool,
    /// Which take that was: each takes a greater counter than those before.
    pub counter: u64,
}

/// A descriptor that is no head in flight.
pub(crate) const IDLE: Slot = Slot {
    in_flight: false,
    counter: 0,
};
