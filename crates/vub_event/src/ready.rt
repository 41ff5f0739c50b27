/// What a host reports for a ready member of an interest list.
#[derive(Clone, Copy, Debug, PartialEq, Eq)]
pub struct Ready {
    /// The number of the object.
    pub object: u32,
    /// The bits of [`EventSet`](crate::EventSet) with which it is ready: IN, OUT and HANG_UP.
    pub events: u32,
    /// The member's token.
    pub token: u64,
}
