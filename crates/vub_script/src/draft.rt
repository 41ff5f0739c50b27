use crate::device_form::DeviceForm;
use crate::service_form::ServiceForm;
use vub_base::{Bytes, Listed};
use vub_model::{GivenRegion, GivenRing, Guest};
use vub_proto::Request;

/// An object of the set-up as a script says it.
#[derive(Debug, Drop)]
pub enum ObjectDraft {
    /// An event counter with these flags (eventfd(2)).
    Event { flags: u32 },
    /// So many zero bytes.
    Zeros { length: u64 },
    /// These bytes.
    Content(Bytes),
    /// A log of dirty pages of so many bytes.
    Log { len: u32 },
}

/// What a script says, with its numbers as they were read: a content given by its length and the rounds are not
/// written out yet, so that the limits can be tested before memory is asked for.
#[derive(Debug, Drop)]
pub struct Draft {
    pub objects: Listed<ObjectDraft>,
    pub regions: Listed<GivenRegion>,
    pub rings: Listed<GivenRing>,
    pub requests: Listed<Request>,
    pub guest: Listed<Guest>,
    pub device: DeviceForm,
    pub service: ServiceForm,
    /// The parties of the first turns.
    pub listed: Listed<u32>,
    /// How many times every party has a turn after them.
    pub rounds: u64,
}
