use crate::records::Records;
use vub_handler::VhostUserHandler;
use vub_loop::VringEpollHandler;
use vub_model::DeviceCall;
use vub_plan::Half;
use vub_proto::Answer;
use vub_vring::Store;

/// The parties with what they share, but for the service and the lists of a set-up.
#[derive(Drop)]
pub(crate) struct Machine {
    pub store: Store,
    /// The session of control.
    pub handler: VhostUserHandler,
    /// What is left of the request at hand.
    pub half: Half,
    /// How many requests were begun.
    pub asked: usize,
    /// The answers so far, in order.
    pub answers: Vec<Answer>,
    /// The calls of the device so far, in order.
    pub calls: Vec<DeviceCall>,
    /// The workers, by number.
    pub workers: Vec<VringEpollHandler>,
    /// How many actions of the guest are done.
    pub acted: usize,
    pub records: Records,
}
