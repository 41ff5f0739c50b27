/// What a party passes before it asks the service for the reply to an entry: it holds no lock then. A test stops one
/// party here while others go on.
pub trait Gate {
    /// Returns when the entry of this number may be served.
    fn pass(&self, queue: u32, number: u64);
}

/// A gate that is always open.
#[derive(Clone, Copy, Debug)]
pub struct NoGate;

impl Gate for NoGate {
    fn pass(&self, _queue: u32, _number: u64) {}
}
