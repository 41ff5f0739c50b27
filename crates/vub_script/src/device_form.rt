use vub_base::{Bytes, Listed};

/// How the device tracks the pages that it changes.
#[derive(Clone, Copy, Debug, PartialEq, Eq)]
pub enum BitmapForm {
    /// Not at all: no region of guest memory gets a log.
    None,
    /// In a log, with one bit a page.
    Pages,
}

/// What a script says of its device. The device answers its front-end by these constants.
#[derive(Debug, Drop)]
pub struct DeviceForm {
    /// How many queues there are.
    pub queues: u64,
    /// The greatest size of a queue, in descriptors.
    pub max_size: u64,
    /// For each worker the queues that it serves: bit `i` of its mask is queue `i`.
    pub masks: Listed<u64>,
    /// The feature bits that are offered (virtio 1.2, section 2.2; vhost-user, "Feature bits").
    pub features: u64,
    /// The protocol feature bits that are offered (vhost-user, "Protocol features").
    pub protocol: u64,
    /// The bytes of the configuration space.
    pub config: Bytes,
    /// How changed pages are tracked.
    pub bitmap: BitmapForm,
    /// For each worker the event object that ends it, or none.
    pub exits: Listed<Option<u32>>,
    /// The numbers of the calls that the device refuses, counted from 0 over the run.
    pub refuse: Listed<u64>,
}
