use crate::ring_op::RingOp;
use vub_base::Listed;
use vub_mem::Region;
use vub_proto::DeviceOp;

/// A change of the table of guest memory.
#[derive(Debug, Drop)]
pub enum TableOp {
    Replace(Listed<Region>),
    Insert(Region),
    Remove { start: u64, len: u64 },
}

/// A small step of a control request.
#[derive(Debug, Drop)]
pub enum Small {
    /// The event becomes the kick of this queue alone.
    Claim {
        object: u32,
        queue: u32,
    },
    /// No queue claims the event any more.
    Release {
        object: u32,
    },
    /// The event joins the worker's interest list.
    Add {
        worker: u32,
        object: u32,
        token: u64,
    },
    /// It leaves that list.
    Delete {
        worker: u32,
        object: u32,
    },
    /// The event joins the worker's interest list as a listener.
    Listen {
        worker: u32,
        object: u32,
        token: u64,
    },
    /// It leaves that list, if its token is greater than `above`.
    Unlisten {
        worker: u32,
        object: u32,
        above: u64,
    },
    /// 1 is added to a worker's bell or exit object.
    Bell {
        object: u32,
    },
    /// The event number leaves the worker's pending set.
    Remove {
        worker: u32,
        number: u32,
    },
    /// It joins that set.
    Insert {
        worker: u32,
        number: u32,
    },
    /// A ring is changed.
    Set {
        queue: u32,
        op: RingOp,
    },
    /// A ring gets its addresses, and the next used index that stands at them.
    Info {
        queue: u32,
        desc: u64,
        avail: u64,
        used: u64,
    },
    /// The table of guest memory is changed.
    Table(TableOp),
    /// Guest memory gets a log.
    Log {
        object: u32,
        offset: u64,
        size: u64,
    },
    /// The device is called.
    Device(DeviceOp),
    /// The request is answered.
    Answer,
}
