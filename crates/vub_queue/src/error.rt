ghost use Rattle.std.specs.Prelude.{Some};
ghost use Rattle.vub_queue.specs.Settings.{part_text};

use std::fmt;
use thiserror::Error;

/// A part of a ring.
#[derive(Clone, Copy, Debug, PartialEq, Eq)]
pub enum RingPart {
    Desc,
    Avail,
    Used,
}

/// Why a call of a queue was refused.
#[derive(Clone, Copy, Debug, PartialEq, Eq, Error)]
pub enum QueueError {
    /// The greatest size is no power of two.
    #[error("greatest size of a queue is no power of two")]
    InvalidMaxSize,
    /// The size is no power of two, or is above the greatest.
    #[error("size of a queue is no power of two or too large")]
    InvalidSize,
    /// This part does not have its alignment.
    #[error("{0} is misaligned")]
    Misaligned(RingPart),
    /// A word of the ring that is needed is not in guest memory.
    #[error("word of a ring is outside guest memory")]
    Outside,
    /// The head is no descriptor of the table.
    #[error("descriptor index is not below the queue's size")]
    InvalidDescriptorIndex,
}

impl fmt::Display for RingPart {
    ghost output = { λ part. Some (part_text part) };

    fn fmt<W: fmt::Write>(&self, f: &mut fmt::Formatter<W>) -> fmt::Result {
        match self {
            RingPart::Desc => f.write_str("descriptor table"),
            RingPart::Avail => f.write_str("available ring"),
            RingPart::Used => f.write_str("used ring"),
        }
    }
}
