ghost use Rattle.std.specs.Prelude.{◌≡◌};

use thiserror::Error;
use vub_base::OutOfMemory;
use vub_driver::DriverError;
use vub_model::SetupFault;

/// Why there is no conversation: the first of these that holds, where several do; want of memory may come before.
#[derive(Clone, Copy, Debug, PartialEq, Eq, Error)]
pub enum TalkFault {
    /// The layout is none of a driver's; a request or its room is too large for it; or a part of it lies outside the
    /// guest memory of a conversation, which is the addresses from 0x100000 to 0x1fffff.
    #[error("driver: {0}")]
    Driver(DriverError),
    /// No worker of the device serves queue 0.
    #[error("no worker serves queue 0")]
    NoWorker,
    /// The device has too many queues or workers, its greatest queue size is none, a worker of it has an exit object,
    /// or it has no queue of this size.
    #[error("set-up: {0}")]
    Setup(SetupFault),
    /// After the rounds of this batch, counted from 0, a party still had a step.
    #[error("batch {batch} is not at rest")]
    NotAtRest { batch: u64 },
    #[error("out of memory")]
    OutOfMemory,
}

impl From<OutOfMemory> for TalkFault {
    ghost use Rattle.vub_talk.specs.declared.fault.TalkFault.TheVariants.{OutOfMemory};

    ghost from_gives = { λ _ e. e ≡ OutOfMemory };

    fn from(_refused: OutOfMemory) -> TalkFault {
        TalkFault::OutOfMemory
    }
}
