ghost use Rattle.std.specs.Prelude.{◌≡◌};
ghost use Rattle.vub_share.specs.Statuses.{status_of};

use crate::status::Status;
use std::error::Error;
use std::fmt;
use vub_model::SetupFault;
use vub_script::{Fault, Limit};

/// Why a script can't be run.
#[derive(Clone, Copy, Debug, PartialEq, Eq)]
pub enum Unfit {
    /// It is past a limit.
    Limit(Limit),
    /// Its set-up fails a test.
    Setup(SetupFault),
}

/// Shows a limit with the number that is too great, and a test by the place that fails it, as a JSON pointer into the
/// script, and what the test asks.
impl fmt::Display for Unfit {
    fn fmt<W: fmt::Write>(&self, f: &mut fmt::Formatter<W>) -> fmt::Result {
        match self {
            Unfit::Limit(limit) => write!(f, "{limit}"),
            Unfit::Setup(fault) => write_test(f, *fault),
        }
    }
}

impl Error for Unfit {}

/// Writes which test fails, and what it asks.
fn write_test<W: fmt::Write>(f: &mut fmt::Formatter<W>, fault: SetupFault) -> fmt::Result {
    match fault {
        SetupFault::Queues => f.write_str("/queues: at most 64 queues are allowed"),
        SetupFault::Workers => f.write_str("/masks: at most 64 workers are allowed"),
        SetupFault::QueueSize => {
            f.write_str("/max_size: this is to be a power of two from 1 to 32768")
        }
        SetupFault::Exit(at) => write!(f, "/exits/{at}: this is to be an event's number"),
        SetupFault::Region(at) => {
            write!(f, "/regions/{at}: ")?;
            f.write_str(REGION_TEST)
        }
        SetupFault::Ring(at) => {
            write!(f, "/rings/{at}: ")?;
            f.write_str(RING_TEST)
        }
        SetupFault::Request(at) => {
            write!(f, "/requests/{at}: ")?;
            f.write_str(REQUEST_TEST)
        }
        SetupFault::Guest(at) => {
            write!(f, "/guest/{at}: ")?;
            f.write_str(GUEST_TEST)
        }
        SetupFault::Log(at) => write!(f, "/objects/{at}: a log is to have at least one byte"),
    }
}

const REGION_TEST: &str =
    "a region's object is to be a content; regions are not empty, stand in order and apart, and end \
within their content and the addresses";

const RING_TEST: &str =
    "a ring's queue is to be one of the device's and given once, its size a power of two up to \
max_size, its addresses multiples of 16, 2 and 4, its kick and call events, and its kick no other ring's and no exit";

const REQUEST_TEST: &str =
    "a request is to name objects that are there, events where it wants them and contents where it \
wants those, a log for set_log_base, and a worker that is there";

const GUEST_TEST: &str =
    "an action is to store within a content that is there, to signal an event or to harvest a word that its log \
has, and there are at most 1048576";

/// Why there is no run.
#[derive(Debug, Drop, thiserror::Error)]
pub enum NoRun {
    /// The source had a fault.
    #[error("reading failed")]
    Read,
    /// More bytes were read than a script may have.
    #[error("the script has more than 16777216 bytes")]
    TooLong,
    /// What was read is no script.
    #[error("{0}")]
    NotAScript(Fault),
    /// The script is past a limit, or its set-up can't be run.
    #[error("{0}")]
    Unfit(Unfit),
    /// Memory was refused.
    #[error("memory was refused")]
    Memory,
}

impl NoRun {
    /// How the program ends then.
    pub fn status(&self) -> Status
        ensures { result ≡ status_of self.now }
    {
        match self {
            NoRun::Read => Status::Read,
            NoRun::TooLong => Status::TooLong,
            NoRun::NotAScript(_) => Status::NotAScript,
            NoRun::Unfit(_) => Status::SetUp,
            NoRun::Memory => Status::Memory,
        }
    }
}
