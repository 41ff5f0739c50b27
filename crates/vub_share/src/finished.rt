ghost use Rattle.std.specs.Prelude.{◌≡◌};
ghost use Rattle.vub_share.specs.Endings.{ended};

use crate::status::Status;
use vub_model::Run;

/// How the program has ended.
#[derive(Debug, Drop)]
pub struct Finished {
    /// The exit status; [`Status`] names them.
    pub status: u8,
    /// The run, where there was one and its text did not fail for want of memory: at statuses 0 and 5.
    pub run: Option<Run>,
}

impl Finished {
    /// The ending with this status and run.
    pub fn new(status: Status, run: Option<Run>) -> Finished
        ensures { result ≡ ended status run }
    {
        Finished {
            status: status.number(),
            run,
        }
    }
}
