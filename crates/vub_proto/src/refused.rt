use thiserror::Error;

/// The device refused a call, with this number (an errno value of the author's choice, as of errno(3)).
#[derive(Clone, Copy, Debug, PartialEq, Eq, Error)]
#[error("device refused the call with {0}")]
pub struct Refused(pub i32);
