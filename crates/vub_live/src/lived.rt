ghost use Rattle.std.specs.Prelude.{◌≡◌, ◌↔◌, ℕ, true, false, None, IfSome, IsSome};
ghost use Rattle.vub_base.specs.Causes.{Rose};
ghost use Rattle.vub_daemon.specs.Causes.{Counts, IsMakingError, IsStartError};
ghost use Rattle.vub_daemon.specs.Reports.{IsReportError};
ghost use Rattle.vub_daemon.specs.declared.error.Error.TheVariants as named;
ghost use Rattle.vub_live.specs.Lived.{IsMismatch, IsMissing, is_status, writes};

use vub_daemon::Error;
use vub_handler::VhostUserHandlerError;

/// How the program has ended.
#[derive(Debug, Drop)]
pub struct Lived {
    /// 0 where all was written, 1 for other words, 5 for a fault of the sink, 6 for want of memory, 8 where a thread
    /// was not started, 9 where uses and calls differ.
    pub status: u8,
    /// The Mismatch of the daemon's `close`, at 9 alone.
    pub mismatch: Option<Error>,
}

/// Why there is no report.
#[derive(Debug, Drop)]
pub(crate) enum Missing {
    /// A thread was not started.
    Spawn,
    /// Memory was refused.
    Memory,
    /// Uses and calls differ.
    Mismatch(Error),
}

/// Why an error of a daemon leaves no report.
pub(crate) fn missing_of(error: Error) -> Missing
    ensures made { (max before now : ℕ) → IsMakingError max before now error → IsMissing before now result }
    ensures started { (before now : Counts) → IsStartError named.CreateBackendListener before now error
        → IsMissing before.spawner now.spawner result }
    ensures reported { (before now : ℕ) → IsReportError error → IsMissing before now result }
{
    match error {
        Error::NewVhostUserHandler(VhostUserHandlerError::SpawnVringWorker) => Missing::Spawn,
        Error::StartDaemon => Missing::Spawn,
        Error::Mismatch { used, served } => Missing::Mismatch(Error::Mismatch { used, served }),
        _ => Missing::Memory,
    }
}

impl Lived {
    /// The end with this status, and no Mismatch.
    pub(crate) fn with(status: u8) -> Lived
        ensures { result ≡ record { status = status; mismatch = None } }
    {
        Lived {
            status,
            mismatch: None,
        }
    }

    /// The end without a report.
    pub(crate) fn without(missing: Missing) -> Lived
        ensures words { result.status ≡ 1 → ⊥ }
        ensures spawn { (before now : ℕ) → IsMissing before now missing → result.status ≡ 8 → Rose before now }
        ensures mismatch { (result.status ≡ 9) ↔ IsSome result.mismatch }
        ensures differ { (before now : ℕ) → IsMissing before now missing → IfSome result.mismatch IsMismatch }
        ensures statuses { is_status result.status ≡ true }
        ensures nothing { writes result.status ≡ false }
    {
        match missing {
            Missing::Spawn => Lived::with(8),
            Missing::Memory => Lived::with(6),
            Missing::Mismatch(error) => Lived {
                status: 9,
                mismatch: Some(error),
            },
        }
    }
}

/// What the program says of its end on standard error, after its own name.
pub fn complaint_of(status: u8) -> Option<&'static str> {
    match status {
        1 => Some("words"),
        5 => Some("write"),
        6 => Some("memory"),
        8 => Some("spawn"),
        9 => Some("mismatch"),
        _ => None,
    }
}
