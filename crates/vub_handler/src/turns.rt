//! What the refusals of calls make of a plan.
ghost use Rattle.std.specs.Prelude.{◌≡◌};
ghost use Rattle.vub_handler.specs.Acting.{claim_turn, add_turn, listen_turn, unlisten_turn, info_turn, device_turn, host_failed};

use vub_event::HostError;
use vub_plan::Turn;
use vub_proto::{Answer, Cause, DeviceSaid, ListenerError, VhostUserError};
use vub_vring::{HostSaid, TableRingSaid};

/// The request is refused, since the host failed.
pub(crate) fn host_failed() -> Turn
    ensures { result ≡ host_failed }
{
    Turn::Instead(Answer::Failed(VhostUserError::ReqHandlerError(Cause::Host)))
}

/// After a claim: an event that another queue has, or that some list has, is refused.
pub(crate) fn claimed(said: HostSaid) -> Turn
    ensures { result ≡ claim_turn said }
{
    match said {
        HostSaid::Refused(HostError::Held) => {
            Turn::Instead(Answer::Failed(VhostUserError::InvalidParam))
        }
        _ => Turn::Goes,
    }
}

/// After an add: an event that is on the list already is pending there, and its bell was rung.
pub(crate) fn added(said: HostSaid) -> Turn
    ensures { result ≡ add_turn said }
{
    match said {
        HostSaid::Refused(HostError::EEXIST) => Turn::Skips,
        _ => Turn::Goes,
    }
}

/// After a listener was to join a list.
pub(crate) fn listened(said: HostSaid) -> Turn
    ensures { result ≡ listen_turn said }
{
    match said {
        HostSaid::Refused(HostError::EEXIST) => {
            Turn::Instead(Answer::Listener(ListenerError::AlreadyExists))
        }
        _ => Turn::Goes,
    }
}

/// After a listener was to leave a list.
pub(crate) fn unlistened(said: HostSaid) -> Turn
    ensures { result ≡ unlisten_turn said }
{
    match said {
        HostSaid::Refused(HostError::ENOENT) => {
            Turn::Instead(Answer::Listener(ListenerError::NotFound))
        }
        _ => Turn::Goes,
    }
}

/// After a ring got its addresses.
pub(crate) fn addressed(said: TableRingSaid) -> Turn
    ensures { result ≡ info_turn said }
{
    match said {
        TableRingSaid::Outside => {
            Turn::Tells(Answer::Failed(VhostUserError::BackendInternalError))
        }
        _ => Turn::Goes,
    }
}

/// After a call of the device.
pub(crate) fn asked(said: DeviceSaid) -> Turn
    ensures { result ≡ device_turn said }
{
    match said {
        DeviceSaid::Done => Turn::Goes,
        DeviceSaid::Content(bytes) => Turn::Tells(Answer::Content(bytes)),
        DeviceSaid::Object(object) => Turn::Tells(Answer::Object(object)),
        DeviceSaid::Number(n) => Turn::Tells(Answer::Number(n as u64)),
        DeviceSaid::Refused(n) => Turn::Instead(Answer::Failed(VhostUserError::ReqHandlerError(
            Cause::Device(n),
        ))),
    }
}
