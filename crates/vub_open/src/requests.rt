//! The test of what a set-up asks of control.
ghost use Rattle.std.specs.Prelude.{◌≡◌, ◌&&◌, not, nat_lt, length, position, is_some};
ghost use Rattle.std.specs.List.{list_all};
ghost use Rattle.vub_model.specs.ValidSetup.{is_event, content_len, log_size, is_answerable, request_fault};

use crate::faults::{content_len, is_event, is_event_or_none, log_size};
use vub_model::{Constants, Object, SetupFault};
use vub_proto::Request;

/// Whether each of these objects is a content of the set-up.
fn are_contents(objects: &[Object], contents: &[u32]) -> bool
    ensures { result ≡ list_all (λ content. is_some (content_len objects.now content)) contents.now }
{
    contents
        .iter()
        .all(|content| content_len(objects, *content).is_some())
}

/// Whether the object is one of the set-up.
fn is_there(objects: &[Object], number: u32) -> bool
    ensures { result ≡ nat_lt number (length objects.now) }
{
    (number as usize) < objects.len()
}

/// Whether the event is one of the set-up, and the worker one of the device.
fn may_listen(constants: &Constants, objects: &[Object], worker: u32, event: u32) -> bool
    ensures { result ≡ (is_event objects.now event && nat_lt worker (length constants.now.masks)) }
{
    is_event(objects, event) && (worker as usize) < constants.masks.len()
}

/// Whether the objects and the worker that a request names are there, and of the right kind.
#[tactic(auto, unfolding(vub_model::specs::ValidSetup::is_answerable))]
fn is_answerable(constants: &Constants, objects: &[Object], request: &Request) -> bool
    ensures { result ≡ is_answerable constants.now objects.now request.now }
{
    match request {
        Request::SetMemTable { contents, .. } => are_contents(objects, contents.as_slice()),
        Request::AddMemRegion { content, .. } => content_len(objects, *content).is_some(),
        Request::SetLogBase { object, .. } => log_size(objects, *object).is_some(),
        Request::SetVringKick { event, .. } => is_event_or_none(objects, *event),
        Request::SetVringCall { event, .. } => is_event_or_none(objects, *event),
        Request::SetVringErr { event, .. } => is_event_or_none(objects, *event),
        Request::SetBackendReqFd { object } => is_there(objects, *object),
        Request::SetGpuSocket { object } => is_there(objects, *object),
        Request::SetDeviceStateFd { object, .. } => is_there(objects, *object),
        Request::SetInflightFd { object } => is_there(objects, *object),
        Request::RegisterListener { worker, event, .. } => {
            may_listen(constants, objects, *worker, *event)
        }
        Request::UnregisterListener { worker, event, .. } => {
            may_listen(constants, objects, *worker, *event)
        }
        _ => true,
    }
}

/// The first request that names what is not there.
fn first_bad_request(
    constants: &Constants,
    objects: &[Object],
    requests: &[Request],
) -> Option<usize>
    ensures { result ≡ position (λ r. not (is_answerable constants.now objects.now r)) requests.now }
{
    requests
        .iter()
        .position(|request| !is_answerable(constants, objects, request))
}

/// The first request that names what is not there.
#[tactic(auto, unfolding(vub_model::specs::ValidSetup::request_fault))]
pub(crate) fn request_fault(
    constants: &Constants,
    objects: &[Object],
    requests: &[Request],
) -> Option<SetupFault>
    ensures { result ≡ request_fault constants.now objects.now requests.now }
{
    first_bad_request(constants, objects, requests).map(SetupFault::Request)
}
