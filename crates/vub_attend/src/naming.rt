//! What a request names, and whether it is there.
ghost use Rattle.std.specs.Prelude.{◌≡◌, ◌&&◌, length, nat_lt};
ghost use Rattle.std.specs.List.{list_all};
ghost use Rattle.std.specs.Option.{ForSome};
ghost use Rattle.vub_attend.specs.Naming.{contents_in, event_or_none, has_content, has_named, has_objects, has_worker, is_below, named_in, worker_in};

use crate::objects::ObjectParts;
use vub_handler::VhostUserHandler;
use vub_proto::Request;

/// The object that a request names, by its kind, but for the contents of a table of regions.
#[derive(Clone, Copy, Debug, PartialEq, Eq)]
pub enum Named {
    Nothing,
    Event(u32),
    Content(u32),
    Log(u32),
    /// An event, a content or a log.
    Object(u32),
}

/// The worker that a request names.
fn worker_in(request: &Request) -> Option<u32>
    ensures { result ≡ worker_in request.now }
{
    match request {
        Request::RegisterListener { worker, .. } => Some(*worker),
        Request::UnregisterListener { worker, .. } => Some(*worker),
        _ => None,
    }
}

/// This event, if it is one.
fn event_or_none(event: Option<u32>) -> Named
    ensures { result ≡ event_or_none event }
{
    match event {
        None => Named::Nothing,
        Some(event) => Named::Event(event),
    }
}

/// The object that a request names, but for the contents of a table of regions.
fn named_in(request: &Request) -> Named
    ensures { result ≡ named_in request.now }
{
    match request {
        Request::AddMemRegion { content, .. } => Named::Content(*content),
        Request::SetLogBase { object, .. } => Named::Log(*object),
        Request::SetVringKick { event, .. } => event_or_none(*event),
        Request::SetVringCall { event, .. } => event_or_none(*event),
        Request::SetVringErr { event, .. } => event_or_none(*event),
        Request::SetBackendReqFd { object } => Named::Object(*object),
        Request::SetGpuSocket { object } => Named::Object(*object),
        Request::SetDeviceStateFd { object, .. } => Named::Object(*object),
        Request::SetInflightFd { object } => Named::Object(*object),
        Request::RegisterListener { event, .. } => Named::Event(*event),
        Request::UnregisterListener { event, .. } => Named::Event(*event),
        _ => Named::Nothing,
    }
}

/// Whether an object of this number is there, of whatever kind.
fn has_any<P: ObjectParts>(parts: &P, object: u32) -> bool
    ensures { ForSome (P.state parts.now).shared (λ h. result ≡ has_named h (Named.Object object)) }
{
    let event = parts.has_event(object);
    let content = parts.has_content(object);
    let log = parts.has_log(object);
    event || content || log
}

/// Whether what is named is there.
fn has_named<P: ObjectParts>(parts: &P, named: Named) -> bool
    ensures { ForSome (P.state parts.now).shared (λ h. result ≡ has_named h named) }
{
    match named {
        Named::Nothing => true,
        Named::Event(object) => parts.has_event(object),
        Named::Content(object) => parts.has_content(object),
        Named::Log(object) => parts.has_log(object),
        Named::Object(object) => has_any(parts, object),
    }
}

/// Whether each of these contents is there.
fn has_contents<P: ObjectParts>(parts: &P, contents: &[u32]) -> bool
    ensures { ForSome (P.state parts.now).shared (λ h. result ≡ list_all (has_content h) contents.now) }
{
    for content in contents {
        if !parts.has_content(*content) {
            return false;
        }
    }
    true
}

/// Whether the contents that a table of regions names are there.
fn has_table<P: ObjectParts>(parts: &P, request: &Request) -> bool
    ensures { ForSome (P.state parts.now).shared (λ h. result ≡ list_all (has_content h) (contents_in request.now)) }
{
    match request {
        Request::SetMemTable { contents, .. } => has_contents(parts, contents.as_slice()),
        _ => true,
    }
}

/// Whether the objects that a request names are there, and of the right kind.
pub(crate) fn has_objects<P: ObjectParts>(parts: &P, request: &Request) -> bool
    ensures { ForSome (P.state parts.now).shared (λ h. result ≡ has_objects h request.now) }
{
    let table = has_table(parts, request);
    let named = has_named(parts, named_in(request));
    table && named
}

/// Whether the worker that a request names was opened.
pub(crate) fn has_worker(handler: &VhostUserHandler, request: &Request) -> bool
    ensures { result ≡ has_worker handler.now.wiring request.now }
{
    match worker_in(request) {
        None => true,
        Some(worker) => (worker as usize) < handler.opened().len(),
    }
}
