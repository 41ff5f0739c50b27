//! The named calls that change guest memory.
ghost use Rattle.vub_vring.specs.Calls.{telling};
ghost use Rattle.vub_requests.specs.Handling.{HandledBy};

use crate::handling::handle;
use crate::unanswered::Unanswered;
use std::alloc::Global;
use vub_base::Listed;
use vub_handler::VhostUserHandler;
use vub_proto::{Answer, Part, Request};
use vub_vring::Parts;

/// Sets the regions of guest memory, each with the object of its content.
///
/// # Errors
/// Those of `handle`.
pub fn set_mem_table<P: Parts>(
    handler: &mut VhostUserHandler,
    alloc: Global,
    parts: &mut P,
    table: Listed<Part>,
    contents: Listed<u32>,
    postcopy: Option<bool>,
) -> Result<Answer, Unanswered>
    ensures { HandledBy (telling P.Device.said P.Device.moved) (Request.SetMemTable table contents postcopy)
        handler.old handler.new (P.state parts.old) (P.state parts.new) result }
{
    handle(
        handler,
        alloc,
        parts,
        Request::SetMemTable {
            parts: table,
            contents,
            postcopy,
        },
    )
}

/// Adds a region of guest memory.
///
/// # Errors
/// Those of `handle`.
pub fn add_mem_region<P: Parts>(
    handler: &mut VhostUserHandler,
    alloc: Global,
    parts: &mut P,
    part: Part,
    content: u32,
    postcopy: Option<bool>,
) -> Result<Answer, Unanswered>
    ensures { HandledBy (telling P.Device.said P.Device.moved) (Request.AddMemRegion part content postcopy)
        handler.old handler.new (P.state parts.old) (P.state parts.new) result }
{
    handle(
        handler,
        alloc,
        parts,
        Request::AddMemRegion {
            part,
            content,
            postcopy,
        },
    )
}

/// Removes the region that starts there and has this length, in bytes.
///
/// # Errors
/// Those of `handle`.
pub fn remove_mem_region<P: Parts>(
    handler: &mut VhostUserHandler,
    alloc: Global,
    parts: &mut P,
    start: u64,
    len: u64,
) -> Result<Answer, Unanswered>
    ensures { HandledBy (telling P.Device.said P.Device.moved) (Request.RemoveMemRegion start len)
        handler.old handler.new (P.state parts.old) (P.state parts.new) result }
{
    handle(
        handler,
        alloc,
        parts,
        Request::RemoveMemRegion { start, len },
    )
}

/// Gives each region of guest memory the `size` bytes of a log from `offset` on as its log of dirty pages.
///
/// # Errors
/// Those of `handle`.
pub fn set_log_base<P: Parts>(
    handler: &mut VhostUserHandler,
    alloc: Global,
    parts: &mut P,
    size: u64,
    offset: u64,
    object: u32,
) -> Result<Answer, Unanswered>
    ensures { HandledBy (telling P.Device.said P.Device.moved) (Request.SetLogBase size offset object)
        handler.old handler.new (P.state parts.old) (P.state parts.new) result }
{
    handle(
        handler,
        alloc,
        parts,
        Request::SetLogBase {
            size,
            offset,
            object,
        },
    )
}
