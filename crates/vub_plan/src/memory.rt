//! The plans that change the table of guest memory.
ghost use Rattle.std.specs.Prelude.{◌≡◌, ◌==◌, not, filter, IfOk};
ghost use Rattle.vub_model.specs.Plans.{region_for, mapping_for, regions_for, mappings_for};
ghost use Rattle.vub_plan.specs.Halves.{IsSessionPlan};

use crate::half::Half;
use crate::session::{copied, refused};
use std::alloc::Global;
use vub_base::{Listed, OutOfMemory};
use vub_mem::{Mapping, Region};
use vub_model::{Session, TableOp};
use vub_proto::{Denied, Part, Request, VhostUserError};

/// The region of a part, whose bytes are those of this content.
fn region_for(part: Part, content: u32) -> Region
    ensures { result ≡ region_for part content }
{
    Region {
        start: part.start,
        len: part.len,
        object: content,
        offset: part.offset,
        log: None,
    }
}

/// The mapping of a part.
fn mapping_for(part: Part) -> Mapping
    ensures { result ≡ mapping_for part }
{
    Mapping {
        user: part.user,
        len: part.len,
        start: part.start,
    }
}

/// The regions of these parts; the shorter of the two lists decides.
#[tactic(auto, using(crate::proofs::Parts::region_next, crate::proofs::Parts::regions_all))]
fn regions_for(alloc: Global, parts: &[Part], contents: &[u32]) -> Result<Vec<Region>, OutOfMemory>
    ensures { IfOk result (λ regions. regions.items ≡ regions_for parts.now contents.now) }
{
    let mut regions = Vec::new(alloc);
    for at in 0..parts.len().min(contents.len()) {
        regions.push(region_for(parts[at], contents[at]))?;
    }
    Ok(regions)
}

/// The mappings of these parts; the shorter of the two lists decides.
#[tactic(auto, using(crate::proofs::Parts::mapping_next, crate::proofs::Parts::mappings_all))]
fn mappings_for(
    alloc: Global,
    parts: &[Part],
    contents: &[u32],
) -> Result<Vec<Mapping>, OutOfMemory>
    ensures { IfOk result (λ mappings. mappings.items ≡ mappings_for parts.now contents.now) }
{
    let mut mappings = Vec::new(alloc);
    for at in 0..parts.len().min(contents.len()) {
        mappings.push(mapping_for(parts[at]))?;
    }
    Ok(mappings)
}

/// The plan of `set_mem_table`.
#[tactic(auto, unfolding(vub_model::specs::Plans::plan_of))]
pub fn set_table(
    alloc: Global,
    session: &Session,
    parts: &[Part],
    contents: &[u32],
    postcopy: Option<bool>,
) -> Result<Half, OutOfMemory>
    ensures { IfOk result (IsSessionPlan session.now (Request.SetMemTable parts.now contents.now postcopy)) }
{
    if postcopy.is_some() {
        let error = VhostUserError::InvalidOperation(Denied::PostcopyNotEnabled);
        return refused(alloc, error, session);
    }
    let regions = regions_for(alloc, parts, contents)?;
    let mappings = mappings_for(alloc, parts, contents)?;
    let session = Session {
        owned: session.owned,
        features: session.features,
        protocol: session.protocol,
        mappings: Listed::from_vec(mappings),
    };
    let change = TableOp::Replace(Listed::from_vec(regions));
    Ok(Half::changing(alloc, change, session))
}

/// The plan of `add_mem_region`.
#[tactic(auto, unfolding(vub_model::specs::Plans::plan_of))]
pub fn add_region(
    alloc: Global,
    session: &Session,
    part: Part,
    content: u32,
    postcopy: Option<bool>,
) -> Result<Half, OutOfMemory>
    ensures { IfOk result (IsSessionPlan session.now (Request.AddMemRegion part content postcopy)) }
{
    if postcopy.is_some() {
        let error = VhostUserError::InvalidOperation(Denied::PostcopyNotEnabled);
        return refused(alloc, error, session);
    }
    let mut session = copied(alloc, session)?;
    session.mappings.push(mapping_for(part))?;
    let change = TableOp::Insert(region_for(part, content));
    Ok(Half::changing(alloc, change, session))
}

/// The mappings that do not begin at this guest address.
fn mappings_without(
    alloc: Global,
    mappings: &[Mapping],
    start: u64,
) -> Result<Vec<Mapping>, OutOfMemory>
    ensures { IfOk result (λ kept. kept.items ≡ filter (λ m. not (m.start == start)) mappings.now) }
{
    let mut kept = Vec::from_slice(alloc, mappings)?;
    kept.retain(|m| m.start != start);
    Ok(kept)
}

/// The plan of `remove_mem_region`.
#[tactic(auto, unfolding(vub_model::specs::Plans::plan_of))]
pub fn remove_region(
    alloc: Global,
    session: &Session,
    start: u64,
    len: u64,
) -> Result<Half, OutOfMemory>
    ensures { IfOk result (IsSessionPlan session.now (Request.RemoveMemRegion start len)) }
{
    let mappings = mappings_without(alloc, session.mappings.as_slice(), start)?;
    let session = Session {
        owned: session.owned,
        features: session.features,
        protocol: session.protocol,
        mappings: Listed::from_vec(mappings),
    };
    Ok(Half::changing(alloc, TableOp::Remove { start, len }, session))
}
