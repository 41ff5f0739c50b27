//! A change of the table of guest memory, as the parts make it.
ghost use Rattle.std.specs.Prelude.{◌≡◌, ◌≤◌, ◌⊎◌, [], None, Some, length, IfOk, IfErr, OnOk, OnErr, IsErrOf};
ghost use Rattle.std.specs.Vec.{vec_capacity};
ghost use Rattle.vub_model.specs.Control.{table_refusal};
ghost use Rattle.vub_model.specs.Plans.{regions_after};
ghost use Rattle.vub_vring.specs.Calls.{ChangesTable, IsTableSaid, SetsLog, IsLogSaid};

use crate::ops::{LogSaid, TableSaid};
use std::alloc::Global;
use vub_base::Listed;
use vub_mem::{DirtyLog, GuestMemory, MemError, Region};
use vub_model::TableOp;
use vub_ring::PartsError;

/// How many regions there may be after this change.
#[tactic(auto, using(crate::proofs::Room::room_enough))]
fn room_for<L: DirtyLog>(memory: &GuestMemory<L>, op: &TableOp) -> usize
    ensures { length (regions_after memory.now.guest.regions op.now) ≤ result }
{
    match op {
        TableOp::Replace(regions) => regions.len(),
        TableOp::Insert(_) => memory.regions().len() + 1,
        TableOp::Remove { .. } => memory.regions().len(),
    }
}

/// These regions, in an empty list that has room for them.
fn filled(list: Vec<Region>, regions: &[Region]) -> Listed<Region>
    requires empty { list.items ≡ [] }
    requires room { length regions.now ≤ vec_capacity list }
    ensures { result ≡ regions.now }
{
    let mut list = list;
    let _filled = list.extend_from_slice(regions);
    Listed::from_vec(list)
}

/// Changes the table.
fn change<L: DirtyLog>(
    alloc: Global,
    memory: &mut GuestMemory<L>,
    op: TableOp,
) -> Result<(), MemError>
    ensures ok { OnOk result (table_refusal memory.old.guest op ≡ None) }
    ensures changed { OnOk result (memory.new ≡ record memory.old
        { guest = record memory.old.guest { regions = regions_after memory.old.guest.regions op } }) }
    ensures refused { IfErr result (λ e. (table_refusal memory.old.guest op ≡ Some e) ⊎ (e ≡ MemError.OutOfMemory)) }
    ensures err { OnErr result (memory.new ≡ memory.old) }
{
    match op {
        TableOp::Replace(regions) => memory.replace_table(regions.into_vec()),
        TableOp::Insert(region) => memory.insert_region(alloc, region),
        TableOp::Remove { start, len } => match memory.remove_region(start, len) {
            Ok(_) => Ok(()),
            Err(error) => Err(error),
        },
    }
}

/// Changes the table of guest memory, and says its regions after the change, whose memory is taken before it.
///
/// # Errors
/// Want of memory leaves guest memory as it was.
pub fn play_memory<L: DirtyLog>(
    alloc: Global,
    memory: &mut GuestMemory<L>,
    op: TableOp,
) -> Result<TableSaid, PartsError>
    ensures row { IfOk result (λ said. ChangesTable op said memory.old.guest memory.new.guest) }
    ensures said { IfOk result IsTableSaid }
    ensures logs { memory.new.logs ≡ memory.old.logs }
    ensures err { OnErr result (memory.new ≡ memory.old) }
    ensures only { ¬ (IsErrOf result PartsError.Fault) }
{
    let Ok(list) = Vec::with_capacity(alloc, room_for(memory, &op)) else {
        return Err(PartsError::OutOfMemory);
    };
    match change(alloc, memory, op) {
        Ok(()) => Ok(TableSaid::Regions(filled(list, memory.regions()))),
        Err(MemError::OutOfMemory) => Err(PartsError::OutOfMemory),
        Err(error) => Ok(TableSaid::Memory(error)),
    }
}

/// Gives each region of guest memory this part of a log of dirty pages, or says why not (`GuestMemory::set_log`). Takes
/// no memory.
#[tactic(auto, using(crate::proofs::Logging::log_refused))]
pub fn play_log<L: DirtyLog>(
    memory: &mut GuestMemory<L>,
    object: u32,
    offset: u64,
    size: u64,
    tracks: bool,
) -> LogSaid
    ensures row { SetsLog L.byte_len object offset size tracks result memory.old memory.new }
    ensures said { IsLogSaid result }
{
    match memory.set_log(object, offset, size, tracks) {
        Ok(()) => LogSaid::Done,
        Err(error) => LogSaid::Log(error),
    }
}
