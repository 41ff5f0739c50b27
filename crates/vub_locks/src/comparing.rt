//! The records of uses against the calls of a service.
ghost use Rattle.std.specs.Prelude.{◌≡◌, ◌↔◌, ◌≤◌, true, min, length, take, drop, vec_len, slice_get, List, Option, Some, IfOk, OnOk, IfErr, IfNone, IfSome};
ghost use Rattle.vub_locks.specs.declared.records.Spent.{Spent};
ghost use Rattle.vub_model.specs.Service.{meaning};
ghost use Rattle.vub_locks.specs.Replays.{IsReplay};
ghost use Rattle.vub_locks.specs.Comparing.{Agrees, DifferFirst, IsInOrder, OneForOne, AreCalls, DiffersAs, uses_of};

use crate::records::{Served, Spent};
use crate::service_book::ServiceBook;
use std::alloc::Global;
use thiserror::Error;
use vub_base::OutOfMemory;
use vub_proto::Service;

/// Why a comparison of records with calls found them not to be one for one, or was not made.
#[derive(Debug, Drop, Error)]
pub enum CompareError {
    /// What stands at the first place, in order of serial, at which records and calls differ. One of them is None
    /// exactly where its list has ended there.
    #[error("a use of an entry and a call of the service differ")]
    Mismatch {
        used: Option<Spent>,
        served: Option<Served>,
    },
    #[error("out of memory")]
    OutOfMemory,
}

impl From<OutOfMemory> for CompareError {
    ghost use Rattle.std.specs.Prelude.{◌≡◌};
    ghost use Rattle.vub_locks.specs.declared.comparing.CompareError.TheVariants as error;

    ghost from_gives = { λ e c. c ≡ error.OutOfMemory };

    fn from(_error: OutOfMemory) -> CompareError {
        CompareError::OutOfMemory
    }
}

/// What a comparison counts.
#[derive(Clone, Copy, Debug, PartialEq, Eq)]
pub struct Totals {
    /// The records of entries that are not held.
    pub uses: u64,
    /// The calls of the service.
    pub served: u64,
}

/// Whether the record and the call agree.
fn agree(spent: &Spent, call: &Served) -> bool
    ensures { (result ≡ true) ↔ Agrees spent.now call.now }
{
    spent.receipt.serial == call.serial
        && spent.receipt.queue == call.queue
        && spent.receipt.number == call.number
        && spent.used.queue == call.queue
        && spent.used.epoch == call.epoch
        && spent.used.number == call.number
        && spent.used.reply.as_slice() == call.reply.as_slice()
}

/// The first place at which they differ, if there is one.
#[tactic(auto, using(crate::proofs::Matching::agree_at_first, crate::proofs::Matching::agree_on, crate::proofs::Matching::differ_here, crate::proofs::Matching::one_for_one, crate::proofs::Matching::one_is_longer))]
fn first_apart(spent: &[Spent], calls: &[Served]) -> Option<usize>
    ensures none { IfNone result (OneForOne spent.now calls.now) }
    ensures some { IfSome result (λ n. DifferFirst spent.now calls.now
        (slice_get spent.now n) (slice_get calls.now n)) }
{
    let both = spent.len().min(calls.len());
    for place in 0..both {
        if !agree(&spent[place], &calls[place]) {
            return Some(place);
        }
    }
    if spent.len() == calls.len() {
        None
    } else {
        Some(both)
    }
}

/// A copy of the call at this place, if there is one.
///
/// # Errors
/// Want of memory.
fn copy_at(alloc: Global, calls: &[Served], place: usize) -> Result<Option<Served>, OutOfMemory>
    ensures { IfOk result (λ call. call ≡ slice_get calls.now place) }
{
    match calls.get(place) {
        Some(call) => Ok(Some(call.try_clone(alloc)?)),
        None => Ok(None),
    }
}

/// The record at this place, if there is one.
fn take_at(records: Vec<Spent>, place: usize) -> Option<Spent>
    ensures { result ≡ slice_get records.items place }
{
    let mut records = records;
    if place < records.len() {
        Some(records.swap_remove(place))
    } else {
        None
    }
}

/// How many of the records are of entries that were used.
fn count_uses(spent: &[Spent]) -> u64
    ensures { result ≡ uses_of spent.now }
{
    spent.iter().filter(|record| !record.held).count() as u64
}

/// The records in order of serial.
///
/// # Errors
/// Want of memory.
fn ordered(spent: Vec<Spent>) -> Result<Vec<Spent>, OutOfMemory>
    ensures { IfOk result (λ ordered. IsInOrder spent.items ordered.items) }
{
    let mut ordered = spent;
    ordered.sort_by_key(|record| record.receipt.serial)?;
    Ok(ordered)
}

/// Compares the records of uses with the calls of a service. Ok only where the records, in order of serial, are the
/// calls, one for one.
///
/// # Errors
/// `Mismatch` with what stands at the first place at which they differ. Want of memory.
pub fn compare<V: Service>(
    alloc: Global,
    book: &ServiceBook<V>,
    spent: Vec<Spent>,
) -> Result<Totals, CompareError>
    ensures calls { OnOk result (AreCalls spent.items book.now.calls) }
    ensures replay { OnOk result (IsReplay (meaning V.reply_of V.after) 0 book.now.opening book.now.calls
        book.now.value) }
    ensures uses { IfOk result (λ t. t.uses ≡ uses_of spent.items) }
    ensures served { IfOk result (λ t. t.served ≡ length book.now.calls) }
    ensures mismatch { IfErr result (DiffersAs spent.items book.now.calls) }
{
    let uses = count_uses(&spent);
    let records = ordered(spent)?;
    let calls = book.calls();
    match first_apart(&records, calls) {
        None => Ok(Totals {
            uses,
            served: calls.len() as u64,
        }),
        Some(place) => {
            let served = copy_at(alloc, calls, place)?;
            Err(CompareError::Mismatch {
                used: take_at(records, place),
                served,
            })
        }
    }
}
