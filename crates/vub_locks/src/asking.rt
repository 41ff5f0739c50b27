//! What is asked of the parts beside the calls of a party: objects that are added, bytes of guest memory, and the
//! comparison of all uses with the calls of the service.
ghost use Rattle.std.specs.Prelude.{◌≡◌, ◌↔◌, ◌⊎◌, ◌+◌, ◌≤◌, Err, IfSome, IfOk, IfErr, IsErrOf, IsTrue};
ghost use Rattle.vub_model.specs.Service.{meaning};
ghost use Rattle.vub_vring.specs.Calls.{IsSaid, takes_memory};
ghost use Rattle.vub_locks.specs.Comparing.{DiffersFromSome, IsCompared};

use crate::comparing::{CompareError, Totals, compare};
use crate::gate::Gate;
use crate::holding::hold_host;
use crate::records::Spent;
use crate::shared::SharedParts;
use std::alloc::Global;
use std::sync::{Mutex, Wait};
use vub_base::{Bytes, OutOfMemory};
use vub_log::{Harvester, MmapLogReg};
use vub_mem::LogError;
use vub_proto::{Service, VhostUserBackendMut};
use vub_ring::PartsError;
use vub_vring::{HostOp, HostSaid};

/// The next number of an owner's objects, which are numbered below 4294967295. None where they are spent.
fn next_number<R: Wait>(rt: &R, numbers: &Mutex<u32>) -> Option<u32> {
    let mut next = numbers.lock(rt);
    let number = *next;
    if number == u32::MAX {
        return None;
    }
    *next = number + 1;
    Some(number)
}

/// Where `len` bytes from byte `offset` on lie within the first `room`, if they do.
fn range_in(room: usize, offset: u64, len: usize) -> Option<usize>
    ensures within { IfSome result (λ from. from + len ≤ room) }
    ensures from { IfSome result (λ from. from ≡ offset) }
{
    let room = room as u64;
    if offset <= room && len as u64 <= room - offset {
        Some(offset as usize)
    } else {
        None
    }
}

impl<D: VhostUserBackendMut, V: Service, G: Gate + Drop> SharedParts<D, V, G> {
    /// Makes this call of the host.
    ///
    /// # Errors
    /// Want of memory, at `CreateEvent`, `CreateList`, `Add` and `Listen` alone.
    pub fn call_host<R: Wait>(
        &self,
        rt: &R,
        alloc: Global,
        op: HostOp,
    ) -> Result<HostSaid, PartsError>
        ensures said { IfOk result IsSaid }
        ensures memory { IsErrOf result PartsError.OutOfMemory → IsTrue (takes_memory op) }
        ensures fault { ¬ (IsErrOf result PartsError.Fault) }
    {
        hold_host(rt, alloc, &self.host, op)
    }

    /// Adds a content with these bytes, and gives its number. Contents are numbered from 0, apart from events and logs.
    ///
    /// # Errors
    /// Want of memory, or 4294967295 contents were added.
    pub fn add_content<R: Wait>(
        &self,
        rt: &R,
        alloc: Global,
        bytes: Bytes,
    ) -> Result<u32, OutOfMemory> {
        let Some(number) = next_number(rt, &self.contents) else {
            return Err(OutOfMemory);
        };
        let mut memory = self.memory.lock(rt);
        if memory.has_object(number) {
            return Err(OutOfMemory);
        }
        match memory.put_object(alloc, number, bytes) {
            Ok(()) => Ok(number),
            Err(_) => Err(OutOfMemory),
        }
    }

    /// Adds a log of dirty pages of `len` bytes, and gives its number and what harvests it. Logs are numbered from 0,
    /// apart from events and contents.
    ///
    /// # Errors
    /// `EmptyLog` exactly where `len` is 0. Want of memory, or 4294967295 logs were added.
    pub fn add_log<R: Wait>(
        &self,
        rt: &R,
        alloc: Global,
        len: u32,
    ) -> Result<(u32, Harvester), LogError>
        ensures empty { (result ≡ Err LogError.EmptyLog) ↔ (len ≡ 0) }
        ensures only { IfErr result (λ e. (e ≡ LogError.EmptyLog) ⊎ (e ≡ LogError.OutOfMemory)) }
    {
        let (_log, seat, harvester) = MmapLogReg::new(alloc, u64::from(len))?;
        let Some(number) = next_number(rt, &self.logs) else {
            return Err(LogError::OutOfMemory);
        };
        let mut memory = self.memory.lock(rt);
        if memory.has_log(number) {
            return Err(LogError::OutOfMemory);
        }
        match memory.put_log(alloc, number, seat) {
            Ok(()) => Ok((number, harvester)),
            Err(_) => Err(LogError::OutOfMemory),
        }
    }

    /// Stores bytes in a content from byte `offset` on. False exactly where the content is missing or the bytes do not
    /// lie inside it; then nothing changes.
    pub fn store<R: Wait>(&self, rt: &R, object: u32, offset: u64, bytes: &[u8]) -> bool {
        let mut memory = self.memory.lock(rt);
        if !memory.has_object(object) {
            return false;
        }
        match range_in(memory.content(object).len(), offset, bytes.len()) {
            Some(_) => {
                memory.store(object, offset, bytes);
                true
            }
            None => false,
        }
    }

    /// `len` bytes of a content from byte `offset` on. None exactly where the content is missing or the bytes do not
    /// lie inside it.
    ///
    /// # Errors
    /// Want of memory.
    pub fn read_content<R: Wait>(
        &self,
        rt: &R,
        alloc: Global,
        object: u32,
        offset: u64,
        len: u32,
    ) -> Result<Option<Bytes>, OutOfMemory> {
        let memory = self.memory.lock(rt);
        if !memory.has_object(object) {
            return Ok(None);
        }
        let content = memory.content(object);
        let Some(from) = range_in(content.len(), offset, len as usize) else {
            return Ok(None);
        };
        let bytes = Bytes::from_slice(alloc, &content[from..from + len as usize])?;
        Ok(Some(bytes))
    }

    /// Compares the records of all uses with the calls of the service, under its lock.
    ///
    /// # Errors
    /// `Mismatch` with what stands at the first place at which they differ. Want of memory.
    pub fn compare_uses<R: Wait>(
        &self,
        rt: &R,
        alloc: Global,
        spent: Vec<Spent>,
    ) -> Result<Totals, CompareError>
        ensures same { IfOk result (IsCompared (meaning V.reply_of V.after) spent.items) }
        ensures differ { IfErr result (DiffersFromSome spent.items) }
    {
        let book = self.service.lock(rt);
        compare(alloc, &*book, spent)
    }
}
