ghost use Rattle.std.specs.Prelude.{◌≡◌, ◌⊎◌, ◌<◌, ◌≤◌, Err, Some, length, IfOk, IfErr, IfSome, IfNone};
ghost use Rattle.std.specs.List.{All};
ghost use Rattle.vub_block.specs.Answer.{Gives, answer_of, in_answer, out_answer, flush_answer, id_answer};
ghost use Rattle.vub_block.specs.Answer.{erase_answer, refuses};
ghost use Rattle.vub_block.specs.Disk.{AreWhole, new_disk, new_fault, is_hole_sector};

use crate::checks::{is_past, pieces_status};
use crate::erase::Erase;
use crate::error::BlockError;
use crate::reply::filled;
use crate::request::{HEADER_LEN, data_of, pieces_of, sector_of, type_of};
use crate::sectors::Sectors;
use crate::status::Status;
use crate::types::{
    GREATEST_SECTORS, ID_LEN, VIRTIO_BLK_T_DISCARD, VIRTIO_BLK_T_FLUSH, VIRTIO_BLK_T_GET_ID,
    VIRTIO_BLK_T_IN, VIRTIO_BLK_T_OUT, VIRTIO_BLK_T_WRITE_ZEROES,
};
use std::alloc::Global;
use std::marker::Model;
use vub_base::{Bytes, OutOfMemory};
use vub_proto::Service;

/// A disk of 512-byte sectors in memory, as a service. A contract sees its sectors and its id.
#[derive(Debug, Drop)]
pub struct BlockService {
    sectors: Sectors,
    id: Bytes,
}

impl Model for BlockService {
    ghost use Rattle.std.specs.Prelude.{◌≤◌, length};
    ghost use Rattle.vub_block.specs.Disk.{Disk};

    ghost Value = { Disk };

    ghost view = { λ s. record { sectors = s.sectors; id = s.id } };

    ghost invariant = { λ s. length s.id ≤ 20 };
}

impl BlockService {
    /// A disk of so many sectors, all of them holes, with this id.
    ///
    /// # Errors
    /// `TooBig` and `Id`, tested in this order; want of memory.
    pub fn new(alloc: Global, sectors: u32, id: &[u8]) -> Result<BlockService, BlockError>
        ensures refused { IfSome (new_fault sectors (length id.now)) (λ e. result ≡ Err e) }
        ensures only { IfErr result (λ e. (new_fault sectors (length id.now) ≡ Some e) ⊎ (e ≡ BlockError.OutOfMemory)) }
        ensures ok { IfOk result (λ d. d ≡ new_disk sectors id.now) }
    {
        if let Some(fault) = disk_fault(sectors, id.len()) {
            return Err(fault);
        }
        match made(alloc, sectors, id) {
            Ok(disk) => Ok(disk),
            Err(_) => Err(BlockError::OutOfMemory),
        }
    }

    /// How many sectors it has, each of 512 bytes.
    pub fn sectors(&self) -> u64
        ensures count { result ≡ length self.now.sectors }
        ensures whole { AreWhole self.now.sectors }
        ensures id { length self.now.id ≤ 20 }
    {
        self.sectors.count()
    }

    /// Whether every cell of the sector is a hole; false past the end.
    pub fn is_hole(&self, sector: u32) -> bool
        ensures { result ≡ is_hole_sector self.now.sectors sector }
    {
        self.sectors.is_hole(sector)
    }

    /// IN: gives the bytes of sectors, as many as there is room for before the status.
    #[tactic(auto, unfolding(crate::specs::Answer::in_answer))]
    fn read(
        &mut self,
        alloc: Global,
        sector: u64,
        payload: &[u8],
        room: u32,
    ) -> Result<Bytes, OutOfMemory>
        requires { 0 < room }
        ensures { Gives room (in_answer self.old sector payload.now room) result self.old self.new }
    {
        let count = (room - 1) / 512;
        let past = is_past(self.sectors.count(), sector, u64::from(count));
        if (room - 1) % 512 != 0 || past || !payload.is_empty() {
            return filled(alloc, room, Status::IoErr, &[]);
        }
        let bytes = self.sectors.read(alloc, sector, count)?;
        filled(alloc, room, Status::Ok, &bytes)
    }

    /// OUT: writes the data.
    #[tactic(auto, unfolding(crate::specs::Answer::out_answer))]
    fn write(
        &mut self,
        alloc: Global,
        sector: u64,
        payload: &[u8],
        room: u32,
    ) -> Result<Bytes, OutOfMemory>
        requires { 0 < room }
        ensures { Gives room (out_answer self.old sector payload.now) result self.old self.new }
    {
        let past = is_past(self.sectors.count(), sector, (payload.len() / 512) as u64);
        if payload.len() % 512 != 0 || past {
            return filled(alloc, room, Status::IoErr, &[]);
        }
        let reply = filled(alloc, room, Status::Ok, &[])?;
        self.sectors.write(alloc, sector, payload);
        Ok(reply)
    }

    /// FLUSH.
    #[tactic(auto, unfolding(crate::specs::Answer::flush_answer))]
    fn flush(&mut self, alloc: Global, payload: &[u8], room: u32) -> Result<Bytes, OutOfMemory>
        requires { 0 < room }
        ensures { Gives room (flush_answer self.old payload.now) result self.old self.new }
    {
        if !payload.is_empty() {
            return filled(alloc, room, Status::IoErr, &[]);
        }
        let reply = filled(alloc, room, Status::Ok, &[])?;
        self.sectors.flush();
        Ok(reply)
    }

    /// GET_ID: gives the id, which zeros follow to 20 bytes and on.
    #[tactic(auto, unfolding(crate::specs::Answer::id_answer))]
    fn give_id(&mut self, alloc: Global, payload: &[u8], room: u32) -> Result<Bytes, OutOfMemory>
        requires { 0 < room }
        ensures { Gives room (id_answer self.old payload.now room) result self.old self.new }
    {
        if room < 21 || !payload.is_empty() {
            return filled(alloc, room, Status::IoErr, &[]);
        }
        filled(alloc, room, Status::Ok, self.id.as_slice())
    }

    /// DISCARD and WRITE_ZEROES: tests all pieces, and then makes the range of each holes or bytes 0.
    #[tactic(auto, unfolding(crate::specs::Answer::erase_answer))]
    fn erase(
        &mut self,
        alloc: Global,
        erase: Erase,
        payload: &[u8],
        room: u32,
    ) -> Result<Bytes, OutOfMemory>
        requires { 0 < room }
        ensures { Gives room (erase_answer erase self.old payload.now) result self.old self.new }
    {
        let pieces = pieces_of(alloc, payload)?;
        let status = pieces_status(self.sectors.count(), erase, payload, &pieces);
        let reply = filled(alloc, room, status, &[])?;
        if let Status::Ok = status {
            self.sectors.erase(alloc, erase, &pieces);
        }
        Ok(reply)
    }

    /// The reply to a request with room for a status.
    #[tactic(auto, unfolding(crate::specs::Answer::answer_of))]
    fn answer(&mut self, alloc: Global, request: &[u8], room: u32) -> Result<Bytes, OutOfMemory>
        requires { 0 < room }
        ensures { Gives room (answer_of self.old request.now room) result self.old self.new }
    {
        if request.len() < HEADER_LEN {
            return filled(alloc, room, Status::IoErr, &[]);
        }
        let sector = sector_of(request);
        let payload = data_of(request);
        match type_of(request) {
            VIRTIO_BLK_T_IN => self.read(alloc, sector, payload, room),
            VIRTIO_BLK_T_OUT => self.write(alloc, sector, payload, room),
            VIRTIO_BLK_T_FLUSH => self.flush(alloc, payload, room),
            VIRTIO_BLK_T_GET_ID => self.give_id(alloc, payload, room),
            VIRTIO_BLK_T_DISCARD => self.erase(alloc, Erase::Discard, payload, room),
            VIRTIO_BLK_T_WRITE_ZEROES => self.erase(alloc, Erase::WriteZeroes, payload, room),
            _ => filled(alloc, room, Status::Unsupported, &[]),
        }
    }
}

/// The first test that a new disk of so many sectors, with an id of so many bytes, fails: `TooBig` or `Id`.
pub fn disk_fault(sectors: u32, id_len: usize) -> Option<BlockError>
    ensures value { result ≡ new_fault sectors id_len }
    ensures sectors { IfNone result (sectors ≤ 131072) }
    ensures id { IfNone result (id_len ≤ 20) }
{
    if sectors > GREATEST_SECTORS {
        return Some(BlockError::TooBig);
    }
    if id_len > ID_LEN {
        return Some(BlockError::Id);
    }
    None
}

/// A disk whose sectors are holes, with this id.
///
/// # Errors
/// Want of memory.
fn made(alloc: Global, sectors: u32, id: &[u8]) -> Result<BlockService, OutOfMemory>
    requires sectors { sectors ≤ 131072 }
    requires id { length id.now ≤ 20 }
    ensures { IfOk result (λ d. d ≡ new_disk sectors id.now) }
{
    let id = Bytes::from_slice(alloc, id)?;
    let sectors = Sectors::new(alloc, sectors)?;
    Ok(BlockService { sectors, id })
}

impl Service for BlockService {
    ghost use Rattle.vub_block.specs.Answer.{reply_of, after};

    ghost reply_of = { reply_of };

    ghost after = { after };

    /// The reply fills the room: the bytes that are given, zeros, and the status last; without room there is none. It
    /// is made before anything is done.
    #[tactic(auto, unfolding(crate::specs::Answer::reply_of, crate::specs::Answer::after))]
    fn serve(&mut self, alloc: Global, request: &[u8], room: u32) -> Result<Bytes, OutOfMemory> {
        if room == 0 {
            return Ok(Bytes::new(alloc));
        }
        self.answer(alloc, request, room)
    }
}
