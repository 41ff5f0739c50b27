//! What is read of a request (virtio 1.2, 5.2.6).
ghost use Rattle.std.specs.Prelude.{◌≡◌, ◌≤◌, ◌*◌, ◌/◌, length, IfOk};
ghost use Rattle.vub_block.specs.Request.{type_in, sector_in, data_in, piece_in, pieces_in};

use byteorder::{ByteOrder, LittleEndian};
use std::alloc::Global;
use vub_base::OutOfMemory;

/// The length of what stands before the payload, in bytes.
pub(crate) const HEADER_LEN: usize = 16;

/// The length of a piece, in bytes.
pub(crate) const PIECE_LEN: usize = 16;

/// A range of sectors with its flags.
#[derive(Clone, Copy, Debug, PartialEq, Eq)]
pub struct Piece {
    /// The first sector.
    pub first: u64,
    /// How many sectors it has.
    pub count: u32,
    /// Its flags.
    pub flags: u32,
}

#[tactic(auto, unfolding(crate::specs::Request::type_in))]
pub(crate) fn type_of(request: &[u8]) -> u32
    requires { 16 ≤ length request.now }
    ensures { result ≡ type_in request.now }
{
    LittleEndian::read_u32(request)
}

#[tactic(auto, unfolding(crate::specs::Request::sector_in))]
pub(crate) fn sector_of(request: &[u8]) -> u64
    requires { 16 ≤ length request.now }
    ensures { result ≡ sector_in request.now }
{
    LittleEndian::read_u64(&request[8..])
}

pub(crate) fn data_of(request: &[u8]) -> &[u8]
    requires { 16 ≤ length request.now }
    ensures { result.now ≡ data_in request.now }
{
    &request[HEADER_LEN..]
}

#[tactic(auto, unfolding(crate::specs::Request::piece_in))]
fn piece_of(bytes: &[u8]) -> Piece
    requires { 16 ≤ length bytes.now }
    ensures { result ≡ piece_in bytes.now }
{
    Piece {
        first: LittleEndian::read_u64(bytes),
        count: LittleEndian::read_u32(&bytes[8..]),
        flags: LittleEndian::read_u32(&bytes[12..]),
    }
}

/// The whole pieces of the data, one after the other.
///
/// # Errors
/// Want of memory.
#[tactic(auto, unfolding(crate::specs::Request::pieces_in))]
pub(crate) fn pieces_of(alloc: Global, payload: &[u8]) -> Result<Vec<Piece>, OutOfMemory>
    ensures { IfOk result (λ ps. ps.items ≡ pieces_in payload.now) }
{
    let mut pieces = Vec::new(alloc);
    for index in 0..payload.len() / PIECE_LEN {
        pieces.push(piece_of(&payload[PIECE_LEN * index..]))?;
    }
    Ok(pieces)
}
