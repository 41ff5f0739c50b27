//! The types of requests (virtio 1.2, 5.2.6), and lengths in bytes.

/// Reads sectors.
pub const VIRTIO_BLK_T_IN: u32 = 0;
/// Writes sectors.
pub const VIRTIO_BLK_T_OUT: u32 = 1;
/// Hands what was written to the medium.
pub const VIRTIO_BLK_T_FLUSH: u32 = 4;
/// Asks for the id.
pub const VIRTIO_BLK_T_GET_ID: u32 = 8;
/// Makes sectors holes.
pub const VIRTIO_BLK_T_DISCARD: u32 = 11;
/// Makes sectors zero bytes, or holes.
pub const VIRTIO_BLK_T_WRITE_ZEROES: u32 = 13;

/// The length of a sector.
pub const SECTOR_LEN: u64 = 512;
/// The length of an id as it is told (VIRTIO_BLK_ID_BYTES).
pub const ID_LEN: usize = 20;
/// The most sectors that a disk may have.
pub const GREATEST_SECTORS: u32 = 131_072;
