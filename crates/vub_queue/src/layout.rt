//! The numbers of a split ring (virtio 1.2): the flags of a descriptor (2.7.5), the alignments of the three parts
//! (2.7), and how far behind the start of a ring its parts lie (2.7.6, 2.7.8), in bytes.
ghost use Rattle.std.specs.Prelude.{◌≡◌, ◌+◌, ◌*◌};

/// The chain goes on at the descriptor that `next` numbers.
pub const VIRTQ_DESC_F_NEXT: u16 = 1;

/// The device may write the segment; without it the driver wrote it.
pub const VIRTQ_DESC_F_WRITE: u16 = 2;

/// The segment holds a table of descriptors.
pub const VIRTQ_DESC_F_INDIRECT: u16 = 4;

/// The descriptor table begins at a multiple of this.
pub const DESC_ALIGNMENT: u64 = 16;

/// The available ring begins at a multiple of this.
pub const AVAIL_ALIGNMENT: u64 = 2;

/// The used ring begins at a multiple of this.
pub const USED_ALIGNMENT: u64 = 4;

/// Where slot `n` of the available ring lies, of two bytes. The word used_event stands where slot `size` would.
pub const fn avail_slot_place(n: u16) -> u64
    ensures { result ≡ 4 + 2 * n }
{
    4 + 2 * n as u64
}

/// Where element `n` of the used ring lies, of eight bytes. The word avail_event stands where element `size` would.
pub const fn used_element_place(n: u16) -> u64
    ensures { result ≡ 4 + 8 * n }
{
    4 + 8 * n as u64
}
