use std::alloc::Global;
use std::test::Fail;
use vub_block::types::{
    VIRTIO_BLK_T_DISCARD, VIRTIO_BLK_T_FLUSH, VIRTIO_BLK_T_GET_ID, VIRTIO_BLK_T_IN,
    VIRTIO_BLK_T_OUT, VIRTIO_BLK_T_WRITE_ZEROES,
};
use vub_block::{BlockError, BlockService};
use vub_proto::Service;

/// The data of a request.
#[derive(Clone, Copy)]
enum Data {
    None,
    /// So many of one byte.
    Bytes(usize, u8),
    /// Pieces, each a sector, a count and flags.
    Pieces(&'static [(u64, u32, u32)]),
}

/// A request's type, sector, data and room; and of its reply the byte before the status, and the status.
#[derive(Clone, Copy)]
struct Case(u32, u64, Data, u32, u8, u8);

const SECTOR: Data = Data::Bytes(512, 0xab);

const ONE: Data = Data::Pieces(&[(2, 1, 0)]);

const SECOND_PAST: Data = Data::Pieces(&[(2, 1, 0), (4, 1, 0)]);

const NONE_PAST: Data = Data::Pieces(&[(5, 0, 0)]);

const FLAGGED: Data = Data::Pieces(&[(2, 1, 1)]);

const FLAGGED_PAST: Data = Data::Pieces(&[(2, 1, 2), (4, 1, 0)]);

/// Asked of a disk of four sectors with the id `disk`, one after the other.
const CASES: [Case; 24] = [
    Case(VIRTIO_BLK_T_OUT, 2, SECTOR, 1, 0, 0),
    Case(VIRTIO_BLK_T_IN, 2, Data::None, 513, 0xab, 0),
    Case(VIRTIO_BLK_T_IN, 4, Data::None, 513, 0, 1),
    Case(VIRTIO_BLK_T_IN, 2, Data::None, 514, 0, 1),
    Case(VIRTIO_BLK_T_IN, 2, SECTOR, 513, 0, 1),
    Case(VIRTIO_BLK_T_IN, 4, Data::None, 1, 0, 0),
    Case(VIRTIO_BLK_T_OUT, 3, Data::Bytes(1024, 1), 1, 0, 1),
    Case(VIRTIO_BLK_T_OUT, 3, Data::Bytes(511, 1), 1, 0, 1),
    Case(VIRTIO_BLK_T_FLUSH, 0, Data::None, 2, 0, 0),
    Case(VIRTIO_BLK_T_FLUSH, 0, SECTOR, 2, 0, 1),
    Case(VIRTIO_BLK_T_GET_ID, 0, Data::None, 20, 0, 1),
    Case(VIRTIO_BLK_T_GET_ID, 0, Data::None, 21, 0, 0),
    Case(VIRTIO_BLK_T_DISCARD, 0, SECOND_PAST, 1, 0, 1),
    Case(VIRTIO_BLK_T_DISCARD, 0, NONE_PAST, 1, 0, 1),
    Case(VIRTIO_BLK_T_DISCARD, 0, Data::None, 1, 0, 1),
    Case(VIRTIO_BLK_T_DISCARD, 0, FLAGGED, 1, 0, 2),
    Case(VIRTIO_BLK_T_WRITE_ZEROES, 0, FLAGGED_PAST, 1, 0, 1),
    Case(VIRTIO_BLK_T_IN, 2, Data::None, 513, 0xab, 0),
    Case(VIRTIO_BLK_T_WRITE_ZEROES, 0, ONE, 1, 0, 0),
    Case(VIRTIO_BLK_T_IN, 2, Data::None, 513, 0, 0),
    Case(VIRTIO_BLK_T_DISCARD, 0, ONE, 1, 0, 0),
    Case(VIRTIO_BLK_T_WRITE_ZEROES, 0, FLAGGED, 1, 0, 0),
    Case(VIRTIO_BLK_T_IN, 2, Data::None, 513, 0, 0),
    Case(99, 0, Data::None, 1, 0, 2),
];

fn put_data(out: &mut Vec<u8>, data: Data) -> Result<(), Fail> {
    match data {
        Data::None => {}
        Data::Bytes(count, byte) => {
            for _ in 0..count {
                out.push(byte)?;
            }
        }
        Data::Pieces(pieces) => {
            for (sector, count, flags) in pieces {
                out.extend_from_slice(&sector.to_le_bytes())?;
                out.extend_from_slice(&count.to_le_bytes())?;
                out.extend_from_slice(&flags.to_le_bytes())?;
            }
        }
    }
    Ok(())
}

/// A request's bytes.
fn asked(alloc: Global, kind: u32, sector: u64, data: Data) -> Result<Vec<u8>, Fail> {
    let mut out = Vec::new(alloc);
    out.extend_from_slice(&kind.to_le_bytes())?;
    out.extend_from_slice(&[0; 4])?;
    out.extend_from_slice(&sector.to_le_bytes())?;
    put_data(&mut out, data)?;
    Ok(out)
}

/// The length of a reply, the byte before its status, and its status.
fn ends(reply: &[u8]) -> (usize, u8, u8) {
    match reply {
        [] => (0, 0, 0),
        [status] => (1, 0, *status),
        [.., before, status] => (reply.len(), *before, *status),
    }
}

#[test]
fn requests_are_answered_by_the_table(rt: HostRuntime) -> Result<(), Fail> {
    let mut disk = BlockService::new(rt.alloc(), 4, b"disk")?;
    for Case(kind, sector, data, room, before, status) in CASES {
        let request = asked(rt.alloc(), kind, sector, data)?;
        let reply = disk.serve(rt.alloc(), &request, room)?;
        assert_eq!(rt;
            ends(reply.as_slice()),
            (room as usize, before, status),
            "type {kind}"
        );
    }
    Ok(())
}

#[test]
fn discarded_sectors_are_holes(rt: HostRuntime) -> Result<(), Fail> {
    let mut disk = BlockService::new(rt.alloc(), 4, b"disk")?;
    for (kind, data, hole) in [
        (VIRTIO_BLK_T_OUT, SECTOR, false),
        (VIRTIO_BLK_T_DISCARD, SECOND_PAST, false),
        (VIRTIO_BLK_T_WRITE_ZEROES, ONE, false),
        (VIRTIO_BLK_T_WRITE_ZEROES, FLAGGED, true),
        (VIRTIO_BLK_T_OUT, SECTOR, false),
        (VIRTIO_BLK_T_DISCARD, ONE, true),
    ] {
        let request = asked(rt.alloc(), kind, 2, data)?;
        disk.serve(rt.alloc(), &request, 1)?;
        assert_eq!(rt; disk.is_hole(2), hole);
    }
    assert!(rt; !disk.is_hole(4));
    Ok(())
}

#[test]
fn the_id_is_filled_with_zeros(rt: HostRuntime) -> Result<(), Fail> {
    let mut disk = BlockService::new(rt.alloc(), 1, b"disk")?;
    let request = asked(rt.alloc(), VIRTIO_BLK_T_GET_ID, 0, Data::None)?;
    let reply = disk.serve(rt.alloc(), &request, 22)?;
    assert_eq!(rt;
        reply.as_slice(),
        b"disk\0\0\0\0\0\0\0\0\0\0\0\0\0\0\0\0\0\0".as_slice()
    );
    assert!(rt; disk.serve(rt.alloc(), &request, 0)?.is_empty());
    assert_eq!(rt;
        disk.serve(rt.alloc(), &[0; 15], 1)?.as_slice(),
        [1].as_slice()
    );
    Ok(())
}

#[test]
fn big_disks_and_long_ids_are_refused(rt: HostRuntime) {
    for (sectors, id, refused) in [
        (131_072, [0; 20].as_slice(), None),
        (131_072, &[0; 21], Some(BlockError::Id)),
        (131_073, &[0; 21], Some(BlockError::TooBig)),
    ] {
        assert_eq!(rt; BlockService::new(rt.alloc(), sectors, id).err(), refused);
    }
}

#[test]
fn types_are_shown(rt: HostRuntime) -> Result<(), Fail> {
    let alloc = rt.alloc();
    for (error, text) in [
        (BlockError::TooBig, "disk has more than 131072 sectors"),
        (BlockError::Id, "id has more than 20 bytes"),
        (BlockError::OutOfMemory, "out of memory"),
    ] {
        assert_eq!(rt; format!(in alloc; "{error}")?.as_str(), text);
    }
    Ok(())
}
