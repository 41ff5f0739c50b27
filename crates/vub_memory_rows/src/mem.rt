ghost use Rattle.std.specs.Prelude.{◌≡◌, ◌+◌, ◌<◌, ◌≤◌, length};

use std::alloc::Global;
use std::marker::Brand;
use std::sync::ledger::{Blank, Ledger};
use std::test::Fail;
use vub_base::Steps;
use vub_mem::{
    Bytes, GuestMemory, LogError, Mapping, MemError, MemRegionBitmap, Region, va_to_gpa,
};

/// A memory with the content 7 of 0x4000 zeros, and no region.
fn memory(alloc: Global) -> Result<GuestMemory<()>, MemError> {
    let Ok(zeros) = vec![in alloc; 0u8; 0x4000] else {
        return Err(MemError::OutOfMemory);
    };
    let mut memory = GuestMemory::new(alloc);
    memory.put_object(alloc, 7, Bytes::from_vec(zeros))?;
    Ok(memory)
}

fn region(start: u64, len: u64, offset: u64) -> Region {
    Region {
        start,
        len,
        object: 7,
        offset,
        log: None,
    }
}

fn replace(alloc: Global, memory: &mut GuestMemory<()>, table: &[Region]) -> Result<(), MemError> {
    let Ok(regions) = Vec::from_slice(alloc, table) else {
        return Err(MemError::OutOfMemory);
    };
    memory.replace_table(regions)
}

#[test]
fn a_table_is_refused_by_its_first_fault(rt: HostRuntime) -> Result<(), Fail> {
    let missing = Region {
        object: 8,
        ..region(0, 1, 0)
    };
    let last = u64::MAX - 0xfff;
    for (first, second, answer) in [
        (region(0, 0x1000, 0), region(0x1000, 0x1000, 0), Ok(())),
        (region(0, 0x1000, 0), region(last - 1, 0x1000, 0), Ok(())),
        (region(0, 0, 0), region(0, 0x1000, 0), Err(MemError::Empty)),
        (region(0x1000, 1, 0), region(0, 0, 0), Err(MemError::Empty)),
        (
            region(0, 0x1000, 0x3001),
            region(0, 1, 0),
            Err(MemError::PastObject),
        ),
        (
            region(0, 1, u64::MAX),
            region(0, 1, 0),
            Err(MemError::PastObject),
        ),
        (missing, region(1, 1, 0), Err(MemError::PastObject)),
        (
            region(0, 0x1000, 0),
            region(last, 0x1000, 0),
            Err(MemError::Wraps),
        ),
        (
            region(0x2000, 0x1000, 0),
            region(0x1000, 0x1000, 0),
            Err(MemError::Order),
        ),
        (
            region(0, 0x1001, 0),
            region(0x1000, 0x1000, 0),
            Err(MemError::Overlap),
        ),
        (
            region(0, 0x1000, 0),
            region(0, 0x1000, 0),
            Err(MemError::Overlap),
        ),
    ] {
        let mut memory = memory(rt.alloc())?;
        assert_eq!(rt; replace(rt.alloc(), &mut memory, &[first, second]), answer);
    }
    let mut memory = memory(rt.alloc())?;
    assert_eq!(rt; replace(rt.alloc(), &mut memory, &[]), Err(MemError::Empty));
    Ok(())
}

#[test]
fn regions_are_put_in_by_order_and_taken_out_by_name(rt: HostRuntime) -> Result<(), Fail> {
    let mut memory = memory(rt.alloc())?;
    memory.insert_region(rt.alloc(), region(0x2000, 0x1000, 0))?;
    memory.insert_region(rt.alloc(), region(0, 0x1000, 0))?;
    memory.insert_region(rt.alloc(), region(0x1fff, 1, 0))?;
    for (other, answer) in [
        (region(0x2fff, 2, 0), Err(MemError::Overlap)),
        (region(0x1ffe, 2, 0), Err(MemError::Overlap)),
        (region(0, 0x4001, 0), Err(MemError::PastObject)),
        (region(0x3000, 0, 0), Err(MemError::Empty)),
        (region(u64::MAX, 1, 0), Err(MemError::Wraps)),
    ] {
        assert_eq!(rt; memory.insert_region(rt.alloc(), other), answer);
    }
    assert_eq!(rt;
        memory.remove_region(0x1fff, 2),
        Err(MemError::NoSuchRegion)
    );
    let table = [
        region(0, 0x1000, 0),
        region(0x1fff, 1, 0),
        region(0x2000, 0x1000, 0),
    ];
    assert_eq!(rt; memory.regions(), table.as_slice());
    assert_eq!(rt; memory.remove_region(0x1fff, 1), Ok(region(0x1fff, 1, 0)));
    assert_eq!(rt; memory.covers(0x1fff, 1), false);
    Ok(())
}

#[test]
fn bytes_are_read_and_written_over_two_regions(rt: HostRuntime) -> Result<(), Fail> {
    let mut memory = memory(rt.alloc())?;
    let table = [region(0x1000, 0x1000, 0x3000), region(0x2000, 0x1000, 0)];
    replace(rt.alloc(), &mut memory, &table)?;
    memory.write(0x1ffe, b"abcd")?;
    memory.write_u16(0x2004, 0x6665)?;
    for (addr, len, bytes) in [
        (0x1ffe, 4, b"abcd".as_slice()),
        (0x1fff, 1, b"b".as_slice()),
        (0x2000, 6, b"cd\0\0ef".as_slice()),
        (u64::MAX, 0, b"".as_slice()),
    ] {
        assert_eq!(rt; memory.read(rt.alloc(), addr, len)?.as_slice(), bytes);
    }
    assert_eq!(rt; memory.read_u16(0x1fff), Ok(0x6362));
    assert_eq!(rt; memory.read_u16(0x2fff), Err(MemError::Outside));
    assert_eq!(rt; memory.write(0x2fff, b"xy"), Err(MemError::Outside));
    assert_eq!(rt; memory.write(u64::MAX, b"xy"), Err(MemError::Outside));
    assert_eq!(rt; memory.write_u16(0xfff, 1), Err(MemError::Outside));
    if memory.content(7).len() == 0x4000 {
        memory.store(7, 0x3fff, b"z");
    }
    assert_eq!(rt; memory.u32_at(0x1ffe), 0x6463_7a61);
    assert_eq!(rt; memory.u64_at(0x1ffe), 0x6665_0000_6463_7a61);
    Ok(())
}

#[test]
fn the_first_mapping_that_holds_an_address_decides(rt: HostRuntime) {
    let mapping = |user, len, start| Mapping { user, len, start };
    let mappings = [
        mapping(0x10000, 0x1000, 0x5000),
        mapping(0x10800, 0x1000, 0x9000),
        mapping(0x20000, 2, u64::MAX),
    ];
    for (va, answer) in [
        (0x10000, Ok(0x5000)),
        (0x10fff, Ok(0x5fff)),
        (0x11000, Ok(0x9800)),
        (0xffff, Err(MemError::MissingMemoryMapping)),
        (0x20000, Ok(u64::MAX)),
        (0x20001, Err(MemError::MissingMemoryMapping)),
    ] {
        assert_eq!(rt; va_to_gpa(&mappings, va), answer);
    }
}

fn made<B: MemRegionBitmap>(region: &Region) -> Result<B, LogError> {
    B::new(region, 0, 0, 1)
}

#[test]
fn no_bitmap_tracks_nothing(rt: HostRuntime) {
    assert_eq!(rt;
        made::<()>(&region(0, 0x1000, 0)),
        Err(LogError::Unsupported)
    );
}

/// A look-up in a table of seven regions costs at most three steps.
#[tactic(auto, using(vub_mem::proofs::Halving::seven_in_three))]
fn find_in_seven<K: Ledger>(
    memory: &GuestMemory<()>,
    addr: u64,
    steps: &mut Steps<K>,
) -> Option<usize>
    requires { length memory.now.guest.regions ≡ 7 }
    ensures { steps.new ≤ steps.old + 3 }
{
    memory.find(addr, steps)
}

/// A look-up in an empty table costs no step.
#[tactic(auto, using(vub_mem::proofs::Halving::none_in_none))]
fn find_in_none<K: Ledger>(
    memory: &GuestMemory<()>,
    addr: u64,
    steps: &mut Steps<K>,
) -> Option<usize>
    requires { length memory.now.guest.regions ≡ 0 }
    ensures { steps.new ≤ steps.old }
{
    memory.find(addr, steps)
}

fn find_with<K: Ledger>(memory: &GuestMemory<()>, addr: u64, blank: Blank) -> Option<usize>
    requires name { blank.name ≡ K.name }
    requires parts { blank.parts ≡ K.parts }
    requires some { 0 < K.parts }
{
    let mut steps = Steps::<K>::new(blank);
    match memory.regions().len() {
        7 => find_in_seven(memory, addr, &mut steps),
        0 => find_in_none(memory, addr, &mut steps),
        _ => memory.find(addr, &mut steps),
    }
}

fn find(memory: &GuestMemory<()>, addr: u64) -> Option<usize> {
    find_with::<Brand>(memory, addr, Blank::new(1))
}

#[test]
fn halving_finds_each_region(rt: HostRuntime) -> Result<(), Fail> {
    let mut memory = memory(rt.alloc())?;
    assert_eq!(rt; find(&memory, 0), None);
    let table = [
        region(0x1000, 0x800, 0),
        region(0x2000, 0x800, 0),
        region(0x3000, 0x800, 0),
        region(0x5000, 0x800, 0),
        region(0x7000, 0x800, 0),
        region(0x8000, 0x800, 0),
        region(0x9000, 0x800, 0),
    ];
    replace(rt.alloc(), &mut memory, &table)?;
    for (addr, place) in [
        (0, None),
        (0xfff, None),
        (0x1000, Some(0)),
        (0x17ff, Some(0)),
        (0x1800, None),
        (0x2000, Some(1)),
        (0x37ff, Some(2)),
        (0x4000, None),
        (0x5000, Some(3)),
        (0x77ff, Some(4)),
        (0x8000, Some(5)),
        (0x9000, Some(6)),
        (0x97ff, Some(6)),
        (0x9800, None),
        (u64::MAX, None),
    ] {
        assert_eq!(rt; find(&memory, addr), place);
    }
    Ok(())
}
