use std::alloc::Global;
use std::test::Fail;
use std::thread;
use vub_log::{Harvester, LogSeat, MmapLogReg, PlainLog};
use vub_mem::{
    AtomicBitmapMmap, Bitmap, BitmapMmapRegion, BitmapReplace, Bytes, DirtyLog, GuestMemory,
    HarvestLog, LogError, Region,
};

fn region(start: u64, len: u64) -> Region {
    Region {
        start,
        len,
        object: 7,
        offset: 0,
        log: None,
    }
}

/// The log's first four bytes, the first lowest.
fn front<L: DirtyLog>(log: &mut L) -> u32 {
    let mut bytes = [0; 4];
    for i in 0..4 {
        if (i as u64) < log.len() {
            bytes[i] = log.load(i as u64);
        }
    }
    u32::from_le_bytes(bytes)
}

/// A bitmap of the region in a log of so many bytes.
fn tracked<B: BitmapReplace + Default + Drop>(
    region: &Region,
    log_bytes: u64,
) -> Result<B, LogError> {
    let mut bitmap = B::default();
    bitmap.replace(<B::InnerBitmap as vub_mem::MemRegionBitmap>::new(region, 0, 0, log_bytes)?);
    Ok(bitmap)
}

fn harvested<L: HarvestLog>(log: &mut L) -> Result<u32, LogError> {
    if 0 < log.len() { log.harvest(0) } else { Ok(0) }
}

#[test]
fn a_log_is_made_for_one_byte_or_more(rt: HostRuntime) -> Result<(), Fail> {
    for (len, error) in [(0, LogError::EmptyLog), (1 << 61, LogError::OutOfMemory)] {
        match PlainLog::new(rt.alloc(), len) {
            Ok(_) => return Err(Fail::new("a log")),
            Err(refused) => assert_eq!(rt; refused, error),
        }
        match MmapLogReg::new(rt.alloc(), len) {
            Ok(_) => return Err(Fail::new("a shared log")),
            Err(refused) => assert_eq!(rt; refused, error),
        }
    }
    assert_eq!(rt; PlainLog::new(rt.alloc(), 5)?.len(), 5);
    assert_eq!(rt; MmapLogReg::new(rt.alloc(), 5)?.0.len(), 5);
    Ok(())
}

/// Whether the log's first four bytes, and then a harvest of them, are these bits.
fn shows_and_gives<L: HarvestLog>(log: &mut L, bits: u32) -> Result<bool, LogError> {
    Ok(front(log) == bits && harvested(log)? == bits && front(log) == 0)
}

/// Marks ranges of a region of four pages at 0x2000 in a log of four bytes, and each page of the log alone.
fn marks_no_other_page<L: HarvestLog>(log: &mut L) -> Result<(), Fail> {
    let bitmap = tracked::<BitmapMmapRegion>(&region(0x2000, 0x4000), 4)?;
    for (offset, len, bits) in [
        (4095, 2, 0xc),
        (0, 1, 0x4),
        (0x3fff, 0x10000, 0x20),
        (0x4000, 9, 0),
    ] {
        bitmap.mark_dirty(log, offset, len);
        if !shows_and_gives(log, bits)? {
            return Err(Fail::new("a range marks other pages"));
        }
    }
    for page in 0..32 {
        if page < 8 * log.len() {
            log.mark(page);
        }
        if !shows_and_gives(log, 1 << page as u32)? {
            return Err(Fail::new("a mark sets other bits"));
        }
    }
    bitmap.mark_dirty(log, 4095, 2);
    let slice = bitmap.slice_at(0x1000);
    if !slice.dirty_at(log, 0xfff) || slice.dirty_at(log, 0x1000) {
        return Err(Fail::new("a slice shows another page"));
    }
    Ok(())
}

#[test]
fn a_range_of_a_region_marks_its_pages(rt: HostRuntime) -> Result<(), Fail> {
    marks_no_other_page(&mut PlainLog::new(rt.alloc(), 4)?)?;
    marks_no_other_page(&mut MmapLogReg::new(rt.alloc(), 4)?.2)?;
    for (region, error) in [
        (region(0, 0x10000), LogError::TooSmall),
        (region(0, 0), LogError::TooSmall),
        (region(0, 0x1800), LogError::NotPageAligned),
        (region(0x800, 0x1000), LogError::NotPageAligned),
    ] {
        assert_eq!(rt; AtomicBitmapMmap::new(&region, 0, 0, 1), Err(error));
    }
    Ok(())
}

/// A memory with this log, of number 3, and a region of this start and length.
fn memory<L: DirtyLog>(
    alloc: Global,
    log: L,
    start: u64,
    len: u64,
) -> Result<GuestMemory<L>, Fail> {
    let mut memory = GuestMemory::new(alloc);
    memory.put_object(alloc, 7, Bytes::from_vec(vec![in alloc; 0u8; 0x10000]?))?;
    if !memory.has_log(3) {
        memory.put_log(alloc, 3, log)?;
    }
    if 0 < len {
        memory.insert_region(alloc, region(start, len))?;
    }
    Ok(memory)
}

#[test]
fn a_log_is_set_or_refused_by_its_first_fault(rt: HostRuntime) -> Result<(), Fail> {
    for (len, object, offset, size, tracks, answer) in [
        (0x4000, 3, 0, 0, true, Err(LogError::EmptyLog)),
        (0x4000, 4, 0, 1, true, Err(LogError::PastObject)),
        (0x4000, 3, 1, 4, true, Err(LogError::PastObject)),
        (0x4000, 3, u64::MAX, 4, true, Err(LogError::PastObject)),
        (0x1800, 3, 0, 1, false, Err(LogError::Unsupported)),
        (0, 3, 0, 1, false, Ok(())),
        (0x1800, 3, 0, 4, true, Err(LogError::NotPageAligned)),
        (0x10000, 3, 0, 1, true, Err(LogError::TooSmall)),
        (0x10000, 3, 2, 2, true, Ok(())),
    ] {
        let log = PlainLog::new(rt.alloc(), 4)?;
        let mut plain = memory(rt.alloc(), log, 0, len)?;
        assert_eq!(rt; plain.set_log(object, offset, size, tracks), answer);
        let (_log, seat, _harvester) = MmapLogReg::new(rt.alloc(), 4)?;
        let mut shared = memory(rt.alloc(), seat, 0, len)?;
        assert_eq!(rt; shared.set_log(object, offset, size, tracks), answer);
    }
    Ok(())
}

/// Writes to a region at 0x2000, before and after it has the log, and stores as the guest does: of the log's first word
/// the bits that are left, and then those of two harvests.
fn writes_are_marked<L: HarvestLog>(alloc: Global, log: L) -> Result<[u32; 3], Fail> {
    let mut memory = memory(alloc, log, 0x2000, 0x4000)?;
    memory.write(0x2000, b"early")?;
    memory.set_log(3, 0, 4, true)?;
    memory.write(0x2fff, b"two")?;
    if memory.content(7).len() == 0x10000 {
        memory.store(7, 0x3000, b"stored");
    }
    let mut seen = [0; 3];
    if memory.log_len(3) == 4 {
        seen[0] = u32::from(memory.load(3, 0));
    }
    for i in 1..3 {
        if memory.log_len(3) == 4 {
            seen[i] = memory.harvest(3, 0)?;
        }
    }
    Ok(seen)
}

#[test]
fn writes_are_marked_and_harvested(rt: HostRuntime) -> Result<(), Fail> {
    let plain = PlainLog::new(rt.alloc(), 4)?;
    assert_eq!(rt; writes_are_marked(rt.alloc(), plain)?, [0xc, 0xc, 0]);
    let (_log, _seat, harvester) = MmapLogReg::new(rt.alloc(), 4)?;
    assert_eq!(rt; writes_are_marked(rt.alloc(), harvester)?, [0xc, 0xc, 0]);
    Ok(())
}

#[test]
fn a_joined_seat_shows_and_its_harvester_gives(rt: HostRuntime) -> Result<(), Fail> {
    let (_log, mut first, mut harvester) = MmapLogReg::new(rt.alloc(), 4)?;
    first.mark(1);
    let mut second = first.split()?;
    second.mark(9);
    let mut both = first.join(second);
    assert_eq!(rt; harvester.harvest(0)?, 0x202);
    both.mark(1);
    assert_eq!(rt; both.load(0), 2);
    harvester.take_in(both);
    assert_eq!(rt; harvester.harvest(0)?, 2);
    Ok(())
}

/// The pages that the workers mark, in each word: the first marks pages 0, 4, 8 and so on, the second pages 1, 5, 9.
const MARKED: u32 = 0x3333_3333;

/// Marks 50,000 pages: each fourth from this one on.
fn marks_each_fourth(mut seat: LogSeat, first: u64) -> LogSeat {
    for i in 0..50_000 {
        let page = 4 * i + first % 4;
        if page < 8 * seat.len() {
            seat.mark(page);
        }
    }
    seat
}

/// Harvests each of these words once, and adds what it gives.
fn harvests_all(harvester: &mut Harvester, seen: &mut [u32]) -> Result<(), LogError> {
    for word in 0..seen.len() {
        if 4 * (word as u64) < harvester.len() {
            seen[word] |= harvester.harvest(word as u64)?;
        }
    }
    Ok(())
}

#[test]
fn harvests_and_final_words_are_what_workers_marked(rt: HostRuntime) -> Result<(), Fail> {
    let (_log, mut first, mut harvester) = MmapLogReg::new(rt.alloc(), 25_000)?;
    let second = first.split()?;
    let mut seen = vec![in rt.alloc(); 0u32; 6250]?;
    let Ok(one) = thread::spawn(&rt, move || marks_each_fourth(first, 0)) else {
        return Err(Fail::new("no thread"));
    };
    let Ok(two) = thread::spawn(&rt, move || marks_each_fourth(second, 1)) else {
        return Err(Fail::new("no thread"));
    };
    for _ in 0..20 {
        harvests_all(&mut harvester, &mut seen)?;
    }
    one.join(&rt);
    let mut last = two.join(&rt);
    for word in 0..seen.len() {
        for i in 0..4 {
            let byte = 4 * (word as u64) + i;
            if byte < last.len() {
                seen[word] |= u32::from(last.load(byte)) << (8 * i) as u32;
            }
        }
        assert_eq!(rt; seen[word], MARKED);
    }
    Ok(())
}
