use crate::shown::show;
use std::alloc::{AllocError, Global};
use std::test::Fail;
use vub_sparse::{
    FallocateMode, FileError, FileSetLen, FileSync, MemFile, PunchHole, SeekHole, SparseFile,
    WriteZeroes, WriteZeroesAt, fallocate,
};

// a file with these bytes, of which no call fails
fn file_of(alloc: Global, bytes: &[u8]) -> Result<MemFile, AllocError> {
    MemFile::from_slice(alloc, bytes, Vec::new(alloc), Vec::new(alloc))
}

// the cells as text: a hole is a dot, a byte its character
fn shown<F: SparseFile>(alloc: Global, file: &mut F) -> Result<String, Fail> {
    let bytes = file.read_at(alloc, 0, 64)?;
    let mut text = String::new(alloc);
    for (place, byte) in bytes.iter().enumerate() {
        if file.hole_at(place as u64) {
            text.push('.')?;
        } else {
            text.push(char::from(*byte))?;
        }
    }
    Ok(text)
}

#[test]
fn holes_are_punched_and_found(rt: HostRuntime) -> Result<(), Fail> {
    let mut file = file_of(rt.alloc(), b"11111111")?;
    file.punch_hole(rt.alloc(), 2, 3)?;
    assert_eq!(rt; file.len(), 8);
    assert_eq!(rt; shown(rt.alloc(), &mut file)?.as_str(), "11...111");
    assert_eq!(rt; file.seek_hole(0), Ok(Some(2)));
    assert_eq!(rt; file.position(), 2);
    assert_eq!(rt; file.seek_data(2), Ok(Some(5)));
    assert_eq!(rt; file.position(), 5);
    assert_eq!(rt; file.seek_hole(5), Ok(Some(8)));
    assert_eq!(rt; file.seek_data(8), Ok(None));
    assert_eq!(rt; file.position(), 8);
    assert_eq!(rt; file.seek_hole(8), Ok(None));
    assert_eq!(rt; file.seek_hole(1 << 63), Err(FileError::EINVAL));
    assert_eq!(rt; file.seek_data(1 << 63), Err(FileError::EINVAL));
    assert_eq!(rt; file.write_zeroes_at(rt.alloc(), 6, 4), Ok(4));
    assert_eq!(rt; file.len(), 10);
    assert_eq!(rt; shown(rt.alloc(), &mut file)?.as_str(), "11...1\0\0\0\0");
    assert!(rt; !file.hole_at(10));
    Ok(())
}

#[test]
fn data_and_holes_in_turn(rt: HostRuntime) -> Result<(), Fail> {
    // a hole, data, a hole, data and a hole, in blocks of 64 and a part of one
    let mut file = MemFile::new(rt.alloc());
    file.set_len(rt.alloc(), 0x150)?;
    for offset in [0x40, 0xc5] {
        assert_eq!(rt; file.write_at(rt.alloc(), offset, &[7u8; 0x40]), Ok(0x40));
    }
    for (offset, hole, bytes) in [
        (0, Some(0), Some(0x40)),
        (0x3f, Some(0x3f), Some(0x40)),
        (0x40, Some(0x80), Some(0x40)),
        (0x7f, Some(0x80), Some(0x7f)),
        (0x80, Some(0x80), Some(0xc5)),
        (0xc5, Some(0x105), Some(0xc5)),
        (0x105, Some(0x105), None),
        (0x14f, Some(0x14f), None),
        (0x150, None, None),
    ] {
        assert_eq!(rt; file.seek_hole(offset), Ok(hole));
        assert_eq!(rt; file.seek_data(offset), Ok(bytes));
    }
    // without holes the end is the one hole
    assert_eq!(rt; file.write_all_zeroes_at(rt.alloc(), 0, 0x150), Ok(()));
    assert_eq!(rt; file.seek_hole(0), Ok(Some(0x150)));
    Ok(())
}

#[test]
fn ranges_are_allocated(rt: HostRuntime) -> Result<(), Fail> {
    const PUNCH: FallocateMode = FallocateMode::PunchHole;
    const ZERO: FallocateMode = FallocateMode::ZeroRange;
    for (mode, keep, offset, len, answer, cells) in [
        (PUNCH, true, 1, 2, Ok(()), "a..d"),
        (PUNCH, true, 3, 9, Ok(()), "abc."),
        (PUNCH, true, 9, 1, Ok(()), "abcd"),
        (PUNCH, false, 1, 2, Err(FileError::EINVAL), "abcd"),
        (ZERO, true, 3, 9, Ok(()), "abc\0"),
        (ZERO, false, 3, 2, Ok(()), "abc\0\0"),
        (ZERO, false, 6, 1, Ok(()), "abcd..\0"),
        (ZERO, false, 0, 0, Err(FileError::EINVAL), "abcd"),
        (ZERO, true, 1 << 63, 1, Err(FileError::EINVAL), "abcd"),
        (ZERO, true, 0, 1 << 63, Err(FileError::EINVAL), "abcd"),
        (ZERO, true, (1 << 63) - 1, 1, Err(FileError::EINVAL), "abcd"),
    ] {
        let mut file = file_of(rt.alloc(), b"abcd")?;
        assert_eq!(rt;
            fallocate(rt.alloc(), &mut file, mode, keep, offset, len),
            answer
        );
        assert_eq!(rt; shown(rt.alloc(), &mut file)?.as_str(), cells);
        assert_eq!(rt; file.position(), 0);
    }
    Ok(())
}

#[test]
fn zeroes_are_written_and_files_cut(rt: HostRuntime) -> Result<(), Fail> {
    let mut file = file_of(rt.alloc(), b"abcdef")?;
    file.set_position(2);
    assert_eq!(rt; file.write_zeroes(rt.alloc(), 2), Ok(2));
    assert_eq!(rt; file.position(), 4);
    assert_eq!(rt; shown(rt.alloc(), &mut file)?.as_str(), "ab\0\0ef");
    file.write_all_zeroes(rt.alloc(), 9000)?;
    assert_eq!(rt; file.len(), 9004);
    assert_eq!(rt; file.position(), 9004);
    assert_eq!(rt;
        file.write_zeroes_at(rt.alloc(), (1 << 63) - 2, 2),
        Err(FileError::EINVAL)
    );
    file.set_len(rt.alloc(), 3)?;
    assert_eq!(rt; shown(rt.alloc(), &mut file)?.as_str(), "ab\0");
    file.set_len(rt.alloc(), 5)?;
    assert_eq!(rt; shown(rt.alloc(), &mut file)?.as_str(), "ab\0..");
    file.fsync()?;
    assert_eq!(rt; file.write_at(rt.alloc(), 7, b"z"), Ok(1));
    assert_eq!(rt; shown(rt.alloc(), &mut file)?.as_str(), "ab\0....z");
    assert_eq!(rt; file.read_at(rt.alloc(), 7, 9)?.as_slice(), b"z".as_slice());
    Ok(())
}

#[test]
fn listed_calls_fail_or_write_nothing(rt: HostRuntime) -> Result<(), Fail> {
    let failing = vec![in rt.alloc(); 1, 2, 6]?;
    let stalling = vec![in rt.alloc(); 2, 4, 5]?;
    let mut file = MemFile::from_slice(rt.alloc(), b"abcd", failing, stalling)?;
    assert_eq!(rt; file.write_at(rt.alloc(), 0, b"x"), Ok(1));
    assert_eq!(rt; file.fsync(), Err(FileError::Failed));
    assert_eq!(rt; file.write_at(rt.alloc(), 0, b"y"), Err(FileError::Failed));
    assert_eq!(rt; file.punch_hole(rt.alloc(), 1, 1), Ok(()));
    assert_eq!(rt; file.write_zeroes_at(rt.alloc(), 2, 2), Ok(0));
    assert_eq!(rt;
        file.write_all_zeroes(rt.alloc(), 2),
        Err(FileError::WriteZero)
    );
    assert_eq!(rt; file.set_len(rt.alloc(), 0), Err(FileError::Failed));
    assert_eq!(rt; file.faults(), 5);
    assert_eq!(rt; shown(rt.alloc(), &mut file)?.as_str(), "x.cd");
    assert_eq!(rt; file.position(), 0);
    let text = format!(in rt.alloc();
        "{}; {}; {}; {}",
        FileError::EINVAL,
        FileError::WriteZero,
        FileError::Failed,
        FileError::OutOfMemory
    )?;
    assert_eq!(rt;
        text.as_str(),
        "Invalid argument (os error 22); failed to write whole buffer; the file failed; out of memory"
    );
    Ok(())
}

/// What `Debug` shows of a value of each type.
const SHOWN: &str = "\
MemFile { bytes: [97], words: [0], cursor: 1, faults: 0, calls: 0, failing: [5], stalling: [] }
PunchHole
EINVAL
";

#[test]
fn types_are_shown(rt: HostRuntime) -> Result<(), Fail> {
    let alloc = rt.alloc();
    let mut file = MemFile::from_slice(alloc, b"a", vec![in alloc; 5]?, Vec::new(alloc))?;
    file.set_position(1);
    let mut shown = String::new(alloc);
    show(alloc, &mut shown, &file)?;
    show(alloc, &mut shown, &FallocateMode::PunchHole)?;
    show(alloc, &mut shown, &FileError::EINVAL)?;
    assert_eq!(rt; shown.as_str(), SHOWN);
    Ok(())
}
