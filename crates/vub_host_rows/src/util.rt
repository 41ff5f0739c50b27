ghost use Rattle.std.specs.Prelude.{◌≡◌, ◌<◌, length, slice_set};

use crate::shown::{show, tell};
use std::alloc::AllocError;
use std::io::{self, Read, Seek, SeekFrom, Write};
use std::sync::atomic::AtomicU64;
use std::test::Fail;
use std::{fs, process};
use vub_util::align::{align_downwards, align_upwards};
use vub_util::errno::{Error, errno_result};
use vub_util::fam::{self, FamStruct, FamStructWrapper};
use vub_util::ioctl;
use vub_util::metric::Metric;
use vub_util::syscall::SyscallReturnCode;
use vub_util::tempdir::TempDir;
use vub_util::temperror::TempError;
use vub_util::tempfile::TempFile;

#[test]
fn addresses_are_rounded(rt: HostRuntime) {
    for (address, down, up) in [
        (0, 0, Some(0)),
        (3, 0, Some(4)),
        (4, 4, Some(4)),
        (5, 4, Some(8)),
        (7, 4, Some(8)),
    ] {
        assert_eq!(rt; around(address, 4), Some((down, up)));
    }
    assert_eq!(rt; around(u64::MAX, 2), Some((u64::MAX - 1, None)));
    assert_eq!(rt; around(u64::MAX, 1), Some((u64::MAX, Some(u64::MAX))));
}

// the multiples around an address, where the alignment is a power of two
fn around(address: u64, alignment: u64) -> Option<(u64, Option<u64>)> {
    if !alignment.is_power_of_two() {
        return None;
    }
    Some((
        align_downwards(address, alignment),
        align_upwards(address, alignment),
    ))
}

#[test]
fn errors_carry_and_print_their_number(rt: HostRuntime) -> Result<(), Fail> {
    let bad = Error::new(9);
    assert_eq!(rt; bad.errno(), 9);
    assert_eq!(rt; Error::last(9), bad);
    assert!(rt; errno_result::<u8>(9).is_err_and(|e| e.errno() == 9));
    assert_eq!(rt; Error::from(io::Error::from(bad)), bad);
    assert_eq!(rt;
        Error::from(io::Error::new(io::ErrorKind::Other, "no number")).errno(),
        0
    );
    for (number, text) in [
        (9, "Bad file descriptor (os error 9)"),
        (105, "No buffer space available (os error 105)"),
        (200, "Unknown error 200 (os error 200)"),
        (15, "Unknown error 15 (os error 15)"),
        (-1, "Unknown error -1 (os error -1)"),
    ] {
        let printed = format!(in rt.alloc(); "{}", Error::new(number))?;
        assert_eq!(rt; printed.as_str(), text);
    }
    Ok(())
}

/// What `Debug` shows of values, and the texts of errors.
const SHOWN: &str = "\
Error(9)
SyscallReturnCode(-1)
SizeLimitExceeded
FamStructWrapper { header: Header { kind: 0, count: 1 }, entries: [0] }
Os(2)
Bad file descriptor (os error 9)
The max size has been exceeded
out of memory
os error 2
";

#[test]
fn types_are_shown(rt: HostRuntime) -> Result<(), Fail> {
    let alloc = rt.alloc();
    // the type of the value is left out, so it is C's int
    let failed: SyscallReturnCode = SyscallReturnCode(-1);
    let mut shown = String::new(alloc);
    show(alloc, &mut shown, &Error::new(9))?;
    show(alloc, &mut shown, &failed)?;
    show(alloc, &mut shown, &fam::Error::SizeLimitExceeded)?;
    show(
        alloc,
        &mut shown,
        &FamStructWrapper::<Header>::new(alloc, 1)?,
    )?;
    show(alloc, &mut shown, &TempError::Os(2))?;
    tell(alloc, &mut shown, &Error::new(9))?;
    tell(alloc, &mut shown, &fam::Error::SizeLimitExceeded)?;
    tell(alloc, &mut shown, &fam::Error::OutOfMemory)?;
    tell(alloc, &mut shown, &TempError::Os(2))?;
    assert_eq!(rt; shown.as_str(), SHOWN);
    Ok(())
}

#[test]
fn system_calls_fail_at_minus_one(rt: HostRuntime) {
    assert_eq!(rt; SyscallReturnCode(1i32).into_result(9), Ok(1));
    assert_eq!(rt; SyscallReturnCode(-1i32).into_result(9), Err(Error::new(9)));
    assert_eq!(rt; SyscallReturnCode(1i64).into_empty_result(9), Ok(()));
    assert_eq!(rt;
        SyscallReturnCode(-1i64).into_empty_result(9),
        Err(Error::new(9))
    );
}

/// How a number of an ioctl is made: its direction apart from its size, or by one of the four calls.
#[derive(Clone, Copy)]
enum Ioctl {
    Neither(u32, u32),
    Read(u32, u32, u32),
    Write(u32, u32, u32),
    Both(u32, u32, u32),
    Of(u32, u32, u32, u32),
}

fn ioctl_number(call: Ioctl) -> u64 {
    match call {
        Ioctl::Neither(ty, nr) => ioctl::ioctl_io_nr(ty, nr),
        Ioctl::Read(ty, nr, size) => ioctl::ioctl_ior_nr(ty, nr, size),
        Ioctl::Write(ty, nr, size) => ioctl::ioctl_iow_nr(ty, nr, size),
        Ioctl::Both(ty, nr, size) => ioctl::ioctl_iowr_nr(ty, nr, size),
        Ioctl::Of(dir, ty, nr, size) => ioctl::ioctl_expr(dir, ty, nr, size),
    }
}

#[test]
fn ioctl_numbers_are_those_of_the_kernel(rt: HostRuntime) {
    // /dev/net/tun, the input devices, KVM and vhost
    for (call, number) in [
        (Ioctl::Read(0x54, 0xcf, 4), 0x8004_54cf),
        (Ioctl::Read(0x45, 0x22, 128), 0x8080_4522),
        (Ioctl::Neither(0xae, 1), 0xae01),
        (Ioctl::Neither(0xaf, 1), 0xaf01),
        (Ioctl::Neither(0x45, 9), 0x4509),
        (Ioctl::Both(0xae, 2, 4), 0xc004_ae02),
        (Ioctl::Both(0xaf, 0x12, 4), 0xc004_af12),
        (Ioctl::Write(0x54, 0xd9, 4), 0x4004_54d9),
        (Ioctl::Of(ioctl::_IOC_NONE, 0xae, 1, 0), 0xae01),
    ] {
        assert_eq!(rt; ioctl_number(call), number);
    }
}

#[test]
fn counters_count_and_wrap(rt: HostRuntime) {
    let counter = AtomicU64::new(0);
    counter.inc();
    counter.add(2);
    assert_eq!(rt; counter.count(), 3);
    counter.reset();
    assert_eq!(rt; counter.count(), 0);
    counter.set(u64::MAX);
    assert_eq!(rt; counter.count(), u64::MAX);
    counter.inc();
    counter.inc();
    assert_eq!(rt; counter.count(), 1);
}

// a header that holds the length in 16 bits beside another number; it has no copy but that of its trait
#[derive(Debug, Default, Drop, PartialEq, Eq)]
struct Header {
    kind: u8,
    count: u16,
}

impl FamStruct for Header {
    ghost use Rattle.std.specs.Prelude.{refl};

    type Entry = u32;

    ghost held = { λ h. h.count };

    ghost holding = { λ h n. record h { count = n } };

    ghost limit = { 10 };

    ghost zero = { 0 };

    ghost holds = { λ h n fits. refl };

    ghost holds_last = { λ h m n. refl };

    ghost holds_own = { λ h. refl };

    fn len(&self) -> usize {
        self.count as usize
    }

    fn set_len(&mut self, len: usize) {
        self.count = len as u16;
    }

    fn max_len() -> usize {
        10
    }

    fn zero_entry() -> u32 {
        0
    }

    fn copy(&self) -> Header {
        Header {
            kind: self.kind,
            count: self.count,
        }
    }
}

// what is written through the lent slice is in the list afterwards, and the header stands
fn clear_first(list: &mut FamStructWrapper<Header>)
    requires { 0 < length list.old.entries.items }
    ensures entries { list.new.entries.items ≡ slice_set list.old.entries.items 0 0 }
    ensures header { list.new.header ≡ list.old.header }
{
    list.as_mut_slice()[0] = 0;
}

#[test]
fn the_list_keeps_to_its_header(rt: HostRuntime) -> Result<(), Fail> {
    let alloc = rt.alloc();
    assert!(rt;
        FamStructWrapper::<Header>::new(alloc, 11).is_err_and(|e| e
            == fam::Error::SizeLimitExceeded)
    );
    let mut full = FamStructWrapper::<Header>::new(rt.alloc(), 10)?;
    assert_eq!(rt; full.as_slice(), [0u32; 10].as_slice());
    assert_eq!(rt; full.as_fam_struct_ref().count, 10);
    assert_eq!(rt; full.push(alloc, 7), Err(fam::Error::SizeLimitExceeded));
    assert_eq!(rt; full.len(), 10);

    let mut odd = FamStructWrapper::<Header>::from_entries(rt.alloc(), &[1, 2, 3])?;
    odd.retain(|entry| *entry % 2 == 1);
    assert_eq!(rt; odd.as_slice(), [1, 3].as_slice());
    assert_eq!(rt; odd.as_fam_struct_ref().len(), 2);
    let mut copy = odd.clone(alloc)?;
    assert!(rt; copy == odd);
    copy.push(alloc, 5)?;
    assert_eq!(rt; copy.as_slice(), [1, 3, 5].as_slice());
    assert!(rt; copy != odd);
    for entry in copy.as_mut_slice() {
        *entry = entry.wrapping_add(1);
    }
    if copy.len() > 0 {
        clear_first(&mut copy);
    }
    let (header, entries) = copy.into_parts();
    assert_eq!(rt; header.count, 3);
    assert_eq!(rt; entries.as_slice(), [0, 4, 6].as_slice());
    Ok(())
}

#[test]
fn parts_must_fit_each_other(rt: HostRuntime) -> Result<(), Fail> {
    for (count, entries, fits) in [(0, 0, true), (2, 2, true), (2, 3, false), (11, 11, false)] {
        let header = Header { kind: 4, count };
        let list = vec![in rt.alloc(); 8u32; entries]?;
        match FamStructWrapper::from_parts(header.copy(), list) {
            Ok(made) => assert_eq!(rt; (fits, made.as_fam_struct_ref().kind), (true, 4)),
            Err(error) => assert_eq!(rt; (fits, error), (false, fam::Error::SizeLimitExceeded)),
        }
        let alone = FamStructWrapper::from_header(rt.alloc(), header);
        assert_eq!(rt; alone.is_ok(), count == 0);
    }
    Ok(())
}

// where a test of this process puts its temporary files and directories
fn own_prefix(rt: &HostRuntime, test: &str) -> Result<String, AllocError> {
    format!(in rt.alloc(); "/tmp/vub_util_{}_{test}_", process::id(rt.process()))
}

#[test]
fn a_file_name_is_taken_once(rt: HostRuntime) -> Result<(), Fail> {
    let prefix = own_prefix(&rt, "file")?;
    let first = TempFile::new_with_prefix(&rt, rt.alloc(), prefix.as_str(), "aaaaaa").expect(
        &rt, "a file",
    );
    match TempFile::new_with_prefix(&rt, rt.alloc(), prefix.as_str(), "aaaaaa") {
        Ok(second) => second.close(&rt).expect(&rt, "the second file"),
        Err(refused) => assert_eq!(rt; refused, TempError::Taken),
    }
    assert!(rt; fs::metadata(&rt, first.as_path()).is_ok());
    first.close(&rt).expect(&rt, "the file's name");
    Ok(())
}

#[test]
fn a_directory_name_is_taken_once(rt: HostRuntime) -> Result<(), Fail> {
    let prefix = own_prefix(&rt, "directory")?;
    let first = TempDir::new_with_prefix(&rt, rt.alloc(), prefix.as_str(), "aaaaaa").expect(
        &rt,
        "a directory",
    );
    let within = String::from_str(rt.alloc(), first.as_path()).expect(&rt, "memory");
    match TempDir::new_with_prefix(&rt, rt.alloc(), prefix.as_str(), "aaaaaa") {
        Ok(second) => second.close(&rt).expect(&rt, "the second directory"),
        Err(refused) => assert_eq!(rt; refused, TempError::Taken),
    }
    assert!(rt; fs::metadata(&rt, within.as_str()).is_ok_and(|m| m.is_dir()));
    // it goes with all that is inside
    let file = TempFile::new_in(&rt, rt.alloc(), within.as_str(), "b").expect(&rt, "a file inside");
    let mut inner = TempDir::new(&rt, rt.alloc(), within.as_str(), "c").expect(
        &rt,
        "a directory inside",
    );
    let second = TempFile::new(&rt, rt.alloc(), within.as_str(), "d").expect(
        &rt,
        "a second file inside",
    );
    let other = TempDir::new_in(&rt, rt.alloc(), within.as_str(), "e").expect(
        &rt,
        "a second directory inside",
    );
    assert_eq!(rt; inner.remove(&rt), Ok(()));
    assert_eq!(rt; inner.remove(&rt), Err(TempError::Os(2)));
    assert!(rt; inner.as_path().ends_with("/c"));
    assert!(rt; second.as_path().ends_with("/d"));
    assert!(rt; other.as_path().ends_with("/e"));
    first.close(&rt).expect(&rt, "the directory's name");
    assert!(rt; fs::metadata(&rt, within.as_str()).is_err());
    assert_eq!(rt; file.close(&rt), Err(TempError::Os(2)));
    assert_eq!(rt; inner.close(&rt), Err(TempError::Os(2)));
    assert_eq!(rt; second.close(&rt), Err(TempError::Os(2)));
    assert_eq!(rt; other.close(&rt), Err(TempError::Os(2)));
    Ok(())
}

#[test]
fn a_file_outlives_its_name(rt: HostRuntime) -> Result<(), Fail> {
    let prefix = own_prefix(&rt, "named")?;
    let mut named = TempFile::new_with_prefix(&rt, rt.alloc(), prefix.as_str(), "aaaaaa").expect(
        &rt, "a file",
    );
    named.remove(&rt).expect(&rt, "the file's name");
    assert_eq!(rt; named.remove(&rt), Err(TempError::Os(2)));
    let mut file = named.into_file(&rt);
    file.write_all(b"hello world")?;
    file.seek(SeekFrom::Start(0))?;
    let mut read = [0u8; 5];
    file.read_exact(&mut read)?;
    assert_eq!(rt; read, *b"hello");
    Ok(())
}
