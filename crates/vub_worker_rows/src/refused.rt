//! Memory that is refused in the middle of a run: service and device are as the finished turns left them.

use std::alloc::Global;
use std::process::Abort;
use std::test::Fail;
use vub_base::{Bytes, Listed, OutOfMemory};
use vub_core::drive;
use vub_model::{DriveFault, GivenRegion, GivenRing, Info, Object, Setup};
use vub_proto::{FixedDevice, Request, Service};

/// A service whose replies are empty. It counts its calls, and has no memory for the call of this number.
#[derive(Debug, Drop)]
struct Counting {
    calls: u64,
    refused: u64,
}

impl Service for Counting {
    ghost use Rattle.std.specs.Prelude.{[]};
    ghost use Rattle.vub_base.specs.Causes.{one_more};

    ghost reply_of = { λ _ _ _. [] };

    ghost after = { λ s _ _. record s { calls = one_more s.calls } };

    fn serve(&mut self, alloc: Global, _request: &[u8], _room: u32) -> Result<Bytes, OutOfMemory> {
        if self.calls == self.refused {
            return Err(OutOfMemory);
        }
        self.calls = self.calls.saturating_add(1);
        Ok(Bytes::new(alloc))
    }
}

/// A ring of guest memory from 0x1000 on, which is registered.
const RING: GivenRing = GivenRing {
    queue: 0,
    size: 8,
    info: Some(Info {
        desc: 0x1000,
        avail: 0x1100,
        used: 0x1180,
    }),
    base: 0,
    next_used: 0,
    kick: Some(0),
    call: None,
    ready: true,
    enabled: true,
};

/// Guest memory.
const MEMORY: GivenRegion = GivenRegion {
    start: 0x1000,
    len: 4096,
    user: 0,
    offset: 0,
    object: 1,
};

/// Descriptor 0: 4 writable bytes at 0x1200.
const DESCRIPTOR: [u8; 16] = [0, 0x12, 0, 0, 0, 0, 0, 0, 4, 0, 0, 0, 2, 0, 0, 0];

/// The bytes of guest memory: three entries with head 0 are published.
fn published(alloc: Global) -> Result<Bytes, OutOfMemory> {
    let mut bytes = Vec::from_slice(alloc, &DESCRIPTOR)?;
    bytes.resize(0x102, 0)?;
    bytes.push(3)?;
    bytes.resize(4096, 0)?;
    Ok(Bytes::from_vec(bytes))
}

/// Three entries for the worker, and three requests that the device refuses.
fn setup(alloc: Global) -> Result<Setup, OutOfMemory> {
    let mut objects = Listed::new(alloc);
    objects.push(Object::Event { flags: 0 })?;
    objects.push(Object::Content(published(alloc)?))?;
    let mut requests = Listed::new(alloc);
    for _ in 0..3 {
        requests.push(Request::SetGpuSocket { object: 0 })?;
    }
    Ok(Setup {
        objects,
        regions: Listed::from_slice(alloc, &[MEMORY])?,
        rings: Listed::from_slice(alloc, &[RING])?,
        requests,
        guest: Listed::new(alloc),
    })
}

fn device(alloc: Global) -> Result<FixedDevice, OutOfMemory> {
    Ok(FixedDevice {
        queues: 1,
        max: 8,
        features: 0,
        protocol: 0,
        masks: Listed::from_slice(alloc, &[1u64])?,
        exits: Listed::new(alloc),
        refusals: 0,
    })
}

/// So many turns of control, each with one of the worker behind it.
fn schedule(alloc: Global, pairs: usize) -> Result<Vec<u32>, OutOfMemory> {
    let mut schedule = Vec::new(alloc);
    for _ in 0..pairs {
        schedule.push(1)?;
        schedule.push(2)?;
    }
    Ok(schedule)
}

/// How many turns were finished.
fn finished(
    alloc: Global,
    setup: &Setup,
    schedule: &[u32],
    device: &mut FixedDevice,
    service: &mut Counting,
) -> Result<usize, DriveFault> {
    match drive(alloc, setup, device, service, schedule) {
        Ok(run) => Ok(run.labels.len()),
        Err(DriveFault::OutOfMemory { done }) => Ok(done as usize),
        Err(fault) => Err(fault),
    }
}

/// Plays while the service has no memory for the call of this number, and tells how many turns were finished. A run of
/// so many turns without a refusal leaves service and device with the same counts.
fn expect_finished(rt: &impl Abort, alloc: Global, refused: u64) -> Result<usize, Fail> {
    let setup = setup(alloc)?;
    let mut schedule = schedule(alloc, 14)?;
    let mut device_then = device(alloc)?;
    let mut device_now = device(alloc)?;
    let mut then = Counting { calls: 0, refused };
    let mut now = Counting {
        calls: 0,
        refused: u64::MAX,
    };
    let done = finished(
        alloc,
        &setup,
        schedule.as_slice(),
        &mut device_then,
        &mut then,
    )?;
    schedule.truncate(done);
    let again = finished(
        alloc,
        &setup,
        schedule.as_slice(),
        &mut device_now,
        &mut now,
    )?;
    assert_eq!(rt; again, done);
    assert_eq!(rt; now.calls, then.calls);
    assert_eq!(rt; device_now.refusals, device_then.refusals);
    Ok(done)
}

/// The worker polls its bell, reads it, sweeps and takes; then each third of its turns serves.
#[test]
fn a_service_without_memory_ends_the_run_before_its_turn(rt: HostRuntime) -> Result<(), Fail> {
    for (refused, done) in [(0, 9), (1, 15), (2, 21), (3, 28)] {
        assert_eq!(rt; expect_finished(&rt, rt.alloc(), refused)?, done);
    }
    Ok(())
}

/// With ample memory all turns are finished. `tools/refuse_growths.py --drive` refuses each growth of this test in turn.
#[test]
fn finished_turns_stand(rt: HostRuntime) -> Result<(), Fail> {
    expect_finished(&rt, rt.alloc(), u64::MAX)?;
    Ok(())
}
