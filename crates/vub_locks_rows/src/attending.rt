//! Control threads: requests over parts of one owner, and calls that a device refuses.
use crate::shown::show;
use std::alloc::Global;
use std::sync::{Arc, Wait};
use std::test::Fail;
use vub_attend::{MemLink, ObjectParts, attend};
use vub_base::{Bytes, Listed, OutOfMemory};
use vub_event::MemHost;
use vub_handler::VhostUserHandler;
use vub_locks::{LockedParts, NoGate, OpenParts, QuietHost, SharedParts};
use vub_mem::{GuestMemory, Region};
use vub_model::Constants;
use vub_proto::{
    Backend, DeviceOp, Echo, FixedDevice, Refused, Request, VhostUserBackendMut, VhostUserError,
};
use vub_vring::{OwnedParts, Parts, Store};

/// Plays these requests over a link that ends with SocketBroken: the answers, and the error with which it ended.
fn attended<R: Wait, P: ObjectParts>(
    rt: &R,
    alloc: Global,
    parts: &mut P,
    requests: Vec<Request>,
) -> Result<String, Fail> {
    let mut session = VhostUserHandler::new(alloc, parts)?;
    let mut link = MemLink::new(alloc, requests, VhostUserError::SocketBroken);
    let end = attend(rt, alloc, &mut session, parts, &mut link);
    let mut lines = String::new(alloc);
    for answer in link.answers() {
        show(alloc, &mut lines, answer)?;
    }
    show(alloc, &mut lines, &end)?;
    Ok(lines)
}

/// No queue, and no worker.
fn no_constants(alloc: Global) -> Constants {
    Constants {
        queues: 0,
        max: 8,
        features: 0,
        protocol: 0,
        tracks: false,
        masks: Listed::new(alloc),
        exits: Listed::new(alloc),
    }
}

/// A device of no queue.
fn no_queue(alloc: Global) -> FixedDevice {
    FixedDevice {
        queues: 0,
        max: 8,
        features: 0,
        protocol: 0,
        masks: Listed::new(alloc),
        exits: Listed::new(alloc),
        refusals: 0,
    }
}

/// Guest memory without regions, and a host without objects.
fn empty_store(alloc: Global) -> Store {
    Store {
        memory: GuestMemory::new(alloc),
        rings: Vec::new(alloc),
        host: MemHost::new(alloc),
        pending: Vec::new(alloc),
    }
}

#[test]
fn a_second_owner_is_refused(rt: HostRuntime) -> Result<(), Fail> {
    let alloc: Global = rt.alloc();
    let mut store = empty_store(alloc);
    let mut device = no_queue(alloc);
    let mut service = Echo;
    let constants = no_constants(alloc);
    let mut parts = OwnedParts {
        store: &mut store,
        device: &mut device,
        service: &mut service,
        constants: &constants,
    };
    let requests = vec![in alloc; Request::SetOwner, Request::SetOwner]?;
    let lines = attended(&rt, alloc, &mut parts, requests)?;
    assert_eq!(rt;
        lines.as_str(),
        "Ok\nFailed(InvalidOperation(AlreadyClaimed))\nSocketBroken\n"
    );
    Ok(())
}

/// A device of no queue that refuses its first stop of one, and counts its refusals.
#[derive(Debug, Drop)]
struct Stubborn {
    refused: u64,
}

impl VhostUserBackendMut for Stubborn {
    type Bitmap = ();

    ghost use Rattle.std.specs.Prelude.{[], None};
    ghost use Rattle.vub_proto.specs.declared.device_said.DeviceSaid.TheVariants.{Done};

    ghost queue_count = { λ d. 0 };

    ghost greatest_size = { λ d. 8 };

    ghost offered = { λ d. 0 };

    ghost protocol_offered = { λ d. 0 };

    ghost masks = { λ d. [] };

    ghost exit_of = { λ d worker. None };

    ghost refusal_count = { λ d. d.refused };

    ghost value = { λ d. None };

    ghost said = { λ d op. Done };

    ghost moved = { λ d op. d };

    fn num_queues(&self) -> usize {
        0
    }

    fn max_queue_size(&self) -> usize {
        8
    }

    fn features(&self) -> u64 {
        0
    }

    fn protocol_features(&self) -> u64 {
        0
    }

    fn queues_per_thread(&self, alloc: Global) -> Result<Vec<u64>, OutOfMemory> {
        Ok(Vec::new(alloc))
    }

    fn exit_event(&self, _worker: usize) -> Option<u32> {
        None
    }

    fn refusals(&self) -> u64 {
        self.refused
    }

    fn acked_features(&mut self, _features: u64) {}

    fn reset_device(&mut self) {}

    fn set_event_idx(&mut self, _enabled: bool) {}

    fn set_backend_req_fd(&mut self, _backend: Backend) {}

    fn get_config(
        &mut self,
        alloc: Global,
        _offset: u32,
        _size: u32,
    ) -> Result<Bytes, OutOfMemory> {
        Ok(Bytes::new(alloc))
    }

    fn set_config(&mut self, _offset: u32, _buf: &[u8]) -> Result<(), Refused> {
        Ok(())
    }

    fn update_memory(&mut self, _regions: &[Region]) -> Result<(), Refused> {
        Ok(())
    }

    fn stop_vring(&mut self, _queue_index: u32) -> Result<(), Refused> {
        if self.refused == 0 {
            self.refused = 1;
            return Err(Refused(5));
        }
        Ok(())
    }

    fn handle_event(&mut self, _token: u64, _worker: u32) -> Result<(), Refused> {
        Ok(())
    }

    fn get_shared_object(&mut self, _uuid: u128) -> Result<u32, Refused> {
        Ok(0)
    }

    fn set_gpu_socket(&mut self, _object: u32) -> Result<(), Refused> {
        Ok(())
    }

    fn set_device_state_fd(
        &mut self,
        _direction: u32,
        _phase: u32,
        _object: u32,
    ) -> Result<Option<u32>, Refused> {
        Ok(None)
    }

    fn check_device_state(&mut self) -> Result<(), Refused> {
        Ok(())
    }

    fn get_shmem_config(&mut self) -> Result<u32, Refused> {
        Ok(0)
    }
}

/// Stops a queue by the device, and adds what it said, with the count of refusals then.
fn stop<P: Parts>(
    alloc: Global,
    lines: &mut String,
    parts: &mut P,
    queue: u32,
) -> Result<(), Fail> {
    let said = parts.device(alloc, DeviceOp::StopVring(queue));
    show(alloc, lines, &said)?;
    show(alloc, lines, &parts.refusals())?;
    Ok(())
}

#[test]
fn a_refusal_of_the_device_is_counted(rt: HostRuntime) -> Result<(), Fail> {
    let alloc: Global = rt.alloc();
    let shared = SharedParts::new(
        alloc,
        OpenParts {
            memory: GuestMemory::new(alloc),
            rings: Vec::new(alloc),
            host: QuietHost::new(MemHost::new(alloc)),
            workers: 0,
            device: Stubborn { refused: 0 },
            service: Echo,
            constants: no_constants(alloc),
            gate: NoGate,
        },
    )?;
    let mut parts = LockedParts::new(rt, alloc, Arc::new(alloc, shared)?);
    let mut lines = String::new(alloc);
    stop(alloc, &mut lines, &mut parts, 0)?;
    stop(alloc, &mut lines, &mut parts, 1)?;
    assert_eq!(rt; lines.as_str(), "Ok(Refused(5))\n1\nOk(Done)\n1\n");
    Ok(())
}
