use std::alloc::Global;
use std::sync::Arc;
use std::test::Fail;
use vub_backend::{MutexBackend, RwLockBackend};
use vub_base::{Bytes, OutOfMemory};
use vub_mem::Region;
use vub_proto::{Backend, Refused, VhostUserBackend, VhostUserBackendMut};

/// A device of two workers that share queue 0, whose config space is eight bytes of 0xa5 wherever it is read.
#[derive(Debug, Drop)]
struct MockDevice {
    refused: u64,
}

impl MockDevice {
    ghost use Rattle.std.specs.Prelude.{◌≡◌, ◌≤◌};
    ghost use Rattle.vub_base.specs.Causes.{one_more};

    fn refuse(&mut self) -> Refused
        ensures later { self.old.refused ≤ self.new.refused }
        ensures count { self.new.refused ≡ one_more self.old.refused }
    {
        self.refused = self.refused.saturating_add(1);
        Refused(95)
    }
}

impl VhostUserBackendMut for MockDevice {
    type Bitmap = ();

    ghost use Rattle.std.specs.Prelude.{◌∷◌, [], None, Some, if◌then◌else◌, ◌==◌};
    ghost use Rattle.vub_proto.specs.declared.device_said.DeviceSaid.TheVariants.{Done};

    ghost queue_count = { λ d. 2 };

    ghost greatest_size = { λ d. 2 };

    ghost offered = { λ d. 0xffffffffffffffff };

    ghost protocol_offered = { λ d. 0xffff };

    ghost masks = { λ d. 1 ∷ 1 ∷ [] };

    ghost exit_of = { λ d worker. Some 7 };

    ghost refusal_count = { λ d. d.refused };

    ghost value = { λ d. None };

    ghost said = { λ d op. Done };

    ghost moved = { λ d op. d };

    fn num_queues(&self) -> usize {
        2
    }

    fn max_queue_size(&self) -> usize {
        2
    }

    fn features(&self) -> u64 {
        0xffff_ffff_ffff_ffff
    }

    fn protocol_features(&self) -> u64 {
        0xffff
    }

    fn queues_per_thread(&self, alloc: Global) -> Result<Vec<u64>, OutOfMemory> {
        let masks = vec![in alloc; 1, 1]?;
        Ok(masks)
    }

    fn exit_event(&self, _worker: usize) -> Option<u32> {
        Some(7)
    }

    fn refusals(&self) -> u64 {
        self.refused
    }

    fn acked_features(&mut self, _features: u64) {}

    fn reset_device(&mut self) {}

    fn set_event_idx(&mut self, _enabled: bool) {}

    fn set_backend_req_fd(&mut self, _backend: Backend) {}

    fn get_config(&mut self, alloc: Global, _offset: u32, size: u32) -> Result<Bytes, OutOfMemory> {
        let bytes = vec![in alloc; 0xa5; size as usize]?;
        Ok(Bytes::from_vec(bytes))
    }

    fn set_config(&mut self, _offset: u32, _buf: &[u8]) -> Result<(), Refused> {
        Ok(())
    }

    fn update_memory(&mut self, _regions: &[Region]) -> Result<(), Refused> {
        Ok(())
    }

    fn stop_vring(&mut self, _queue_index: u32) -> Result<(), Refused> {
        Ok(())
    }

    fn handle_event(&mut self, _token: u64, _worker: u32) -> Result<(), Refused> {
        Ok(())
    }

    fn get_shared_object(&mut self, _uuid: u128) -> Result<u32, Refused> {
        Ok(3)
    }

    fn set_gpu_socket(&mut self, _object: u32) -> Result<(), Refused> {
        Ok(())
    }

    fn set_device_state_fd(
        &mut self,
        _direction: u32,
        _phase: u32,
        object: u32,
    ) -> Result<Option<u32>, Refused> {
        Ok(Some(object))
    }

    fn check_device_state(&mut self) -> Result<(), Refused> {
        Err(self.refuse())
    }

    fn get_shmem_config(&mut self) -> Result<u32, Refused> {
        Ok(1)
    }
}

/// What the mock device says through a backend.
fn forwards<B: VhostUserBackend>(alloc: Global, backend: &B) -> Result<bool, OutOfMemory> {
    let masks = backend.queues_per_thread(alloc)?;
    let config = backend.get_config(alloc, 0x200, 8)?;
    Ok(
        masks.as_slice() == [1, 1].as_slice()
            && config.as_slice() == [0xa5; 8].as_slice()
            && backend.exit_event(1) == Some(7)
            && backend.exit_event(2) == None
            && backend.check_device_state() == Err(Refused(95))
            && backend.set_device_state_fd(0, 0, 5) == Ok(Some(5)),
    )
}

#[test]
fn a_mutex_forwards(rt: HostRuntime) -> Result<(), Fail> {
    let alloc = rt.alloc();
    let backend = MutexBackend::new(rt, alloc, MockDevice { refused: 0 })?;
    assert!(rt; forwards(alloc, &backend)?);
    Ok(())
}

#[test]
fn a_shared_reader_writer_lock_forwards(rt: HostRuntime) -> Result<(), Fail> {
    let alloc = rt.alloc();
    let backend = RwLockBackend::new(rt, alloc, MockDevice { refused: 0 })?;
    let shared = Arc::new(alloc, backend)?;
    assert!(rt; forwards(alloc, &shared)?);
    Ok(())
}

#[test]
fn backends_show_their_constants(rt: HostRuntime) -> Result<(), Fail> {
    let alloc = rt.alloc();
    let constants =
        "{ constants: Constants { queues: 2, max: 2, features: 18446744073709551615, protocol: 65535, \
        tracks: false, masks: Listed { elements: [1, 1] }, exits: Listed { elements: [Some(7), Some(7)] } } }";
    let mutex = MutexBackend::new(rt, alloc, MockDevice { refused: 0 })?;
    let lock = RwLockBackend::new(rt, alloc, MockDevice { refused: 0 })?;
    for (shown, name) in [
        (format!(in alloc; "{mutex:?}")?, "MutexBackend"),
        (format!(in alloc; "{lock:?}")?, "RwLockBackend"),
    ] {
        let text = format!(in alloc; "{name} {constants}")?;
        assert_eq!(rt; shown.as_str(), text.as_str());
    }
    Ok(())
}
