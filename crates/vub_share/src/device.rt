ghost use Rattle.std.specs.Prelude.{◌≡◌, ◌≤◌, Some, take, drop};
ghost use Rattle.vub_base.specs.Causes.{one_more, Rose};
ghost use Rattle.vub_proto.specs.Device.{done_by, CountsRefusals};
ghost use Rattle.vub_proto.specs.declared.device_said.DeviceSaid.{DeviceSaid};
ghost use Rattle.vub_share.specs.Device.{new_device, unless_listed, numbered, lies_inside};

use std::alloc::Global;
use std::marker::{Model, PhantomData};
use vub_base::{Bytes, OutOfMemory};
use vub_mem::{BitmapReplace, Region};
use vub_proto::{Backend, Refused, VhostUserBackendMut};
use vub_script::DeviceForm;

/// The number of a call that the script refuses (`EIO` of errno(3)).
const FAILED: i32 = 5;

/// The number of bytes that don't lie inside the config space (`EINVAL` of errno(3)).
const INVALID: i32 = 22;

/// The number of a call that the device does not know (`EOPNOTSUPP` of errno(3)).
const UNSUPPORTED: i32 = 95;

/// The device of a script: its constants and the bytes of its config space are what the script says of them. Its calls
/// that may refuse are numbered from 0 on, and those that the script names are refused with 5. `B` says how it tracks the
/// pages that it changes.
#[derive(Debug, Drop)]
pub struct ScriptDevice<B> {
    form: DeviceForm,
    /// How many calls that may refuse there were.
    calls: u64,
    refusals: u64,
    bitmap: PhantomData<B>,
}

impl<B> Model for ScriptDevice<B> {
    ghost use Rattle.vub_share.specs.Device.{ScriptState};

    ghost Value = { ScriptState };

    ghost view = { λ d. record { form = d.form; calls = d.calls; refusals = d.refusals } };
}

impl<B> ScriptDevice<B> {
    /// The device of which the script says this, before its first call.
    pub fn new(form: DeviceForm) -> ScriptDevice<B>
        ensures { result ≡ new_device form }
    {
        ScriptDevice {
            form,
            calls: 0,
            refusals: 0,
            bitmap: PhantomData,
        }
    }

    /// Counts a refusal with this number. A count that stands at its end stays.
    fn refuse(&mut self, number: i32) -> Refused
        ensures said { result.0 ≡ number }
        ensures counted { self.new ≡ record self.old { refusals = one_more self.old.refusals } }
        ensures later { self.old.refusals ≤ self.new.refusals }
    {
        self.refusals = self.refusals.saturating_add(1);
        Refused(number)
    }

    /// Gives a call that may refuse its number.
    ///
    /// # Errors
    /// 5 where the script refuses the call with this number.
    fn call(&mut self) -> Result<(), Refused>
        ensures said { done_by result ≡ unless_listed self.old DeviceSaid.Done }
        ensures left { self.new ≡ numbered self.old (done_by result) }
        ensures count { CountsRefusals self.old.refusals self.new.refusals result }
    {
        let call = self.calls;
        self.calls = call.saturating_add(1);
        if self.form.refuse.as_slice().contains(&call) {
            Err(self.refuse(FAILED))
        } else {
            Ok(())
        }
    }

    /// A call that the device does not know.
    ///
    /// # Errors
    /// Always: 5 where the script refuses the call with this number, else 95.
    fn unknown_call(&mut self) -> Refused
        ensures said { DeviceSaid.Refused result.0 ≡ unless_listed self.old (DeviceSaid.Refused UNSUPPORTED) }
        ensures left { self.new ≡ numbered self.old (DeviceSaid.Refused result.0) }
        ensures later { self.old.refusals ≤ self.new.refusals }
        ensures rose { Rose self.old.refusals self.new.refusals }
    {
        match self.call() {
            Ok(()) => self.refuse(UNSUPPORTED),
            Err(refused) => refused,
        }
    }

    /// The bytes of the config space from this offset on, at most so many.
    #[tactic(auto, using(std::proofs::lemmas::List::take_min, std::proofs::lemmas::List::drop_min))]
    fn config_at(&self, offset: u32, size: u32) -> &[u8]
        ensures { result.now ≡ take size (drop offset self.now.form.config) }
    {
        let config = self.form.config.as_slice();
        let behind = &config[(offset as usize).min(config.len())..];
        &behind[..(size as usize).min(behind.len())]
    }

    /// Whether so many bytes from this offset on lie inside the config space.
    fn lies_inside(&self, offset: u32, count: usize) -> bool
        ensures { result ≡ lies_inside self.now offset count }
    {
        let len = self.form.config.len();
        offset as usize <= len && count <= len - offset as usize
    }
}

impl<B: BitmapReplace> VhostUserBackendMut for ScriptDevice<B> {
    type Bitmap = B;

    ghost use Rattle.vub_share.specs.Device.{exit_at, script_said, script_moved};

    ghost queue_count = { λ d. d.form.queues };

    ghost greatest_size = { λ d. d.form.max_size };

    ghost offered = { λ d. d.form.features };

    ghost protocol_offered = { λ d. d.form.protocol };

    ghost masks = { λ d. d.form.masks };

    ghost exit_of = { λ d worker. exit_at d.form.exits worker };

    ghost refusal_count = { λ d. d.refusals };

    ghost value = { λ d. Some d };

    ghost said = { λ d op. script_said d op };

    ghost moved = { λ d op. script_moved d op };

    fn num_queues(&self) -> usize {
        self.form.queues as usize
    }

    fn max_queue_size(&self) -> usize {
        self.form.max_size as usize
    }

    fn features(&self) -> u64 {
        self.form.features
    }

    fn protocol_features(&self) -> u64 {
        self.form.protocol
    }

    fn queues_per_thread(&self, alloc: Global) -> Result<Vec<u64>, OutOfMemory> {
        let masks = Vec::from_slice(alloc, self.form.masks.as_slice())?;
        Ok(masks)
    }

    fn exit_event(&self, worker: usize) -> Option<u32> {
        match self.form.exits.as_slice().get(worker) {
            Some(exit) => *exit,
            None => None,
        }
    }

    fn refusals(&self) -> u64 {
        self.refusals
    }

    fn acked_features(&mut self, _features: u64) {}

    fn reset_device(&mut self) {}

    fn set_event_idx(&mut self, _enabled: bool) {}

    fn set_backend_req_fd(&mut self, _backend: Backend) {}

    fn get_config(&mut self, alloc: Global, offset: u32, size: u32) -> Result<Bytes, OutOfMemory> {
        Bytes::from_slice(alloc, self.config_at(offset, size))
    }

    fn set_config(&mut self, offset: u32, buf: &[u8]) -> Result<(), Refused> {
        self.call()?;
        if !self.lies_inside(offset, buf.len()) {
            return Err(self.refuse(INVALID));
        }
        self.form.config.overwrite(offset as usize, buf);
        Ok(())
    }

    fn update_memory(&mut self, _regions: &[Region]) -> Result<(), Refused> {
        self.call()
    }

    fn stop_vring(&mut self, _queue_index: u32) -> Result<(), Refused> {
        self.call()
    }

    fn handle_event(&mut self, _token: u64, _worker: u32) -> Result<(), Refused> {
        self.call()
    }

    fn get_shared_object(&mut self, _uuid: u128) -> Result<u32, Refused> {
        Err(self.unknown_call())
    }

    fn set_gpu_socket(&mut self, _object: u32) -> Result<(), Refused> {
        Err(self.unknown_call())
    }

    fn set_device_state_fd(
        &mut self,
        _direction: u32,
        _phase: u32,
        _object: u32,
    ) -> Result<Option<u32>, Refused> {
        Err(self.unknown_call())
    }

    fn check_device_state(&mut self) -> Result<(), Refused> {
        Err(self.unknown_call())
    }

    fn get_shmem_config(&mut self) -> Result<u32, Refused> {
        Err(self.unknown_call())
    }
}
