ghost use Rattle.std.specs.Prelude.{◌≡◌};
ghost use Rattle.vub_text.specs.Calls.{device_name, outcome_text};
ghost use Rattle.vub_text.specs.Lines.{device_line};

use crate::lines::Line;
use crate::pieces::push_number;
use std::alloc::Global;
use vub_base::OutOfMemory;
use vub_model::DeviceCall;
use vub_proto::DeviceOp;

fn name_of_call(op: &DeviceOp) -> &'static str
    ensures { result.now ≡ device_name op.now }
{
    match op {
        DeviceOp::AckedFeatures(_) => "acked_features",
        DeviceOp::ResetDevice => "reset_device",
        DeviceOp::SetEventIdx(_) => "set_event_idx",
        DeviceOp::GetConfig { .. } => "get_config",
        DeviceOp::SetBackendReqFd(_) => "set_backend_req_fd",
        DeviceOp::SetConfig { .. } => "set_config",
        DeviceOp::UpdateMemory(_) => "update_memory",
        DeviceOp::StopVring(_) => "stop_vring",
        DeviceOp::HandleEvent { .. } => "handle_event",
        DeviceOp::GetSharedObject(_) => "get_shared_object",
        DeviceOp::SetGpuSocket(_) => "set_gpu_socket",
        DeviceOp::SetDeviceStateFd { .. } => "set_device_state_fd",
        DeviceOp::CheckDeviceState => "check_device_state",
        DeviceOp::GetShmemConfig => "get_shmem_config",
    }
}

fn word_of_outcome(refused: bool) -> &'static str
    ensures { result.now ≡ outcome_text refused }
{
    if refused { "refused" } else { "ok" }
}

impl Line for DeviceCall {
    ghost line = { device_line };

    #[tactic(auto, using(std::proofs::Common::append_assoc), unfolding(crate::specs::Lines::device_line))]
    fn push_line(&self, _alloc: Global, text: &mut String) -> Result<(), OutOfMemory> {
        text.push_str("device ")?;
        text.push_str(name_of_call(&self.op))?;
        push_number(text, " ", self.a)?;
        push_number(text, " ", self.b)?;
        text.push_str(" ")?;
        text.push_str(word_of_outcome(self.refused))?;
        text.push_str("\n")?;
        Ok(())
    }
}
