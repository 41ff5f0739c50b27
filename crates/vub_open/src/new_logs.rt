//! The logs of a new machine: one for each log of the set-up.
ghost use Rattle.std.specs.Prelude.{◌≡◌, ◌+◌, ◌<◌, ◌^◌, [], ◌∷◌, ◌++◌, length, OnOk};
ghost use Rattle.std.specs.List.{AllByRecursion};
ghost use Rattle.vub_model.specs.Opening.{logs_from};

use std::alloc::Global;
use vub_base::OutOfMemory;
use vub_log::PlainLog;
use vub_mem::GuestMemory;
use vub_model::Object;

/// Puts the log of an object, if it is one, under this number, which is above those of the logs before.
#[tactic(auto, using(crate::proofs::LogsFrom::below_apart, crate::proofs::LogsFrom::below_next, crate::proofs::LogsFrom::below_push))]
fn put_log(
    alloc: Global,
    memory: &mut GuestMemory<PlainLog>,
    number: u32,
    object: &Object,
) -> Result<(), OutOfMemory>
    requires { AllByRecursion (λ s. s.object < number) memory.old.logs }
    ensures below { OnOk result (AllByRecursion (λ s. s.object < number + 1) memory.new.logs) }
    ensures ok { OnOk result (memory.new.logs ≡ memory.old.logs ++ logs_from number (object.now ∷ [])) }
    ensures guest { memory.new.guest ≡ memory.old.guest }
{
    match object {
        Object::Event { .. } | Object::Content(_) => Ok(()),
        // A valid set-up has no log of length 0, so that want of memory is the only error.
        Object::Log { len } => match PlainLog::new(alloc, *len as u64) {
            Ok(log) => match memory.put_log(alloc, number, log) {
                Ok(()) => Ok(()),
                Err(_) => Err(OutOfMemory),
            },
            Err(_) => Err(OutOfMemory),
        },
    }
}

/// Puts a log for each of these objects that is one, in which no page is marked.
pub(crate) fn open_logs(
    alloc: Global,
    memory: &mut GuestMemory<PlainLog>,
    objects: &[Object],
) -> Result<(), OutOfMemory>
    requires numbers { length objects.now < 2 ^ 32 }
    requires none { memory.old.logs ≡ [] }
    ensures logs { OnOk result (memory.new.logs ≡ logs_from 0 objects.now) }
    ensures guest { memory.new.guest ≡ memory.old.guest }
{
    for (number, object) in objects.iter().enumerate() {
        put_log(alloc, memory, number as u32, object)?;
    }
    Ok(())
}
