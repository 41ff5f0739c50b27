ghost use Rattle.std.specs.Prelude.{◌≡◌, ◌++◌, OnOk, string_bytes};
ghost use Rattle.vub_text.specs.Words.{damage_name, why_text, fault_name, reason_of, reason_text, fault_text, cause_text};
ghost use Rattle.vub_text.specs.Lines.{stop_line};

use crate::lines::Line;
use crate::pieces::push_number;
use std::alloc::Global;
use vub_base::OutOfMemory;
use vub_model::{Stop, StopCause, VringEpollError, Why};
use vub_queue::Damage;

// The lines of a run are split at blanks, so each damage and each cause has one word there, which stays where the
// sentence that `Display` writes for it is put better.

fn name_of(damage: Damage) -> &'static str
    ensures { result.now ≡ damage_name damage }
{
    match damage {
        Damage::RingOutside => "RingOutside",
        Damage::IndexAhead => "IndexAhead",
        Damage::TooLong => "TooLong",
        Damage::BadNumber => "BadNumber",
        Damage::Indirect => "Indirect",
        Damage::TooBig => "TooBig",
        Damage::SegmentOutside => "SegmentOutside",
    }
}

#[tactic(auto, unfolding(crate::specs::Words::why_text))]
fn push_why(text: &mut String, why: Why) -> Result<(), OutOfMemory>
    ensures { OnOk result (string_bytes text.new ≡ string_bytes text.old ++ why_text why) }
{
    match why {
        Why::Damage(damage) => text.push_str(name_of(damage))?,
        Why::RoomOutside => text.push_str("RoomOutside")?,
        Why::RingOutside => text.push_str("RingOutside")?,
        Why::Device(number) => push_number(text, "device ", number)?,
    }
    Ok(())
}

fn fault_name_of(fault: VringEpollError) -> &'static str
    ensures { result.now ≡ fault_name fault }
{
    match fault {
        VringEpollError::EpollCreateFd => "EpollCreateFd",
        VringEpollError::EpollWait => "EpollWait",
        VringEpollError::RegisterExitEvent => "RegisterExitEvent",
        VringEpollError::HandleEventReadKick => "HandleEventReadKick",
        VringEpollError::HandleEventBackendHandling(_) => "HandleEventBackendHandling",
        VringEpollError::NewEventConsumerNotifier => "NewEventConsumerNotifier",
        VringEpollError::RegisterVringEnabledEvent => "RegisterVringEnabledEvent",
        VringEpollError::HandleVringEnabledEventConsume => "HandleVringEnabledEventConsume",
        VringEpollError::OutOfMemory => "OutOfMemory",
        VringEpollError::VringIndexOutOfRange(_) => "VringIndexOutOfRange",
    }
}

/// Why an event could not be handled, where the error says so.
fn reason_in(fault: VringEpollError) -> Option<Why>
    ensures { result ≡ reason_of fault }
{
    match fault {
        VringEpollError::HandleEventBackendHandling(why) => Some(why),
        _ => None,
    }
}

#[tactic(auto, using(std::proofs::Common::append_assoc))]
fn push_reason(text: &mut String, reason: Option<Why>) -> Result<(), OutOfMemory>
    ensures { OnOk result (string_bytes text.new ≡ string_bytes text.old ++ reason_text reason) }
{
    if let Some(why) = reason {
        text.push_str(" ")?;
        push_why(text, why)?;
    }
    Ok(())
}

#[tactic(auto, using(std::proofs::Common::append_assoc), unfolding(crate::specs::Words::fault_text))]
fn push_fault(text: &mut String, fault: VringEpollError) -> Result<(), OutOfMemory>
    ensures { OnOk result (string_bytes text.new ≡ string_bytes text.old ++ fault_text fault) }
{
    text.push_str(fault_name_of(fault))?;
    push_reason(text, reason_in(fault))
}

#[tactic(auto, unfolding(crate::specs::Words::cause_text))]
fn push_cause(text: &mut String, cause: StopCause) -> Result<(), OutOfMemory>
    ensures { OnOk result (string_bytes text.new ≡ string_bytes text.old ++ cause_text cause) }
{
    match cause {
        StopCause::Exit => text.push_str("exit")?,
        StopCause::Fault(fault) => push_fault(text, fault)?,
    }
    Ok(())
}

impl Line for Stop {
    ghost line = { stop_line };

    #[tactic(auto, using(std::proofs::Common::append_assoc), unfolding(crate::specs::Lines::stop_line))]
    fn push_line(&self, _alloc: Global, text: &mut String) -> Result<(), OutOfMemory> {
        push_number(text, "stop ", self.worker)?;
        text.push_str(" ")?;
        push_cause(text, self.cause)?;
        text.push_str("\n")?;
        Ok(())
    }
}
