//! Laws of whole runs: each of these calls does nothing, and its contract is the law.
ghost use Rattle.vub_laws.specs.Orderly.{LogsDisturbNoQueue, PlacesEachByte, RunsAreOrderly, SchedulesAgree};
ghost use Rattle.vub_laws.specs.Ranges.{StepsWriteTheirRanges};
ghost use Rattle.vub_laws.specs.Touched.{ApartQueuesAreUndisturbed};
ghost use Rattle.vub_laws.specs.Worked.{RepliesAreTheSame, WorkFallsToNothing};

/// Every run of a valid set-up with fewer turns than the limit on takes is orderly. Each step of a worker that leaves
/// the available index words lowers the measure, so that no more steps follow than it says once guest and control are
/// done; and each stretch of the run serves each queue that nothing disturbs as if it were served alone.
pub fn runs_are_orderly<V>()
    ensures { RunsAreOrderly V }
{}

/// Two runs that begin with the same memory and ring, and serve a queue as alone and to its end, use the same entries
/// with the same replies and write the same bytes at the same places, whatever their schedules.
pub fn schedules_agree<V>()
    ensures { SchedulesAgree V }
{}

/// A step of control that gives the regions a log, or refuses it, leaves all that serving a queue depends on.
pub fn logs_disturb_no_queue<V>()
    ensures { LogsDisturbNoQueue V }
{}

/// What is recorded of a put has a place for each byte, where the put is not refused and the reply fits its room.
pub fn each_byte_has_its_place()
    ensures { PlacesEachByte }
{}

/// Where different queues touch different bytes, and the guest stores none of them, no take of a queue reads a byte
/// that the guest or a step for another queue wrote.
pub fn apart_queues_are_undisturbed<V>()
    ensures { ApartQueuesAreUndisturbed V }
{}

/// The bytes that a step of a worker writes are those of the ranges whose pages it marks in the logs.
pub fn steps_write_their_ranges<V>()
    ensures { StepsWriteTheirRanges V }
{}

/// A guest publishes one entry and signals, and the worker serves it in ten steps: what is left to do, worked out turn
/// by turn, rises to 23 and falls to 0.
pub fn work_falls_to_nothing()
    ensures { WorkFallsToNothing }
{}

/// Two schedules of two queues, worked out: the queues are served in another order, with the same replies.
pub fn replies_are_the_same()
    ensures { RepliesAreTheSame }
{}
