//! Laws over whole runs of the machine: work drains, and a queue that nothing disturbs is served as alone.
#![tactic(auto)]

mod laws;

pub use laws::{
    apart_queues_are_undisturbed, each_byte_has_its_place, logs_disturb_no_queue,
    replies_are_the_same, runs_are_orderly, schedules_agree, steps_write_their_ranges,
    work_falls_to_nothing,
};
