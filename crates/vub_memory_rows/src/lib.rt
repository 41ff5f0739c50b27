//! Tests of the calls of vub_mem, vub_log, vub_queue, vub_inflight and vub_driver.
#![tactic(auto)]

#[cfg(test)]
mod driver;
#[cfg(test)]
mod driver_device;
#[cfg(test)]
mod inflight;
#[cfg(test)]
mod inflight_device;
#[cfg(test)]
mod log;
#[cfg(test)]
mod mem;
#[cfg(test)]
mod queue;
#[cfg(test)]
mod queue_echo;
