//! Tests of the calls of vub_base, vub_event, vub_counter, vub_util, vub_sparse, vub_host, vub_stream and vub_threads.
#![tactic(auto)]

#[cfg(test)]
mod base;
#[cfg(test)]
mod counter;
#[cfg(test)]
mod event;
#[cfg(test)]
mod host;
#[cfg(test)]
mod shown;
#[cfg(test)]
mod sparse;
#[cfg(test)]
mod stream;
#[cfg(test)]
mod threads;
#[cfg(test)]
mod util;
