//! Tests of a daemon in running threads: of the calls of vub_daemon, vub_jobs and vub_live.
#![tactic(auto)]

#[cfg(test)]
mod connecting;
#[cfg(test)]
mod failing;
#[cfg(test)]
mod living;
#[cfg(test)]
mod meeting;
#[cfg(test)]
mod objects;
#[cfg(test)]
mod texts;
#[cfg(test)]
mod two_queues;
