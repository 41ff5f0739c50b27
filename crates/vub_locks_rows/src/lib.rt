//! Tests of what running threads share: of the calls of vub_locks, vub_vrings and vub_attend.
#![tactic(auto)]

#[cfg(test)]
mod attending;
#[cfg(test)]
mod hosts;
#[cfg(test)]
mod parts;
pub mod shown;
#[cfg(test)]
mod vrings;
