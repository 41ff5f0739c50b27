//! Tests of the calls of vub_loop and vub_core.
#![tactic(auto)]

#[cfg(test)]
mod driving;
#[cfg(test)]
mod loops;
#[cfg(test)]
mod refused;
