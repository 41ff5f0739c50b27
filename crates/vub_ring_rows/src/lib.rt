//! Tests of the calls of vub_ring, vub_vring and vub_open.
#![tactic(auto)]

#[cfg(test)]
mod numbers_said;
#[cfg(test)]
mod open;
#[cfg(test)]
mod ring;
#[cfg(test)]
mod ring_booked;
#[cfg(test)]
mod vring;
#[cfg(test)]
mod vring_silent;
