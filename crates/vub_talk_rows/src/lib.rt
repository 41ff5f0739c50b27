//! Tests of the calls of vub_talk.
#![tactic(auto)]

#[cfg(test)]
mod refused;
#[cfg(test)]
mod talking;
