//! Tests of the calls of vub_requests.
#![tactic(auto)]

#[cfg(test)]
mod requests;
