//! Tests of the calls of vub_proto, vub_dir, vub_block and vub_backend.
#![tactic(auto)]

#[cfg(test)]
mod backend;
#[cfg(test)]
mod block;
#[cfg(test)]
mod dir;
#[cfg(test)]
mod proto;
