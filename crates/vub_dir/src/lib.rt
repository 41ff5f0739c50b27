//! A shared directory over the queues of a virtio-fs device: a tree of directories and files in memory, and the
//! replies to the guest's FUSE requests.
#![tactic(auto)]

mod answers;
mod building;
mod content;
mod directory;
mod entry;
pub mod fuse;
mod header;
mod layout;
mod listing;
mod names;
mod node;
mod part;
mod slot;
mod sorted_names;
mod tree;

pub use directory::{DirService, reply};
pub use entry::{TreeEntry, TreeError};
pub use tree::Tree;
