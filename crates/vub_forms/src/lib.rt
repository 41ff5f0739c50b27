//! The parts of a script: which JSON tree is which part, and, where a tree is none, which rule it breaks and where. Here
//! stand numbers, bytes, lists, regions, rings, the guest's actions and the requests, and the keys that a script has.
#![tactic(auto)]

mod arguments;
mod calls;
mod fault;
mod guest;
mod hexadecimal;
mod keys;
mod leaves;
mod lists;
mod numbers;
mod parts;
mod refusal;
mod regions;
mod requests;
mod rings;
mod rule;
mod tree;

pub use fault::{Fault, Step};
pub use keys::{is_in_form, script_fault};
pub use leaves::is_the_text;
pub use refusal::Refusal;
pub use rule::Rule;
pub use tree::{FromTree, member_at, part_given, part_or};
