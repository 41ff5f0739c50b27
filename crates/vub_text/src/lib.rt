//! The printed text of a run: one line for each thing that happened, in a fixed order.
#![tactic(auto)]

mod answers;
mod calls;
mod causes;
mod entries;
mod hexadecimal;
mod lines;
mod logs;
mod pieces;
mod places;
mod printed;
mod summary;
mod turns;

pub use answers::push_answer_line;
pub use hexadecimal::hex_of;
pub use lines::{Line, push_lines};
pub use printed::print_run;
pub use summary::print_summary;
pub use turns::word_of;
