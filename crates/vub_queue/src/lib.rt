//! The device's side of a split virtqueue (virtio 1.2, section 2.7): its state, and the calls that take the next entry
//! from guest memory and put a reply back.
#![tactic(auto)]

mod addresses;
mod chain;
mod damage;
mod descriptor;
mod error;
mod head;
mod head_chain;
mod index_back;
mod indexes;
mod laws;
mod layout;
mod notification;
mod publishing;
mod putting;
mod queue;
mod segment;
mod taking;
mod took;
mod using;
mod walk;

pub use addresses::Addresses;
pub use chain::Chain;
pub use damage::Damage;
pub use error::{QueueError, RingPart};
pub use head_chain::chain_at;
pub use index_back::put_index_is_read_back;
pub use laws::{
    chain_fails_no_test, empty_where_none_is_left, entry_stands_in_its_slot, head_has_one_chain,
    put_changes_only_its_places, take_changes_nothing, take_changes_only_avail_event,
    take_has_an_answer, take_has_one_answer,
};
pub use layout::{
    AVAIL_ALIGNMENT, DESC_ALIGNMENT, USED_ALIGNMENT, VIRTQ_DESC_F_INDIRECT, VIRTQ_DESC_F_NEXT,
    VIRTQ_DESC_F_WRITE, avail_slot_place, used_element_place,
};
pub use putting::{PutFault, put};
pub use queue::Queue;
pub use segment::{Segment, Segments, split};
pub use taking::take;
pub use took::Took;
