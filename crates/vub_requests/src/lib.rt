//! The named calls of a session: each plays its request to the end, and gives its answer.
#![tactic(auto)]

mod device;
mod handling;
mod listeners;
mod memory;
mod rings;
mod session;
mod unanswered;

pub use device::{
    check_device_state, get_config, get_inflight_fd, get_shared_object, get_shmem_config,
    set_backend_req_fd, set_config, set_device_state_fd, set_gpu_socket, set_inflight_fd,
};
pub use handling::{handle, handle_with};
pub use listeners::{register_listener, send_exit, unregister_listener};
pub use memory::{add_mem_region, remove_mem_region, set_log_base, set_mem_table};
pub use rings::{
    get_vring_base, set_vring_addr, set_vring_base, set_vring_call, set_vring_enable,
    set_vring_err, set_vring_kick, set_vring_num,
};
pub use session::{
    get_features, get_max_mem_slots, get_protocol_features, get_queue_num, reset_device,
    reset_owner, set_features, set_owner, set_protocol_features,
};
pub use unanswered::Unanswered;
pub use vub_handler::VhostUserHandler;
