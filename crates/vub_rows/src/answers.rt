//! What requests are answered, and what they call the device for.

use crate::rows::expect_rows;
use std::test::Fail;

/// Requests of the session, of features, of a ring's size and addresses, and of guest memory.
const ANSWERS: &str = r#"
# one owner at a time
"rings":[],
"requests":[["set_owner"],["set_owner"],["reset_owner"],["set_owner"]],
"guest":[],
"schedule":[],
"rounds":5
> turns 15 played 4 rest yes
> answer 0 ok
> answer 1 InvalidOperation already claimed
> answer 2 ok
> answer 3 ok
# a flag needs its feature, and a queue that is there
"rings":[],
"requests":[
    ["set_vring_enable",9,true],
    ["set_features","0x40000000"],
    ["set_vring_enable",9,true],
    ["set_features",1]],
"guest":[],
"schedule":[],
"rounds":10
> turns 30 played 7 rest yes
> answer 0 InactiveFeature
> answer 1 ok
> answer 2 InvalidParam
> answer 3 InvalidParam
> device set_event_idx 0 0 ok
> device acked_features 1073741824 0 ok
# sizes
"rings":[],
"requests":[
    ["set_vring_num",0,0],
    ["set_vring_num",0,3],
    ["set_vring_num",0,512],
    ["set_vring_num",0,8],
    ["set_vring_num",1,8]],
"guest":[],
"schedule":[],
"rounds":8
> turns 24 played 6 rest yes
> answer 0 InvalidParam
> answer 1 InvalidParam
> answer 2 InvalidParam
> answer 3 ok
> answer 4 InvalidParam
# what the device has, and postcopy
"rings":[],
"requests":[
    ["get_features"],
    ["get_protocol_features"],
    ["get_queue_num"],
    ["get_max_mem_slots"],
    ["set_protocol_features",1],
    ["set_mem_table",[],[],false]],
"guest":[],
"schedule":[],
"rounds":8
> turns 24 played 6 rest yes
> answer 0 ok 5972688896
> answer 1 ok 522
> answer 2 ok 1
> answer 3 ok 509
> answer 4 ok
> answer 5 InvalidOperation postcopy not enabled
# addresses that are refused leave those that were there
"requests":[
    ["set_vring_addr",0,0,"0x100000","0x102002","0x101000",0],
    ["set_vring_addr",0,0,"0x300000","0x102000","0x101000",0]],
"schedule":[1,1,0,0,0,0]
> turns 42 played 16 rest yes
> answer 0 InvalidParam
> answer 1 ReqHandlerError memory 8
> take 0 0 0 head 0 request 68656c6c6f room 16
> use 0 0 0 head 0 length 5 reply 68656c6c6f
> count 2 1
> write 0 8194 01000000000005000000
> write 0 16384 68656c6c6f
# a used index past the end of memory: the addresses stand
"objects":[{"bytes":65538},{"event":0},{"event":0}],
"regions":[["0x100000","0x10002","0x100000",0,0]],
"requests":[["set_vring_addr",0,0,"0x100000","0x110000","0x101000",0]],
"schedule":[1,1,0,0,0,0]
> turns 42 played 11 rest yes
> answer 0 BackendInternalError
> take 0 0 0 head 0 request 68656c6c6f room 16
> stop 0 HandleEventBackendHandling RingOutside
# addresses without a mapping
"regions":[],
"rings":[],
"requests":[["set_vring_addr",0,0,"0x100000","0x102000","0x101000",0]],
"guest":[],
"schedule":[],
"rounds":2
> turns 6 played 1 rest yes
> answer 0 InvalidParam
# tables that are refused
"rings":[],
"requests":[
    ["set_mem_table",[["0x200000",4096,0,0],["0x100000",4096,0,0]],[0,0]],
    ["set_mem_table",[["0x100000",4096,0,0],["0x100fff",4096,0,0]],[0,0]],
    ["set_mem_table",[],[]],
    ["set_mem_table",[["0x100000",65537,0,0]],[0]],
    ["remove_mem_region","0x100000",1]],
"guest":[],
"schedule":[],
"rounds":12
> turns 36 played 10 rest yes
> answer 0 ReqHandlerError memory 2
> answer 1 ReqHandlerError memory 3
> answer 2 ReqHandlerError memory 1
> answer 3 ReqHandlerError memory 5
> answer 4 ReqHandlerError memory 6
# a table that the device refuses stands, and addresses go by the old mappings
"rings":[],
"refuse":[0],
"requests":[
    ["set_mem_table",[["0x200000","0x10000","0x300000",0]],[0]],
    ["set_vring_addr",0,0,"0x100000","0x102000","0x101000",0],
    ["set_vring_addr",0,0,"0x300000","0x302000","0x301000",0]],
"guest":[],
"schedule":[],
"rounds":8
> turns 24 played 6 rest yes
> answer 0 ReqHandlerError device 5
> answer 1 BackendInternalError
> answer 2 ReqHandlerError memory 8
> device update_memory 0 0 refused
"#;

/// Requests that the device answers, and what it refuses.
const DEVICES: &str = r#"
# bytes of the config space
"objects":[],
"regions":[],
"rings":[],
"config":"a5a5a5a5a5a5a5a5",
"requests":[["get_config",2,8,0]],
"guest":[],
"schedule":[],
"rounds":2
> turns 6 played 2 rest yes
> answer 0 content a5a5a5a5a5a5
> device get_config 2 8 ok
# refusals of the device
"objects":[],
"regions":[],
"rings":[],
"config":"a5a5a5a5a5a5a5a5",
"requests":[["set_config",4,"a5a5a5a5a5a5a5a5",0],["check_device_state"],["get_inflight_fd"]],
"guest":[],
"schedule":[],
"rounds":6
> turns 18 played 5 rest yes
> answer 0 ReqHandlerError device 22
> answer 1 ReqHandlerError device 95
> answer 2 InvalidOperation not supported
> device set_config 4 8 refused
> device check_device_state 0 0 refused
# bytes are set, and got again
"objects":[],
"regions":[],
"rings":[],
"config":"00000000",
"requests":[
    ["set_config",1,"b1b2",0],
    ["get_config",0,8,0],
    ["set_config",4,"",0],
    ["set_config",5,"",0]],
"guest":[],
"schedule":[],
"rounds":8
> turns 24 played 8 rest yes
> answer 0 ok
> answer 1 content 00b1b200
> answer 2 ok
> answer 3 ReqHandlerError device 22
> device set_config 1 2 ok
> device get_config 0 8 ok
> device set_config 4 0 ok
> device set_config 5 0 refused
# each call that may be refused
"rings":[],
"refuse":[0,1,2,3,4,5,6,7],
"requests":[
    ["set_config",0,"",0],
    ["add_mem_region",["0x200000",4096,0,0],0],
    ["get_vring_base",0],
    ["get_shared_object",7],
    ["set_gpu_socket",1],
    ["set_device_state_fd",1,2,1],
    ["check_device_state"],
    ["get_shmem_config"]],
"guest":[],
"schedule":[],
"rounds":20
> turns 60 played 18 rest yes
> answer 0 ReqHandlerError device 5
> answer 1 ReqHandlerError device 5
> answer 2 ReqHandlerError device 5
> answer 3 ReqHandlerError device 5
> answer 4 ReqHandlerError device 5
> answer 5 ReqHandlerError device 5
> answer 6 ReqHandlerError device 5
> answer 7 ReqHandlerError device 5
> device set_config 0 0 refused
> device update_memory 0 0 refused
> device stop_vring 0 0 refused
> device get_shared_object 0 0 refused
> device set_gpu_socket 1 0 refused
> device set_device_state_fd 1 2 refused
> device check_device_state 0 0 refused
> device get_shmem_config 0 0 refused
# a listener's event that the device refuses stops the worker
"objects":[{"event":0}],
"regions":[],
"rings":[],
"refuse":[0],
"requests":[["register_listener",0,0,1,7]],
"guest":[["signal",0]],
"schedule":[1,1,0],
"rounds":3
> turns 12 played 6 rest yes
> answer 0 ok
> device handle_event 7 0 refused
> stop 0 HandleEventBackendHandling device 5
"#;

#[test]
fn requests_are_answered(rt: HostRuntime) -> Result<(), Fail> {
    expect_rows(&rt, rt.alloc(), ANSWERS, 9)
}

#[test]
fn devices_answer(rt: HostRuntime) -> Result<(), Fail> {
    expect_rows(&rt, rt.alloc(), DEVICES, 5)
}
