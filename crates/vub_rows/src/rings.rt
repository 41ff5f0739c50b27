//! Rings that are stopped and started, and kicks that are replaced, while a worker serves them.

use crate::rows::expect_rows;
use std::test::Fail;

/// A ring that control changes in the middle of a run.
const RINGS: &str = r#"
# a stop of a ring without a kick
"rings":[
    {"queue":0,"size":8,"info":["0x100000","0x101000","0x102000"],"base":0,"next_used":0,"kick":null,"call":null,"ready":true,"enabled":false}],
"requests":[["get_vring_base",0]],
"guest":[],
"schedule":[],
"rounds":8
> turns 24 played 5 rest yes
> answer 0 base 0 0
> device stop_vring 0 0 ok
# features, a kick and the flag start a queue
"rings":[
    {"queue":0,"size":8,"info":["0x100000","0x101000","0x102000"],"base":0,"next_used":0,"kick":null,"call":null,"ready":false,"enabled":false}],
"requests":[["set_features","0x40000000"],["set_vring_kick",0,1],["set_vring_enable",0,true]],
"schedule":[1,1,1,1,1,1,1,1,1,1,0,0,0,0,2,2],
"rounds":20
> turns 76 played 29 rest yes
> answer 0 ok
> answer 1 ok
> answer 2 ok
> device set_event_idx 0 0 ok
> device acked_features 1073741824 0 ok
> take 0 0 0 head 0 request 68656c6c6f room 16
> use 0 0 0 head 0 length 5 reply 68656c6c6f
> write 0 8194 01000000000005000000
> write 0 16384 68656c6c6f
# a base in 16 bits, and the numbers that go on from it
"requests":[["set_vring_base",0,"0x1ffff"],["get_vring_base",0]],
"guest":[
    ["store",0,0,"0030100000000000050000000100010000401000000000001000000000000000"],
    ["store",0,12288,"68656c6c6f"],
    ["store",0,4096,"000001000000"],
    ["signal",1]],
"schedule":[1,1,0,0,0,0,2,2,2,2,2,2,2,2]
> turns 50 played 26 rest yes
> answer 0 ok
> answer 1 base 0 1
> device stop_vring 0 0 ok
> take 0 1 65535 head 0 request 68656c6c6f00000000000000000000000000000000 room 0
> take 0 1 65536 head 0 request 68656c6c6f00000000000000000000000000000000 room 0
> use 0 1 65535 head 0 length 0 reply -
> use 0 1 65536 head 0 length 0 reply -
> count 2 2
> write 0 8194 020000000000000000000000000000000000
# a kick is replaced, and the new one is signalled
"objects":[{"bytes":65536},{"event":0},{"event":0},{"event":0}],
"requests":[["set_vring_kick",0,3]],
"guest":[
    ["store",0,0,"0030100000000000050000000100010000401000000000001000000002000000"],
    ["store",0,12288,"68656c6c6f"],
    ["store",0,4096,"000001000000"],
    ["signal",3]],
"schedule":[1,1,1,1,1,1,1,1,1,0,0,0,0]
> turns 49 played 23 rest yes
> answer 0 ok
> take 0 0 0 head 0 request 68656c6c6f room 16
> use 0 0 0 head 0 length 5 reply 68656c6c6f
> count 2 1
> write 0 8194 01000000000005000000
> write 0 16384 68656c6c6f
# the old one is signalled: it is no kick, and the entry stays
"objects":[{"bytes":65536},{"event":0},{"event":0},{"event":0}],
"requests":[["set_vring_kick",0,3]],
"schedule":[1,1,1,1,1,1,1,1,1,2,2,2,2,0,0,0,0]
> turns 53 played 17 rest yes
> answer 0 ok
> count 1 1
# a stop waits for the entry in flight
"requests":[["get_vring_base",0]],
"schedule":[0,0,0,0,2,2,2,1,2,2]
> turns 46 played 21 rest yes
> answer 0 base 0 1
> device stop_vring 0 0 ok
> take 0 0 0 head 0 request 68656c6c6f room 16
> use 0 0 0 head 0 length 5 reply 68656c6c6f
> count 2 1
> write 0 8194 01000000000005000000
> write 0 16384 68656c6c6f
# the room goes while an entry is in flight, and a stop does not wait for it
"objects":[{"bytes":65536},{"event":0},{"event":0},{"bytes":4096}],
"regions":[["0x100000","0x10000","0x100000",0,0],["0x200000",4096,"0x200000",0,3]],
"requests":[["remove_mem_region","0x200000",4096],["get_vring_base",0]],
"guest":[
    ["store",0,0,"0030100000000000050000000100010000002000000000001000000002000000"],
    ["store",0,12288,"68656c6c6f"],
    ["store",0,4096,"000001000000"],
    ["signal",1]],
"schedule":[0,0,0,0,2,2,2,2,1,1,1,2]
> turns 48 played 20 rest yes
> answer 0 ok
> answer 1 base 0 1
> device update_memory 0 0 ok
> device stop_vring 0 0 ok
> take 0 0 0 head 0 request 68656c6c6f room 16
> stop 0 HandleEventBackendHandling RoomOutside
# a stop that the device refuses, and the call that starts the ring again
"refuse":[0],
"requests":[["get_vring_base",0],["set_vring_call",0,2]],
"schedule":[1,1,1,1,1,0,0,0,0,2,2,2,2]
> turns 49 played 28 rest yes
> answer 0 ReqHandlerError device 5
> answer 1 ok
> device stop_vring 0 0 refused
> take 0 0 0 head 0 request 68656c6c6f room 16
> use 0 0 0 head 0 length 5 reply 68656c6c6f
> count 2 1
> write 0 8194 01000000000005000000
> write 0 16384 68656c6c6f
# a disabled queue keeps its entry until it is enabled
"requests":[
    ["set_features","0x40000000"],
    ["set_vring_enable",0,false],
    ["set_vring_enable",0,true]],
"schedule":[1,1,1,1,1,1,1,1,0,0,0,0,2,2,2,2]
> turns 52 played 30 rest yes
> answer 0 ok
> answer 1 ok
> answer 2 ok
> device set_event_idx 0 0 ok
> device acked_features 1073741824 0 ok
> take 0 0 0 head 0 request 68656c6c6f room 16
> use 0 0 0 head 0 length 5 reply 68656c6c6f
> count 2 1
> write 0 8194 01000000000005000000
> write 0 16384 68656c6c6f
# notifications by index: the entry's number is published, and the call is signalled
"requests":[["set_features","0x60000000"]],
"schedule":[1,1,1,1,0,0,0,0]
> turns 44 played 18 rest yes
> answer 0 ok
> device set_event_idx 1 0 ok
> device acked_features 1610612736 0 ok
> take 0 0 0 head 0 request 68656c6c6f room 16
> use 0 0 0 head 0 length 5 reply 68656c6c6f
> count 2 1
> write 0 8194 01000000000005000000
> write 0 8260 0100
> write 0 16384 68656c6c6f
# a driver that waits for number 5 is not told of number 0
"requests":[["set_features","0x60000000"]],
"guest":[
    ["store",0,0,"0030100000000000050000000100010000401000000000001000000002000000"],
    ["store",0,12288,"68656c6c6f"],
    ["store",0,4096,"000001000000"],
    ["store",0,4116,"0500"],
    ["signal",1]],
"schedule":[1,1,1,1,0,0,0,0,0]
> turns 45 played 19 rest yes
> answer 0 ok
> device set_event_idx 1 0 ok
> device acked_features 1610612736 0 ok
> take 0 0 0 head 0 request 68656c6c6f room 16
> use 0 0 0 head 0 length 5 reply 68656c6c6f
> write 0 8194 01000000000005000000
> write 0 8260 0100
> write 0 16384 68656c6c6f
"#;

#[test]
fn rings_stop_and_start(rt: HostRuntime) -> Result<(), Fail> {
    expect_rows(&rt, rt.alloc(), RINGS, 11)
}
