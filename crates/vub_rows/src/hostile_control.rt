//! Requests that pull the ground from under a ring: rings that lie over each other, memory that goes while an entry is
//! in hand, kicks and calls that are somebody else's.

use crate::rows::expect_rows;
use std::test::Fail;

/// What is asked while the guest's entries are served, each with the order of turns that makes it bite.
const CONTROL: &str = r#"
# the three areas of a ring are one, and a use leaves its bytes as they were
"regions":[["0x10000","0x10000","0x10000",0,0]],
"requests":[["set_vring_addr",0,0,"0x10000","0x10000","0x10000",0]],
"guest":[
    ["store",0,0,"0030010000000000050000000100010000400100000000001000000002000000"],
    ["store",0,12288,"68656c6c6f"],
    ["signal",1]],
"schedule":[1,1,0,0,0]
> turns 41 played 15 rest yes
> answer 0 ok
> take 0 0 0 head 0 request 68656c6c6f room 16
> use 0 0 0 head 0 length 5 reply 68656c6c6f
> count 2 1
> write 0 2 01000000000005000000
> write 0 16384 68656c6c6f
# the used ring lies over the available ring: the use takes the second entry back
"requests":[["set_vring_addr",0,0,"0x100000","0x101000","0x101000",0]],
"guest":[
    ["store",0,0,"0030100000000000050000000100010000401000000000001000000002000000"],
    ["store",0,12288,"68656c6c6f"],
    ["store",0,4096,"0000020000000000"],
    ["signal",1]],
"schedule":[1,1,0,0,0,0]
> turns 42 played 16 rest yes
> answer 0 ok
> take 0 0 0 head 0 request 68656c6c6f room 16
> use 0 0 0 head 0 length 5 reply 68656c6c6f
> count 2 1
> write 0 4098 01000000000005000000
> write 0 16384 68656c6c6f
# the used ring lies over the descriptor table: the index changes the next chain
"requests":[["set_vring_addr",0,0,"0x100000","0x100000","0x101000",0]],
"guest":[
    ["store",0,0,"0030100000000000050000000100010000401000000000001000000002000000"],
    ["store",0,12288,"68656c6c6f"],
    ["store",0,4096,"0000020000000000"],
    ["signal",1]],
"schedule":[1,1,0,0,0,0]
> turns 42 played 12 rest yes
> answer 0 ok
> take 0 0 0 head 0 request 68656c6c6f room 16
> use 0 0 0 head 0 length 5 reply 68656c6c6f
> stop 0 HandleEventBackendHandling SegmentOutside
> count 2 1
> write 0 2 01000000000005000000
> write 0 16384 68656c6c6f
# numbers go on past 65535, in the available ring and in the used one
"requests":[["set_vring_addr",0,0,"0x100000","0x102000","0x101000",0],["set_vring_base",0,"0x1fffe"]],
"guest":[
    ["store",0,8194,"feff"],
    ["store",0,0,"0030100000000000050000000100010000401000000000001000000002000000"],
    ["store",0,12288,"68656c6c6f"],
    ["store",0,4096,"0000020000000000000000000000000000000000"],
    ["signal",1]],
"schedule":[0,1,1,1,1,0,0,0,0],
"rounds":20
> turns 69 played 28 rest yes
> answer 0 ok
> answer 1 ok
> take 0 1 65534 head 0 request 68656c6c6f room 16
> take 0 1 65535 head 0 request 68656c6c6f room 16
> take 0 1 65536 head 0 request 68656c6c6f room 16
> take 0 1 65537 head 0 request 68656c6c6f room 16
> use 0 1 65534 head 0 length 5 reply 68656c6c6f
> use 0 1 65535 head 0 length 5 reply 68656c6c6f
> use 0 1 65536 head 0 length 5 reply 68656c6c6f
> use 0 1 65537 head 0 length 5 reply 68656c6c6f
> count 2 4
> write 0 8194 020000000000050000000000000005000000
> write 0 8244 00000000050000000000000005000000
> write 0 16384 68656c6c6f
# a base that is one past the index
"requests":[["set_vring_base",0,65535]],
"guest":[
    ["store",0,0,"0030100000000000050000000100010000401000000000001000000002000000"],
    ["store",0,12288,"68656c6c6f"],
    ["store",0,4096,"0000feff0000"],
    ["signal",1]],
"schedule":[1,1,0,0,0,0]
> turns 42 played 9 rest yes
> answer 0 ok
> stop 0 HandleEventBackendHandling IndexAhead
# a base that is set while an entry is in hand: it waits, and then the index is ahead
"requests":[["set_vring_base",0,7]],
"schedule":[0,0,0,0,2,2,2,1,2,2]
> turns 46 played 12 rest yes
> answer 0 ok
> take 0 0 0 head 0 request 68656c6c6f room 16
> use 0 0 0 head 0 length 5 reply 68656c6c6f
> stop 0 HandleEventBackendHandling IndexAhead
> count 2 1
> write 0 8194 01000000000005000000
> write 0 16384 68656c6c6f
# a stop waits as long as the worker has no turn
"requests":[["get_vring_base",0]],
"schedule":[0,0,0,0,2,2,2,1,1,1],
"rounds":0
> turns 10 played 7 rest no
> take 0 0 0 head 0 request 68656c6c6f room 16
# a smaller size than entries that wait
"requests":[["set_vring_num",0,2]],
"guest":[
    ["store",0,0,"0030100000000000050000000100010000401000000000001000000002000000"],
    ["store",0,12288,"68656c6c6f"],
    ["store",0,4096,"00000300000000000000"],
    ["signal",1]],
"schedule":[0,0,0,0,1,1]
> turns 42 played 9 rest yes
> answer 0 ok
> stop 0 HandleEventBackendHandling IndexAhead
# another size: the entry stands in another slot
"rings":[
    {"queue":0,"size":8,"info":["0x100000","0x101000","0x102000"],"base":9,"next_used":9,"kick":1,"call":2,"ready":true,"enabled":true}],
"requests":[["set_vring_num",0,16]],
"guest":[
    ["store",0,0,"0030100000000000050000000100010000401000000000001000000002000000"],
    ["store",0,12288,"68656c6c6f"],
    ["store",0,4096,"00000a000000000000000000000000000000000000001000"],
    ["signal",1]],
"schedule":[0,0,0,0,1,1]
> turns 42 played 9 rest yes
> answer 0 ok
> stop 0 HandleEventBackendHandling BadNumber
# a size of one descriptor
"requests":[["set_vring_num",0,1]],
"guest":[
    ["store",0,0,"00401000000000001000000002000000"],
    ["store",0,12288,"68656c6c6f"],
    ["store",0,4096,"000001000000"],
    ["signal",1]],
"schedule":[1,1,0,0,0,0]
> turns 42 played 16 rest yes
> answer 0 ok
> take 0 0 0 head 0 request - room 16
> use 0 0 0 head 0 length 0 reply -
> count 2 1
> write 0 8194 01000000000000000000
# memory is another content while an entry is in hand: the reply goes there
"objects":[{"bytes":65536},{"event":0},{"event":0},{"bytes":65536}],
"requests":[["set_mem_table",[["0x100000","0x10000","0x100000",0]],[3]]],
"schedule":[0,0,0,0,2,2,2,1,1,1]
> turns 46 played 13 rest yes
> answer 0 ok
> device update_memory 0 0 ok
> take 0 0 0 head 0 request 68656c6c6f room 16
> use 0 0 0 head 0 length 5 reply 68656c6c6f
> stop 0 HandleEventBackendHandling IndexAhead
> count 2 1
> write 3 8194 01000000000005000000
> write 3 16384 68656c6c6f
# the region of the request goes while the entry is in hand: the reply is to the bytes read at taking
"objects":[{"bytes":65536},{"event":0},{"event":0},{"hex":"68656c6c6f"}],
"regions":[["0x100000","0x10000","0x100000",0,0],["0x200000",5,"0x200000",0,3]],
"requests":[["remove_mem_region","0x200000",5]],
"guest":[
    ["store",0,0,"0000200000000000050000000100010000401000000000001000000002000000"],
    ["store",0,12288,"68656c6c6f"],
    ["store",0,4096,"000001000000"],
    ["signal",1]],
"schedule":[0,0,0,0,2,2,2,1,1,1]
> turns 46 played 17 rest yes
> answer 0 ok
> device update_memory 0 0 ok
> take 0 0 0 head 0 request 68656c6c6f room 16
> use 0 0 0 head 0 length 5 reply 68656c6c6f
> count 2 1
> write 0 8194 01000000000005000000
> write 0 16384 68656c6c6f
# memory without the used ring while an entry is in hand: it is held, and a stop does not wait
"requests":[
    ["set_mem_table",[["0x100000","0x2000","0x100000",0],["0x104000","0x1000","0x104000","0x4000"]],[0,0]],
    ["get_vring_base",0]],
"schedule":[0,0,0,0,2,2,2,1,1,1,2,2]
> turns 48 played 20 rest yes
> answer 0 ok
> answer 1 base 0 1
> device update_memory 0 0 ok
> device stop_vring 0 0 ok
> take 0 0 0 head 0 request 68656c6c6f room 16
> stop 0 HandleEventBackendHandling RingOutside
# a call that is the kick of another queue: its entry is served, though nobody else kicked
"objects":[{"bytes":65536},{"event":0},{"event":0},{"event":0},{"event":0}],
"rings":[
    {"queue":0,"size":8,"info":["0x100000","0x101000","0x102000"],"base":0,"next_used":0,"kick":1,"call":2,"ready":true,"enabled":true},
    {"queue":1,"size":8,"info":["0x108000","0x109000","0x10a000"],"base":0,"next_used":0,"kick":3,"call":4,"ready":true,"enabled":true}],
"queues":2,
"requests":[["set_vring_call",0,3]],
"guest":[
    ["store",0,0,"0030100000000000050000000100010000401000000000001000000002000000"],
    ["store",0,12288,"68656c6c6f"],
    ["store",0,32768,"00b0100000000000050000000100010000c01000000000001000000002000000"],
    ["store",0,45056,"776f726c64"],
    ["store",0,36864,"000001000000"],
    ["store",0,4096,"000001000000"],
    ["signal",1]],
"schedule":[1,1,2,2,2,2,2,2,0,0,0,0,0,0,0]
> turns 51 played 26 rest yes
> answer 0 ok
> take 0 0 0 head 0 request 68656c6c6f room 16
> take 1 0 0 head 0 request 776f726c64 room 16
> use 0 0 0 head 0 length 5 reply 68656c6c6f
> use 1 0 0 head 0 length 5 reply 776f726c64
> count 4 1
> write 0 8194 01000000000005000000
> write 0 16384 68656c6c6f
> write 0 40962 01000000000005000000
> write 0 49152 776f726c64
# two queues whose calls are each other's kicks
"objects":[{"bytes":65536},{"event":0},{"event":0},{"event":0},{"event":0}],
"rings":[
    {"queue":0,"size":8,"info":["0x100000","0x101000","0x102000"],"base":0,"next_used":0,"kick":1,"call":2,"ready":true,"enabled":true},
    {"queue":1,"size":8,"info":["0x108000","0x109000","0x10a000"],"base":0,"next_used":0,"kick":3,"call":4,"ready":true,"enabled":true}],
"queues":2,
"requests":[["set_vring_call",0,3],["set_vring_call",1,1]],
"guest":[
    ["store",0,0,"0030100000000000050000000100010000401000000000001000000002000000"],
    ["store",0,12288,"68656c6c6f"],
    ["store",0,32768,"00b0100000000000050000000100010000c01000000000001000000002000000"],
    ["store",0,45056,"776f726c64"],
    ["store",0,36864,"000001000000"],
    ["store",0,4096,"000001000000"],
    ["signal",1]],
"schedule":[1,1,1,1,2,2,2,2,2,2,0,0,0,0,0,0,0],
"rounds":20
> turns 77 played 31 rest yes
> answer 0 ok
> answer 1 ok
> take 0 0 0 head 0 request 68656c6c6f room 16
> take 1 0 0 head 0 request 776f726c64 room 16
> use 0 0 0 head 0 length 5 reply 68656c6c6f
> use 1 0 0 head 0 length 5 reply 776f726c64
> write 0 8194 01000000000005000000
> write 0 16384 68656c6c6f
> write 0 40962 01000000000005000000
> write 0 49152 776f726c64
# a call that is the queue's own kick
"requests":[["set_vring_call",0,1]],
"schedule":[1,1,0,0,0,0],
"rounds":20
> turns 66 played 19 rest yes
> answer 0 ok
> take 0 0 0 head 0 request 68656c6c6f room 16
> use 0 0 0 head 0 length 5 reply 68656c6c6f
> write 0 8194 01000000000005000000
> write 0 16384 68656c6c6f
# a call that is the worker's exit object
"objects":[{"bytes":65536},{"event":0},{"event":0},{"event":0}],
"exits":[3],
"requests":[["set_vring_call",0,3]],
"guest":[
    ["store",0,0,"0030100000000000050000000100010000401000000000001000000002000000"],
    ["store",0,12288,"68656c6c6f"],
    ["store",0,4096,"0000020000000000"],
    ["signal",1]],
"schedule":[1,1,0,0,0,0],
"rounds":20
> turns 66 played 21 rest yes
> answer 0 ok
> take 0 0 0 head 0 request 68656c6c6f room 16
> take 0 0 1 head 0 request 68656c6c6f room 16
> use 0 0 0 head 0 length 5 reply 68656c6c6f
> use 0 0 1 head 0 length 5 reply 68656c6c6f
> stop 0 exit
> count 3 2
> write 0 8194 020000000000050000000000000005000000
> write 0 16384 68656c6c6f
# a call that is a listener's event, which the device refuses
"refuse":[0],
"requests":[["register_listener",0,2,1,9]],
"guest":[
    ["store",0,0,"0030100000000000050000000100010000401000000000001000000002000000"],
    ["store",0,12288,"68656c6c6f"],
    ["store",0,4096,"0000020000000000"],
    ["signal",1]],
"schedule":[1,1,0,0,0,0]
> turns 42 played 18 rest yes
> answer 0 ok
> device handle_event 9 0 refused
> take 0 0 0 head 0 request 68656c6c6f room 16
> take 0 0 1 head 0 request 68656c6c6f room 16
> use 0 0 0 head 0 length 5 reply 68656c6c6f
> use 0 0 1 head 0 length 5 reply 68656c6c6f
> stop 0 HandleEventBackendHandling device 5
> write 0 8194 020000000000050000000000000005000000
> write 0 16384 68656c6c6f
# kicks that another queue, a listener or an exit has, and a listener on a kick
"objects":[{"bytes":65536},{"event":0},{"event":0},{"event":0},{"event":0}],
"queues":2,
"exits":[4],
"requests":[
    ["register_listener",0,3,1,9],
    ["set_vring_kick",1,1],
    ["set_vring_kick",1,3],
    ["set_vring_kick",1,4],
    ["register_listener",0,1,1,9],
    ["unregister_listener",0,1,1,9],
    ["unregister_listener",0,4,1,9]],
"guest":[],
"schedule":[],
"rounds":20
> turns 60 played 18 rest yes
> answer 0 ok
> answer 1 InvalidParam
> answer 2 InvalidParam
> answer 3 InvalidParam
> answer 4 AlreadyExists
> answer 5 NotFound
> answer 6 NotFound
# a kick that goes while it is polled: its count stays
"requests":[["set_vring_kick",0,null]],
"schedule":[2,2,2,2,0,0,0,0,2,1,1,1,1]
> turns 49 played 15 rest yes
> answer 0 ok
> count 1 1
# a listener that goes while it is polled is not heard
"objects":[{"event":0}],
"regions":[],
"rings":[],
"requests":[["register_listener",0,0,1,7],["unregister_listener",0,0,1,7]],
"guest":[["signal",0]],
"schedule":[1,1,0,2,1,1],
"rounds":2
> turns 12 played 7 rest yes
> answer 0 ok
> answer 1 ok
> count 0 1
# a reset while an entry is in hand: it is used, and no other is taken
"requests":[["reset_device"]],
"guest":[
    ["store",0,0,"0030100000000000050000000100010000401000000000001000000002000000"],
    ["store",0,12288,"68656c6c6f"],
    ["store",0,4096,"0000020000000000"],
    ["signal",1]],
"schedule":[0,0,0,0,2,2,2,1,1,1,1,1]
> turns 48 played 18 rest yes
> answer 0 ok
> device reset_device 0 0 ok
> take 0 0 0 head 0 request 68656c6c6f room 16
> use 0 0 0 head 0 length 5 reply 68656c6c6f
> count 2 1
> write 0 8194 01000000000005000000
> write 0 16384 68656c6c6f
# a stop of one queue while an entry of another is in hand does not wait
"objects":[{"bytes":65536},{"event":0},{"event":0},{"event":0},{"event":0}],
"rings":[
    {"queue":0,"size":8,"info":["0x100000","0x101000","0x102000"],"base":0,"next_used":0,"kick":1,"call":2,"ready":true,"enabled":true},
    {"queue":1,"size":8,"info":["0x108000","0x109000","0x10a000"],"base":0,"next_used":0,"kick":3,"call":4,"ready":true,"enabled":true}],
"queues":2,
"requests":[["get_vring_base",1]],
"guest":[
    ["store",0,0,"0030100000000000050000000100010000401000000000001000000002000000"],
    ["store",0,12288,"68656c6c6f"],
    ["store",0,32768,"00b0100000000000050000000100010000c01000000000001000000002000000"],
    ["store",0,45056,"776f726c64"],
    ["store",0,36864,"000001000000"],
    ["store",0,4096,"000001000000"],
    ["signal",1]],
"schedule":[0,0,0,0,0,0,0,2,2,2,1,1,1,1,1,1,1,1]
> turns 54 played 25 rest yes
> answer 0 base 1 0
> device stop_vring 1 0 ok
> take 0 0 0 head 0 request 68656c6c6f room 16
> use 0 0 0 head 0 length 5 reply 68656c6c6f
> count 2 1
> write 0 8194 01000000000005000000
> write 0 16384 68656c6c6f
# a queue is stopped on the list of its worker, behind an entry in hand
"objects":[{"bytes":65536},{"event":0},{"event":0},{"event":0},{"event":0}],
"rings":[
    {"queue":0,"size":8,"info":["0x100000","0x101000","0x102000"],"base":0,"next_used":0,"kick":1,"call":2,"ready":true,"enabled":true},
    {"queue":1,"size":8,"info":["0x108000","0x109000","0x10a000"],"base":0,"next_used":0,"kick":3,"call":4,"ready":true,"enabled":true}],
"queues":2,
"requests":[["get_vring_base",1],["set_vring_kick",1,3]],
"guest":[
    ["store",0,0,"0030100000000000050000000100010000401000000000001000000002000000"],
    ["store",0,12288,"68656c6c6f"],
    ["store",0,32768,"00b0100000000000050000000100010000c01000000000001000000002000000"],
    ["store",0,45056,"776f726c64"],
    ["store",0,36864,"000001000000"],
    ["store",0,4096,"000001000000"]],
"schedule":[0,0,0,0,0,0,2,2,2,2,1,1,1,1,1,1,1,1,2,2,2]
> turns 57 played 36 rest yes
> answer 0 base 1 0
> answer 1 ok
> device stop_vring 1 0 ok
> take 0 0 0 head 0 request 68656c6c6f room 16
> take 1 0 0 head 0 request 776f726c64 room 16
> use 0 0 0 head 0 length 5 reply 68656c6c6f
> use 1 0 0 head 0 length 5 reply 776f726c64
> count 2 1
> write 0 8194 01000000000005000000
> write 0 16384 68656c6c6f
> write 0 40962 01000000000005000000
> write 0 49152 776f726c64
# a ring's index where nothing is left: avail_event lies outside memory
"regions":[["0x100000","0x2044","0x100000",0,0],["0x103000","0x2000","0x103000","0x3000",0]],
"requests":[["set_features","0x60000000"]],
"schedule":[1,1,1,1,0,0,0,0]
> turns 44 played 14 rest yes
> answer 0 ok
> device set_event_idx 1 0 ok
> device acked_features 1610612736 0 ok
> take 0 0 0 head 0 request 68656c6c6f room 16
> use 0 0 0 head 0 length 5 reply 68656c6c6f
> stop 0 HandleEventBackendHandling RingOutside
> count 2 1
> write 0 8194 01000000000005000000
> write 0 16384 68656c6c6f
# used_event lies outside memory: the entry is held, and a stop does not wait
"regions":[["0x100000","0x1014","0x100000",0,0],["0x102000","0x3000","0x102000","0x2000",0]],
"requests":[["set_features","0x60000000"],["get_vring_base",0]],
"schedule":[2,2,2,2,1,1,1,1,0,0,0,0,2,2,2,2,2]
> turns 53 played 25 rest yes
> answer 0 ok
> answer 1 base 0 1
> device set_event_idx 1 0 ok
> device acked_features 1610612736 0 ok
> device stop_vring 0 0 ok
> take 0 0 0 head 0 request 68656c6c6f room 16
> stop 0 HandleEventBackendHandling RingOutside
# the reply covers used_event, and the call is not signalled
"requests":[["set_features","0x60000000"]],
"guest":[
    ["store",0,0,"0030100000000000050000000100010014101000000000001000000002000000"],
    ["store",0,12288,"68656c6c6f"],
    ["store",0,4096,"000001000000"],
    ["signal",1]],
"schedule":[1,1,1,1,0,0,0,0]
> turns 44 played 18 rest yes
> answer 0 ok
> device set_event_idx 1 0 ok
> device acked_features 1610612736 0 ok
> take 0 0 0 head 0 request 68656c6c6f room 16
> use 0 0 0 head 0 length 5 reply 68656c6c6f
> write 0 4116 68656c6c6f
> write 0 8194 01000000000005000000
> write 0 8260 0100
# avail_event of one queue is the index of another, which then has an entry
"objects":[{"bytes":65536},{"event":0},{"event":0},{"event":0},{"event":0}],
"rings":[
    {"queue":0,"size":8,"info":["0x100000","0x101000","0x102000"],"base":0,"next_used":0,"kick":1,"call":2,"ready":true,"enabled":true},
    {"queue":1,"size":8,"info":["0x108000","0x102042","0x10a000"],"base":0,"next_used":0,"kick":3,"call":4,"ready":true,"enabled":true}],
"queues":2,
"requests":[["set_features","0x60000000"]],
"guest":[
    ["store",0,0,"0030100000000000050000000100010000401000000000001000000002000000"],
    ["store",0,12288,"68656c6c6f"],
    ["store",0,32768,"00b0100000000000050000000100010000c01000000000001000000002000000"],
    ["store",0,45056,"776f726c64"],
    ["store",0,4096,"000001000000"],
    ["signal",1],
    ["signal",3]],
"schedule":[1,1,1,1,1,0,0,0,0,0,0,2,2,2,2,2,0]
> turns 53 played 29 rest yes
> answer 0 ok
> device set_event_idx 1 0 ok
> device acked_features 1610612736 0 ok
> take 0 0 0 head 0 request 68656c6c6f room 16
> take 1 0 0 head 0 request 776f726c64 room 16
> use 0 0 0 head 0 length 5 reply 68656c6c6f
> use 1 0 0 head 0 length 5 reply 776f726c64
> count 2 1
> count 4 1
> write 0 8194 01000000000005000000
> write 0 8260 0100
> write 0 16384 68656c6c6f
> write 0 40962 01000000000005000000
> write 0 41028 0100
> write 0 49152 776f726c64
# a log: two regions show the same bytes, and the page that the use names is marked
"objects":[{"bytes":65536},{"event":0},{"event":0},{"log":66}],
"bitmap":"pages",
"regions":[["0x100000","0x10000","0x100000",0,0],["0x200000",4096,"0x200000",16384,0]],
"requests":[["set_log_base",66,0,3]],
"guest":[
    ["store",0,0,"0030100000000000050000000100010000002000000000001000000002000000"],
    ["store",0,12288,"68656c6c6f"],
    ["store",0,4096,"000001000000"],
    ["signal",1]],
"schedule":[1,1,0,0,0,0]
> turns 42 played 16 rest yes
> answer 0 ok
> take 0 0 0 head 0 request 68656c6c6f room 16
> use 0 0 0 head 0 length 5 reply 68656c6c6f
> count 2 1
> write 0 8194 01000000000005000000
> write 0 16384 68656c6c6f
> log 3 000000000000000000000000000000000000000000000000000000000000000004000000000000000000000000000000000000000000000000000000000000000100
# a region that comes back has no log
"objects":[{"bytes":65536},{"event":0},{"event":0},{"log":34}],
"bitmap":"pages",
"regions":[["0x100000","0x4000","0x100000",0,0],["0x104000","0x1000","0x104000","0x4000",0]],
"requests":[
    ["set_log_base",34,0,3],
    ["remove_mem_region","0x104000","0x1000"],
    ["add_mem_region",["0x104000","0x1000","0x104000","0x4000"],0]],
"schedule":[1,1,1,1,1,1,1,1,0,0,0,0]
> turns 48 played 22 rest yes
> answer 0 ok
> answer 1 ok
> answer 2 ok
> device update_memory 0 0 ok
> device update_memory 0 0 ok
> take 0 0 0 head 0 request 68656c6c6f room 16
> use 0 0 0 head 0 length 5 reply 68656c6c6f
> count 2 1
> write 0 8194 01000000000005000000
> write 0 16384 68656c6c6f
> log 3 00000000000000000000000000000000000000000000000000000000000000000400
"#;

#[test]
fn hostile_requests_are_answered_and_rings_served(rt: HostRuntime) -> Result<(), Fail> {
    expect_rows(&rt, rt.alloc(), CONTROL, 30)
}
