//! The log of dirty pages: what a run marks, what the guest harvests, and logs that are refused.

use crate::rows::expect_rows;
use std::test::Fail;

/// Logs that are set, marked and harvested in a run.
const LOGS: &str = r#"
# each page that a use writes is marked
"objects":[{"bytes":65536},{"event":0},{"event":0},{"log":34}],
"bitmap":"pages",
"requests":[["set_log_base",34,0,3]],
"schedule":[1,1,0,0,0,0]
> turns 42 played 16 rest yes
> answer 0 ok
> take 0 0 0 head 0 request 68656c6c6f room 16
> use 0 0 0 head 0 length 5 reply 68656c6c6f
> count 2 1
> write 0 8194 01000000000005000000
> write 0 16384 68656c6c6f
> log 3 00000000000000000000000000000000000000000000000000000000000000001400
# a harvest hands a word out and clears it
"objects":[{"bytes":65536},{"event":0},{"event":0},{"log":34}],
"bitmap":"pages",
"requests":[["set_log_base",34,0,3]],
"guest":[
    ["store",0,0,"0030100000000000050000000100010000401000000000001000000002000000"],
    ["store",0,12288,"68656c6c6f"],
    ["store",0,4096,"000001000000"],
    ["signal",1],
    ["harvest",3,8]],
"schedule":[1,1,0,0,0,0,2,2,2,2,2,0]
> turns 48 played 17 rest yes
> answer 0 ok
> take 0 0 0 head 0 request 68656c6c6f room 16
> use 0 0 0 head 0 length 5 reply 68656c6c6f
> count 2 1
> write 0 8194 01000000000005000000
> write 0 16384 68656c6c6f
> log 3 00000000000000000000000000000000000000000000000000000000000000000000
> harvest 3 8 14000000
# a reply across a page, and avail_event in a page of its own
"objects":[{"bytes":65536},{"event":0},{"event":0},{"log":34}],
"bitmap":"pages",
"rings":[{"queue":0,"size":8,"info":["0x100000","0x101000","0x102fc0"],"base":0,"next_used":0,
    "kick":1,"call":2,"ready":true,"enabled":true}],
"requests":[["set_features","0x20000000"],["set_log_base",34,0,3]],
"guest":[
    ["store",0,0,"00301000000000000500000001000100fc4f1000000000001000000002000000"],
    ["store",0,12288,"68656c6c6f"],
    ["store",0,4096,"000001000000"],
    ["signal",1]],
"schedule":[1,1,1,1,1,1,1,1,0,0,0,0],
"rounds":14
> turns 54 played 22 rest yes
> answer 0 ok
> answer 1 ok
> device set_event_idx 1 0 ok
> device acked_features 536870912 0 ok
> take 0 0 0 head 0 request 68656c6c6f room 16
> use 0 0 0 head 0 length 5 reply 68656c6c6f
> count 2 1
> write 0 12226 01000000000005000000
> write 0 12292 0100
> write 0 20476 68656c6c6f
> log 3 00000000000000000000000000000000000000000000000000000000000000003c00
# two regions with one log, from its third byte on
"objects":[{"bytes":65536},{"event":0},{"event":0},{"log":72},{"bytes":8192}],
"bitmap":"pages",
"regions":[["0x100000","0x10000","0x100000",0,0],["0x200000",8192,"0x200000",0,4]],
"requests":[["set_log_base",70,2,3]],
"guest":[
    ["store",0,0,"00301000000000000500000001000100fe0f2000000000001000000002000000"],
    ["store",0,12288,"68656c6c6f"],
    ["store",0,4096,"000001000000"],
    ["signal",1]],
"schedule":[1,1,0,0,0,0]
> turns 42 played 16 rest yes
> answer 0 ok
> take 0 0 0 head 0 request 68656c6c6f room 16
> use 0 0 0 head 0 length 5 reply 68656c6c6f
> count 2 1
> write 0 8194 01000000000005000000
> write 4 4094 68656c6c6f
> log 3 000000000000000000000000000000000000000000000000000000000000000000000400000000000000000000000000000000000000000000000000000000000000030000000000
# a region that comes behind the log has none
"objects":[{"bytes":65536},{"event":0},{"event":0},{"log":72},{"bytes":8192}],
"bitmap":"pages",
"requests":[["set_log_base",72,0,3],["add_mem_region",["0x200000",8192,"0x200000",0],4]],
"guest":[
    ["store",0,0,"00301000000000000500000001000100fe0f2000000000001000000002000000"],
    ["store",0,12288,"68656c6c6f"],
    ["store",0,4096,"000001000000"],
    ["signal",1]],
"schedule":[1,1,1,1,1,0,0,0,0]
> turns 45 played 19 rest yes
> answer 0 ok
> answer 1 ok
> device update_memory 0 0 ok
> take 0 0 0 head 0 request 68656c6c6f room 16
> use 0 0 0 head 0 length 5 reply 68656c6c6f
> count 2 1
> write 0 8194 01000000000005000000
> write 4 4094 68656c6c6f
> log 3 000000000000000000000000000000000000000000000000000000000000000004000000000000000000000000000000000000000000000000000000000000000000000000000000
# a device that tracks no page
"objects":[{"bytes":65536},{"event":0},{"event":0},{"log":34}],
"bitmap":"none",
"requests":[["set_log_base",34,0,3]]
> turns 40 played 16 rest yes
> answer 0 ReqHandlerError log 5
> take 0 0 0 head 0 request 68656c6c6f room 16
> use 0 0 0 head 0 length 5 reply 68656c6c6f
> count 2 1
> write 0 8194 01000000000005000000
> write 0 16384 68656c6c6f
> log 3 00000000000000000000000000000000000000000000000000000000000000000000
# a device that tracks no page, and no region
"objects":[{"bytes":65536},{"event":0},{"event":0},{"log":34}],
"bitmap":"none",
"regions":[],
"rings":[],
"guest":[],
"requests":[["set_log_base",34,0,3]],
"schedule":[1,1],
"rounds":1
> turns 5 played 2 rest yes
> answer 0 ok
> log 3 00000000000000000000000000000000000000000000000000000000000000000000
# no byte of a log, and more bytes than it has
"objects":[{"bytes":65536},{"event":0},{"event":0},{"log":34}],
"bitmap":"pages",
"requests":[["set_log_base",0,0,3],["set_log_base",35,0,3],["set_log_base",1,34,3]]
> turns 40 played 20 rest yes
> answer 0 ReqHandlerError log 1
> answer 1 ReqHandlerError log 2
> answer 2 ReqHandlerError log 2
> take 0 0 0 head 0 request 68656c6c6f room 16
> use 0 0 0 head 0 length 5 reply 68656c6c6f
> count 2 1
> write 0 8194 01000000000005000000
> write 0 16384 68656c6c6f
> log 3 00000000000000000000000000000000000000000000000000000000000000000000
# regions that end within a page, and a log that is too small for them
"objects":[{"bytes":65536},{"event":0},{"event":0},{"log":34}],
"bitmap":"pages",
"regions":[["0x100000","0x1800","0x100000",0,0]],
"rings":[],
"guest":[],
"requests":[["set_log_base",34,0,3],["set_mem_table",[["0x100000","0x10000","0x100000",0]],[0]],["set_log_base",33,0,3]],
"schedule":[]
> turns 36 played 7 rest yes
> answer 0 ReqHandlerError log 3
> answer 1 ok
> answer 2 ReqHandlerError log 4
> device update_memory 0 0 ok
> log 3 00000000000000000000000000000000000000000000000000000000000000000000
# a round of copying: two harvests while the queue runs, and what was written behind them
"objects":[{"bytes":65536},{"event":0},{"event":0},{"log":34}],
"bitmap":"pages",
"requests":[["set_log_base",34,0,3],["get_vring_base",0]],
"guest":[
    ["store",0,0,"0030100000000000050000000100010000401000000000001000000002000000"],
    ["store",0,12288,"68656c6c6f"],
    ["store",0,4096,"000001000000"],
    ["signal",1],
    ["harvest",3,8],
    ["store",0,32,"0030100000000000050000000100030000501000000000001000000002000000"],
    ["store",0,4096,"0000020000000200"],
    ["signal",1],
    ["harvest",3,8]],
"schedule":[1,1,0,0,0,0,2,2,2,2,2,0,0,0,0,2,2,2,2,2,0,1,1,1,1,1,1,1,1],
"rounds":4
> turns 41 played 33 rest yes
> answer 0 ok
> answer 1 base 0 2
> device stop_vring 0 0 ok
> take 0 0 0 head 0 request 68656c6c6f room 16
> take 0 0 1 head 2 request 68656c6c6f room 16
> use 0 0 0 head 0 length 5 reply 68656c6c6f
> use 0 0 1 head 2 length 5 reply 68656c6c6f
> count 1 1
> count 2 2
> write 0 8194 020000000000050000000200000005000000
> write 0 16384 68656c6c6f
> write 0 20480 68656c6c6f
> log 3 00000000000000000000000000000000000000000000000000000000000000000000
> harvest 3 8 14000000
> harvest 3 8 24000000
"#;

#[test]
fn each_page_that_is_written_is_in_the_log_or_in_a_harvest(rt: HostRuntime) -> Result<(), Fail> {
    expect_rows(&rt, rt.alloc(), LOGS, 10)
}
