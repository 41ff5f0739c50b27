//! Several workers and queues, listeners, and an exit.

use crate::rows::expect_rows;
use std::test::Fail;

/// Who serves a queue, and what else a worker hears.
const WORKERS: &str = r#"
# queue 3 of the queues 1 and 3
"rings":[
    {"queue":3,"size":8,"info":["0x100000","0x101000","0x102000"],"base":0,"next_used":0,"kick":1,"call":2,"ready":true,"enabled":true}],
"queues":4,
"masks":[10]
> turns 40 played 14 rest yes
> take 3 0 0 head 0 request 68656c6c6f room 16
> use 3 0 0 head 0 length 5 reply 68656c6c6f
> count 2 1
> write 0 8194 01000000000005000000
> write 0 16384 68656c6c6f
# two workers with one mask: the first serves the queue, and queue 1 is served by none
"objects":[{"bytes":65536},{"event":0},{"event":0},{"event":0}],
"rings":[
    {"queue":0,"size":8,"info":["0x100000","0x101000","0x102000"],"base":0,"next_used":0,"kick":1,"call":2,"ready":true,"enabled":true},
    {"queue":1,"size":8,"info":["0x100000","0x101000","0x102000"],"base":0,"next_used":0,"kick":3,"call":2,"ready":true,"enabled":true}],
"queues":2,
"masks":[1,1],
"guest":[
    ["store",0,0,"0030100000000000050000000100010000401000000000001000000002000000"],
    ["store",0,12288,"68656c6c6f"],
    ["store",0,4096,"000001000000"],
    ["signal",1],
    ["signal",3]],
"schedule":[0,0,0,0,0]
> turns 53 played 15 rest yes
> take 0 0 0 head 0 request 68656c6c6f room 16
> use 0 0 0 head 0 length 5 reply 68656c6c6f
> count 2 1
> count 3 1
> write 0 8194 01000000000005000000
> write 0 16384 68656c6c6f
# queue 0 belongs to worker 1
"queues":2,
"masks":[2,1]
> turns 52 played 14 rest yes
> take 0 0 0 head 0 request 68656c6c6f room 16
> use 0 0 0 head 0 length 5 reply 68656c6c6f
> count 2 1
> write 0 8194 01000000000005000000
> write 0 16384 68656c6c6f
# listeners
"objects":[{"bytes":0},{"event":0}],
"regions":[],
"rings":[],
"queues":2,
"requests":[
    ["register_listener",0,1,1,3],
    ["register_listener",0,1,1,3],
    ["register_listener",0,1,1,1],
    ["register_listener",0,1,1,65536],
    ["unregister_listener",0,1,1,3],
    ["unregister_listener",0,1,1,3],
    ["unregister_listener",0,1,1,1],
    ["register_listener",0,1,4,3]],
"guest":[],
"schedule":[],
"rounds":12
> turns 36 played 12 rest yes
> answer 0 ok
> answer 1 AlreadyExists
> answer 2 EINVAL
> answer 3 EINVAL
> answer 4 ok
> answer 5 NotFound
> answer 6 EINVAL
> answer 7 EINVAL
# a listener is heard
"objects":[{"event":0}],
"regions":[],
"rings":[],
"requests":[["register_listener",0,0,1,7]],
"guest":[["signal",0],["signal",0]],
"schedule":[1,1,0,0],
"rounds":3
> turns 13 played 7 rest yes
> answer 0 ok
> device handle_event 7 0 ok
# an exit
"objects":[{"event":0}],
"regions":[],
"rings":[],
"exits":[0],
"requests":[["send_exit"]],
"guest":[],
"schedule":[],
"rounds":6
> turns 18 played 4 rest yes
> answer 0 ok
> stop 0 exit
> count 0 1
"#;

#[test]
fn workers_serve_their_queues(rt: HostRuntime) -> Result<(), Fail> {
    expect_rows(&rt, rt.alloc(), WORKERS, 6)
}
