//! Guests that break the rules of the ring, one way each. The worker stops and says why, or goes on with what the
//! bytes say.

use crate::rows::expect_rows;
use std::test::Fail;

/// What the guest stores, and where its rings lie. In a descriptor stand the address, the length, the flags (1 a next
/// one, 2 writable, 4 indirect) and the next one's number, little-endian.
const GUESTS: &str = r#"
# the index is nine ahead of a ring of eight
"guest":[
    ["store",0,0,"0030100000000000050000000100010000401000000000001000000002000000"],
    ["store",0,12288,"68656c6c6f"],
    ["store",0,4096,"000009000000"],
    ["signal",1]]
> turns 40 played 7 rest yes
> stop 0 HandleEventBackendHandling IndexAhead
# the index is 65535 ahead
"guest":[
    ["store",0,0,"0030100000000000050000000100010000401000000000001000000002000000"],
    ["store",0,12288,"68656c6c6f"],
    ["store",0,4096,"0000ffff0000"],
    ["signal",1]]
> turns 40 played 7 rest yes
> stop 0 HandleEventBackendHandling IndexAhead
# a segment that ends past guest memory
"guest":[
    ["store",0,0,"00301000000000000500000001000100f8ff1000000000001000000002000000"],
    ["store",0,12288,"68656c6c6f"],
    ["store",0,4096,"000001000000"],
    ["signal",1]]
> turns 40 played 7 rest yes
> stop 0 HandleEventBackendHandling SegmentOutside
# a segment that lies over the gap between two regions
"regions":[["0x100000","0x4008","0x100000",0,0],["0x104009","0x1000","0x104009","0x4009",0]]
> turns 40 played 7 rest yes
> stop 0 HandleEventBackendHandling SegmentOutside
# a segment that goes on past the last address
"guest":[
    ["store",0,0,"00301000000000000500000001000100f8ffffffffffffff1000000002000000"],
    ["store",0,12288,"68656c6c6f"],
    ["store",0,4096,"000001000000"],
    ["signal",1]]
> turns 40 played 7 rest yes
> stop 0 HandleEventBackendHandling SegmentOutside
# a next descriptor that is not there
"guest":[
    ["store",0,0,"0030100000000000050000000100080000401000000000001000000002000000"],
    ["store",0,12288,"68656c6c6f"],
    ["store",0,4096,"000001000000"],
    ["signal",1]]
> turns 40 played 7 rest yes
> stop 0 HandleEventBackendHandling BadNumber
# an available entry that names no descriptor
"guest":[
    ["store",0,0,"0030100000000000050000000100010000401000000000001000000002000000"],
    ["store",0,12288,"68656c6c6f"],
    ["store",0,4096,"000001000800"],
    ["signal",1]]
> turns 40 played 7 rest yes
> stop 0 HandleEventBackendHandling BadNumber
# lengths that add to more than 4294967295
"guest":[
    ["store",0,0,"003010000000000005000000010001000040100000000000ffffffff02000000"],
    ["store",0,12288,"68656c6c6f"],
    ["store",0,4096,"000001000000"],
    ["signal",1]]
> turns 40 played 7 rest yes
> stop 0 HandleEventBackendHandling TooBig
# an indirect descriptor
"guest":[
    ["store",0,0,"0030100000000000050000000500010000401000000000001000000002000000"],
    ["store",0,12288,"68656c6c6f"],
    ["store",0,4096,"000001000000"],
    ["signal",1]]
> turns 40 played 7 rest yes
> stop 0 HandleEventBackendHandling Indirect
# a ring of one descriptor, which names a next one
"rings":[
    {"queue":0,"size":1,"info":["0x100000","0x101000","0x102000"],"base":0,"next_used":0,"kick":1,"call":2,"ready":true,"enabled":true}]
> turns 40 played 7 rest yes
> stop 0 HandleEventBackendHandling TooLong
# no guest memory at all
"regions":[]
> turns 40 played 7 rest yes
> stop 0 HandleEventBackendHandling RingOutside
# an available ring at the last address
"rings":[
    {"queue":0,"size":8,"info":["0x100000","0xfffffffffffffffe","0x102000"],"base":0,"next_used":0,"kick":1,"call":2,"ready":true,"enabled":true}]
> turns 40 played 7 rest yes
> stop 0 HandleEventBackendHandling RingOutside
# a descriptor table at the last address
"rings":[
    {"queue":0,"size":8,"info":["0xfffffffffffffff0","0x101000","0x102000"],"base":0,"next_used":0,"kick":1,"call":2,"ready":true,"enabled":true}],
"guest":[
    ["store",0,0,"0030100000000000050000000100010000401000000000001000000002000000"],
    ["store",0,12288,"68656c6c6f"],
    ["store",0,4096,"000001000000"],
    ["signal",1]]
> turns 40 played 7 rest yes
> stop 0 HandleEventBackendHandling RingOutside
# a used ring at the last address: the entry is held
"rings":[
    {"queue":0,"size":8,"info":["0x100000","0x101000","0xfffffffffffffffc"],"base":0,"next_used":0,"kick":1,"call":2,"ready":true,"enabled":true}]
> turns 40 played 9 rest yes
> take 0 0 0 head 0 request 68656c6c6f room 16
> stop 0 HandleEventBackendHandling RingOutside
# the reply covers the available ring
"guest":[
    ["store",0,0,"0030100000000000050000000100010000101000000000001000000002000000"],
    ["store",0,12288,"68656c6c6f"],
    ["store",0,4096,"000001000000"],
    ["signal",1]]
> turns 40 played 10 rest yes
> take 0 0 0 head 0 request 68656c6c6f room 16
> use 0 0 0 head 0 length 5 reply 68656c6c6f
> stop 0 HandleEventBackendHandling IndexAhead
> count 2 1
> write 0 4096 68656c6c6f
> write 0 8194 01000000000005000000
# the reply covers the used ring
"guest":[
    ["store",0,0,"0030100000000000050000000100010000201000000000001000000002000000"],
    ["store",0,12288,"68656c6c6f"],
    ["store",0,4096,"000001000000"],
    ["signal",1]]
> turns 40 played 14 rest yes
> take 0 0 0 head 0 request 68656c6c6f room 16
> use 0 0 0 head 0 length 5 reply 68656c6c6f
> count 2 1
> write 0 8192 686501000000000005000000
# the reply covers the descriptor table, and the next chain is what it made
"guest":[
    ["store",0,0,"0030100000000000050000000100010000001000000000001000000002000000"],
    ["store",0,12288,"68656c6c6f"],
    ["store",0,4096,"0000020000000000"],
    ["signal",1]]
> turns 40 played 10 rest yes
> take 0 0 0 head 0 request 68656c6c6f room 16
> use 0 0 0 head 0 length 5 reply 68656c6c6f
> stop 0 HandleEventBackendHandling SegmentOutside
> count 2 1
> write 0 0 68656c6c6f
> write 0 8194 01000000000005000000
# two writable segments that overlap
"guest":[
    ["store",0,0,"003010000000000005000000010001000040100000000000020000000300020001401000000000001000000002000000"],
    ["store",0,12288,"68656c6c6f"],
    ["store",0,4096,"000001000000"],
    ["signal",1]]
> turns 40 played 14 rest yes
> take 0 0 0 head 0 request 68656c6c6f room 18
> use 0 0 0 head 0 length 5 reply 68656c6c6f
> count 2 1
> write 0 8194 01000000000005000000
> write 0 16384 686c6c6f
# an entry of one empty segment
"guest":[
    ["store",0,0,"0030100000000000000000000000000000401000000000001000000002000000"],
    ["store",0,12288,"68656c6c6f"],
    ["store",0,4096,"000001000000"],
    ["signal",1]]
> turns 40 played 14 rest yes
> take 0 0 0 head 0 request - room 0
> use 0 0 0 head 0 length 0 reply -
> count 2 1
> write 0 8194 01000000000000000000
# a writable segment in front of the request
"guest":[
    ["store",0,0,"0040100000000000100000000300010000301000000000000500000000000000"],
    ["store",0,12288,"68656c6c6f"],
    ["store",0,4096,"000001000000"],
    ["signal",1]]
> turns 40 played 14 rest yes
> take 0 0 0 head 0 request 68656c6c6f room 16
> use 0 0 0 head 0 length 5 reply 68656c6c6f
> count 2 1
> write 0 8194 01000000000005000000
> write 0 16384 68656c6c6f
# two regions that show the same bytes: the room is the used ring
"regions":[["0x100000","0x10000","0x100000",0,0],["0x200000",4096,"0x200000",8192,0]],
"guest":[
    ["store",0,0,"0030100000000000050000000100010000002000000000001000000002000000"],
    ["store",0,12288,"68656c6c6f"],
    ["store",0,4096,"000001000000"],
    ["signal",1]]
> turns 40 played 14 rest yes
> take 0 0 0 head 0 request 68656c6c6f room 16
> use 0 0 0 head 0 length 5 reply 68656c6c6f
> count 2 1
> write 0 8192 686501000000000005000000
# the guest writes request and descriptors anew while the entry is in hand
"guest":[
    ["store",0,0,"0030100000000000050000000100010000401000000000001000000002000000"],
    ["store",0,12288,"68656c6c6f"],
    ["store",0,4096,"000001000000"],
    ["signal",1],
    ["store",0,12288,"48454c4c4f"],
    ["store",0,0,"0030100000000000010000000100010000501000000000000100000002000000"]],
"schedule":[0,0,0,0,2,2,2,0,0]
> turns 45 played 16 rest yes
> take 0 0 0 head 0 request 68656c6c6f room 16
> use 0 0 0 head 0 length 5 reply 68656c6c6f
> count 2 1
> write 0 8194 01000000000005000000
> write 0 16384 68656c6c6f
# the guest takes its index back while the entry is in hand
"guest":[
    ["store",0,0,"0030100000000000050000000100010000401000000000001000000002000000"],
    ["store",0,12288,"68656c6c6f"],
    ["store",0,4096,"000001000000"],
    ["signal",1],
    ["store",0,4096,"00000000"]],
"schedule":[0,0,0,0,2,2,2,0]
> turns 44 played 11 rest yes
> take 0 0 0 head 0 request 68656c6c6f room 16
> use 0 0 0 head 0 length 5 reply 68656c6c6f
> stop 0 HandleEventBackendHandling IndexAhead
> count 2 1
> write 0 8194 01000000000005000000
> write 0 16384 68656c6c6f
# a kick that is counted three times and read one at a time
"objects":[{"bytes":65536},{"event":1},{"event":0}],
"guest":[
    ["store",0,0,"0030100000000000050000000100010000401000000000001000000002000000"],
    ["store",0,12288,"68656c6c6f"],
    ["store",0,4096,"000001000000"],
    ["signal",1],
    ["signal",1],
    ["signal",1]],
"schedule":[0,0,0,0,0,0],
"rounds":20
> turns 66 played 22 rest yes
> take 0 0 0 head 0 request 68656c6c6f room 16
> use 0 0 0 head 0 length 5 reply 68656c6c6f
> count 2 1
> write 0 8194 01000000000005000000
> write 0 16384 68656c6c6f
"#;

#[test]
fn guests_are_served_as_their_bytes_say(rt: HostRuntime) -> Result<(), Fail> {
    expect_rows(&rt, rt.alloc(), GUESTS, 24)
}
