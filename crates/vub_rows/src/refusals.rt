//! Inputs that have no run, each with the line that says why: the place as a JSON pointer and the rule, or the number
//! and the limit, or the test that the set-up fails.

use std::alloc::Global;
use std::process::Abort;
use std::test::Fail;
use vub_base::OutOfMemory;
use vub_share::{MemSource, NoRun, Script, play_script, read_script};

/// Inputs that are no scripts, each with its line.
const NO_SCRIPTS: &str = r#"{"objects":[
> line 1, column 12: no JSON text (RFC 8259 in UTF-8, nested at most 127 deep)
{"rounds":
 01}
> line 2, column 2: no JSON text (RFC 8259 in UTF-8, nested at most 127 deep)
{} {}
> line 1, column 4: no JSON text (RFC 8259 in UTF-8, nested at most 127 deep)
[]
> a script is an object
{"object":[]}
> /object: no such key; a script has service, objects, regions, rings, requests, guest, queues, max_size, masks, features, protocol, config, bitmap, exits, refuse, schedule, rounds
{"a/b~c":0}
> /a~1b~0c: no such key; a script has service, objects, regions, rings, requests, guest, queues, max_size, masks, features, protocol, config, bitmap, exits, refuse, schedule, rounds
{"service":"Echo"}
> /service: a service is "echo", {"dir":[entry,..]} or {"block":sectors,"id":HEX}
{"service":{"dir":[],"block":[]}}
> /service: a service is "echo", {"dir":[entry,..]} or {"block":sectors,"id":HEX}
{"service":{"block":8}}
> /service/id: this key has to be given
{"service":{"block":4294967296,"id":""}}
> /service/block: this number is below 4294967296
{"service":{"block":131073,"id":""}}
> /service: this is no disk: disk has more than 131072 sectors
{"service":{"block":8,"id":"000000000000000000000000000000000000000000"}}
> /service: this is no disk: id has more than 20 bytes
{"service":{"dir":{}}}
> /service/dir: here stands a list
{"service":{"dir":[{"name":"a"}]}}
> /service/dir/0/hex: this key has to be given
{"service":{"dir":[{"name":"a","hex":"0"}]}}
> /service/dir/0/hex: bytes are a text of an even count of digits 0-9a-f
{"service":{"dir":[{"name":"a","hex":"","size":0}]}}
> /service/dir/0: an entry is {"name":TEXT,"hex":HEX} or {"name":TEXT,"entries":[entry,..]}
{"service":{"dir":[{"name":"a","hex":""},{"name":"s","entries":[{"name":1,"hex":""}]}]}}
> /service/dir/1/entries/0: an entry is {"name":TEXT,"hex":HEX} or {"name":TEXT,"entries":[entry,..]}
{"service":{"dir":[{"name":"s","entries":0}]}}
> /service/dir/0: an entry is {"name":TEXT,"hex":HEX} or {"name":TEXT,"entries":[entry,..]}
{"service":{"dir":[{"name":"..","hex":""}]}}
> /service/dir: these entries are no directory: not a name of a file or directory
{"service":{"dir":[{"name":"a","hex":""},{"name":"a","entries":[]}]}}
> /service/dir: these entries are no directory: a directory has the name twice
{"objects":{}}
> /objects: here stands a list
{"objects":[{"event":0},{"event":4294967296}]}
> /objects/1/event: this number is below 4294967296
{"objects":[{"bytes":18446744073709551616}]}
> /objects/0/bytes: a number is a whole number from 0 to 18446744073709551615, or "0x" and 1 to 16 digits 0-9a-f
{"objects":[{"bytes":-1}]}
> /objects/0/bytes: a number is a whole number from 0 to 18446744073709551615, or "0x" and 1 to 16 digits 0-9a-f
{"objects":[{"byte":0}]}
> /objects/0: an object is {"event":flags}, {"bytes":length}, {"hex":HEX} or {"log":length}
{"objects":[{"event":0,"bytes":0}]}
> /objects/0: an object is {"event":flags}, {"bytes":length}, {"hex":HEX} or {"log":length}
{"objects":[{"hex":"0A"}]}
> /objects/0/hex: bytes are a text of an even count of digits 0-9a-f
{"regions":[[0,0,0,0]]}
> /regions/0: a region is [start,len,user,offset,object]
{"regions":[[0,0,"0x",0,0]]}
> /regions/0/2: a number is a whole number from 0 to 18446744073709551615, or "0x" and 1 to 16 digits 0-9a-f
{"rings":[{"queue":0,"size":8,"info":null,"base":0,"next_used":0,"kick":null,"call":null,"ready":true,"enabled":true},{"queue":0,"siez":8,"info":null,"base":0,"next_used":0,"kick":null,"call":null,"ready":true,"enabled":true}]}
> /rings/1/siez: no such key; a ring has queue, size, info, base, next_used, kick, call, ready, enabled
{"rings":[{"queue":0,"size":8,"info":null,"base":0,"next_used":0,"kick":null,"call":null,"ready":true,"enabled":true},{"queue":0,"size":8,"info":null,"next_used":0,"kick":null,"call":null,"ready":true,"enabled":true}]}
> /rings/1/base: this key has to be given
{"rings":[{"queue":0,"size":8,"info":null,"base":0,"next_used":0,"kick":null,"call":null,"ready":true,"enabled":true},{"queue":0,"size":65536,"info":null,"base":0,"next_used":0,"kick":null,"call":null,"ready":true,"enabled":true}]}
> /rings/1/size: this number is below 65536
{"rings":[{"queue":0,"size":8,"info":null,"base":0,"next_used":0,"kick":null,"call":null,"ready":true,"enabled":true},{"queue":0,"size":8,"info":[0,0],"base":0,"next_used":0,"kick":null,"call":null,"ready":true,"enabled":true}]}
> /rings/1/info: a ring's addresses are [desc,avail,used]
{"rings":[{"queue":0,"size":8,"info":null,"base":0,"next_used":0,"kick":null,"call":null,"ready":true,"enabled":true},{"queue":0,"size":8,"info":[0,0,1.0],"base":0,"next_used":0,"kick":null,"call":null,"ready":true,"enabled":true}]}
> /rings/1/info/2: a number is a whole number from 0 to 18446744073709551615, or "0x" and 1 to 16 digits 0-9a-f
{"rings":[{"queue":0,"size":8,"info":null,"base":0,"next_used":0,"kick":null,"call":null,"ready":true,"enabled":true},{"queue":0,"size":8,"info":null,"base":0,"next_used":0,"kick":null,"call":null,"ready":1,"enabled":true}]}
> /rings/1/ready: a truth value is true or false
{"rings":[[]]}
> /rings/0: a ring is an object
{"requests":["set_owner"]}
> /requests/0: a request is a list of its name and its arguments
{"requests":[["set_owner"],["set_ower"]]}
> /requests/1: no such request
{"requests":[["set_owner",0]]}
> /requests/0: here stands another number of arguments
{"requests":[["set_vring_kick",0,"x"]]}
> /requests/0/2: a number is a whole number from 0 to 18446744073709551615, or "0x" and 1 to 16 digits 0-9a-f
{"requests":[["set_vring_addr",0,0,0,0,0]]}
> /requests/0: here stands another number of arguments
{"requests":[["set_mem_table",[[0,1,2,3],[0,1,2]],[0]]]}
> /requests/0/1/1: a region in a request is [start,len,user,offset]
{"requests":[["set_vring_enable",0,null]]}
> /requests/0/2: a truth value is true or false
{"guest":[["signal"]]}
> /guest/0: here stands another number of arguments
{"guest":[["store",0,0,"0x00"]]}
> /guest/0/3: bytes are a text of an even count of digits 0-9a-f
{"guest":[["signal",1e0]]}
> /guest/0/1: a number is a whole number from 0 to 18446744073709551615, or "0x" and 1 to 16 digits 0-9a-f
{"masks":[1,null]}
> /masks/1: a number is a whole number from 0 to 18446744073709551615, or "0x" and 1 to 16 digits 0-9a-f
{"exits":[null,4294967296]}
> /exits/1: this number is below 4294967296
{"config":[]}
> /config: bytes are a text of an even count of digits 0-9a-f
{"schedule":[0,true]}
> /schedule/1: a number is a whole number from 0 to 18446744073709551615, or "0x" and 1 to 16 digits 0-9a-f
"#;

/// Scripts that can't be run, each with its line.
const UNFIT: &str = r#"{"rounds":18446744073709551615}
> there are 55340232221128654845 turns, and at most 4194304 are allowed
{"objects":[{"bytes":67108864},{"hex":"00"}]}
> the contents have 67108865 bytes together, and at most 67108864 are allowed
{"queues":65}
> /queues: at most 64 queues are allowed
{"max_size":3}
> /max_size: this is to be a power of two from 1 to 32768
{"exits":[0]}
> /exits/0: this is to be an event's number
{"regions":[[0,1,0,0,0]]}
> /regions/0: a region's object is to be a content; regions are not empty, stand in order and apart, and end within their content and the addresses
{"rings":[{"queue":0,"size":7,"info":null,"base":0,"next_used":0,"kick":null,"call":null,"ready":true,"enabled":true}]}
> /rings/0: a ring's queue is to be one of the device's and given once, its size a power of two up to max_size, its addresses multiples of 16, 2 and 4, its kick and call events, and its kick no other ring's and no exit
{"requests":[["set_owner"],["set_vring_kick",0,0]]}
> /requests/1: a request is to name objects that are there, events where it wants them and contents where it wants those, a log for set_log_base, and a worker that is there
{"objects":[{"bytes":1}],"guest":[["store",0,1,"00"]]}
> /guest/0: an action is to store within a content that is there, to signal an event or to harvest a word that its log has, and there are at most 1048576
"#;

/// Why the input has no run. One that has a run gives want of memory.
fn why(alloc: Global, input: &str) -> Result<NoRun, OutOfMemory> {
    let input = Vec::from_slice(alloc, input.as_bytes())?;
    let mut source = MemSource::new(input, 4096, Vec::new(alloc));
    match read_script(alloc, &mut source) {
        Ok(script) => {
            let Script {
                setup,
                device,
                service,
                schedule,
            } = script;
            match play_script(alloc, &setup, device, service, schedule.as_slice()) {
                Ok(_) => Ok(NoRun::Memory),
                Err(why) => Ok(why),
            }
        }
        Err(why) => Ok(why),
    }
}

/// Each input of the table has no run, and says why by its line, and the table has so many. An input is one or more lines,
/// and its line follows it as `> LINE`.
fn expect_refusals(rt: &impl Abort, alloc: Global, table: &str, count: u64) -> Result<(), Fail> {
    let mut seen = 0u64;
    let mut input = String::new(alloc);
    for line in table.lines() {
        if let Some(said) = line.strip_prefix("> ") {
            let told = format!(in alloc; "{}", why(alloc, input.as_str())?)?;
            assert_eq!(rt; told.as_str(), said, "{input}");
            seen = seen.saturating_add(1);
            input = String::new(alloc);
        } else if input.is_empty() {
            write!(input, "{line}")?;
        } else {
            write!(input, "\n{line}")?;
        }
    }
    assert_eq!(rt; seen, count);
    Ok(())
}

#[test]
fn each_refusal_says_its_place_and_rule(rt: HostRuntime) -> Result<(), Fail> {
    expect_refusals(&rt, rt.alloc(), NO_SCRIPTS, 50)?;
    expect_refusals(&rt, rt.alloc(), UNFIT, 9)
}
