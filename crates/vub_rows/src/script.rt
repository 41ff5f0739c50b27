use serde_json::Value;
use std::alloc::Global;
use std::test::Fail;
use vub_base::OutOfMemory;
use vub_model::{GivenRegion, GivenRing, Info, Setup};
use vub_proto::{Part, Request};
use vub_script::{DeviceForm, Refusal, Script, draft_of_bytes, is_within_limits, script_of};

// What a text is: a script within the limits, one past them, or none.
#[derive(Clone, Copy, Debug, PartialEq, Eq)]
enum Verdict {
    Within,
    Past,
    None,
}

fn verdict_on(alloc: Global, text: &[u8]) -> Result<Verdict, Fail> {
    let draft = match draft_of_bytes(alloc, text) {
        Ok(draft) => draft,
        Err(Refusal::NoScript(_fault)) => return Ok(Verdict::None),
        Err(Refusal::OutOfMemory) => return Err(OutOfMemory.into()),
    };
    if is_within_limits(&draft) {
        Ok(Verdict::Within)
    } else {
        Ok(Verdict::Past)
    }
}

// Texts in the grammar and within the limits.
const SCRIPTS: &str = r#"{}
{ }
{"max_size":256,"rounds":"0x0","schedule":[]}
{"r\u006funds":3}
{"rounds":18446744073709551615,"rounds":0}
{"rounds":1.0,"rounds":1}
{"schedule":[0,4294967295,"0xffffffff","0x000000000000000a"]}
{"objects":[{"event":1},{"bytes":0},{"hex":""},{"hex":"09af"}]}
{"objects":[{"event":0,"event":1}]}
{"regions":[[18446744073709551615,0,"0x0",0,4294967295],[0,0,0,0,0]]}
{"rings":[]}
{"rings":[{"queue":0,"size":65535,"info":[0,0,0],"base":65535,"next_used":0,"kick":1,"call":2,"ready":true,"enabled":true}]}
{"rings":[{"enabled":false,"ready":false,"call":null,"kick":null,"next_used":0,"base":0,"info":null,"size":0,"queue":"0x0"}]}
{"guest":[["store",0,18446744073709551615,"00ff"],["signal",4294967295]]}
{"rings":[{"queue":1,"size":8,"info":null,"base":0,"next_used":0,"kick":null,"call":null,"ready":true,"enabled":true},{"queue":1,"size":8,"info":null,"base":0,"next_used":0,"kick":null,"call":null,"ready":true,"enabled":true}]}
{"queues":18446744073709551615,"features":0,"protocol":"0x20a","masks":[2,1],"config":"a5","exits":[null,4294967295],"refuse":[0,18446744073709551615]}
{"requests":[["set_owner"],["reset_owner"],["reset_device"],["get_queue_num"],["get_max_mem_slots"],["get_features"],["get_protocol_features"]]}
{"requests":[["set_features","0x40000000"],["set_protocol_features",18446744073709551615]]}
{"requests":[["set_mem_table",[],[]],["set_mem_table",[[0,1,2,3]],[4,5],false],["add_mem_region",[0,1,2,3],4],["add_mem_region",[0,1,2,3],4,true]]}
{"requests":[["remove_mem_region",0,18446744073709551615],["set_log_base",1,2,3]]}
{"requests":[["set_vring_num",0,4294967295],["set_vring_addr",0,0,"0x100000","0x102000","0x101000",0],["set_vring_base",0,"0x1ffff"],["get_vring_base",4294967295]]}
{"requests":[["set_vring_kick",0,null],["set_vring_call",0,1],["set_vring_err",0,null],["set_vring_enable",0,true]]}
{"requests":[["get_config",0,8,0],["set_config",4,"a5a5",0],["set_config",0,"",1],["set_backend_req_fd",0],["set_gpu_socket",0],["get_shared_object",18446744073709551615],["get_shmem_config"]]}
{"requests":[["check_device_state"],["set_device_state_fd",0,1,2],["get_inflight_fd"],["set_inflight_fd",0]]}
{"requests":[["register_listener",0,1,1,3],["unregister_listener",0,1,32,18446744073709551615],["send_exit"]]}
{"bitmap":"none","objects":[{"log":34},{"log":0}]}
{"bitmap":"pages","guest":[["harvest",4294967295,18446744073709551615]]}
{"schedule":[7],"rounds":1398101}
{"masks":[],"rounds":2097152}
{"masks":[1,2,4],"rounds":838860}
{"objects":[{"bytes":67108863},{"hex":"00"}]}"#;

// Texts in the grammar, past a limit.
const PAST_A_LIMIT: &str = r#"{"rounds":1398102}
{"schedule":[7,7],"rounds":1398101}
{"rounds":"0xffffffffffffffff"}
{"masks":[],"rounds":2097153}
{"masks":[1,2,4],"rounds":838861}
{"rounds":0,"rounds":18446744073709551615}
{"objects":[{"bytes":67108864},{"hex":"00"}]}
{"objects":[{"bytes":18446744073709551615}]}
{"objects":[{"log":4294967295}]}
{"objects":[{"bytes":9223372036854775808},{"bytes":9223372036854775808}]}"#;

// Texts that are no scripts.
const NO_SCRIPTS: &str = r#"
[]
null
{"objects":[
{"rounds":0,}
{} {}
{"rounds":"\ud800"}
{"rounds":01}
{"rounds":1e999}
{"Rounds":1}
{"service":"Echo"}
{"rounds":null}
{"rounds":1.0}
{"rounds":1e0}
{"rounds":-0}
{"rounds":-1}
{"rounds":18446744073709551616}
{"rounds":"1"}
{"rounds":"0x"}
{"rounds":"0X1"}
{"rounds":"0xA"}
{"rounds":"0x00000000000000001"}
{"schedule":[4294967296]}
{"schedule":0}
{"objects":[{"event":4294967296}]}
{"objects":[{"bytes":18446744073709551616}]}
{"objects":[{"hex":"0"}]}
{"objects":[{"hex":"0A"}]}
{"objects":[{"hex":10}]}
{"objects":[{"event":0,"bytes":0}]}
{"objects":[{"other":0}]}
{"objects":[{}]}
{"objects":[[]]}
{"regions":[[0,0,0,0]]}
{"regions":[[0,0,0,0,0,0]]}
{"regions":[[0,0,0,0,4294967296]]}
{"guest":[["store",0,0]]}
{"guest":[["store",0,0,"00",0]]}
{"guest":[["signal",0,0]]}
{"guest":[["signal"]]}
{"guest":[["other",0]]}
{"bitmap":"page"}
{"bitmap":true}
{"objects":[{"log":4294967296}]}
{"guest":[["harvest",0]]}
{"objects":[{"log":"four"}]}
{"guest":[["harvest",0,0,0]]}
{"queues":null}
{"masks":1}
{"masks":[null]}
{"config":[]}
{"exits":[4294967296]}
{"exits":null}
{"refuse":[null]}
{"requests":[[]]}
{"requests":["set_owner"]}
{"requests":[["set_owner",0]]}
{"requests":[["Set_owner"]]}
{"requests":[["set_owner_"]]}
{"requests":[[0]]}
{"requests":[["set_features"]]}
{"requests":[["set_features",null]]}
{"requests":[["set_mem_table",[[0,1,2]],[0]]]}
{"requests":[["set_mem_table",[[0,1,2,3]]]]}
{"requests":[["set_mem_table",[],[],null]]}
{"requests":[["set_mem_table",[],[],0]]}
{"requests":[["set_mem_table",[],[null]]]}
{"requests":[["add_mem_region",[0,1,2,3],4,true,0]]}
{"requests":[["add_mem_region",[[0,1,2,3]],4]]}
{"requests":[["set_log_base",1,2,null]]}
{"requests":[["set_vring_num",0,4294967296]]}
{"requests":[["set_vring_num",4294967296,8]]}
{"requests":[["set_vring_addr",0,0,0,0,0]]}
{"requests":[["set_vring_addr",4294967296,0,0,0,0,0]]}
{"requests":[["set_vring_base",0,4294967296]]}
{"requests":[["get_vring_base"]]}
{"requests":[["get_vring_base",null]]}
{"requests":[["set_vring_kick",0]]}
{"requests":[["set_vring_enable",0,1]]}
{"requests":[["set_config",0,0,0]]}
{"requests":[["set_config",0,"0",0]]}
{"requests":[["get_shared_object",18446744073709551616]]}
{"requests":[["get_shared_object","0x10000000000000000"]]}
{"requests":[["set_device_state_fd",0,1,null]]}
{"requests":[["register_listener",0,1,3]]}
{"requests":[["register_listener",0,1,[1],3]]}
{"requests":[["send_exit",0]]}
{"rings":[{"queue":0,"size":8,"info":null,"base":0,"next_used":0,"kick":null,"call":null,"ready":true}]}
{"rings":[{"queue":0,"size":8,"info":null,"base":0,"next_used":0,"kick":null,"call":null,"ready":true,"enabled":true,"other":0}]}
{"rings":[{"queue":0,"size":65536,"info":null,"base":0,"next_used":0,"kick":null,"call":null,"ready":true,"enabled":true}]}
{"rings":[{"queue":0,"size":8,"info":[0,0],"base":0,"next_used":0,"kick":null,"call":null,"ready":true,"enabled":true}]}
{"rings":[{"queue":0,"size":8,"info":null,"base":null,"next_used":0,"kick":null,"call":null,"ready":true,"enabled":true}]}
{"rings":[{"queue":0,"size":8,"info":null,"base":0,"next_used":0,"kick":null,"call":null,"ready":1,"enabled":true}]}"#;

#[test]
fn texts_in_the_grammar(rt: HostRuntime) -> Result<(), Fail> {
    let alloc = rt.alloc();
    for text in SCRIPTS.lines() {
        assert_eq!(rt;
            verdict_on(alloc, text.as_bytes())?,
            Verdict::Within,
            "{text}"
        );
    }
    for text in PAST_A_LIMIT.lines() {
        assert_eq!(rt;
            verdict_on(alloc, text.as_bytes())?,
            Verdict::Past,
            "{text}"
        );
    }
    Ok(())
}

#[test]
fn texts_that_are_no_scripts(rt: HostRuntime) -> Result<(), Fail> {
    let alloc = rt.alloc();
    for text in NO_SCRIPTS.lines() {
        assert_eq!(rt;
            verdict_on(alloc, text.as_bytes())?,
            Verdict::None,
            "{text}"
        );
    }
    // a byte order mark, and a text that is not UTF-8
    assert_eq!(rt; verdict_on(alloc, b"\xef\xbb\xbf{}")?, Verdict::None);
    assert_eq!(rt; verdict_on(alloc, b"{\"\xff\":0}")?, Verdict::None);
    Ok(())
}

// A script, and what it is written out to.
const WRITTEN: &str = r#"{
    "objects":[{"bytes":4},{"event":1},{"hex":"0aff"}],
    "regions":[[1,2,3,4,0]],
    "rings":[{"queue":0,"size":8,"info":[16,32,48],"base":5,"next_used":6,"kick":1,"call":null,"ready":true,"enabled":false}],
    "guest":[["signal",1]],
    "requests":[["get_shared_object",7],["set_mem_table",[[1,2,3,4]],[0],false]],
    "queues":3,
    "max_size":512,
    "masks":[5,2],
    "config":"a5",
    "exits":[null,1],
    "refuse":[4],
    "schedule":[2,7],
    "rounds":2
}"#;

fn is_setup_written(setup: &Setup) -> bool {
    let region = GivenRegion {
        start: 1,
        len: 2,
        user: 3,
        offset: 4,
        object: 0,
    };
    let ring = GivenRing {
        queue: 0,
        size: 8,
        info: Some(Info {
            desc: 16,
            avail: 32,
            used: 48,
        }),
        base: 5,
        next_used: 6,
        kick: Some(1),
        call: None,
        ready: true,
        enabled: false,
    };
    setup.objects.len() == 3
        && setup.guest.len() == 1
        && setup.regions.as_slice() == [region].as_slice()
        && setup.rings.as_slice() == [ring].as_slice()
}

fn are_requests_written(requests: &[Request]) -> bool {
    let given = Part {
        start: 1,
        len: 2,
        user: 3,
        offset: 4,
    };
    match requests {
        [
            Request::GetSharedObject { uuid },
            Request::SetMemTable {
                parts,
                contents,
                postcopy,
            },
        ] => {
            *uuid == 7
                && parts.as_slice() == [given].as_slice()
                && contents.as_slice() == [0].as_slice()
                && *postcopy == Some(false)
        }
        _ => false,
    }
}

fn is_device_written(device: &DeviceForm) -> bool {
    device.queues == 3
        && device.max_size == 512
        && device.masks.as_slice() == [5, 2].as_slice()
        && device.features == 0x1_6400_0000
        && device.protocol == 0x20a
        && device.config.as_slice() == b"\xa5".as_slice()
        && device.exits.as_slice() == [None, Some(1)].as_slice()
        && device.refuse.as_slice() == [4].as_slice()
}

fn is_written(script: &Script) -> bool {
    is_setup_written(&script.setup)
        && is_device_written(&script.device)
        && are_requests_written(script.setup.requests.as_slice())
        && script.schedule.as_slice() == [2, 7, 0, 1, 2, 3, 0, 1, 2, 3].as_slice()
}

#[test]
fn a_script_is_written_out(rt: HostRuntime) -> Result<(), Fail> {
    let alloc = rt.alloc();
    let value = Value::from_str(alloc, WRITTEN)?;
    let found = match script_of(alloc, &value) {
        Ok(Some(script)) => is_written(&script),
        Ok(None) | Err(OutOfMemory) => false,
    };
    assert!(rt; found);
    Ok(())
}
