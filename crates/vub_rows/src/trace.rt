use std::alloc::Global;
use std::test::Fail;
use vub_base::OutOfMemory;
use vub_share::{MemSink, MemSource, Sink, Source};
use vub_trace::trace_script;

/// A script in which one entry is echoed, and its trace.
const HELLO: &str = r#"{"objects":[{"bytes":65536},{"event":0},{"event":0}],
"regions":[["0x100000","0x10000","0x100000",0,0]],
"rings":[{"queue":0,"size":8,"info":["0x100000","0x101000","0x102000"],"base":0,"next_used":0,
    "kick":1,"call":2,"ready":true,"enabled":true}],
"guest":[["store",0,0,"0030100000000000050000000100010000401000000000001000000002000000"],
    ["store",0,12288,"68656c6c6f"],["store",0,4096,"000001000000"],["signal",1]],
"schedule":[0,0,0,0,2,2,2,2,2,2,0,2,2,2,2,2]}"#;

const HELLO_TRACE: &str = "\
0 guest store 0 0 0030100000000000050000000100010000401000000000001000000002000000
1 guest store 0 12288 68656c6c6f
2 guest store 0 4096 000001000000
3 guest signal 1
4 worker 0 poll 1
5 worker 0 event
6 worker 0 take 0 0 0 head 0 request 68656c6c6f room 16
7 worker 0 serve
8 worker 0 use 0 0 0 head 0 length 5 reply 68656c6c6f
9 worker 0 take nothing
10 guest pass
11 worker 0 poll bell
12 worker 0 event
13 worker 0 sweep
14 worker 0 take nothing
15 worker 0 pass
";

/// A listener is registered and heard, a request is refused, and the worker is told to stop; and its trace.
const LISTENER: &str = r#"{"objects":[{"event":0},{"event":0}],"exits":[1],
"requests":[["register_listener",0,0,1,7],["send_exit"],["set_vring_num",0,3]],
"guest":[["signal",0]],
"schedule":[1,1,0,2,2,2,1,1,1,2,2,2,2]}"#;

const LISTENER_TRACE: &str = "\
0 control request 0 listen 0 worker 0 token 7
1 control answer 0 ok
2 guest signal 0
3 worker 0 poll 0
4 worker 0 event
5 worker 0 device handle_event 7 0 ok
6 control request 1 ring 1
7 control answer 1 ok
8 control answer 2 InvalidParam
9 worker 0 poll 1
10 worker 0 event
11 worker 0 pass
12 worker 0 pass
stop 0 exit
";

fn traced(alloc: Global, script: &str) -> Result<(u8, String), OutOfMemory> {
    let words: Vec<String> = Vec::new(alloc);
    let input = Vec::from_slice(alloc, script.as_bytes())?;
    let mut source = MemSource::new(input, 4096, Vec::new(alloc));
    let mut sink = MemSink::new(alloc, 4096, 4096, Vec::new(alloc), Vec::new(alloc))?;
    let traced = trace_script(alloc, words.as_slice(), &mut source, &mut sink);
    let text = match std::str::from_utf8(sink.bytes()) {
        Ok(text) => String::from_str(alloc, text)?,
        Err(_) => String::new(alloc),
    };
    Ok((traced.status, text))
}

#[test]
fn each_turn_has_its_line(rt: HostRuntime) -> Result<(), Fail> {
    let alloc = rt.alloc();
    for (script, trace) in [(HELLO, HELLO_TRACE), (LISTENER, LISTENER_TRACE)] {
        let (status, text) = traced(alloc, script)?;
        assert_eq!(rt; status, 0);
        assert_eq!(rt; text.as_str(), trace);
    }
    Ok(())
}
