//! The generated script, and the words that ask for it.

use crate::playing::{Played, expect, play, sound_streams};
use crate::rows::played;
use std::alloc::Global;
use std::test::Fail;
use vub_base::{Bytes, OutOfMemory};
use vub_share::{Script, make_script, play_script, print_run};

/// Words, the status and what is written.
const WORDS: [(&str, u8, &str); 12] = [
    (
        "make 0",
        0,
        "make 0 turns 8 takes 0 uses 0 bytes 0 rest yes\n",
    ),
    (
        "make 1",
        0,
        "make 1 turns 21 takes 1 uses 1 bytes 8 rest yes\n",
    ),
    (
        "make 300",
        0,
        "make 300 turns 3908 takes 300 uses 300 bytes 2400 rest yes\n",
    ),
    ("x", 1, ""),
    ("make", 1, ""),
    ("make 1 1", 1, ""),
    ("make 01", 1, ""),
    ("make +1", 1, ""),
    ("make -1", 1, ""),
    ("make 100001", 1, ""),
    ("make 4294967296", 1, ""),
    ("Make 1", 1, ""),
];

/// The script that `make 3` plays, as `tools/make_script.py` writes it.
const THREE: &str = r#"{"max_size":256,"objects":[{"bytes":1048576},{"event":0},{"event":0}],
"regions":[["0x100000",1048576,"0x100000",0,0]],
"rings":[{"queue":0,"size":256,"info":["0x100000","0x102000","0x104000"],"base":0,"next_used":0,"kick":1,"call":2,"ready":true,"enabled":true}],
"guest":[
["store",0,65536,"0000000000000000"],
["store",0,0,"0000110000000000080000000100010010001100000000001000000002000000"],
["store",0,8196,"0000"],
["store",0,8194,"0100"],
["signal",1],
["store",0,65568,"0100000000000000"],
["store",0,32,"2000110000000000080000000100030030001100000000001000000002000000"],
["store",0,8198,"0200"],
["store",0,8194,"0200"],
["signal",1],
["store",0,65600,"0200000000000000"],
["store",0,64,"4000110000000000080000000100050050001100000000001000000002000000"],
["store",0,8200,"0400"],
["store",0,8194,"0300"],
["signal",1]],
"schedule":[0,0,0,0,0,2,2,2,2,2,2,2,2,0,0,0,0,0,2,2,2,2,2,2,2,2,0,0,0,0,0,2,2,2,2,2,2,2,2,2,2,2,2,2,2,2,2]}"#;

fn words_in(alloc: Global, line: &str) -> Result<Vec<String>, OutOfMemory> {
    let mut words = Vec::new(alloc);
    for word in line.split(' ') {
        words.push(String::from_str(alloc, word)?)?;
    }
    Ok(words)
}

fn played_with(alloc: Global, line: &str) -> Result<Played, OutOfMemory> {
    let words = words_in(alloc, line)?;
    let input = Vec::from_slice(alloc, b"{")?;
    play(alloc, words.as_slice(), input, &sound_streams())
}

#[test]
fn each_of_these_words_has_its_answer(rt: HostRuntime) -> Result<(), Fail> {
    let alloc = rt.alloc();
    for (line, status, written) in WORDS {
        expect(&rt, line, &played_with(alloc, line)?, status, written);
    }
    Ok(())
}

/// The text of the run of the generated script with three entries.
fn text_of_three(alloc: Global) -> Result<Bytes, OutOfMemory> {
    let Script {
        setup,
        device,
        service,
        schedule,
    } = make_script(alloc, 3)?;
    match play_script(alloc, &setup, device, service, schedule.as_slice()) {
        Ok(run) => print_run(alloc, &run),
        Err(_) => Err(OutOfMemory),
    }
}

#[test]
fn the_generated_script_has_the_run_of_its_text(rt: HostRuntime) -> Result<(), Fail> {
    let alloc = rt.alloc();
    let read = played(alloc, String::from_str(alloc, THREE)?)?;
    let made = text_of_three(alloc)?;
    assert_eq!(rt; read.status, 0);
    assert_eq!(rt; made.as_slice(), read.written.as_slice());
    Ok(())
}
