//! Inputs that are no script or past a limit, and streams with faults: each has its status.

use crate::playing::{Streams, expect, play, sound_streams};
use std::alloc::Global;
use std::process::Abort;
use std::test::Fail;

/// The text of a run without turns.
const NO_TURNS: &str = "turns 0 played 0 rest yes\n";

/// An input, how the streams behave, the status and what is written.
#[derive(Drop)]
struct Case {
    name: &'static str,
    input: &'static str,
    streams: Streams,
    status: u8,
    written: &'static str,
}

fn plain(name: &'static str, input: &'static str, status: u8) -> Case {
    Case {
        name,
        input,
        streams: sound_streams(),
        status,
        written: "",
    }
}

fn inputs() -> [Case; 8] {
    [
        Case {
            written: NO_TURNS,
            ..plain("an empty script has a run", "{}", 0)
        },
        plain("JSON that breaks off", r#"{"objects":["#, 2),
        plain("no bytes", "", 2),
        plain("a list is no script", "[]", 2),
        plain("an unknown key", r#"{"object":[]}"#, 2),
        plain(
            "more turns than can be",
            r#"{"rounds":18446744073709551615}"#,
            3,
        ),
        plain(
            "a content longer than memory",
            r#"{"objects":[{"bytes":9223372036854775808}]}"#,
            3,
        ),
        plain(
            "a greatest queue size that is no power of two",
            r#"{"max_size":3}"#,
            3,
        ),
    ]
}

/// Scripts whose set-up can't be run.
fn set_ups() -> [Case; 7] {
    [
        plain("65 queues", r#"{"queues":65}"#, 3),
        plain("an exit object that is not there", r#"{"exits":[0]}"#, 3),
        plain(
            "a kick that is not there",
            r#"{"requests":[["set_vring_kick",9,0]]}"#,
            3,
        ),
        plain(
            "a content for a kick",
            r#"{"objects":[{"bytes":1}],"requests":[["set_vring_kick",0,0]]}"#,
            3,
        ),
        plain(
            "a surplus content that is not there, and postcopy",
            r#"{"requests":[["set_mem_table",[],[0],true]]}"#,
            3,
        ),
        plain(
            "a worker that is not there",
            r#"{"objects":[{"event":0}],"requests":[["register_listener",1,0,0,0]]}"#,
            3,
        ),
        plain(
            "a log",
            r#"{"objects":[{"bytes":1}],"requests":[["set_log_base",1,0,0]]}"#,
            3,
        ),
    ]
}

fn faults() -> [Case; 5] {
    [
        Case {
            streams: Streams {
                failing_read: Some(0),
                ..sound_streams()
            },
            ..plain("the first read fails", "{}", 4)
        },
        Case {
            streams: Streams {
                read_piece: 5,
                failing_read: Some(1),
                ..sound_streams()
            },
            ..plain(
                "the second read fails, in the middle of a text that breaks off",
                r#"{"objects":["#,
                4,
            )
        },
        Case {
            streams: Streams {
                failing_write: Some(0),
                ..sound_streams()
            },
            ..plain("the first write fails", "{}", 5)
        },
        Case {
            streams: Streams {
                write_piece: 3,
                failing_write: Some(1),
                ..sound_streams()
            },
            written: "tur",
            ..plain("three bytes are written, then a write fails", "{}", 5)
        },
        Case {
            streams: Streams {
                write_piece: 3,
                stalling_write: Some(1),
                ..sound_streams()
            },
            written: "tur",
            ..plain("a write takes none of its piece", "{}", 5)
        },
    ]
}

/// Each case, without words, ends with its status and writes its text.
fn expect_statuses(rt: &impl Abort, alloc: Global, cases: &[Case]) -> Result<(), Fail> {
    let words: Vec<String> = Vec::new(alloc);
    for case in cases {
        let input = Vec::from_slice(alloc, case.input.as_bytes())?;
        let played = play(alloc, words.as_slice(), input, &case.streams)?;
        expect(rt, case.name, &played, case.status, case.written);
    }
    Ok(())
}

#[test]
fn each_input_has_its_status(rt: HostRuntime) -> Result<(), Fail> {
    expect_statuses(&rt, rt.alloc(), &inputs())?;
    expect_statuses(&rt, rt.alloc(), &set_ups())
}

#[test]
fn each_fault_has_its_status(rt: HostRuntime) -> Result<(), Fail> {
    expect_statuses(&rt, rt.alloc(), &faults())
}

/// Of an input that is one byte too long the last byte is the first of the read numbered 256; later reads are not made.
#[test]
fn no_byte_past_a_long_input_is_read(rt: HostRuntime) -> Result<(), Fail> {
    let alloc = rt.alloc();
    let words: Vec<String> = Vec::new(alloc);
    for (failing, status) in [(257, 7), (256, 4)] {
        let input = vec![in alloc; b' '; 16777218]?;
        let streams = Streams {
            read_piece: 65536,
            failing_read: Some(failing),
            ..sound_streams()
        };
        let played = play(alloc, words.as_slice(), input, &streams)?;
        expect(&rt, "a long input", &played, status, "");
    }
    Ok(())
}

#[test]
fn words_are_refused(rt: HostRuntime) -> Result<(), Fail> {
    let alloc = rt.alloc();
    let words = vec![in alloc; String::from_str(alloc, "x")?]?;
    let script = Vec::from_slice(alloc, b"{}")?;
    let played = play(alloc, words.as_slice(), script, &sound_streams())?;
    expect(&rt, "a word after the script", &played, 1, "");
    Ok(())
}
