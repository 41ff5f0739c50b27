//! Scripts whose run prints the text that is said of them.

use crate::base::{Case, base, script_of};
use crate::playing::{Played, expect, play, sound_streams};
use std::alloc::Global;
use std::process::Abort;
use std::test::Fail;
use vub_base::OutOfMemory;

/// Plays the case's script without a fault.
fn played(alloc: Global, case: &Case) -> Result<Played, OutOfMemory> {
    let script = script_of(alloc, case)?;
    let words: Vec<String> = Vec::new(alloc);
    play(
        alloc,
        words.as_slice(),
        script.into_bytes(),
        &sound_streams(),
    )
}

/// Each case has a run and prints its text.
pub fn expect_texts(rt: &impl Abort, alloc: Global, cases: &[Case]) -> Result<(), Fail> {
    for case in cases {
        let played = played(alloc, case)?;
        expect(rt, case.name, &played, 0, case.text);
    }
    Ok(())
}

fn plain_cases() -> [Case; 8] {
    [
        base(),
        Case {
            name: "without turns nothing happens, and the guest has steps left",
            turns: r#""schedule":[]"#,
            text: "turns 0 played 0 rest no\n",
            ..base()
        },
        Case {
            name: "work drains: after 14 steps nothing is left, however many turns follow",
            turns: r#""schedule":[0,0,0,0],"rounds":100"#,
            text: "turns 304 played 14 rest yes
take 0 0 0 head 0 request 68656c6c6f room 16
use 0 0 0 head 0 length 5 reply 68656c6c6f
count 2 1
write 0 8194 01000000000005000000
write 0 16384 68656c6c6f
",
            ..base()
        },
        Case {
            name: "two regions side by side are one memory",
            regions: r#"["0x100000","0x4000","0x100000",0,0],["0x104000","0xc000","0x104000",16384,0]"#,
            ..base()
        },
        Case {
            name: "a ring that is not ready leaves the kick counted",
            ready: false,
            text: "turns 40 played 4 rest yes\ncount 1 1\n",
            ..base()
        },
        Case {
            name: "a ring without a kick is not registered, and its entry stays",
            kick: "null",
            text: "turns 40 played 4 rest yes\ncount 1 1\n",
            ..base()
        },
        Case {
            name: "eight entries with the same head are taken and used",
            available: "0000080000000000000000000000000000000000",
            turns: r#""schedule":[0,0,0,0],"rounds":40"#,
            text: "turns 124 played 35 rest yes
take 0 0 0 head 0 request 68656c6c6f room 16
take 0 0 1 head 0 request 68656c6c6f room 16
take 0 0 2 head 0 request 68656c6c6f room 16
take 0 0 3 head 0 request 68656c6c6f room 16
take 0 0 4 head 0 request 68656c6c6f room 16
take 0 0 5 head 0 request 68656c6c6f room 16
take 0 0 6 head 0 request 68656c6c6f room 16
take 0 0 7 head 0 request 68656c6c6f room 16
use 0 0 0 head 0 length 5 reply 68656c6c6f
use 0 0 1 head 0 length 5 reply 68656c6c6f
use 0 0 2 head 0 length 5 reply 68656c6c6f
use 0 0 3 head 0 length 5 reply 68656c6c6f
use 0 0 4 head 0 length 5 reply 68656c6c6f
use 0 0 5 head 0 length 5 reply 68656c6c6f
use 0 0 6 head 0 length 5 reply 68656c6c6f
use 0 0 7 head 0 length 5 reply 68656c6c6f
count 2 8
write 0 8194 080000000000050000000000000005000000000000000500000000000000050000000000000005000000000000000500000000000000050000000000000005000000
write 0 16384 68656c6c6f
",
            ..base()
        },
        Case {
            name: "a descriptor that leads to itself",
            descriptors: "0030100000000000050000000100000000401000000000001000000002000000",
            text: "turns 40 played 7 rest yes\nstop 0 HandleEventBackendHandling TooLong\n",
            ..base()
        },
    ]
}

#[test]
fn scripts_print_their_runs(rt: HostRuntime) -> Result<(), Fail> {
    expect_texts(&rt, rt.alloc(), &plain_cases())
}
