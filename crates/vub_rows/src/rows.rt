//! Scripts that say how they differ from the base script, each with the text of its run.

use crate::playing::{Played, expect, play, sound_streams};
use std::alloc::Global;
use std::process::Abort;
use std::test::Fail;
use vub_base::OutOfMemory;

/// The members of the base script. It has one content of 65536 zero bytes, which is guest memory from 0x100000 on; one
/// ring of 8 descriptors, kicked by event 1, calling by event 2; and a guest that stores two descriptors, the request
/// `hello` and one available entry, and then kicks.
pub const BASE: &str = r#""objects":[{"bytes":65536},{"event":0},{"event":0}],
"regions":[["0x100000","0x10000","0x100000",0,0]],
"rings":[{"queue":0,"size":8,"info":["0x100000","0x101000","0x102000"],"base":0,"next_used":0,
    "kick":1,"call":2,"ready":true,"enabled":true}],
"guest":[
    ["store",0,0,"0030100000000000050000000100010000401000000000001000000002000000"],
    ["store",0,12288,"68656c6c6f"],
    ["store",0,4096,"000001000000"],
    ["signal",1]],
"schedule":[0,0,0,0],
"rounds":12"#;

/// Plays this script without a fault.
pub fn played(alloc: Global, script: String) -> Result<Played, OutOfMemory> {
    let words: Vec<String> = Vec::new(alloc);
    play(
        alloc,
        words.as_slice(),
        script.into_bytes(),
        &sound_streams(),
    )
}

fn script_of(alloc: Global, changes: &str) -> Result<String, OutOfMemory> {
    let mut text = String::new(alloc);
    write!(text, "{{{BASE},{changes}}}")?;
    Ok(text)
}

/// The script that differs from the base script by these members has a run, and prints this text.
fn expect_row(
    rt: &impl Abort,
    alloc: Global,
    name: &str,
    changes: &str,
    text: &str,
) -> Result<(), Fail> {
    let played = played(alloc, script_of(alloc, changes)?)?;
    expect(rt, name, &played, 0, text);
    Ok(())
}

/// Each row of the table has a run and prints its text, and the table has so many rows. A row is a line `# NAME`, what it
/// shows; lines with the members that stand behind the base script's, of which of equal keys the last one counts; and a
/// line `> LINE` for each line of its text.
pub fn expect_rows(rt: &impl Abort, alloc: Global, table: &str, count: u64) -> Result<(), Fail> {
    let mut begun = 0u64;
    let mut name = String::new(alloc);
    let mut changes = String::new(alloc);
    let mut text = String::new(alloc);
    for line in table.lines() {
        if let Some(next) = line.strip_prefix("# ") {
            if begun > 0 {
                expect_row(rt, alloc, name.as_str(), changes.as_str(), text.as_str())?;
            }
            begun = begun.saturating_add(1);
            name = String::from_str(alloc, next)?;
            changes = String::new(alloc);
            text = String::new(alloc);
        } else if let Some(said) = line.strip_prefix("> ") {
            write!(text, "{said}\n")?;
        } else {
            write!(changes, "{line}")?;
        }
    }
    expect_row(rt, alloc, name.as_str(), changes.as_str(), text.as_str())?;
    assert_eq!(rt; begun, count);
    Ok(())
}
