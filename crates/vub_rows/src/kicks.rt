//! Kicks that come at every place between the small steps of a stop and a start, of a disable and an enable, and of a
//! kick that is replaced: each entry is published with a signal of the event that is the queue's kick then, or is to be,
//! and is used.

use crate::playing::expect;
use crate::rows::{BASE, played};
use std::alloc::Global;
use std::process::Abort;
use std::test::Fail;
use vub_base::OutOfMemory;

/// Where the kick comes, and what it leaves to be seen.
#[derive(Drop)]
struct Place {
    /// The event that the guest signals.
    kick: u32,
    /// The first line of the text.
    line: &'static str,
    /// The lines of the counts.
    counts: &'static str,
}

/// Requests, and what each place among their small steps gives. Place number n comes after n of them.
#[derive(Drop)]
struct Family {
    name: &'static str,
    /// Members that stand behind the base script's.
    changes: &'static str,
    /// How many small steps control plays first of all. Then the worker has four turns, in which it finds the ring
    /// empty.
    before: usize,
    places: &'static [Place],
    /// The lines of the answers and of the device.
    answers: &'static str,
}

/// The stop has 8 small steps (ready off, out of pending set and list, the device, no kick, no call, release, answer),
/// and the start 7 (claim, the kick, ready, into list and pending set, the bell, answer).
const STOP: [Place; 16] = [
    Place {
        kick: 1,
        line: "turns 80 played 32 rest yes",
        counts: "",
    },
    Place {
        kick: 1,
        line: "turns 81 played 32 rest yes",
        counts: "",
    },
    Place {
        kick: 1,
        line: "turns 82 played 33 rest yes",
        counts: "",
    },
    Place {
        kick: 1,
        line: "turns 83 played 33 rest yes",
        counts: "",
    },
    Place {
        kick: 1,
        line: "turns 84 played 33 rest yes",
        counts: "",
    },
    Place {
        kick: 1,
        line: "turns 85 played 33 rest yes",
        counts: "",
    },
    Place {
        kick: 1,
        line: "turns 86 played 33 rest yes",
        counts: "",
    },
    Place {
        kick: 1,
        line: "turns 87 played 33 rest yes",
        counts: "",
    },
    Place {
        kick: 1,
        line: "turns 88 played 33 rest yes",
        counts: "",
    },
    Place {
        kick: 1,
        line: "turns 89 played 33 rest yes",
        counts: "",
    },
    Place {
        kick: 1,
        line: "turns 90 played 33 rest yes",
        counts: "",
    },
    Place {
        kick: 1,
        line: "turns 91 played 33 rest yes",
        counts: "",
    },
    Place {
        kick: 1,
        line: "turns 92 played 33 rest yes",
        counts: "",
    },
    Place {
        kick: 1,
        line: "turns 93 played 33 rest yes",
        counts: "",
    },
    Place {
        kick: 1,
        line: "turns 94 played 33 rest yes",
        counts: "",
    },
    Place {
        kick: 1,
        line: "turns 95 played 33 rest yes",
        counts: "",
    },
];

fn a_stop_and_a_start() -> Family {
    Family {
        name: "a stop and a start",
        changes: r#""requests":[["get_vring_base",0],["set_vring_kick",0,1]]"#,
        before: 0,
        places: &STOP,
        answers: "answer 0 base 0 0
answer 1 ok
device stop_vring 0 0 ok
",
    }
}

/// The flag goes off in 4 small steps (off, out of pending set and list, answer) and on in 5 (on, into list and pending
/// set, the bell, answer). Before them bit 30 is acknowledged, in 4.
const DISABLE: [Place; 10] = [
    Place {
        kick: 1,
        line: "turns 84 played 30 rest yes",
        counts: "count 2 1\n",
    },
    Place {
        kick: 1,
        line: "turns 85 played 30 rest yes",
        counts: "count 2 1\n",
    },
    Place {
        kick: 1,
        line: "turns 86 played 31 rest yes",
        counts: "count 2 1\n",
    },
    Place {
        kick: 1,
        line: "turns 87 played 31 rest yes",
        counts: "count 2 1\n",
    },
    Place {
        kick: 1,
        line: "turns 88 played 31 rest yes",
        counts: "count 2 1\n",
    },
    Place {
        kick: 1,
        line: "turns 89 played 31 rest yes",
        counts: "count 2 1\n",
    },
    Place {
        kick: 1,
        line: "turns 90 played 31 rest yes",
        counts: "count 2 1\n",
    },
    Place {
        kick: 1,
        line: "turns 91 played 31 rest yes",
        counts: "count 2 1\n",
    },
    Place {
        kick: 1,
        line: "turns 92 played 31 rest yes",
        counts: "count 2 1\n",
    },
    Place {
        kick: 1,
        line: "turns 93 played 31 rest yes",
        counts: "count 2 1\n",
    },
];

fn a_disable_and_an_enable() -> Family {
    Family {
        name: "a disable and an enable",
        changes: r#""requests":[
    ["set_features","0x40000000"],
    ["set_vring_enable",0,false],
    ["set_vring_enable",0,true]]"#,
        before: 4,
        places: &DISABLE,
        answers: "answer 0 ok
answer 1 ok
answer 2 ok
device set_event_idx 0 0 ok
device acked_features 1073741824 0 ok
",
    }
}

/// Event 3 is the kick after 4 of 9 small steps (claim, out of pending set and list, the kick, release, into list and
/// pending set, the bell, answer).
const REPLACE: [Place; 10] = [
    Place {
        kick: 1,
        line: "turns 80 played 27 rest yes",
        counts: "count 2 1\n",
    },
    Place {
        kick: 1,
        line: "turns 81 played 27 rest yes",
        counts: "count 2 1\n",
    },
    Place {
        kick: 1,
        line: "turns 82 played 24 rest yes",
        counts: "count 1 1\ncount 2 1\n",
    },
    Place {
        kick: 1,
        line: "turns 83 played 24 rest yes",
        counts: "count 1 1\ncount 2 1\n",
    },
    Place {
        kick: 3,
        line: "turns 84 played 27 rest yes",
        counts: "count 2 1\n",
    },
    Place {
        kick: 3,
        line: "turns 85 played 27 rest yes",
        counts: "count 2 1\n",
    },
    Place {
        kick: 3,
        line: "turns 86 played 27 rest yes",
        counts: "count 2 1\n",
    },
    Place {
        kick: 3,
        line: "turns 87 played 27 rest yes",
        counts: "count 2 1\n",
    },
    Place {
        kick: 3,
        line: "turns 88 played 27 rest yes",
        counts: "count 2 1\n",
    },
    Place {
        kick: 3,
        line: "turns 89 played 27 rest yes",
        counts: "count 2 1\n",
    },
];

fn a_kick_that_is_replaced() -> Family {
    Family {
        name: "a kick that is replaced",
        changes: r#""objects":[{"bytes":65536},{"event":0},{"event":0},{"event":0}],
"requests":[["set_vring_kick",0,3]]"#,
        before: 0,
        places: &REPLACE,
        answers: "answer 0 ok
",
    }
}

/// A ring without a kick gets one, in 7 small steps (claim, the kick, ready, into list and pending set, the bell,
/// answer).
const START: [Place; 8] = [
    Place {
        kick: 1,
        line: "turns 80 played 21 rest yes",
        counts: "count 2 1\n",
    },
    Place {
        kick: 1,
        line: "turns 81 played 21 rest yes",
        counts: "count 2 1\n",
    },
    Place {
        kick: 1,
        line: "turns 82 played 21 rest yes",
        counts: "count 2 1\n",
    },
    Place {
        kick: 1,
        line: "turns 83 played 21 rest yes",
        counts: "count 2 1\n",
    },
    Place {
        kick: 1,
        line: "turns 84 played 21 rest yes",
        counts: "count 2 1\n",
    },
    Place {
        kick: 1,
        line: "turns 85 played 21 rest yes",
        counts: "count 2 1\n",
    },
    Place {
        kick: 1,
        line: "turns 86 played 21 rest yes",
        counts: "count 2 1\n",
    },
    Place {
        kick: 1,
        line: "turns 87 played 21 rest yes",
        counts: "count 2 1\n",
    },
];

fn a_start() -> Family {
    Family {
        name: "a start",
        changes: r#""rings":[
    {"queue":0,"size":8,"info":["0x100000","0x101000","0x102000"],"base":0,"next_used":0,"kick":null,"call":2,"ready":false,"enabled":true}],
"requests":[["set_vring_kick",0,1]]"#,
        before: 0,
        places: &START,
        answers: "answer 0 ok
",
    }
}

/// What the guest stores: two descriptors, the request `hello` and one available entry.
const STORES: &str =
    r#"["store",0,0,"0030100000000000050000000100010000401000000000001000000002000000"],
["store",0,12288,"68656c6c6f"],["store",0,4096,"000001000000"]"#;

const TAKEN_AND_USED: &str = "take 0 0 0 head 0 request 68656c6c6f room 16
use 0 0 0 head 0 length 5 reply 68656c6c6f
";

const WRITTEN: &str = "write 0 8194 01000000000005000000
write 0 16384 68656c6c6f
";

fn push_control(text: &mut String, turns: usize) -> Result<(), OutOfMemory> {
    for _ in 0..turns {
        text.push_str("1,")?;
    }
    Ok(())
}

/// The script in which the kick comes after so many small steps.
fn script_at(
    alloc: Global,
    family: &Family,
    steps: usize,
    kick: u32,
) -> Result<String, OutOfMemory> {
    let changes = family.changes;
    let mut text = String::new(alloc);
    write!(text, "{{{BASE},{changes},")?;
    write!(text, "\"guest\":[{STORES},[\"signal\",{kick}]],")?;
    text.push_str("\"schedule\":[")?;
    push_control(&mut text, family.before)?;
    text.push_str("2,2,2,2,")?;
    push_control(&mut text, steps)?;
    text.push_str("0,0,0,0],\"rounds\":24}")?;
    Ok(text)
}

fn text_at(alloc: Global, family: &Family, place: &Place) -> Result<String, OutOfMemory> {
    let answers = family.answers;
    let Place { line, counts, .. } = place;
    let mut text = String::new(alloc);
    write!(text, "{line}\n{answers}")?;
    text.push_str(TAKEN_AND_USED)?;
    text.push_str(counts)?;
    text.push_str(WRITTEN)?;
    Ok(text)
}

fn expect_family(rt: &impl Abort, alloc: Global, family: &Family) -> Result<(), Fail> {
    for (steps, place) in family.places.iter().enumerate() {
        let played = played(alloc, script_at(alloc, family, steps, place.kick)?)?;
        let text = text_at(alloc, family, place)?;
        expect(rt, family.name, &played, 0, text.as_str());
    }
    Ok(())
}

#[test]
fn no_kick_is_lost(rt: HostRuntime) -> Result<(), Fail> {
    let families = [
        a_stop_and_a_start(),
        a_disable_and_an_enable(),
        a_kick_that_is_replaced(),
        a_start(),
    ];
    for family in &families {
        expect_family(&rt, rt.alloc(), family)?;
    }
    Ok(())
}
