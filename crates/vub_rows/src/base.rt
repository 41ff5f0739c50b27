//! The base script and what a case changes of it.

use std::alloc::Global;
use vub_base::OutOfMemory;

/// The base script with some parts changed. It has one content of 65536 zero bytes, which is guest memory from 0x100000
/// on; one ring of 8 descriptors, kicked by event 1, calling by event 2; and a guest that stores two descriptors, the
/// request `hello` and one available entry, and then kicks.
#[derive(Drop)]
pub struct Case {
    /// What the case shows.
    pub name: &'static str,
    /// The elements of the list of regions.
    pub regions: &'static str,
    pub ready: bool,
    /// The kick of the ring: an object's number, or `null`.
    pub kick: &'static str,
    /// What the guest stores in the descriptor table: 16 bytes each, namely the address, the length, the flags (1 a
    /// next one, 2 writable, 4 indirect) and the next one's number, little-endian.
    pub descriptors: &'static str,
    /// What the guest stores in the available ring: flags, index and entries, 2 bytes each.
    pub available: &'static str,
    /// The keys `schedule` and `rounds`.
    pub turns: &'static str,
    /// The text that the case prints.
    pub text: &'static str,
}

/// The base script itself: the request is taken, echoed and used.
pub fn base() -> Case {
    Case {
        name: "one entry is echoed",
        regions: r#"["0x100000","0x10000","0x100000",0,0]"#,
        ready: true,
        kick: "1",
        descriptors: "0030100000000000050000000100010000401000000000001000000002000000",
        available: "000001000000",
        turns: r#""schedule":[0,0,0,0],"rounds":12"#,
        text: "turns 40 played 14 rest yes
take 0 0 0 head 0 request 68656c6c6f room 16
use 0 0 0 head 0 length 5 reply 68656c6c6f
count 2 1
write 0 8194 01000000000005000000
write 0 16384 68656c6c6f
",
    }
}

/// The case's script.
pub fn script_of(alloc: Global, case: &Case) -> Result<String, OutOfMemory> {
    let Case {
        regions,
        ready,
        kick,
        descriptors,
        available,
        turns,
        ..
    } = case;
    let mut text = String::new(alloc);
    text.push_str(r#"{"objects":[{"bytes":65536},{"event":0},{"event":0}],"#)?;
    write!(text, "\"regions\":[{regions}],")?;
    text.push_str(r#""rings":[{"queue":0,"size":8,"info":["0x100000","0x101000","0x102000"],"#)?;
    text.push_str(r#""base":0,"next_used":0,"call":2,"enabled":true,"#)?;
    write!(text, "\"kick\":{kick},\"ready\":{ready}}}],")?;
    write!(text, "\"guest\":[[\"store\",0,0,\"{descriptors}\"],")?;
    text.push_str(r#"["store",0,12288,"68656c6c6f"],"#)?;
    write!(text, "[\"store\",0,4096,\"{available}\"],[\"signal\",1]],")?;
    write!(text, "{turns}}}")?;
    Ok(text)
}
