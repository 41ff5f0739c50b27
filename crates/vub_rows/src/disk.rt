//! Requests to a disk.

use crate::playing::expect;
use crate::rows::played;
use std::alloc::Global;
use std::test::Fail;
use vub_base::OutOfMemory;

/// A queue of 16 descriptors, and a disk of 4 sectors. The guest writes a sector of bytes 0xab to sector 2, reads it, asks
/// for the id, discards the sector, reads it again, and reads sector 4, which is past the end. `~` stands for 512 bytes
/// 0xab, `^` for 512 bytes 0.
const REQUESTS: &str = r#"{
  "service": {"block": 4, "id": "626962706c757368"},
  "objects": [
    {"bytes": 65536},
    {"event": 0},
    {"event": 0}
  ],
  "regions": [
    ["0x100000", "0x10000", "0x100000", 0, 0]
  ],
  "rings": [
    {"queue": 0, "size": 16, "info": ["0x100000", "0x101000", "0x102000"], "base": 0, "next_used": 0, "kick": 1, "call": 2, "ready": true, "enabled": true}
  ],
  "guest": [
    ["store", 0, 12288, "01000000000000000200000000000000~"],
    ["store", 0, 13312, "00000000000000000200000000000000"],
    ["store", 0, 14336, "08000000000000000000000000000000"],
    ["store", 0, 15360, "0b00000000000000000000000000000002000000000000000100000000000000"],
    ["store", 0, 16384, "00000000000000000200000000000000"],
    ["store", 0, 17408, "00000000000000000400000000000000"],
    ["store", 0, 0, "003010000000000010020000010001000080100000000000010000000200000000341000000000001000000001000300008410000000000001020000020000000038100000000000100000000100050000881000000000001500000002000000003c1000000000002000000001000700008c1000000000000100000002000000004010000000000010000000010009000090100000000000010200000200000000441000000000001000000001000b0000941000000000000102000002000000"],
    ["store", 0, 4096, "00000600000002000400060008000a00"],
    ["signal", 1]
  ],
  "schedule": [0, 0, 0, 0, 0, 0, 0, 0, 0],
  "rounds": 30
}
"#;

/// Six replies, whose last bytes are the status; they were made from the request layout (virtio 1.2, 5.2.6) by hand.
const TEXT: &str = "\
turns 99 played 34 rest yes
take 0 0 0 head 0 request 01000000000000000200000000000000~ room 1
take 0 0 1 head 2 request 00000000000000000200000000000000 room 513
take 0 0 2 head 4 request 08000000000000000000000000000000 room 21
take 0 0 3 head 6 request 0b00000000000000000000000000000002000000000000000100000000000000 room 1
take 0 0 4 head 8 request 00000000000000000200000000000000 room 513
take 0 0 5 head 10 request 00000000000000000400000000000000 room 513
use 0 0 0 head 0 length 1 reply 00
use 0 0 1 head 2 length 513 reply ~00
use 0 0 2 head 4 length 21 reply 626962706c75736800000000000000000000000000
use 0 0 3 head 6 length 1 reply 00
use 0 0 4 head 8 length 513 reply ^00
use 0 0 5 head 10 length 513 reply ^01
count 2 6
write 0 8194 0600000000000100000002000000010200000400000015000000060000000100000008000000010200000a00000001020000
write 0 32768 00
write 0 33792 ~00
write 0 34816 626962706c75736800000000000000000000000000
write 0 35840 00
write 0 36864 ^00
write 0 37888 ^01
";

/// The text with the sectors in the place of their signs.
fn with_sectors(alloc: Global, short: &str) -> Result<String, OutOfMemory> {
    let mut text = String::new(alloc);
    for sign in short.chars() {
        match sign {
            '~' => push_sector(&mut text, "ab")?,
            '^' => push_sector(&mut text, "00")?,
            _ => text.push(sign)?,
        }
    }
    Ok(text)
}

fn push_sector(text: &mut String, byte: &str) -> Result<(), OutOfMemory> {
    for _ in 0..512 {
        text.push_str(byte)?;
    }
    Ok(())
}

#[test]
fn a_disk_is_written_read_and_discarded(rt: HostRuntime) -> Result<(), Fail> {
    let alloc = rt.alloc();
    let played = played(alloc, with_sectors(alloc, REQUESTS)?)?;
    let text = with_sectors(alloc, TEXT)?;
    expect(&rt, "requests to a disk", &played, 0, text.as_str());
    Ok(())
}
