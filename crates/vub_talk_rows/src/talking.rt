use std::alloc::Global;
use std::process::Abort;
use std::test::Fail;
use vub_base::{Bytes, Listed, OutOfMemory};
use vub_driver::Layout;
use vub_proto::{Echo, FixedDevice};
use vub_talk::{Ask, Talk, TalkFault, converse};

/// A ring of four asks.
pub(crate) const LAYOUT: Layout = Layout {
    size: 8,
    desc: 0x100000,
    avail: 0x101000,
    used: 0x102000,
    buffers: 0x110000,
    slot: 16,
};

/// A device of these queues and masks.
pub(crate) fn device(
    alloc: Global,
    queues: usize,
    masks: &[u64],
) -> Result<FixedDevice, OutOfMemory> {
    Ok(FixedDevice {
        queues,
        max: 256,
        features: 0,
        protocol: 0,
        masks: Listed::from_slice(alloc, masks)?,
        exits: Listed::new(alloc),
        refusals: 0,
    })
}

/// So many asks: number i has the eight bytes of i, least first, and room for 16.
pub(crate) fn asks(alloc: Global, count: u64) -> Result<Vec<Ask>, OutOfMemory> {
    let mut asks = Vec::new(alloc);
    for number in 0..count {
        let request = Bytes::from_slice(alloc, &number.to_le_bytes())?;
        asks.push(Ask { request, room: 16 })?;
    }
    Ok(asks)
}

fn echoed(alloc: Global, masks: &[u64], count: u64, rounds: u32) -> Result<Talk, Fail> {
    let device = device(alloc, 1, masks)?;
    let asks = asks(alloc, count)?;
    let talk = converse(alloc, &asks, LAYOUT, &device, &mut Echo, rounds)?;
    Ok(talk)
}

/// How many bytes were answered.
fn bytes_in(talk: &Talk) -> u64 {
    let mut bytes = 0u64;
    for done in talk.answers.iter() {
        bytes = bytes.saturating_add(done.reply.len() as u64);
    }
    bytes
}

/// Each answer has its ask's number, and its ask's bytes.
fn is_echo(rt: impl Abort + Drop, talk: &Talk) {
    for (number, done) in talk.answers.iter().enumerate() {
        let number = number as u64;
        assert_eq!(rt; done.number, number);
        assert!(rt; done.reply.as_slice() == number.to_le_bytes().as_slice());
    }
}

#[test]
fn nine_asks_in_three_batches(rt: HostRuntime) -> Result<(), Fail> {
    let talk = echoed(rt.alloc(), &[1], 9, 78)?;
    assert_eq!(rt; talk.answers.len(), 9);
    assert!(rt; talk.calls.as_slice() == [4, 4, 1].as_slice());
    assert_eq!(rt; bytes_in(&talk), 72);
    is_echo(rt, &talk);
    Ok(())
}

#[test]
fn no_ask_is_no_batch(rt: HostRuntime) -> Result<(), Fail> {
    let talk = echoed(rt.alloc(), &[1], 0, 0)?;
    assert_eq!(rt; (talk.answers.len(), talk.calls.len()), (0, 0));
    Ok(())
}

#[test]
fn the_worker_of_queue_0_serves(rt: HostRuntime) -> Result<(), Fail> {
    let talk = echoed(rt.alloc(), &[2, 3], 5, 78)?;
    assert!(rt; talk.calls.as_slice() == [4, 1].as_slice());
    is_echo(rt, &talk);
    Ok(())
}

#[test]
fn too_few_rounds(rt: HostRuntime) -> Result<(), Fail> {
    let device = device(rt.alloc(), 1, &[1])?;
    let asks = asks(rt.alloc(), 5)?;
    let fault = converse(rt.alloc(), &asks, LAYOUT, &device, &mut Echo, 20).err();
    assert!(rt; fault == Some(TalkFault::NotAtRest { batch: 0 }));
    Ok(())
}
