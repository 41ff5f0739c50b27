use crate::talking::{LAYOUT, asks, device};
use std::alloc::Global;
use std::test::Fail;
use vub_base::{Bytes, Listed, OutOfMemory};
use vub_driver::{DriverError, Layout};
use vub_model::SetupFault;
use vub_proto::{Echo, FixedDevice};
use vub_talk::{Ask, TalkFault, converse};

/// Why one ask over this layout is refused.
fn fault_of(
    alloc: Global,
    layout: Layout,
    device: &FixedDevice,
) -> Result<Option<TalkFault>, OutOfMemory> {
    let asks = asks(alloc, 1)?;
    Ok(converse(alloc, &asks, layout, device, &mut Echo, 78).err())
}

const LAYOUTS: [(Layout, DriverError); 6] = [
    (Layout { size: 6, ..LAYOUT }, DriverError::Size),
    (
        Layout {
            desc: 0x100008,
            ..LAYOUT
        },
        DriverError::Misaligned,
    ),
    (
        Layout {
            slot: 0x1000_0000,
            ..LAYOUT
        },
        DriverError::Outside,
    ),
    (
        Layout {
            slot: 0x1000_0000,
            buffers: 0xfff0,
            ..LAYOUT
        },
        DriverError::Overlap,
    ),
    (Layout { slot: 15, ..LAYOUT }, DriverError::TooLarge),
    (
        Layout {
            desc: 0xfff80,
            ..LAYOUT
        },
        DriverError::Outside,
    ),
];

#[test]
fn layouts_are_refused(rt: HostRuntime) -> Result<(), Fail> {
    let device = device(rt.alloc(), 1, &[1])?;
    for (layout, error) in LAYOUTS.iter() {
        let fault = fault_of(rt.alloc(), *layout, &device)?;
        assert!(rt; fault == Some(TalkFault::Driver(*error)));
    }
    Ok(())
}

#[test]
fn devices_are_refused(rt: HostRuntime) -> Result<(), Fail> {
    let alloc = rt.alloc();
    let mut other = device(alloc, 1, &[2])?;
    assert!(rt; fault_of(alloc, LAYOUT, &other)? == Some(TalkFault::NoWorker));
    other.masks = Listed::from_slice(alloc, &[1u64])?;
    other.queues = 0;
    assert!(rt; fault_of(alloc, LAYOUT, &other)? == Some(TalkFault::Setup(SetupFault::Ring(0))));
    other.queues = 65;
    assert!(rt; fault_of(alloc, LAYOUT, &other)? == Some(TalkFault::Setup(SetupFault::Queues)));
    other.queues = 1;
    other.max = 4;
    assert!(rt; fault_of(alloc, LAYOUT, &other)? == Some(TalkFault::Setup(SetupFault::Ring(0))));
    other.exits = Listed::from_slice(alloc, &[Some(1u32)])?;
    assert!(rt; fault_of(alloc, LAYOUT, &other)? == Some(TalkFault::Setup(SetupFault::Exit(0))));
    Ok(())
}

#[test]
fn an_ask_as_large_as_the_slot(rt: HostRuntime) -> Result<(), Fail> {
    let alloc = rt.alloc();
    let device = device(alloc, 1, &[1])?;
    let mut asks = Vec::new(alloc);
    let request = Bytes::from_slice(alloc, &[7u8; 16])?;
    asks.push(Ask { request, room: 3 })?;
    let talk = converse(alloc, &asks, LAYOUT, &device, &mut Echo, 39)?;
    assert_eq!(rt; talk.answers.len(), 1);
    Ok(())
}
