use std::alloc::Global;
use std::process::Abort;
use std::test::Fail;
use vub_base::{Bytes, Listed, OutOfMemory};
use vub_core::drive;
use vub_model::{GivenRing, Object, Run, Setup};
use vub_proto::{Echo, FixedDevice, Request};

/// A ring that is not set up, but for its base.
const RING: GivenRing = GivenRing {
    queue: 0,
    size: 8,
    info: None,
    base: 7,
    next_used: 7,
    kick: None,
    call: None,
    ready: false,
    enabled: false,
};

/// A device of one queue and one worker.
fn device(alloc: Global) -> Result<FixedDevice, OutOfMemory> {
    Ok(FixedDevice {
        queues: 1,
        max: 8,
        features: 5,
        protocol: 0,
        masks: Listed::from_slice(alloc, &[1u64])?,
        exits: Listed::new(alloc),
        refusals: 0,
    })
}

/// An event, a content and one ring, of which control is asked all these requests.
fn setup(alloc: Global, requests: Listed<Request>) -> Result<Setup, OutOfMemory> {
    let mut objects = Listed::new(alloc);
    objects.push(Object::Event { flags: 0 })?;
    objects.push(Object::Content(Bytes::from_slice(alloc, &[0u8; 64])?))?;
    Ok(Setup {
        objects,
        regions: Listed::new(alloc),
        rings: Listed::from_slice(alloc, &[RING])?,
        requests,
        guest: Listed::new(alloc),
    })
}

/// Requests that are answered, refused by control, and refused by the device.
fn requests(alloc: Global) -> Result<Listed<Request>, OutOfMemory> {
    let kick = Request::SetVringKick {
        queue: 0,
        event: Some(0),
    };
    let mut requests = Listed::new(alloc);
    requests.push(Request::GetFeatures)?;
    requests.push(Request::SetOwner)?;
    requests.push(Request::SetOwner)?;
    requests.push(kick)?;
    requests.push(Request::SetVringNum { queue: 1, size: 8 })?;
    requests.push(Request::GetVringBase { queue: 0 })?;
    requests.push(Request::SetGpuSocket { object: 1 })?;
    requests.push(Request::GetQueueNum)?;
    Ok(requests)
}

/// What is answered to them, in order.
const ANSWERS: [&str; 8] = [
    "Number(5)",
    "Ok",
    "Failed(InvalidOperation(AlreadyClaimed))",
    "Ok",
    "Failed(InvalidParam)",
    "Base { index: 0, num: 7 }",
    "Failed(ReqHandlerError(Device(95)))",
    "Number(1)",
];

/// The run of so many turns of control.
fn run(alloc: Global, turns: usize) -> Result<Run, Fail> {
    let setup = setup(alloc, requests(alloc)?)?;
    let schedule = vec![in alloc; 1u32; turns]?;
    let run = drive(alloc, &setup, &mut device(alloc)?, &mut Echo, &schedule)?;
    Ok(run)
}

#[test]
fn each_request_is_answered(rt: HostRuntime) -> Result<(), Fail> {
    let alloc = rt.alloc();
    let run = run(alloc, 32)?;
    let answers = run.answers.as_slice();
    assert_eq!(rt; answers.len(), ANSWERS.len());
    for (answer, text) in answers.iter().zip(ANSWERS.iter()) {
        let said = format!(in alloc; "{answer:?}")?;
        assert_eq!(rt; said.as_str(), *text);
    }
    let calls = run.device.as_slice();
    assert_eq!(rt; calls.len(), 2);
    assert!(rt; !calls[0].refused);
    assert_eq!(rt; (calls[1].a, calls[1].refused), (1, true));
    assert!(rt; run.rest);
    Ok(())
}

#[test]
fn a_request_that_is_left_is_no_rest(rt: HostRuntime) -> Result<(), Fail> {
    let run = run(rt.alloc(), 3)?;
    assert_eq!(rt; run.answers.len(), 3);
    assert!(rt; !run.rest);
    Ok(())
}
