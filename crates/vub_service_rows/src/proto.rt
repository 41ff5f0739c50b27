use std::alloc::Global;
use std::test::Fail;
use vub_base::{Bytes, Listed, OutOfMemory};
use vub_proto::{
    Cause, Denied, Echo, FixedDevice, Refused, Service, VhostUserBackendMut, VhostUserError,
};

fn served<S: Service>(
    alloc: Global,
    service: &mut S,
    request: &[u8],
    room: u32,
) -> Result<Bytes, OutOfMemory> {
    service.serve(alloc, request, room)
}

fn refuse<D: VhostUserBackendMut>(device: &mut D) -> Result<(), Refused> {
    device.check_device_state()
}

#[test]
fn echo_replies_as_far_as_there_is_room(rt: HostRuntime) -> Result<(), Fail> {
    for (room, reply) in [
        (0, b"".as_slice()),
        (3, b"hel".as_slice()),
        (16, b"hello".as_slice()),
    ] {
        let bytes = served(rt.alloc(), &mut Echo, b"hello", room)?;
        assert_eq!(rt; bytes.as_slice(), reply);
    }
    Ok(())
}

#[test]
fn refusals_are_counted(rt: HostRuntime) -> Result<(), Fail> {
    let alloc = rt.alloc();
    let mut device = FixedDevice {
        queues: 2,
        max: 256,
        features: 5,
        protocol: 6,
        masks: Listed::from_vec(vec![in alloc; 3]?),
        exits: Listed::from_vec(vec![in alloc; Some(9)]?),
        refusals: u64::MAX - 1,
    };
    for refusals in [u64::MAX, u64::MAX] {
        assert_eq!(rt; refuse(&mut device), Err(Refused(95)));
        assert_eq!(rt; device.refusals(), refusals);
    }
    assert_eq!(rt; device.exit_event(0), Some(9));
    assert_eq!(rt; device.exit_event(1), None);
    assert_eq!(rt; device.get_config(alloc, 0, 8)?.len(), 0);
    Ok(())
}

#[test]
fn refusals_are_printed(rt: HostRuntime) -> Result<(), Fail> {
    let alloc = rt.alloc();
    for (error, text) in [
        (
            VhostUserError::InvalidOperation(Denied::AlreadyClaimed),
            "invalid operation: already claimed",
        ),
        (
            VhostUserError::InvalidOperation(Denied::PostcopyNotEnabled),
            "invalid operation: postcopy not enabled",
        ),
        (
            VhostUserError::InvalidOperation(Denied::NotSupported),
            "invalid operation: not supported",
        ),
        (
            VhostUserError::ReqHandlerError(Cause::Device(22)),
            "handler failed to handle request: device refused the call with 22",
        ),
    ] {
        assert_eq!(rt; format!(in alloc; "{}", error)?.as_str(), text);
    }
    Ok(())
}
