use std::alloc::Global;
use std::test::Fail;
use vub_base::{Bytes, Listed, OutOfMemory};
use vub_event::{Host, MemHost};
use vub_handler::VhostUserHandlerError;
use vub_mem::GuestMemory;
use vub_model::Constants;
use vub_proto::{
    Answer, Cause, Denied, FixedDevice, ListenerError, Part, Request, Service, VhostUserError,
};
use vub_requests::{
    Unanswered, VhostUserHandler, add_mem_region, check_device_state, get_config, get_features,
    get_inflight_fd, get_max_mem_slots, get_protocol_features, get_queue_num, get_shared_object,
    get_shmem_config, get_vring_base, handle, handle_with, register_listener, remove_mem_region,
    reset_device, reset_owner, send_exit, set_backend_req_fd, set_config, set_device_state_fd,
    set_features, set_gpu_socket, set_inflight_fd, set_log_base, set_mem_table, set_owner,
    set_protocol_features, set_vring_addr, set_vring_base, set_vring_call, set_vring_enable,
    set_vring_err, set_vring_kick, set_vring_num, unregister_listener,
};
use vub_vring::{OwnedParts, Parts, Pending, Store, VringState};

/// The feature bit with which a ring starts disabled.
const PROTOCOL: u64 = 0x4000_0000;

/// The object of guest memory, of two pages.
const CONTENT: u32 = 3;

/// Its first page.
const FIRST: Part = Part {
    start: 0,
    len: 4096,
    user: 0x10000,
    offset: 0,
};

/// Its second page.
const SECOND: Part = Part {
    start: 4096,
    len: 4096,
    user: 0x11000,
    offset: 4096,
};

/// A service whose replies are empty.
#[derive(Debug, Drop)]
struct Quiet {}

impl Service for Quiet {
    ghost use Rattle.std.specs.Prelude.{[]};

    ghost reply_of = { λ _ _ _. [] };

    ghost after = { λ v _ _. v };

    fn serve(&mut self, alloc: Global, _request: &[u8], _room: u32) -> Result<Bytes, OutOfMemory> {
        Ok(Bytes::new(alloc))
    }
}

/// Two events: a kick and a listener. The calls with these numbers fail.
fn host_of(alloc: Global, failing: &[u64]) -> Result<MemHost, Fail> {
    let mut host = MemHost::failing(alloc, Vec::from_slice(alloc, failing)?)?;
    host.create_event(alloc, 0)?;
    host.create_event(alloc, 0)?;
    Ok(host)
}

/// One ring, and a host whose calls with these numbers fail.
fn store_over(alloc: Global, failing: &[u64]) -> Result<Store, Fail> {
    let mut memory = GuestMemory::new(alloc);
    let bytes = vec![in alloc; 0; 8192]?;
    memory.put_object(alloc, CONTENT, Bytes::from_vec(bytes))?;
    let rings = vec![in alloc; VringState::new(8)?]?;
    let pending = vec![in alloc; Pending::new(alloc)]?;
    Ok(Store {
        memory,
        rings,
        host: host_of(alloc, failing)?,
        pending,
    })
}

fn store_of(alloc: Global) -> Result<Store, Fail> {
    store_over(alloc, &[])
}

fn constants_of(alloc: Global) -> Result<Constants, Fail> {
    Ok(Constants {
        queues: 1,
        max: 8,
        features: PROTOCOL,
        protocol: 9,
        tracks: false,
        masks: Listed::from_vec(vec![in alloc; 1]?),
        exits: Listed::from_vec(vec![in alloc; None]?),
    })
}

fn device_of(alloc: Global) -> FixedDevice {
    FixedDevice {
        queues: 1,
        max: 8,
        features: PROTOCOL,
        protocol: 9,
        masks: Listed::new(alloc),
        exits: Listed::new(alloc),
        refusals: 0,
    }
}

fn is_ok(answer: Answer) -> bool {
    matches!(answer, Answer::Ok)
}

fn is_number(answer: Answer, number: u64) -> bool {
    match answer {
        Answer::Number(n) => n == number,
        _ => false,
    }
}

fn is_empty(answer: Answer) -> bool {
    match answer {
        Answer::Content(bytes) => bytes.len() == 0,
        _ => false,
    }
}

/// Whether the device refused the call with this number.
fn is_refused(answer: Answer, number: i32) -> bool {
    match answer {
        Answer::Failed(VhostUserError::ReqHandlerError(Cause::Device(n))) => n == number,
        _ => false,
    }
}

/// Whether the request is not supported.
fn is_denied(answer: Answer) -> bool {
    matches!(
        answer,
        Answer::Failed(VhostUserError::InvalidOperation(Denied::NotSupported))
    )
}

// Each helper makes one call over any parts and has no clause, so that the tests prove fast.

fn table_set<P: Parts>(
    alloc: Global,
    session: &mut VhostUserHandler,
    parts: &mut P,
) -> Result<bool, Fail> {
    let table = Listed::from_vec(vec![in alloc; FIRST]?);
    let contents = Listed::from_vec(vec![in alloc; CONTENT]?);
    let answer = set_mem_table(session, alloc, parts, table, contents, None)?;
    Ok(is_ok(answer))
}

fn owned<P: Parts>(
    alloc: Global,
    session: &mut VhostUserHandler,
    parts: &mut P,
) -> Result<bool, Unanswered> {
    let answer = set_owner(session, alloc, parts)?;
    Ok(is_ok(answer))
}

fn owned_again<P: Parts>(
    alloc: Global,
    session: &mut VhostUserHandler,
    parts: &mut P,
) -> Result<bool, Unanswered> {
    let answer = set_owner(session, alloc, parts)?;
    Ok(matches!(
        answer,
        Answer::Failed(VhostUserError::InvalidOperation(Denied::AlreadyClaimed))
    ))
}

fn owner_reset<P: Parts>(
    alloc: Global,
    session: &mut VhostUserHandler,
    parts: &mut P,
) -> Result<bool, Unanswered> {
    let answer = reset_owner(session, alloc, parts)?;
    Ok(is_ok(answer))
}

fn device_reset<P: Parts>(
    alloc: Global,
    session: &mut VhostUserHandler,
    parts: &mut P,
) -> Result<bool, Unanswered> {
    let answer = reset_device(session, alloc, parts)?;
    Ok(is_ok(answer))
}

fn features_offered<P: Parts>(
    alloc: Global,
    session: &mut VhostUserHandler,
    parts: &mut P,
) -> Result<bool, Unanswered> {
    let answer = get_features(session, alloc, parts)?;
    Ok(is_number(answer, PROTOCOL))
}

fn protocol_offered<P: Parts>(
    alloc: Global,
    session: &mut VhostUserHandler,
    parts: &mut P,
) -> Result<bool, Unanswered> {
    let answer = get_protocol_features(session, alloc, parts)?;
    Ok(is_number(answer, 9))
}

fn queues_counted<P: Parts>(
    alloc: Global,
    session: &mut VhostUserHandler,
    parts: &mut P,
) -> Result<bool, Unanswered> {
    let answer = get_queue_num(session, alloc, parts)?;
    Ok(is_number(answer, 1))
}

fn slots_counted<P: Parts>(
    alloc: Global,
    session: &mut VhostUserHandler,
    parts: &mut P,
) -> Result<bool, Unanswered> {
    let answer = get_max_mem_slots(session, alloc, parts)?;
    Ok(is_number(answer, 509))
}

fn enabled_early<P: Parts>(
    alloc: Global,
    session: &mut VhostUserHandler,
    parts: &mut P,
) -> Result<bool, Unanswered> {
    let answer = set_vring_enable(session, alloc, parts, 0, true)?;
    Ok(matches!(answer, Answer::Failed(VhostUserError::InactiveFeature)))
}

fn features_set<P: Parts>(
    alloc: Global,
    session: &mut VhostUserHandler,
    parts: &mut P,
) -> Result<bool, Unanswered> {
    let answer = set_features(session, alloc, parts, PROTOCOL)?;
    Ok(is_ok(answer))
}

fn protocol_set<P: Parts>(
    alloc: Global,
    session: &mut VhostUserHandler,
    parts: &mut P,
) -> Result<bool, Unanswered> {
    let answer = set_protocol_features(session, alloc, parts, 9)?;
    Ok(is_ok(answer))
}

fn handled<P: Parts>(
    alloc: Global,
    session: &mut VhostUserHandler,
    parts: &mut P,
) -> Result<bool, Unanswered> {
    let answer = handle(session, alloc, parts, Request::GetQueueNum)?;
    Ok(is_number(answer, 1))
}

fn handled_with<P: Parts>(
    alloc: Global,
    session: &mut VhostUserHandler,
    parts: &mut P,
) -> Result<bool, Unanswered> {
    let answer = handle_with(session, alloc, parts, &Request::GetQueueNum)?;
    Ok(is_number(answer, 1))
}

fn region_with_a_flag<P: Parts>(
    alloc: Global,
    session: &mut VhostUserHandler,
    parts: &mut P,
) -> Result<bool, Unanswered> {
    let answer = add_mem_region(session, alloc, parts, SECOND, CONTENT, Some(false))?;
    Ok(matches!(
        answer,
        Answer::Failed(VhostUserError::InvalidOperation(Denied::PostcopyNotEnabled))
    ))
}

fn region_added<P: Parts>(
    alloc: Global,
    session: &mut VhostUserHandler,
    parts: &mut P,
) -> Result<bool, Unanswered> {
    let answer = add_mem_region(session, alloc, parts, SECOND, CONTENT, None)?;
    Ok(is_ok(answer))
}

fn region_removed<P: Parts>(
    alloc: Global,
    session: &mut VhostUserHandler,
    parts: &mut P,
) -> Result<bool, Unanswered> {
    let answer = remove_mem_region(session, alloc, parts, 4096, 4096)?;
    Ok(is_ok(answer))
}

fn log_refused<P: Parts>(
    alloc: Global,
    session: &mut VhostUserHandler,
    parts: &mut P,
) -> Result<bool, Unanswered> {
    let answer = set_log_base(session, alloc, parts, 8, 0, CONTENT)?;
    Ok(matches!(
        answer,
        Answer::Failed(VhostUserError::ReqHandlerError(Cause::Log(_)))
    ))
}

fn size_set<P: Parts>(
    alloc: Global,
    session: &mut VhostUserHandler,
    parts: &mut P,
) -> Result<bool, Unanswered> {
    let answer = set_vring_num(session, alloc, parts, 0, 4)?;
    Ok(is_ok(answer))
}

fn addresses_set<P: Parts>(
    alloc: Global,
    session: &mut VhostUserHandler,
    parts: &mut P,
) -> Result<bool, Unanswered> {
    let answer = set_vring_addr(session, alloc, parts, 0, 0, 0x10000, 0x10200, 0x10100, 0)?;
    Ok(is_ok(answer))
}

fn base_of_no_queue<P: Parts>(
    alloc: Global,
    session: &mut VhostUserHandler,
    parts: &mut P,
) -> Result<bool, Unanswered> {
    let answer = set_vring_base(session, alloc, parts, 1, 5)?;
    Ok(matches!(answer, Answer::Failed(VhostUserError::InvalidParam)))
}

fn base_set<P: Parts>(
    alloc: Global,
    session: &mut VhostUserHandler,
    parts: &mut P,
) -> Result<bool, Unanswered> {
    let answer = set_vring_base(session, alloc, parts, 0, 5)?;
    Ok(is_ok(answer))
}

fn call_set<P: Parts>(
    alloc: Global,
    session: &mut VhostUserHandler,
    parts: &mut P,
) -> Result<bool, Unanswered> {
    let answer = set_vring_call(session, alloc, parts, 0, None)?;
    Ok(is_ok(answer))
}

fn error_set<P: Parts>(
    alloc: Global,
    session: &mut VhostUserHandler,
    parts: &mut P,
) -> Result<bool, Unanswered> {
    let answer = set_vring_err(session, alloc, parts, 0, None)?;
    Ok(is_ok(answer))
}

fn kick_set<P: Parts>(
    alloc: Global,
    session: &mut VhostUserHandler,
    parts: &mut P,
) -> Result<bool, Unanswered> {
    let answer = set_vring_kick(session, alloc, parts, 0, Some(0))?;
    Ok(is_ok(answer))
}

fn enabled<P: Parts>(
    alloc: Global,
    session: &mut VhostUserHandler,
    parts: &mut P,
) -> Result<bool, Unanswered> {
    let answer = set_vring_enable(session, alloc, parts, 0, true)?;
    Ok(is_ok(answer))
}

fn stopped<P: Parts>(
    alloc: Global,
    session: &mut VhostUserHandler,
    parts: &mut P,
) -> Result<bool, Unanswered> {
    let answer = get_vring_base(session, alloc, parts, 0)?;
    Ok(matches!(answer, Answer::Base { index: 0, num: 5 }))
}

fn config_read<P: Parts>(
    alloc: Global,
    session: &mut VhostUserHandler,
    parts: &mut P,
) -> Result<bool, Unanswered> {
    let answer = get_config(session, alloc, parts, 0, 8, 0)?;
    Ok(is_empty(answer))
}

fn config_refused<P: Parts>(
    alloc: Global,
    session: &mut VhostUserHandler,
    parts: &mut P,
) -> Result<bool, Unanswered> {
    let answer = set_config(session, alloc, parts, 0, Bytes::new(alloc), 0)?;
    Ok(is_refused(answer, 22))
}

fn requests_connected<P: Parts>(
    alloc: Global,
    session: &mut VhostUserHandler,
    parts: &mut P,
) -> Result<bool, Unanswered> {
    let answer = set_backend_req_fd(session, alloc, parts, 0)?;
    Ok(is_ok(answer))
}

fn graphics_refused<P: Parts>(
    alloc: Global,
    session: &mut VhostUserHandler,
    parts: &mut P,
) -> Result<bool, Unanswered> {
    let answer = set_gpu_socket(session, alloc, parts, 0)?;
    Ok(is_refused(answer, 95))
}

fn object_refused<P: Parts>(
    alloc: Global,
    session: &mut VhostUserHandler,
    parts: &mut P,
) -> Result<bool, Unanswered> {
    let answer = get_shared_object(session, alloc, parts, 1)?;
    Ok(is_refused(answer, 95))
}

fn state_refused<P: Parts>(
    alloc: Global,
    session: &mut VhostUserHandler,
    parts: &mut P,
) -> Result<bool, Unanswered> {
    let answer = set_device_state_fd(session, alloc, parts, 0, 0, 0)?;
    Ok(is_refused(answer, 95))
}

fn check_refused<P: Parts>(
    alloc: Global,
    session: &mut VhostUserHandler,
    parts: &mut P,
) -> Result<bool, Unanswered> {
    let answer = check_device_state(session, alloc, parts)?;
    Ok(is_refused(answer, 95))
}

fn regions_refused<P: Parts>(
    alloc: Global,
    session: &mut VhostUserHandler,
    parts: &mut P,
) -> Result<bool, Unanswered> {
    let answer = get_shmem_config(session, alloc, parts)?;
    Ok(is_refused(answer, 95))
}

fn inflight_denied<P: Parts>(
    alloc: Global,
    session: &mut VhostUserHandler,
    parts: &mut P,
) -> Result<bool, Unanswered> {
    let answer = get_inflight_fd(session, alloc, parts)?;
    Ok(is_denied(answer))
}

fn inflight_set_denied<P: Parts>(
    alloc: Global,
    session: &mut VhostUserHandler,
    parts: &mut P,
) -> Result<bool, Unanswered> {
    let answer = set_inflight_fd(session, alloc, parts, 0)?;
    Ok(is_denied(answer))
}

fn token_refused<P: Parts>(
    alloc: Global,
    session: &mut VhostUserHandler,
    parts: &mut P,
) -> Result<bool, Unanswered> {
    let answer = register_listener(session, alloc, parts, 0, 1, 1, 1)?;
    Ok(matches!(answer, Answer::Listener(ListenerError::EINVAL)))
}

fn listener_joins<P: Parts>(
    alloc: Global,
    session: &mut VhostUserHandler,
    parts: &mut P,
) -> Result<bool, Unanswered> {
    let answer = register_listener(session, alloc, parts, 0, 1, 1, 2)?;
    Ok(is_ok(answer))
}

fn listener_leaves<P: Parts>(
    alloc: Global,
    session: &mut VhostUserHandler,
    parts: &mut P,
) -> Result<bool, Unanswered> {
    let answer = unregister_listener(session, alloc, parts, 0, 1, 1, 2)?;
    Ok(is_ok(answer))
}

fn exit_sent<P: Parts>(
    alloc: Global,
    session: &mut VhostUserHandler,
    parts: &mut P,
) -> Result<bool, Unanswered> {
    let answer = send_exit(session, alloc, parts)?;
    Ok(is_ok(answer))
}

fn of_the_session<P: Parts>(
    alloc: Global,
    session: &mut VhostUserHandler,
    parts: &mut P,
) -> Result<bool, Unanswered> {
    Ok(
        owned(alloc, session, parts)?
            && owned_again(alloc, session, parts)?
            && owner_reset(alloc, session, parts)?
            && device_reset(alloc, session, parts)?
            && features_offered(alloc, session, parts)?
            && protocol_offered(alloc, session, parts)?,
    )
}

fn of_the_features<P: Parts>(
    alloc: Global,
    session: &mut VhostUserHandler,
    parts: &mut P,
) -> Result<bool, Unanswered> {
    Ok(
        queues_counted(alloc, session, parts)?
            && slots_counted(alloc, session, parts)?
            && enabled_early(alloc, session, parts)?
            && features_set(alloc, session, parts)?
            && protocol_set(alloc, session, parts)?
            && handled(alloc, session, parts)?
            && handled_with(alloc, session, parts)?,
    )
}

fn of_memory<P: Parts>(
    alloc: Global,
    session: &mut VhostUserHandler,
    parts: &mut P,
) -> Result<bool, Unanswered> {
    Ok(
        region_with_a_flag(alloc, session, parts)?
            && region_added(alloc, session, parts)?
            && region_removed(alloc, session, parts)?
            && log_refused(alloc, session, parts)?,
    )
}

fn of_a_ring<P: Parts>(
    alloc: Global,
    session: &mut VhostUserHandler,
    parts: &mut P,
) -> Result<bool, Unanswered> {
    Ok(
        size_set(alloc, session, parts)?
            && addresses_set(alloc, session, parts)?
            && base_of_no_queue(alloc, session, parts)?
            && base_set(alloc, session, parts)?
            && call_set(alloc, session, parts)?
            && error_set(alloc, session, parts)?
            && kick_set(alloc, session, parts)?,
    )
}

fn of_a_running_ring<P: Parts>(
    alloc: Global,
    session: &mut VhostUserHandler,
    parts: &mut P,
) -> Result<bool, Unanswered> {
    Ok(
        features_set(alloc, session, parts)?
            && enabled(alloc, session, parts)?
            && stopped(alloc, session, parts)?,
    )
}

fn of_the_device<P: Parts>(
    alloc: Global,
    session: &mut VhostUserHandler,
    parts: &mut P,
) -> Result<bool, Unanswered> {
    Ok(
        config_read(alloc, session, parts)?
            && config_refused(alloc, session, parts)?
            && requests_connected(alloc, session, parts)?
            && graphics_refused(alloc, session, parts)?
            && object_refused(alloc, session, parts)?
            && state_refused(alloc, session, parts)?,
    )
}

fn of_the_rest<P: Parts>(
    alloc: Global,
    session: &mut VhostUserHandler,
    parts: &mut P,
) -> Result<bool, Unanswered> {
    Ok(
        check_refused(alloc, session, parts)?
            && regions_refused(alloc, session, parts)?
            && inflight_denied(alloc, session, parts)?
            && inflight_set_denied(alloc, session, parts)?
            && token_refused(alloc, session, parts)?
            && listener_joins(alloc, session, parts)?
            && listener_leaves(alloc, session, parts)?
            && exit_sent(alloc, session, parts)?,
    )
}

fn all_of_the_session<P: Parts>(alloc: Global, parts: &mut P) -> Result<bool, Fail> {
    let mut session = VhostUserHandler::new(alloc, parts)?;
    Ok(of_the_session(alloc, &mut session, parts)? && of_the_features(alloc, &mut session, parts)?)
}

fn all_of_a_ring<P: Parts>(alloc: Global, parts: &mut P) -> Result<bool, Fail> {
    let mut session = VhostUserHandler::new(alloc, parts)?;
    Ok(
        table_set(alloc, &mut session, parts)?
            && of_memory(alloc, &mut session, parts)?
            && of_a_ring(alloc, &mut session, parts)?
            && of_a_running_ring(alloc, &mut session, parts)?,
    )
}

fn all_of_the_device<P: Parts>(alloc: Global, parts: &mut P) -> Result<bool, Fail> {
    let mut session = VhostUserHandler::new(alloc, parts)?;
    Ok(of_the_device(alloc, &mut session, parts)? && of_the_rest(alloc, &mut session, parts)?)
}

#[test]
fn requests_of_the_session_are_answered(rt: HostRuntime) -> Result<(), Fail> {
    let alloc = rt.alloc();
    let mut store = store_of(alloc)?;
    let mut device = device_of(alloc);
    let mut service = Quiet {};
    let constants = constants_of(alloc)?;
    let mut parts = OwnedParts {
        store: &mut store,
        device: &mut device,
        service: &mut service,
        constants: &constants,
    };
    assert!(rt; all_of_the_session(alloc, &mut parts)?);
    Ok(())
}

#[test]
fn requests_of_a_ring_are_answered(rt: HostRuntime) -> Result<(), Fail> {
    let alloc = rt.alloc();
    let mut store = store_of(alloc)?;
    let mut device = device_of(alloc);
    let mut service = Quiet {};
    let constants = constants_of(alloc)?;
    let mut parts = OwnedParts {
        store: &mut store,
        device: &mut device,
        service: &mut service,
        constants: &constants,
    };
    assert!(rt; all_of_a_ring(alloc, &mut parts)?);
    Ok(())
}

#[test]
fn requests_of_the_device_are_answered(rt: HostRuntime) -> Result<(), Fail> {
    let alloc = rt.alloc();
    let mut store = store_of(alloc)?;
    let mut device = device_of(alloc);
    let mut service = Quiet {};
    let constants = constants_of(alloc)?;
    let mut parts = OwnedParts {
        store: &mut store,
        device: &mut device,
        service: &mut service,
        constants: &constants,
    };
    assert!(rt; all_of_the_device(alloc, &mut parts)?);
    Ok(())
}

/// Whether no session can be made over these parts, since the host fails.
fn opening_fails<P: Parts>(alloc: Global, parts: &mut P) -> bool {
    matches!(
        VhostUserHandler::new(alloc, parts),
        Err(VhostUserHandlerError::CreateEpollHandler(_))
    )
}

fn registration_fails<P: Parts>(
    alloc: Global,
    session: &mut VhostUserHandler,
    parts: &mut P,
) -> Result<bool, Unanswered> {
    let answer = set_vring_enable(session, alloc, parts, 0, true)?;
    Ok(matches!(
        answer,
        Answer::Failed(VhostUserError::ReqHandlerError(Cause::Host))
    ))
}

/// Whether the queue has a kick, and the host fails where it is registered.
fn enabling_fails<P: Parts>(alloc: Global, parts: &mut P) -> Result<bool, Fail> {
    let mut session = VhostUserHandler::new(alloc, parts)?;
    Ok(
        features_set(alloc, &mut session, parts)?
            && kick_set(alloc, &mut session, parts)?
            && registration_fails(alloc, &mut session, parts)?,
    )
}

/// The calls of an opening: the list, the bell, the bell's registration.
const OPENING: [u64; 3] = [2, 3, 4];

#[test]
fn a_session_over_a_failing_host_is_not_made(rt: HostRuntime) -> Result<(), Fail> {
    let alloc = rt.alloc();
    let mut device = device_of(alloc);
    let mut service = Quiet {};
    let constants = constants_of(alloc)?;
    for call in OPENING {
        let mut store = store_over(alloc, &[call])?;
        let mut parts = OwnedParts {
            store: &mut store,
            device: &mut device,
            service: &mut service,
            constants: &constants,
        };
        assert!(rt; opening_fails(alloc, &mut parts));
        assert_eq!(rt; store.host.faults(), 1);
    }
    Ok(())
}

/// The call by which the kick becomes a member.
const REGISTRATION: u64 = 7;

#[test]
fn a_failed_registration_leaves_the_queue_enabled(rt: HostRuntime) -> Result<(), Fail> {
    let alloc = rt.alloc();
    let mut store = store_over(alloc, &[REGISTRATION])?;
    let mut device = device_of(alloc);
    let mut service = Quiet {};
    let constants = constants_of(alloc)?;
    let mut parts = OwnedParts {
        store: &mut store,
        device: &mut device,
        service: &mut service,
        constants: &constants,
    };
    assert!(rt; enabling_fails(alloc, &mut parts)?);
    match store.rings.first() {
        Some(ring) => assert!(rt; ring.is_enabled()),
        None => return Err(Fail::new("no ring")),
    }
    assert_eq!(rt; store.host.members(0).len(), 1);
    Ok(())
}
