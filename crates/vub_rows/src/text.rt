use std::alloc::Global;
use std::test::Fail;
use vub_base::{Bytes, Listed, OutOfMemory};
use vub_mem::{LogError, MemError};
use vub_model::{Count, DeviceCall, Label, Run, Span, Stop, StopCause, Take, VringEpollError, Why};
use vub_proto::{Answer, Cause, Denied, DeviceOp, ListenerError, Used, VhostUserError};
use vub_queue::Damage;
use vub_text::print_run;

fn empty_run(alloc: Global) -> Run {
    Run {
        labels: Listed::new(alloc),
        answers: Listed::new(alloc),
        device: Listed::new(alloc),
        takes: Listed::new(alloc),
        uses: Listed::new(alloc),
        stops: Listed::new(alloc),
        counts: Listed::new(alloc),
        written: Listed::new(alloc),
        logs: Listed::new(alloc),
        harvests: Listed::new(alloc),
        rest: true,
    }
}

fn add_turns(run: &mut Run) -> Result<(), OutOfMemory> {
    run.labels.push(Label::Guest)?;
    run.labels.push(Label::Pass)?;
    run.labels.push(Label::Poll { object: 1 })?;
    run.rest = false;
    Ok(())
}

fn add_answers(alloc: Global, run: &mut Run) -> Result<(), OutOfMemory> {
    let failures = [
        VhostUserError::InvalidParam,
        VhostUserError::InvalidOperation(Denied::AlreadyClaimed),
        VhostUserError::ReqHandlerError(Cause::Device(-5)),
        VhostUserError::ReqHandlerError(Cause::Memory(MemError::MissingMemoryMapping)),
        VhostUserError::ReqHandlerError(Cause::Log(LogError::TooSmall)),
        VhostUserError::ReqHandlerError(Cause::Host),
        VhostUserError::SocketBroken,
    ];
    run.answers.push(Answer::Ok)?;
    run.answers.push(Answer::Number(509))?;
    let content = Bytes::from_slice(alloc, b"\xa5")?;
    run.answers.push(Answer::Content(content))?;
    run.answers.push(Answer::Object(Some(3)))?;
    run.answers.push(Answer::Object(None))?;
    run.answers.push(Answer::Base { index: 1, num: 2 })?;
    for failure in failures {
        run.answers.push(Answer::Failed(failure))?;
    }
    run.answers.push(Answer::Listener(ListenerError::NotFound))
}

fn add_calls(run: &mut Run) -> Result<(), OutOfMemory> {
    run.device.push(DeviceCall {
        op: DeviceOp::AckedFeatures(1 << 30),
        a: 1 << 30,
        b: 0,
        refused: false,
    })?;
    run.device.push(DeviceCall {
        op: DeviceOp::HandleEvent {
            token: 7,
            worker: 1,
        },
        a: 7,
        b: 1,
        refused: true,
    })
}

fn add_entry(alloc: Global, run: &mut Run) -> Result<(), OutOfMemory> {
    run.takes.push(Take {
        queue: 0,
        epoch: 1,
        number: 65536,
        head: 7,
        request: Bytes::from_slice(alloc, b"hello")?,
        room: 16,
    })?;
    run.uses.push(Used {
        queue: 0,
        epoch: 1,
        number: 65536,
        head: 7,
        reply: Bytes::new(alloc),
    })
}

fn add_stops(run: &mut Run) -> Result<(), OutOfMemory> {
    let handling = |why: Why| StopCause::Fault(VringEpollError::HandleEventBackendHandling(why));
    let causes = [
        StopCause::Exit,
        StopCause::Fault(VringEpollError::EpollWait),
        StopCause::Fault(VringEpollError::VringIndexOutOfRange(3)),
        handling(Why::Damage(Damage::IndexAhead)),
        handling(Why::RoomOutside),
        handling(Why::RingOutside),
        handling(Why::Device(-5)),
    ];
    for cause in causes {
        run.stops.push(Stop { worker: 2, cause })?;
    }
    Ok(())
}

fn add_places(alloc: Global, run: &mut Run) -> Result<(), OutOfMemory> {
    run.counts.push(Count {
        object: 2,
        count: 1,
    })?;
    run.written.push(Span {
        object: 0,
        offset: 8194,
        bytes: Bytes::from_slice(alloc, b"\x01\x00\xff")?,
    })
}

#[test]
fn a_run_is_told_line_by_line(rt: HostRuntime) -> Result<(), Fail> {
    let alloc = rt.alloc();
    let mut run = empty_run(alloc);
    let text = print_run(alloc, &run)?;
    assert_eq!(rt; text.as_slice(), b"turns 0 played 0 rest yes\n".as_slice());
    add_turns(&mut run)?;
    add_answers(alloc, &mut run)?;
    add_calls(&mut run)?;
    add_entry(alloc, &mut run)?;
    add_stops(&mut run)?;
    add_places(alloc, &mut run)?;
    let text = print_run(alloc, &run)?;
    let expected = b"turns 3 played 2 rest no
answer 0 ok
answer 1 ok 509
answer 2 content a5
answer 3 object 3
answer 4 object -
answer 5 base 1 2
answer 6 InvalidParam
answer 7 InvalidOperation already claimed
answer 8 ReqHandlerError device -5
answer 9 ReqHandlerError memory 8
answer 10 ReqHandlerError log 4
answer 11 ReqHandlerError
answer 12 SocketBroken
answer 13 NotFound
device acked_features 1073741824 0 ok
device handle_event 7 1 refused
take 0 1 65536 head 7 request 68656c6c6f room 16
use 0 1 65536 head 7 length 0 reply -
stop 2 exit
stop 2 EpollWait
stop 2 VringIndexOutOfRange
stop 2 HandleEventBackendHandling IndexAhead
stop 2 HandleEventBackendHandling RoomOutside
stop 2 HandleEventBackendHandling RingOutside
stop 2 HandleEventBackendHandling device -5
count 2 1
write 0 8194 0100ff
";
    assert_eq!(rt; text.as_slice(), expected.as_slice());
    Ok(())
}
