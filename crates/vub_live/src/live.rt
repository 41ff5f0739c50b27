//! A daemon that serves all entries of its guest, and what it came to.
ghost use Rattle.std.specs.Prelude.{◌≡◌, ◌⊎◌, ◌↔◌, ◌*◌, ◌++◌, ℕ, true, false, None, IfOk, IfErr, IfSome, IsSome, OnOk, map, string_bytes};
ghost use Rattle.std.specs.Io.KnownBytes.{Appends};
ghost use Rattle.vub_base.specs.Causes.{Rose};
ghost use Rattle.vub_stream.specs.Whole.{WritesFront};
ghost use Rattle.vub_daemon.specs.Reports.{IsReportError};
ghost use Rattle.vub_live.specs.Lived.{IsMismatch, IsMissing, is_status, line, writes};
ghost use Rattle.vub_live.specs.Words.{asked};

use crate::guest::{USED_INDEX, live_device, push_queue, push_table, queue_content};
use crate::lived::{Lived, Missing, missing_of};
use crate::words::{Asked, asked_by};
use std::alloc::Global;
use std::sync::Wait;
use std::thread;
use vub_attend::{Link, MemLink};
use vub_base::OutOfMemory;
use vub_daemon::{DaemonEnd, DaemonJob, Error, Report, VhostUserDaemon};
use vub_locks::{Gate, NoGate};
use vub_proto::{Echo, FixedDevice, Request, Service, VhostUserBackendMut, VhostUserError};
use vub_stream::{Sink, write_all};
use vub_threads::{Spawner, Task};

/// What the threads of a live run do.
pub type LiveJob<R> = DaemonJob<R, FixedDevice, Echo, NoGate, MemLink>;

/// Waits until the used index of a queue with this content is this one. False where there is no such content.
///
/// # Errors
/// Want of memory.
pub fn await_used<
    R: Wait + Copy,
    D: VhostUserBackendMut,
    V: Service,
    G: Gate + Drop,
    K: Link + Drop,
    T: Task<DaemonEnd> + Drop,
    S: Drop,
>(
    rt: &R,
    daemon: &VhostUserDaemon<R, D, V, G, K, T, S>,
    content: u32,
    used: u16,
) -> Result<bool, OutOfMemory> {
    for _ in rt.forever() {
        match daemon.read_content(content, USED_INDEX, 2)? {
            None => return Ok(false),
            Some(index) => {
                if index.as_slice() == used.to_le_bytes().as_slice() {
                    return Ok(true);
                }
            }
        }
        thread::yield_now();
    }
    unreachable!()
}

/// Gives a daemon the contents and events of so many queues, each with so many entries, and gives the requests that
/// start them. The contents are numbered by queue, where none was added before.
///
/// # Errors
/// Want of memory.
pub fn furnish<
    R: Wait + Copy,
    D: VhostUserBackendMut,
    V: Service,
    G: Gate + Drop,
    K: Link + Drop,
    T: Task<DaemonEnd> + Drop,
    S: Drop,
>(
    alloc: Global,
    daemon: &VhostUserDaemon<R, D, V, G, K, T, S>,
    queues: u32,
    entries: u16,
) -> Result<Vec<Request>, OutOfMemory> {
    let mut contents = Vec::new(alloc);
    for queue in 0..queues {
        let content = queue_content(alloc, queue, entries)?;
        contents.push(daemon.add_content(content)?)?;
    }
    let mut requests = Vec::new(alloc);
    push_table(alloc, &mut requests, contents.as_slice())?;
    for queue in 0..queues {
        let (Ok(kick), Ok(call)) = (daemon.add_event(0), daemon.add_event(0)) else {
            return Err(OutOfMemory);
        };
        push_queue(&mut requests, queue, kick, call)?;
    }
    Ok(requests)
}

/// A daemon over an echo service.
type LiveDaemon<R, T, S> = VhostUserDaemon<R, FixedDevice, Echo, NoGate, MemLink, T, S>;

/// Waits until this many entries are used on each of these queues.
///
/// # Errors
/// Want of memory.
fn await_all<R: Wait + Copy, T: Task<DaemonEnd> + Drop, S: Drop>(
    rt: &R,
    daemon: &LiveDaemon<R, T, S>,
    asked: Asked,
) -> Result<(), OutOfMemory> {
    for content in 0..asked.workers {
        if !await_used(rt, daemon, content, asked.entries)? {
            return Err(OutOfMemory);
        }
    }
    Ok(())
}

/// Starts a control thread that starts the queues, and waits until it has ended.
///
/// # Errors
/// A control thread that was not started, only where the spawner's count rose; want of memory.
fn start_queues<R: Wait + Copy, T: Task<DaemonEnd> + Drop, S: Spawner<LiveJob<R>, Task = T> + Drop>(
    alloc: Global,
    daemon: &mut LiveDaemon<R, T, S>,
    asked: Asked,
) -> Result<(), Missing>
    requires can { S.can_spawn daemon.old.spawner }
    requires alone { daemon.old.connected ≡ false }
    ensures over { daemon.new.connected ≡ false }
    ensures count { OnOk result (S.fault_count daemon.new.spawner ≡ S.fault_count daemon.old.spawner) }
    ensures err { IfErr result (IsMissing (S.fault_count daemon.old.spawner) (S.fault_count daemon.new.spawner)) }
{
    let Ok(requests) = furnish(alloc, &*daemon, asked.workers, asked.entries) else {
        return Err(Missing::Memory);
    };
    let link = MemLink::new(alloc, requests, VhostUserError::SocketBroken);
    match daemon.start(link) {
        Ok(()) => {
            let _waited = daemon.wait();
            Ok(())
        }
        Err((error, _link)) => Err(missing_of(error)),
    }
}

/// Starts the queues, and waits until all entries are used.
///
/// # Errors
/// As of `start_queues`.
fn play<R: Wait + Copy, T: Task<DaemonEnd> + Drop, S: Spawner<LiveJob<R>, Task = T> + Drop>(
    rt: &R,
    alloc: Global,
    daemon: &mut LiveDaemon<R, T, S>,
    asked: Asked,
) -> Result<(), Missing>
    requires can { S.can_spawn daemon.old.spawner }
    requires alone { daemon.old.connected ≡ false }
    ensures over { daemon.new.connected ≡ false }
    ensures count { OnOk result (S.fault_count daemon.new.spawner ≡ S.fault_count daemon.old.spawner) }
    ensures err { IfErr result (IsMissing (S.fault_count daemon.old.spawner) (S.fault_count daemon.new.spawner)) }
{
    start_queues(alloc, daemon, asked)?;
    match await_all(rt, &*daemon, asked) {
        Ok(()) => Ok(()),
        Err(_) => Err(Missing::Memory),
    }
}

/// The report of a daemon that was closed, if all was played.
///
/// # Errors
/// Why not all was played; a Mismatch; want of memory.
fn reported(played: Result<(), Missing>, closed: Result<Report, Error>) -> Result<Report, Missing>
    requires { IfErr closed IsReportError }
    ensures { (before now : ℕ) → IfErr played (IsMissing before now) → IfErr result (IsMissing before now) }
{
    played?;
    match closed {
        Ok(report) => Ok(report),
        Err(error) => Err(missing_of(error)),
    }
}

/// Runs a daemon until all entries are used, and closes it. Gives the spawner back.
///
/// # Errors
/// Why there is no report.
fn report_of<R: Wait + Copy, T: Task<DaemonEnd> + Drop, S: Spawner<LiveJob<R>, Task = T> + Drop>(
    rt: R,
    alloc: Global,
    asked: Asked,
    spawner: S,
) -> (Result<Report, Missing>, S)
    requires { S.can_spawn spawner }
    ensures { IfErr result.0 (IsMissing (S.fault_count spawner) (S.fault_count result.1)) }
{
    let Ok(device) = live_device(alloc, asked.workers) else {
        return (Err(Missing::Memory), spawner);
    };
    let name = String::new(alloc);
    match VhostUserDaemon::new(rt, alloc, name, device, Echo, spawner, NoGate) {
        Ok(daemon) => {
            let mut daemon = daemon;
            let played = play(&rt, alloc, &mut daemon, asked);
            let (closed, spawner) = daemon.close_and_give_back();
            (reported(played, closed), spawner)
        }
        Err((error, spawner)) => (Err(missing_of(error)), spawner),
    }
}

/// The number of entries on all queues.
fn total_of(asked: Asked) -> u64
    ensures { result ≡ asked.workers * asked.entries }
{
    asked.workers as u64 * asked.entries as u64
}

/// Adds the line of what was asked for and used.
///
/// # Errors
/// Want of memory.
fn push_line(text: &mut String, asked: Asked, uses: u64) -> Result<(), OutOfMemory>
    ensures { OnOk result (string_bytes text.new ≡ string_bytes text.old ++ line asked uses) }
{
    let workers = asked.workers;
    let entries = total_of(asked);
    write!(
        text,
        "workers {workers} entries {entries} uses {uses} match\n"
    )?;
    Ok(())
}

/// The line of what was asked for and used.
///
/// # Errors
/// Want of memory.
fn line_of(alloc: Global, asked: Asked, uses: u64) -> Result<String, OutOfMemory>
    ensures { IfOk result (λ text. string_bytes text ≡ line asked uses) }
{
    let mut text = String::new(alloc);
    push_line(&mut text, asked, uses)?;
    Ok(text)
}

/// Writes the line. It is whole in memory before its first byte is written.
fn write_line<K: Sink>(alloc: Global, asked: Asked, uses: u64, sink: &mut K) -> Lived
    ensures done { result.status ≡ 0 → Appends (K.taken sink.old) (K.taken sink.new) (line asked uses) }
    ensures write { result.status ≡ 5 → Rose (K.fault_count sink.old) (K.fault_count sink.new) }
    ensures front { result.status ≡ 5 → WritesFront (K.taken sink.old) (K.taken sink.new) (line asked uses) }
    ensures memory { result.status ≡ 6 → sink.new ≡ sink.old }
    ensures mismatch { result.mismatch ≡ None }
    ensures statuses { (result.status ≡ 0) ⊎ (result.status ≡ 5) ⊎ (result.status ≡ 6) }
{
    let Ok(text) = line_of(alloc, asked, uses) else {
        return Lived::with(6);
    };
    match write_all(sink, text.as_bytes()) {
        Ok(()) => Lived::with(0),
        Err(_) => Lived::with(5),
    }
}

/// Serves N entries on each of W queues by W workers in threads of their own, W and N being the words, and writes a
/// line of what was used, once it was compared with the calls of the service. W is from 1 to 8 and N from 1 to 256, in
/// decimal digits without a leading zero. Gives the spawner back. It may wait for ever.
///
/// Its status is, in this order: 1 for other words; 8 where a thread was not started; 9 where uses and calls differ,
/// with the Mismatch; 5 for a fault of the sink; 0 where all was written; and anywhere 6 for want of memory. Only at 0
/// and 5 something was written: the line, or a front of it.
pub fn run_live<
    R: Wait + Copy,
    K: Sink,
    T: Task<DaemonEnd> + Drop,
    S: Spawner<LiveJob<R>, Task = T> + Drop,
>(rt: R, alloc: Global, words: &[String], sink: &mut K, spawner: S) -> (Lived, S)
    requires { S.can_spawn spawner }
    // each status and its cause
    ensures words { (result.0.status ≡ 1) ↔ (asked (map string_bytes words.now) ≡ None) }
    ensures spawn { result.0.status ≡ 8 → Rose (S.fault_count spawner) (S.fault_count result.1) }
    ensures mismatch { (result.0.status ≡ 9) ↔ IsSome result.0.mismatch }
    ensures differ { IfSome result.0.mismatch IsMismatch }
    ensures write { result.0.status ≡ 5 → Rose (K.fault_count sink.old) (K.fault_count sink.new) }
    ensures statuses { is_status result.0.status ≡ true }
    // what was written
    ensures done { result.0.status ≡ 0 → IfSome (asked (map string_bytes words.now)) (λ a.
        (uses : ℕ) × Appends (K.taken sink.old) (K.taken sink.new) (line a uses)) }
    ensures front { result.0.status ≡ 5 → IfSome (asked (map string_bytes words.now)) (λ a.
        (uses : ℕ) × WritesFront (K.taken sink.old) (K.taken sink.new) (line a uses)) }
    ensures nothing { writes result.0.status ≡ false → sink.new ≡ sink.old }
{
    let Some(asked) = asked_by(words) else {
        return (Lived::with(1), spawner);
    };
    let (reported, spawner) = report_of(rt, alloc, asked, spawner);
    match reported {
        Ok(report) => (write_line(alloc, asked, report.uses, sink), spawner),
        Err(missing) => (Lived::without(missing), spawner),
    }
}
