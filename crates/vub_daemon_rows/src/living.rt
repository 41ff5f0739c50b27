//! `run_live` over threads of std.
use std::alloc::Global;
use std::sync::Wait;
use std::sync::atomic::{AtomicU64, Ordering};
use std::test::Fail;
use std::thread::Threads;
use vub_base::OutOfMemory;
use vub_daemon::DaemonEnd;
use vub_jobs::start_daemon_job;
use vub_live::{LiveJob, run_live};
use vub_stream::MemSink;
use vub_threads::{CallSpawner, Spawner, StdTask, Task};

/// An empty sink with room for the line.
fn sink_of(alloc: Global) -> Result<MemSink, OutOfMemory> {
    MemSink::new(alloc, 64, 64, Vec::new(alloc), Vec::new(alloc))
}

/// Runs with two workers and four entries each, and gives the status.
fn lives<R: Wait + Copy, T: Task<DaemonEnd> + Drop, S: Spawner<LiveJob<R>, Task = T> + Drop>(
    rt: R,
    alloc: Global,
    sink: &mut MemSink,
    spawner: S,
) -> Result<u8, Fail>
    requires { S.can_spawn spawner }
{
    let words = vec![in alloc;
        String::from_str(alloc, "2")?,
        String::from_str(alloc, "4")?,
    ]?;
    let (lived, _spawner) = run_live(rt, alloc, words.as_slice(), sink, spawner);
    Ok(lived.status)
}

/// Runs in threads of std, and gives the status and the number of jobs that were started.
fn lives_in_threads<R: Threads + Wait + Copy + Send + 'static>(
    rt: R,
    alloc: Global,
    sink: &mut MemSink,
) -> Result<(u8, u64), Fail> {
    let calls = AtomicU64::new(0);
    let spawner = CallSpawner::new(|job: LiveJob<R>| {
        calls.fetch_add(1, Ordering::SeqCst);
        start_daemon_job(rt, alloc, job)
    });
    let status = lives(rt, alloc, sink, spawner)?;
    Ok((status, calls.load(Ordering::SeqCst)))
}

#[test]
fn live_spawns(rt: HostRuntime) -> Result<(), Fail> {
    let alloc: Global = rt.alloc();
    let mut sink = sink_of(alloc)?;
    assert_eq!(rt; lives_in_threads(rt, alloc, &mut sink)?, (0, 3));
    assert!(rt; sink.bytes() == b"workers 2 entries 8 uses 8 match\n".as_slice());
    Ok(())
}

/// Runs without threads, and gives the status.
fn lives_without_threads<R: Threads + Wait + Copy + Send + 'static>(
    rt: R,
    alloc: Global,
    sink: &mut MemSink,
) -> Result<u8, Fail> {
    let spawner = CallSpawner::new(|job: LiveJob<R>| -> Result<StdTask<R, LiveJob<R>>, LiveJob<R>> {
        Err(job)
    });
    lives(rt, alloc, sink, spawner)
}

#[test]
fn a_live_run_without_threads_writes_nothing(rt: HostRuntime) -> Result<(), Fail> {
    let alloc: Global = rt.alloc();
    let mut sink = sink_of(alloc)?;
    assert_eq!(rt; lives_without_threads(rt, alloc, &mut sink)?, 8);
    assert!(rt; sink.bytes().is_empty());
    Ok(())
}
