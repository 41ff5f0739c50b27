//! Runs a daemon over an echo service in threads: W workers, each with a queue of N entries, W and N being its words.
#![tactic(auto)]

use std::alloc::Global;
use std::io::ErrorKind;
use std::process::ExitCode;
use std::rt::Env;
use std::sync::Wait;
use std::thread::Threads;
use std::{env, io};
use vub_jobs::start_daemon_job;
use vub_live::{LiveJob, Lived, complaint_of, run_live};
use vub_stream::{Sink, WriteSink};
use vub_threads::CallSpawner;

/// The arguments after the program's name.
fn words_of(rt: &(impl Env + AllocGlobal)) -> io::Result<Vec<String>> {
    let mut words: Vec<String> = Vec::new(rt.alloc());
    let mut args = env::args(rt)?;
    let _ = args.next();
    for word in args {
        words.push(word)?;
    }
    Ok(words)
}

/// The status where the arguments can't be had: want of memory, or a word that is no text.
fn status_without_words(error: &io::Error) -> u8 {
    match error.kind() {
        ErrorKind::OutOfMemory => 6,
        _ => 1,
    }
}

/// Runs with these words, in threads of std.
fn run<R: Threads + Wait + Copy + Send + 'static, K: Sink>(
    rt: R,
    alloc: Global,
    words: &[String],
    sink: &mut K,
) -> Lived {
    let spawner = CallSpawner::new(|job: LiveJob<R>| start_daemon_job(rt, alloc, job));
    let (lived, _spawner) = run_live(rt, alloc, words, sink, spawner);
    lived
}

fn main(rt: HostRuntime) -> ExitCode {
    let alloc: Global = rt.alloc();
    let status = match words_of(&rt) {
        Ok(words) => {
            let mut sink = WriteSink::new(io::writer(&rt));
            run(rt, alloc, words.as_slice(), &mut sink).status
        }
        Err(error) => status_without_words(&error),
    };
    if let Some(complaint) = complaint_of(status) {
        let _ = eprintln!(rt; "vub_live: {complaint}");
    }
    ExitCode::from(status)
}
