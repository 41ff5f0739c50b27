//! Plays the script on standard input, and writes a line for each turn of its run to standard output. Where there is no
//! run, it says why on standard error.
#![tactic(auto)]

use std::io::ErrorKind;
use std::process::ExitCode;
use std::rt::Env;
use std::{env, io};
use vub_share::{NoRun, ReadSource, Status, WriteSink};
use vub_trace::{Traced, trace_script};

/// The arguments after the program's name.
fn words_of(rt: &(impl Env + AllocGlobal)) -> io::Result<Vec<String>> {
    let mut words: Vec<String> = Vec::new(rt.alloc());
    let mut args = env::args(rt)?;
    let _ = args.next();
    for word in args {
        words.push(word)?;
    }
    Ok(words)
}

/// How the program ends where the arguments can't be had: want of memory, or a word that is no text.
fn traced_without_words(error: &io::Error) -> Traced {
    match error.kind() {
        ErrorKind::OutOfMemory => Traced {
            status: Status::Memory.number(),
            why: Some(NoRun::Memory),
        },
        _ => Traced {
            status: Status::Words.number(),
            why: None,
        },
    }
}

fn main(rt: HostRuntime) -> ExitCode {
    let traced = match words_of(&rt) {
        Ok(words) => {
            let mut source = ReadSource::new(rt.reader());
            let mut sink = WriteSink::new(io::writer(&rt));
            trace_script(rt.alloc(), words.as_slice(), &mut source, &mut sink)
        }
        Err(error) => traced_without_words(&error),
    };
    let Traced { status, why } = traced;
    if let Some(complaint) = Status::from_number(status).and_then(|status| status.complaint()) {
        let _ = eprintln!(rt; "trace: {complaint}");
    }
    if let Some(why) = why {
        let _ = eprintln!(rt; "{why}");
    }
    ExitCode::from(status)
}
