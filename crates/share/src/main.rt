//! Plays the script on standard input, and writes the text of its run to standard output.
#![tactic(auto)]

use std::io::ErrorKind;
use std::process::ExitCode;
use std::rt::Env;
use std::{env, io};
use vub_share::{ReadSource, Status, WriteSink, run_script};

/// The arguments after the program's name.
fn words_of(rt: &(impl Env + AllocGlobal)) -> io::Result<Vec<String>> {
    let mut words: Vec<String> = Vec::new(rt.alloc());
    let mut args = env::args(rt)?;
    let _ = args.next();
    for word in args {
        words.push(word)?;
    }
    Ok(words)
}

/// The status where the arguments can't be had: want of memory, or a word that is no text.
fn status_without_words(error: &io::Error) -> u8 {
    let status = match error.kind() {
        ErrorKind::OutOfMemory => Status::Memory,
        _ => Status::Words,
    };
    status.number()
}

fn main(rt: HostRuntime) -> ExitCode {
    let status = match words_of(&rt) {
        Ok(words) => {
            let mut source = ReadSource::new(rt.reader());
            let mut sink = WriteSink::new(io::writer(&rt));
            run_script(rt.alloc(), words.as_slice(), &mut source, &mut sink).status
        }
        Err(error) => status_without_words(&error),
    };
    if let Some(complaint) = Status::from_number(status).and_then(|status| status.complaint()) {
        let _ = eprintln!(rt; "vub_share: {complaint}");
    }
    ExitCode::from(status)
}
