//! A device of its own, to begin with: a service, a set-up in code, a run of both, and what the run says.
//! `docs/LIBRARY.md` goes through it.
#![tactic(auto)]

mod machine;
mod mailbox;
mod playing;

use bibplush::{Answer, Run};
use mailbox::Mailbox;
use playing::play;
use std::io;
use std::str::from_utf8;

/// Prints what each entry left and got, what each request was answered, and whether anything is left to do.
fn print(rt: &impl Print, run: &Run) -> io::Result<()> {
    for (taken, used) in run.takes.iter().zip(run.uses.iter()) {
        let left = from_utf8(taken.request.as_slice()).unwrap_or("?");
        let got = from_utf8(used.reply.as_slice()).unwrap_or("?");
        println!(rt; "entry {}: left '{left}', got '{got}'", used.number)?;
    }
    for answer in run.answers.iter() {
        match answer {
            Answer::Base { index, num } => println!(rt; "queue {index} stopped at {num}")?,
            other => println!(rt; "{other:?}")?,
        }
    }
    let rest = if run.rest { "nothing" } else { "something" };
    println!(rt; "{rest} is left to do")
}

fn main(rt: HostRuntime) -> anyhow::Result<()> {
    let alloc = rt.alloc();
    let setup = machine::set_up(alloc)?;
    let schedule = machine::schedule(alloc)?;
    let mut device = machine::device(alloc)?;
    let mut service = Mailbox::new(alloc);
    let run = play(
        alloc,
        &setup,
        &mut device,
        &mut service,
        schedule.as_slice(),
    )?;
    print(&rt, &run)?;
    Ok(())
}
