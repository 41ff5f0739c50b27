//! A script played through the whole program, over streams in memory.

use std::alloc::Global;
use std::process::Abort;
use vub_base::{Bytes, OutOfMemory};
use vub_share::{Finished, MemSink, MemSource, Sink, Source, run_script};

/// How streams in memory behave: the greatest piece, and the numbers of the calls with a fault.
#[derive(Drop)]
pub struct Streams {
    /// The greatest number of bytes that a read gives.
    pub read_piece: usize,
    /// The read that fails.
    pub failing_read: Option<u64>,
    /// The greatest number of bytes that a write takes.
    pub write_piece: usize,
    /// The write that fails.
    pub failing_write: Option<u64>,
    /// The write that takes no byte.
    pub stalling_write: Option<u64>,
}

/// Streams without a fault.
pub fn sound_streams() -> Streams {
    Streams {
        read_piece: 4096,
        failing_read: None,
        write_piece: 4096,
        failing_write: None,
        stalling_write: None,
    }
}

/// How the program ended, and what was written.
#[derive(Drop)]
pub struct Played {
    pub status: u8,
    pub has_run: bool,
    pub written: Bytes,
}

fn listed(alloc: Global, call: Option<u64>) -> Result<Vec<u64>, OutOfMemory> {
    let mut calls: Vec<u64> = Vec::new(alloc);
    if let Some(call) = call {
        calls.push(call)?;
    }
    Ok(calls)
}

fn finished<S: Source, K: Sink>(
    alloc: Global,
    words: &[String],
    source: &mut S,
    sink: &mut K,
) -> Finished {
    run_script(alloc, words, source, sink)
}

/// The play has ended with this status, this was written, and a run was handed back exactly at 0 and 5.
pub fn expect(rt: &impl Abort, name: &str, played: &Played, status: u8, written: &str) {
    assert_eq!(rt; played.status, status, "{name}");
    assert_eq!(rt; played.has_run, status == 0 || status == 5, "{name}");
    assert_eq!(rt; played.written.as_slice(), written.as_bytes(), "{name}");
}

/// Plays the input with these words.
pub fn play(
    alloc: Global,
    words: &[String],
    input: Vec<u8>,
    streams: &Streams,
) -> Result<Played, OutOfMemory> {
    let failing = listed(alloc, streams.failing_read)?;
    let mut source = MemSource::new(input, streams.read_piece.max(1), failing);
    let failing = listed(alloc, streams.failing_write)?;
    let stalling = listed(alloc, streams.stalling_write)?;
    let mut sink = MemSink::new(alloc, 16_384, streams.write_piece.max(1), failing, stalling)?;
    let finished = finished(alloc, words, &mut source, &mut sink);
    let written = Bytes::from_slice(alloc, sink.bytes())?;
    Ok(Played {
        status: finished.status,
        has_run: finished.run.is_some(),
        written,
    })
}
