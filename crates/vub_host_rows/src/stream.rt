use crate::shown::{show, tell};
use std::alloc::Global;
use std::test::Fail;
use vub_stream::{
    Input, MemSink, MemSource, ReadSource, Sink, SinkError, Source, SourceError, WriteSink,
    read_input, write_all,
};

fn found_in<S: Source>(alloc: Global, source: &mut S) -> Result<Option<Vec<u8>>, SourceError> {
    match read_input(alloc, source)? {
        Input::Whole(bytes) => Ok(Some(bytes.into_vec())),
        Input::TooLong => Ok(None),
    }
}

fn written_to<K: Sink>(sink: &mut K, text: &[u8]) -> Result<(), SinkError> {
    write_all(sink, text)
}

#[test]
fn an_input_is_read_to_its_end(rt: HostRuntime) -> Result<(), Fail> {
    let alloc = rt.alloc();
    let mut source = MemSource::new(Vec::from_slice(alloc, b"hello")?, 2, Vec::new(alloc));
    let found = found_in(alloc, &mut source).ok().flatten();
    assert!(rt; found.is_some_and(|bytes| bytes.as_slice() == b"hello".as_slice()));
    assert_eq!(rt; source.faults(), 0);
    let mut source = ReadSource::new(b"hello".as_slice());
    let found = found_in(alloc, &mut source).ok().flatten();
    assert!(rt; found.is_some_and(|bytes| bytes.as_slice() == b"hello".as_slice()));
    assert_eq!(rt; source.faults(), 0);
    let mut source = MemSource::new(Vec::from_slice(alloc, b"hello")?, 2, vec![in alloc; 1]?);
    assert!(rt; matches!(found_in(alloc, &mut source), Err(SourceError::Failed)));
    assert_eq!(rt; source.faults(), 1);
    Ok(())
}

#[test]
fn a_text_is_written_piece_by_piece(rt: HostRuntime) -> Result<(), Fail> {
    let alloc = rt.alloc();
    let none = || Vec::new(alloc);
    let mut sink = MemSink::new(alloc, 8, 2, none(), none())?;
    assert!(rt; written_to(&mut sink, b"hello").is_ok());
    assert_eq!(rt; sink.bytes(), b"hello".as_slice());
    // the fourth piece finds room for one byte, the fifth for none
    assert!(rt; written_to(&mut sink, b"world").is_err());
    assert_eq!(rt; sink.bytes(), b"hellowor".as_slice());
    assert_eq!(rt; sink.faults(), 1);
    let mut sink = WriteSink::new(Vec::new(alloc));
    assert!(rt; written_to(&mut sink, b"hello").is_ok());
    assert_eq!(rt; sink.faults(), 0);
    Ok(())
}

/// What `Debug` shows of a source and a sink, and the texts of their faults.
const SHOWN: &str = "\
MemSource { bytes: [104, 105], at: 0, piece: 2, failing: [], calls: 0, ended: false, faults: 0 }
MemSink { bytes: [], room: 8, piece: 3, failing: [5], stalling: [], calls: 0, faults: 0 }
read fault
write fault
";

#[test]
fn types_are_shown(rt: HostRuntime) -> Result<(), Fail> {
    let alloc = rt.alloc();
    let source = MemSource::new(Vec::from_slice(alloc, b"hi")?, 2, Vec::new(alloc));
    let sink = MemSink::new(alloc, 8, 3, vec![in alloc; 5]?, Vec::new(alloc))?;
    let mut shown = String::new(alloc);
    show(alloc, &mut shown, &source)?;
    show(alloc, &mut shown, &sink)?;
    tell(alloc, &mut shown, &SourceError::Failed)?;
    tell(alloc, &mut shown, &SinkError::Failed)?;
    assert_eq!(rt; shown.as_str(), SHOWN);
    Ok(())
}
