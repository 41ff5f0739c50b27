use std::alloc::Global;
use std::process::Abort;
use std::test::Fail;
use vub_base::Bytes;
use vub_dir::fuse::{
    FUSE_FORGET, FUSE_GETATTR, FUSE_INIT, FUSE_LOOKUP, FUSE_OPEN, FUSE_READ, FUSE_READDIR,
    FUSE_WRITE,
};
use vub_dir::{DirService, Tree, TreeEntry, TreeError, reply};
use vub_proto::Service;

/// A field of a layout, in little-endian order.
#[derive(Clone, Copy)]
enum Field {
    U32(u32),
    U64(u64),
}

fn put_fields(out: &mut Vec<u8>, fields: &[Field]) -> Result<(), Fail> {
    for field in fields {
        match *field {
            Field::U32(number) => out.extend_from_slice(&number.to_le_bytes())?,
            Field::U64(number) => out.extend_from_slice(&number.to_le_bytes())?,
        }
    }
    Ok(())
}

/// The body of a request.
#[derive(Clone, Copy)]
enum Body {
    /// These bytes.
    Is(&'static [u8]),
    /// So many zero bytes.
    Zeros(usize),
    /// Of INIT, with this major version.
    Major(u32),
    /// Of READ, WRITE or READDIR: an offset, a size, and the bytes that follow.
    Part(u64, u32, &'static [u8]),
}

/// A request's opcode, node and body, the room, and the length and the error of the reply.
#[derive(Clone, Copy)]
struct Case(u32, u64, Body, u32, usize, u32);

const STATFS: u32 = 17;

const OPENDIR: u32 = 27;

const NO_BODY: Body = Body::Zeros(0);

const WHOLE: Body = Body::Part(0, 4096, b"");

/// Served one after the other: a session, then each error of each opcode in its order, rooms, listings and writes.
const CASES: [Case; 58] = [
    Case(FUSE_INIT, 0, Body::Major(7), 4096, 80, 0),
    Case(FUSE_LOOKUP, 1, Body::Is(b"a\0"), 4096, 144, 0),
    Case(FUSE_OPEN, 2, Body::Zeros(8), 4096, 32, 0),
    Case(FUSE_READ, 2, WHOLE, 4096, 22, 0),
    Case(STATFS, 1, NO_BODY, 4096, 16, 38),
    Case(OPENDIR, 9, NO_BODY, 4096, 16, 38),
    Case(FUSE_FORGET, 9, NO_BODY, 4096, 0, 0),
    Case(FUSE_INIT, 0, Body::Zeros(15), 4096, 16, 22),
    Case(FUSE_INIT, 0, Body::Major(6), 4096, 16, 71),
    Case(FUSE_LOOKUP, 9, Body::Is(b"a"), 4096, 16, 22),
    Case(FUSE_LOOKUP, 9, Body::Is(b"a\0"), 4096, 16, 2),
    Case(FUSE_LOOKUP, 2, Body::Is(b"a\0"), 4096, 16, 20),
    Case(FUSE_LOOKUP, 1, Body::Is(b"b\0"), 4096, 16, 2),
    Case(FUSE_LOOKUP, 3, Body::Is(b"b\0more"), 4096, 144, 0),
    Case(FUSE_GETATTR, 0, NO_BODY, 4096, 16, 2),
    Case(FUSE_GETATTR, 5, NO_BODY, 4096, 16, 2),
    Case(FUSE_GETATTR, 1, NO_BODY, 0, 0, 0),
    Case(FUSE_GETATTR, 1, NO_BODY, 15, 0, 0),
    Case(FUSE_GETATTR, 1, NO_BODY, 16, 16, 5),
    Case(FUSE_GETATTR, 1, NO_BODY, 119, 16, 5),
    Case(FUSE_GETATTR, 1, NO_BODY, 120, 120, 0),
    Case(FUSE_OPEN, 9, Body::Zeros(7), 4096, 16, 22),
    Case(FUSE_OPEN, 9, Body::Zeros(8), 4096, 16, 2),
    Case(FUSE_OPEN, 3, Body::Zeros(8), 4096, 16, 21),
    Case(FUSE_READ, 9, Body::Zeros(39), 4096, 16, 22),
    Case(FUSE_READ, 9, WHOLE, 4096, 16, 2),
    Case(FUSE_READ, 3, WHOLE, 4096, 16, 21),
    Case(FUSE_READ, 3, WHOLE, 15, 0, 0),
    Case(FUSE_READ, 2, WHOLE, 21, 16, 5),
    Case(FUSE_READ, 2, Body::Part(4, 1, b""), 4096, 17, 0),
    Case(FUSE_READ, 2, Body::Part(u64::MAX, 1, b""), 4096, 16, 0),
    Case(FUSE_READDIR, 9, Body::Zeros(39), 4096, 16, 22),
    Case(FUSE_READDIR, 9, WHOLE, 4096, 16, 2),
    Case(FUSE_READDIR, 2, WHOLE, 4096, 16, 20),
    Case(FUSE_READDIR, 3, WHOLE, 47, 16, 5),
    Case(FUSE_READDIR, 1, Body::Part(0, 31, b""), 4096, 16, 0),
    Case(FUSE_READDIR, 1, Body::Part(0, 32, b""), 4096, 48, 0),
    Case(FUSE_READDIR, 1, Body::Part(0, 63, b""), 4096, 48, 0),
    Case(FUSE_READDIR, 1, Body::Part(0, 64, b""), 4096, 80, 0),
    Case(FUSE_READDIR, 1, Body::Part(1, 4096, b""), 4096, 48, 0),
    Case(FUSE_READDIR, 1, Body::Part(2, 4096, b""), 4096, 16, 0),
    Case(
        FUSE_READDIR,
        1,
        Body::Part(u64::MAX, u32::MAX, b""),
        4096,
        16,
        0,
    ),
    Case(FUSE_WRITE, 9, Body::Zeros(39), 4096, 16, 22),
    Case(FUSE_WRITE, 9, Body::Part(16_777_216, 2, b"x"), 4096, 16, 2),
    Case(FUSE_WRITE, 3, Body::Part(16_777_216, 2, b"x"), 4096, 16, 21),
    Case(FUSE_WRITE, 2, Body::Part(16_777_216, 2, b"x"), 4096, 16, 22),
    Case(FUSE_WRITE, 2, Body::Part(16_777_216, 1, b"x"), 4096, 16, 27),
    Case(FUSE_WRITE, 2, Body::Part(u64::MAX, 1, b"x"), 4096, 16, 27),
    Case(FUSE_WRITE, 2, Body::Part(16_777_217, 0, b""), 4096, 16, 27),
    Case(FUSE_WRITE, 2, Body::Part(16_777_216, 0, b""), 4096, 24, 0),
    // where the reply has no room the file stays
    Case(FUSE_WRITE, 2, Body::Part(8, 2, b"xy"), 23, 16, 5),
    Case(FUSE_READ, 2, WHOLE, 4096, 22, 0),
    Case(FUSE_WRITE, 2, Body::Part(8, 2, b"xy"), 24, 24, 0),
    Case(FUSE_READ, 2, WHOLE, 4096, 26, 0),
    Case(FUSE_WRITE, 4, Body::Part(16_777_215, 1, b"x"), 24, 24, 0),
    Case(FUSE_READ, 4, Body::Part(16_777_200, 4096, b""), 4096, 32, 0),
    Case(FUSE_WRITE, 4, Body::Part(0, 3, b"new"), 24, 24, 0),
    Case(FUSE_READ, 4, Body::Part(16_777_200, 4096, b""), 4096, 32, 0),
];

/// Whole replies, after those cases.
const REPLIES: [(Case, &[u8]); 4] = [
    (
        Case(FUSE_READ, 2, WHOLE, 4096, 26, 0),
        b"\x1a\0\0\0\0\0\0\0\x4d\0\0\0\0\0\0\0abcdef\0\0xy",
    ),
    (
        Case(FUSE_GETATTR, 2, NO_BODY, 120, 120, 0),
        b"x\0\0\0\0\0\0\0M\0\0\0\0\0\0\0\
            \0\0\0\0\0\0\0\0\0\0\0\0\0\0\0\0\
            \x02\0\0\0\0\0\0\0\x0a\0\0\0\0\0\0\0\x01\0\0\0\0\0\0\0\
            \0\0\0\0\0\0\0\0\0\0\0\0\0\0\0\0\0\0\0\0\0\0\0\0\
            \0\0\0\0\0\0\0\0\0\0\0\0\
            \xa4\x81\0\0\x01\0\0\0\0\0\0\0\
            \0\0\0\0\0\0\0\0\0\x10\0\0\0\0\0\0",
    ),
    (
        Case(FUSE_READDIR, 1, Body::Part(1, 4096, b""), 4096, 48, 0),
        b"0\0\0\0\0\0\0\0M\0\0\0\0\0\0\0\
            \x03\0\0\0\0\0\0\0\x02\0\0\0\0\0\0\0\x01\0\0\0\x04\0\0\0\
            d\0\0\0\0\0\0\0",
    ),
    (
        Case(FUSE_GETATTR, 4, NO_BODY, 120, 120, 0),
        b"x\0\0\0\0\0\0\0M\0\0\0\0\0\0\0\
            \0\0\0\0\0\0\0\0\0\0\0\0\0\0\0\0\
            \x04\0\0\0\0\0\0\0\0\0\0\x01\0\0\0\0\0\x80\0\0\0\0\0\0\
            \0\0\0\0\0\0\0\0\0\0\0\0\0\0\0\0\0\0\0\0\0\0\0\0\
            \0\0\0\0\0\0\0\0\0\0\0\0\
            \xa4\x81\0\0\x01\0\0\0\0\0\0\0\
            \0\0\0\0\0\0\0\0\0\x10\0\0\0\0\0\0",
    ),
];

/// A request whose length field is off by so much.
const LENGTHS: [(u32, u32, usize, u32); 5] = [
    (FUSE_GETATTR, 0, 120, 0),
    (FUSE_GETATTR, 1, 16, 22),
    (FUSE_GETATTR, u32::MAX, 16, 22),
    (STATFS, 1, 16, 22),
    (FUSE_FORGET, 1, 0, 0),
];

const NAMES: [(&[u8], Option<TreeError>); 9] = [
    (&[b'n'; 255], None),
    (&[b'n'; 256], Some(TreeError::Name)),
    (b"", Some(TreeError::Name)),
    (b".", Some(TreeError::Name)),
    (b"..", Some(TreeError::Name)),
    (b"...", None),
    (b"a/b", Some(TreeError::Name)),
    (b"a\0", Some(TreeError::Name)),
    (b"twice", Some(TreeError::Twice)),
];

fn fields_and(alloc: Global, fields: &[Field], more: &[u8]) -> Result<Vec<u8>, Fail> {
    let mut out = Vec::new(alloc);
    put_fields(&mut out, fields)?;
    out.extend_from_slice(more)?;
    Ok(out)
}

fn bytes_of(alloc: Global, body: Body) -> Result<Vec<u8>, Fail> {
    match body {
        Body::Is(bytes) => fields_and(alloc, &[], bytes),
        Body::Zeros(count) => Ok(vec![in alloc; 0u8; count]?),
        Body::Major(major) => fields_and(alloc, &[Field::U32(major), Field::U32(38)], &[0; 8]),
        Body::Part(offset, size, bytes) => {
            let zero = Field::U64(0);
            let fields = [
                zero,
                Field::U64(offset),
                Field::U32(size),
                Field::U32(0),
                zero,
                zero,
            ];
            fields_and(alloc, &fields, bytes)
        }
    }
}

fn asked(alloc: Global, opcode: u32, node: u64, body: &[u8], off: u32) -> Result<Vec<u8>, Fail> {
    let length = u32::try_from(body.len())?.wrapping_add(40);
    let header = [
        Field::U32(length.wrapping_add(off)),
        Field::U32(opcode),
        Field::U64(77),
        Field::U64(node),
        Field::U64(0),
        Field::U64(0),
    ];
    fields_and(alloc, &header, body)
}

/// The number of the error in a reply.
fn error_in(bytes: &[u8]) -> u32 {
    match bytes {
        [_, _, _, _, a, b, c, d, ..] => 0u32.wrapping_sub(u32::from_le_bytes([*a, *b, *c, *d])),
        _ => 0,
    }
}

fn entry(alloc: Global, parent: u64, name: &[u8], file: Option<Bytes>) -> Result<TreeEntry, Fail> {
    Ok(TreeEntry {
        parent,
        name: Bytes::from_slice(alloc, name)?,
        file,
    })
}

/// File `a` of 6 bytes (node 2), directory `d` (node 3), and in it the empty file `b` (node 4).
fn service(alloc: Global) -> Result<DirService, Fail> {
    let mut entries = Vec::new(alloc);
    let bytes = Bytes::from_slice(alloc, b"abcdef")?;
    entries.push(entry(alloc, 1, b"a", Some(bytes))?)?;
    entries.push(entry(alloc, 1, b"d", None)?)?;
    entries.push(entry(alloc, 3, b"b", Some(Bytes::new(alloc)))?)?;
    Ok(DirService::new(alloc, Tree::new(alloc, &entries)?)?)
}

/// Serves one request through the trait.
fn served<S: Service>(alloc: Global, service: &mut S, case: &Case) -> Result<Bytes, Fail> {
    let body = bytes_of(alloc, case.2)?;
    let request = asked(alloc, case.0, case.1, &body, 0)?;
    Ok(service.serve(alloc, &request, case.3)?)
}

fn expect(rt: &impl Abort, bytes: &[u8], length: usize, errno: u32, place: usize) {
    assert_eq!(rt; bytes.len(), length, "the length at case {place}");
    assert_eq!(rt; error_in(bytes), errno, "the error at case {place}");
}

#[test]
fn requests_are_answered(rt: HostRuntime) -> Result<(), Fail> {
    let mut service = service(rt.alloc())?;
    for (place, case) in CASES.iter().enumerate() {
        let bytes = served(rt.alloc(), &mut service, case)?;
        expect(&rt, bytes.as_slice(), case.4, case.5, place);
    }
    for (case, wanted) in &REPLIES {
        let bytes = served(rt.alloc(), &mut service, case)?;
        assert_eq!(rt; bytes.as_slice(), *wanted);
    }
    Ok(())
}

#[test]
fn a_wrong_length_is_refused_first(rt: HostRuntime) -> Result<(), Fail> {
    let alloc = rt.alloc();
    let tree = Tree::new(alloc, &[])?;
    for (place, (opcode, off, length, errno)) in LENGTHS.iter().enumerate() {
        let request = asked(alloc, *opcode, 1, &[], *off)?;
        let bytes = reply(alloc, &tree, &request, 4096)?;
        expect(&rt, bytes.as_slice(), *length, *errno, place);
        // a request without a whole header has no reply
        let short = reply(alloc, &tree, request.get(..39).unwrap_or(&[]), 4096)?;
        expect(&rt, short.as_slice(), 0, 0, place);
    }
    Ok(())
}

/// Why no tree is made of these entries, if none is.
fn refusal(alloc: Global, entries: &[TreeEntry]) -> Option<TreeError> {
    Tree::new(alloc, entries).err()
}

#[test]
fn names_are_tested(rt: HostRuntime) -> Result<(), Fail> {
    let alloc = rt.alloc();
    for (name, wanted) in &NAMES {
        let mut entries = Vec::new(alloc);
        entries.push(entry(alloc, 1, b"twice", None)?)?;
        // the same name in another directory is another name
        entries.push(entry(alloc, 2, name, None)?)?;
        entries.push(entry(alloc, 1, name, None)?)?;
        assert_eq!(rt; refusal(alloc, &entries), *wanted);
    }
    Ok(())
}

#[test]
fn sizes_are_tested(rt: HostRuntime) -> Result<(), Fail> {
    let alloc = rt.alloc();
    for (size, wanted) in [(16_777_216, None), (16_777_217, Some(TreeError::TooBig))] {
        let bytes = Bytes::from_vec(vec![in alloc; 7u8; size]?);
        let one = [entry(alloc, 1, b"big", Some(bytes))?];
        assert_eq!(rt; refusal(alloc, &one), wanted);
    }
    Ok(())
}

#[test]
fn depths_are_tested(rt: HostRuntime) -> Result<(), Fail> {
    let alloc = rt.alloc();
    let mut entries = Vec::new(alloc);
    for node in 1..=64 {
        entries.push(entry(alloc, node, b"deep", None)?)?;
    }
    entries.push(entry(alloc, 65, b"file", Some(Bytes::new(alloc)))?)?;
    assert_eq!(rt; refusal(alloc, &entries), None);
    entries.push(entry(alloc, 65, b"deep", None)?)?;
    assert_eq!(rt; refusal(alloc, &entries), Some(TreeError::TooBig));
    Ok(())
}

#[test]
fn counts_are_tested(rt: HostRuntime) -> Result<(), Fail> {
    let alloc = rt.alloc();
    let mut entries = Vec::new(alloc);
    for number in 0..65_535u32 {
        let name = format!(in alloc; "{number}")?;
        entries.push(entry(alloc, 1, name.as_bytes(), None)?)?;
    }
    assert_eq!(rt; refusal(alloc, &entries), None);
    entries.push(entry(alloc, 1, b"more", None)?)?;
    assert_eq!(rt; refusal(alloc, &entries), Some(TreeError::TooBig));
    Ok(())
}

#[test]
fn types_are_shown(rt: HostRuntime) -> Result<(), Fail> {
    let alloc = rt.alloc();
    let file = Bytes::from_slice(alloc, b"x")?;
    let tree = Tree::new(alloc, &[entry(alloc, 1, b"a", Some(file))?])?;
    for (shown, text) in [
        (
            format!(in alloc; "{:?}", DirService::new(alloc, tree)?)?,
            "DirService { tree: Tree { nodes: [Directory(Names { nodes: {[97]: 2} }), \
            File(Content { octets: [120] })] } }",
        ),
        (
            format!(in alloc; "{:?}", entry(alloc, 1, b"d", None)?)?,
            "TreeEntry { parent: 1, name: Bytes { octets: [100] }, file: None }",
        ),
    ] {
        assert_eq!(rt; shown.as_str(), text);
    }
    for (error, text) in [
        (TreeError::Name, "not a name of a file or directory"),
        (TreeError::Twice, "a directory has the name twice"),
        (TreeError::TooBig, "the tree is too big"),
        (TreeError::OutOfMemory, "out of memory"),
    ] {
        assert_eq!(rt; format!(in alloc; "{error}")?.as_str(), text);
    }
    Ok(())
}
