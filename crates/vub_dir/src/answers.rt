//! The answers to the requests, opcode by opcode: each a reply's body or the number of an error, as it fits the room.
ghost use Rattle.std.specs.Prelude.{◌≡◌, ◌+◌, ◌≤◌, ◌<◌, ◌==◌, ◌++◌, nat_lt, Some, None, Ok, length};
ghost use Rattle.std.specs.Prelude.{IfOk, IfSome, IfNone, IsTrue};
ghost use Rattle.std.specs.List.{position};
ghost use Rattle.std.specs.Option.{option_copied};
ghost use Rattle.vub_dir.specs.Attributes.{attribute_fields};
ghost use Rattle.vub_dir.specs.Directory.{init_fields, init_of, entry_at, entry_of, lookup_of, attributes_at};
ghost use Rattle.vub_dir.specs.Directory.{getattr_of};
ghost use Rattle.vub_dir.specs.Directory.{open_of, read_of, size_refusal, write_refusal, write_of, readdir_of};
ghost use Rattle.vub_dir.specs.Directory.{answer_of};
ghost use Rattle.vub_dir.specs.Directory.{succeeds, data_in, offset_in};
ghost use Rattle.vub_dir.specs.Layout.{fields_bytes};
ghost use Rattle.vub_dir.specs.Replies.{IsFitted};
ghost use Rattle.vub_dir.specs.Requests.{name_in};

use crate::fuse::{
    EFBIG, EINVAL, ENOENT, ENOSYS, EPROTO, FUSE_ATTR_OUT_SIZE, FUSE_ENTRY_OUT_SIZE, FUSE_GETATTR,
    FUSE_INIT, FUSE_INIT_IN_SIZE, FUSE_KERNEL_MINOR_VERSION, FUSE_KERNEL_VERSION, FUSE_LOOKUP,
    FUSE_OPEN, FUSE_OPEN_IN_SIZE, FUSE_OUT_HEADER_SIZE, FUSE_READ, FUSE_READ_IN_SIZE, FUSE_READDIR,
    FUSE_WRITE, FUSE_WRITE_IN_SIZE, FUSE_WRITE_OUT_SIZE, GREATEST_FILE, GREATEST_WRITE,
};
use crate::layout::{Field, bytes_after, u32_in};
use crate::listing::put_entries;
use crate::names::Names;
use crate::node::Node;
use crate::part::{offset_of, size_of};
use crate::slot::Slot;
use crate::tree::Tree;
use std::alloc::Global;
use vub_base::{Bytes, OutOfMemory};

/// The answer to the request with this opcode about this node, with this body.
#[tactic(auto, unfolding(crate::specs::Directory::answer_of))]
pub(crate) fn answer(
    alloc: Global,
    slot: Slot,
    tree: &Tree,
    opcode: u32,
    number: u64,
    body: &[u8],
) -> Result<Bytes, OutOfMemory>
    ensures { IfOk result (IsFitted slot (answer_of tree.now opcode number body.now)) }
{
    match opcode {
        FUSE_INIT => init(alloc, slot, body),
        FUSE_LOOKUP => lookup(alloc, slot, tree, number, body),
        FUSE_GETATTR => getattr(alloc, slot, tree, number),
        FUSE_OPEN => open_file(alloc, slot, tree, number, body),
        FUSE_READ => read(alloc, slot, tree, number, body),
        FUSE_WRITE => write(alloc, slot, tree, number, body),
        FUSE_READDIR => readdir(alloc, slot, tree, number, body),
        _ => slot.refuse(alloc, ENOSYS),
    }
}

/// INIT: the versions must agree, and the greatest WRITE is told.
#[tactic(auto, unfolding(crate::specs::Directory::init_of))]
fn init(alloc: Global, slot: Slot, body: &[u8]) -> Result<Bytes, OutOfMemory>
    ensures { IfOk result (IsFitted slot (init_of body.now)) }
{
    if body.len() < FUSE_INIT_IN_SIZE {
        return slot.refuse(alloc, EINVAL);
    }
    if u32_in(body, 0) != FUSE_KERNEL_VERSION {
        return slot.refuse(alloc, EPROTO);
    }
    slot.succeed_fields(alloc, &init_reply(u32_in(body, 8)))
}

/// The fields of the reply to INIT (`struct fuse_init_out`).
fn init_reply(readahead: u32) -> [Field; 18]
    ensures { result ≡ init_fields readahead }
{
    [
        Field::U32(FUSE_KERNEL_VERSION),
        Field::U32(FUSE_KERNEL_MINOR_VERSION),
        Field::U32(readahead),
        Field::U32(0),
        Field::U16(0),
        Field::U16(0),
        Field::U32(GREATEST_WRITE),
        Field::U32(1),
        Field::U16(0),
        Field::U16(0),
        Field::U32(0),
        Field::U32(0),
        Field::U32(0),
        Field::U32(0),
        Field::U32(0),
        Field::U32(0),
        Field::U32(0),
        Field::U32(0),
    ]
}

/// LOOKUP: the entry of a name in a directory.
#[tactic(auto, unfolding(crate::specs::Directory::lookup_of))]
fn lookup(
    alloc: Global,
    slot: Slot,
    tree: &Tree,
    number: u64,
    body: &[u8],
) -> Result<Bytes, OutOfMemory>
    ensures { IfOk result (IsFitted slot (lookup_of tree.now number body.now)) }
{
    match name_of(body) {
        None => slot.refuse(alloc, EINVAL),
        Some(name) => entry(alloc, slot, tree, tree.child(number, name)),
    }
}

/// The place of the first zero byte, if there is one.
fn first_zero(body: &[u8]) -> Option<usize>
    ensures place { result ≡ position (λ b. b == 0) body.now }
    ensures bound { IfSome result (λ at. at < length body.now) }
{
    body.iter().position(|byte| *byte == 0)
}

/// The bytes before the first zero byte, if there is one.
#[tactic(auto, unfolding(crate::specs::Requests::name_in))]
fn name_of(body: &[u8]) -> Option<&[u8]>
    ensures { option_copied result ≡ name_in body.now }
{
    match first_zero(body) {
        None => None,
        Some(at) => Some(&body[..at]),
    }
}

/// The entry of a child (`struct fuse_entry_out`).
#[tactic(auto, unfolding(crate::specs::Directory::entry_of))]
fn entry(
    alloc: Global,
    slot: Slot,
    tree: &Tree,
    child: Result<u64, u32>,
) -> Result<Bytes, OutOfMemory>
    ensures { IfOk result (IsFitted slot (entry_of tree.now child)) }
{
    match child {
        Err(errno) => slot.refuse(alloc, errno),
        Ok(number) => match tree.node(number) {
            None => slot.refuse(alloc, ENOENT),
            Some(node) => entry_of(alloc, slot, number, node),
        },
    }
}

/// The fields of `head` and then the attributes of a node, `size` bytes in all.
fn with_attributes(
    alloc: Global,
    slot: Slot,
    size: u32,
    head: &[Field],
    number: u64,
    node: &Node<Names>,
) -> Result<Bytes, OutOfMemory>
    requires { size ≡ length (fields_bytes head.now ++ fields_bytes (attribute_fields number node.now)) }
    ensures { IfOk result
        (IsFitted slot (Ok (fields_bytes head.now ++ fields_bytes (attribute_fields number node.now)))) }
{
    slot.succeed_with(alloc, size, head, &node.attributes(number))
}

#[tactic(auto, unfolding(crate::specs::Layout::fields_bytes, crate::specs::Attributes::attribute_fields))]
fn entry_of(
    alloc: Global,
    slot: Slot,
    number: u64,
    node: &Node<Names>,
) -> Result<Bytes, OutOfMemory>
    ensures { IfOk result (IsFitted slot (entry_at number (Some node.now))) }
{
    let fields = [
        Field::U64(number),
        Field::U64(0),
        Field::U64(0),
        Field::U64(0),
        Field::U32(0),
        Field::U32(0),
    ];
    with_attributes(alloc, slot, FUSE_ENTRY_OUT_SIZE, &fields, number, node)
}

/// GETATTR: the attributes of a node (`struct fuse_attr_out`).
#[tactic(auto, unfolding(crate::specs::Directory::getattr_of))]
fn getattr(alloc: Global, slot: Slot, tree: &Tree, number: u64) -> Result<Bytes, OutOfMemory>
    ensures { IfOk result (IsFitted slot (getattr_of tree.now number)) }
{
    match tree.node(number) {
        None => slot.refuse(alloc, ENOENT),
        Some(node) => attributes(alloc, slot, number, node),
    }
}

#[tactic(auto, unfolding(crate::specs::Layout::fields_bytes, crate::specs::Attributes::attribute_fields))]
fn attributes(
    alloc: Global,
    slot: Slot,
    number: u64,
    node: &Node<Names>,
) -> Result<Bytes, OutOfMemory>
    ensures { IfOk result (IsFitted slot (attributes_at number (Some node.now))) }
{
    let fields = [Field::U64(0), Field::U32(0), Field::U32(0)];
    with_attributes(alloc, slot, FUSE_ATTR_OUT_SIZE, &fields, number, node)
}

/// OPEN: the handle of a file is its node (`struct fuse_open_out`).
#[tactic(auto, unfolding(crate::specs::Directory::open_of))]
fn open_file(
    alloc: Global,
    slot: Slot,
    tree: &Tree,
    number: u64,
    body: &[u8],
) -> Result<Bytes, OutOfMemory>
    ensures { IfOk result (IsFitted slot (open_of tree.now number body.now)) }
{
    if body.len() < FUSE_OPEN_IN_SIZE {
        return slot.refuse(alloc, EINVAL);
    }
    match tree.file(number) {
        Err(errno) => slot.refuse(alloc, errno),
        Ok(_) => slot.succeed_fields(alloc, &[Field::U64(number), Field::U32(0), Field::U32(0)]),
    }
}

/// READ: bytes of a file.
#[tactic(auto, unfolding(crate::specs::Directory::read_of))]
fn read(
    alloc: Global,
    slot: Slot,
    tree: &Tree,
    number: u64,
    body: &[u8],
) -> Result<Bytes, OutOfMemory>
    ensures { IfOk result (IsFitted slot (read_of tree.now number body.now)) }
{
    if body.len() < FUSE_READ_IN_SIZE {
        return slot.refuse(alloc, EINVAL);
    }
    match tree.file(number) {
        Err(errno) => slot.refuse(alloc, errno),
        Ok(content) => slot.succeed(alloc, content.part(offset_of(body), size_of(body))),
    }
}

/// Whether the end of a WRITE lies past the greatest file.
fn ends_past(offset: u64, size: u32) -> bool
    ensures { result ≡ nat_lt GREATEST_FILE (offset + size) }
{
    match offset.checked_add(u64::from(size)) {
        None => true,
        Some(end) => end > GREATEST_FILE as u64,
    }
}

/// The error that a WRITE into a file is refused with, if it is refused: its size must be that of the bytes that
/// follow, and its end must not lie too far.
#[tactic(auto, unfolding(crate::specs::Directory::size_refusal))]
fn refusal_of_size(offset: u64, size: u32, count: usize) -> Option<u32>
    ensures refusal { result ≡ size_refusal offset size count }
    ensures within { IfNone result (offset + count ≤ GREATEST_FILE) }
{
    if size as usize != count {
        return Some(EINVAL);
    }
    if ends_past(offset, size) {
        return Some(EFBIG);
    }
    None
}

/// The error that a WRITE is refused with, if it is refused.
#[tactic(auto, unfolding(crate::specs::Directory::write_refusal))]
pub(crate) fn refusal_of_write(tree: &Tree, number: u64, body: &[u8]) -> Option<u32>
    ensures refusal { result ≡ write_refusal tree.now number body.now }
    ensures long { IfNone result (40 ≤ length body.now) }
    ensures within { IfNone result (offset_in body.now + length (data_in body.now) ≤ GREATEST_FILE) }
{
    if body.len() < FUSE_WRITE_IN_SIZE {
        return Some(EINVAL);
    }
    match tree.file(number) {
        Err(errno) => Some(errno),
        Ok(_) => {
            let count = bytes_after(body, FUSE_WRITE_IN_SIZE).len();
            refusal_of_size(offset_of(body), size_of(body), count)
        }
    }
}

/// Whether a WRITE succeeds, and its reply fits the room.
pub(crate) fn write_succeeds(tree: &Tree, number: u64, body: &[u8], room: u32) -> bool
    ensures value { result ≡ succeeds room (write_of tree.now number body.now) }
    ensures long { IsTrue result → 40 ≤ length body.now }
    ensures within { IsTrue result → offset_in body.now + length (data_in body.now) ≤ GREATEST_FILE }
{
    match refusal_of_write(tree, number, body) {
        Some(_) => false,
        None => FUSE_OUT_HEADER_SIZE + FUSE_WRITE_OUT_SIZE <= room as usize,
    }
}

/// WRITE: how many bytes it wrote (`struct fuse_write_out`).
#[tactic(auto, unfolding(crate::specs::Directory::write_of))]
fn write(
    alloc: Global,
    slot: Slot,
    tree: &Tree,
    number: u64,
    body: &[u8],
) -> Result<Bytes, OutOfMemory>
    ensures { IfOk result (IsFitted slot (write_of tree.now number body.now)) }
{
    match refusal_of_write(tree, number, body) {
        Some(errno) => slot.refuse(alloc, errno),
        None => slot.succeed_fields(alloc, &[Field::U32(size_of(body)), Field::U32(0)]),
    }
}

/// READDIR: entries of a directory.
#[tactic(auto, unfolding(crate::specs::Directory::readdir_of))]
fn readdir(
    alloc: Global,
    slot: Slot,
    tree: &Tree,
    number: u64,
    body: &[u8],
) -> Result<Bytes, OutOfMemory>
    ensures { IfOk result (IsFitted slot (readdir_of tree.now number body.now)) }
{
    if body.len() < FUSE_READ_IN_SIZE {
        return slot.refuse(alloc, EINVAL);
    }
    match tree.names(number) {
        Err(errno) => slot.refuse(alloc, errno),
        Ok(names) => {
            let offset = offset_of(body);
            let mut out = Vec::new(alloc);
            put_entries(
                &mut out,
                tree,
                names.from_place(offset),
                offset,
                size_of(body),
            )?;
            slot.succeed(alloc, &out)
        }
    }
}
