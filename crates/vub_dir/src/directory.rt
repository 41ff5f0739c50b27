ghost use Rattle.std.specs.Prelude.{◌≡◌, ◌≤◌, length, IfOk, IsOkAnd, IsTrue, OnOk, OnErr};
ghost use Rattle.vub_dir.specs.Directory.{next_tree, reply_of, is_write};

use crate::answers::{answer, write_succeeds};
use crate::fuse::{EINVAL, FUSE_FORGET, FUSE_IN_HEADER_SIZE, FUSE_WRITE, FUSE_WRITE_IN_SIZE};
use crate::header::header_of;
use crate::layout::bytes_after;
use crate::part::offset_of;
use crate::slot::Slot;
use crate::tree::Tree;
use std::alloc::{AllocError, Global};
use std::marker::Model;
use vub_base::{Bytes, OutOfMemory};
use vub_proto::Service;

/// The service of a shared directory: it answers FUSE requests over one tree, and writes into the tree's files. A
/// contract sees its tree.
#[derive(Debug, Drop)]
pub struct DirService {
    tree: Tree,
}

impl Model for DirService {
    ghost use Rattle.std.specs.Prelude.{List};
    ghost use Rattle.vub_dir.specs.Node.{Node};

    ghost Value = { List Node };

    ghost view = { λ s. s.tree };
}

impl DirService {
    /// The service of this tree.
    ///
    /// # Errors
    /// None: it takes no memory.
    pub fn new(_alloc: Global, tree: Tree) -> Result<DirService, OutOfMemory>
        ensures { IsOkAnd result (λ service. service ≡ tree) }
    {
        Ok(DirService { tree })
    }
}

impl Service for DirService {
    ghost reply_of = { λ s request room. reply_of s request room };

    ghost after = { λ s request room. next_tree s request room };

    fn serve(&mut self, alloc: Global, request: &[u8], room: u32) -> Result<Bytes, OutOfMemory> {
        let bytes = reply(alloc, &self.tree, request, room)?;
        carry_out(&mut self.tree, request, room)?;
        Ok(bytes)
    }
}

/// The directory reply: what the service replies to this request, with room for so many bytes. No bytes stand for no
/// reply.
///
/// # Errors
/// Want of memory.
#[tactic(auto, using(crate::proofs::Fits::reply_fits))]
pub fn reply(alloc: Global, tree: &Tree, request: &[u8], room: u32) -> Result<Bytes, OutOfMemory>
    ensures reply { IfOk result (λ bytes. bytes ≡ reply_of tree.now request.now room) }
    ensures fits { IfOk result (λ bytes. length bytes ≤ room) }
{
    match reply_to(alloc, tree, request, room) {
        Ok(bytes) => Ok(bytes),
        Err(refused) => Err(refused),
    }
}

/// The reply, in the order in which a request can be refused.
#[tactic(auto, unfolding(crate::specs::Directory::reply_of, crate::specs::Directory::is_replied, crate::specs::Directory::answer_to))]
fn reply_to(alloc: Global, tree: &Tree, request: &[u8], room: u32) -> Result<Bytes, OutOfMemory>
    ensures { IfOk result (λ bytes. bytes ≡ reply_of tree.now request.now room) }
{
    if request.len() < FUSE_IN_HEADER_SIZE {
        return Ok(Bytes::new(alloc));
    }
    let header = header_of(request);
    if header.opcode == FUSE_FORGET {
        return Ok(Bytes::new(alloc));
    }
    let slot = Slot {
        unique: header.unique,
        room,
    };
    if header.length as usize != request.len() {
        return slot.refuse(alloc, EINVAL);
    }
    let body = bytes_after(request, FUSE_IN_HEADER_SIZE);
    answer(alloc, slot, tree, header.opcode, header.node, body)
}

/// Whether the request is a WRITE, whole and with the right length field.
#[tactic(auto, unfolding(crate::specs::Directory::is_write))]
fn is_write(request: &[u8]) -> bool
    ensures value { result ≡ is_write request.now }
    ensures long { IsTrue result → 40 ≤ length request.now }
{
    if request.len() < FUSE_IN_HEADER_SIZE {
        return false;
    }
    let header = header_of(request);
    header.opcode == FUSE_WRITE && header.length as usize == request.len()
}

/// Carries out a WRITE that succeeds, with a reply that fits the room.
///
/// # Errors
/// Want of memory leaves the tree as it was.
#[tactic(auto, unfolding(crate::specs::Directory::next_tree))]
fn carry_out(tree: &mut Tree, request: &[u8], room: u32) -> Result<(), AllocError>
    ensures ok { OnOk result (tree.new ≡ next_tree tree.old request.now room) }
    ensures err { OnErr result (tree.new ≡ tree.old) }
{
    if !is_write(request) {
        return Ok(());
    }
    let header = header_of(request);
    let body = bytes_after(request, FUSE_IN_HEADER_SIZE);
    if !write_succeeds(tree, header.node, body, room) {
        return Ok(());
    }
    let offset = offset_of(body) as usize;
    tree.write(header.node, offset, bytes_after(body, FUSE_WRITE_IN_SIZE))
}
