ghost use Rattle.std.specs.Prelude.{◌≡◌, ◌+◌, ◌-◌, ◌<◌, ◌^◌, ◌==◌, if◌then◌else◌, None, Ok, Err, length, slice_get};
ghost use Rattle.std.specs.Prelude.{MatchResult, OnOk, OnErr};
ghost use Rattle.std.specs.Option.{option_copied};
ghost use Rattle.vub_dir.specs.Tree.{node_at, child_of, names_of, file_of, kind_at, write_node, write_at};

use crate::content::Content;
use crate::fuse::{DT_REG, EISDIR, ENOENT, ENOTDIR};
use crate::names::Names;
use crate::node::Node;
use std::alloc::{AllocError, Global};
use std::marker::Model;

/// Directories and files, numbered from the root, which is node 1. A contract sees the list of the nodes, the root
/// first.
#[derive(Debug, Drop)]
pub struct Tree {
    nodes: Vec<Node<Names>>,
}

impl Model for Tree {
    ghost use Rattle.std.specs.Prelude.{List};
    ghost use Rattle.vub_dir.specs.Node.{Node};

    ghost Value = { List Node };

    ghost view = { λ t. t.nodes.items };
}

impl Tree {
    /// A tree of these nodes, the root first.
    pub(crate) fn from_nodes(nodes: Vec<Node<Names>>) -> Tree
        ensures { result ≡ nodes.items }
    {
        Tree { nodes }
    }

    /// The node with this number.
    #[tactic(auto, unfolding(crate::specs::Tree::node_at))]
    pub(crate) fn node(&self, number: u64) -> Option<&Node<Names>>
        ensures { option_copied result ≡ node_at self.now number }
    {
        numbered(&self.nodes, number)
    }

    /// The node that the name stands for in the directory with this number, or the number of an error.
    #[tactic(auto, unfolding(crate::specs::Tree::child_of))]
    pub(crate) fn child(&self, number: u64, name: &[u8]) -> Result<u64, u32>
        ensures { result ≡ child_of self.now number name.now }
    {
        match self.node(number) {
            None => Err(ENOENT),
            Some(node) => node.child(name),
        }
    }

    /// The names in the directory with this number, or the number of an error.
    #[tactic(auto, unfolding(crate::specs::Tree::names_of))]
    pub(crate) fn names(&self, number: u64) -> Result<&Names, u32>
        ensures { MatchResult result (λ names. names_of self.now number ≡ Ok names.now)
            (λ errno. names_of self.now number ≡ Err errno) }
    {
        match self.node(number) {
            None => Err(ENOENT),
            Some(node) => match node {
                Node::Directory(names) => Ok(names),
                Node::File(_) => Err(ENOTDIR),
            },
        }
    }

    /// The bytes of the file with this number, or the number of an error.
    #[tactic(auto, unfolding(crate::specs::Tree::file_of))]
    pub(crate) fn file(&self, number: u64) -> Result<&Content, u32>
        ensures { MatchResult result (λ file. file_of self.now number ≡ Ok file.now)
            (λ errno. file_of self.now number ≡ Err errno) }
    {
        match self.node(number) {
            None => Err(ENOENT),
            Some(node) => match node {
                Node::Directory(_) => Err(EISDIR),
                Node::File(content) => Ok(content),
            },
        }
    }

    /// The type that an entry of a listing has where it names this node.
    #[tactic(auto, unfolding(crate::specs::Tree::kind_at))]
    pub(crate) fn kind(&self, number: u64) -> u32
        ensures { result ≡ kind_at self.now number }
    {
        match self.node(number) {
            None => DT_REG,
            Some(node) => node.kind(),
        }
    }

    /// Writes these bytes into the file with this number.
    ///
    /// # Errors
    /// Want of memory leaves the tree as it was.
    pub(crate) fn write(
        &mut self,
        number: u64,
        offset: usize,
        bytes: &[u8],
    ) -> Result<(), AllocError>
        requires { offset + length bytes.now < 2 ^ 63 }
        ensures ok { OnOk result (self.new ≡ write_at self.old number offset bytes.now) }
        ensures err { OnErr result (self.new ≡ self.old) }
    {
        write_in(&mut self.nodes, number, offset, bytes)
    }
}

/// The element with this number, from 1 on.
pub(crate) fn numbered<T>(elements: &[T], number: u64) -> Option<&T>
    ensures { option_copied result ≡ (if number == 0 then None else slice_get elements.now (number - 1)) }
{
    if number == 0 {
        None
    } else {
        elements.get((number - 1) as usize)
    }
}

fn write_node(node: &mut Node<Names>, offset: usize, bytes: &[u8]) -> Result<(), AllocError>
    requires { offset + length bytes.now < 2 ^ 63 }
    ensures ok { OnOk result (node.new ≡ write_node node.old offset bytes.now) }
    ensures err { OnErr result (node.new ≡ node.old) }
{
    match node {
        Node::Directory(_) => Ok(()),
        Node::File(content) => content.write(offset, bytes),
    }
}

#[tactic(auto, unfolding(crate::specs::Tree::write_at, crate::specs::Tree::node_at))]
fn write_in(
    nodes: &mut Vec<Node<Names>>,
    number: u64,
    offset: usize,
    bytes: &[u8],
) -> Result<(), AllocError>
    requires { offset + length bytes.now < 2 ^ 63 }
    ensures ok { OnOk result (nodes.new.items ≡ write_at nodes.old.items number offset bytes.now) }
    ensures err { OnErr result (nodes.new.items ≡ nodes.old.items) }
{
    if number == 0 || number > nodes.len() as u64 {
        return Ok(());
    }
    write_node(&mut nodes[(number - 1) as usize], offset, bytes)
}
