ghost use Rattle.std.specs.Prelude.{◌≡◌, ◌+◌, ◌<◌, ◌++◌, ◌∷◌, ◌⊎◌, [], false, Some, None, Ok, ℕ, List, length, is_ok};
ghost use Rattle.std.specs.Prelude.{map, take, slice_get, IfOk, IfErr, OnOk};
ghost use Rattle.vub_dir.specs.Building.{IsListed, are_name_bytes, content_of, depth_at, depth_of, fault_of};
ghost use Rattle.vub_dir.specs.Building.{first_fault, is_dots, is_name, is_name_length, is_past, new_node, tree_of};
ghost use Rattle.vub_dir.specs.Building.{with_entry};
ghost use Rattle.vub_dir.specs.Tree.{child_of, name_in_node, names_of, put_child};
ghost use Rattle.vub_dir.specs.Names.{Entry};
ghost use Rattle.vub_dir.specs.declared.entry.TreeEntry.{TreeEntry};
ghost use Rattle.vub_dir.specs.declared.entry.TreeError.TheVariants.{OutOfMemory};

use crate::content::Content;
use crate::entry::{TreeEntry, TreeError};
use crate::fuse::{GREATEST_COUNT, GREATEST_DEPTH, GREATEST_FILE, GREATEST_NAME};
use crate::names::Names;
use crate::node::Node;
use crate::sorted_names::SortedNames;
use crate::tree::{Tree, numbered};
use std::alloc::{AllocError, Global};
use vub_base::Bytes;

impl Tree {
    /// The tree of these entries: the root is node 1, and the entry at place `i`, from 0 on, is node `i + 2`. An
    /// entry whose parent is no earlier directory is in no directory; so give none.
    ///
    /// # Errors
    /// The first entry that is refused decides, and at one entry the earlier of these causes:
    /// [`TreeError::Name`], [`TreeError::Twice`], [`TreeError::TooBig`]; or want of memory.
    pub fn new(alloc: Global, entries: &[TreeEntry]) -> Result<Tree, TreeError>
        ensures tree { IfOk result (λ tree. tree ≡ tree_of entries.now) }
        ensures sound { IfOk result (λ _. first_fault entries.now ≡ None) }
        ensures refused { IfErr result (λ error. (error ≡ OutOfMemory) ⊎ (first_fault entries.now ≡ Some error)) }

        // what such a tree has: the files as listed; under its name each entry whose parent is a directory among the
        // entries before it; and no other name
        ensures files { IfOk result (λ tree. map content_of tree ≡ None ∷ map (λ e. e.file) entries.now) }
        ensures named { IfOk result (λ tree. (i : ℕ) (e : TreeEntry) (names : List Entry) →
            slice_get entries.now i ≡ Some e → names_of (tree_of (take i entries.now)) e.parent ≡ Ok names →
            child_of tree e.parent e.name ≡ Ok (i + 2)) }
        ensures only { IfOk result (λ tree. (p : ℕ) (q : List ℕ) (c : ℕ) →
            child_of tree p q ≡ Ok c → IsListed entries.now p q c) }
    {
        match build(alloc, entries) {
            Ok(tree) => Ok(tree),
            Err(error) => Err(error),
        }
    }
}

/// Adds the entries to the root, one after the other.
#[tactic(auto, unfolding(crate::specs::Building::tree_of, crate::specs::Building::first_fault, crate::specs::Building::with_entries, crate::specs::Building::fault_among))]
fn build(alloc: Global, entries: &[TreeEntry]) -> Result<Tree, TreeError>
    ensures tree { IfOk result (λ tree. tree ≡ tree_of entries.now) }
    ensures sound { IfOk result (λ _. first_fault entries.now ≡ None) }
    ensures refused { IfErr result (λ error. (error ≡ OutOfMemory) ⊎ (first_fault entries.now ≡ Some error)) }
{
    let mut nodes = Vec::new(alloc);
    nodes.push(Node::Directory(SortedNames::new(alloc)))?;
    let mut depths = Vec::new(alloc);
    depths.push(0)?;
    for entry in entries {
        match fault_at(&nodes, &depths, entry) {
            Some(error) => return Err(error),
            None => add(alloc, &mut nodes, &mut depths, entry)?,
        }
    }
    let nodes = settled(alloc, nodes)?;
    Ok(Tree::from_nodes(nodes))
}

/// The node, with a table that finds the names of a directory.
fn settled_node(alloc: Global, node: Node<SortedNames>) -> Result<Node<Names>, AllocError>
    ensures { IfOk result (λ done. done ≡ node) }
{
    match node {
        Node::Directory(sorted) => {
            let names = Names::from_sorted(alloc, sorted)?;
            Ok(Node::Directory(names))
        }
        Node::File(content) => Ok(Node::File(content)),
    }
}

/// The nodes, with tables that find the names of the directories.
fn settled(alloc: Global, nodes: Vec<Node<SortedNames>>) -> Result<Vec<Node<Names>>, AllocError>
    ensures { IfOk result (λ done. done.items ≡ nodes.items) }
{
    let mut done = Vec::with_capacity(alloc, nodes.len())?;
    for node in nodes {
        done.push(settled_node(alloc, node)?)?;
    }
    Ok(done)
}

/// Whether these bytes may be a name.
#[tactic(auto, unfolding(crate::specs::Building::is_name))]
fn is_a_name(name: &[u8]) -> bool
    ensures { result ≡ is_name name.now }
{
    has_name_length(name) && has_name_bytes(name) && !stands_for_directory(name)
}

/// Whether a name may be so long.
fn has_name_length(name: &[u8]) -> bool
    ensures { result ≡ is_name_length name.now }
{
    !name.is_empty() && name.len() <= GREATEST_NAME
}

/// Whether each byte may stand in a name.
fn has_name_bytes(name: &[u8]) -> bool
    ensures { result ≡ are_name_bytes name.now }
{
    name.iter().all(|byte| *byte != 0 && *byte != b'/')
}

/// Whether this is `.` or `..`.
fn stands_for_directory(name: &[u8]) -> bool
    ensures { result ≡ is_dots name.now }
{
    match name {
        [one] => *one == b'.',
        [one, two] => *one == b'.' && *two == b'.',
        _ => false,
    }
}

/// How deep the node with this number lies.
fn depth(depths: &[u32], number: u64) -> u32
    ensures { result ≡ depth_at depths.now number }
{
    if number == 0 {
        0
    } else {
        depths.get((number - 1) as usize).copied().unwrap_or(0)
    }
}

/// Whether a file has too many bytes, or a directory is too deep.
fn is_too_big(depths: &[u32], entry: &TreeEntry) -> bool
    ensures past { result ≡ is_past depths.now entry.now.parent entry.now.file }
{
    match &entry.file {
        Some(bytes) => bytes.len() > GREATEST_FILE,
        None => depth(depths, entry.parent) >= GREATEST_DEPTH,
    }
}

/// Whether the node with this number is a directory that has the name.
#[tactic(auto, unfolding(crate::specs::Tree::child_of, crate::specs::Tree::node_at))]
fn has_child(nodes: &[Node<SortedNames>], number: u64, name: &[u8]) -> bool
    ensures { result ≡ is_ok (child_of nodes.now number name.now) }
{
    match numbered(nodes, number) {
        None => false,
        Some(node) => match node {
            Node::Directory(names) => names.find(name).is_some(),
            Node::File(_) => false,
        },
    }
}

/// Why the entry can't join these nodes, if it can't.
#[tactic(auto, unfolding(crate::specs::Building::fault_of))]
fn fault_at(nodes: &[Node<SortedNames>], depths: &[u32], entry: &TreeEntry) -> Option<TreeError>
    ensures fault { result ≡ fault_of nodes.now depths.now entry.now }
{
    let name = entry.name.as_slice();
    if !is_a_name(name) {
        return Some(TreeError::Name);
    }
    if has_child(nodes, entry.parent, name) {
        return Some(TreeError::Twice);
    }
    if nodes.len() >= GREATEST_COUNT || is_too_big(depths, entry) {
        return Some(TreeError::TooBig);
    }
    None
}

/// Puts a name into a directory.
fn put_name(
    alloc: Global,
    node: &mut Node<SortedNames>,
    name: &[u8],
    child: u64,
) -> Result<(), AllocError>
    ensures { OnOk result (node.new ≡ name_in_node node.old name.now child) }
{
    match node {
        Node::Directory(names) => names.put(alloc, name, child),
        Node::File(_) => Ok(()),
    }
}

/// Puts a name into the directory with this number.
#[tactic(auto, unfolding(crate::specs::Tree::put_child, crate::specs::Tree::node_at))]
fn put_name_at(
    alloc: Global,
    nodes: &mut Vec<Node<SortedNames>>,
    number: u64,
    name: &[u8],
    child: u64,
) -> Result<(), AllocError>
    ensures { OnOk result (nodes.new.items ≡ put_child nodes.old.items number name.now child) }
{
    if number == 0 || number > nodes.len() as u64 {
        return Ok(());
    }
    put_name(alloc, &mut nodes[(number - 1) as usize], name, child)
}

/// The node of an entry.
fn node_of(alloc: Global, file: &Option<Bytes>) -> Result<Node<SortedNames>, AllocError>
    ensures { IfOk result (λ node. node ≡ new_node file.now) }
{
    match file {
        Some(bytes) => {
            let content = Content::from_slice(alloc, bytes.as_slice())?;
            Ok(Node::File(content))
        }
        None => Ok(Node::Directory(SortedNames::new(alloc))),
    }
}

/// How deep an entry is, if it is a directory.
fn depth_under(depths: &[u32], entry: &TreeEntry) -> u32
    requires { is_past depths.now entry.now.parent entry.now.file ≡ false }
    ensures { result ≡ depth_of depths.now entry.now }
{
    match entry.file {
        Some(_) => 0,
        None => depth(depths, entry.parent) + 1,
    }
}

/// Adds an entry to the nodes, and its depth to their depths.
#[tactic(auto, unfolding(crate::specs::Building::with_entry, crate::specs::Building::fault_of))]
fn add(
    alloc: Global,
    nodes: &mut Vec<Node<SortedNames>>,
    depths: &mut Vec<u32>,
    entry: &TreeEntry,
) -> Result<(), AllocError>
    requires { fault_of nodes.old.items depths.old.items entry.now ≡ None }
    ensures nodes { OnOk result (nodes.new.items ≡ with_entry nodes.old.items entry.now) }
    ensures depths { OnOk result (depths.new.items ≡ depths.old.items ++ depth_of depths.old.items entry.now ∷ []) }
{
    let deep = depth_under(depths, entry);
    let number = nodes.len() as u64 + 1;
    put_name_at(alloc, nodes, entry.parent, entry.name.as_slice(), number)?;
    let node = node_of(alloc, &entry.file)?;
    nodes.push(node)?;
    depths.push(deep)?;
    Ok(())
}
