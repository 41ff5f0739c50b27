ghost use Rattle.std.specs.Prelude.{◌≡◌, ◌+◌, ◌<◌, ◌^◌, drop, length, map, IfOk};
ghost use Rattle.vub_dir.specs.Names.{Entry, find_name};

use crate::sorted_names::SortedNames;
use indexmap::IndexMap;
use indexmap::map::{Iter, Slice};
use std::alloc::{AllocError, Global};
use std::collections::BTreeMap;
use std::marker::Model;

/// The names of one directory, each with the node that it names. A name is found by its hash, and by its place. A
/// contract sees the list of the names.
#[derive(Debug, Drop)]
pub struct Names {
    // on the heap, so that a node is no larger than a file needs
    nodes: Box<IndexMap<Vec<u8>, u64>>,
}

impl Model for Names {
    ghost use Rattle.std.specs.Prelude.{List, map};
    ghost use Rattle.vub_dir.specs.Names.{Entry};

    ghost Value = { List Entry };

    ghost view = { λ n. map (λ e. record { name = e.0.items; node = e.1 }) n.nodes.value.entries };
}

impl Names {
    /// These names, in their order. The names are moved; the table that finds them takes memory.
    pub(crate) fn from_sorted(alloc: Global, sorted: SortedNames) -> Result<Names, AllocError>
        ensures { IfOk result (λ names. names ≡ sorted) }
    {
        let nodes = indexed(alloc, sorted.into_map())?;
        Ok(Names {
            nodes: Box::new(alloc, nodes)?,
        })
    }

    /// The node with this name.
    pub(crate) fn find(&self, name: &[u8]) -> Option<u64>
        ensures { result ≡ find_name name.now self.now }
    {
        self.nodes.get(name).copied()
    }

    /// The names from place `offset` on, in their order.
    pub(crate) fn from_place(&self, offset: u64) -> Iter<'_, Vec<u8>, u64>
        ensures names { map (λ e. record { name = e.0.items; node = e.1 }) result ≡ drop offset self.now }
        ensures few { offset + length result < 2 ^ 64 }
    {
        past(&self.nodes, offset as usize)
    }
}

/// The entries from place `offset` on.
fn past(nodes: &IndexMap<Vec<u8>, u64>, offset: usize) -> Iter<'_, Vec<u8>, u64>
    ensures rest { result ≡ drop offset nodes.now.entries }
    ensures few { offset + length result < 2 ^ 64 }
{
    let all = nodes.as_slice();
    if offset > all.len() {
        return Slice::new().iter();
    }
    let (_, rest) = all.split_at(offset);
    rest.iter()
}

/// The entries, in their order, with a table that finds them.
fn indexed(
    alloc: Global,
    sorted: BTreeMap<Vec<u8>, u64>,
) -> Result<IndexMap<Vec<u8>, u64>, AllocError>
    ensures { IfOk result (λ nodes. nodes.entries ≡ sorted.entries) }
{
    let mut nodes = IndexMap::with_capacity(alloc, sorted.len())?;
    for (name, node) in sorted {
        let _before = nodes.insert(name, node)?;
    }
    Ok(nodes)
}
