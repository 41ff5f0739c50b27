ghost use Rattle.std.specs.Prelude.{◌≡◌, [], map, OnOk};
ghost use Rattle.vub_dir.specs.Names.{Entry, find_name, put_name};

use std::alloc::{AllocError, Global};
use std::collections::BTreeMap;
use std::marker::Model;

/// The names of one directory while its tree is built, each with the node that it names: a name goes to its place in
/// name order. A contract sees them as a list in that order.
#[derive(Debug, Drop)]
pub struct SortedNames {
    nodes: BTreeMap<Vec<u8>, u64>,
}

impl Model for SortedNames {
    ghost use Rattle.std.specs.Prelude.{List, map};
    ghost use Rattle.vub_dir.specs.Names.{Entry};

    ghost Value = { List Entry };

    ghost view = { λ n. map (λ e. record { name = e.0.items; node = e.1 }) n.nodes.entries };
}

impl SortedNames {
    /// No names. Takes no memory.
    pub(crate) fn new(alloc: Global) -> SortedNames
        ensures { result ≡ [] }
    {
        SortedNames {
            nodes: BTreeMap::new(alloc),
        }
    }

    /// The node with this name.
    pub(crate) fn find(&self, name: &[u8]) -> Option<u64>
        ensures { result ≡ find_name name.now self.now }
    {
        self.nodes.get(name).copied()
    }

    /// Puts the name in its place.
    ///
    /// # Errors
    /// Want of memory leaves the names as they were.
    pub(crate) fn put(&mut self, alloc: Global, name: &[u8], node: u64) -> Result<(), AllocError>
        ensures { OnOk result (self.new ≡ put_name self.old name.now node) }
    {
        let name = Vec::from_slice(alloc, name)?;
        let _before = self.nodes.insert(name, node)?;
        Ok(())
    }

    /// The names and their nodes.
    pub(crate) fn into_map(self) -> BTreeMap<Vec<u8>, u64>
        ensures { map (λ e. record { name = e.0.items; node = e.1 }) result.entries ≡ self }
    {
        let SortedNames { nodes } = self;
        nodes
    }
}
