//! The lists of a code: its entries in order, and its thunk nodes.

ghost use Rattle.std.specs.Prelude.{◌≡◌, ◌≤◌, ◌==◌, ◌↔◌, [], ◌∷◌, ◌++◌, length, filter, false, true, Contains, IsTrue, OnOk, OnErr};
ghost use Rattle.std.specs.List.Sorted.{IsPartitionPoint};
ghost use Rattle.pe_code.specs.Entries.{is_before, with_entry, AreInOrder};
ghost use Rattle.pe_code.specs.Code.{address_in};

use crate::code::Entry;
use fy_base::OutOfMemory;
use indexmap::IndexSet;
use std::alloc::Global;
use std::marker::Model;

/// Entries in order of node, then of shape. Contracts see it as that list.
#[derive(Debug, Drop)]
pub struct EntryList {
    items: Vec<Entry>,
}

impl Model for EntryList {
    ghost use Rattle.std.specs.Prelude.{List};
    ghost use Rattle.pe_code.specs.declared.code.Entry.{Entry};
    ghost use Rattle.pe_code.specs.Entries.{AreInOrder};

    ghost Value = { List Entry };

    ghost view = { λ list. list.items.items };

    ghost invariant = { λ list. AreInOrder list.items.items };
}

impl EntryList {
    /// A list of nothing. It takes no memory.
    pub fn new(alloc: Global) -> EntryList
        ensures { result ≡ [] }
    {
        EntryList {
            items: Vec::new(alloc),
        }
    }

    /// Adds an entry behind those that aren't greater, in constant time where no entry is greater. After a refusal
    /// the list is as it was.
    pub fn push(&mut self, item: Entry) -> Result<(), OutOfMemory>
        ensures ok { OnOk result (self.new ≡ with_entry item self.old) }
        ensures err { OnErr result (self.new ≡ self.old) }
    {
        let place = place_of(self.items.as_slice(), item);
        self.items.insert(place, item)?;
        Ok(())
    }

    /// The number of entries.
    pub fn len(&self) -> usize
        ensures { result ≡ length self.now }
    {
        self.items.len()
    }

    /// Whether there is no entry.
    pub fn is_empty(&self) -> bool
        ensures { result ≡ (length self.now == 0) }
    {
        self.items.is_empty()
    }

    /// The entries.
    pub fn as_slice(&self) -> &[Entry]
        ensures entries { result.now ≡ self.now }
        ensures order { AreInOrder self.now }
    {
        self.items.as_slice()
    }

    /// The entries of the node.
    pub fn of_node(&self, node: u32) -> &[Entry]
        ensures { result.now ≡ filter (λ e. e.node == node) self.now }
    {
        let entries = self.items.as_slice();
        let start = entries.partition_point(|entry| entry.node < node);
        let end = entries.partition_point(|entry| entry.node <= node);
        &entries[start..end]
    }

    /// The address of the first entry for the node and the shape, or `None` exactly where there is none.
    pub fn address(&self, node: u32, shape: u32) -> Option<u32>
        ensures { result ≡ address_in self.now node shape }
    {
        let entries = self.items.as_slice();
        let place = entries.partition_point(|entry| entry.is_before(node, shape));
        let entry = entries.get(place)?;
        if entry.node == node && entry.shape == shape {
            return Some(entry.address);
        }
        None
    }
}

// How many of the entries aren't greater than the item.
fn place_of(entries: &[Entry], item: Entry) -> usize
    requires { AreInOrder entries.now }
    ensures within { result ≤ length entries.now }
    ensures splits { IsPartitionPoint (λ e. is_before e.node e.shape item ≡ false) (λ e. is_before e.node e.shape item ≡ true) entries.now result }
{
    let Some(last) = entries.last() else {
        return 0;
    };
    if !item.is_before(last.node, last.shape) {
        return entries.len();
    }
    entries.partition_point(|entry| !item.is_before(entry.node, entry.shape))
}

/// Nodes in order of pushing, any of them more than once. Contracts see it as that list.
#[derive(Debug, Drop)]
pub struct NodeList {
    nodes: Vec<u32>,
    members: IndexSet<u32>,
}

impl Model for NodeList {
    ghost use Rattle.std.specs.Prelude.{List, ℕ};
    ghost use Rattle.pe_code.specs.Members.{HaveSameMembers};

    ghost Value = { List ℕ };

    ghost view = { λ list. list.nodes.items };

    ghost invariant = { λ list. HaveSameMembers list.members.keys list.nodes.items };
}

impl NodeList {
    /// A list of nothing. It takes no memory.
    pub fn new(alloc: Global) -> NodeList
        ensures { result ≡ [] }
    {
        NodeList {
            nodes: Vec::new(alloc),
            members: IndexSet::new(alloc),
        }
    }

    /// Adds a node last. After a refusal the list is as it was.
    pub fn push(&mut self, node: u32) -> Result<(), OutOfMemory>
        ensures ok { OnOk result (self.new ≡ self.old ++ node ∷ []) }
        ensures err { OnErr result (self.new ≡ self.old) }
    {
        self.nodes.push(node)?;
        if self.members.insert(node).is_err() {
            let _ = self.nodes.pop();
            return Err(OutOfMemory);
        }
        Ok(())
    }

    /// The number of nodes, each as often as it was pushed.
    pub fn len(&self) -> usize
        ensures { result ≡ length self.now }
    {
        self.nodes.len()
    }

    /// Whether there is no node.
    pub fn is_empty(&self) -> bool
        ensures { result ≡ (length self.now == 0) }
    {
        self.nodes.is_empty()
    }

    /// The nodes.
    pub fn as_slice(&self) -> &[u32]
        ensures { result.now ≡ self.now }
    {
        self.nodes.as_slice()
    }

    /// Whether the node is in the list. It takes constant time.
    pub fn has(&self, node: u32) -> bool
        ensures { IsTrue result ↔ Contains self.now node }
    {
        self.members.contains(&node)
    }
}
