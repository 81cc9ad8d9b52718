//! A table of types, in which each type stands once.

ghost use Rattle.fy_derive.specs.Tables.{IsTable};

use crate::node::TypeNode;
use fy_base::OutOfMemory;
use indexmap::IndexSet;
use std::alloc::Global;

/// Distinct types, each with a number. Parts are shared, so a table may hold types that would fit
/// no memory as trees.
#[derive(Drop)]
pub struct TypeTable {
    nodes: IndexSet<TypeNode>,
    ghost sound: { IsTable nodes.keys },
}

impl TypeTable {
    ghost use Rattle.std.specs.Prelude.{◌≡◌, ◌<◌, ◌≤◌, IsTrue, IfOk};
    ghost use Rattle.fy_derive.specs.Tables.{reach, is_meet_behind, node_type, node_at};
    ghost use Rattle.fy_derive.specs.Shown.{types_in, shown, total, Extends};

    /// A table of nothing. It takes no memory.
    pub fn new(alloc: Global) -> TypeTable
        ensures { total result ≡ 0 }
    {
        TypeTable {
            nodes: IndexSet::new(alloc),
        }
    }

    /// The number of a type, which is added where it is new.
    pub fn number(&mut self, node: TypeNode) -> Result<usize, OutOfMemory>
        requires parts { reach node ≤ total self.old }
        requires meet { IsTrue (is_meet_behind (types_in self.old) node) }
        ensures within { IfOk result (λ k. k < total self.new) }
        ensures stands { IfOk result (λ k. shown self.new k ≡ node_type (types_in self.old) node) }
        ensures extends { Extends self.old self.new }
    {
        let (number, _) = self.nodes.insert_full(node)?;
        Ok(number)
    }

    /// How many types there are.
    pub fn len(&self) -> usize
        ensures { result ≡ total self.now }
    {
        self.nodes.len()
    }

    /// The node with the number.
    pub fn node(&self, number: usize) -> TypeNode
        requires { number < total self.now }
        ensures same { result ≡ node_at self.now.nodes.keys number }
        ensures parts { reach result ≤ number }
        ensures stands { shown self.now number ≡ node_type (types_in self.now) result }
        ensures meet { IsTrue (is_meet_behind (types_in self.now) result) }
    {
        self.nodes[number]
    }
}
