//! A table of shapes, in which each shape stands once.

ghost use Rattle.pe_shapes.specs.Numbering.{IsNumbering};

use crate::node::ShapeNode;
use fy_base::OutOfMemory;
use fy_phrase::{Shape, ShapeElemList};
use indexmap::IndexSet;
use std::alloc::Global;

/// Distinct shapes, each with a number.
#[derive(Drop)]
pub struct ShapeNumbers {
    nodes: IndexSet<ShapeNode>,
    ghost sound: { IsNumbering nodes.keys },
}

impl ShapeNumbers {
    ghost use Rattle.std.specs.Prelude.{◌≡◌, ◌<◌, ◌≤◌, IfOk};
    ghost use Rattle.fy_derive.specs.ShapeTables.{plain_shape};
    ghost use Rattle.pe_shapes.specs.Numbering.{reach, node_shape};
    ghost use Rattle.pe_shapes.specs.Shown.{shapes_in, shown, total, Extends};

    /// A table of nothing. It takes no memory.
    pub fn new(alloc: Global) -> ShapeNumbers
        ensures { total result ≡ 0 }
    {
        ShapeNumbers {
            nodes: IndexSet::new(alloc),
        }
    }

    /// The number of a shape, which is added where it is new.
    pub fn number(&mut self, node: ShapeNode) -> Result<usize, OutOfMemory>
        requires { reach node ≤ total self.old }
        ensures within { IfOk result (λ k. k < total self.new) }
        ensures stands { IfOk result (λ k. shown self.new k ≡ node_shape (shapes_in self.old) node) }
        ensures extends { Extends self.old self.new }
    {
        let (number, _) = self.nodes.insert_full(node)?;
        Ok(number)
    }

    /// The node with the number.
    pub fn node(&self, number: usize) -> ShapeNode
        requires { number < total self.now }
        ensures parts { reach result ≤ number }
        ensures stands { shown self.now number ≡ node_shape (shapes_in self.now) result }
    {
        self.nodes[number]
    }

    /// The shape with the number, by itself.
    pub fn shape(&self, alloc: Global, number: usize) -> Result<Shape, OutOfMemory>
        requires { number < total self.now }
        ensures { IfOk result (λ s. plain_shape s ≡ shown self.now number) }
    {
        let mut elems = ShapeElemList::new(alloc);
        let mut rest = number;
        'demands: loop {
            match self.node(rest) {
                ShapeNode::End(end) => return Ok(Shape { elems, end }),
                ShapeNode::Front(elem, behind) => {
                    elems.push(elem)?;
                    rest = behind;
                }
            }
        }
    }
}
