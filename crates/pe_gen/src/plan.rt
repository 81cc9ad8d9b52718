//! What items of code are made from.

ghost use Rattle.std.specs.Prelude.{ℕ, ◌≡◌, ◌+◌, ◌<◌, Some, [], ◌∷◌, length, slice_get};
ghost use Rattle.fy_derive.specs.Shapes.{PlainShape, at_end};
ghost use Rattle.fy_derive.specs.ShapeTables.{behind, plain_end, shape_at};
ghost use Rattle.fy_phrase.specs.Sizes.{nodes as count};
ghost use Rattle.fy_phrase.specs.Tree.{Tree};
ghost use Rattle.fy_phrase.specs.declared.shapes.ShapeElem.{ShapeElem};
ghost use Rattle.pe_code.specs.Code.{address_in};
ghost use Rattle.pe_gen.specs.Plan.{IsEntered, nodes_in, IsAsked, IsPlan};
ghost use Rattle.pe_gen.specs.Sites.{Stands, IsListed};

use crate::listing::number_behind;
use crate::nodes::Node;
use crate::steps::{ShapeStep, number_of_step};
use fy_phrase::{ShapeElem, ShapeEnd, ShapeTable};
use indexmap::IndexSet;
use pe_code::EntryList;

/// The nodes of a phrase, the shapes that are asked of them, and where each node is entered at each.
#[derive(Drop)]
pub struct Plan<'a> {
    pub nodes: Vec<Node<'a>>,
    pub table: &'a ShapeTable,
    pub steps: IndexSet<ShapeStep>,
    pub entries: EntryList,
}

impl Plan<'_> {
    /// The number behind those of the nodes of a node.
    pub fn behind(&self, number: u32) -> u32
        requires plan { IsPlan self.now }
        requires listed { (p : Tree) × IsListed (nodes_in self.now) number p }
        ensures { (p : Tree) → IsListed (nodes_in self.now) number p → result ≡ number + count p }
    {
        number_behind(&self.nodes, number)
    }

    /// Where a node is entered at the shape with the number.
    pub fn entry_at(&self, number: u32, shape: u32) -> u32
        requires plan { IsPlan self.now }
        requires asked { (s : PlainShape) × (shape_at self.now.table.now shape ≡ Some s) × IsAsked self.now number s }
        ensures { (s : PlainShape) → shape_at self.now.table.now shape ≡ Some s → IsEntered self.now.table.now self.now.entries number s result }
    {
        self.entry(number, shape)
    }

    /// Where a node is entered at the last demand alone.
    pub fn entry_at_end(&self, number: u32, end: ShapeEnd) -> u32
        requires plan { IsPlan self.now }
        requires asked { IsAsked self.now number (at_end (plain_end end)) }
        ensures { IsEntered self.now.table.now self.now.entries number (at_end (plain_end end)) result }
    {
        self.entry(number, self.number_of(ShapeStep::End(end)))
    }

    /// Where a node is entered at a demand before the shape with the number.
    pub fn entry_before(&self, number: u32, first: ShapeElem, shape: u32) -> u32
        requires plan { IsPlan self.now }
        requires asked { (s : PlainShape) × (shape_at self.now.table.now shape ≡ Some s) × IsAsked self.now number (behind (first ∷ []) s) }
        ensures { (s : PlainShape) → shape_at self.now.table.now shape ≡ Some s → IsEntered self.now.table.now self.now.entries number (behind (first ∷ []) s) result }
    {
        self.entry(number, self.number_of(ShapeStep::Before(first, shape)))
    }

    /// Where a node is entered at what is behind the first demand of the shape with the number.
    pub fn entry_at_rest(&self, number: u32, shape: u32) -> u32
        requires plan { IsPlan self.now }
        requires asked { (e : ShapeElem) × (s : PlainShape) × (shape_at self.now.table.now shape ≡ Some (behind (e ∷ []) s)) × IsAsked self.now number s }
        ensures { (e : ShapeElem) (s : PlainShape) → shape_at self.now.table.now shape ≡ Some (behind (e ∷ []) s) → IsEntered self.now.table.now self.now.entries number s result }
    {
        match self.steps[shape as usize] {
            ShapeStep::Before(_, rest) => self.entry(number, rest),
            ShapeStep::End(_) | ShapeStep::Apart(_) => unreachable!(),
        }
    }

    // The number of the shape that has the step.
    fn number_of(&self, step: ShapeStep) -> u32
        requires plan { IsPlan self.now }
        requires there { Stands self.now.steps.keys step }
        ensures { slice_get self.now.steps.keys result ≡ Some step }
    {
        number_of_step(&self.steps, step).unwrap()
    }

    // The address of the entry that there is.
    fn entry(&self, number: u32, shape: u32) -> u32
        requires { (a : ℕ) × (address_in self.now.entries number shape ≡ Some a) }
        ensures { address_in self.now.entries number shape ≡ Some result }
    {
        self.entries.address(number, shape).unwrap()
    }
}
