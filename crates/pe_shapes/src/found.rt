//! The shapes that nodes are asked for.

ghost use Rattle.std.specs.Prelude.{◌≡◌, ◌^◌, ◌<◌, ◌⊎◌, IfOk, OnOk, Contains, length, map};
ghost use Rattle.fy_derive.specs.ShapeTables.{plain_shape};
ghost use Rattle.pe_shapes.specs.Finding.{IsFound, IsEmpty, IsRecording, IsOneRecorded};
ghost use Rattle.pe_shapes.specs.Placing.{IsTableFound};
ghost use Rattle.pe_shapes.specs.Shown.{total, shown, all_shown, AreIn};

use crate::error::ShapeError;
use crate::numbers::ShapeNumbers;
use crate::order::in_order;
use crate::placing::{placed_pairs, places};
use crate::types::MOST_SHAPES;
use fy_base::OutOfMemory;
use fy_phrase::{Pair, PairList, ShapeList, ShapeTable};
use indexmap::IndexSet;
use std::alloc::Global;

/// How many pairs of a node and a shape there may be.
pub const MOST_PAIRS: usize = 65536;

/// The shapes that nodes are asked for. Each has a place, and a pair names it by its place. Once there
/// are more pairs than there may be, no more are added.
#[derive(Drop)]
pub struct Found {
    pub numbers: ShapeNumbers,
    used: IndexSet<usize>,
    pairs: IndexSet<Pair>,
}

impl Found {
    /// Nothing. It takes no memory.
    pub fn new(alloc: Global) -> Found
        ensures { IsEmpty result }
    {
        Found {
            numbers: ShapeNumbers::new(alloc),
            used: IndexSet::new(alloc),
            pairs: IndexSet::new(alloc),
        }
    }

    /// Records that the node is asked for the shapes, and gives them back.
    pub fn recorded(&mut self, node: usize, set: Vec<usize>) -> Result<Vec<usize>, ShapeError>
        requires sound { IsFound self.old }
        requires set { AreIn self.old.numbers set.items }
        requires node { node < 2 ^ 32 }
        ensures same { IfOk result (λ v. v.items ≡ set.items) }
        ensures recorded { IsRecording result self.old self.new node (all_shown self.old.numbers set.items) }
        ensures sound { OnOk result (IsFound self.new) }
        ensures numbers { OnOk result (self.new.numbers ≡ self.old.numbers) }
    {
        for number in &set {
            self.record(node, *number)?;
        }
        Ok(set)
    }

    fn record(&mut self, node: usize, number: usize) -> Result<(), ShapeError>
        requires sound { IsFound self.old }
        requires number { number < total self.old.numbers }
        requires node { node < 2 ^ 32 }
        ensures recorded { IsOneRecorded result self.old self.new node (shown self.old.numbers number) }
        ensures sound { OnOk result (IsFound self.new) }
        ensures numbers { OnOk result (self.new.numbers ≡ self.old.numbers) }
    {
        let (place, _) = self.used.insert_full(number)?;
        if place >= MOST_SHAPES {
            return Err(ShapeError::TooManyShapes);
        }
        if self.pairs.len() > MOST_PAIRS {
            return Ok(());
        }
        self.pairs.insert(Pair {
            node: node as u32,
            shape: place as u32,
        })?;
        Ok(())
    }

    /// How many shapes there are.
    pub fn shape_count(&self) -> usize
        ensures { result ≡ length self.now.used.keys }
    {
        self.used.len()
    }

    /// How many pairs there are.
    pub fn pair_count(&self) -> usize
        ensures { result ≡ length self.now.pairs.keys }
    {
        self.pairs.len()
    }

    /// The table of the shapes in their order, and of the pairs by node and shape.
    pub fn table(&self, alloc: Global) -> Result<ShapeTable, OutOfMemory>
        requires { IsFound self.now }
        ensures { IfOk result (IsTableFound self.now) }
    {
        let used = self.used.as_slice();
        let order = in_order(alloc, &self.numbers, used)?;
        let shapes = self.shapes(alloc, &order)?;
        let places = places(alloc, used, &order)?;
        let pairs = placed_pairs(alloc, &places, self.pairs.as_slice())?;
        Ok(ShapeTable {
            shapes,
            pairs: PairList::from_vec(pairs),
        })
    }

    // The shapes with the numbers.
    fn shapes(&self, alloc: Global, order: &[usize]) -> Result<ShapeList, OutOfMemory>
        requires { AreIn self.now.numbers order.now }
        ensures { IfOk result (λ shapes. map plain_shape shapes ≡ all_shown self.now.numbers order.now) }
    {
        let mut shapes = ShapeList::new(alloc);
        for number in order {
            let shape = self.numbers.shape(alloc, *number)?;
            shapes.push(shape)?;
        }
        Ok(shapes)
    }
}
