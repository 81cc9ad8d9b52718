//! The numbers by which blocks name blocks, entries and words of the table.

ghost use Rattle.std.specs.Prelude.{◌≡◌, ◌^◌, ◌<◌, ◌≤◌, length, All, IfOk};
ghost use Rattle.std.specs.Option.{ForSome};
ghost use Rattle.fy_base.specs.declared.data.BinOp.{BinOp};
ghost use Rattle.pe_code.specs.Code.{picked_from, straight_of};
ghost use Rattle.pe_code.specs.Valid.{all_parts_run, all_picked_from, all_places_in, IsValid};
ghost use Rattle.rv_select.specs.Numbers.{binary_faults, block_count, column_of, column_word, entry_count, faults_from as first_of_faults, place_in, row_address, unary_faults};
ghost use Rattle.rv_select.specs.Numbering.{AreColumns, AreStarts, IsStart};

use crate::fixed::{FIRST_ITEM, FIRST_ITEM_ENTRY, FIXED_COLUMNS};
use fy_base::{BinOp, OutOfMemory, UnOp};
use indexmap::IndexMap;
use pe_code::{PeCode, PeInsn, PeItem, Purpose};
use rv_straight::fault_count;
use std::alloc::Global;
use std::marker::Model;

/// Where the code of an item begins: the label of its first block, and the number of its first
/// entry.
#[derive(Clone, Copy, PartialEq, Eq, Debug)]
pub struct Start {
    pub label: u32,
    pub entry: u32,
}

// The address of the table.
const TABLE_START: u64 = 536_870_912;

// More nodes than a map in memory can have.
const TOO_MANY_NODES: usize = 1 << 60;

/// The numbers of valid code, each of which is found in constant time. Contracts see them as the code.
#[derive(Drop)]
pub struct Numbers<'a> {
    code: &'a PeCode,
    // one for each item, and then where the code ends
    starts: Vec<Start>,
    // the first place of each thunk node
    columns: IndexMap<u32, usize>,
}

impl<'a> Model for Numbers<'a> {
    ghost use Rattle.pe_code.specs.declared.code.PeCode.{PeCode};
    ghost use Rattle.rv_select.specs.Numbering.{AreNumbers};

    ghost Value = { PeCode };

    ghost view = { λ n. n.code.now };

    ghost invariant = { λ n. AreNumbers n.code.now n.starts.items n.columns };
}

impl<'a> Numbers<'a> {
    /// The numbers of the code.
    pub fn new(alloc: Global, code: &'a PeCode) -> Result<Numbers<'a>, OutOfMemory>
        requires { IsValid code.now }
        ensures { IfOk result (λ numbers. numbers ≡ code.now) }
    {
        let starts = starts_of(alloc, code.items.as_slice())?;
        let columns = columns_of(alloc, code.thunks.as_slice())?;
        Ok(Numbers {
            code,
            starts,
            columns,
        })
    }
}

impl Numbers<'_> {
    /// The code.
    pub fn code(&self) -> &PeCode
        ensures same { result.now ≡ self.now }
        ensures valid { IsValid self.now }
    {
        self.code
    }

    /// Where the item at an address begins, or where the code ends.
    pub fn start(&self, address: u32) -> Start
        ensures { IsStart self.now address result }
    {
        let end = self.code.items.len();
        self.starts[end.min(address as usize)]
    }

    /// The word that names the column of a thunk node, or the end of the rows.
    pub fn column(&self, node: u32) -> u64
        ensures { result ≡ column_word (column_of self.now node) }
    {
        8 * (FIXED_COLUMNS + self.place(node)) as u64
    }

    // The place of a thunk node, or the number of thunk nodes.
    fn place(&self, node: u32) -> usize
        ensures is { result ≡ place_in self.now.thunks node }
        ensures few { result < 2 ^ 60 }
    {
        let nodes = self.code.thunks.len();
        self.columns.get(&node).copied().unwrap_or(nodes)
    }

    /// The address of the row of a shape.
    pub fn row(&self, shape: u32) -> u64
        requires { shape < self.now.shapes }
        ensures { result ≡ row_address self.now shape }
    {
        let words = FIXED_COLUMNS + self.code.thunks.len();
        TABLE_START + 8 * (shape as u64 * words as u64)
    }
}

fn starts_of(alloc: Global, items: &[PeItem]) -> Result<Vec<Start>, OutOfMemory>
    requires few { length items.now ≤ 65536 }
    requires parts { all_picked_from items.now ≤ length items.now }
    requires straight { all_parts_run items.now ≤ all_places_in items.now }
    requires short { All (λ item. ForSome (straight_of item.insn) (λ ss. length ss ≤ 16)) items.now }
    ensures { IfOk result (λ starts. AreStarts items.now starts.items) }
{
    let mut next = Start {
        label: FIRST_ITEM,
        entry: FIRST_ITEM_ENTRY,
    };
    let mut starts = Vec::new(alloc);
    starts.push(next)?;
    for item in items {
        next = Start {
            label: next.label + block_count(&item.insn),
            entry: next.entry + entry_count(&item.insn),
        };
        starts.push(next)?;
    }
    Ok(starts)
}

// The first place of each node.
fn columns_of(alloc: Global, nodes: &[u32]) -> Result<IndexMap<u32, usize>, OutOfMemory>
    ensures { IfOk result (λ columns. AreColumns nodes.now columns) }
{
    if nodes.len() >= TOO_MANY_NODES {
        return Err(OutOfMemory);
    }
    let mut columns = IndexMap::new(alloc);
    for place in (0..nodes.len()).rev() {
        columns.insert(nodes[place], place)?;
    }
    Ok(columns)
}

/// How many blocks an instruction has: its own, those of its contexts, and those of its faults.
pub fn block_count(insn: &PeInsn) -> u32
    requires { ForSome (straight_of insn.now) (λ ss. length ss ≤ 16) }
    ensures is { result ≡ block_count insn.now }
    ensures few { result ≤ 34 }
{
    match insn {
        PeInsn::Eval(parts) => 1 + fault_count(parts.as_slice()),
        PeInsn::Set(_, parts) => 1 + fault_count(parts.as_slice()),
        PeInsn::EvalFor(parts, Purpose::Repeat(_)) => 2 + fault_count(parts.as_slice()),
        PeInsn::EvalFor(parts, _) => 1 + fault_count(parts.as_slice()),
        PeInsn::Op1(op, _) => 1 + unary_faults(*op),
        PeInsn::Op2(op, ..) => 2 + binary_faults(*op),
        PeInsn::Case(..) | PeInsn::While(..) | PeInsn::Cells(..) => 3,
        PeInsn::Cond(..)
        | PeInsn::Seq(..)
        | PeInsn::Assign(..)
        | PeInsn::Loop(_)
        | PeInsn::New(..) => 2,
        _ => 1,
    }
}

/// How many entries an instruction has: its own, those of its contexts and faults, and of a case
/// those of its parts.
pub fn entry_count(insn: &PeInsn) -> u32
    requires { length (picked_from insn.now) ≤ 65536 }
    ensures { result ≡ entry_count insn.now }
{
    match insn {
        PeInsn::Op1(op, _) => 2 + unary_faults(*op),
        PeInsn::Op2(BinOp::And | BinOp::Or, ..) => 2,
        PeInsn::Op2(op, ..) => 3 + binary_faults(*op),
        PeInsn::Case(_, parts) => 2 + parts.len() as u32,
        PeInsn::While(..) => 3,
        PeInsn::Cells(..) => 5,
        PeInsn::Cond(..)
        | PeInsn::Seq(..)
        | PeInsn::Assign(..)
        | PeInsn::Loop(_)
        | PeInsn::New(..)
        | PeInsn::EvalFor(_, Purpose::Repeat(_)) => 2,
        _ => 1,
    }
}

/// The number of the first block of straight code's faults: behind its own, and that of a loop's
/// context.
pub fn faults_from(purpose: Purpose) -> u32
    ensures is { result ≡ first_of_faults purpose }
    ensures few { result ≤ 2 }
{
    match purpose {
        Purpose::Repeat(_) => 2,
        _ => 1,
    }
}

// How many kinds of fault an operator has.
fn unary_faults(op: UnOp) -> u32
    ensures { result ≡ unary_faults op }
{
    match op {
        UnOp::Neg | UnOp::Chr => 1,
        UnOp::Not | UnOp::Ord => 0,
    }
}

fn binary_faults(op: BinOp) -> u32
    ensures { result ≡ binary_faults op }
{
    match op {
        BinOp::Div => 2,
        BinOp::Add | BinOp::Sub | BinOp::Mul | BinOp::Rem => 1,
        _ => 0,
    }
}
