//! Items of assembly.

use fy_base::{ListOf, WordList};
use rv_insn::{BranchOp, Insn};

/// A part of a program whose jumps name labels. Registers are numbers below 32.
#[derive(Clone, Copy, Debug)]
pub enum Item {
    /// The label stands here, before the next word.
    Mark(u32),
    /// An instruction as it is.
    Plain(Insn),
    /// Goes to the label where the comparison of `rs1` and `rs2` holds, and on where it doesn't.
    BranchTo {
        op: BranchOp,
        rs1: u8,
        rs2: u8,
        label: u32,
    },
    /// Goes to the label.
    JumpTo {
        label: u32,
    },
    /// Goes to the label, by the two words `auipc x31, h` and `jalr x0, l(x31)` however near it is.
    FarTo {
        label: u32,
    },
    /// Goes to the label, with the address of the word behind in `rd`.
    CallTo {
        rd: u8,
        label: u32,
    },
    /// `rd` gets the address of the label.
    AddressOf {
        rd: u8,
        label: u32,
    },
    /// `rd` gets the value.
    Constant {
        rd: u8,
        value: i64,
    },
}

/// A marked label, and the number of the word that it stands before.
#[derive(Clone, Copy, PartialEq, Eq, Debug)]
pub struct LabelAt {
    pub label: u32,
    pub word: u32,
}

/// Labels in order of their marks.
pub type LabelList = ListOf<LabelAt>;

/// Items in order.
pub type ItemList = ListOf<Item>;

/// The words of a program, and its labels.
#[derive(Debug, Drop)]
pub struct Assembled {
    pub words: WordList,
    pub labels: LabelList,
}
