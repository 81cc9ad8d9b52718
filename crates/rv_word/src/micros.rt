//! The operations of the word machine.

use fy_base::FaultKind;
use rv_insn::{BranchOp, ImmOp, RegOp, ShiftOp};

/// A register of the word machine, of 64 bits.
#[derive(Clone, Copy, PartialEq, Eq, Debug)]
pub enum Register {
    /// Always 0.
    Zero,
    /// The address of the frame in which code runs.
    Frame,
    /// The address of the newest context.
    Context,
    /// The address of the first word of the stack that isn't in use.
    Top,
    /// The datum in focus.
    Datum,
    First,
    Second,
    Third,
}

/// A micro-operation. A label is the number of a block, and what is at `words` from a register is so many words of 8
/// bytes behind the word whose address it holds.
#[derive(Clone, Copy, PartialEq, Eq, Debug)]
pub enum Micro {
    /// The register gets the value.
    Set(Register, u64),
    /// The first register gets what the operation makes of the second and the number, from -2,048 to 2,047.
    Imm(ImmOp, Register, Register, i16),
    /// The first register gets the second, shifted by the amount.
    Shift(ShiftOp, Register, Register, u8),
    /// The first register gets what the operation makes of the second and the third.
    Alu(RegOp, Register, Register, Register),
    /// Goes on if so many words, from 1 to 4,096, lie in the stack from the register on, else repeats itself for ever.
    Window(Register, u16),
    /// The first register gets the word at so many words from the second. That word must lie in the stack.
    Get(Register, Register, u16),
    /// The word at so many words from the first register gets the second. That word must lie in the stack.
    Save(Register, u16, Register),
    /// The first register gets the word of the table whose address is in the second; repeats itself for ever where there
    /// is none.
    Look(Register, Register),
    /// Goes on if so many words, at most 4,096, lie in the stack from the top on, else to the label.
    Room(u16, u32),
    /// Goes to the label where the comparison of both registers holds, else on.
    Test(BranchOp, Register, Register, u32),
    /// Goes to the label.
    Jump(u32),
    /// Goes to the entry with the number in the register, divided by 8; repeats itself for ever where there is none.
    Enter(Register),
    /// Puts the low byte of the register.
    Put(Register),
    /// The register gets the next byte of input, or all ones at its end.
    Take(Register),
    /// The run has ended.
    End,
    /// The stack is exhausted.
    Exhaust,
    /// The run has faulted, at the place with the number.
    Fault(FaultKind, u32),
}
