//! The labels of the operators' blocks.

ghost use Rattle.std.specs.Prelude.{◌≡◌, ◌+◌, ◌^◌, ◌≤◌};
ghost use Rattle.rv_operators.specs.Operators.{binary_label, by_minus_one, unary_label};

use fy_base::{BinOp, UnOp};

/// How many blocks the operators have.
pub const OPERATOR_COUNT: u32 = 20;

/// The label of the block of a unary operator, where the labels of the operators count up from
/// `first`.
pub fn label_of_unary(first: u32, op: UnOp) -> u32
    requires { first + OPERATOR_COUNT ≤ 2 ^ 32 }
    ensures { result ≡ unary_label first op }
{
    match op {
        UnOp::Neg => first + 2,
        UnOp::Not => first + 3,
        UnOp::Ord => first + 4,
        UnOp::Chr => first + 5,
    }
}

/// The label of the block of a binary operator.
pub fn label_of_binary(first: u32, op: BinOp) -> u32
    requires { first + OPERATOR_COUNT ≤ 2 ^ 32 }
    ensures { result ≡ binary_label first op }
{
    match op {
        BinOp::Add => first + 6,
        BinOp::Sub => first + 7,
        BinOp::Mul => first + 8,
        BinOp::Div => first + 9,
        BinOp::Rem => first + 11,
        BinOp::Eq => first + 12,
        BinOp::Ne => first + 13,
        BinOp::Lt => first + 14,
        BinOp::Le => first + 15,
        BinOp::Gt => first + 16,
        BinOp::Ge => first + 17,
        BinOp::And => first + 18,
        BinOp::Or => first + 19,
    }
}

// The label of the second block of a quotient.
pub fn label_of_minus_one(first: u32) -> u32
    requires { first + OPERATOR_COUNT ≤ 2 ^ 32 }
    ensures { result ≡ by_minus_one first }
{
    first + 10
}
