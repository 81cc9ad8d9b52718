//! Constants: small phrases of literals and operators, and the data that they stand for.

ghost use Rattle.std.specs.Prelude.{◌≡◌};
ghost use Rattle.fy_phrase.specs.Reads.{reads};
ghost use Rattle.pe_right.specs.Constants.{given as given_by, unary_value as value_of_one, binary_value as value_of_two, value_of as value_of_tree, constant as constant_of};

use crate::nodes::Node;
use fy_base::{Applied, BinOp, Datum, UnOp, apply_binary, apply_unary};
use fy_phrase::Phrase;

const MOST_NODES: u32 = 8;

/// The datum of a node that is a constant: one of at most 8 nodes, literals and operators, each part of which has a datum as value.
pub fn constant(node: &Node<'_>) -> Option<Datum>
    ensures { result ≡ constant_of (reads node.now.phrase.now) }
{
    if node.size <= MOST_NODES {
        return value_of(node.phrase);
    }
    None
}

// The value of a phrase of literals and operators.
fn value_of(p: &Phrase) -> Option<Datum>
    ensures { result ≡ value_of_tree (reads p.now) }
{
    match p {
        Phrase::Lit(v, _) => Some(*v),
        Phrase::Unary(op, q, _) => unary_value(*op, value_of(q)),
        Phrase::Binary(op, q, r, _) => binary_value(*op, value_of(q), value_of(r)),
        _ => None,
    }
}

fn unary_value(op: UnOp, v: Option<Datum>) -> Option<Datum>
    ensures { result ≡ value_of_one op v }
{
    match v {
        Some(v) => given(apply_unary(op, v)),
        None => None,
    }
}

fn binary_value(op: BinOp, u: Option<Datum>, v: Option<Datum>) -> Option<Datum>
    ensures { result ≡ value_of_two op u v }
{
    match (u, v) {
        (Some(u), Some(v)) => given(apply_binary(op, u, v)),
        _ => None,
    }
}

fn given(applied: Applied) -> Option<Datum>
    ensures { result ≡ given_by applied }
{
    match applied {
        Applied::Gives(v) => Some(v),
        Applied::Faults(_) | Applied::NoSense => None,
    }
}
