//! The atoms that the typing rules name.

ghost use Rattle.std.specs.Prelude.{◌≡◌};
ghost use Rattle.fy_derive.specs.Atoms.{
  acceptor_atom as acceptor_atom_of,
  binary_atom as binary_atom_of,
  data_atom as data_atom_of,
  datum_atom as datum_atom_of,
  is_acceptor as is_acceptor_of,
  operand_atom as operand_atom_of,
  put_atom as put_atom_of,
  takes as takes_of,
  unary_atom as unary_atom_of,
};

use fy_base::{BinOp, Datum, PutKind, UnOp};
use fy_phrase::DataTy;
use fy_types::Atom;

/// The data type, as an atom.
pub fn data_atom(ty: DataTy) -> Atom
    ensures { result ≡ data_atom_of ty }
{
    match ty {
        DataTy::Int => Atom::Int,
        DataTy::Bool => Atom::Bool,
        DataTy::Char => Atom::Char,
    }
}

/// The acceptor type of a data type.
pub fn acceptor_atom(ty: DataTy) -> Atom
    ensures { result ≡ acceptor_atom_of ty }
{
    match ty {
        DataTy::Int => Atom::IntAcc,
        DataTy::Bool => Atom::BoolAcc,
        DataTy::Char => Atom::CharAcc,
    }
}

/// The data type of a datum.
pub fn datum_atom(datum: Datum) -> Atom
    ensures { result ≡ datum_atom_of datum }
{
    match datum {
        Datum::Int(_) => Atom::Int,
        Datum::Bool(_) => Atom::Bool,
        Datum::Char(_) => Atom::Char,
    }
}

/// What an operator on one datum takes.
pub fn operand_atom(op: UnOp) -> Atom
    ensures { result ≡ operand_atom_of op }
{
    match op {
        UnOp::Neg | UnOp::Chr => Atom::Int,
        UnOp::Not => Atom::Bool,
        UnOp::Ord => Atom::Char,
    }
}

/// What an operator on one datum gives.
pub fn unary_atom(op: UnOp) -> Atom
    ensures { result ≡ unary_atom_of op }
{
    match op {
        UnOp::Neg | UnOp::Ord => Atom::Int,
        UnOp::Not => Atom::Bool,
        UnOp::Chr => Atom::Char,
    }
}

/// Whether an operator takes two data of the type.
pub fn takes(op: BinOp, ty: DataTy) -> bool
    ensures { result ≡ takes_of op ty }
{
    match op {
        BinOp::Add | BinOp::Sub | BinOp::Mul | BinOp::Div | BinOp::Rem => {
            matches!(ty, DataTy::Int)
        }
        BinOp::Eq | BinOp::Ne => true,
        BinOp::Lt | BinOp::Le | BinOp::Gt | BinOp::Ge => {
            matches!(ty, DataTy::Int | DataTy::Char)
        }
        BinOp::And | BinOp::Or => matches!(ty, DataTy::Bool),
    }
}

/// What an operator on two data gives.
pub fn binary_atom(op: BinOp) -> Atom
    ensures { result ≡ binary_atom_of op }
{
    match op {
        BinOp::Add | BinOp::Sub | BinOp::Mul | BinOp::Div | BinOp::Rem => Atom::Int,
        BinOp::Eq
        | BinOp::Ne
        | BinOp::Lt
        | BinOp::Le
        | BinOp::Gt
        | BinOp::Ge
        | BinOp::And
        | BinOp::Or => Atom::Bool,
    }
}

/// What an output statement of a kind takes.
pub fn put_atom(kind: PutKind) -> Atom
    ensures { result ≡ put_atom_of kind }
{
    match kind {
        PutKind::Int => Atom::Int,
        PutKind::Char => Atom::Char,
        PutKind::Bool => Atom::Bool,
    }
}

/// Whether the atom is an acceptor of data.
pub fn is_acceptor(atom: Atom) -> bool
    ensures { result ≡ is_acceptor_of atom }
{
    matches!(atom, Atom::IntAcc | Atom::BoolAcc | Atom::CharAcc)
}
