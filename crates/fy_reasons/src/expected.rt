//! What the rules ask of the conclusions of their premises, and which subsumption makes one what is asked.

ghost use Rattle.std.specs.Prelude.{◌≡◌, ◌<◌, [], ◌∷◌, IfOk, IfSome, OnOk, find, length, option_map};
ghost use Rattle.fy_types.specs.Types.{atom as atom_type};
ghost use Rattle.fy_phrase.specs.Reads.{reads};
ghost use Rattle.fy_reasons.specs.Expected.{
  AdviceIsTaken,
  a_command,
  accepted_by,
  advised as advised_of,
  anything,
  asked as asked_of,
  asked_third,
  domain_of,
  first_wrong as first_wrong_of,
  has_domain,
  is_asked as is_asked_of,
  just as just_of,
  lacking as lacking_of,
  members as members_of,
  one_of,
  taken_by as taken_by_of,
};
ghost use Rattle.fy_derive.specs.Shown.{total, shown, all_shown, AreIn, Extends};
ghost use Rattle.fy_reasons.specs.Stopping.{asking_read, IsAskingIn, IsHalved};
ghost use Rattle.fy_derive.specs.Subsumption.{is_below as below_test};
ghost use Rattle.fy_derive.specs.Tables.{type_at};

use fy_base::{BinOp, OutOfMemory};
use fy_derive::{TypeNode, TypeTable, data_atom, is_below, number_of_type, operand_atom, put_atom};
use fy_phrase::Phrase;
use fy_types::{Atom, Name};
use std::alloc::Global;

/// What a premise has to conclude, to the letter. Types are told by their numbers in a table.
#[derive(Drop)]
pub enum Asking {
    Anything,
    /// One of these types.
    OneOf(Vec<usize>),
    AnArrow,
    /// A field of that name.
    AField(Name),
}

/// What the phrase's rule asks of the premise with the index, behind premises that conclude these types.
#[tactic(auto, using(crate::proofs::AskLemmas::ask_rules))]
pub fn asked(
    alloc: Global,
    table: &mut TypeTable,
    p: &Phrase,
    done: &[usize],
    index: usize,
) -> Result<Asking, OutOfMemory>
    requires { AreIn table.old done.now }
    ensures asked { IfOk result (λ a. asking_read table.new a ≡ asked_of (reads p.now) (all_shown table.old done.now) index) }
    ensures within { IfOk result (IsAskingIn table.new) }
    ensures extends { OnOk result (Extends table.old table.new) }
{
    match p {
        Phrase::Unary(op, _, _) => just(alloc, table, operand_atom(*op)),
        Phrase::Binary(op, _, _, _) => match index {
            0 => taken_by(alloc, table, *op),
            1 => one(alloc, table, done, 0),
            _ => Ok(Asking::Anything),
        },
        Phrase::Cond(..) => match index {
            0 => just(alloc, table, Atom::Bool),
            1 => Ok(Asking::Anything),
            _ => one(alloc, table, done, 1),
        },
        Phrase::Case(..) => match index {
            0 => just(alloc, table, Atom::Int),
            1 => Ok(Asking::Anything),
            _ => one(alloc, table, done, 1),
        },
        Phrase::App(..) => match index {
            0 => Ok(Asking::AnArrow),
            1 => domain(alloc, table, done),
            _ => Ok(Asking::Anything),
        },
        Phrase::Sel(_, name, _) => Ok(Asking::AField(*name)),
        Phrase::Rec(_, ty, _, _) => {
            let number = number_of_type(alloc, table, ty)?;
            only(alloc, table, number)
        }
        Phrase::Seq(..) => first_or_command(alloc, table, Atom::Comm, index),
        Phrase::New(_, ty, _, _, _) => first_or_command(alloc, table, data_atom(*ty), index),
        Phrase::Cells(..) => first_or_command(alloc, table, Atom::Int, index),
        Phrase::Assign(..) => match index {
            0 => one_of_three(alloc, table, Atom::IntAcc, Atom::BoolAcc, Atom::CharAcc),
            1 => accepted(alloc, table, done),
            _ => Ok(Asking::Anything),
        },
        Phrase::WhileDo(..) => match index {
            0 => just(alloc, table, Atom::Bool),
            1 => just(alloc, table, Atom::Comm),
            _ => Ok(Asking::Anything),
        },
        Phrase::Forever(..) | Phrase::Escape(..) | Phrase::Accept(..) => {
            just(alloc, table, Atom::Comm)
        }
        Phrase::Put(kind, _, _) => just(alloc, table, put_atom(*kind)),
        Phrase::Read(..) => just(alloc, table, Atom::IntAcc),
        Phrase::Var(..)
        | Phrase::Lit(..)
        | Phrase::Lam(..)
        | Phrase::Field(..)
        | Phrase::Merge(..)
        | Phrase::LetIn(..)
        | Phrase::Skip(_)
        | Phrase::Mark(..) => Ok(Asking::Anything),
    }
}

fn just(alloc: Global, table: &mut TypeTable, atom: Atom) -> Result<Asking, OutOfMemory>
    ensures asking { IfOk result (λ a. asking_read table.new a ≡ just_of atom) }
    ensures within { IfOk result (IsAskingIn table.new) }
    ensures extends { OnOk result (Extends table.old table.new) }
{
    let number = table.number(TypeNode::Atom(atom))?;
    only(alloc, table, number)
}

fn only(alloc: Global, table: &TypeTable, number: usize) -> Result<Asking, OutOfMemory>
    requires { number < total table.now }
    ensures asking { IfOk result (λ a. asking_read table.now a ≡ one_of (shown table.now number ∷ [])) }
    ensures within { IfOk result (IsAskingIn table.now) }
{
    let _ = table;
    Ok(Asking::OneOf(Vec::from_array(alloc, [number])?))
}

// The type that a premise concludes, and `ns` past the last one.
#[tactic(auto, using(crate::proofs::AskLemmas::ask_rules))]
fn one(
    alloc: Global,
    table: &mut TypeTable,
    done: &[usize],
    index: usize,
) -> Result<Asking, OutOfMemory>
    requires { AreIn table.old done.now }
    ensures asking { IfOk result (λ a. asking_read table.new a ≡ one_of (type_at (all_shown table.old done.now) index ∷ [])) }
    ensures within { IfOk result (IsAskingIn table.new) }
    ensures extends { OnOk result (Extends table.old table.new) }
{
    if index < done.len() {
        return only(alloc, table, done[index]);
    }
    let number = table.number(TypeNode::Ns)?;
    only(alloc, table, number)
}

// The data that the operator takes.
fn taken_by(alloc: Global, table: &mut TypeTable, op: BinOp) -> Result<Asking, OutOfMemory>
    ensures asking { IfOk result (λ a. asking_read table.new a ≡ one_of (taken_by_of op)) }
    ensures within { IfOk result (IsAskingIn table.new) }
    ensures extends { OnOk result (Extends table.old table.new) }
{
    match op {
        BinOp::Add | BinOp::Sub | BinOp::Mul | BinOp::Div | BinOp::Rem => {
            just(alloc, table, Atom::Int)
        }
        BinOp::And | BinOp::Or => just(alloc, table, Atom::Bool),
        BinOp::Eq | BinOp::Ne => one_of_three(alloc, table, Atom::Int, Atom::Bool, Atom::Char),
        BinOp::Lt | BinOp::Le | BinOp::Gt | BinOp::Ge => {
            one_of_two(alloc, table, Atom::Int, Atom::Char)
        }
    }
}

fn one_of_two(alloc: Global, table: &mut TypeTable, a: Atom, b: Atom) -> Result<Asking, OutOfMemory>
    ensures asking { IfOk result (λ x. asking_read table.new x ≡ one_of (atom_type a ∷ atom_type b ∷ [])) }
    ensures within { IfOk result (IsAskingIn table.new) }
    ensures extends { OnOk result (Extends table.old table.new) }
{
    let first = table.number(TypeNode::Atom(a))?;
    let second = table.number(TypeNode::Atom(b))?;
    Ok(Asking::OneOf(Vec::from_array(alloc, [first, second])?))
}

fn one_of_three(
    alloc: Global,
    table: &mut TypeTable,
    a: Atom,
    b: Atom,
    c: Atom,
) -> Result<Asking, OutOfMemory>
    ensures asking { IfOk result (λ x. asking_read table.new x ≡ one_of (atom_type a ∷ atom_type b ∷ atom_type c ∷ [])) }
    ensures within { IfOk result (IsAskingIn table.new) }
    ensures extends { OnOk result (Extends table.old table.new) }
{
    let first = table.number(TypeNode::Atom(a))?;
    let second = table.number(TypeNode::Atom(b))?;
    let third = table.number(TypeNode::Atom(c))?;
    Ok(Asking::OneOf(Vec::from_array(alloc, [first, second, third])?))
}

// The data of the acceptor that the first premise concludes.
#[tactic(auto, using(crate::proofs::AskLemmas::ask_rules))]
fn accepted(alloc: Global, table: &mut TypeTable, done: &[usize]) -> Result<Asking, OutOfMemory>
    requires { AreIn table.old done.now }
    ensures asking { IfOk result (λ a. asking_read table.new a ≡ accepted_by (type_at (all_shown table.old done.now) 0)) }
    ensures within { IfOk result (IsAskingIn table.new) }
    ensures extends { OnOk result (Extends table.old table.new) }
{
    if done.is_empty() {
        return Ok(Asking::Anything);
    }
    match table.node(done[0]) {
        TypeNode::Atom(atom) => accepted_of(alloc, table, atom),
        _ => Ok(Asking::Anything),
    }
}

fn accepted_of(alloc: Global, table: &mut TypeTable, atom: Atom) -> Result<Asking, OutOfMemory>
    ensures asking { IfOk result (λ a. asking_read table.new a ≡ accepted_by (atom_type atom)) }
    ensures within { IfOk result (IsAskingIn table.new) }
    ensures extends { OnOk result (Extends table.old table.new) }
{
    match atom {
        Atom::IntAcc => just(alloc, table, Atom::Int),
        Atom::BoolAcc => just(alloc, table, Atom::Bool),
        Atom::CharAcc => just(alloc, table, Atom::Char),
        Atom::Int | Atom::Bool | Atom::Char | Atom::Comm | Atom::Compl => Ok(Asking::Anything),
    }
}

// The domain of the arrow that the first premise concludes.
#[tactic(auto, using(crate::proofs::AskLemmas::ask_rules))]
fn domain(alloc: Global, table: &TypeTable, done: &[usize]) -> Result<Asking, OutOfMemory>
    requires { AreIn table.now done.now }
    ensures asking { IfOk result (λ a. asking_read table.now a ≡ domain_of (type_at (all_shown table.now done.now) 0)) }
    ensures within { IfOk result (IsAskingIn table.now) }
{
    if done.is_empty() {
        return Ok(Asking::Anything);
    }
    match table.node(done[0]) {
        TypeNode::Arrow(domain, _) => only(alloc, table, domain),
        _ => Ok(Asking::Anything),
    }
}

// An atom, and then a command.
fn first_or_command(
    alloc: Global,
    table: &mut TypeTable,
    atom: Atom,
    index: usize,
) -> Result<Asking, OutOfMemory>
    ensures asking { IfOk result (λ a. asking_read table.new a ≡ asked_third index (just_of atom) a_command anything) }
    ensures within { IfOk result (IsAskingIn table.new) }
    ensures extends { OnOk result (Extends table.old table.new) }
{
    match index {
        0 => just(alloc, table, atom),
        1 => one_of_two(alloc, table, Atom::Comm, Atom::Compl),
        _ => Ok(Asking::Anything),
    }
}

/// Whether the type is what is asked.
#[tactic(auto, using(crate::proofs::AskLemmas::ask_rules))]
pub fn is_asked(table: &TypeTable, asking: &Asking, number: usize) -> bool
    requires number { number < total table.now }
    requires asking { IsAskingIn table.now asking.now }
    ensures { result ≡ is_asked_of (asking_read table.now asking.now) (shown table.now number) }
{
    match asking {
        Asking::Anything => true,
        Asking::OneOf(all) => all.contains(&number),
        Asking::AnArrow => match table.node(number) {
            TypeNode::Arrow(..) => true,
            _ => false,
        },
        Asking::AField(name) => match table.node(number) {
            TypeNode::Field(field, _) => field == *name,
            _ => false,
        },
    }
}

/// The index of the first premise that isn't what is asked, and what is asked of it.
pub fn first_wrong(
    alloc: Global,
    table: &mut TypeTable,
    p: &Phrase,
    done: &[usize],
) -> Result<Option<(usize, Asking)>, OutOfMemory>
    requires { AreIn table.old done.now }
    ensures wrong { IfOk result (λ o. option_map (λ x. (x.0, asking_read table.new x.1)) o
        ≡ first_wrong_of (reads p.now) (all_shown table.old done.now) 0 (all_shown table.old done.now)) }
    ensures within { IfOk result (λ o. IfSome o (λ x. (x.0 < length done.now) × IsAskingIn table.new x.1)) }
    ensures extends { OnOk result (Extends table.old table.new) }
{
    for i in 0..done.len() {
        let asking = asked(alloc, table, p, done, i)?;
        if !is_asked(table, &asking, done[i]) {
            return Ok(Some((i, asking)));
        }
    }
    Ok(None)
}

/// The type to which subsumption may raise what a premise concludes, the first of those that are asked: the argument of a
/// call is what stands behind.
pub fn advised(
    alloc: Global,
    table: &TypeTable,
    asking: &Asking,
    number: usize,
    behind: usize,
) -> Result<Option<usize>, OutOfMemory>
    requires number { number < total table.now }
    requires behind { behind < total table.now }
    requires asking { IsAskingIn table.now asking.now }
    ensures within { IfOk result (λ o. IfSome o (λ k. k < total table.now)) }
    ensures advised { IfOk result (λ o. option_map (shown table.now) o
        ≡ advised_of (asking_read table.now asking.now) (shown table.now number) (shown table.now behind)) }
{
    match asking {
        Asking::Anything => Ok(None),
        Asking::OneOf(all) => first_above(alloc, table, number, all),
        Asking::AnArrow => {
            let members = members(alloc, table, number)?;
            match arrow_from(table, &members, behind) {
                Some(arrow) => Ok(Some(arrow)),
                None => Ok(first_asked(table, asking, &members)),
            }
        }
        Asking::AField(_) => {
            let members = members(alloc, table, number)?;
            Ok(first_asked(table, asking, &members))
        }
    }
}

// The first of the types that is an arrow from that type.
#[tactic(auto, using(crate::proofs::AskLemmas::ask_rules))]
fn arrow_from(table: &TypeTable, all: &[usize], from: usize) -> Option<usize>
    requires all { AreIn table.now all.now }
    requires from { from < total table.now }
    ensures within { IfSome result (λ k. k < total table.now) }
    ensures first { option_map (shown table.now) result ≡ find (has_domain (shown table.now from)) (all_shown table.now all.now) }
{
    for number in all {
        if let TypeNode::Arrow(domain, _) = table.node(*number) {
            if domain == from {
                return Some(*number);
            }
        }
    }
    None
}

// The first of the types that is what is asked.
fn first_asked(table: &TypeTable, asking: &Asking, all: &[usize]) -> Option<usize>
    requires all { AreIn table.now all.now }
    requires asking { IsAskingIn table.now asking.now }
    ensures within { IfSome result (λ k. k < total table.now) }
    ensures first { option_map (shown table.now) result ≡ find (is_asked_of (asking_read table.now asking.now)) (all_shown table.now all.now) }
{
    for number in all {
        if is_asked(table, asking, *number) {
            return Some(*number);
        }
    }
    None
}

// The first of the types that the type is below.
fn first_above(
    alloc: Global,
    table: &TypeTable,
    number: usize,
    all: &[usize],
) -> Result<Option<usize>, OutOfMemory>
    requires number { number < total table.now }
    requires all { AreIn table.now all.now }
    ensures within { IfOk result (λ o. IfSome o (λ k. k < total table.now)) }
    ensures first { IfOk result (λ o. option_map (shown table.now) o ≡ find (λ C. below_test (shown table.now number) C) (all_shown table.now all.now)) }
{
    for above in all {
        if is_below(alloc, table, number, *above)? {
            return Ok(Some(*above));
        }
    }
    Ok(None)
}

// The type, or the members of the meet that it is.
#[tactic(auto, using(crate::proofs::AskLemmas::ask_rules))]
fn members(alloc: Global, table: &TypeTable, number: usize) -> Result<Vec<usize>, OutOfMemory>
    requires { number < total table.now }
    ensures within { IfOk result (λ v. AreIn table.now v.items) }
    ensures members { IfOk result (λ v. all_shown table.now v.items ≡ members_of (shown table.now number)) }
{
    let mut all = Vec::new(alloc);
    let mut rest = number;
    loop {
        match table.node(rest) {
            TypeNode::AndType(first, behind) => {
                all.push(first)?;
                rest = behind;
            }
            TypeNode::NoTypes => return Ok(all),
            _ => {
                all.push(rest)?;
                return Ok(all);
            }
        }
    }
}

/// The first thing of the second type that the first one hasn't, as a type with one end.
#[tactic(auto, using(crate::proofs::LackLemmas::lack_rules))]
pub fn lacking(
    alloc: Global,
    table: &mut TypeTable,
    a: usize,
    b: usize,
) -> Result<Option<usize>, OutOfMemory>
    requires first { a < total table.old }
    requires second { b < total table.old }
    ensures within { IfOk result (λ o. IfSome o (λ k. k < total table.new)) }
    ensures lacking { IfOk result (λ o. option_map (shown table.new) o ≡ lacking_of (shown table.old a) (shown table.old b)) }
    ensures extends { OnOk result (Extends table.old table.new) }
{
    if is_below(alloc, table, a, b)? {
        return Ok(None);
    }
    let mut rest = b;
    loop {
        match halved(table, rest)? {
            Halves::Nothing => return Ok(None),
            Halves::Single => return Ok(Some(rest)),
            Halves::Both(first, second) => {
                rest = if is_below(alloc, table, a, first)? {
                    second
                } else {
                    first
                };
            }
        }
    }
}

// A type as two types with fewer meets.
#[derive(Drop)]
enum Halves {
    Nothing,
    /// It has one end.
    Single,
    Both(usize, usize),
}

#[cycle(halved)]
fn halved(table: &mut TypeTable, number: usize) -> Result<Halves, OutOfMemory>
    requires { number < total table.old }
    ensures halved { IfOk result (IsHalved table.new (shown table.old number)) }
    ensures extends { OnOk result (Extends table.old table.new) }
{
    match table.node(number) {
        TypeNode::Ns | TypeNode::NoTypes => Ok(Halves::Nothing),
        TypeNode::Atom(_) => Ok(Halves::Single),
        TypeNode::AndType(first, rest) => Ok(Halves::Both(first, rest)),
        TypeNode::Arrow(domain, rest) => match halved(table, rest)? {
            Halves::Nothing => Ok(Halves::Nothing),
            Halves::Single => Ok(Halves::Single),
            Halves::Both(first, second) => {
                let first = table.number(TypeNode::Arrow(domain, first))?;
                let second = table.number(TypeNode::Arrow(domain, second))?;
                Ok(Halves::Both(first, second))
            }
        },
        TypeNode::Field(name, rest) => match halved(table, rest)? {
            Halves::Nothing => Ok(Halves::Nothing),
            Halves::Single => Ok(Halves::Single),
            Halves::Both(first, second) => {
                let first = table.number(TypeNode::Field(name, first))?;
                let second = table.number(TypeNode::Field(name, second))?;
                Ok(Halves::Both(first, second))
            }
        },
    }
}

/// A subsumption that is advised is one that judging takes there, and it concludes what is asked.
pub fn advice_is_taken()
    ensures { AdviceIsTaken }
{}
