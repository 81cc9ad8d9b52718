use crate::tests::made::{AT, boxed};
use fy_base::{BinOp, Datum, OutOfMemory, PutKind, UnOp};
use fy_phrase::{DataTy, MarkKind, Parts, Phrase, close_with, copy_phrase, depth_of, node_count};
use fy_types::{Atom, Ty, TyList};
use std::alloc::Global;
use std::test::Fail;

fn leaf(digit: u8) -> Phrase {
    match digit {
        b'0' => Phrase::Var(0, AT),
        b'1' => Phrase::Var(1, AT),
        b'2' => Phrase::Lit(Datum::Int(1), AT),
        b'3' => Phrase::Lit(Datum::Bool(true), AT),
        b'4' => Phrase::Skip(AT),
        _ => Phrase::Mark(MarkKind::Cell(3), AT),
    }
}

fn with_one(letter: u8, a: Box<Phrase>) -> Phrase {
    match letter {
        b'a' => Phrase::Accept(1, DataTy::Char, a, AT),
        b'e' => Phrase::Escape(6, a, AT),
        b'f' => Phrase::Field(0, a, AT),
        b'i' => Phrase::Read(a, AT),
        b'l' => Phrase::Forever(a, AT),
        b'n' => Phrase::Unary(UnOp::Neg, a, AT),
        b'p' => Phrase::Put(PutKind::Int, a, AT),
        b'r' => Phrase::Rec(7, Ty::Atom(Atom::Comm), a, AT),
        _ => Phrase::Sel(a, 0, AT),
    }
}

fn with_two(letter: u8, a: Box<Phrase>, b: Box<Phrase>) -> Phrase {
    match letter {
        b'A' => Phrase::Assign(a, b, AT),
        b'C' => Phrase::App(a, b, AT),
        b'K' => Phrase::Cells(3, a, b, AT),
        b'L' => Phrase::LetIn(4, a, b, AT),
        b'M' => Phrase::Merge(a, b, AT),
        b'N' => Phrase::New(5, DataTy::Int, a, b, AT),
        b'P' => Phrase::Binary(BinOp::Add, a, b, AT),
        b'W' => Phrase::WhileDo(a, b, AT),
        _ => Phrase::Seq(a, b, AT),
    }
}

fn abstraction(alloc: Global, a: Box<Phrase>) -> Result<Phrase, OutOfMemory> {
    let mut alternatives = TyList::new(alloc);
    alternatives.push(Ty::Atom(Atom::Int))?;
    Ok(Phrase::Lam(1, alternatives, a, AT))
}

// What picks from a list of two parts.
fn case_of(
    alloc: Global,
    a: Box<Phrase>,
    b: Box<Phrase>,
    c: Box<Phrase>,
) -> Result<Phrase, OutOfMemory> {
    let mut parts = Parts::new(alloc);
    parts.push(Box::into_inner(b))?;
    parts.push(Box::into_inner(c))?;
    Ok(Phrase::Case(a, parts, AT))
}

// The next operand, from the last on.
fn next(alloc: Global, stack: &mut Vec<Phrase>) -> Result<Box<Phrase>, Fail> {
    match stack.pop() {
        Some(p) => Ok(boxed(alloc, p)?),
        None => Err(Fail::from("no operand")),
    }
}

fn with_three(alloc: Global, letter: u8, stack: &mut Vec<Phrase>) -> Result<Phrase, Fail> {
    let c = next(alloc, stack)?;
    let b = next(alloc, stack)?;
    let a = next(alloc, stack)?;
    if letter == b'?' {
        Ok(Phrase::Cond(a, b, c, AT))
    } else {
        Ok(case_of(alloc, a, b, c)?)
    }
}

// The phrase of a letter, behind its operands.
fn node(alloc: Global, letter: u8, stack: &mut Vec<Phrase>) -> Result<Phrase, Fail> {
    match letter {
        b'0'..=b'9' => Ok(leaf(letter)),
        b'b' => Ok(abstraction(alloc, next(alloc, stack)?)?),
        b'a'..=b'z' => Ok(with_one(letter, next(alloc, stack)?)),
        b'A'..=b'Z' => {
            let b = next(alloc, stack)?;
            Ok(with_two(letter, next(alloc, stack)?, b))
        }
        _ => with_three(alloc, letter, stack),
    }
}

fn phrase_of(alloc: Global, letters: &[u8]) -> Result<Phrase, Fail> {
    let mut stack = Vec::new(alloc);
    for letter in letters {
        let made = node(alloc, *letter, &mut stack)?;
        stack.push(made)?;
    }
    match stack.pop() {
        Some(p) => Ok(p),
        None => Err(Fail::from("no phrase")),
    }
}

// Phrases of all forms in reverse Polish notation, a letter for each node. In these expressions variable 0 stands three times.
const EXPRESSIONS: &[u8] = b"2n0P004#5?fs";

const COMMANDS: &[u8] = b"1pb4aM0Clr201AN324KeiWQL";

const DEPTHS: &[(&[u8], u32)] = &[(EXPRESSIONS, 0), (COMMANDS, 7)];

#[test]
fn counts_and_copies_every_form(rt: HostRuntime) -> Result<(), Fail> {
    let alloc = rt.alloc();
    for (letters, depth) in DEPTHS {
        let phrase = phrase_of(alloc, letters)?;
        assert!(rt; node_count(&phrase) == letters.len() as u64 && depth_of(&phrase) == *depth);
        let copy = copy_phrase(alloc, &phrase)?;
        let copied = format!(in alloc; "{copy:?}")?;
        assert_eq!(rt; copied, format!(in alloc; "{phrase:?}")?);
    }
    Ok(())
}

#[test]
fn closes_every_form(rt: HostRuntime) -> Result<(), Fail> {
    let alloc = rt.alloc();
    let actual = phrase_of(alloc, EXPRESSIONS)?;
    let body = phrase_of(alloc, COMMANDS)?;
    let closed = close_with(alloc, &actual, &body)?;
    assert!(rt; node_count(&closed) == 12 + 3 * 23 && depth_of(&closed) == 7);
    assert_eq!(rt; closed.place(), AT);
    Ok(())
}
