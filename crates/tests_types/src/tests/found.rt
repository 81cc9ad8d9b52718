use crate::tests::made::{AT, boxed, first_of, types_of};
use fy_base::{BinOp, Datum, OutOfMemory, PutKind};
use fy_derive::{Derivation, DeriveError, check, check_as, nesting_of, nodes_of};
use fy_least::{FindError, find, find_as};
use fy_phrase::Phrase;
use fy_types::{Ty, TyList};
use std::alloc::Global;
use std::test::Fail;

// `f (g 'A')`, where `f` and `g` are bound around the phrase, `f` outermost.
fn calls(alloc: Global) -> Result<Phrase, OutOfMemory> {
    let letter = boxed(alloc, Phrase::Lit(Datum::Char(65), AT))?;
    let inner = Phrase::App(boxed(alloc, Phrase::Var(0, AT))?, letter, AT);
    let outer = boxed(alloc, Phrase::Var(1, AT))?;
    Ok(Phrase::App(outer, boxed(alloc, inner)?, AT))
}

// The members of the first type, a meet.
fn members_of(d: &Derivation) -> Result<&TyList, Fail> {
    match d {
        Derivation::Sub(Ty::Meet(members), _) => Ok(members),
        _ => Err(Fail::from("no meet")),
    }
}

// The node at which the derivation is refused as one of the type for the calls, or nothing.
fn refused(alloc: Global, context: &TyList, ty: &Ty, d: &Derivation) -> Result<Option<u32>, Fail> {
    if nodes_of(d) > 262144 || nesting_of(d) > 2048 {
        return Err(Fail::from("past the limits"));
    }
    match check_as(alloc, context, &calls(alloc)?, ty, d) {
        Ok(()) => Ok(None),
        Err(DeriveError::Wrong(node)) => Ok(Some(node)),
        Err(DeriveError::OutOfMemory) => Err(Fail::from("out of memory")),
    }
}

// The derivation that is found for the calls, if they have the type.
fn found(alloc: Global, context: &TyList, ty: &Ty) -> Result<Option<Derivation>, Fail> {
    match find_as(alloc, context, &calls(alloc)?, ty) {
        Ok(d) => Ok(Some(d)),
        Err(FindError::NoType(_)) => Ok(None),
        Err(error) => Err(error.into()),
    }
}

// A type, another one and the meet of those of `f` and `g`, and the node at which what is found for the first is refused for the
// other, if it is found.
const WANTED: &[(&[u8], Option<Option<u32>>)] = &[
    (
        b"sub [comm] sub [ns] sub [(int -> comm) & (char -> int)] ns",
        Some(Some(0)),
    ),
    (
        b"sub [ns] sub [ns] sub [(int -> comm) & (char -> int)] ns",
        Some(None),
    ),
    (
        b"sub [int] sub [ns] sub [(int -> comm) & (char -> int)] ns",
        None,
    ),
];

#[test]
fn types_of_variables_around_a_phrase(rt: HostRuntime) -> Result<(), Fail> {
    let alloc = rt.alloc();
    for (text, node) in WANTED {
        let types = types_of(alloc, text)?;
        let (ty, others) = first_of(&types)?;
        let (other, rest) = first_of(others)?;
        let context = members_of(rest)?;
        match found(alloc, context, ty)? {
            Some(d) => {
                assert_eq!(rt; refused(alloc, context, ty, &d)?, None);
                let at = refused(alloc, context, other, &d)?;
                assert!(rt; *node == Some(at));
            }
            None => assert!(rt; node.is_none()),
        }
    }
    Ok(())
}

#[test]
fn no_types_of_free_variables(rt: HostRuntime) -> Result<(), Fail> {
    let alloc = rt.alloc();
    let p = calls(alloc)?;
    assert!(rt; matches!(find(alloc, &p), Err(FindError::NoType(_))));
    Ok(())
}

// The cell with the index of the sequence in scope.
fn cell(alloc: Global, index: Datum) -> Result<Box<Phrase>, OutOfMemory> {
    let sequence = boxed(alloc, Phrase::Var(0, AT))?;
    let index = boxed(alloc, Phrase::Lit(index, AT))?;
    boxed(alloc, Phrase::App(sequence, index, AT))
}

// So many cells, of which one is assigned 7; it and their number are put together.
fn cells(alloc: Global, count: Datum, index: Datum) -> Result<Phrase, OutOfMemory> {
    let seven = boxed(alloc, Phrase::Lit(Datum::Int(7), AT))?;
    let assign = Phrase::Assign(cell(alloc, index)?, seven, AT);
    let length = Phrase::Sel(boxed(alloc, Phrase::Var(0, AT))?, 0, AT);
    let sum = Phrase::Binary(BinOp::Add, cell(alloc, index)?, boxed(alloc, length)?, AT);
    let put = Phrase::Put(PutKind::Int, boxed(alloc, sum)?, AT);
    let body = Phrase::Seq(boxed(alloc, assign)?, boxed(alloc, put)?, AT);
    let count = boxed(alloc, Phrase::Lit(count, AT))?;
    Ok(Phrase::Cells(0, count, boxed(alloc, body)?, AT))
}

// What is found for a sequence of cells is accepted; a count and an index are integers.
#[test]
fn types_of_sequences_of_cells(rt: HostRuntime) -> Result<(), Fail> {
    let alloc = rt.alloc();
    let two = Datum::Int(2);
    let truth = Datum::Bool(true);
    let p = cells(alloc, two, two)?;
    let d = find(alloc, &p)?;
    if nodes_of(&d) > 262144 || nesting_of(&d) > 2048 {
        return Err(Fail::from("past the limits"));
    }
    check(alloc, &p, &d)?;
    for (count, index) in [(truth, two), (two, truth)] {
        let p = cells(alloc, count, index)?;
        assert!(rt; matches!(find(alloc, &p), Err(FindError::NoType(_))));
    }
    Ok(())
}
