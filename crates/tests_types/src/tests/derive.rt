use crate::tests::made::{AT, boxed};
use fy_base::OutOfMemory;
use fy_derive::{Derivation, DerivationList, DeriveError, check, nesting_of, nodes_of};
use fy_phrase::Phrase;
use std::alloc::Global;
use std::test::Fail;

fn meet_of_one(alloc: Global) -> Result<Derivation, OutOfMemory> {
    let mut list = DerivationList::new(alloc);
    list.push(Derivation::Ns)?;
    Ok(Derivation::Meet(list))
}

// The derivation for a definition, with the meet of none for what it stands before.
fn before_none(alloc: Global, first: Derivation) -> Result<Derivation, OutOfMemory> {
    let mut premises = DerivationList::new(alloc);
    premises.push(first)?;
    premises.push(Derivation::Meet(DerivationList::new(alloc)))?;
    Ok(Derivation::Rule(premises))
}

// The node at which judging of a derivation for `let a == skip in skip` stops, or nothing where it is accepted.
fn refused(alloc: Global, d: &Derivation) -> Result<Option<u32>, Fail> {
    let definition = boxed(alloc, Phrase::Skip(AT))?;
    let p = Phrase::LetIn(0, definition, boxed(alloc, Phrase::Skip(AT))?, AT);
    if nodes_of(d) > 262144 || nesting_of(d) > 2048 {
        return Err(Fail::from("past the limits"));
    }
    match check(alloc, &p, d) {
        Ok(()) => Ok(None),
        Err(DeriveError::Wrong(node)) => Ok(Some(node)),
        Err(DeriveError::OutOfMemory) => Err(Fail::from("out of memory")),
    }
}

// Meets of fewer than two derivations, which no text spells.
#[test]
fn meets_of_one_and_of_none(rt: HostRuntime) -> Result<(), Fail> {
    let alloc = rt.alloc();
    let of_one = before_none(alloc, meet_of_one(alloc)?)?;
    assert_eq!(rt; refused(alloc, &of_one)?, Some(1));
    let of_none = before_none(alloc, Derivation::Ns)?;
    assert_eq!(rt; refused(alloc, &of_none)?, Some(2));
    Ok(())
}
