use fy_base::{Datum, Place, PutKind};
use fy_derive::{Derivation, DerivationList, check, nesting_of, nodes_of};
use fy_phrase::{Pair, Phrase, node_count};
use pe_shapes::shapes_of;
use std::alloc::Global;
use std::test::Fail;

// `putint(1)`, without what stands around a whole program.
fn put_one(alloc: Global) -> Result<Phrase, Fail> {
    let here = Place { line: 1, col: 1 };
    let one = Box::new(alloc, Phrase::Lit(Datum::Int(1), here))?;
    Ok(Phrase::Put(PutKind::Int, one, here))
}

fn derived(alloc: Global) -> Result<Derivation, Fail> {
    let mut premises = DerivationList::new(alloc);
    premises.push(Derivation::Rule(DerivationList::new(alloc)))?;
    Ok(Derivation::Rule(premises))
}

#[test]
fn a_literal_is_asked_for_a_value_and_the_whole_is_run(rt: HostRuntime) -> Result<(), Fail> {
    let alloc = rt.alloc();
    let p = put_one(alloc)?;
    let d = derived(alloc)?;
    assert!(rt; node_count(&p) <= 65536);
    assert!(rt; nodes_of(&d) <= 262_144);
    assert!(rt; nesting_of(&d) <= 2048);
    check(alloc, &p, &d)?;
    let table = shapes_of(alloc, &p, &d)?;
    assert_eq!(rt; table.shapes.len(), 2);
    assert_eq!(rt;
        table.pairs.as_slice(),
        [Pair { node: 0, shape: 1 }, Pair { node: 1, shape: 0 }].as_slice()
    );
    Ok(())
}
