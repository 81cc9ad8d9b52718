use fy_derive::Derivation;
use fy_link::{UnitList, compile_unit, link, read_unit, write_unit};
use fy_types::Names;
use std::test::Fail;

const SOURCE: &[u8] = b"main : comm == skip";

// The bytes of its unit with the derivation `rule 0`, and as it is written, with the derivation that is found.
const MADE: &[u8] = b"FORSYU64\x01\0\0\0\x13\0\0\0main : comm == skiprule 0";

const WRITTEN: &[u8] = b"FORSYU64\x01\0\0\0\x13\0\0\0main : comm == skipsub [comm]\nrule 0\n";

#[test]
fn a_unit_is_written_and_read(rt: HostRuntime) -> Result<(), Fail> {
    let alloc = rt.alloc();
    let mut names = Names::new(alloc)?;
    let unit = compile_unit(alloc, &mut names, SOURCE)?;
    let bytes = write_unit(alloc, &names, &unit)?;
    assert_eq!(rt; bytes.as_slice(), WRITTEN);
    let read = read_unit(alloc, &mut names, MADE)?;
    assert_eq!(rt; read.source.as_slice(), SOURCE);
    assert!(rt; matches!(&read.derivation, Derivation::Rule(_)));
    Ok(())
}

// The text of the two units below, of which each but the last is a definition.
const TEXT: &[u8] = b"let square == ( \\x: int. x * x) in ( putint (square 7))";

#[test]
fn two_units_are_linked_to_one_text(rt: HostRuntime) -> Result<(), Fail> {
    let alloc = rt.alloc();
    let mut names = Names::new(alloc)?;
    let square = compile_unit(alloc, &mut names, b"square : int -> int == \\x: int. x * x")?;
    let main = compile_unit(
        alloc,
        &mut names,
        b"square : int -> int, main : comm == putint (square 7)",
    )?;
    let mut units = UnitList::new(alloc);
    units.push(square)?;
    units.push(main)?;
    let linked = link(alloc, &mut names, &units)?;
    assert_eq!(rt; linked.text.as_slice(), TEXT);
    Ok(())
}
