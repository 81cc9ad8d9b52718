//! What several tests make.

use fy_base::{OutOfMemory, Place};
use fy_derive::Derivation;
use fy_phrase::Phrase;
use fy_read::read_derivation;
use fy_types::{Names, Ty};
use std::alloc::Global;
use std::test::Fail;

pub const AT: Place = Place { line: 1, col: 1 };

pub fn boxed(alloc: Global, p: Phrase) -> Result<Box<Phrase>, OutOfMemory> {
    Ok(Box::new(alloc, p)?)
}

// The types of a text such as `sub [int] sub [bool] ns`, in a derivation.
pub fn types_of(alloc: Global, text: &[u8]) -> Result<Derivation, Fail> {
    if text.len() > 16777216 {
        return Err(Fail::from("past the limits"));
    }
    let mut names = Names::new(alloc)?;
    Ok(read_derivation(alloc, &mut names, text)?)
}

// The first type, and the derivation that has the others.
pub fn first_of(d: &Derivation) -> Result<(&Ty, &Derivation), Fail> {
    match d {
        Derivation::Sub(ty, others) => Ok((ty, others)),
        _ => Err(Fail::from("no type")),
    }
}
