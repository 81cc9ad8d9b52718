//! The path form of the variable of a sequence of cells.

ghost use Rattle.std.specs.Prelude.{◌≡◌, IfOk};
ghost use Rattle.fy_types.specs.Paths.{call, end as ends, paths as paths_in_type, pick};
ghost use Rattle.fy_types.specs.Reading.{plain_path, plain_paths};
ghost use Rattle.fy_derive.specs.Atoms.{sequence_type};
ghost use Rattle.fy_derive.specs.Least.{one_end as one_end_of};

use fy_base::OutOfMemory;
use fy_order::one_end;
use fy_types::{Atom, ElemList, Name, Path, PathElem, Paths};
use std::alloc::Global;
use std::rc::Rc;

// The number of the name `len`.
const LENGTH: Name = 0;

/// The paths of a sequence's variable.
pub(crate) fn sequence_form(alloc: Global) -> Result<Paths, OutOfMemory>
    ensures { IfOk result (λ made. plain_paths made ≡ paths_in_type sequence_type) }
{
    let mut paths = Paths::new(alloc);
    paths.push(indexed(alloc, Atom::Int)?)?;
    paths.push(indexed(alloc, Atom::IntAcc)?)?;
    paths.push(measured(alloc)?)?;
    Ok(paths)
}

// A cell for an index, that is used as the end.
#[tactic(auto, using(crate::proofs::SequenceLemmas::elements))]
fn indexed(alloc: Global, end: Atom) -> Result<Path, OutOfMemory>
    ensures { IfOk result (λ made. plain_path made ≡ call (one_end_of Atom.Int) (ends end)) }
{
    let index = Rc::new(alloc, one_end(alloc, Atom::Int)?)?;
    at_once(alloc, end).after(PathElem::Call(index))
}

// The length.
#[tactic(auto, using(crate::proofs::SequenceLemmas::elements))]
fn measured(alloc: Global) -> Result<Path, OutOfMemory>
    ensures { IfOk result (λ made. plain_path made ≡ pick 0 (ends Atom.Int)) }
{
    at_once(alloc, Atom::Int).after(PathElem::Field(LENGTH))
}

// The path without demands.
fn at_once(alloc: Global, end: Atom) -> Path
    ensures { plain_path result ≡ ends end }
{
    Path {
        elems: ElemList::new(alloc),
        end,
    }
}
