//! Subtyping of path forms.

ghost use Rattle.std.specs.Prelude.{◌↔◌, IsTrue};
ghost use Rattle.fy_types.specs.Subtyping.{IsSubtype};
ghost use Rattle.fy_types.specs.PathOrder.{IsEndBelow, IsPathBelow, ArePathsBelow, HasBelow};
ghost use Rattle.fy_types.specs.Reading.{IsElemBelow, plain_elem, plain_path, plain_paths, type_of_form};

use crate::paths::{Path, PathElem, Paths};
use crate::types::Atom;

/// Whether the type that the first path form stands for is a subtype of the second's.
pub fn is_subtype(a: &Paths, b: &Paths) -> bool
    ensures { IsTrue result ↔ IsSubtype (type_of_form a.now) (type_of_form b.now) }
{
    are_paths_below(a, b)
}

#[cycle(below)]
fn are_paths_below(a: &Paths, b: &Paths) -> bool
    ensures { IsTrue result ↔ ArePathsBelow (plain_paths a.now) (plain_paths b.now) }
{
    for path in b.as_slice() {
        if !has_below(a, path) {
            return false;
        }
    }
    true
}

#[cycle(below)]
fn has_below(list: &Paths, above: &Path) -> bool
    ensures { IsTrue result ↔ HasBelow (plain_paths list.now) (plain_path above.now) }
{
    for path in list.as_slice() {
        if is_path_below(path, above) {
            return true;
        }
    }
    false
}

#[cycle(below)]
fn is_path_below(p: &Path, q: &Path) -> bool
    ensures { IsTrue result ↔ IsPathBelow (plain_path p.now) (plain_path q.now) }
{
    let xs = p.elems.as_slice();
    let ys = q.elems.as_slice();
    if xs.len() != ys.len() || !is_end_below(p.end, q.end) {
        return false;
    }
    for i in 0..xs.len() {
        if !is_elem_below(&xs[i], &ys[i]) {
            return false;
        }
    }
    true
}

#[cycle(below)]
fn is_elem_below(x: &PathElem, y: &PathElem) -> bool
    ensures { IsTrue result ↔ IsElemBelow (plain_elem x.now) (plain_elem y.now) }
{
    match x {
        PathElem::Call(d) => match y {
            PathElem::Call(e) => are_paths_below(e, d),
            PathElem::Field(_) => false,
        },
        PathElem::Field(i) => match y {
            PathElem::Call(_) => false,
            PathElem::Field(j) => *i == *j,
        },
    }
}

/// Whether the ends are equal, or `compl` and `comm`.
pub fn is_end_below(a: Atom, b: Atom) -> bool
    ensures { IsTrue result ↔ IsEndBelow a b }
{
    a == b || (a == Atom::Compl && b == Atom::Comm)
}
